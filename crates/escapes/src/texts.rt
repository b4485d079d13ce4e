// s and rdata: any bytes, where a backslash stands before three octal digits.
ghost use Rattle.std.specs.Prelude.{◌≡◌, true, [], ◌≤◌, length, option_map};
ghost use Rattle.rules.specs.Lists.{is_some, value_or};
ghost use Rattle.rules.specs.Fields.{text_of};
ghost use Rattle.buffer.specs.Put.{IsPut};
ghost use Rattle.escapes.specs.TextSteps.{escape_of, escaped_front, front_of};

// The byte that three octal digits stand for. A first digit above 3 would give more than a byte.
fn escape(c: u8, d: u8, e: u8) -> Option<u8>
    ensures { result ≡ escape_of c d e }
{
    match (c, d, e) {
        (b'0'..=b'3', b'0'..=b'7', b'0'..=b'7') => {
            Some((c - b'0') * 64 + (d - b'0') * 8 + (e - b'0'))
        }
        _ => None,
    }
}

// The byte that the digits at the front stand for, and what is behind them.
fn escaped_front(text: &[u8]) -> Option<(u8, &[u8])>
    ensures { option_map (λ p. (p.0, p.1.now)) result ≡ escaped_front text.now }
{
    match text {
        [c, d, e, rest @ ..] => Some((escape(*c, *d, *e)?, rest)),
        _ => None,
    }
}

// The byte that the text's front stands for, and what is behind it; none where the front is at fault.
fn front(text: &[u8]) -> Option<(u8, &[u8])>
    ensures { option_map (λ p. (p.0, p.1.now)) result ≡ front_of text.now }
{
    match text {
        [b, rest @ ..] => {
            if *b == b'\\' {
                return escaped_front(rest);
            }
            Some((*b, rest))
        }
        [] => None,
    }
}

// The count of bytes that a text stands for.
pub fn judge_text(text: &[u8]) -> Option<usize>
    ensures { result ≡ option_map length (text_of text.now) }
{
    let mut count = 0;
    let mut left = text;
    // a turn takes one byte or four, so no method that walks a slice fits
    while left.len() != 0 {
        let (_, rest) = front(left)?;
        count += 1;
        left = rest;
    }
    Some(count)
}

// The bytes that a good text stands for, at the front of out.
pub fn put_text(out: &mut [u8], text: &[u8]) -> usize
    requires { (is_some (text_of text.now) ≡ true) × (length (value_or [] (text_of text.now)) ≤ length out.old) }
    ensures { IsPut (value_or [] (text_of text.now)) out.old out.new result }
{
    let mut used = 0;
    let mut left = text;
    // as in judge_text, a turn takes one byte or four
    while let Some((b, rest)) = front(left) {
        out[used] = b;
        used += 1;
        left = rest;
    }
    used
}

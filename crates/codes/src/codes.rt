// lo: one or two letters.
ghost use Rattle.std.specs.Prelude.{◌≡◌};
ghost use Rattle.rules.specs.Fields.{lo_of};
ghost use Rattle.codes.specs.Letters.{letter_of};

use letters::ascii::is_letter;
use rules::quantities::Lo;

fn letter(b: u8) -> Option<u8>
    ensures { result ≡ letter_of b }
{
    if is_letter(b) { Some(b) } else { None }
}

// A code of one letter has 0 for its second byte.
pub fn lo(text: &[u8]) -> Option<Lo>
    ensures { result ≡ lo_of text.now }
{
    match *text {
        [a] => Some(Lo::Code(letter(a)?, 0)),
        [a, b] => Some(Lo::Code(letter(a)?, letter(b)?)),
        _ => None,
    }
}

// A text and the byte that parts its pieces.
ghost use Rattle.std.specs.Prelude.{◌≡◌, ℕ, List, ◌≤◌, ◌<◌, length, take, Option, option_map, IfSome};
ghost use Rattle.std.specs.Iterator.{YieldsFirstRef, item_count};
ghost use Rattle.pieces.specs.Pieces.{first_at, IsEnd, Reads, read_in};
ghost use Rattle.rules.specs.Lists.{has, split_on};

use std::marker::Model;

// The place of the first byte b, or the text's length.
fn first_place(text: &[u8], b: u8) -> usize
    ensures place { result ≡ first_at b text.now }
    ensures within { result ≤ length text.now }
{
    text.iter().position(|&x| x == b).unwrap_or(text.len())
}

// Where the piece that begins at start ends: at the next byte b, or at the text's end.
pub fn piece_end(text: &[u8], start: usize, b: u8) -> usize
    requires { start ≤ length text.now }
    ensures { IsEnd b text.now start result }
{
    start + first_place(&text[start..], b)
}

pub fn has_byte(text: &[u8], b: u8) -> bool
    ensures { result ≡ has b text.now }
{
    text.contains(&b)
}

// In a contract it is the list of the pieces that are left.
#[derive(Drop)]
pub struct Pieces<'a> {
    left: Option<&'a [u8]>,
    by: u8,
}

impl<'a> Model for Pieces<'a> {
    ghost use Rattle.std.specs.Prelude.{ℕ, List};
    ghost use Rattle.pieces.specs.Pieces.{pieces_left};

    ghost Value = { List (List ℕ) };

    ghost view = { λ s. pieces_left s.by s.left };
}

impl<'a> Pieces<'a> {
    // The pieces between the bytes equal to b.
    pub fn new(text: &'a [u8], b: u8) -> Self
        ensures { result ≡ split_on b text.now }
    {
        Pieces {
            left: Some(text),
            by: b,
        }
    }
}

impl<'a> Iterator for Pieces<'a> {
    type Item = &'a [u8];

    ghost next_gives = { YieldsFirstRef (λ s. s) };

    ghost remaining = { item_count (λ s. s) };

    fn next(&mut self) -> Option<&'a [u8]> {
        let text = self.left?;
        let end = first_place(text, self.by);
        self.left = text.get(end + 1..);
        Some(&text[..end])
    }
}

// Reads the pieces between the bytes equal to b into the places of out, in order.
// Answers how many they are, where each reads and has a place.
pub fn read_pieces<T: Copy, F: Fn(&[u8]) -> Option<T>>(
    text: &[u8],
    b: u8,
    read: F,
    out: &mut [T],
) -> Option<usize>
    requires { F.IsAlwaysCallable read }
    ensures values { (f : List ℕ → Option T) → Reads F.Fn read f → option_map (λ n. take n out.new) result ≡ read_in (length out.old) f (split_on b text.now) }
    ensures room { IfSome result (λ n. n ≤ length out.old) }
{
    let mut count = 0;
    for piece in Pieces::new(text, b) {
        if count == out.len() {
            return None;
        }
        let Some(value) = read(piece) else {
            return None;
        };
        out[count] = value;
        count += 1;
    }
    Some(count)
}

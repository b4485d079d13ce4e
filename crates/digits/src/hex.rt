// Hexadecimal digits.
ghost use Rattle.std.specs.Prelude.{◌≡◌, ℕ, ◌≤◌};
ghost use Rattle.digits.specs.Digits.{hex_of, hex_just};
ghost use Rattle.std.proofs.Common.{rules};
ghost use Rattle.digits.specs.Laws.{hex_below};

use crate::radix::{Radix, value};

// The value of a digit whose letters are in lower case; none for any other byte.
pub fn hex_digit(b: u8) -> Option<u64>
    ensures { result ≡ hex_of b }
{
    match b {
        b'0'..=b'9' => Some((b - b'0') as u64),
        b'a'..=b'f' => Some((b - b'a' + 10) as u64),
        _ => None,
    }
}

// Digits whose letters are in lower case.
pub struct Hex;

impl Radix for Hex {
    ghost BASE = { 16 };

    ghost digit_of = { hex_of };

    const BASE: u64 = 16;

    fn digit(b: u8) -> Option<u64> {
        hex_digit(b)
    }

    ghost few = { Prim.search rules };

    ghost below = { hex_below };
}

// The number that a text of just N digits says.
pub fn hex_number<const N: usize>(text: &[u8]) -> Option<u64>
    requires { N ≤ 16 }
    ensures { result ≡ hex_just N text.now }
{
    if text.len() != N {
        return None;
    }
    value::<Hex>(text)
}

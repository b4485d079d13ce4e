// IPv6: eight groups of 1 to 4 hexadecimal digits joined by underscores.
ghost use Rattle.std.specs.Prelude.{◌≡◌, option_map};
ghost use Rattle.std.proofs.Common.{rules};
ghost use Rattle.groups.specs.Groups.{any_hex_of, group_of, groups_bytes, groups_of};
ghost use Rattle.groups.specs.Laws.{any_hex_below};

use digits::hex::hex_digit;
use digits::radix::{Radix, value};
use letters::letters::lowered;
use pieces::pieces::read_pieces;

// Hexadecimal digits, their letters in either case.
struct AnyHex;

impl Radix for AnyHex {
    ghost BASE = { 16 };

    ghost digit_of = { any_hex_of };

    const BASE: u64 = 16;

    fn digit(b: u8) -> Option<u64> {
        hex_digit(lowered(b))
    }

    ghost few = { Prim.search rules };

    ghost below = { any_hex_below };
}

// "1 to 4 hex digits"
const MOST_DIGITS: usize = 4;

fn group(text: &[u8]) -> Option<u16>
    ensures { result ≡ group_of text.now }
{
    let n = text.len();
    if n == 0 {
        return None;
    }
    if MOST_DIGITS < n {
        return None;
    }
    let number = value::<AnyHex>(text)?;
    Some(number as u16)
}

const GROUPS: usize = 8;

// Eight groups joined by single underscores.
pub fn groups(text: &[u8]) -> Option<[u16; 8]>
    ensures { option_map groups_bytes result ≡ groups_of text.now }
{
    let mut groups = [0u16; 8];
    let count = read_pieces(text, b'_', group, &mut groups)?;
    if count == GROUPS { Some(groups) } else { None }
}

// Decimal digits.
ghost use Rattle.std.specs.Prelude.{◌≡◌};
ghost use Rattle.digits.specs.Digits.{decimal_of};
ghost use Rattle.std.proofs.Common.{rules};
ghost use Rattle.digits.specs.Laws.{decimal_below};

use crate::radix::Radix;

pub struct Decimal;

impl Radix for Decimal {
    ghost BASE = { 10 };

    ghost digit_of = { decimal_of };

    const BASE: u64 = 10;

    fn digit(b: u8) -> Option<u64> {
        match b {
            b'0'..=b'9' => Some((b - b'0') as u64),
            _ => None,
        }
    }

    ghost few = { Prim.search rules };

    ghost below = { decimal_below };
}

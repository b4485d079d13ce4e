// The number that digits of a base say.
ghost use Rattle.std.specs.Prelude.{◌≡◌, ℕ, ◌≤◌, ◌<◌, Option, Some, length};
ghost use Rattle.digits.specs.Digits.{value_from};

// A base of at most sixteen, and its digits.
pub trait Radix {
    ghost BASE: { ℕ };

    ghost digit_of: { ℕ → Option ℕ };

    const BASE: u64;

    // What a digit is worth; none for any other byte.
    fn digit(b: u8) -> Option<u64>
        ensures { result ≡ digit_of b };

    ghost few: { BASE ≤ 16 };

    ghost below: { (b d : ℕ) → digit_of b ≡ Some d → d < 16 };
}

// The number that a text of digits says.
pub fn value<R: Radix>(text: &[u8]) -> Option<u64>
    requires { length text.now ≤ 16 }
    ensures { result ≡ value_from R.BASE R.digit_of 0 text.now }
{
    let mut value: u64 = 0;
    for &b in text {
        let digit = R::digit(b)?;
        value = value * R::BASE + digit;
    }
    Some(value)
}

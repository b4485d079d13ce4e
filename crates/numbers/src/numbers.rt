// A decimal number of 1 to 10 digits, at most a limit.
ghost use Rattle.std.specs.Prelude.{◌≡◌};
ghost use Rattle.rules.specs.Fields.{number_of};

use digits::decimal::Decimal;
use digits::radix::value;

// Ten digits need more than 32 bits.
const MOST_DIGITS: usize = 10;

// The number that a text says, where it is at most the limit.
pub fn number(text: &[u8], limit: u64) -> Option<u64>
    ensures { result ≡ number_of limit text.now }
{
    let n = text.len();
    if n == 0 {
        return None;
    }
    if MOST_DIGITS < n {
        return None;
    }
    let value = value::<Decimal>(text)?;
    if value <= limit { Some(value) } else { None }
}

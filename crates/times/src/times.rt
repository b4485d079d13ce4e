// time: a second as 16 hexadecimal digits.
ghost use Rattle.std.specs.Prelude.{◌≡◌, option_map};
ghost use Rattle.rules.specs.Fields.{time_of};

use digits::hex::hex_number;
use rules::quantities::Moment;

// A time has just so many digits.
const DIGITS: usize = 16;

// The second that a text says: not 0, and below 2^63.
pub fn time(text: &[u8]) -> Option<Moment>
    ensures { option_map (λ m. m.0) result ≡ time_of text.now }
{
    match hex_number::<DIGITS>(text)? {
        value @ 1..=9223372036854775807 => Some(Moment(value)),
        _ => None,
    }
}

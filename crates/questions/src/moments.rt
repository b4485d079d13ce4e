// A moment of 64 bits, as 16 hexadecimal digits.
ghost use Rattle.std.specs.Prelude.{◌≡◌, option_map};
ghost use Rattle.questions.specs.Questions.{moment_of};

use digits::hex::hex_number;
use rules::quantities::Moment;

// A moment has just so many digits.
const DIGITS: usize = 16;

#[tactic(auto, unfolding(crate::specs::Questions::moment_of, digits::specs::Digits::hex_just))]
pub fn read_moment(text: &[u8]) -> Option<Moment>
    ensures { option_map (λ m. m.0) result ≡ moment_of text.now }
{
    let second = hex_number::<DIGITS>(text)?;
    Some(Moment(second))
}

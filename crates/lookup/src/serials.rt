// The serial that an argument says.
ghost use Rattle.std.specs.Prelude.{◌≡◌};
ghost use Rattle.rules.specs.Fields.{number_of, largest_long};

use numbers::numbers::number;

// A serial: a decimal number of 32 bits.
#[tactic(auto, using(numbers::proofs::Number::within), unfolding(rules::specs::Fields::largest_long))]
pub fn serial(text: &[u8]) -> Option<u32>
    ensures { result ≡ number_of largest_long text.now }
{
    let value = number(text, 4294967295)?;
    Some(value as u32)
}

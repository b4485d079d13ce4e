// A prefix of an address.
ghost use Rattle.std.specs.Prelude.{◌≡◌};
ghost use Rattle.rules.specs.Fields.{prefix_of};

use buffer::filled::Filled;
use octets::octets::octets;

// None to four numbers.
pub fn prefix(text: &[u8]) -> Option<Filled<4>>
    ensures { result ≡ prefix_of text.now }
{
    if text.len() == 0 {
        return Some(Filled::new([0u8; 4], 0));
    }
    octets(text)
}

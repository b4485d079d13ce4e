// ip.
ghost use Rattle.std.specs.Prelude.{◌≡◌, option_map};
ghost use Rattle.rules.specs.Fields.{address_of};
ghost use Rattle.addresses.specs.Addresses.{dotted_address, grouped_address};
ghost use Rattle.addresses.specs.Address.{address_bytes};

use crate::address::Address;
use crate::groups_bytes::address_bytes;
use groups::groups::groups;
use octets::octets::octets;
use pieces::pieces::has_byte;

// Four numbers joined by dots.
fn dotted_address(text: &[u8]) -> Option<Address>
    ensures { option_map address_bytes result ≡ dotted_address text.now }
{
    let read = octets(text)?;
    match *read.as_slice() {
        [a, b, c, d] => Some(Address::V4([a, b, c, d])),
        _ => None,
    }
}

// Eight groups joined by underscores.
fn grouped_address(text: &[u8]) -> Option<Address>
    ensures { option_map address_bytes result ≡ grouped_address text.now }
{
    let eight = groups(text)?;
    Some(Address::V6(address_bytes(eight)))
}

// An underscore makes the difference.
pub fn address(text: &[u8]) -> Option<Address>
    ensures { option_map address_bytes result ≡ address_of text.now }
{
    if has_byte(text, b'_') {
        grouped_address(text)
    } else {
        dotted_address(text)
    }
}

// The record of an address: A, or AAAA.
ghost use Rattle.std.specs.Prelude.{◌≤◌, length};
ghost use Rattle.rules.specs.Records.{address_records};
ghost use Rattle.rules.specs.Bytes.{bytes_of};
ghost use Rattle.buffer.specs.Put.{IsPut};
ghost use Rattle.addresses.specs.HeldAddress.{held_address};

use addresses::address::Address;
use records::resources::put_resource;
use rules::quantities::Shared;

// By the bytes of an address, which may be any: none has no record, four have an A, and others an AAAA.
pub fn put_address(out: &mut [u8], owner: &[u8], bytes: &[u8], shared: Shared) -> usize
    requires { length (bytes_of (address_records shared owner.now bytes.now)) ≤ length out.old }
    ensures { IsPut (bytes_of (address_records shared owner.now bytes.now)) out.old out.new result }
{
    match bytes.len() {
        0 => 0,
        4 => put_resource(out, owner, 1, shared, bytes),
        _ => put_resource(out, owner, 28, shared, bytes),
    }
}

pub fn put_held_address(
    out: &mut [u8],
    owner: &[u8],
    address: Option<Address>,
    shared: Shared,
) -> usize
    requires { length (bytes_of (address_records shared owner.now (held_address address))) ≤ length out.old }
    ensures { IsPut (bytes_of (address_records shared owner.now (held_address address))) out.old out.new result }
{
    match address {
        None => 0,
        Some(held) => put_address(out, owner, held.as_slice(), shared),
    }
}

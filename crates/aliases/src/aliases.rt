// The lines that say a host's address: `+`, and `=` with its PTR.
ghost use Rattle.std.specs.Prelude.{[], ◌∷◌, ◌≤◌, length};
ghost use Rattle.rules.specs.Records.{records_of};
ghost use Rattle.rules.specs.Bytes.{bytes_of};
ghost use Rattle.rules.specs.declared.kinds.Kind.{Kind};
ghost use Rattle.buffer.specs.Put.{IsPut};
ghost use Rattle.values.specs.Ready.{Ready};
ghost use Rattle.aliases.specs.Alone.{alias_records, pointer_record};
ghost use Rattle.splits.specs.Texts.{fields_of};

use a_aaaa::a_aaaa::put_held_address;
use addresses::address::Address;
use hosts::hosts::{address_of, name_at};
use names::names::Name;
use records::resources::put_resource;
use reverse::reverse::read_reverse;
use rules::kinds::Kind;
use rules::quantities::Shared;
use splits::splits::Fields;
use values::values::shared_of;

// What such a line says.
#[derive(Clone, Copy)]
pub struct AddressLine {
    pub shared: Shared,
    pub owner: Name,
    pub address: Address,
}

impl AddressLine {
    ghost use Rattle.std.specs.Prelude.{◌≡◌, true};
    ghost use Rattle.rules.specs.Lists.{is_some};
    ghost use Rattle.rules.specs.Kinds.{field_at, field_count};
    ghost use Rattle.rules.specs.Fields.{address_of};
    ghost use Rattle.aliases.specs.Alone.{IsAddressLine};

    // What is read of a `+` or `=` line.
    fn read(fields: &Fields, kind: Kind) -> AddressLine
        requires { Ready kind (fields_of fields.now) × (3 ≤ field_count kind)
            × (is_some (address_of (field_at (fields_of fields.now) 1)) ≡ true) }
        ensures { IsAddressLine kind (fields_of fields.now) result }
    {
        let shared = shared_of(fields, kind);
        let owner = name_at(fields, 0);
        let address = address_of(fields).unwrap();
        AddressLine {
            shared,
            owner,
            address,
        }
    }
}

fn put_alias(out: &mut [u8], line: &AddressLine) -> usize
    requires { length (bytes_of (alias_records line.now)) ≤ length out.old }
    ensures { IsPut (bytes_of (alias_records line.now)) out.old out.new result }
{
    put_held_address(out, line.owner.as_slice(), Some(line.address), line.shared)
}

pub fn put_alias_line(out: &mut [u8], fields: &Fields) -> usize
    requires { Ready Kind.Alias (fields_of fields.now)
        × (length (bytes_of (records_of 0 Kind.Alias (fields_of fields.now))) ≤ length out.old) }
    ensures { IsPut (bytes_of (records_of 0 Kind.Alias (fields_of fields.now))) out.old out.new result }
{
    let line = AddressLine::read(fields, Kind::Alias);
    put_alias(out, &line)
}

// The PTR that leads back from an address to its owner.
fn put_back(out: &mut [u8], line: &AddressLine) -> usize
    requires { length (bytes_of (pointer_record line.now ∷ [])) ≤ length out.old }
    ensures { IsPut (bytes_of (pointer_record line.now ∷ [])) out.old out.new result }
{
    let reverse = read_reverse(line.address.as_slice());
    let owner = line.owner.as_slice();
    put_resource(out, reverse.as_slice(), 12, line.shared, owner)
}

pub fn put_host_line(out: &mut [u8], fields: &Fields) -> usize
    requires { Ready Kind.Host (fields_of fields.now)
        × (length (bytes_of (records_of 0 Kind.Host (fields_of fields.now))) ≤ length out.old) }
    ensures { IsPut (bytes_of (records_of 0 Kind.Host (fields_of fields.now))) out.old out.new result }
{
    let line = AddressLine::read(fields, Kind::Host);
    let used = put_alias(out, &line);
    used + put_back(&mut out[used..], &line)
}

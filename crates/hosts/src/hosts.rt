// What a line with an address or a field x says of hosts.
ghost use Rattle.std.specs.Prelude.{◌≡◌, true, ◌<◌, option_map};
ghost use Rattle.rules.specs.Kinds.{field_at};
ghost use Rattle.rules.specs.Names.{name_of, wire_of};
ghost use Rattle.rules.specs.Fields.{address_of};
ghost use Rattle.rules.specs.Records.{host_name};
ghost use Rattle.names.specs.Views.{is_named};
ghost use Rattle.given.specs.Given.{HostGood};
ghost use Rattle.addresses.specs.Address.{address_bytes};
ghost use Rattle.values.specs.Ready.{Ready};
ghost use Rattle.splits.specs.Texts.{fields_of};

use addresses::address::Address;
use addresses::addresses::address;
use given::given::read_host;
use names::names::{Name, read_name};
use rules::kinds::Kind;
use rules::quantities::Shared;
use splits::splits::Fields;
use values::values::shared_of;

// What the lines with a field x have in common.
#[derive(Clone, Copy)]
pub struct HostLine {
    pub shared: Shared,
    pub owner: Name,
    pub host: Name,
    pub address: Option<Address>,
}

// The name that field i is.
pub fn name_at(fields: &Fields, i: usize) -> Name
    requires { (i < 11) × (is_named (name_of (field_at (fields_of fields.now) i)) ≡ true) }
    ensures { result ≡ wire_of (field_at (fields_of fields.now) i) }
{
    read_name(fields.field(i))
}

// The address of field 1.
pub fn address_of(fields: &Fields) -> Option<Address>
    ensures { option_map address_bytes result ≡ address_of (field_at (fields_of fields.now) 1) }
{
    address(fields.field(1))
}

// The name that field x gives, between a label and the owner.
fn host_of(fields: &Fields, owner: &Name, middle: &[u8]) -> Name
    requires { HostGood owner.now (field_at (fields_of fields.now) 2) middle.now }
    ensures { result ≡ host_name middle.now owner.now (field_at (fields_of fields.now) 2) }
{
    read_host(owner.as_slice(), fields.field(2), middle)
}

impl HostLine {
    ghost use Rattle.hosts.specs.HostLines.{middle_of, names_host, IsHostLine};

    // What the fields of a kind say, whose label between x and the owner is given.
    pub fn read(fields: &Fields, kind: Kind, middle: &[u8]) -> HostLine
        requires { Ready kind (fields_of fields.now) × (names_host kind ≡ true) × (middle.now ≡ middle_of kind) }
        ensures { IsHostLine kind (fields_of fields.now) result }
    {
        let shared = shared_of(fields, kind);
        let owner = name_at(fields, 0);
        let host = host_of(fields, &owner, middle);
        let address = address_of(fields);
        HostLine {
            shared,
            owner,
            host,
            address,
        }
    }
}

// The lines whose data are a name: pointer and canonical name.
ghost use Rattle.std.specs.Prelude.{◌≤◌, length};
ghost use Rattle.rules.specs.Records.{records_of};
ghost use Rattle.rules.specs.Bytes.{bytes_of};
ghost use Rattle.rules.specs.declared.kinds.Kind.{Kind};
ghost use Rattle.buffer.specs.Put.{IsPut};
ghost use Rattle.values.specs.Ready.{Ready};
ghost use Rattle.pointers.specs.Targets.{Points};
ghost use Rattle.splits.specs.Texts.{fields_of};

use hosts::hosts::name_at;
use records::resources::put_resource;
use rules::kinds::Kind;
use splits::splits::Fields;
use values::values::shared_of;

// The record whose data are the name of field 1.
fn put_target(out: &mut [u8], fields: &Fields, kind: Kind, rtype: u16) -> usize
    requires { Ready kind (fields_of fields.now) × Points kind (fields_of fields.now) rtype
        × (length (bytes_of (records_of 0 kind (fields_of fields.now))) ≤ length out.old) }
    ensures { IsPut (bytes_of (records_of 0 kind (fields_of fields.now))) out.old out.new result }
{
    let shared = shared_of(fields, kind);
    let owner = name_at(fields, 0);
    let target = name_at(fields, 1);
    put_resource(out, owner.as_slice(), rtype, shared, target.as_slice())
}

// Two functions with a contract each: which type belongs to which kind is what they promise.
pub fn put_pointer_line(out: &mut [u8], fields: &Fields) -> usize
    requires { Ready Kind.Pointer (fields_of fields.now)
        × (length (bytes_of (records_of 0 Kind.Pointer (fields_of fields.now))) ≤ length out.old) }
    ensures { IsPut (bytes_of (records_of 0 Kind.Pointer (fields_of fields.now))) out.old out.new result }
{
    put_target(out, fields, Kind::Pointer, 12)
}

pub fn put_canonical_line(out: &mut [u8], fields: &Fields) -> usize
    requires { Ready Kind.Canonical (fields_of fields.now)
        × (length (bytes_of (records_of 0 Kind.Canonical (fields_of fields.now))) ≤ length out.old) }
    ensures { IsPut (bytes_of (records_of 0 Kind.Canonical (fields_of fields.now))) out.old out.new result }
{
    put_target(out, fields, Kind::Canonical, 5)
}

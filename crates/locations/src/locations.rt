// The line of a location.
ghost use Rattle.std.specs.Prelude.{◌≤◌, length};
ghost use Rattle.rules.specs.Records.{records_of};
ghost use Rattle.rules.specs.Bytes.{bytes_of};
ghost use Rattle.rules.specs.declared.kinds.Kind.{Kind};
ghost use Rattle.buffer.specs.Put.{IsPut};
ghost use Rattle.values.specs.Ready.{Ready};
ghost use Rattle.splits.specs.Texts.{fields_of};

use heads::locations::put_location;
use prefixes::prefixes::prefix;
use splits::splits::Fields;
use values::values::lo_at;

pub fn put_location_line(out: &mut [u8], fields: &Fields) -> usize
    requires { Ready Kind.Location (fields_of fields.now)
        × (length (bytes_of (records_of 0 Kind.Location (fields_of fields.now))) ≤ length out.old) }
    ensures { IsPut (bytes_of (records_of 0 Kind.Location (fields_of fields.now))) out.old out.new result }
{
    let lo = lo_at(fields, 0);
    let prefix = prefix(fields.field(1)).unwrap();
    put_location(out, prefix.as_slice(), lo)
}

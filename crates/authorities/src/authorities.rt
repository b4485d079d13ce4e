// The line of an SOA record alone.
ghost use Rattle.std.specs.Prelude.{◌≡◌, ◌≤◌, length};
ghost use Rattle.rules.specs.Records.{records_of};
ghost use Rattle.rules.specs.Bytes.{bytes_of};
ghost use Rattle.rules.specs.declared.kinds.Kind.{Kind};
ghost use Rattle.buffer.specs.Put.{IsPut};
ghost use Rattle.values.specs.Ready.{Ready};
ghost use Rattle.authorities.specs.Numbers.{numbers_of};
ghost use Rattle.splits.specs.Texts.{fields_of};

use hosts::hosts::name_at;
use rules::kinds::Kind;
use soa::soa::{SoaNumbers, put_soa};
use splits::splits::Fields;
use values::values::{long_at, shared_of};

// The numbers of fields 3 to 7, each with its default, as the rules' definition writes them.
fn soa_numbers(fields: &Fields, default: u32) -> SoaNumbers
    ensures { result ≡ numbers_of default (fields_of fields.now) }
{
    SoaNumbers {
        serial: long_at(fields, 3, default),
        refresh: long_at(fields, 4, 16384),
        retry: long_at(fields, 5, 2048),
        expire: long_at(fields, 6, 1048576),
        minimum: long_at(fields, 7, 2560),
    }
}

// The SOA record of the names of fields 1 and 2.
pub fn put_authority_line(out: &mut [u8], fields: &Fields, serial: u32) -> usize
    requires { Ready Kind.Authority (fields_of fields.now)
        × (length (bytes_of (records_of serial Kind.Authority (fields_of fields.now))) ≤ length out.old) }
    ensures { IsPut (bytes_of (records_of serial Kind.Authority (fields_of fields.now))) out.old out.new result }
{
    let shared = shared_of(fields, Kind::Authority);
    let numbers = soa_numbers(fields, serial);
    let owner = name_at(fields, 0);
    let mname = name_at(fields, 1);
    let rname = name_at(fields, 2);
    put_soa(
        out,
        owner.as_slice(),
        shared,
        mname.as_slice(),
        rname.as_slice(),
        numbers,
    )
}

// One line's records, by its kind.
ghost use Rattle.std.specs.Prelude.{◌≡◌, true, ◌≤◌, length};
ghost use Rattle.rules.specs.Lists.{split_on};
ghost use Rattle.rules.specs.Records.{records_of};
ghost use Rattle.rules.specs.Bytes.{bytes_of};
ghost use Rattle.rules.specs.Answers.{is_good, line_records};
ghost use Rattle.buffer.specs.Put.{IsPut};
ghost use Rattle.values.specs.Ready.{Ready};
ghost use Rattle.writer.specs.GoodLine.{GoodRest};
ghost use Rattle.splits.specs.Texts.{fields_of};

use aliases::aliases::{put_alias_line, put_host_line};
use authorities::authorities::put_authority_line;
use kinds::kinds::{is_ignored, kind_of};
use kinds::strips::stripped;
use locations::locations::put_location_line;
use mail::mail::put_mail_line;
use pointers::pointers::{put_canonical_line, put_pointer_line};
use rules::kinds::Kind;
use services::services::put_service_line;
use splits::splits::{Fields, split};
use texts::texts::{put_generic_line, put_text_line};
use zones::zones::{put_delegation_line, put_zone_line};

// A match, since each kind's function asks and promises something of its own.
fn put_kind(out: &mut [u8], fields: &Fields, kind: Kind, serial: u32) -> usize
    requires { Ready kind (fields_of fields.now)
        × (length (bytes_of (records_of serial kind (fields_of fields.now))) ≤ length out.old) }
    ensures { IsPut (bytes_of (records_of serial kind (fields_of fields.now))) out.old out.new result }
{
    match kind {
        Kind::Location => put_location_line(out, fields),
        Kind::Zone => put_zone_line(out, fields, serial),
        Kind::Delegation => put_delegation_line(out, fields),
        Kind::Host => put_host_line(out, fields),
        Kind::Alias => put_alias_line(out, fields),
        Kind::Mail => put_mail_line(out, fields),
        Kind::Service => put_service_line(out, fields),
        Kind::Text => put_text_line(out, fields),
        Kind::Pointer => put_pointer_line(out, fields),
        Kind::Canonical => put_canonical_line(out, fields),
        Kind::Authority => put_authority_line(out, fields, serial),
        Kind::Generic => put_generic_line(out, fields),
        Kind::Unknown => 0,
    }
}

// What stands behind the kind byte. Out of line, so that a line without records costs no frame for those that have some.
#[inline(never)]
fn put_rest(out: &mut [u8], rest: &[u8], kind: Kind, serial: u32) -> usize
    requires { GoodRest kind rest.now × (length (bytes_of (records_of serial kind (split_on 58 rest.now))) ≤ length out.old) }
    ensures { IsPut (bytes_of (records_of serial kind (split_on 58 rest.now))) out.old out.new result }
{
    let fields = split(rest, kind).unwrap();
    put_kind(out, &fields, kind, serial)
}

pub fn put_line(out: &mut [u8], line: &[u8], serial: u32) -> usize
    requires { (is_good line.now ≡ true) × (length (bytes_of (line_records serial line.now)) ≤ length out.old) }
    ensures { IsPut (bytes_of (line_records serial line.now)) out.old out.new result }
{
    let n = stripped(line);
    if n == 0 {
        return 0;
    }
    let first = line[0];
    if is_ignored(first) {
        return 0;
    }
    put_rest(out, &line[1..n], kind_of(first), serial)
}

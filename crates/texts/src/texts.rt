// The lines whose data are a text: text, and any type.
ghost use Rattle.std.specs.Prelude.{◌≡◌, true, [], ◌≤◌, ◌<◌, length};
ghost use Rattle.rules.specs.Lists.{is_some, value_or};
ghost use Rattle.rules.specs.Kinds.{field_at};
ghost use Rattle.rules.specs.Fields.{text_of};
ghost use Rattle.rules.specs.Records.{records_of};
ghost use Rattle.rules.specs.Bytes.{bytes_of};
ghost use Rattle.rules.specs.declared.kinds.Kind.{Kind};
ghost use Rattle.buffer.specs.Put.{IsPut};
ghost use Rattle.values.specs.Ready.{Ready};
ghost use Rattle.splits.specs.Texts.{fields_of};

use buffer::filled::Filled;
use escapes::texts::put_text;
use hosts::hosts::name_at;
use records::resources::put_resource;
use rules::kinds::Kind;
use splits::splits::Fields;
use txt::txt::put_text_record;
use values::values::{shared_of, short_at};

// What a text stands for, held by value.
pub type PlainText = Filled<1024>;

// What the text of field i stands for.
fn text_at(fields: &Fields, i: usize) -> PlainText
    requires { (i < 11) × (length (field_at (fields_of fields.now) i) ≤ 1024)
        × (is_some (text_of (field_at (fields_of fields.now) i)) ≡ true) }
    ensures { result ≡ value_or [] (text_of (field_at (fields_of fields.now) i)) }
{
    let mut bytes = [0u8; 1024];
    let len = put_text(&mut bytes, fields.field(i));
    Filled::new(bytes, len)
}

// Like the line of a name in shape alone: a text goes out in chunks.
pub fn put_text_line(out: &mut [u8], fields: &Fields) -> usize
    requires { Ready Kind.Text (fields_of fields.now)
        × (length (bytes_of (records_of 0 Kind.Text (fields_of fields.now))) ≤ length out.old) }
    ensures { IsPut (bytes_of (records_of 0 Kind.Text (fields_of fields.now))) out.old out.new result }
{
    let shared = shared_of(fields, Kind::Text);
    let owner = name_at(fields, 0);
    let text = text_at(fields, 1);
    put_text_record(out, owner.as_slice(), shared, text.as_slice())
}

pub fn put_generic_line(out: &mut [u8], fields: &Fields) -> usize
    requires { Ready Kind.Generic (fields_of fields.now)
        × (length (bytes_of (records_of 0 Kind.Generic (fields_of fields.now))) ≤ length out.old) }
    ensures { IsPut (bytes_of (records_of 0 Kind.Generic (fields_of fields.now))) out.old out.new result }
{
    let shared = shared_of(fields, Kind::Generic);
    let owner = name_at(fields, 0);
    let rtype = short_at(fields, 1);
    let rdata = text_at(fields, 2);
    put_resource(out, owner.as_slice(), rtype, shared, rdata.as_slice())
}

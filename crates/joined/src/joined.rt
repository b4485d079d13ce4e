// Names that are put together from fields, and the fault of one that is too long.
ghost use Rattle.std.specs.Prelude.{◌≡◌, ◌≤◌, length};
ghost use Rattle.rules.specs.Kinds.{field_at};
ghost use Rattle.rules.specs.Names.{wire_of};
ghost use Rattle.rules.specs.Records.{joined_names};
ghost use Rattle.rules.specs.Answers.{joined_fault};
ghost use Rattle.joined.specs.Joined.{middle_size, contact_size, host_size, if_short};
ghost use Rattle.splits.specs.Texts.{fields_of};

use judged_names::judged::judge_name;
use pieces::pieces::has_byte;
use rules::faults::{Fault, FieldKind, LineFault};
use rules::kinds::Kind;
use splits::splits::Fields;

// The size of a name on the wire, 0 if the text is none.
fn name_size(text: &[u8]) -> usize
    ensures { (result ≡ length (wire_of text.now)) × (result ≤ 255) }
{
    judge_name(text).unwrap_or(0)
}

// The size of the label that stands between x and the fqdn, 0 for a kind that puts no names together.
fn middle_size(kind: Kind) -> usize
    ensures { (result ≡ middle_size kind) × (result ≤ 4) }
{
    match kind {
        Kind::Zone | Kind::Delegation | Kind::Mail => 3,
        Kind::Service => 4,
        _ => 0,
    }
}

// The size of the label that is put in front of an owner for its contact, with its length byte; 0 for a kind without one.
fn contact_size(kind: Kind) -> usize
    ensures { (result ≡ contact_size kind) × (result ≤ 11) }
{
    if kind == Kind::Zone { 11 } else { 0 }
}

// The size of the name that x gives: x itself if it has a dot, else the label x, the one in the middle and the owner.
fn host_size(x: &[u8], middle: usize, owner: usize) -> usize
    requires { (length x.now ≤ 1024) × (middle ≤ 4) × (owner ≤ 255) }
    ensures { result ≡ host_size middle owner x.now }
{
    if has_byte(x, 46) {
        return name_size(x);
    }
    let n = x.len();
    if n == 0 {
        return middle + owner;
    }
    n + 1 + middle + owner
}

// A name of this size, if it isn't too long.
fn if_short(size: usize) -> LineFault
    ensures { result ≡ if_short size }
{
    let fault = if size <= 255 {
        Fault::Done
    } else {
        Fault::Malformed(FieldKind::Name)
    };
    LineFault { fault, field: 0 }
}

// The host's name, and then the contact's.
pub fn joined_fault(fields: &Fields, kind: Kind) -> LineFault
    requires { length (field_at (fields_of fields.now) 2) ≤ 1024 }
    ensures { result ≡ joined_fault (joined_names kind (fields_of fields.now)) }
{
    let middle = middle_size(kind);
    if middle == 0 {
        return LineFault {
            fault: Fault::Done,
            field: 0,
        };
    }
    let owner = name_size(fields.field(0));
    let host = host_size(fields.field(2), middle, owner);
    if 255 < host {
        return if_short(host);
    }
    if_short(contact_size(kind) + owner)
}

// The fault of a field's text, read as its meaning.
ghost use Rattle.std.specs.Prelude.{◌≡◌};
ghost use Rattle.rules.specs.Names.{name_of};
ghost use Rattle.rules.specs.Fields.{number_of, largest_short, address_of, prefix_of, time_of, lo_of, text_of, unless, name_fault, needed, optional, reserved, type_fault, fault_of};
ghost use Rattle.rules.specs.declared.faults.FieldKind.{FieldKind};

use addresses::addresses::address;
use codes::codes::lo;
use escapes::texts::judge_text;
use judged_names::judged::judge_name;
use numbers::numbers::number;
use prefixes::prefixes::prefix;
use rules::faults::{Fault, FieldKind};
use rules::kinds::Meaning;
use times::times::time;

// A field that doesn't read as it should is at fault.
fn unless<T: Drop>(kind: FieldKind, read: Option<T>) -> Fault
    ensures { result ≡ unless kind read }
{
    match read {
        Some(_) => Fault::Done,
        None => Fault::Malformed(kind),
    }
}

fn name_fault(text: &[u8]) -> Fault
    ensures { result ≡ name_fault (name_of text.now) }
{
    unless(FieldKind::Name, judge_name(text).ok())
}

fn address_fault(text: &[u8]) -> Fault
    ensures { result ≡ unless FieldKind.Address (address_of text.now) }
{
    unless(FieldKind::Address, address(text))
}

fn prefix_fault(text: &[u8]) -> Fault
    ensures { result ≡ unless FieldKind.Address (prefix_of text.now) }
{
    unless(FieldKind::Address, prefix(text))
}

fn number_fault(text: &[u8], limit: u64) -> Fault
    ensures { result ≡ unless FieldKind.Number (number_of limit text.now) }
{
    unless(FieldKind::Number, number(text, limit))
}

// The types that no line of its own may give.
const RESERVED: [u64; 7] = [0, 2, 5, 6, 12, 15, 252];

fn is_reserved(n: u64) -> bool
    ensures { result ≡ reserved n }
{
    RESERVED.contains(&n)
}

fn type_fault(text: &[u8]) -> Fault
    ensures { result ≡ type_fault (number_of largest_short text.now) }
{
    match number(text, 65535) {
        Some(n) if is_reserved(n) => Fault::ReservedType,
        Some(_) => Fault::Done,
        None => Fault::Malformed(FieldKind::Number),
    }
}

fn time_fault(text: &[u8]) -> Fault
    ensures { result ≡ unless FieldKind.Time (time_of text.now) }
{
    unless(FieldKind::Time, time(text))
}

fn lo_fault(text: &[u8]) -> Fault
    ensures { result ≡ unless FieldKind.Lo (lo_of text.now) }
{
    unless(FieldKind::Lo, lo(text))
}

fn text_fault(text: &[u8]) -> Fault
    ensures { result ≡ unless FieldKind.Escape (text_of text.now) }
{
    unless(FieldKind::Escape, judge_text(text))
}

// An empty field is at fault before all else.
fn when_needed(kind: FieldKind, text: &[u8], fault: Fault) -> Fault
    ensures { result ≡ needed kind text.now fault }
{
    if text.len() == 0 {
        return Fault::Empty(kind);
    }
    fault
}

// An empty field is good.
fn when_given(text: &[u8], fault: Fault) -> Fault
    ensures { result ≡ optional text.now fault }
{
    if text.len() == 0 {
        return Fault::Done;
    }
    fault
}

pub fn field_fault(meaning: Meaning, text: &[u8]) -> Fault
    ensures { result ≡ fault_of meaning text.now }
{
    match meaning {
        Meaning::Owner => name_fault(text),
        Meaning::Target => when_needed(FieldKind::Name, text, name_fault(text)),
        Meaning::HostPart => name_fault(text),
        Meaning::Address => when_needed(FieldKind::Address, text, address_fault(text)),
        Meaning::OptionalAddress => when_given(text, address_fault(text)),
        Meaning::Short => when_given(text, number_fault(text, 65535)),
        Meaning::Long => when_given(text, number_fault(text, 4294967295)),
        Meaning::Port => when_needed(FieldKind::Number, text, number_fault(text, 65535)),
        Meaning::RecordType => when_needed(FieldKind::Number, text, type_fault(text)),
        Meaning::Ttl => when_given(text, number_fault(text, 2147483647)),
        Meaning::Time => when_given(text, time_fault(text)),
        Meaning::Lo => when_given(text, lo_fault(text)),
        Meaning::LocationLo => when_needed(FieldKind::Lo, text, lo_fault(text)),
        Meaning::Prefix => prefix_fault(text),
        Meaning::Text => text_fault(text),
    }
}

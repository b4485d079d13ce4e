// The first fault of a line.
ghost use Rattle.std.specs.Prelude.{◌≡◌, ◌≤◌, length};
ghost use Rattle.rules.specs.Lists.{split_on};
ghost use Rattle.rules.specs.Answers.{whole_line, fields_fault, kind_fault, line_fault};
ghost use Rattle.splits.specs.Texts.{fields_of};

use fields::faults::field_fault;
use joined::joined::joined_fault;
use kinds::kinds::{is_ignored, kind_of};
use kinds::strips::stripped;
use rows::rows::row_of;
use rules::faults::{Fault, LineFault};
use rules::kinds::{Kind, Meaning};
use splits::splits::{Fields, split};

// A fault, or none, that is of no field.
#[tactic(auto, unfolding(rules::specs::Answers::whole_line))]
fn whole_line(fault: Fault) -> LineFault
    ensures { result ≡ whole_line fault }
{
    LineFault { fault, field: 0 }
}

// The fields from left to right, each read as its meaning.
fn fields_fault(fields: &Fields, meanings: &[Meaning]) -> LineFault
    requires { length meanings.now ≤ 11 }
    ensures { result ≡ fields_fault 0 meanings.now (fields_of fields.now) }
{
    for (i, &meaning) in meanings.iter().enumerate() {
        let fault = field_fault(meaning, fields.field(i));
        if fault != Fault::Done {
            return LineFault {
                fault,
                field: i + 1,
            };
        }
    }
    whole_line(Fault::Done)
}

fn kind_fault(rest: &[u8], kind: Kind) -> LineFault
    requires { length rest.now ≤ 1024 }
    ensures { result ≡ kind_fault kind (split_on 58 rest.now) }
{
    let row = row_of(kind);
    if row.count == 0 {
        return whole_line(Fault::UnknownKind);
    }
    let Some(fields) = split(rest, kind) else {
        return whole_line(Fault::TooManyFields);
    };
    let first = fields_fault(&fields, row.meanings);
    if first.fault == Fault::Done {
        joined_fault(&fields, kind)
    } else {
        first
    }
}

pub fn line_fault(line: &[u8]) -> LineFault
    ensures { result ≡ line_fault line.now }
{
    let length = line.len();
    if 1024 < length {
        return whole_line(Fault::LineTooLong);
    }
    let n = stripped(line);
    if n == 0 {
        return whole_line(Fault::Done);
    }
    let first = line[0];
    if is_ignored(first) {
        return whole_line(Fault::Done);
    }
    kind_fault(&line[1..n], kind_of(first))
}

// The numbers of what compiling answers.
ghost use Rattle.std.specs.Prelude.{◌≡◌};
ghost use Rattle.rules.specs.Answers.{fault_number};

use rules::faults::{Fault, FieldKind};

// The number of a fault. It is a function since neither `From` nor its types are this crate's.
pub fn number(fault: Fault) -> u64
    ensures { result ≡ fault_number fault }
{
    match fault {
        Fault::Done => 0,
        Fault::SourceTooLong => 1,
        Fault::LineTooLong => 2,
        Fault::UnknownKind => 3,
        Fault::TooManyFields => 4,
        Fault::Malformed(FieldKind::Name) => 5,
        Fault::Malformed(FieldKind::Address) => 6,
        Fault::Malformed(FieldKind::Number) => 7,
        Fault::Malformed(FieldKind::Time) => 8,
        Fault::Malformed(FieldKind::Lo) => 9,
        Fault::Malformed(FieldKind::Escape) => 10,
        Fault::ReservedType => 11,
        Fault::Empty(_) => 12,
        Fault::NoRoom => 13,
    }
}

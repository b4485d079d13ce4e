// The words of what compiling and asking answer.
use rules::faults::{Fault, FieldKind};
use rules::replies::{AskFault, Outcome};

pub fn fault_words(fault: Fault) -> &'static str {
    match fault {
        Fault::Done => "done",
        Fault::SourceTooLong => "source too long",
        Fault::LineTooLong => "line too long",
        Fault::UnknownKind => "unknown kind",
        Fault::TooManyFields => "too many fields",
        Fault::Malformed(kind) => malformed_words(kind),
        Fault::ReservedType => "reserved type",
        Fault::Empty(_) => "empty field",
        Fault::NoRoom => "no room",
    }
}

fn malformed_words(kind: FieldKind) -> &'static str {
    match kind {
        FieldKind::Name => "bad name",
        FieldKind::Address => "bad address or prefix",
        FieldKind::Number => "bad number",
        FieldKind::Time => "bad time",
        FieldKind::Lo => "bad lo",
        FieldKind::Escape => "bad escape",
    }
}

pub fn refusal_words(fault: AskFault) -> &'static str {
    match fault {
        AskFault::Records => "records damaged",
        AskFault::Name => "bad question name",
        AskFault::Moment => "moment out of range",
        AskFault::Client => "bad client address",
    }
}

// A refusal has no outcome.
pub fn outcome_words(outcome: Outcome) -> Option<&'static str> {
    match outcome {
        Outcome::Refused => None,
        Outcome::NotOurs => Some("not ours"),
        Outcome::Referral => Some("referral"),
        Outcome::Records => Some("records"),
        Outcome::NoSuchType => Some("no such type"),
        Outcome::NoSuchName => Some("no such name"),
    }
}

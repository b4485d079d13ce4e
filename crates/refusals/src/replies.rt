// The numbers of what asking answers.
ghost use Rattle.std.specs.Prelude.{◌≡◌};
ghost use Rattle.rules.specs.Reading.{reply_number, outcome_number};

use rules::replies::{AskFault, Outcome, Reply};

// The number of a reply. It is a function since neither `From` nor its types are this crate's.
pub fn reply_number(reply: Reply) -> u64
    ensures { result ≡ reply_number reply }
{
    match reply {
        Reply::Found { .. } => 0,
        Reply::NoMore => 18,
        Reply::Refused(AskFault::Name) => 15,
        Reply::Refused(AskFault::Moment) => 16,
        Reply::Refused(AskFault::Client) => 17,
        Reply::Refused(AskFault::Records) => 14,
    }
}

// The number of an outcome, 0 for that of a refused question.
pub fn outcome_number(outcome: Outcome) -> u64
    ensures { result ≡ outcome_number outcome }
{
    match outcome {
        Outcome::Refused => 0,
        Outcome::NotOurs => 1,
        Outcome::Referral => 2,
        Outcome::Records => 3,
        Outcome::NoSuchType => 4,
        Outcome::NoSuchName => 5,
    }
}

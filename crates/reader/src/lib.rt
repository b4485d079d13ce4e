// Asking: the outcome of a question and the records of a compiled stream that answer it, found in passes of a fixed number, whatever the number
// of labels: one over the stream itself, and then at most five over the parts that may make a control name and that may answer.

#![tactic(auto)]

ghost use Rattle.std.specs.Prelude.{◌≡◌};
ghost use Rattle.rules.specs.Reading.{is_client, refusal, ask_response};

mod answer;

use answer::Asked;
use keys::is_wire;
use locate::judge_and_locate;
use rules::quantities::Moment;
use rules::replies::{AskFault, Outcome, Reply, Response};

const LAST_MOMENT: u64 = 9223372036854775807;

// Whether a client's address has 4 or 16 bytes.
fn is_client(client: &[u8]) -> bool
    ensures { result ≡ is_client client.now }
{
    matches!(client.len(), 4 | 16)
}

fn refused(fault: AskFault) -> Response
    ensures { result ≡ refusal fault }
{
    let reply = Reply::Refused(fault);
    Response {
        outcome: Outcome::Refused,
        reply,
    }
}

// The outcome of a question, and the record of this ordinal, from 0; nothing is assumed of any byte.
pub fn ask(
    records: &[u8],
    name: &[u8],
    qtype: u16,
    client: &[u8],
    moment: Moment,
    ordinal: u64,
) -> Response
    ensures { result ≡ ask_response records.now (record { name = name.entry.now; type = qtype; client = client.now; moment = moment.0 }) ordinal }
{
    if !is_wire(name) {
        return refused(AskFault::Name);
    }
    if LAST_MOMENT < moment.0 {
        return refused(AskFault::Moment);
    }
    if !is_client(client) {
        return refused(AskFault::Client);
    }
    let Some(judged) = judge_and_locate(records, client, name) else {
        return refused(AskFault::Records);
    };
    let asked = Asked {
        stream: records,
        name,
        qtype,
        here: judged.here,
        moment,
        level: judged.level,
        control: judged.control,
    };
    asked.answer(ordinal)
}

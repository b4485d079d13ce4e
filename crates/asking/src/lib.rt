// Asking by a reader that holds the bytes.

#![tactic(auto)]

ghost use Rattle.std.specs.Prelude.{◌≡◌};
ghost use Rattle.rules.specs.Reading.{ask_response};

use held::Reader;
use rules::quantities::Moment;
use rules::replies::Response;

// The outcome of a question to the bytes that are held, and the record of this ordinal, from 0, wherever the reader's place is.
pub fn ask<'a, 'b, 'c>(
    r: Reader<'a>,
    name: &'b [u8],
    qtype: u16,
    client: &'c [u8],
    moment: Moment,
    ordinal: u64,
) -> Response
    ensures { result ≡ ask_response r.entry.bytes.now (record { name = name.entry.now; type = qtype; client = client.now; moment = moment.0 }) ordinal }
{
    reader::ask(r.bytes, name, qtype, client, moment, ordinal)
}

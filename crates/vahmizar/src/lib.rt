// The calls that a name server makes. specs/Promises.antt says what each promises, and what both together do. Rattle crates call them here;
// for C the crate vahmizar_c exports them.

#![tactic(auto)]

ghost use Rattle.vahmizar.specs.Promises.{Compiles, Asks};

mod answer_bytes;
pub mod served;

use answer_bytes::{put_numbers, put_response};
use compiler::compile::compile;
use reader::ask;
use refusals::faults::number;
use rules::quantities::Moment;

// Compiles a source; the answer's numbers go into 32 lent bytes, and the first is returned.
pub fn tinydns_compile(source: &[u8], serial: u32, out: &mut [u8], answer: &mut [u8]) -> u64
    ensures { Compiles source.now serial out.old answer.old out.new answer.new result }
{
    if answer.len() != 32 {
        return 19;
    }
    let said = compile(source, serial, out);
    let first = number(said.fault);
    let numbers = [
        first,
        said.line as u64,
        said.field as u64,
        said.bytes as u64,
    ];
    put_numbers(answer, &numbers);
    first
}

// Asks for the record of an ordinal; the answer's numbers go into 48 lent bytes, the outcome last, and the first is returned.
pub fn tinydns_ask(
    records: &[u8],
    name: &[u8],
    qtype: u16,
    client: &[u8],
    moment: u64,
    ordinal: u64,
    answer: &mut [u8],
) -> u64
    ensures { Asks records.now (record { name = name.entry.now; type = qtype; client = client.now; moment = moment }) ordinal answer.old answer.new result }
{
    if answer.len() != 48 {
        return 19;
    }
    let response = ask(records, name, qtype, client, Moment(moment), ordinal);
    put_response(answer, response)
}

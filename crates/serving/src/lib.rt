// Both calls together: a source compiled into a lent buffer, and one question put to exactly what was written there.

#![tactic(auto)]

ghost use Rattle.vahmizar.specs.Promises.{Serves};

use compiler::compile::compile;
use reader::ask;
use rules::faults::Fault;
use rules::quantities::Moment;
use vahmizar::served::Served;

pub fn compile_and_ask(
    source: &[u8],
    serial: u32,
    out: &mut [u8],
    name: &[u8],
    qtype: u16,
    client: &[u8],
    moment: Moment,
    ordinal: u64,
) -> Served
    ensures { Serves source.now serial out.old (record { name = name.entry.now; type = qtype; client = client.now; moment = moment.0 }) ordinal out.new result }
{
    let said = compile(source, serial, out);
    match said.fault {
        Fault::Done => {
            let written = said.bytes;
            Ok(ask(&out[..written], name, qtype, client, moment, ordinal))
        },
        _ => Err(said),
    }
}

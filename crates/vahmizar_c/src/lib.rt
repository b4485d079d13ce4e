// The calls that a name server makes, as C has them: libvahmizar.a exports these two symbols. A slice is a pointer and then a length. Each does
// what the function of that name in the crate vahmizar does, and promises the same.

#![tactic(auto)]

ghost use Rattle.vahmizar.specs.Promises.{Asks, Compiles};

// Compiles a source; the answer's numbers go into 32 lent bytes, and the first is returned.
#[unsafe(no_mangle)]
pub extern "C" fn tinydns_compile(
    source: &[u8],
    serial: u32,
    out: &mut [u8],
    answer: &mut [u8],
) -> u64
    ensures { Compiles source.now serial out.old answer.old out.new answer.new result }
{
    vahmizar::tinydns_compile(source, serial, out, answer)
}

// Asks for the record of an ordinal; the answer's numbers go into 48 lent bytes, the outcome last, and the first is returned.
#[unsafe(no_mangle)]
pub extern "C" fn tinydns_ask(
    records: &[u8],
    name: &[u8],
    qtype: u16,
    client: &[u8],
    moment: u64,
    ordinal: u64,
    answer: &mut [u8],
) -> u64
    ensures { Asks records.now (record { name = name.entry.now; type = qtype; client = client.now; moment = moment }) ordinal answer.old answer.new result }
{
    vahmizar::tinydns_ask(records, name, qtype, client, moment, ordinal, answer)
}

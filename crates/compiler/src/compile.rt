// The call: judge every line, test the room, write every line.
ghost use Rattle.std.specs.Prelude.{◌≡◌};
ghost use Rattle.rules.specs.Answers.{answer};
ghost use Rattle.compiler.specs.Compiled.{IsCompiled};

use crate::judge::judge;
use crate::write::write_all;
use rules::faults::{Answer, Fault};

// The longest source has 1 MiB.
const MOST_BYTES: usize = 1048576;

// An answer about no line.
fn whole(fault: Fault, bytes: usize) -> Answer
    ensures { result ≡ answer fault 0 0 bytes }
{
    Answer {
        fault,
        line: 0,
        field: 0,
        bytes,
    }
}

// Nothing is written before the last line has been judged and the room is known to be enough.
pub fn compile(source: &[u8], serial: u32, out: &mut [u8]) -> Answer
    ensures { IsCompiled source.now serial out.old out.new result }
{
    if MOST_BYTES < source.len() {
        return whole(Fault::SourceTooLong, 0);
    }
    let needed = match judge(source, serial) {
        Ok(needed) => needed,
        Err(refusal) => return refusal,
    };
    if out.len() < needed {
        return whole(Fault::NoRoom, needed);
    }
    whole(Fault::Done, write_all(source, serial, out))
}

// The records of a file.
ghost use Rattle.files.specs.Fronts.{IsFront};
ghost use Rattle.lookup.specs.Answers.{IsRecords};

use crate::reports::refuse_source;
use compiler::compile::compile;
use files::files::read_file;
use rules::faults::{Answer, Fault};

// A source compiled into the buffer that is lent: how many bytes of records stand at its front, or why there are none.
fn compile_into(source: &[u8], serial: u32, out: &mut [u8]) -> Result<usize, Answer>
    ensures { IsRecords source.now serial out.old out.new result }
{
    let answer = compile(source, serial, out);
    match answer.fault {
        Fault::Done => Ok(answer.bytes),
        _ => Err(answer),
    }
}

// The file of this path compiled into the buffer that is lent, where it has at most 65,536 bytes. Where it can't be
// read or is refused, standard error has the reason.
pub fn compile_file(rt: &HostRuntime, path: &[u8], serial: u32, out: &mut [u8]) -> Option<usize>
    ensures { IsFront out.new result }
{
    let mut source = io::large_buffer();
    let len = read_file(rt, path, &mut source)?;
    match compile_into(&source[..len], serial, out) {
        Ok(size) => Some(size),
        Err(answer) => {
            refuse_source(rt, path, answer);
            None
        },
    }
}

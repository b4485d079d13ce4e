// Every line judged, and the sizes of the lines summed.
ghost use Rattle.std.specs.Prelude.{◌≡◌, ◌≤◌, length, MatchResult};
ghost use Rattle.rules.specs.Kinds.{lines_of};
ghost use Rattle.compiler.specs.Judged.{IsSum, IsRefusal};
ghost use Rattle.compiler.specs.Sized.{IsSize, IsFault};

use crate::source::Lines;
use lines::judge::line_fault;
use rules::faults::{Answer, Fault, LineFault};
use writer::line::put_line;

// How many bytes a line's records take, or its first fault.
// They are written into a scratch buffer for their size alone.
fn size_line(scratch: &mut [u8], line: &[u8], serial: u32) -> Result<usize, LineFault>
    requires { length scratch.old ≡ 16384 }
    ensures { MatchResult result (IsSize serial line.now) (IsFault line.now) }
{
    let first = line_fault(line);
    match first.fault {
        Fault::Done => Ok(put_line(scratch, line, serial)),
        _ => Err(first),
    }
}

// How many bytes all lines take, or the refusal of the first bad one.
pub(crate) fn judge(source: &[u8], serial: u32) -> Result<usize, Answer>
    requires { length source.now ≤ 1048576 }
    ensures { MatchResult result (IsSum serial (lines_of source.now)) (IsRefusal serial (lines_of source.now)) }
{
    let mut scratch = [0u8; 16384];
    let mut total = 0;
    for (i, line) in Lines::new(source).enumerate() {
        match size_line(&mut scratch, line, serial) {
            Ok(size) => total += size,
            Err(first) => {
                return Err(Answer {
                    fault: first.fault,
                    line: i + 1,
                    field: first.field,
                    bytes: 0,
                });
            }
        }
    }
    Ok(total)
}

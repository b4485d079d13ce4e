// The records of every line written, line after line.
ghost use Rattle.std.specs.Prelude.{◌≡◌, true, ◌≤◌, length};
ghost use Rattle.rules.specs.Lists.{all};
ghost use Rattle.rules.specs.Kinds.{lines_of};
ghost use Rattle.rules.specs.Bytes.{bytes_of};
ghost use Rattle.rules.specs.Answers.{is_good, source_records};
ghost use Rattle.buffer.specs.Put.{IsPut};

use crate::source::Lines;
use writer::line::put_line;

pub(crate) fn write_all(source: &[u8], serial: u32, out: &mut [u8]) -> usize
    requires source_len_bound { (length source.now ≤ 1048576) × (all is_good (lines_of source.now) ≡ true) }
    requires source_in_bounds { length (bytes_of (source_records serial source.now)) ≤ length out.old }
    ensures { IsPut (bytes_of (source_records serial source.now)) out.old out.new result }
{
    let mut used = 0;
    for line in Lines::new(source) {
        used += put_line(&mut out[used..], line, serial);
    }
    used
}

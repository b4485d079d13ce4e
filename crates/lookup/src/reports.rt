// A refused source, as a line of standard error.
use crate::words::fault_words;
use refusals::faults;
use rules::faults::Answer;

// Says on standard error where a source is refused, and why: path, line and field, number and words. What a write
// there answers is of no use.
pub fn refuse_source(rt: &HostRuntime, path: &[u8], answer: Answer) {
    let Answer {
        fault,
        line,
        field,
        bytes: _,
    } = answer;
    let number = faults::number(fault);
    let words = fault_words(fault);
    let _ = rt.stderr().write_all(path);
    let _ = eprintln!(rt; ":{line}:{field}: {number} {words}");
}

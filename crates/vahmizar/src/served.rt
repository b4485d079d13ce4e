// What compiling a source and then asking what was written answers.
use rules::faults::Answer;
use rules::replies::Response;

// What asking answered, or the refusal of the source.
pub type Served = Result<Response, Answer>;

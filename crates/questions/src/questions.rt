// A line's question.
ghost use Rattle.std.specs.Prelude.{◌≡◌, option_map};
ghost use Rattle.rules.specs.Reading.{ask_response};
ghost use Rattle.questions.specs.Questions.{question_of};
ghost use Rattle.questions.specs.Views.{question_said};
ghost use Rattle.questions.specs.Replies.{line_reply};

use crate::asked::{Asked, read_asked};
use crate::askers::{Asker, read_asker};
use crate::texts::split_line;
use reader::ask;
use rules::replies::Response;

#[derive(Clone, Copy)]
pub struct Question {
    pub asker: Asker,
    pub asked: Asked,
}

#[tactic(auto, unfolding(crate::specs::Questions::question_of, crate::specs::Questions::question_in, crate::specs::Questions::question_from))]
fn read_question(line: &[u8]) -> Option<Question>
    ensures { option_map question_said result ≡ question_of line.now }
{
    let texts = split_line(line)?;
    let asker = read_asker(texts.moment, texts.client)?;
    let asked = read_asked(texts.qtype, texts.name)?;
    Some(Question { asker, asked })
}

// The outcome of a question that was read, and the record of this ordinal.
fn ask_held(records: &[u8], question: &Question, ordinal: u64) -> Response
    ensures { result ≡ ask_response records.now (question_said question.now) ordinal }
{
    let asker = &question.asker;
    let asked = &question.asked;
    ask(
        records,
        asked.name.as_slice(),
        asked.qtype,
        asker.client.as_slice(),
        asker.moment,
        ordinal,
    )
}

// The outcome of the question that a line is, and the record of this ordinal, from 0. None where the line is no
// question.
pub fn answer_line(records: &[u8], line: &[u8], ordinal: u64) -> Option<Response>
    ensures { result ≡ line_reply records.now (question_of line.now) ordinal }
{
    let question = read_question(line)?;
    Some(ask_held(records, &question, ordinal))
}

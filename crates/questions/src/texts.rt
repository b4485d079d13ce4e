// Four pieces between spaces.
ghost use Rattle.std.specs.Prelude.{◌≡◌, option_map};
ghost use Rattle.rules.specs.Lists.{split_on};
ghost use Rattle.questions.specs.Questions.{four_of};
ghost use Rattle.questions.specs.Views.{four_texts};

use pieces::pieces::Pieces;

// The texts of a question.
#[derive(Clone, Copy)]
pub struct Texts<'a> {
    pub moment: &'a [u8],
    pub client: &'a [u8],
    pub qtype: &'a [u8],
    pub name: &'a [u8],
}

// The texts of a line of just four pieces.
#[tactic(auto, unfolding(crate::specs::Questions::four_of))]
pub fn split_line(line: &[u8]) -> Option<Texts<'_>>
    ensures { option_map four_texts result ≡ four_of (split_on 32 line.now) }
{
    let mut pieces = Pieces::new(line, b' ');
    let moment = pieces.next()?;
    let client = pieces.next()?;
    let qtype = pieces.next()?;
    let name = pieces.next()?;
    match pieces.next() {
        None => Some(Texts {
            moment,
            client,
            qtype,
            name,
        }),
        Some(_) => None,
    }
}

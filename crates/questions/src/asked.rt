// What is asked: a type and a name.
ghost use Rattle.std.specs.Prelude.{◌≡◌, option_map};
ghost use Rattle.questions.specs.Questions.{asked_of};
ghost use Rattle.questions.specs.Views.{asked_said};

use judged_names::judged::judge_name;
use names::names::{Name, read_name};
use numbers::numbers::number;

#[derive(Clone, Copy)]
pub struct Asked {
    pub qtype: u16,
    pub name: Name,
}

#[tactic(auto, using(numbers::proofs::Number::within), unfolding(crate::specs::Questions::asked_of, rules::specs::Fields::largest_short, rules::specs::Lists::pick, rules::specs::Lists::is_some, rules::specs::Lists::value_or))]
pub fn read_asked(qtype: &[u8], name: &[u8]) -> Option<Asked>
    ensures { option_map asked_said result ≡ asked_of qtype.now name.now }
{
    let qtype = number(qtype, 65535)?;
    if judge_name(name).is_err() {
        return None;
    }
    Some(Asked {
        qtype: qtype as u16,
        name: read_name(name),
    })
}

// When it is asked, and by whom.
ghost use Rattle.std.specs.Prelude.{◌≡◌, option_map};
ghost use Rattle.questions.specs.Questions.{asker_of};
ghost use Rattle.questions.specs.Views.{asker_said};

use crate::moments::read_moment;
use addresses::address::Address;
use addresses::addresses::address;
use rules::quantities::Moment;

#[derive(Clone, Copy)]
pub struct Asker {
    pub moment: Moment,
    pub client: Address,
}

#[tactic(auto, unfolding(crate::specs::Questions::asker_of, rules::specs::Lists::pick, rules::specs::Lists::is_some, rules::specs::Lists::value_or))]
pub fn read_asker(moment: &[u8], client: &[u8]) -> Option<Asker>
    ensures { option_map asker_said result ≡ asker_of moment.now client.now }
{
    let moment = read_moment(moment)?;
    let client = address(client)?;
    Some(Asker { moment, client })
}

// The numbers of an answer as bytes, 8 for each, the lowest first.
ghost use Rattle.std.specs.Prelude.{[], ◌∷◌, ◌++◌, ◌*◌, ◌≡◌, ◌≤◌, length};
ghost use Rattle.rules.specs.Reading.{reply_number, reply_values, response_numbers};
ghost use Rattle.buffer.specs.Put.{IsPut};
ghost use Rattle.vahmizar.specs.Promises.{laid};

use integers::integers::put_each_le;
use refusals::replies::{outcome_number, reply_number};
use rules::replies::{Reply, Response};

pub fn put_numbers(out: &mut [u8], numbers: &[u64]) -> usize
    requires { 8 * length numbers.now ≤ length out.old }
    ensures put { IsPut (laid numbers.now) out.old out.new result }
    ensures value { result ≡ 8 * length numbers.now }
{
    put_each_le(out, 8, numbers)
}

// The numbers of a reply and of an outcome behind them; answers the first.
fn put_reply(out: &mut [u8], reply: Reply, outcome: u64) -> u64
    requires { length out.old ≡ 48 }
    ensures out_after { out.new ≡ laid (reply_number reply ∷ reply_values reply ++ (outcome ∷ [])) }
    ensures value { result ≡ reply_number reply }
{
    let first = reply_number(reply);
    let numbers = match reply {
        Reply::Found {
            rtype,
            lifetime,
            place,
            length,
        } => [
            first,
            rtype as u64,
            lifetime.0 as u64,
            place as u64,
            length as u64,
            outcome,
        ],
        Reply::NoMore | Reply::Refused(_) => [first, 0, 0, 0, 0, outcome],
    };
    put_numbers(out, &numbers);
    first
}

// The numbers of a response; answers the first.
pub fn put_response(out: &mut [u8], response: Response) -> u64
    requires { length out.old ≡ 48 }
    ensures out_after { out.new ≡ laid (response_numbers response) }
    ensures value { result ≡ reply_number response.reply }
{
    let last = outcome_number(response.outcome);
    put_reply(out, response.reply, last)
}

// The pass that finds the largest rank of the records that the client sees: the level of a question, or the length of its control name.

#![tactic(auto)]

ghost use Rattle.std.specs.Prelude.{◌≡◌, true, [], map, ◌≤◌, length, drop};
ghost use Rattle.rules.specs.Lists.{lower, is_some, value_or};
ghost use Rattle.rules.specs.Names.{is_wire};
ghost use Rattle.rules.specs.Records.{lo_bytes};
ghost use Rattle.rules.specs.Reading.{decode};
ghost use Rattle.ranks.specs.Ranks.{seen_rank, largest};

use ranks::{Role, is_end, rank_in};
use rules::quantities::{Lo, Moment};
use stream::{Span, span_at};

// The largest rank in a stream of whole records from a place on. None is above that of the name's own records. Most records are ruled out by
// the end of the name alone, without a call.
pub fn best_rank(
    stream: &[u8],
    name: &[u8],
    role: Role,
    here: Lo,
    moment: Moment,
    from: usize,
) -> usize
    requires name_value { is_wire name.now ≡ true }
    requires from_in_bounds { from ≤ length stream.now }
    requires stream_value { is_some (decode (drop from stream.now)) ≡ true }
    ensures { result ≡ largest (seen_rank role (map lower name.now) (lo_bytes here) moment.0) (value_or [] (decode (drop from stream.now))) }
{
    let n = stream.len();
    let mut best: usize = 0;
    let mut at = from;
    while at < n {
        if best == 256 {
            return best;
        }
        let Span {
            start,
            middle,
            next,
        } = span_at(stream, at);
        if !is_end(name, &stream[start..middle]) {
            at = next;
        } else {
            let found = rank_in(
                name,
                role,
                here,
                moment,
                &stream[start..middle],
                &stream[middle..next],
            );
            if best < found {
                best = found;
                at = next;
            } else {
                at = next;
            }
        }
    }
    best
}

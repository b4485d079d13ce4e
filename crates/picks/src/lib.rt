// The pass that picks the record of the answer.

#![tactic(auto)]

ghost use Rattle.std.specs.Prelude.{◌≡◌, true, [], map, ◌<◌, ◌≤◌, length, drop};
ghost use Rattle.rules.specs.Lists.{lower, is_some, value_or};
ghost use Rattle.rules.specs.Records.{lo_bytes};
ghost use Rattle.rules.specs.Questions.{lifetime_of};
ghost use Rattle.rules.specs.Reading.{record_in, decode};
ghost use Rattle.view.specs.Views.{sharing};
ghost use Rattle.picks.specs.Picks.{wanted_in, reply_in, picked_from};

use judge::Seen;
use judge::known::known_in;
use ranks::{Role, is_end, rank_in};
use rules::quantities::{Lo, Moment, Shared, Ttl};
use rules::replies::Reply;
use stream::{Span, span_at};

// Whether a record is of a rank and of the type asked for, 255 for any.
fn is_wanted(
    name: &[u8],
    qtype: u16,
    role: Role,
    here: Lo,
    moment: Moment,
    best: usize,
    key: &[u8],
    rdata: &[u8],
) -> bool
    requires { is_some (record_in key.now rdata.now) ≡ true }
    ensures { result ≡ wanted_in qtype role (map lower name.now) (lo_bytes here) moment.0 best (record_in key.now rdata.now) }
{
    if rank_in(name, role, here, moment, key, rdata) != best {
        return false;
    }
    match known_in(key, rdata) {
        Seen::Location(_) => false,
        Seen::Resource { rtype, .. } => {
            if qtype == 255 {
                return true;
            }
            qtype == rtype
        }
    }
}

// The ttl; or for a record that ends, the seconds left, at least 2 and at most 3,600.
fn lifetime(moment: Moment, shared: Shared) -> Ttl
    ensures { result ≡ record { 0 = lifetime_of moment.0 (sharing shared) } }
{
    let ttl = shared.ttl.0;
    let time = shared.time.0;
    if 0 < ttl {
        return Ttl(ttl);
    }
    if time == 0 {
        return Ttl(0);
    }
    if time <= moment.0 {
        return Ttl(2);
    }
    let left = time - moment.0;
    if left < 2 {
        return Ttl(2);
    }
    if 3600 < left {
        return Ttl(3600);
    }
    Ttl(left as u32)
}

// What is answered of a record that ends at a place.
fn reply_in(moment: Moment, end: usize, key: &[u8], rdata: &[u8]) -> Reply
    requires rdata_len_bound { length rdata.now ≤ end }
    requires rdata_value { is_some (record_in key.now rdata.now) ≡ true }
    ensures { result ≡ reply_in moment.0 end (record_in key.now rdata.now) }
{
    match known_in(key, rdata) {
        Seen::Location(_) => Reply::NoMore,
        Seen::Resource {
            rtype,
            shared,
            fixed,
            ..
        } => {
            let length = rdata.len() - fixed;
            let place = end - length;
            let seconds = lifetime(moment, shared);
            Reply::Found {
                rtype,
                lifetime: seconds,
                place,
                length,
            }
        }
    }
}

// The record of this ordinal, from 0, among those of a rank and a type in a stream of whole records from a place on.
pub fn pick_record(
    stream: &[u8],
    name: &[u8],
    qtype: u16,
    role: Role,
    here: Lo,
    moment: Moment,
    best: usize,
    ordinal: u64,
    from: usize,
) -> Reply
    requires best_nonzero { 0 < best }
    requires from_in_bounds { from ≤ length stream.now }
    requires stream_value { is_some (decode (drop from stream.now)) ≡ true }
    ensures { result ≡ picked_from qtype role (map lower name.now) (lo_bytes here) moment.0 best from ordinal (value_or [] (decode (drop from stream.now))) }
{
    let n = stream.len();
    let mut left = ordinal;
    let mut at = from;
    while at < n {
        let Span {
            start,
            middle,
            next,
        } = span_at(stream, at);
        if !is_end(name, &stream[start..middle]) {
            at = next;
        } else {
            if is_wanted(
                name,
                qtype,
                role,
                here,
                moment,
                best,
                &stream[start..middle],
                &stream[middle..next],
            ) {
                if left == 0 {
                    return reply_in(moment, next, &stream[start..middle], &stream[middle..next]);
                }
                left -= 1;
                at = next;
            } else {
                at = next;
            }
        }
    }
    Reply::NoMore
}

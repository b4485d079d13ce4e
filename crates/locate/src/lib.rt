// The pass that judges a stream, and finds the client's location, the part of the stream in which records may answer, and the part in which they
// may make a control name.

#![tactic(auto)]

ghost use Rattle.std.specs.Prelude.{◌≡◌, ◌||◌, map, ◌≤◌, length, drop, eqb, Some};
ghost use Rattle.rules.specs.Lists.{lower};
ghost use Rattle.rules.specs.Records.{location, lo_bytes};
ghost use Rattle.rules.specs.Questions.{matches, better};
ghost use Rattle.rules.specs.Reading.{record_in, decode};
ghost use Rattle.locate.specs.Covers.{Covered};
ghost use Rattle.locate.specs.Locations.{best_seen, judged_lo, located_in};
ghost use Rattle.locate.specs.Grown.{grown_to};
ghost use Rattle.locate.specs.Steps.{plain, related_step, step_seen, step_of};
ghost use Rattle.locate.specs.Stops.{IsStop};

use judge::{Seen, record_in, type_in};
use ranks::is_end;
use rules::quantities::Lo;
use stream::{Span, span_at};

// The location of the longest prefix so far, and how long a better prefix is at least.
#[derive(Clone, Copy)]
struct Located {
    lo: Lo,
    least: usize,
}

// What a record is to the pass: a location; or one with an owner, whether it may answer and whether it may make a control name.
#[derive(Clone, Copy)]
enum Step {
    Location(Lo),
    Owned { answers: bool, controls: bool },
}

// The record that stands behind records that are nothing to the pass: what it is, or that it is malformed, and where it begins.
#[derive(Clone, Copy)]
struct Stop {
    step: Option<Step>,
    at: usize,
    span: Span,
}

// A part of a stream, from one place up to another.
#[derive(Clone, Copy)]
pub struct Part {
    pub from: usize,
    pub until: usize,
}

// Of whole records: the client's location, the part outside which no record can answer, and the part outside which none can make a control name.
#[derive(Clone, Copy)]
pub struct Judged {
    pub here: Lo,
    pub level: Part,
    pub control: Part,
}

// Whether a client is in a prefix. Only one of 4 bytes can be in any but the empty prefix.
fn matches(client: &[u8], prefix: &[u8]) -> bool
    ensures { result ≡ matches client.now prefix.now }
{
    if client.len() != 4 {
        return prefix.is_empty();
    }
    client.starts_with(prefix)
}

// The better of the location so far and another, by its key, which has the prefix behind two bytes.
fn better_in(client: &[u8], located: Located, found: Lo, key: &[u8]) -> Located
    requires { 2 ≤ length key.now }
    ensures { best_seen result ≡ better client.now (best_seen located) (location (drop 2 key.now) (lo_bytes found)) }
{
    if !matches(client, &key[2..]) {
        return located;
    }
    let long = key.len() - 2;
    if long < located.least {
        return located;
    }
    Located {
        lo: found,
        least: long + 1,
    }
}

// Whether records of a type, NS or SOA, make a control name.
fn is_control(rtype: u16) -> bool
    ensures { result ≡ (eqb rtype 2 || eqb rtype 6) }
{
    matches!(rtype, 2 | 6)
}

// What a record is whose key the name ends in: a wildcard's, or one of the name itself, may answer; an ordinary one may make a control name.
fn related_step(name: &[u8], key: &[u8], wild: bool, rtype: u16) -> Step
    ensures { step_seen (Some result) ≡ related_step (map lower name.now) key.now wild rtype }
{
    if wild {
        return Step::Owned {
            answers: true,
            controls: false,
        };
    }
    Step::Owned {
        answers: name.len() == key.len(),
        controls: is_control(rtype),
    }
}

// What a record is to the pass. Its type is read only where it is wanted, and not for each record that is judged.
fn step_in(name: &[u8], key: &[u8], rdata: &[u8]) -> Option<Step>
    ensures { step_seen result ≡ step_of (map lower name.now) key.now (record_in key.now rdata.now) }
{
    match record_in(key, rdata)? {
        Seen::Location(lo) => Some(Step::Location(lo)),
        Seen::Resource { wild, .. } => {
            if !is_end(name, key) {
                return Some(Step::Owned {
                    answers: false,
                    controls: false,
                });
            }
            Some(related_step(name, key, wild, type_in(rdata)))
        }
    }
}

// Whether a record is nothing to the pass.
fn is_plain(step: Option<Step>) -> bool
    ensures { result ≡ plain (step_seen step) }
{
    match step {
        Some(Step::Owned { answers, controls }) => !(answers | controls),
        Some(Step::Location(_)) => false,
        None => false,
    }
}

// Passes over records that are nothing to the pass. Most are, so this loop keeps no more than it needs to judge them.
fn next_stop(stream: &[u8], name: &[u8], from: usize) -> Option<Stop>
    requires { from ≤ length stream.now }
    ensures { IsStop (map lower name.now) stream.now from result }
{
    let n = stream.len();
    let mut at = from;
    while at < n {
        let span = span_at(stream, at);
        let Span {
            start,
            middle,
            next,
        } = span;
        let step = step_in(name, &stream[start..middle], &stream[middle..next]);
        if !is_plain(step) {
            return Some(Stop { step, at, span });
        }
        at = next;
    }
    None
}

// A part up to the end of one more record, where it takes that.
fn grown(part: Option<Part>, taken: bool, at: usize, next: usize) -> Option<Part>
    ensures { result ≡ grown_to part taken at next }
{
    if !taken {
        return part;
    }
    match part {
        Some(Part { from, .. }) => Some(Part { from, until: next }),
        None => Some(Part {
            from: at,
            until: next,
        }),
    }
}

// Every record is read, also behind the last location: a stream is judged whole before anything of it is answered.
pub fn judge_and_locate(stream: &[u8], client: &[u8], name: &[u8]) -> Option<Judged>
    ensures result_value { judged_lo result ≡ located_in client.now (decode stream.now) }
    ensures covered { Covered (map lower name.now) stream.now result }
{
    let mut located = Located {
        lo: Lo::Every,
        least: 0,
    };
    let mut level: Option<Part> = None;
    let mut control: Option<Part> = None;
    let mut at: usize = 0;
    // the place goes on here: next_stop is a loop of its own, so that judging has no calls
    while let Some(stop) = next_stop(stream, name, at) {
        let Span {
            start,
            middle,
            next,
        } = stop.span;
        match stop.step? {
            Step::Location(lo) => {
                located = better_in(client, located, lo, &stream[start..middle]);
            }
            Step::Owned { answers, controls } => {
                level = grown(level, answers, stop.at, next);
                control = grown(control, controls, stop.at, next);
            }
        }
        at = next;
    }
    let nowhere = Part { from: 0, until: 0 };
    Some(Judged {
        here: located.lo,
        level: level.unwrap_or(nowhere),
        control: control.unwrap_or(nowhere),
    })
}

// The record at a place of a stream.

#![tactic(auto)]

ghost use Rattle.std.specs.Prelude.{◌≡◌};
ghost use Rattle.places.specs.Places.{found_at};

use judge::record_in;
use stream::{Span, span_at};

// Where a record's key begins, where its data begin and where the next record begins.
#[derive(Clone, Copy)]
pub struct Place {
    pub key: usize,
    pub rdata: usize,
    pub next: usize,
}

// The whole record at a place of a stream, where one is; nothing is assumed of the place or of any byte.
pub fn record_at(bytes: &[u8], at: usize) -> Option<Place>
    ensures { result ≡ found_at bytes.now at }
{
    if bytes.len() <= at {
        return None;
    }
    let Span {
        start: key,
        middle: rdata,
        next,
    } = span_at(bytes, at);
    record_in(&bytes[key..rdata], &bytes[rdata..next])?;
    Some(Place { key, rdata, next })
}

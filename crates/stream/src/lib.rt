// Where the record at the front of bytes ends.

#![tactic(auto)]

ghost use Rattle.std.specs.Prelude.{◌≡◌, ◌<◌, length};
ghost use Rattle.stream.specs.Heads.{head_of};
ghost use Rattle.stream.specs.Spans.{IsSpan};

use wire::get::get_le;

// The lengths of a record's key and of its data.
#[derive(Clone, Copy)]
struct Head {
    key: usize,
    rdata: usize,
}

// The lengths at the front, where they are there and what they say is: they are only compared with that, never added, so no sum can wrap.
fn head_of(bytes: &[u8]) -> Option<Head>
    ensures { result ≡ head_of bytes.now }
{
    let n = bytes.len();
    if n < 8 {
        return None;
    }
    let rest = (n - 8) as u64;
    let key = get_le(&bytes[0..4]);
    if rest < key {
        return None;
    }
    let rdata = get_le(&bytes[4..8]);
    if rest - key < rdata {
        return None;
    }
    Some(Head {
        key: key as usize,
        rdata: rdata as usize,
    })
}

// Where a record's key begins, where its data begin and where it ends.
#[derive(Clone, Copy)]
pub struct Span {
    pub start: usize,
    pub middle: usize,
    pub next: usize,
}

// The record at a place of a stream. Where its lengths don't fit the key is empty, as no record's is, and nothing is behind it.
pub fn span_at(stream: &[u8], at: usize) -> Span
    requires { at < length stream.now }
    ensures { IsSpan stream.now at result }
{
    let Some(head) = head_of(&stream[at..]) else {
        return Span {
            start: at,
            middle: at,
            next: stream.len(),
        };
    };
    let start = at + 8;
    let middle = start + head.key;
    let next = middle + head.rdata;
    Span {
        start,
        middle,
        next,
    }
}

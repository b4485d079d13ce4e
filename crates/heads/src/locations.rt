// The record of a location.
ghost use Rattle.std.specs.Prelude.{◌≡◌, ◌∷◌, ◌+◌, ◌≤◌, length};
ghost use Rattle.rules.specs.Records.{location, lo_bytes};
ghost use Rattle.rules.specs.Bytes.{encode};
ghost use Rattle.buffer.specs.Put.{IsPut};

use crate::heads::{lo_size, put_lengths, put_lo};
use buffer::put::put_bytes;
use rules::quantities::Lo;

// The key: 0, `%`, the prefix.
fn put_prefix_key(out: &mut [u8], prefix: &[u8]) -> usize
    requires { 2 + length prefix.now ≤ length out.old }
    ensures put { IsPut (0 ∷ 37 ∷ prefix.now) out.old out.new result }
    ensures value { result ≡ 2 + length prefix.now }
{
    let used = put_bytes(out, b"\x00%");
    used + put_bytes(&mut out[used..], prefix)
}

pub fn put_location(out: &mut [u8], prefix: &[u8], lo: Lo) -> usize
    requires { 10 + length prefix.now + length (lo_bytes lo) ≤ length out.old }
    ensures put { IsPut (encode (location prefix.now (lo_bytes lo))) out.old out.new result }
    ensures value { result ≡ 10 + length prefix.now + length (lo_bytes lo) }
{
    let a = put_lengths(out, 2 + prefix.len(), lo_size(lo));
    let b = a + put_prefix_key(&mut out[a..], prefix);
    b + put_lo(&mut out[b..], lo)
}

// A record of a text, in chunks of 127 bytes, each after its length.
ghost use Rattle.std.specs.Prelude.{◌≡◌, ◌∷◌, ◌+◌, ◌≤◌, length};
ghost use Rattle.rules.specs.Records.{chunks, resource_of};
ghost use Rattle.buffer.specs.Put.{IsPut};
ghost use Rattle.rules.specs.Bytes.{encode};
ghost use Rattle.heads.specs.Head.{head_size};

use buffer::put::put_bytes;
use heads::heads::put_head;
use rules::quantities::Shared;

// A chunk's length is a byte of its own.
const CHUNK: usize = 127;

fn put_chunk(out: &mut [u8], chunk: &[u8]) -> usize
    requires { (1 + length chunk.now ≤ length out.old) × (length chunk.now ≤ 127) }
    ensures put { IsPut (length chunk.now ∷ chunk.now) out.old out.new result }
    ensures value { result ≡ 1 + length chunk.now }
{
    let used = put_bytes(out, &[chunk.len() as u8]);
    used + put_bytes(&mut out[used..], chunk)
}

// How many bytes a text's chunks take.
fn chunks_size(text: &[u8]) -> usize
    requires { length text.now ≤ 1024 }
    ensures { result ≡ length (chunks text.now) }
{
    text.len() + text.len().div_ceil(CHUNK)
}

fn put_chunks(out: &mut [u8], text: &[u8]) -> usize
    requires { length (chunks text.now) ≤ length out.old }
    ensures put { IsPut (chunks text.now) out.old out.new result }
    ensures value { result ≡ length (chunks text.now) }
{
    let mut used = 0;
    for chunk in text.chunks(CHUNK) {
        used += put_chunk(&mut out[used..], chunk);
    }
    used
}

pub fn put_text_record(out: &mut [u8], owner: &[u8], shared: Shared, text: &[u8]) -> usize
    requires text_in_bounds { head_size shared owner.now + length (chunks text.now) ≤ length out.old }
    requires text_len_bound { length text.now ≤ 1024 }
    ensures put { IsPut (encode (resource_of shared owner.now 16 (chunks text.now))) out.old out.new result }
    ensures value { result ≡ head_size shared owner.now + length (chunks text.now) }
{
    let used = put_head(out, owner, 16, shared, chunks_size(text));
    used + put_chunks(&mut out[used..], text)
}

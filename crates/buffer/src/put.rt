// Writers: bytes put at the front of the buffer that is lent; what is behind them stays. Each answers how many it put.
ghost use Rattle.std.specs.Prelude.{◌≡◌, map, ◌≤◌, length};
ghost use Rattle.rules.specs.Lists.{lower};
ghost use Rattle.buffer.specs.Put.{IsPut};

use letters::letters::{letter_table, lowered_by};

// Byte by byte: the library's copy of a slice would have libvahmizar.a need memmove from outside.
pub fn put_bytes(out: &mut [u8], source: &[u8]) -> usize
    requires { length source.now ≤ length out.old }
    ensures put { IsPut source.now out.old out.new result }
    ensures value { result ≡ length source.now }
{
    for (i, &b) in source.iter().enumerate() {
        out[i] = b;
    }
    source.len()
}

pub fn put_lowered(out: &mut [u8], source: &[u8]) -> usize
    requires { length source.now ≤ length out.old }
    ensures put { IsPut (map lower source.now) out.old out.new result }
    ensures value { result ≡ length source.now }
{
    let table = letter_table();
    for (i, &b) in source.iter().enumerate() {
        out[i] = lowered_by(&table, b);
    }
    source.len()
}

// The bytes of a number, put at the front of the buffer that is lent.
ghost use Rattle.std.specs.Prelude.{◌≡◌, ◌≤◌, ◌*◌, ℕ, length, map};
ghost use Rattle.rules.specs.Lists.{be, le, join_all};
ghost use Rattle.buffer.specs.Put.{IsPut};

use buffer::put::put_bytes;

// A number that is put with all its bytes.
pub trait Number<const WIDTH: usize>: Copy {
    ghost value: { Self → ℕ };

    fn highest_first(self) -> [u8; WIDTH]
        ensures { result ≡ be WIDTH (value self) };
}

impl Number<2> for u16 {
    ghost value = { λ n. n };

    fn highest_first(self) -> [u8; 2] {
        self.to_be_bytes()
    }
}

impl Number<4> for u32 {
    ghost value = { λ n. n };

    fn highest_first(self) -> [u8; 4] {
        self.to_be_bytes()
    }
}

impl Number<8> for u64 {
    ghost value = { λ n. n };

    fn highest_first(self) -> [u8; 8] {
        self.to_be_bytes()
    }
}

// The bytes of a number, the highest first.
pub fn put_be<const WIDTH: usize, N: Number<WIDTH>>(out: &mut [u8], n: N) -> usize
    requires { WIDTH ≤ length out.old }
    ensures put { IsPut (be WIDTH (N.value n)) out.old out.new result }
    ensures value { result ≡ WIDTH }
{
    put_bytes(out, &n.highest_first())
}

// Numbers, one behind the other.
pub fn put_each_be<const WIDTH: usize, N: Number<WIDTH>>(out: &mut [u8], numbers: &[N]) -> usize
    requires { WIDTH * length numbers.now ≤ length out.old }
    ensures put { IsPut (join_all (map (λ n. be WIDTH (N.value n)) numbers.now)) out.old out.new result }
    ensures value { result ≡ WIDTH * length numbers.now }
{
    let mut used = 0;
    for &n in numbers {
        used += put_be(&mut out[used..], n);
    }
    used
}

// The lowest bytes of a number, as many as width says, the lowest first.
pub fn put_le(out: &mut [u8], width: usize, n: u64) -> usize
    requires { width ≤ length out.old }
    ensures put { IsPut (le width n) out.old out.new result }
    ensures value { result ≡ width }
{
    let mut rest = n;
    for byte in &mut out[..width] {
        *byte = (rest % 256) as u8;
        rest = rest / 256;
    }
    width
}

// The same, the lowest first. Only the writer that is called differs: one lent as a closure is no plainer.
pub fn put_each_le(out: &mut [u8], width: usize, numbers: &[u64]) -> usize
    requires { width * length numbers.now ≤ length out.old }
    ensures put { IsPut (join_all (map (le width) numbers.now)) out.old out.new result }
    ensures value { result ≡ width * length numbers.now }
{
    let mut used = 0;
    for &n in numbers {
        used += put_le(&mut out[used..], width, n);
    }
    used
}

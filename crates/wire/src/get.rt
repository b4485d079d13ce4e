// Readers of bytes: numbers.
ghost use Rattle.std.specs.Prelude.{◌≡◌, ◌<◌, ◌≤◌, length};
ghost use Rattle.rules.specs.Lists.{from_be, from_le};

// A byte as a number that sums of bytes fit.
pub fn wide(x: u8) -> u64
    ensures value { result ≡ x }
    ensures upper_bound { result < 256 }
{
    u64::from(x)
}

// The number that bytes are, the highest first.
pub fn get_be(bytes: &[u8]) -> u64
    requires { length bytes.now ≤ 8 }
    ensures { result ≡ from_be 0 bytes.now }
{
    let mut number: u64 = 0;
    for &b in bytes {
        number = number * 256 + wide(b);
    }
    number
}

// The number that four bytes are, the lowest first. It becomes one read of memory; a loop would become four.
pub fn get_le(bytes: &[u8]) -> u64
    requires { length bytes.now ≡ 4 }
    ensures { result ≡ from_le bytes.now }
{
    let number = u32::from_le_bytes([bytes[0], bytes[1], bytes[2], bytes[3]]);
    u64::from(number)
}

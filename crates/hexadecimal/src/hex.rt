// Bytes as hexadecimal digits.
ghost use Rattle.std.specs.Prelude.{Some, ◌≡◌, ◌*◌, ◌<◌, ◌≤◌, length, take};
ghost use Rattle.io.specs.Digits.{hex_digit_ascii};
ghost use Rattle.hexadecimal.specs.Hex.{hex_text};

use std::fmt;
use std::io::{self, Error, Write};

fn digit(d: u8) -> u8
    requires { d < 16 }
    ensures { result ≡ hex_digit_ascii d }
{
    if d < 10 { b'0' + d } else { b'a' - 10 + d }
}

// Puts the digits of the bytes at the front of the room.
fn put_digits(room: &mut [u8; 512], bytes: &[u8])
    requires { length bytes.now ≤ 256 }
    ensures { take (2 * length bytes.now) room.new ≡ hex_text bytes.now }
{
    for (i, &b) in bytes.iter().enumerate() {
        room[2 * i] = digit(b / 16);
        room[2 * i + 1] = digit(b % 16);
    }
}

// The digits of the bytes, put in the room. They are ASCII, so the library takes them for text.
fn digits_in<'a>(room: &'a mut [u8; 512], bytes: &[u8]) -> &'a str
    requires { length bytes.now ≤ 256 }
    ensures { result.now ≡ hex_text bytes.now }
{
    put_digits(room, bytes);
    str::from_utf8(&room[..2 * bytes.len()]).unwrap()
}

// Bytes that are printed as their digits.
#[derive(Clone, Copy)]
struct Hex<'a>(&'a [u8]);

impl fmt::Display for Hex<'_> {
    ghost output = { λ x. Some (hex_text x.0.now) };

    // The digits of 256 bytes are written by one call.
    fn fmt<W: fmt::Write>(&self, f: &mut fmt::Formatter<W>) -> fmt::Result {
        let mut room = [0u8; 512];
        for chunk in self.0.chunks(256) {
            f.write_str(digits_in(&mut room, chunk))?;
        }
        Ok(())
    }
}

// Writes the digits of all bytes, with no line end. The handle's own `print` would take them one by one.
pub fn print_hex<P: Print>(out: &P, bytes: &[u8]) -> Result<(), Error> {
    write!(io::writer(out), "{}", Hex(bytes))
}

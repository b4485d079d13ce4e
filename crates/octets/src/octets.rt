// IPv4: numbers 0 to 255 joined by dots, of which an address has four and a prefix up to four.
ghost use Rattle.std.specs.Prelude.{◌≡◌};
ghost use Rattle.octets.specs.Octets.{leading_zero, octet_of, octets_of};

use buffer::filled::Filled;
use numbers::numbers::number;
use pieces::pieces::read_pieces;

// A zero stands in front of more.
fn leads_with_zero(text: &[u8]) -> bool
    ensures { result ≡ leading_zero text.now }
{
    if text.len() < 2 {
        return false;
    }
    text[0] == b'0'
}

fn octet(text: &[u8]) -> Option<u8>
    ensures { result ≡ octet_of text.now }
{
    if 3 < text.len() {
        return None;
    }
    if leads_with_zero(text) {
        return None;
    }
    let value = number(text, 255)?;
    Some(value as u8)
}

// One to four numbers joined by dots.
pub fn octets(text: &[u8]) -> Option<Filled<4>>
    ensures { result ≡ octets_of text.now }
{
    let mut bytes = [0u8; 4];
    let count = read_pieces(text, b'.', octet, &mut bytes)?;
    Some(Filled::new(bytes, count))
}

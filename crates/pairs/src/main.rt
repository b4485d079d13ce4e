// pairs KEY NAME ..: compares each key with the name behind it, both in hexadecimal digits, as a question's: the name's
// letters are lowered, the key's are not. It prints both, whether they are the same, and how many byte pairs were read
// to tell. The word - is no bytes.

#![tactic(auto)]

ghost use Rattle.std.specs.Prelude.{◌≤◌, length};
ghost use Rattle.files.specs.Fronts.{IsFront};

use buffer::put::put_lowered;
use comparing::compare;
use console::arguments::{argument, argument_count};
use digits::hex::hex_digit;
use rules::comparisons::Compared;
use std::io::Error;

// The byte that two digits are.
#[tactic(auto, using(digits::specs::Laws::hex_below))]
fn byte_of(high: u8, low: u8) -> Option<u8> {
    let high = hex_digit(high)?;
    let low = hex_digit(low)?;
    Some((high * 16 + low) as u8)
}

// The bytes that digits are, at the front of the room: how many there are, where all are digits, and fit. A last
// byte without its pair counts for nothing.
fn read_hex(text: &[u8], room: &mut [u8]) -> Option<usize>
    ensures { IsFront room.new result }
{
    let n = text.len() / 2;
    let bytes = room.get_mut(..n)?;
    for (byte, pair) in bytes.iter_mut().zip(text.chunks_exact(2)) {
        *byte = byte_of(pair[0], pair[1])?;
    }
    Some(n)
}

fn compare_lowered(key: &[u8], name: &[u8]) -> Compared
    requires { length name.now ≤ 255 }
{
    let mut lowered = [0u8; 255];
    let n = put_lowered(&mut lowered, name);
    compare(key, &lowered[..n])
}

// Compares what two words are the digits of.
fn compare_words(key_word: &[u8], name_word: &[u8]) -> Option<Compared> {
    let mut key = [0u8; 255];
    let mut name = [0u8; 255];
    let key_len = read_hex(key_word, &mut key)?;
    let name_len = read_hex(name_word, &mut name)?;
    Some(compare_lowered(&key[..key_len], &name[..name_len]))
}

// The words need not be text.
fn print_line<P: Print>(
    out: &P,
    key_word: &[u8],
    name_word: &[u8],
    said: Option<Compared>,
) -> Result<(), Error> {
    out.write_all(key_word)?;
    out.write_all(b" ")?;
    out.write_all(name_word)?;
    match said {
        Some(Compared { same: true, pairs }) => println!(out; " same {pairs}"),
        Some(Compared { same: false, pairs }) => println!(out; " other {pairs}"),
        None => println!(out),
    }
}

// The key and the name that two arguments are; one that is too long counts as no word. What a write answers is of
// no use.
fn compare_arguments(rt: &HostRuntime, key_at: usize, name_at: usize) {
    let mut key_word = io::buffer();
    let mut name_word = io::buffer();
    let key_len = argument(rt, key_at, &mut key_word).unwrap_or(0);
    let name_len = argument(rt, name_at, &mut name_word).unwrap_or(0);
    let key_word = &key_word[..key_len];
    let name_word = &name_word[..name_len];
    let said = compare_words(key_word, name_word);
    let _ = print_line(rt, key_word, name_word, said);
    if said.is_none() {
        let _ = eprintln!(rt;
            "a key and a name are at most 255 bytes, each as two digits of 0 to 9 and a to f"
        );
    }
}

fn main(rt: HostRuntime) {
    let words = argument_count(&rt).saturating_sub(1);
    for pair in 0..words / 2 {
        compare_arguments(&rt, 2 * pair + 1, 2 * pair + 2);
    }
    if words % 2 == 1 {
        let _ = eprintln!(rt; "the last key has no name behind it");
    }
}

// Names on the wire, as keys and questions have them.

#![tactic(auto)]

ghost use Rattle.std.specs.Prelude.{◌≡◌};
ghost use Rattle.rules.specs.Names.{is_wire};
ghost use Rattle.rules.specs.Reading.{lowered};
ghost use Rattle.keys.specs.Keys.{low_name};

use wire::get::wide;

// A name has at most 255 bytes on the wire, a label at most 63.
const LONGEST_NAME: usize = 255;

const LONGEST_LABEL: u64 = 63;

// Whether bytes are a name on the wire. It goes from label to label by its place up to the last byte: to know that byte nothing has to be
// read before. A part that shrinks would be tested twice for each label.
pub fn is_wire(name: &[u8]) -> bool
    ensures { result ≡ is_wire name.now }
{
    let n = name.len();
    if LONGEST_NAME < n {
        return false;
    }
    if n == 0 {
        return false;
    }
    let last = n - 1;
    let mut i: usize = 0;
    while i < last {
        let label = wide(name[i]);
        if label == 0 {
            return false;
        }
        if LONGEST_LABEL < label {
            return false;
        }
        i = i + 1 + label as usize;
    }
    if i != last {
        return false;
    }
    name[last] == 0
}

// Whether a part of a key is free of A to Z. Each byte is looked at: a loop without a way out takes many bytes at a time.
fn is_lowered_part(part: &[u8]) -> bool
    ensures { result ≡ lowered part.now }
{
    let mut low = true;
    for &b in part {
        if b.is_ascii_uppercase() {
            low = false;
        }
    }
    low
}

// Whether bytes are free of A to Z. They are taken by 16, for which no loop is left, and the last 16 may have been looked at before. By the
// library's chunks, in place of places, asking takes a tenth more instructions.
fn is_lowered(key: &[u8]) -> bool
    ensures { result ≡ lowered key.now }
{
    let n = key.len();
    if n < 16 {
        return is_lowered_part(key);
    }
    let mut i: usize = 0;
    while 16 < n - i {
        let next = i + 16;
        if !is_lowered_part(&key[i..next]) {
            return false;
        }
        i = next;
    }
    let last = n - 16;
    is_lowered_part(&key[last..])
}

// Whether a key is a name free of A to Z, as that of every record with an owner is. Letters first: behind is_wire the last byte would be
// known, and the last 16 no longer looked at together.
pub fn is_low_name(key: &[u8]) -> bool
    ensures { result ≡ low_name key.now }
{
    if !is_lowered(key) {
        return false;
    }
    is_wire(key)
}

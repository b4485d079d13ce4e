// A reader that holds compiled bytes and its own place in them.

#![tactic(auto)]

ghost use Rattle.std.specs.Prelude.{◌≡◌};
ghost use Rattle.places.specs.Places.{found_at};
ghost use Rattle.held.specs.Nth.{behind, found_from};

use places::{Place, record_at};

#[derive(Clone, Copy)]
pub struct Reader<'a> {
    pub bytes: &'a [u8],
    pub at: usize,
}

impl<'a> Reader<'a> {
    // A reader at the first byte.
    pub fn new(bytes: &'a [u8]) -> Self
        ensures { (result.bytes ≡ bytes.entry) × (result.at ≡ 0) }
    {
        Reader { bytes, at: 0 }
    }

    // The whole record at the reader's place; the reader goes on behind it, and stays where there is none.
    pub fn next(&mut self) -> Option<Place>
        ensures { (result ≡ found_at self.old.bytes.now self.old.at) × (self.new.bytes ≡ self.old.bytes) × (self.new.at ≡ behind self.old.at result) }
    {
        let place = record_at(self.bytes, self.at)?;
        self.at = place.next;
        Some(place)
    }
}

// The record of this number, from 0, in the order of the bytes; or that fewer whole records are there, and where they end.
pub fn nth(bytes: &[u8], number: u64) -> Result<Place, usize>
    ensures { result ≡ found_from number bytes.now 0 }
{
    let mut at: usize = 0;
    for _ in 0..number {
        let Some(place) = record_at(bytes, at) else {
            return Err(at);
        };
        at = place.next;
    }
    record_at(bytes, at).ok_or(at)
}

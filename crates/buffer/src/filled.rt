// A buffer of fixed size, of which the front is filled.
ghost use Rattle.std.specs.Prelude.{◌≡◌, ℕ, List, ◌≤◌, length, take};
ghost use Rattle.std.specs.Borrow.{MutBor};
ghost use Rattle.buffer.specs.Filling.{EachFilling};

use std::marker::Model;

// In a contract it is the list of the bytes that are filled. Those behind them are zeros, so that it can be copied.
#[derive(Clone, Copy)]
pub struct Filled<const N: usize> {
    bytes: [u8; N],
    len: usize,
}

impl<const N: usize> Model for Filled<N> {
    ghost use Rattle.std.specs.Prelude.{ℕ, List, length, take};
    ghost use Rattle.buffer.specs.Filling.{IsFilled, padded};
    ghost use Rattle.buffer.specs.Padding.{front_padded, front_size};

    ghost Value = { List ℕ };

    ghost view = { λ f. take f.len f.bytes };

    ghost invariant = { λ f. IsFilled N f.len f.bytes };

    ghost inverse = { λ x. record { bytes = padded N x; len = length x } };

    ghost inverse_ok = { λ f h i. record { bytes = front_padded N f.len f.bytes h i; len = front_size N f.len f.bytes h i } };
}

impl<const N: usize> Filled<N> {
    // The first len bytes are filled.
    pub fn new(bytes: [u8; N], len: usize) -> Self
        requires { len ≤ N }
        ensures { result ≡ take len bytes.entry }
    {
        let mut bytes = bytes;
        let room = &mut bytes[..];
        room[len..].fill(0);
        Filled { bytes, len }
    }

    // What fill puts at the front of N bytes; it answers how many.
    pub fn by<F: FnOnce(&mut [u8]) -> usize>(fill: F) -> Self
        requires callable { (room : MutBor (List ℕ)) → length room.now ≡ N → F.pre fill room }
        requires within { EachFilling N (F.post fill) (λ full len. len ≤ N) }
        ensures { (x : List ℕ) → EachFilling N (F.post fill) (λ full len. take len full ≡ x) → result ≡ x }
    {
        let mut bytes = [0u8; N];
        let len = fill(&mut bytes);
        Filled::new(bytes, len)
    }

    pub fn as_slice(&self) -> &[u8]
        ensures value { result.now ≡ self.now }
        ensures len { length result.now ≤ N }
    {
        &self.bytes[..self.len]
    }
}

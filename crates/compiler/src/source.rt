// The lines of a source.
ghost use Rattle.std.specs.Prelude.{◌≡◌};
ghost use Rattle.std.specs.Iterator.{YieldsFirstRef, item_count};
ghost use Rattle.rules.specs.Kinds.{lines_of};

use pieces::pieces::piece_end;

// What is left of a source, from the start of a line on.
#[derive(Drop)]
pub(crate) struct Lines<'a> {
    left: &'a [u8],
}

impl<'a> Lines<'a> {
    pub(crate) fn new(source: &'a [u8]) -> Self
        ensures { result.left.now ≡ source.now }
    {
        Lines { left: source }
    }
}

// Each line without the byte 10 that ends it; none begins at the end.
impl<'a> Iterator for Lines<'a> {
    type Item = &'a [u8];

    ghost next_gives = { YieldsFirstRef (λ s. lines_of s.left.now) };

    ghost remaining = { item_count (λ s. lines_of s.left.now) };

    fn next(&mut self) -> Option<&'a [u8]> {
        let left = self.left;
        if left.is_empty() {
            return None;
        }
        let end = piece_end(left, 0, b'\n');
        self.left = left.get(end + 1..).unwrap_or(&[]);
        Some(&left[..end])
    }
}

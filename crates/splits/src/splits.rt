// The fields of a line: how they are held, and a field's text.
ghost use Rattle.std.specs.Prelude.{◌≡◌, ◌<◌};
ghost use Rattle.std.proofs.Props.{props};
ghost use Rattle.rules.specs.Kinds.{field_at};
ghost use Rattle.splits.specs.Splits.{FieldsOf, inside_prop};

mod splitter;

pub use splitter::split;

// A field of a line: its first byte, and the place behind its last.
#[derive(Clone, Copy)]
pub struct Span(pub usize, pub usize);

// The fields of a line, no more than it may have, with an empty span for each that is missing. In a contract
// `fields_of` is the list of their texts.
#[derive(Clone, Copy)]
pub struct Fields<'a> {
    pub rest: &'a [u8],
    pub spans: [Span; 11],
    ghost parted: { FieldsOf rest.now spans } by { Prim.hlevel (props, inside_prop) },
}

impl<'a> Fields<'a> {
    ghost use Rattle.splits.specs.Texts.{fields_of};

    // The text of field i, from 0.
    pub fn field(&self, i: usize) -> &'a [u8]
        requires { i < 11 }
        ensures { result.now ≡ field_at (fields_of self.now) i }
    {
        let Span(start, end) = self.spans[i];
        &self.rest[start..end]
    }
}

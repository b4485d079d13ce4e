// The line splitter: a line is split at each colon.
ghost use Rattle.std.specs.Prelude.{◌≡◌, option_map};
ghost use Rattle.rules.specs.Lists.{split_on};
ghost use Rattle.rules.specs.Kinds.{field_count};
ghost use Rattle.splits.specs.Few.{if_few};
ghost use Rattle.splits.specs.Texts.{fields_of};

use super::{Fields, Span};
use rows::rows::row_of;
use rules::kinds::Kind;

// The line splitter looks the kind up in the table. A byte that is no kind has a row without fields.
pub fn split(rest: &[u8], kind: Kind) -> Option<Fields<'_>>
    ensures { option_map fields_of result ≡ if_few (field_count kind) (split_on 58 rest.now) }
{
    let most = row_of(kind).count;
    let mut spans = [Span(0, 0); 11];
    let mut count: usize = 0;
    let mut start: usize = 0;
    for (i, &b) in rest.iter().enumerate() {
        if b == b':' {
            if most <= count {
                return None;
            }
            spans[count] = Span(start, i);
            count += 1;
            start = i + 1;
        }
    }
    if count < most {
        spans[count] = Span(start, rest.len());
        Some(Fields { rest, spans })
    } else {
        None
    }
}

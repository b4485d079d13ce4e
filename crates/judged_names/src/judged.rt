// A name's text judged: labels joined by dots.
ghost use Rattle.std.specs.Prelude.{◌≡◌};
ghost use Rattle.rules.specs.Names.{name_of};
ghost use Rattle.judged_names.specs.Views.{judged_of};
ghost use Rattle.judged_names.specs.NameCounts.{byte_kind, judged_size};

use rules::faults::NameFault;

// The first fault of a name's text, and its place in the text, from 0.
#[derive(Clone, Copy, Debug, PartialEq, Eq)]
pub struct Misnamed {
    pub fault: NameFault,
    pub place: usize,
}

// What a byte of a name's text is.
#[derive(Clone, Copy, Debug, PartialEq, Eq)]
pub enum ByteKind {
    Dot,
    Plain,
    Other,
}

fn kind_of_byte(b: u8) -> ByteKind
    ensures { result ≡ byte_kind b }
{
    match b {
        b'.' => ByteKind::Dot,
        b'\\' => ByteKind::Other,
        b'!'..=b'~' => ByteKind::Plain,
        _ => ByteKind::Other,
    }
}

// A name of this size, if it isn't too long.
fn sized(size: usize) -> Result<usize, Misnamed>
    ensures { result ≡ judged_size size }
{
    if size <= 255 {
        return Ok(size);
    }
    Err(Misnamed {
        fault: NameFault::NameTooLong,
        place: 0,
    })
}

// The name's length on the wire.
pub fn judge_name(text: &[u8]) -> Result<usize, Misnamed>
    ensures { result ≡ judged_of (name_of text.now) }
{
    // a dot alone is the root
    if text == b".".as_slice() {
        return Ok(1);
    }
    // the bytes on the wire of the labels that are closed, and the length of the label that is being read
    let mut closed: usize = 0;
    let mut begun: usize = 0;
    for (place, &b) in text.iter().enumerate() {
        match kind_of_byte(b) {
            ByteKind::Dot => {
                if begun == 0 {
                    return Err(Misnamed {
                        fault: NameFault::EmptyLabel,
                        place,
                    });
                }
                closed += begun + 1;
                begun = 0;
            },
            ByteKind::Plain => {
                if 63 <= begun {
                    return Err(Misnamed {
                        fault: NameFault::LabelTooLong,
                        place,
                    });
                }
                begun += 1;
            },
            ByteKind::Other => {
                return Err(Misnamed {
                    fault: NameFault::ByteNotAllowed,
                    place,
                })
            },
        }
    }
    if begun == 0 {
        return sized(closed + 1);
    }
    sized(closed + begun + 2)
}

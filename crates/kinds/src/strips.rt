// Spaces and tabs at the end of a line dropped.
ghost use Rattle.kinds.specs.Strips.{IsStripped};

// How many bytes of a line are left.
pub fn stripped(line: &[u8]) -> usize
    ensures { IsStripped line.now result }
{
    let mut left = line;
    // rposition would answer a place, with a 1 to add and a 0 for none: no plainer
    while let [rest @ .., b' ' | b'\t'] = left {
        left = rest;
    }
    left.len()
}

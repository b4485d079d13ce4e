// Whether a record's key is the asked name or an ancestor of it: those alone can answer for it.

#![tactic(auto)]

ghost use Rattle.std.specs.Prelude.{◌≡◌, ◌≤◌, length};
ghost use Rattle.related.specs.Related.{related, Lengths};

use comparing::compare;

// The lengths of a name and its ancestors: true at each. It is to be made once for a question, and tells with one look whether
// a key can be one of these names.
pub fn lengths_of(name: &[u8]) -> [bool; 256]
    requires { length name.now ≤ 255 }
    ensures { Lengths result name.now }
{
    let mut lengths = [false; 256];
    lengths[name.len()] = true;
    let mut rest = name;
    // a label's length says where the next begins, so no method that walks a slice fits
    while let Some((&label, behind)) = rest.split_first() {
        let label = usize::from(label);
        if label == 0 {
            return lengths;
        }
        if behind.len() < label {
            return lengths;
        }
        rest = &behind[label..];
        lengths[rest.len()] = true;
    }
    lengths
}

// Whether a key is the name, whose letters are lowered, or an ancestor. A key whose length none of them has is not read.
// Any other is compared once, with the one of its length.
pub fn is_related(lengths: &[bool], name: &[u8], key: &[u8]) -> bool
    requires { Lengths lengths.now name.now }
    ensures { result ≡ related name.now key.now }
{
    let n = key.len();
    if name.len() < n {
        return false;
    }
    if !lengths[n] {
        return false;
    }
    let front = name.len() - n;
    let said = compare(key, &name[front..]);
    said.same
}

// A key compared with a name, and how many byte pairs were read to tell.

#![tactic(auto)]

ghost use Rattle.std.specs.Prelude.{◌≡◌};
ghost use Rattle.rules.specs.Comparing.{compared};

use rules::comparisons::Compared;

// Compares a key with a name whose letters are lowered, from the front up to the first difference. A key of another
// length is passed over unread.
pub fn compare(key: &[u8], name: &[u8]) -> Compared
    ensures { result ≡ compared key.now name.now }
{
    let n = key.len();
    if n != name.len() {
        return Compared {
            same: false,
            pairs: 0,
        };
    }
    for (i, &b) in key.iter().enumerate() {
        if b != name[i] {
            return Compared {
                same: false,
                pairs: i + 1,
            };
        }
    }
    Compared {
        same: true,
        pairs: n,
    }
}

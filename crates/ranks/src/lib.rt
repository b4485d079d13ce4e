// The rank of a record among those that can answer for a name.

#![tactic(auto)]

ghost use Rattle.std.specs.Prelude.{◌≡◌, true, not, ◌&&◌, ◌||◌, map, length, eqb};
ghost use Rattle.rules.specs.Lists.{pick, lower, same_bytes, is_some};
ghost use Rattle.rules.specs.Records.{lo_bytes};
ghost use Rattle.rules.specs.Questions.{ancestors};
ghost use Rattle.rules.specs.Reading.{record_in};
ghost use Rattle.ranks.specs.Ranks.{among, ends_in, key_rank, role_key_rank, rank_in};

use judge::Seen;
use judge::known::known_in;
use letters::letters::lowered;
use rules::quantities::{Lo, Moment};
use view::visible;
use wire::get::wide;

// What a record is looked at for: the level of a name; or, ordinary records of the name and its ancestors, NS for the control name and SOA for
// the zone.
#[derive(Clone, Copy)]
pub enum Role {
    Level,
    Control,
    Zone,
}

// Whether a byte of a key is a byte with its letter lowered. It is computed: the table would be laid out anew for each byte.
fn is_lowered(key: u8, b: u8) -> bool
    ensures { result ≡ eqb key (lower b) }
{
    if b < 65 {
        return key == b;
    }
    if 90 < b {
        return key == b;
    }
    key == b + 32
}

// Whether a key is a name with its letters lowered.
fn same_lowered(key: &[u8], name: &[u8]) -> bool
    ensures { result ≡ same_bytes key.now (map lower name.now) }
{
    if key.len() != name.len() {
        return false;
    }
    for (i, &b) in key.iter().enumerate() {
        if !is_lowered(b, name[i]) {
            return false;
        }
    }
    true
}

// Whether a key is what stands behind some label of a name. An ancestor is shorter than the name.
fn is_ancestor(name: &[u8], key: &[u8]) -> bool
    ensures { result ≡ among key.now (ancestors (map lower name.now)) }
{
    if name.len() <= key.len() {
        return false;
    }
    let mut rest = name;
    // a label's length says where the next begins, so no method that walks a slice fits
    while let Some((&first, behind)) = rest.split_first() {
        let label = usize::from(lowered(first));
        if label == 0 {
            return false;
        }
        if behind.len() < label {
            return false;
        }
        rest = &behind[label..];
        if same_lowered(key, rest) {
            return true;
        }
    }
    false
}

// Whether a name ends in a key, as it does in those that can answer for it. Most keys are told by their first byte, the length of a label:
// below the letters it needs no lowering.
pub fn is_end(name: &[u8], key: &[u8]) -> bool
    ensures { result ≡ ends_in (map lower name.now) key.now }
{
    let n = name.len();
    if n < key.len() {
        return false;
    }
    if key.len() == 0 {
        return true;
    }
    let front = n - key.len();
    let first = key[0];
    if first < 65 {
        if name[front] != first {
            return false;
        }
    }
    same_lowered(key, &name[front..])
}

// Whether a record of this key can answer for a name at all.
fn is_related(name: &[u8], key: &[u8]) -> bool
    ensures { result ≡ (same_bytes key.now (map lower name.now) || among key.now (ancestors (map lower name.now))) }
{
    if !is_end(name, key) {
        return false;
    }
    if name.len() == key.len() {
        return true;
    }
    is_ancestor(name, key)
}

// 256 for an ordinary record of the name, the key's length for a wildcard of an ancestor, else 0.
fn rank(name: &[u8], key: &[u8], wild: bool) -> usize
    ensures { result ≡ key_rank (map lower name.now) key.now wild }
{
    if wild {
        if is_ancestor(name, key) {
            return key.len();
        }
        return 0;
    }
    if same_lowered(key, name) {
        return 256;
    }
    0
}

// The key's length for an ordinary record of a type, else 0.
fn typed_rank(key: &[u8], wild: bool, rtype: u16, wanted: u16) -> usize
    ensures { result ≡ pick (not wild && eqb wanted rtype) (length key.now) 0 }
{
    if wild {
        return 0;
    }
    if wanted != rtype {
        return 0;
    }
    key.len()
}

// The rank of a record whose key is the name or an ancestor.
fn role_rank(name: &[u8], role: Role, key: &[u8], wild: bool, rtype: u16) -> usize
    requires { (same_bytes key.now (map lower name.now) || among key.now (ancestors (map lower name.now))) ≡ true }
    ensures { result ≡ role_key_rank role (map lower name.now) key.now wild rtype }
{
    match role {
        Role::Level => rank(name, key, wild),
        Role::Control => typed_rank(key, wild, rtype, 2),
        Role::Zone => typed_rank(key, wild, rtype, 6),
    }
}

// The rank of a record that a client who is here sees at a moment, 0 for any other. The key alone rules most records out.
pub fn rank_in(name: &[u8], role: Role, here: Lo, moment: Moment, key: &[u8], rdata: &[u8]) -> usize
    requires { is_some (record_in key.now rdata.now) ≡ true }
    ensures { result ≡ rank_in role (map lower name.now) (lo_bytes here) moment.0 (record_in key.now rdata.now) }
{
    if !is_related(name, key) {
        return 0;
    }
    match known_in(key, rdata) {
        Seen::Location(_) => 0,
        Seen::Resource {
            wild,
            rtype,
            shared,
            ..
        } => {
            if !visible(here, moment, shared) {
                return 0;
            }
            role_rank(name, role, key, wild, rtype)
        }
    }
}

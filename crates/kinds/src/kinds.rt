// The kind of a line.
ghost use Rattle.std.specs.Prelude.{◌≡◌};
ghost use Rattle.rules.specs.Kinds.{ignored, kind_of};

use rules::kinds::Kind;

// A comment, or a line that is switched off.
#[tactic(auto, using(wire::proofs::Steps::tests), unfolding(rules::specs::Kinds::ignored))]
pub fn is_ignored(b: u8) -> bool
    ensures { result ≡ ignored b }
{
    matches!(b, b'#' | b'-')
}

// `rules` has the type, and the library `From`: so no impl of it can stand here.
#[tactic(auto, using(wire::proofs::Steps::tests), unfolding(rules::specs::Kinds::kind_of, rules::specs::Lists::pick))]
pub fn kind_of(b: u8) -> Kind
    ensures { result ≡ kind_of b }
{
    match b {
        b'%' => Kind::Location,
        b'.' => Kind::Zone,
        b'&' => Kind::Delegation,
        b'=' => Kind::Host,
        b'+' => Kind::Alias,
        b'@' => Kind::Mail,
        b'S' => Kind::Service,
        b'\'' => Kind::Text,
        b'^' => Kind::Pointer,
        b'C' => Kind::Canonical,
        b'Z' => Kind::Authority,
        b':' => Kind::Generic,
        _ => Kind::Unknown,
    }
}

// The label `*` in front of a name.
ghost use Rattle.std.specs.Prelude.{◌≡◌};
ghost use Rattle.rules.specs.Bytes.{wild};

// Whether the first label of a name is just `*`.
pub fn is_wild(name: &[u8]) -> bool
    ensures { result ≡ wild name.now }
{
    match name {
        [1, b'*', ..] => true,
        _ => false,
    }
}

// The bytes of eight groups.
ghost use Rattle.std.specs.Prelude.{◌≡◌};
ghost use Rattle.groups.specs.Groups.{groups_bytes};

// Each group as two bytes, the high one first.
pub(crate) fn address_bytes(groups: [u16; 8]) -> [u8; 16]
    ensures { result ≡ groups_bytes groups }
{
    let mut bytes = [0u8; 16];
    for (i, group) in groups.iter().enumerate() {
        bytes[2 * i..2 * i + 2].copy_from_slice(&group.to_be_bytes());
    }
    bytes
}

// An address: IPv4 or IPv6.
ghost use Rattle.std.specs.Prelude.{◌≡◌, length};
ghost use Rattle.addresses.specs.Address.{address_bytes, address_size};

#[derive(Clone, Copy, Debug, PartialEq, Eq)]
pub enum Address {
    V4([u8; 4]),
    V6([u8; 16]),
}

impl Address {
    // Its 4 or 16 bytes.
    pub fn as_slice(&self) -> &[u8]
        ensures bytes { result.now ≡ address_bytes self.now }
        ensures size { length result.now ≡ address_size self.now }
    {
        match self {
            Address::V4(bytes) => bytes,
            Address::V6(bytes) => bytes,
        }
    }
}

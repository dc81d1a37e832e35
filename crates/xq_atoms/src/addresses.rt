//! The addresses that documents are stored under.
ghost use Rattle.std.specs.Prelude.{◌≡◌, ◌↔◌, IsTrue};
ghost use Rattle.xq_atoms.specs.Address.{IsAddress, is_address_byte as is_address_byte_lem};

/// The greatest length of an address, in bytes.
pub const MAX_ADDRESS: usize = 200;

/// Whether the bytes are an address: 1 to 200 bytes of `A-Z a-z 0-9 . _ / -`.
pub fn address_ok(bytes: &[u8]) -> bool
    ensures { IsTrue result ↔ IsAddress bytes.now }
{
    !bytes.is_empty()
        && bytes.len() <= MAX_ADDRESS
        && bytes.iter().all(|byte| is_address_byte(*byte))
}

/// Whether the byte may stand in an address.
fn is_address_byte(byte: u8) -> bool
    ensures { result ≡ is_address_byte_lem byte }
{
    matches!(byte, b'A'..=b'Z' | b'a'..=b'z' | b'0'..=b'9' | b'.' | b'_' | b'/' | b'-')
}

//! The key of a service.

ghost use Rattle.std.specs.Prelude.{◌≡◌, string_bytes, IfOk};
ghost use Rattle.hex.specs.Hex.{encode_lower};

use hex::encode;
use std::alloc::{AllocError, Global};

/// A key, and the hex digits in which a request has it. Nothing shows it.
#[derive(Drop)]
pub struct Key {
    bytes: Vec<u8>,
    digits: String,
    ghost spelled: { string_bytes digits ≡ encode_lower bytes.items },
}

impl Key {
    pub fn new(alloc: Global, bytes: &[u8]) -> Result<Key, AllocError>
        ensures { IfOk result (λ key. key.bytes.items ≡ bytes.now) }
    {
        let digits = encode(alloc, bytes)?;
        let bytes = Vec::from_slice(alloc, bytes)?;
        Ok(Key { bytes, digits })
    }

    /// Its bytes.
    pub fn bytes(&self) -> &[u8]
        ensures { result.now ≡ self.now.bytes.items }
    {
        &self.bytes
    }

    /// Its hex digits.
    pub fn digits(&self) -> &[u8]
        ensures { result.now ≡ encode_lower self.now.bytes.items }
    {
        self.digits.as_bytes()
    }
}

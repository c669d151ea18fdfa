//! The key that peers ask for.

ghost use Rattle.std.specs.Prelude.{◌≡◌, string_bytes, IfOk};
ghost use Rattle.http_posts.specs.Keys.{credentials};

use std::alloc::{AllocError, Global};

/// The key of a cluster, and the `Authorization` of a request that has it. It isn't shown.
#[derive(Drop)]
pub struct Key {
    pub(crate) bytes: Vec<u8>,
    pub(crate) credentials: String,
}

impl Key {
    /// The key of these bytes, which the credentials have in hex.
    pub fn new(alloc: Global, bytes: &[u8]) -> Result<Key, AllocError>
        ensures bytes { IfOk result (λ key. key.bytes.items ≡ bytes.now) }
        ensures credentials { IfOk result
            (λ key. string_bytes key.credentials ≡ credentials bytes.now) }
    {
        let digits = hex::encode(alloc, bytes)?;
        let credentials = format!(in alloc; "Bearer {digits}")?;
        Ok(Key {
            bytes: Vec::from_slice(alloc, bytes)?,
            credentials,
        })
    }
}

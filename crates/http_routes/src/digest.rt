//! Digests of messages, by which the receiver sees that a bit was changed on the way.
ghost use Rattle.std.specs.Prelude.{◌≡◌, ◌≤◌, length, IfOk, string_bytes};
ghost use Rattle.http_routes.specs.Digests.{agrees, digest_text, hmac_sha256, is_between_words, is_intact, key_block, mac_text, masked, padded};

use base64::engine::general_purpose::STANDARD;
use sha2::{Digest, Sha256};
use std::alloc::{AllocError, Global};

/// The field of a message that has the SHA-256 of its body (RFC 9530).
pub const DIGEST_FIELD: &str = "content-digest";

/// The field of a message that has the HMAC-SHA-256 of its body, if the cluster has a key.
pub const MAC_FIELD: &str = "failreg-mac";

/// How many bytes a block of SHA-256 has.
const BLOCK_BYTES: usize = 64;

fn masked(block: [u8; BLOCK_BYTES], mask: u8) -> [u8; BLOCK_BYTES]
    ensures { result ≡ masked mask block }
{
    let mut masked = block;
    for at in 0..BLOCK_BYTES {
        masked[at] ^= mask;
    }
    masked
}

// A short key, filled up with zeros to one block of SHA-256.
fn padded(key: &[u8]) -> [u8; BLOCK_BYTES]
    requires { length key.now ≤ BLOCK_BYTES }
    ensures { result ≡ padded key.now }
{
    let mut block = [0; BLOCK_BYTES];
    block[..key.len()].copy_from_slice(key);
    block
}

// A key as one block of SHA-256. A longer one is hashed first.
fn key_block(key: &[u8]) -> [u8; BLOCK_BYTES]
    ensures { result ≡ key_block key.now }
{
    if key.len() > BLOCK_BYTES {
        padded(&Sha256::digest(key))
    } else {
        padded(key)
    }
}

/// The HMAC-SHA-256 of a message under a key (RFC 2104).
pub fn hmac_sha256(key: &[u8], message: &[u8]) -> [u8; 32]
    ensures { result ≡ hmac_sha256 key.now message.now }
{
    let block = key_block(key);
    let mut inner = Sha256::new();
    inner.update(masked(block, 0x36));
    inner.update(message);
    let mut outer = Sha256::new();
    outer.update(masked(block, 0x5c));
    outer.update(inner.finalize());
    outer.finalize()
}

/// The value of `Content-Digest` for a body: its SHA-256 (RFC 9530).
pub fn digest_text(alloc: Global, body: &[u8]) -> Result<String, AllocError>
    ensures { IfOk result (λ text. string_bytes text ≡ digest_text body.now) }
{
    let mut text = String::from_str(alloc, "sha-256=:")?;
    STANDARD.encode_string(&Sha256::digest(body), &mut text)?;
    text.push_str(":")?;
    Ok(text)
}

/// The value of `Failreg-Mac` for a body, under the key of the cluster: its HMAC-SHA-256, in hex.
pub fn mac_text(alloc: Global, key: &[u8], body: &[u8]) -> Result<String, AllocError>
    ensures { IfOk result (λ text. string_bytes text ≡ mac_text key.now body.now) }
{
    hex::encode(alloc, hmac_sha256(key, body))
}

// Whether a word of a `Content-Digest` field is no other SHA-256 than this one.
fn agrees(word: &[u8], digest: &[u8]) -> bool
    ensures { result ≡ agrees digest.now word.now }
{
    word == digest || word.strip_prefix(b"sha-256=").is_none()
}

fn is_between_words(byte: u8) -> bool
    ensures { result ≡ is_between_words byte }
{
    matches!(byte, b',' | b' ' | b'\t')
}

/// Whether each SHA-256 that a `Content-Digest` field has is this one, as `digest_text` writes it.
/// Digests of other algorithms say nothing (RFC 9530).
pub fn is_intact(field: &[u8], digest: &[u8]) -> bool
    ensures { result ≡ is_intact digest.now field.now }
{
    field
        .split(|byte| is_between_words(*byte))
        .all(|word| agrees(word, digest))
}

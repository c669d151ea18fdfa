//! Whether a message is as it was sent.

ghost use Rattle.std.specs.Prelude.{◌≡◌, option_map};
ghost use Rattle.http_routes.specs.Digests.{digest_text, mac_text};
ghost use Rattle.http_exchange.specs.Seals.{has_digests, has_mac, is_altered};

use crate::access::is_same;
use crate::key::Key;
use base64::engine::general_purpose::STANDARD;
use hex::encode_to_slice;
use http::header::{HeaderMap, HeaderName};
use http_routes::{DIGEST_FIELD, Kind, MAC_FIELD, hmac_sha256, is_intact};
use sha2::{Digest, Sha256};

/// Whether the body of a request of this kind is a message that isn't as it was sent, by the fields of
/// the request and the key, if there is one. It takes no memory.
pub fn is_altered(kind: Kind, key: Option<&Key>, fields: &HeaderMap, body: &[u8]) -> bool
    ensures { result ≡ is_altered kind (option_map (λ k. k.now.bytes.items) key.entry) fields.now
        body.now }
{
    match kind {
        Kind::Delivery => !(has_digests(fields, body) && has_mac(key, fields, body)),
        Kind::Read | Kind::Status | Kind::Call | Kind::Hello | Kind::Page | Kind::Stop => false,
    }
}

// Whether each `Content-Digest` is consistent with a message.
fn has_digests(fields: &HeaderMap, message: &[u8]) -> bool
    ensures { result ≡ has_digests fields.now message.now }
{
    let digest = digest_of(message);
    fields
        .get_all(HeaderName::from_static(DIGEST_FIELD))
        .iter()
        .all(|value| is_intact(value.as_bytes(), &digest))
}

// Whether `Failreg-Mac` is there, once, and is that of a message under the key, if there is one.
fn has_mac(key: Option<&Key>, fields: &HeaderMap, message: &[u8]) -> bool
    ensures { result ≡ has_mac (option_map (λ k. k.now.bytes.items) key.entry) fields.now
        message.now }
{
    let Some(key) = key else {
        return true;
    };
    let mut codes = fields.get_all(HeaderName::from_static(MAC_FIELD)).iter();
    match (codes.next(), codes.next()) {
        (Some(code), None) => is_same(code.as_bytes(), &mac_of(key, message)),
        _ => false,
    }
}

// The value of `Content-Digest` for a message.
fn digest_of(message: &[u8]) -> [u8; 54]
    ensures { result ≡ digest_text message.now }
{
    let mut digest = *b"sha-256=:                                            :";
    let _ = STANDARD.encode_slice(&Sha256::digest(message), &mut digest[9..53]);
    digest
}

// The value of `Failreg-Mac` for a message under a key.
fn mac_of(key: &Key, message: &[u8]) -> [u8; 64]
    ensures { result ≡ mac_text key.now.bytes.items message.now }
{
    let mut mac = [0; 64];
    let _ = encode_to_slice(hmac_sha256(key.bytes(), message), &mut mac);
    mac
}

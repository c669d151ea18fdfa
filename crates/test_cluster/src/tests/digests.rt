//! Digests and authentication codes of messages, by the vectors of RFC 4231 and RFC 9530.

use super::*;
use http_routes::{digest_text, is_intact, mac_text};

/// A key, a message, and how its HMAC-SHA-256 begins in hex.
type Row = (&'static [u8], &'static [u8], &'static str);

const CODES: &[Row] = &[
    (
        &[0x0b; 20],
        b"Hi There",
        "b0344c61d8db38535ca8afceaf0bf12b881dc200c9833da726e9376c2e32cff7",
    ),
    (
        b"Jefe",
        b"what do ya want for nothing?",
        "5bdcc146bf60754e6a042426089575c75a003f089d2739839dec58b964ec3843",
    ),
    (
        &[0xaa; 20],
        &[0xdd; 50],
        "773ea91e36800e46854db8ebd09181a72959098b3ef8c122d9635514ced565fe",
    ),
    (
        b"\x01\x02\x03\x04\x05\x06\x07\x08\x09\x0a\x0b\x0c\x0d\x0e\x0f\x10\x11\x12\x13\x14\x15\
          \x16\x17\x18\x19",
        &[0xcd; 50],
        "82558a389a443c0ea4cc819899f2083a85f0faa3e578f8077a2e3ff46729665b",
    ),
    // The vector has the first 16 bytes.
    (
        &[0x0c; 20],
        b"Test With Truncation",
        "a3b6167473100ee06e0c796c2955552b",
    ),
    // The key is longer than a block.
    (
        &[0xaa; 131],
        b"Test Using Larger Than Block-Size Key - Hash Key First",
        "60e431591ee0b67f0d8a26aacbf5b77f8e0bc6213728c5140546040f0ee37f54",
    ),
    (
        &[0xaa; 131],
        b"This is a test using a larger than block-size key and a larger than block-size data. \
          The key needs to be hashed before being used by the HMAC algorithm.",
        "9b09ffa71b942fcb27635fbcd5b0e944bfdc63644f0713938a7f51535c3a35e2",
    ),
];

// A message's authentication code, without what its contract says.
fn code(alloc: Global, key: &[u8], message: &[u8]) -> Result<String, AllocError> {
    mac_text(alloc, key, message)
}

// Ends the test if the authentication code of a message begins otherwise.
fn expect_code(rt: &impl Abort, alloc: Global, row: Row) -> Result<(), AllocError> {
    let (key, message, wanted) = row;
    let found = code(alloc, key, message)?;
    expect(rt, &found.starts_with(wanted), &true);
    Ok(())
}

#[test]
fn messages_have_their_authentication_codes(rt: HostRuntime) -> Result<(), Fail> {
    for row in CODES {
        expect_code(&rt, rt.alloc(), *row)?;
    }
    Ok(())
}

/// A field `Content-Digest`, and whether a body of `{"hello": "world"}` and a newline is intact by it.
const FIELDS: &[(&str, bool)] = &[
    (
        "sha-256=:RK/0qy18MlBSVnWgjwz6lZEWjP/lF5HF9bvEF8FabDg=:",
        true,
    ),
    (
        "sha-512=:AAAA:, sha-256=:RK/0qy18MlBSVnWgjwz6lZEWjP/lF5HF9bvEF8FabDg=:",
        true,
    ),
    // It has no SHA-256.
    ("sha-512=:AAAA:", true),
    ("", true),
    // One digit is another, or is missing.
    (
        "sha-256=:RK/0qy18MlBSVnWgjwz6lZEWjP/lF5HF9bvEF8FabDh=:",
        false,
    ),
    (
        "sha-256=:RK/0qy18MlBSVnWgjwz6lZEWjP/lF5HF9bvEF8FabDg:",
        false,
    ),
    ("sha-256=", false),
    // The second isn't the body's.
    (
        "sha-256=:RK/0qy18MlBSVnWgjwz6lZEWjP/lF5HF9bvEF8FabDg=:, sha-256=:AAAA:",
        false,
    ),
];

// The digest of a body, without what its contract says.
fn digest(alloc: Global, body: &[u8]) -> Result<String, AllocError> {
    digest_text(alloc, body)
}

// Whether a body is intact by a field, without what the contract says.
fn intact(field: &str, digest: &str) -> bool {
    is_intact(field.as_bytes(), digest.as_bytes())
}

#[test]
fn bodies_are_intact_by_their_digests(rt: HostRuntime) -> Result<(), Fail> {
    let digest = digest(rt.alloc(), b"{\"hello\": \"world\"}\n")?;
    for (field, wanted) in FIELDS {
        let found = intact(field, &digest);
        expect(&rt, &(*field, found), &(*field, *wanted));
    }
    Ok(())
}

//! The bytes of messages, and how others are built from them.

use super::*;

/// A message of node 0 to node 1 without entries.
pub(super) const EMPTY: [u8; 32] = [
    0x46, 0x50, 0x47, 0x31, 0, 1, // magic, from, to
    0, 0, 0, 0, 0, 0, 0, 0, // base
    0, 0, 0, 0, 0, 0, 0, 0, // upto
    0, 0, 0, 0, 0, 0, 0, 0, // ack
    0, 0, // no names
];

/// A message of node 0 to node 1, after node 0 set a to `2*off` and passed it once.
pub(super) const ONE_NAME: [u8; 75] = [
    0x46, 0x50, 0x47, 0x31, 0, 1, // magic, from, to
    0, 0, 0, 0, 0, 0, 0, 0, // base
    0, 0, 0, 0, 0, 0, 0, 2, // upto
    0, 0, 0, 0, 0, 0, 0, 0, // ack
    0, 1, // one name
    1, 0x61, // a
    0, 0, 0, 0, 0, 0, 0, 1, 0, // clock and node
    1, 0, 5, 0x32, 0x2a, 0x6f, 0x66, 0x66, // set to five bytes
    1, 0, 0, 0, 0, 0, 0, 0, 0, 1, // one hit cell
    0, 1, 0, 0, 0, 0, 0, 0, 0, 0, 0, 1, // one execution cell
    0, 0, // no shift cell
];

/// A message of node 0 to node 1, after node 0 set a to `2*off` and granted itself 3 rights.
pub(super) const ONE_GRANT: [u8; 68] = [
    0x46, 0x50, 0x47, 0x32, 0, 1, // magic, from, to
    0, 0, 0, 0, 0, 0, 0, 0, // base
    0, 0, 0, 0, 0, 0, 0, 2, // upto
    0, 0, 0, 0, 0, 0, 0, 0, // ack
    0, 1, // one name
    1, 0x61, // a
    0, 0, 0, 0, 0, 0, 0, 1, 0, // clock and node
    1, 0, 5, 0x32, 0x2a, 0x6f, 0x66, 0x66, // set to five bytes
    0, // no hit cell
    0, 0, // no execution cell
    0, 0, // no shift cell
    0, 1, 0, 0, 0, 0, 0, 0, 0, 0, 0, 3, // one grant cell
];

/// A message of node 1 to node 0, with upto 5 and ack 1: a removed point, and one with counts of both
/// nodes.
pub(super) const TWO_POINTS: &[u8] = b"FPG1\x01\x00\0\0\0\0\0\0\0\0\
    \0\0\0\0\0\0\0\x05\0\0\0\0\0\0\0\x01\
    \0\x02\x01a\0\0\0\0\0\0\0\x02\x01\0\0\0\0\0\0\
    \x01b\0\0\0\0\0\0\0\x01\0\x01\0\x053*off\
    \x02\0\0\0\0\0\0\0\0\x03\x01\0\0\0\0\0\0\0\x04\
    \0\x01\0\0\0\0\0\0\0\0\0\x01\
    \0\x01\0\0\x01\0\0\0\0\0\0\0\x02";

/// How bytes are built.
#[derive(Clone, Copy)]
pub(super) enum Bytes {
    /// This many bytes of a message, and then these.
    First(&'static [u8], usize, &'static [&'static [u8]]),
    /// A message with the byte at this offset set to another value.
    Altered(&'static [u8], usize, u8),
    /// This many zeros.
    Zeros(usize),
}

fn first_and(
    alloc: Global,
    bytes: &[u8],
    count: usize,
    rest: &[&[u8]],
) -> Result<Vec<u8>, AllocError> {
    let mut built = Vec::from_slice(alloc, bytes)?;
    built.truncate(count);
    for part in rest {
        built.extend_from_slice(part)?;
    }
    Ok(built)
}

pub(super) fn with_byte(
    alloc: Global,
    bytes: &[u8],
    index: usize,
    value: u8,
) -> Result<Vec<u8>, AllocError> {
    let mut built = Vec::from_slice(alloc, bytes)?;
    if let Some(byte) = built.get_mut(index) {
        *byte = value;
    }
    Ok(built)
}

pub(super) fn bytes_of(alloc: Global, bytes: Bytes) -> Result<Vec<u8>, AllocError> {
    match bytes {
        Bytes::First(bytes, count, rest) => first_and(alloc, bytes, count, rest),
        Bytes::Altered(bytes, index, value) => with_byte(alloc, bytes, index, value),
        Bytes::Zeros(count) => vec![in alloc; 0; count],
    }
}

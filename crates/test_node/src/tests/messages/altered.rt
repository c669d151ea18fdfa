//! Messages cut at each length, and with each byte set to each value.

use super::*;

/// The offsets of the fields of `ONE_NAME`.
const FIELDS: &[usize] = &[
    0, 4, 5, 6, 14, 22, 30, 32, 33, 34, 42, 43, 44, 46, 51, 52, 53, 61, 63, 64, 65, 73,
];

/// The offsets of the fields of `ONE_GRANT`.
const FIELDS_OF_GRANT: &[usize] = &[
    0, 4, 5, 6, 14, 22, 30, 32, 33, 34, 42, 43, 44, 46, 51, 52, 54, 56, 58, 59, 60,
];

/// The offset of the field that is cut at this length.
fn field_at(fields: &[usize], len: usize) -> usize {
    fields
        .iter()
        .copied()
        .filter(|offset| *offset <= len)
        .last()
        .unwrap_or(0)
}

/// Checks that bytes cut at each length are rejected at the field that is cut.
fn expect_cuts(
    rt: &impl Abort,
    alloc: Global,
    bytes: &[u8],
    fields: &[usize],
) -> Result<(), AllocError> {
    for len in 0..bytes.len() {
        let offset = field_at(fields, len);
        let found = fault(alloc, 2, &bytes[..len])?;
        expect(rt, &found, &Some(WireFault::Short { offset }));
    }
    Ok(())
}

#[test]
fn each_cut_of_a_message(rt: HostRuntime) -> Result<(), Fail> {
    expect_cuts(&rt, rt.alloc(), &ONE_NAME, FIELDS)?;
    expect_cuts(&rt, rt.alloc(), &ONE_GRANT, FIELDS_OF_GRANT)?;
    Ok(())
}

/// Whether the bytes with one set to this value are read, and written as the same bytes.
fn is_message(
    rt: &impl Abort,
    alloc: Global,
    bytes: &[u8],
    index: usize,
    value: u8,
) -> Result<bool, AllocError> {
    let bytes = with_byte(alloc, bytes, index, value)?;
    match read(rt, alloc, 2, &bytes) {
        Ok(_) => Ok(true),
        Err(WireFault::OutOfMemory) => Err(AllocError),
        Err(_) => Ok(false),
    }
}

/// How many bytes of a message may have any value.
fn free_bytes(rt: &impl Abort, alloc: Global, bytes: &[u8]) -> Result<u32, AllocError> {
    let mut free = 0u32;
    for index in 0..bytes.len() {
        let mut values = 0u32;
        for value in 0..=255 {
            if is_message(rt, alloc, bytes, index, value)? {
                values = values.saturating_add(1);
            }
        }
        if values == 256 {
            free = free.saturating_add(1);
        }
    }
    Ok(free)
}

/// Free are the 24 bytes of versions, the 8 of the clock, and all bytes of a cell's number but the
/// last, since the number may not be 0.
#[test]
fn each_byte_at_each_value(rt: HostRuntime) -> Result<(), Fail> {
    expect(&rt, &free_bytes(&rt, rt.alloc(), &ONE_NAME)?, &46);
    expect(&rt, &free_bytes(&rt, rt.alloc(), &ONE_GRANT)?, &39);
    Ok(())
}

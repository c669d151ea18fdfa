//! Bytes, each with the message that they are read as or the error for which they are rejected, in
//! print. A message that is read must be written as the same bytes.

use super::*;

/// The number of nodes of the cluster, the bytes, and their reading.
type Reading = (u8, Bytes, &'static str);

const MESSAGES: &[Reading] = &[
    // A shift of 258 rights from node 1 to node 0.
    (
        2,
        Bytes::First(&ONE_NAME, 73, &[&[0, 1, 0, 1, 0, 0, 0, 0, 0, 0, 0, 1, 2]]),
        "0>1 0 2 0; a 1.0 2*off hits 0=1 execs 0 0=1 shifts 0 1>0=258;",
    ),
    (
        2,
        Bytes::First(&ONE_GRANT, 68, &[]),
        "0>1 0 2 0; a 1.0 2*off grants 0 0=3;",
    ),
    // Grants of two nodes, and a shift.
    (
        2,
        Bytes::First(
            &ONE_GRANT,
            54,
            &[
                &[0, 1, 0, 1, 0, 0, 0, 0, 0, 0, 0, 1, 2],
                &[0, 2, 0, 0, 0, 0, 0, 0, 0, 0, 0, 3],
                &[0, 1, 0, 0, 0, 0, 0, 0, 1, 0],
            ],
        ),
        "0>1 0 2 0; a 1.0 2*off shifts 0 1>0=258 grants 0 0=3 grants 0 1=256;",
    ),
    (
        2,
        Bytes::First(TWO_POINTS, TWO_POINTS_LEN, &[]),
        "1>0 0 5 1; a 2.1 removed; b 1.0 3*off hits 0=3 hits 1=4 execs 0 0=1 shifts 0 0>1=2;",
    ),
    // Removed points, with hits.
    (
        2,
        Bytes::First(
            &EMPTY,
            30,
            &[
                &[0, 2],
                &[2, b'a', b'-', 0, 0, 0, 0, 0, 0, 0, 3, 1, 0],
                &[2, 0, 0, 0, 0, 0, 0, 0, 0, 7, 1, 0, 0, 0, 0, 0, 0, 1, 0],
                &[0, 0, 0, 0],
                &[
                    1, b'b', 0xff, 0xff, 0xff, 0xff, 0xff, 0xff, 0xff, 0xff, 0, 0,
                ],
                &NO_CELLS,
            ],
        ),
        "0>1 0 0 0; a- 3.1 removed hits 0=7 hits 1=256; b 18446744073709551615.0 removed;",
    ),
];

const TWO_POINTS_LEN: usize = TWO_POINTS.len();

/// The empty message, with fewer bytes and with one more.
const EMPTY_MESSAGE: &[Reading] = &[
    (2, Bytes::First(&EMPTY, 32, &[]), "0>1 0 0 0;"),
    (2, Bytes::First(&EMPTY, 31, &[]), "W2 Short offset=30"),
    (2, Bytes::First(&EMPTY, 0, &[]), "W2 Short offset=0"),
    (2, Bytes::First(&EMPTY, 32, &[&[0]]), "W3 Long offset=32"),
];

/// The message of one name from offset 42 on.
const AFTER_THE_CLOCK: &[u8] = b"\0\x01\0\x052*off\
    \x01\0\0\0\0\0\0\0\0\x01\0\x01\0\0\0\0\0\0\0\0\0\x01\0\0";

/// The message of one name, as it is and altered. The first three that are altered, and the last,
/// are messages that a node rejects.
const ALTERED: &[Reading] = &[
    (
        2,
        Bytes::First(&ONE_NAME, 75, &[]),
        "0>1 0 2 0; a 1.0 2*off hits 0=1 execs 0 0=1;",
    ),
    (
        2,
        Bytes::Altered(&ONE_NAME, 52, 1),
        "0>1 0 2 0; a 1.0 2*off hits 1=1 execs 0 0=1;",
    ),
    (
        2,
        Bytes::Altered(&ONE_NAME, 29, 1),
        "0>1 0 2 1; a 1.0 2*off hits 0=1 execs 0 0=1;",
    ),
    (
        2,
        Bytes::Altered(&ONE_NAME, 72, 3),
        "0>1 0 2 0; a 1.0 2*off hits 0=1 execs 0 0=3;",
    ),
    (
        2,
        Bytes::Altered(&ONE_NAME, 72, 0),
        "W10 ZeroCell offset=65",
    ),
    (2, Bytes::Altered(&ONE_NAME, 63, 1), "W11 BadTerm offset=63"),
    (2, Bytes::Altered(&ONE_NAME, 5, 0), "W4 BadNode offset=5"),
    (
        2,
        Bytes::First(&ONE_NAME, 34, &[&[0xff; 8], AFTER_THE_CLOCK]),
        "0>1 0 2 0; a 18446744073709551615.0 2*off hits 0=1 execs 0 0=1;",
    ),
];

/// Messages with one byte of another value.
const ONE_BYTE: &[Reading] = &[
    (2, Bytes::Altered(&ONE_NAME, 0, 0), "W1 Magic offset=0"),
    (2, Bytes::Altered(&ONE_NAME, 4, 2), "W4 BadNode offset=4"),
    (2, Bytes::Altered(&ONE_NAME, 32, 0), "W6 BadName offset=32"),
    (
        2,
        Bytes::Altered(&ONE_NAME, 32, 129),
        "W6 BadName offset=32",
    ),
    (2, Bytes::Altered(&ONE_NAME, 32, 128), "W2 Short offset=33"),
    (
        2,
        Bytes::Altered(&ONE_NAME, 33, b' '),
        "W6 BadName offset=33",
    ),
    (
        2,
        Bytes::Altered(&ONE_NAME, 33, 0xff),
        "W6 BadName offset=33",
    ),
    (2, Bytes::Altered(&ONE_NAME, 42, 2), "W4 BadNode offset=42"),
    (2, Bytes::Altered(&ONE_NAME, 43, 2), "W7 BadBody offset=43"),
    (2, Bytes::Altered(&ONE_NAME, 52, 2), "W4 BadNode offset=52"),
    (
        2,
        Bytes::Altered(&ONE_NAME, 60, 0),
        "W10 ZeroCell offset=53",
    ),
    (2, Bytes::Altered(&ONE_NAME, 64, 2), "W4 BadNode offset=64"),
    // The magic of messages with grants on messages without, and the other way round.
    (2, Bytes::Altered(&EMPTY, 3, b'2'), "W14 NoGrant offset=0"),
    (2, Bytes::Altered(&ONE_NAME, 3, b'2'), "W2 Short offset=75"),
    (2, Bytes::Altered(&ONE_GRANT, 3, b'1'), "W3 Long offset=56"),
    (2, Bytes::Altered(&ONE_GRANT, 3, b'0'), "W1 Magic offset=0"),
    (2, Bytes::Altered(&ONE_GRANT, 3, b'3'), "W1 Magic offset=0"),
    // Receivers in the largest cluster, and other bytes in place of the magic.
    (MAX_NODES, Bytes::Altered(&EMPTY, 5, 31), "0>31 0 0 0;"),
    (
        MAX_NODES,
        Bytes::Altered(&EMPTY, 5, 32),
        "W4 BadNode offset=5",
    ),
    (
        MAX_NODES,
        Bytes::Altered(&EMPTY, 3, 32),
        "W1 Magic offset=0",
    ),
    (
        MAX_NODES,
        Bytes::Altered(&ONE_NAME, 5, 31),
        "0>31 0 2 0; a 1.0 2*off hits 0=1 execs 0 0=1;",
    ),
    (
        MAX_NODES,
        Bytes::Altered(&ONE_NAME, 5, 32),
        "W4 BadNode offset=5",
    ),
    (
        MAX_NODES,
        Bytes::Altered(&ONE_NAME, 3, 32),
        "W1 Magic offset=0",
    ),
];

/// No cells.
const NO_CELLS: [u8; 5] = [0, 0, 0, 0, 0];

/// The removed point b.
const REMOVED_B: [u8; 17] = [1, b'b', 0, 0, 0, 0, 0, 0, 0, 1, 0, 0, 0, 0, 0, 0, 0];

/// Removed points after it.
const TWO_NAMES: &[Reading] = &[
    (
        2,
        Bytes::First(
            &EMPTY,
            31,
            &[&[2], &REMOVED_B, &[1, b'a', 0, 0, 0, 0, 0, 0, 0, 1, 0, 0]],
        ),
        "W5 NameOrder offset=50",
    ),
    (
        2,
        Bytes::First(&EMPTY, 31, &[&[2], &REMOVED_B, &REMOVED_B]),
        "W5 NameOrder offset=50",
    ),
    (
        2,
        Bytes::First(
            &EMPTY,
            31,
            &[
                &[2],
                &REMOVED_B,
                &[1, b'c', 0, 0, 0, 0, 0, 0, 0, 1, 0, 0],
                &NO_CELLS,
            ],
        ),
        "0>1 0 0 0; b 1.0 removed; c 1.0 removed;",
    ),
    (
        2,
        Bytes::First(
            &EMPTY,
            31,
            &[&[2], &REMOVED_B, &[1, b'/', 0, 0, 0, 0, 0, 0, 0, 1, 0, 0]],
        ),
        "W6 BadName offset=50",
    ),
];

/// Texts of a after their lengths.
const TEXTS: &[Reading] = &[
    (
        2,
        Bytes::First(&ONE_NAME, 44, &[&[0, 3], b"off", &NO_CELLS]),
        "0>1 0 2 0; a 1.0 off;",
    ),
    // Two bytes of one character.
    (
        2,
        Bytes::First(&ONE_NAME, 44, &[&[0, 9], b"print(\xc3\xa9)", &NO_CELLS]),
        "0>1 0 2 0; a 1.0 print(\u{e9});",
    ),
    (
        2,
        Bytes::First(&ONE_NAME, 44, &[&[0, 9], b"print(\xc3\xc3)", &NO_CELLS]),
        "W8 NotCanonical offset=46",
    ),
    (
        2,
        Bytes::First(&ONE_NAME, 44, &[&[0, 4], b"off ", &NO_CELLS]),
        "W8 NotCanonical offset=46",
    ),
    (
        2,
        Bytes::First(&ONE_NAME, 44, &[&[0, 5], b"off()", &NO_CELLS]),
        "W8 NotCanonical offset=46",
    ),
    (
        2,
        Bytes::First(&ONE_NAME, 44, &[&[0, 7], b"1.0%off", &NO_CELLS]),
        "W8 NotCanonical offset=46",
    ),
    (
        2,
        Bytes::First(&ONE_NAME, 44, &[&[0, 7], b"100%off", &NO_CELLS]),
        "W8 NotCanonical offset=46",
    ),
    (
        2,
        Bytes::First(&ONE_NAME, 44, &[&[0, 6], b"02*off", &NO_CELLS]),
        "W8 NotCanonical offset=46",
    ),
    (
        2,
        Bytes::First(&ONE_NAME, 44, &[&[0, 3], b"fly", &NO_CELLS]),
        "W8 NotCanonical offset=46",
    ),
    (
        2,
        Bytes::First(&ONE_NAME, 44, &[&[0, 0], b"", &NO_CELLS]),
        "W8 NotCanonical offset=46",
    ),
    (
        2,
        Bytes::First(&ONE_NAME, 44, &[&[4, 0], b"off", &NO_CELLS]),
        "W2 Short offset=46",
    ),
    (
        2,
        Bytes::First(&ONE_NAME, 44, &[&[4, 1], b"off", &NO_CELLS]),
        "W8 NotCanonical offset=44",
    ),
];

/// The removed point b, up to its cells, as the one name of a message.
const B: [u8; 13] = [1, 1, b'b', 0, 0, 0, 0, 0, 0, 0, 1, 0, 0];

/// A hit of node 0.
const HIT: [u8; 9] = [0, 0, 0, 0, 0, 0, 0, 0, 1];

/// Cells of a removed point, and executions out of order.
const CELLS: &[Reading] = &[
    (
        2,
        Bytes::First(&EMPTY, 31, &[&B, &[2], &HIT, &HIT, &[0, 0, 0, 0]]),
        "W9 CellOrder offset=54",
    ),
    // The order comes before the value.
    (
        2,
        Bytes::First(&EMPTY, 31, &[&B, &[2], &HIT, &[0; 9], &[0, 0, 0, 0]]),
        "W9 CellOrder offset=54",
    ),
    (
        2,
        Bytes::First(&EMPTY, 31, &[&B, &[0, 0, 1, 0], &HIT, &[0, 0]]),
        "W11 BadTerm offset=47",
    ),
    (
        2,
        Bytes::First(&EMPTY, 31, &[&B, &[0, 0, 0, 0, 1, 0, 1], &HIT]),
        "W11 BadTerm offset=49",
    ),
    (
        2,
        Bytes::First(&ONE_NAME, 61, &[&[0, 2, 0], &HIT, &[0], &HIT, &[0, 0]]),
        "W9 CellOrder offset=73",
    ),
    // A term that is there, and isn't counted.
    (
        2,
        Bytes::First(
            &ONE_NAME,
            44,
            &[&[0, 3], b"off", &[0, 0, 1, 0], &HIT, &[0, 0]],
        ),
        "W11 BadTerm offset=52",
    ),
];

const SHIFTS: &[Reading] = &[
    (
        2,
        Bytes::First(
            &ONE_NAME,
            73,
            &[&[0, 1], &[0, 0, 1, 0, 0, 0, 0, 0, 0, 0, 1]],
        ),
        "0>1 0 2 0; a 1.0 2*off hits 0=1 execs 0 0=1 shifts 0 0>1=1;",
    ),
    (
        2,
        Bytes::First(
            &ONE_NAME,
            73,
            &[&[0, 1], &[0, 1, 1, 0, 0, 0, 0, 0, 0, 0, 1]],
        ),
        "W4 BadNode offset=77",
    ),
    (
        2,
        Bytes::First(
            &ONE_NAME,
            73,
            &[&[0, 1], &[0, 2, 1, 0, 0, 0, 0, 0, 0, 0, 1]],
        ),
        "W4 BadNode offset=76",
    ),
    (
        2,
        Bytes::First(
            &ONE_NAME,
            73,
            &[&[0, 1], &[0, 0, 2, 0, 0, 0, 0, 0, 0, 0, 1]],
        ),
        "W4 BadNode offset=77",
    ),
    (
        2,
        Bytes::First(
            &ONE_NAME,
            73,
            &[&[0, 1], &[0, 1, 0, 0, 0, 0, 0, 0, 0, 0, 0]],
        ),
        "W10 ZeroCell offset=78",
    ),
    // Shifts ascend by the nodes from which rights move.
    (
        2,
        Bytes::First(
            &ONE_NAME,
            73,
            &[
                &[0, 2],
                &[0, 0, 1, 0, 0, 0, 0, 0, 0, 0, 9],
                &[0, 1, 0, 0, 0, 0, 0, 0, 0, 0, 1],
            ],
        ),
        "0>1 0 2 0; a 1.0 2*off hits 0=1 execs 0 0=1 shifts 0 0>1=9 shifts 0 1>0=1;",
    ),
    (
        2,
        Bytes::First(
            &ONE_NAME,
            73,
            &[
                &[0, 2],
                &[0, 1, 0, 0, 0, 0, 0, 0, 0, 0, 1],
                &[0, 0, 1, 0, 0, 0, 0, 0, 0, 0, 9],
            ],
        ),
        "W9 CellOrder offset=86",
    ),
    (
        2,
        Bytes::First(
            &ONE_NAME,
            73,
            &[
                &[0, 2],
                &[0, 0, 1, 0, 0, 0, 0, 0, 0, 0, 9],
                &[0, 0, 1, 0, 0, 0, 0, 0, 0, 0, 9],
            ],
        ),
        "W9 CellOrder offset=86",
    ),
];

const GRANTS: &[Reading] = &[
    (
        2,
        Bytes::First(&ONE_GRANT, 58, &[&[0, 1, 0, 0, 0, 0, 0, 0, 0, 1]]),
        "0>1 0 2 0; a 1.0 2*off grants 0 1=1;",
    ),
    (
        2,
        Bytes::First(&ONE_GRANT, 58, &[&[1, 1, 0, 0, 0, 0, 0, 0, 0, 1]]),
        "W11 BadTerm offset=58",
    ),
    (
        2,
        Bytes::First(&ONE_GRANT, 58, &[&[0, 2, 0, 0, 0, 0, 0, 0, 0, 1]]),
        "W4 BadNode offset=59",
    ),
    (
        2,
        Bytes::First(&ONE_GRANT, 58, &[&[0, 0, 0, 0, 0, 0, 0, 0, 0, 0]]),
        "W10 ZeroCell offset=60",
    ),
    // Grants ascend by node.
    (
        2,
        Bytes::First(&ONE_GRANT, 56, &[&[0, 2], &NINE_OF_0, &ONE_OF_1]),
        "0>1 0 2 0; a 1.0 2*off grants 0 0=9 grants 0 1=1;",
    ),
    (
        2,
        Bytes::First(&ONE_GRANT, 56, &[&[0, 2], &NINE_OF_0, &NINE_OF_0]),
        "W9 CellOrder offset=68",
    ),
    (
        2,
        Bytes::First(&ONE_GRANT, 56, &[&[0, 2], &ONE_OF_1, &NINE_OF_0]),
        "W9 CellOrder offset=68",
    ),
    // The magic promises a grant. Bytes that are left are found first.
    (
        2,
        Bytes::First(&ONE_GRANT, 56, &[&[0, 0]]),
        "W14 NoGrant offset=0",
    ),
    (
        2,
        Bytes::First(&ONE_GRANT, 56, &[&[0, 0, 0]]),
        "W3 Long offset=58",
    ),
    (
        2,
        Bytes::First(&ONE_GRANT, 68, &[&[0]]),
        "W3 Long offset=68",
    ),
    // The number of grants is missing.
    (2, Bytes::First(&ONE_GRANT, 56, &[]), "W2 Short offset=56"),
];

const NINE_OF_0: [u8; 10] = [0, 0, 0, 0, 0, 0, 0, 0, 0, 9];

const ONE_OF_1: [u8; 10] = [0, 1, 0, 0, 0, 0, 0, 0, 0, 1];

/// One zero more than a message may have bytes, and as many as it may have.
const ZEROS: &[Reading] = &[
    (2, Bytes::Zeros(67_108_865), "W12 TooBig offset=67108864"),
    (2, Bytes::Zeros(67_108_864), "W1 Magic offset=0"),
];

fn expect_readings(rt: &impl Abort, alloc: Global, readings: &[Reading]) -> Result<(), AllocError> {
    for (index, (nodes, bytes, wanted)) in readings.iter().enumerate() {
        let bytes = bytes_of(alloc, *bytes)?;
        let found = reading(rt, alloc, *nodes, &bytes)?;
        expect(rt, &(index, found.as_str()), &(index, *wanted));
    }
    Ok(())
}

#[test]
fn empty_message(rt: HostRuntime) -> Result<(), Fail> {
    expect_readings(&rt, rt.alloc(), EMPTY_MESSAGE)?;
    Ok(())
}

#[test]
fn altered_message(rt: HostRuntime) -> Result<(), Fail> {
    expect_readings(&rt, rt.alloc(), ALTERED)?;
    expect_readings(&rt, rt.alloc(), ONE_BYTE)?;
    Ok(())
}

#[test]
fn readings_of_messages(rt: HostRuntime) -> Result<(), Fail> {
    expect_readings(&rt, rt.alloc(), MESSAGES)?;
    Ok(())
}

#[test]
fn readings_of_names(rt: HostRuntime) -> Result<(), Fail> {
    expect_readings(&rt, rt.alloc(), TWO_NAMES)?;
    expect_readings(&rt, rt.alloc(), TEXTS)?;
    Ok(())
}

#[test]
fn readings_of_cells(rt: HostRuntime) -> Result<(), Fail> {
    expect_readings(&rt, rt.alloc(), CELLS)?;
    expect_readings(&rt, rt.alloc(), SHIFTS)?;
    expect_readings(&rt, rt.alloc(), GRANTS)?;
    Ok(())
}

#[test]
fn too_many_bytes(rt: HostRuntime) -> Result<(), Fail> {
    expect_readings(&rt, rt.alloc(), ZEROS)?;
    Ok(())
}

#[test]
fn decoding_without_memory(rt: HostRuntime) -> Result<(), Fail> {
    let fault = WireFault::OutOfMemory;
    expect(
        &rt,
        &format!(in rt.alloc(); "{fault}")?.as_str(),
        &"W13 OutOfMemory",
    );
    Ok(())
}

//! Messages at a node that knows nothing: what is altered in them, and what the node says.

use super::fleet::{Show, deliver, new_node, said, shown};
use super::*;

/// What node 0 tells node 1 once it set `a` to `2*off` and passed it.
const PASSED_ONCE: &[u8] = b"FPG1\x00\x01\
    \x00\x00\x00\x00\x00\x00\x00\x00\
    \x00\x00\x00\x00\x00\x00\x00\x02\
    \x00\x00\x00\x00\x00\x00\x00\x00\
    \x00\x01\x01a\
    \x00\x00\x00\x00\x00\x00\x00\x01\x00\
    \x01\x00\x052*off\
    \x01\x00\x00\x00\x00\x00\x00\x00\x00\x01\
    \x00\x01\x00\x00\x00\x00\x00\x00\x00\x00\x00\x01\
    \x00\x00";

/// What node 0 tells node 1 before it knows anything.
const NOTHING: &[u8] = b"FPG1\x00\x01\
    \x00\x00\x00\x00\x00\x00\x00\x00\
    \x00\x00\x00\x00\x00\x00\x00\x00\
    \x00\x00\x00\x00\x00\x00\x00\x00\x00\x00";

/// A message, which bytes of it are altered and to what, and what node 1 answers to it. Then it sets
/// `b`: so stands the answer to that, and its points before it.
type Row = (
    &'static [u8],
    &'static [(usize, u8)],
    &'static str,
    &'static str,
    &'static str,
);

const ALTERED: &[Row] = &[
    (PASSED_ONCE, &[], "true", "a=2*off", "2.1"),
    (PASSED_ONCE, &[(52, 0x01)], "N18 OwnAhead", "", "1.1"),
    (PASSED_ONCE, &[(29, 0x01)], "N19 AckAhead", "", "1.1"),
    (PASSED_ONCE, &[(72, 0x03)], "N20 Overspent", "", "1.1"),
    (
        PASSED_ONCE,
        &[(72, 0x00)],
        "N16 BadMessage W10 ZeroCell offset=65",
        "",
        "1.1",
    ),
    (
        PASSED_ONCE,
        &[(63, 0x01)],
        "N16 BadMessage W11 BadTerm offset=63",
        "",
        "1.1",
    ),
    (
        PASSED_ONCE,
        &[(5, 0x00)],
        "N16 BadMessage W4 BadNode offset=5",
        "",
        "1.1",
    ),
    // The other format, which ends with a number of grants.
    (
        PASSED_ONCE,
        &[(3, b'2')],
        "N16 BadMessage W2 Short offset=75",
        "",
        "1.1",
    ),
    // The greatest clock, behind which there is none.
    (
        PASSED_ONCE,
        &[
            (34, 0xff),
            (35, 0xff),
            (36, 0xff),
            (37, 0xff),
            (38, 0xff),
            (39, 0xff),
            (40, 0xff),
            (41, 0xff),
        ],
        "true",
        "a=2*off",
        "N5 ClockFull",
    ),
    (NOTHING, &[], "false", "", "1.1"),
    (
        NOTHING,
        &[(3, b'2')],
        "N16 BadMessage W14 NoGrant offset=0",
        "",
        "1.1",
    ),
];

/// How many bytes come, and what node 1 says: of the message that tells nothing, and one byte more.
const LENGTHS: &[(usize, &str)] = &[
    (0, "N16 BadMessage W2 Short offset=0"),
    (31, "N16 BadMessage W2 Short offset=30"),
    (32, "false"),
    (33, "N16 BadMessage W3 Long offset=32"),
];

fn altered(alloc: Global, message: &[u8], changes: &[(usize, u8)]) -> Result<Vec<u8>, Fail> {
    let mut bytes = Vec::from_slice(alloc, message)?;
    for (offset, byte) in changes {
        *bytes.get_mut(*offset).ok_or("a byte")? = *byte;
    }
    Ok(bytes)
}

fn set_b(alloc: Global, node: &mut NodeCore) -> Result<String, AllocError> {
    said(alloc, node.set(alloc, "b", "off"))
}

// Ends the test where node 1 says something else.
fn expect_said(rt: &impl Abort, alloc: Global, place: usize, row: Row) -> Result<(), Fail> {
    let (message, changes, answer, points, stamp) = row;
    let bytes = altered(alloc, message, changes)?;
    let mut node = new_node(alloc, 1, 2)?;
    let answered = deliver(alloc, &mut node, &bytes)?;
    let list = shown(alloc, &node, Show::List)?;
    let set = set_b(alloc, &mut node)?;
    let found = (place, answered.as_str(), list.as_str(), set.as_str());
    expect(rt, &found, &(place, answer, points, stamp));
    Ok(())
}

#[test]
fn altered_messages_are_refused(rt: HostRuntime) -> Result<(), Fail> {
    for (place, row) in ALTERED.iter().enumerate() {
        expect_said(&rt, rt.alloc(), place, *row)?;
    }
    Ok(())
}

// The first bytes of the message that tells nothing and of one byte more.
fn cut(alloc: Global, len: usize) -> Result<Vec<u8>, AllocError> {
    let mut bytes = Vec::from_slice(alloc, NOTHING)?;
    bytes.push(0)?;
    bytes.truncate(len);
    Ok(bytes)
}

#[test]
fn cut_messages_are_refused(rt: HostRuntime) -> Result<(), Fail> {
    for (len, answer) in LENGTHS {
        let bytes = cut(rt.alloc(), *len)?;
        let mut node = new_node(rt.alloc(), 1, 2)?;
        let found = deliver(rt.alloc(), &mut node, &bytes)?;
        expect(&rt, &(*len, found.as_str()), &(*len, *answer));
    }
    Ok(())
}

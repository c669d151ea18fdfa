//! The greatest messages of a cluster of 32 nodes: names of 128 bytes, each set to 16 counted terms
//! in 1024 bytes, with every cell held, or every cell but the grants.

use super::*;

const NODES: u8 = 32;

const TERMS: u8 = 16;

/// How many names the longer messages have. Messages of all 256 names take too long here.
const NAMES: u16 = 16;

/// Which cells a message has.
#[derive(Clone, Copy, Debug, PartialEq, Eq)]
enum Cells {
    WithoutGrants,
    WithGrants,
}

/// The greatest number.
const GREATEST: [u8; 8] = [0xff; 8];

/// A name of 128 bytes without its first two.
const REST_OF_NAME: [u8; 126] = [b'x'; 126];

fn magic(cells: Cells) -> &'static [u8] {
    match cells {
        Cells::WithoutGrants => b"FPG1",
        Cells::WithGrants => b"FPG2",
    }
}

/// The header of a message of node 0 to node 31.
fn push_head(bytes: &mut Vec<u8>, cells: Cells, names: u16) -> Result<(), AllocError> {
    bytes.extend_from_slice(magic(cells))?;
    bytes.extend_from_slice(&[0, 31])?;
    for _ in 0..3 {
        bytes.extend_from_slice(&GREATEST)?;
    }
    bytes.extend_from_slice(&names.to_be_bytes())
}

/// 16 counted terms in 1024 bytes: 15 of 62 bytes and an arrow each, and one of 64 bytes.
fn push_text(bytes: &mut Vec<u8>) -> Result<(), AllocError> {
    for _ in 1..TERMS {
        bytes.extend_from_slice(b"1*print(")?;
        bytes.extend_from_slice(&REST_OF_NAME[..53])?;
        bytes.extend_from_slice(b")->")?;
    }
    bytes.extend_from_slice(b"1*print(")?;
    bytes.extend_from_slice(&REST_OF_NAME[..55])?;
    bytes.extend_from_slice(b")")
}

/// The greatest clock, of the last node.
fn push_key(bytes: &mut Vec<u8>) -> Result<(), AllocError> {
    bytes.extend_from_slice(&GREATEST)?;
    bytes.extend_from_slice(&[31, 1, 4, 0])?;
    push_text(bytes)
}

fn push_hits(bytes: &mut Vec<u8>) -> Result<(), AllocError> {
    bytes.push(NODES)?;
    for node in 0..NODES {
        bytes.push(node)?;
        bytes.extend_from_slice(&GREATEST)?;
    }
    Ok(())
}

/// 512 cells: one of each term and each node.
fn push_cells_by_node(bytes: &mut Vec<u8>) -> Result<(), AllocError> {
    bytes.extend_from_slice(&[2, 0])?;
    for term in 0..TERMS {
        for node in 0..NODES {
            bytes.extend_from_slice(&[term, node])?;
            bytes.extend_from_slice(&GREATEST)?;
        }
    }
    Ok(())
}

fn push_shifts_of(bytes: &mut Vec<u8>, term: u8) -> Result<(), AllocError> {
    for from in 0..NODES {
        for to in 0..NODES {
            if to != from {
                bytes.extend_from_slice(&[term, from, to])?;
                bytes.extend_from_slice(&GREATEST)?;
            }
        }
    }
    Ok(())
}

/// 15872 cells: one of each term and each two nodes.
fn push_shifts(bytes: &mut Vec<u8>) -> Result<(), AllocError> {
    bytes.extend_from_slice(&[0x3e, 0])?;
    for term in 0..TERMS {
        push_shifts_of(bytes, term)?;
    }
    Ok(())
}

/// The bytes of an entry after its name.
fn after_name(alloc: Global, cells: Cells) -> Result<Vec<u8>, AllocError> {
    let mut bytes = Vec::new(alloc);
    push_key(&mut bytes)?;
    push_hits(&mut bytes)?;
    push_cells_by_node(&mut bytes)?;
    push_shifts(&mut bytes)?;
    if cells == Cells::WithGrants {
        push_cells_by_node(&mut bytes)?;
    }
    Ok(bytes)
}

/// The greatest message of this many names, up to 256.
fn great_message(alloc: Global, cells: Cells, names: u16) -> Result<Vec<u8>, AllocError> {
    let after_name = after_name(alloc, cells)?;
    let mut bytes = Vec::new(alloc);
    push_head(&mut bytes, cells, names)?;
    for number in 0..names {
        let letters = [b'a' + (number / 16 % 16) as u8, b'a' + (number % 16) as u8];
        bytes.push(128)?;
        bytes.extend_from_slice(&letters)?;
        bytes.extend_from_slice(&REST_OF_NAME)?;
        bytes.extend_from_slice(&after_name)?;
    }
    Ok(bytes)
}

/// How many hits, executions, shifts and grants an entry has, and the last of each.
fn cells_text(alloc: Global, entry: &NameEntry) -> Result<String, AllocError> {
    let counts = [
        entry.hits.len(),
        entry.execs.len(),
        entry.shifts.len(),
        entry.grants.len(),
    ];
    let (hits, execs) = (entry.hits.last(), entry.execs.last());
    let (shifts, grants) = (entry.shifts.last(), entry.grants.last());
    format!(in alloc; "{counts:?} {hits:?} {execs:?} {shifts:?} {grants:?}")
}

const CELLS: &str = "[32, 512, 15872, 512] Some((31, 18446744073709551615)) \
    Some((15, 31, 18446744073709551615)) Some((15, 31, 30, 18446744073709551615)) \
    Some((15, 31, 18446744073709551615))";

/// The lengths of an entry's name and text, and its stamp.
fn key_text(alloc: Global, entry: &NameEntry) -> Result<String, AllocError> {
    let text = match entry.key.actions() {
        Some(actions) => actions.text(),
        None => "",
    };
    let (lengths, stamp) = ((entry.name.text().len(), text.len()), entry.key.stamp());
    format!(in alloc; "{lengths:?} {stamp}")
}

fn expect_entry(rt: &impl Abort, alloc: Global, entry: &NameEntry) -> Result<(), AllocError> {
    let wanted = "(128, 1024) 18446744073709551615.31";
    expect(rt, &key_text(alloc, entry)?.as_str(), &wanted);
    expect(rt, &cells_text(alloc, entry)?.as_str(), &CELLS);
    Ok(())
}

fn expect_message(rt: &impl Abort, alloc: Global, message: &Message) -> Result<(), AllocError> {
    let ends = (message.from, message.to, message.entries.len());
    let versions = [message.base, message.upto, message.ack];
    expect(rt, &(ends, versions), &((0, 31, 16), [u64::MAX; 3]));
    for entry in &message.entries {
        expect_entry(rt, alloc, entry)?;
    }
    Ok(())
}

#[test]
fn great_message_is_read(rt: HostRuntime) -> Result<(), Fail> {
    let bytes = great_message(rt.alloc(), Cells::WithGrants, NAMES)?;
    let message = decode(rt.alloc(), NODES, &bytes)?;
    expect_message(&rt, rt.alloc(), &message)?;
    Ok(())
}

/// How many entries bytes are read as. The test ends if they aren't written as the same bytes.
fn entries_of(rt: &impl Abort, alloc: Global, bytes: &[u8]) -> Result<usize, WireFault> {
    Ok(read(rt, alloc, NODES, bytes)?.entries.len())
}

/// Checks how many bytes and names a message has, and that a smaller cluster rejects it.
fn expect_great(
    rt: &impl Abort,
    alloc: Global,
    bytes: &[u8],
    wanted: (usize, usize),
) -> Result<(), WireFault> {
    let entries = entries_of(rt, alloc, bytes)?;
    expect(rt, &(bytes.len(), entries), &wanted);
    let smaller = fault(alloc, 31, bytes)?;
    expect(rt, &smaller, &Some(WireFault::BadNode { offset: 5 }));
    Ok(())
}

/// The cells of a message, how many names it has, and how many bytes.
const GREAT: &[(Cells, u16, usize)] = &[
    (Cells::WithGrants, 1, 186_324),
    (Cells::WithoutGrants, 1, 181_202),
    (Cells::WithoutGrants, NAMES, 2_898_752),
    (Cells::WithGrants, NAMES, 2_980_704),
];

#[test]
fn great_messages_are_written_again(rt: HostRuntime) -> Result<(), Fail> {
    for (cells, names, len) in GREAT {
        let bytes = great_message(rt.alloc(), *cells, *names)?;
        expect_great(&rt, rt.alloc(), &bytes, (*len, usize::from(*names)))?;
    }
    Ok(())
}

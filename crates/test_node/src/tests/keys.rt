//! Keys of settings: their order, their stamps, and the key after a clock.

use super::{expect, expect_print};
use actions::parse_actions;
use stamp_register::{Body, Key};
use std::alloc::Global;
use std::cmp::Ordering;
use std::process::Abort;
use std::test::Fail;

/// A clock, a node and an action text; no text if the point is removed.
type Written = (u64, u8, Option<&'static str>);

const ASCENDING: &[Written] = &[
    (0, 255, None),
    (1, 0, None),
    (1, 0, Some("2*off")),
    (1, 0, Some("off")),
    (1, 0, Some("off->off")),
    (1, 1, None),
    (1, 1, Some("off")),
    (2, 0, Some("delay(5)")),
    (u64::MAX, 0, None),
];

fn removal(clock: u64, node: u8) -> Key {
    let body = Body::Removed;
    Key { clock, node, body }
}

fn key_of(alloc: Global, (clock, node, text): Written) -> Result<Key, Fail> {
    let body = match text {
        Some(text) => Body::Set(parse_actions(alloc, text)?),
        None => Body::Removed,
    };
    Ok(Key { clock, node, body })
}

fn compared(one: &Key, other: &Key) -> (Ordering, bool) {
    (one.cmp(other), one == other)
}

/// How two keys compare, and whether they are equal.
fn order_of(alloc: Global, one: Written, other: Written) -> Result<(Ordering, bool), Fail> {
    let key = key_of(alloc, one)?;
    let other = key_of(alloc, other)?;
    Ok(compared(&key, &other))
}

#[test]
fn keys_ascend_by_clock_node_and_body(rt: HostRuntime) -> Result<(), Fail> {
    for (i, one) in ASCENDING.iter().enumerate() {
        for (j, other) in ASCENDING.iter().enumerate() {
            let wanted = i.cmp(&j);
            let order = order_of(rt.alloc(), *one, *other)?;
            expect(&rt, &order, &(wanted, wanted == Ordering::Equal));
        }
    }
    Ok(())
}

#[test]
fn two_spellings_of_one_text_are_one_key(rt: HostRuntime) -> Result<(), Fail> {
    let spelled = (1, 0, Some(" 020.50%3*off "));
    let order = order_of(rt.alloc(), spelled, (1, 0, Some("20.5%3*off")))?;
    expect(&rt, &order, &(Ordering::Equal, true));
    Ok(())
}

fn text_of(key: &Key) -> Option<&str> {
    Some(key.actions()?.text())
}

/// Checks the stamp and the text of a key.
fn expect_key(rt: &impl Abort, key: &Key, written: &Written) {
    let stamp = key.stamp();
    expect(rt, &(stamp.clock, stamp.node, text_of(key)), written);
}

#[test]
fn keys_hold_a_stamp_and_a_text(rt: HostRuntime) -> Result<(), Fail> {
    for written in ASCENDING {
        expect_key(&rt, &key_of(rt.alloc(), *written)?, written);
    }
    Ok(())
}

#[test]
fn stamps_print_clock_and_node(rt: HostRuntime) -> Result<(), Fail> {
    let stamp = removal(u64::MAX, 15).stamp();
    expect_print(&rt, rt.alloc(), &stamp, "18446744073709551615.15")?;
    Ok(())
}

/// A clock, a node, and the clock of the next key. The last clock has no next key.
const NEXT_CLOCKS: &[(u64, u8, Option<u64>)] = &[
    (u64::MAX, 0, None),
    (u64::MAX - 1, 0, Some(u64::MAX)),
    (3, 1, Some(4)),
];

fn next_removal(clock: u64, node: u8) -> Option<Key> {
    Key::next(clock, node, Body::Removed)
}

fn removal_at(clock: Option<u64>, node: u8) -> Option<Key> {
    Some(removal(clock?, node))
}

#[test]
fn next_keys(rt: HostRuntime) {
    for (clock, node, next) in NEXT_CLOCKS {
        expect(&rt, &next_removal(*clock, *node), &removal_at(*next, *node));
    }
}

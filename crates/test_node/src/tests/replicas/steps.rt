//! Operations.

use super::*;

/// A key: its clock, its node and its text.
pub(super) type Keyed = (u64, u8, &'static str);

/// An operation of a point. Executions, shifts and grants name a term.
#[derive(Clone, Copy)]
pub(super) enum Step {
    Set(Keyed),
    Remove(u64, u8),
    Hit(u8, u64),
    Exec(Keyed, u8, u8, u64),
    Shift(Keyed, u8, u8, u8, u64),
    Grant(Keyed, u8, u8, u64),
}

/// The name of a text of a table. These are all good, and only memory may be refused.
pub(super) fn name(alloc: Global, text: &str) -> Result<Name, AllocError> {
    match Name::parse(alloc, text) {
        Ok(name) => Ok(name),
        Err(_) => Err(AllocError),
    }
}

/// The key of a text of a table, of which the same holds.
fn key(alloc: Global, (clock, node, text): Keyed) -> Result<Key, AllocError> {
    match parse_actions(alloc, text) {
        Ok(actions) => {
            let body = Body::Set(actions);
            Ok(Key { clock, node, body })
        }
        Err(_) => Err(AllocError),
    }
}

/// The key of an operation; and of a hit one that is not to be learned.
fn key_of(alloc: Global, step: Step) -> Result<Key, AllocError> {
    match step {
        Step::Set(keyed) => key(alloc, keyed),
        Step::Remove(clock, node) => {
            let body = Body::Removed;
            Ok(Key { clock, node, body })
        }
        Step::Hit(..) => key(alloc, (9, 9, "off")),
        Step::Exec(keyed, ..) => key(alloc, keyed),
        Step::Shift(keyed, ..) => key(alloc, keyed),
        Step::Grant(keyed, ..) => key(alloc, keyed),
    }
}

fn op(name: Name, key: Key, step: Step) -> Op {
    match step {
        Step::Set(_) => Op::Set { name, key },
        Step::Remove(..) => Op::Set { name, key },
        Step::Hit(node, number) => Op::Hit { name, node, number },
        Step::Exec(_, term, node, number) => Op::Exec {
            name,
            key,
            term,
            node,
            number,
        },
        Step::Shift(_, term, from, to, total) => Op::Shift {
            name,
            key,
            term,
            from,
            to,
            total,
        },
        Step::Grant(_, term, node, total) => Op::Grant {
            name,
            key,
            term,
            node,
            total,
        },
    }
}

pub(super) fn op_of(alloc: Global, text: &str, step: Step) -> Result<Op, AllocError> {
    let name = name(alloc, text)?;
    let key = key_of(alloc, step)?;
    Ok(op(name, key, step))
}

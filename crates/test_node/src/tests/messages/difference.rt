//! Two nodes exchange messages: the second message of a node has only what the first hadn't.

ghost use Rattle.std.specs.Prelude.{◌+◌, ◌<◌, ◌^◌, IsTrue};
ghost use Rattle.delta_exchange.specs.Versions.{value_of};

use super::*;
use actions::{Name, parse_actions};
use op_set::OpSet;
use replica_state::{Matrix, Op, Replica};
use stamp_register::{Body, Key};

/// From node 0 after it set a to `off`: base 0, upto 1, ack 0.
const FIRST: &[u8] = b"FPG1\x00\x01\0\0\0\0\0\0\0\0\
    \0\0\0\0\0\0\0\x01\0\0\0\0\0\0\0\0\
    \0\x01\x01a\0\0\0\0\0\0\0\x01\0\x01\0\x03off\0\0\0\0\0";

/// From node 1 after it received that: base 0, upto 1, ack 1.
const REPLY: &[u8] = b"FPG1\x01\x00\0\0\0\0\0\0\0\0\
    \0\0\0\0\0\0\0\x01\0\0\0\0\0\0\0\x01\
    \0\x01\x01a\0\0\0\0\0\0\0\x01\0\x01\0\x03off\0\0\0\0\0";

/// From node 0 after it received the reply and set b to `off`: base 1, upto 2, ack 1.
const SECOND: &[u8] = b"FPG1\x00\x01\0\0\0\0\0\0\0\x01\
    \0\0\0\0\0\0\0\x02\0\0\0\0\0\0\0\x01\
    \0\x01\x01b\0\0\0\0\0\0\0\x02\0\x01\0\x03off\0\0\0\0\0";

/// What happens at a node.
#[derive(Clone, Copy)]
enum Turn {
    /// Node 0 sets a point to `off` at this clock.
    Set(&'static str, u64),
    /// A node sends the other this message.
    Send(u8, &'static [u8]),
}

/// A node's version, and what it knows and has acknowledged of the other node.
type Versions = [u64; 3];

/// A turn, whether it changes a state, and the versions of both nodes after it.
const TURNS: &[(Turn, bool, [Versions; 2])] = &[
    (Turn::Set("a", 1), true, [[1, 0, 0], [0, 0, 0]]),
    (Turn::Send(0, FIRST), true, [[1, 0, 0], [1, 1, 0]]),
    (Turn::Send(1, REPLY), false, [[1, 1, 1], [1, 1, 0]]),
    (Turn::Set("b", 2), true, [[2, 1, 1], [1, 1, 0]]),
    (Turn::Send(0, SECOND), true, [[2, 1, 1], [2, 2, 1]]),
];

/// Whether one more version fits.
fn has_room<R: Replica>(versioned: &Versioned<R>) -> bool
    ensures { IsTrue result → (value_of R.state versioned.now).version + 1 < 2 ^ 64 }
{
    versioned.version() < u64::MAX
}

/// The setting of a point of this text by node 0.
fn setting(alloc: Global, text: &str, clock: u64) -> Result<(Name, Key), Fail> {
    let name = Name::parse(alloc, text)?;
    let (node, body) = (0, Body::Set(parse_actions(alloc, "off")?));
    Ok((name, Key { clock, node, body }))
}

fn set<R: Replica>(
    alloc: Global,
    versioned: &mut Versioned<R>,
    (name, key): (Name, Key),
) -> Result<bool, Fail> {
    if !has_room(versioned) {
        return Err(Fail::new("there is no next version"));
    }
    Ok(versioned.issue(alloc, &[Op::Set { name, key }])?)
}

fn receive<R: Replica>(
    alloc: Global,
    versioned: &mut Versioned<R>,
    message: &[u8],
) -> Result<bool, Fail> {
    let message = decode(alloc, 2, message)?;
    if !has_room(versioned) {
        return Err(Fail::new("there is no next version"));
    }
    Ok(versioned.receive(alloc, &message)?)
}

/// The pending message of a node to the other, in print.
fn pending<R: Replica>(
    alloc: Global,
    versioned: &Versioned<R>,
    from: u8,
    to: u8,
) -> Result<String, AllocError> {
    let base = versioned.acked(to);
    let message = versioned.changed_since(alloc, base, from, to)?;
    message_text(alloc, &message)
}

/// Checks that a node's message is this, in 54 bytes, and that the other node receives it.
fn send<R: Replica>(
    rt: &impl Abort,
    alloc: Global,
    sender: &Versioned<R>,
    receiver: &mut Versioned<R>,
    (from, to): (u8, u8),
    message: &[u8],
) -> Result<bool, Fail> {
    let found = pending(alloc, sender, from, to)?;
    let wanted = reading(rt, alloc, 2, message)?;
    expect(rt, &(found.as_str(), message.len()), &(wanted.as_str(), 54));
    receive(alloc, receiver, message)
}

fn take_turn<R: Replica>(
    rt: &impl Abort,
    alloc: Global,
    zero: &mut Versioned<R>,
    one: &mut Versioned<R>,
    turn: Turn,
) -> Result<bool, Fail> {
    match turn {
        Turn::Set(text, clock) => set(alloc, zero, setting(alloc, text, clock)?),
        Turn::Send(0, message) => send(rt, alloc, zero, one, (0, 1), message),
        Turn::Send(_, message) => send(rt, alloc, one, zero, (1, 0), message),
    }
}

fn versions_of<R: Replica>(zero: &Versioned<R>, one: &Versioned<R>) -> [Versions; 2] {
    [
        [zero.version(), zero.known(1), zero.acked(1)],
        [one.version(), one.known(0), one.acked(0)],
    ]
}

/// How many names each node holds.
fn names_of<R: Replica>(zero: &Versioned<R>, one: &Versioned<R>) -> [usize; 2] {
    [zero.state().names(), one.state().names()]
}

fn exchange<R: Replica>(rt: &impl Abort, alloc: Global) -> Result<(), Fail> {
    let mut zero: Versioned<R> = Versioned::new(alloc);
    let mut one: Versioned<R> = Versioned::new(alloc);
    for (turn, changes, versions) in TURNS {
        let changed = take_turn(rt, alloc, &mut zero, &mut one, *turn)?;
        let found = (changed, versions_of(&zero, &one));
        expect(rt, &found, &(*changes, *versions));
    }
    expect(rt, &names_of(&zero, &one), &[2, 2]);
    Ok(())
}

#[test]
fn second_message_is_the_difference(rt: HostRuntime) -> Result<(), Fail> {
    exchange::<OpSet>(&rt, rt.alloc())?;
    exchange::<Matrix>(&rt, rt.alloc())
}

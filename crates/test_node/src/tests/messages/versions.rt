//! Replicas with versions: after each call, what changed since each version. A call that is refused
//! memory must change nothing, and is then made again.

ghost use Rattle.std.specs.Prelude.{◌≡◌, ◌+◌, ◌<◌, ◌^◌, IsTrue, Some, true, false};
ghost use Rattle.stamp_register.specs.Keys.{key_value};
ghost use Rattle.replica_state.specs.Knowledge.{is_upto};
ghost use Rattle.delta_exchange.specs.Versions.{value_of};

use super::*;
use actions::{Name, parse_actions};
use op_set::OpSet;
use replica_state::{Matrix, Op, Replica};
use stamp_register::{Body, Key};

/// A call of a replica with versions.
#[derive(Clone, Copy)]
enum Call {
    Receive(Bytes),
    /// `ONE_NAME` with this base, upto and ack.
    ReceiveWith(u8, u8, u8),
    /// Gives a the key `5*off` of node 0 at this clock.
    SetKey(u64),
    /// Learns an operation that sets the same key.
    Issue(u64),
    /// Learns operations that set a at the clock 3, count passes of a and of b, and remove c.
    IssueFour,
    /// Counts a pass of a at node 1, which spends its first term.
    Pass,
    /// Raises what node 0 moved to a node in total, or granted itself if that is node 0.
    Move(u8, u64),
}

fn name(alloc: Global, text: &str) -> Result<Name, AllocError> {
    match Name::parse(alloc, text) {
        Ok(name) => Ok(name),
        Err(_) => Err(AllocError),
    }
}

fn key(alloc: Global, clock: u64) -> Result<Key, AllocError> {
    match parse_actions(alloc, "5*off") {
        Ok(actions) => {
            let (node, body) = (0, Body::Set(actions));
            Ok(Key { clock, node, body })
        }
        Err(_) => Err(AllocError),
    }
}

/// Whether one more version fits.
fn has_room<R: Replica>(versioned: &Versioned<R>) -> bool
    ensures { IsTrue result → (value_of R.state versioned.now).version + 1 < 2 ^ 64 }
{
    versioned.version() < u64::MAX
}

fn receive<R: Replica>(
    alloc: Global,
    versioned: &mut Versioned<R>,
    bytes: &[u8],
) -> Result<bool, AllocError> {
    let Ok(message) = decode(alloc, 2, bytes) else {
        return Err(AllocError);
    };
    if !has_room(versioned) {
        return Err(AllocError);
    }
    versioned.receive(alloc, &message)
}

/// `ONE_NAME` with these versions.
fn with_versions(base: u8, upto: u8, ack: u8) -> [u8; 75] {
    let mut bytes = ONE_NAME;
    bytes[13] = base;
    bytes[21] = upto;
    bytes[29] = ack;
    bytes
}

/// Whether a key is above the key of a point.
fn is_above<R: Replica>(versioned: &Versioned<R>, name: &Name, key: &Key) -> bool
    ensures { result ≡ true → is_upto (Some (key_value key.now))
        ((value_of R.state versioned.now).state.key name.now) ≡ false }
{
    match versioned.state().key(name) {
        Some(held) => !(key <= held),
        None => true,
    }
}

fn set_key<R: Replica>(
    alloc: Global,
    versioned: &mut Versioned<R>,
    clock: u64,
) -> Result<bool, AllocError> {
    let name = name(alloc, "a")?;
    let key = key(alloc, clock)?;
    let is_allowed = is_above(versioned, &name, &key) && has_room(versioned);
    if is_allowed {
        versioned.set_key(alloc, name, key)?;
    }
    Ok(is_allowed)
}

fn issue<R: Replica>(
    alloc: Global,
    versioned: &mut Versioned<R>,
    clock: u64,
) -> Result<bool, AllocError> {
    let name = name(alloc, "a")?;
    let key = key(alloc, clock)?;
    if !has_room(versioned) {
        return Ok(false);
    }
    versioned.issue(alloc, &[Op::Set { name, key }])
}

/// The names of four operations.
#[derive(Drop)]
struct Names {
    set: Name,
    passed: Name,
    also_passed: Name,
    removed: Name,
}

fn four_names(alloc: Global) -> Result<Names, AllocError> {
    Ok(Names {
        set: name(alloc, "a")?,
        passed: name(alloc, "a")?,
        also_passed: name(alloc, "b")?,
        removed: name(alloc, "c")?,
    })
}

fn issue_four<R: Replica>(
    alloc: Global,
    versioned: &mut Versioned<R>,
    names: Names,
    setting: Key,
) -> Result<bool, AllocError> {
    let ops = [
        Op::Set {
            name: names.set,
            key: setting,
        },
        Op::Hit {
            name: names.passed,
            node: 1,
            number: 3,
        },
        Op::Hit {
            name: names.also_passed,
            node: 0,
            number: 4,
        },
        Op::Set {
            name: names.removed,
            key: removal(),
        },
    ];
    if !has_room(versioned) {
        return Ok(false);
    }
    versioned.issue(alloc, &ops)
}

fn removal() -> Key {
    let (clock, node, body) = (4, 0, Body::Removed);
    Key { clock, node, body }
}

fn pass<R: Replica>(
    alloc: Global,
    versioned: &mut Versioned<R>,
    name: &Name,
) -> Result<bool, AllocError> {
    let state = versioned.state();
    let has_key = state.key(name).is_some();
    let fits = state.hits(name, 1) < u64::MAX && state.exec(name, 0, 1) < u64::MAX;
    let counts = state.is_counted(name, 0);
    let is_allowed = has_key && fits && counts && has_room(versioned);
    if is_allowed {
        versioned.count_pass(alloc, name, 1, Some(0))?;
    }
    Ok(is_allowed)
}

fn move_rights<R: Replica>(
    alloc: Global,
    versioned: &mut Versioned<R>,
    name: &Name,
    to: u8,
    total: u64,
) -> Result<bool, AllocError> {
    let state = versioned.state();
    let has_key = state.key(name).is_some();
    let is_more = state.moved(name, 0, 0, to) < total;
    let counts = state.is_counted(name, 0);
    let is_allowed = has_key && is_more && counts && has_room(versioned);
    if is_allowed {
        versioned.count_shift(alloc, name, 0, 0, to, total)?;
    }
    Ok(is_allowed)
}

/// Makes a call once, and returns whether it changed the state.
fn once<R: Replica>(
    alloc: Global,
    versioned: &mut Versioned<R>,
    name: &Name,
    call: Call,
) -> Result<bool, AllocError> {
    match call {
        Call::Receive(bytes) => receive(alloc, versioned, &bytes_of(alloc, bytes)?),
        Call::ReceiveWith(base, upto, ack) => receive(
            alloc,
            versioned,
            &with_versions(base, upto, ack),
        ),
        Call::SetKey(clock) => set_key(alloc, versioned, clock),
        Call::Issue(clock) => issue(alloc, versioned, clock),
        Call::IssueFour => {
            let setting = key(alloc, 3)?;
            issue_four(alloc, versioned, four_names(alloc)?, setting)
        }
        Call::Pass => pass(alloc, versioned, name),
        Call::Move(to, total) => move_rights(alloc, versioned, name, to, total),
    }
}

fn versions_text<R: Replica>(
    alloc: Global,
    versioned: &Versioned<R>,
    name: &Name,
) -> Result<String, AllocError> {
    let known = (versioned.known(0), versioned.known(1));
    let acked = (versioned.acked(0), versioned.acked(1));
    let state = versioned.state();
    let rights = (state.rights(name, 0, 0), state.rights(name, 0, 1));
    let names = state.names();
    format!(in alloc; "known {known:?}, acked {acked:?}, rights {rights:?} of {names} names")
}

/// What changed after a version, as a message of node 0 to node 1, in print.
fn since<R: Replica>(
    alloc: Global,
    versioned: &Versioned<R>,
    base: u64,
) -> Result<String, AllocError> {
    let message = versioned.changed_since(alloc, base, 0, 1)?;
    message_text(alloc, &message)
}

/// The known and acknowledged versions of nodes 0 and 1, their rights to a, how many names there are,
/// and what changed since each version.
fn shown<R: Replica>(
    alloc: Global,
    versioned: &Versioned<R>,
    name: &Name,
) -> Result<String, AllocError> {
    let mut text = versions_text(alloc, versioned, name)?;
    for base in 0..=versioned.version() {
        text.push('\n')?;
        text.push_str(since(alloc, versioned, base)?.as_str())?;
    }
    Ok(text)
}

/// Makes a call. A call that is refused memory must change nothing, and is made again.
fn make<R: Replica>(
    rt: &impl Abort,
    alloc: Global,
    versioned: &mut Versioned<R>,
    name: &Name,
    call: Call,
) -> Result<bool, AllocError> {
    let before = shown(alloc, versioned, name)?;
    if let Ok(changed) = once(alloc, versioned, name, call) {
        return Ok(changed);
    }
    expect(
        rt,
        &shown(alloc, versioned, name)?.as_str(),
        &before.as_str(),
    );
    once(alloc, versioned, name, call)
}

/// A call, whether it changes the state, and what is shown after it.
type Turn = (Call, bool, &'static str);

type Story = &'static [Turn];

const TWO: [u8; 8] = [0, 0, 0, 0, 0, 0, 0, 2];

const THREE: [u8; 8] = [0, 0, 0, 0, 0, 0, 0, 3];

/// The end of a message without entries.
const NO_ACK_NO_NAMES: [u8; 10] = [0; 10];

/// Messages without entries, from version 2 to 3 and from 0 to 3. Only the second leaves no gap.
const GAPS: Story = &[
    (
        Call::Receive(Bytes::First(&EMPTY, 6, &[&TWO, &THREE, &NO_ACK_NO_NAMES])),
        false,
        "known (0, 0), acked (0, 0), rights (0, 0) of 0 names\n\
         0>1 0 0 0;",
    ),
    (
        Call::Receive(Bytes::First(&EMPTY, 6, &[&[0; 8], &THREE, &NO_ACK_NO_NAMES])),
        false,
        "known (3, 0), acked (0, 0), rights (0, 0) of 0 names\n\
         0>1 0 0 0;",
    ),
    (
        Call::Receive(Bytes::First(&EMPTY, 6, &[&TWO, &THREE, &NO_ACK_NO_NAMES])),
        false,
        "known (3, 0), acked (0, 0), rights (0, 0) of 0 names\n\
         0>1 0 0 0;",
    ),
];

/// Messages without entries, with one name, with a shift of that name, and with a grant.
const RIGHTS: Story = &[
    (
        Call::Receive(Bytes::First(&EMPTY, 32, &[])),
        false,
        "known (0, 0), acked (0, 0), rights (0, 0) of 0 names\n\
         0>1 0 0 0;",
    ),
    (
        Call::Receive(Bytes::First(&ONE_NAME, 75, &[])),
        true,
        "known (2, 0), acked (0, 0), rights (1, 0) of 1 names\n\
         0>1 0 1 0; a 1.0 2*off hits 0=1 execs 0 0=1;\n\
         0>1 1 1 0;",
    ),
    (
        Call::Receive(Bytes::First(&ONE_NAME, 73, &[&[0, 1, 0, 0, 1, 0, 0, 0, 0, 0, 0, 0, 2]])),
        true,
        "known (2, 0), acked (0, 0), rights (-1, 2) of 1 names\n\
         0>1 0 2 0; a 1.0 2*off hits 0=1 execs 0 0=1 shifts 0 0>1=2;\n\
         0>1 1 2 0; a 1.0 2*off shifts 0 0>1=2;\n\
         0>1 2 2 0;",
    ),
    (
        Call::Receive(Bytes::First(&ONE_GRANT, 68, &[])),
        true,
        "known (2, 0), acked (0, 0), rights (2, 2) of 1 names\n\
         0>1 0 3 0; a 1.0 2*off hits 0=1 execs 0 0=1 shifts 0 0>1=2 grants 0 0=3;\n\
         0>1 1 3 0; a 1.0 2*off shifts 0 0>1=2 grants 0 0=3;\n\
         0>1 2 3 0; a 1.0 2*off grants 0 0=3;\n\
         0>1 3 3 0;",
    ),
];

/// One message with other versions. A base above what is known leaves a gap, and raises nothing.
const VERSIONS: Story = &[
    (
        Call::ReceiveWith(1, 2, 0),
        true,
        "known (0, 0), acked (0, 0), rights (1, 0) of 1 names\n\
         0>1 0 1 0; a 1.0 2*off hits 0=1 execs 0 0=1;\n\
         0>1 1 1 0;",
    ),
    (
        Call::ReceiveWith(0, 3, 1),
        false,
        "known (3, 0), acked (1, 0), rights (1, 0) of 1 names\n\
         0>1 0 1 0; a 1.0 2*off hits 0=1 execs 0 0=1;\n\
         0>1 1 1 0;",
    ),
    (
        Call::ReceiveWith(0, 3, 0),
        false,
        "known (3, 0), acked (1, 0), rights (1, 0) of 1 names\n\
         0>1 0 1 0; a 1.0 2*off hits 0=1 execs 0 0=1;\n\
         0>1 1 1 0;",
    ),
    (
        Call::ReceiveWith(4, 6, 2),
        false,
        "known (3, 0), acked (2, 0), rights (1, 0) of 1 names\n\
         0>1 0 1 0; a 1.0 2*off hits 0=1 execs 0 0=1;\n\
         0>1 1 1 0;",
    ),
    (
        Call::ReceiveWith(1, 5, 0),
        false,
        "known (5, 0), acked (2, 0), rights (1, 0) of 1 names\n\
         0>1 0 1 0; a 1.0 2*off hits 0=1 execs 0 0=1;\n\
         0>1 1 1 0;",
    ),
    (
        Call::ReceiveWith(0, 4, 7),
        false,
        "known (5, 0), acked (7, 0), rights (1, 0) of 1 names\n\
         0>1 0 1 0; a 1.0 2*off hits 0=1 execs 0 0=1;\n\
         0>1 1 1 0;",
    ),
];

const SHIFTED: &str = "known (0, 0), acked (0, 0), rights (3, 1) of 1 names\n\
    0>1 0 3 0; a 1.0 5*off hits 1=1 execs 0 1=1 shifts 0 0>1=2;\n\
    0>1 1 3 0; a 1.0 5*off hits 1=1 execs 0 1=1 shifts 0 0>1=2;\n\
    0>1 2 3 0; a 1.0 5*off shifts 0 0>1=2;\n\
    0>1 3 3 0;";

const SET_AGAIN: &str = "known (0, 0), acked (0, 0), rights (5, 0) of 1 names\n\
    0>1 0 4 0; a 2.0 5*off hits 1=1;\n\
    0>1 1 4 0; a 2.0 5*off hits 1=1;\n\
    0>1 2 4 0; a 2.0 5*off;\n\
    0>1 3 4 0; a 2.0 5*off;\n\
    0>1 4 4 0;";

/// A key, a pass, a shift, the same key again, the next key, which has no executions and no shifts,
/// and that key again.
const CHANGES: Story = &[
    (
        Call::SetKey(1),
        true,
        "known (0, 0), acked (0, 0), rights (5, 0) of 1 names\n\
         0>1 0 1 0; a 1.0 5*off;\n\
         0>1 1 1 0;",
    ),
    (
        Call::Pass,
        true,
        "known (0, 0), acked (0, 0), rights (5, -1) of 1 names\n\
         0>1 0 2 0; a 1.0 5*off hits 1=1 execs 0 1=1;\n\
         0>1 1 2 0; a 1.0 5*off hits 1=1 execs 0 1=1;\n\
         0>1 2 2 0;",
    ),
    (Call::Move(1, 2), true, SHIFTED),
    (Call::Issue(1), false, SHIFTED),
    (Call::Issue(2), true, SET_AGAIN),
    (Call::Issue(2), false, SET_AGAIN),
];

/// Grants, then shifts.
const GRANTS: Story = &[
    (
        Call::SetKey(1),
        true,
        "known (0, 0), acked (0, 0), rights (5, 0) of 1 names\n\
         0>1 0 1 0; a 1.0 5*off;\n\
         0>1 1 1 0;",
    ),
    (
        Call::Move(0, 3),
        true,
        "known (0, 0), acked (0, 0), rights (8, 0) of 1 names\n\
         0>1 0 2 0; a 1.0 5*off grants 0 0=3;\n\
         0>1 1 2 0; a 1.0 5*off grants 0 0=3;\n\
         0>1 2 2 0;",
    ),
    (
        Call::Move(1, 2),
        true,
        "known (0, 0), acked (0, 0), rights (6, 2) of 1 names\n\
         0>1 0 3 0; a 1.0 5*off shifts 0 0>1=2 grants 0 0=3;\n\
         0>1 1 3 0; a 1.0 5*off shifts 0 0>1=2 grants 0 0=3;\n\
         0>1 2 3 0; a 1.0 5*off shifts 0 0>1=2;\n\
         0>1 3 3 0;",
    ),
];

const ISSUED: &str = "known (0, 5), acked (0, 1), rights (5, 0) of 3 names\n\
    0>1 0 2 5; a 3.0 5*off hits 1=3; \
    b 1.0 3*off hits 0=4 hits 1=4 execs 0 0=1 shifts 0 0>1=2; c 4.0 removed;\n\
    0>1 1 2 5; a 3.0 5*off hits 1=3; b 1.0 3*off hits 0=4; c 4.0 removed;\n\
    0>1 2 2 5;";

/// A message, operations, and the message again.
const RECEIVED: Story = &[
    (
        Call::Receive(Bytes::First(TWO_POINTS, TWO_POINTS.len(), &[])),
        true,
        "known (0, 5), acked (0, 1), rights (0, 0) of 2 names\n\
         0>1 0 1 5; a 2.1 removed; b 1.0 3*off hits 0=3 hits 1=4 execs 0 0=1 shifts 0 0>1=2;\n\
         0>1 1 1 5;",
    ),
    (Call::IssueFour, true, ISSUED),
    (
        Call::Receive(Bytes::First(TWO_POINTS, TWO_POINTS.len(), &[])),
        false,
        ISSUED,
    ),
];

fn take_turn<R: Replica>(
    rt: &impl Abort,
    alloc: Global,
    versioned: &mut Versioned<R>,
    name: &Name,
    (call, changes, wanted): &Turn,
) -> Result<(), AllocError> {
    let changed = make(rt, alloc, versioned, name, *call)?;
    let shown = shown(alloc, versioned, name)?;
    expect(rt, &(changed, shown.as_str()), &(*changes, *wanted));
    Ok(())
}

fn take_turns<R: Replica>(
    rt: &impl Abort,
    alloc: Global,
    versioned: &mut Versioned<R>,
    name: &Name,
    story: Story,
) -> Result<(), AllocError> {
    for turn in story {
        take_turn(rt, alloc, versioned, name, turn)?;
    }
    Ok(())
}

fn run<R: Replica>(rt: &impl Abort, alloc: Global, story: Story) -> Result<(), AllocError> {
    let name = name(alloc, "a")?;
    let mut versioned: Versioned<R> = Versioned::new(alloc);
    take_turns(rt, alloc, &mut versioned, &name, story)
}

fn both_run(rt: &impl Abort, alloc: Global, story: Story) -> Result<(), AllocError> {
    run::<OpSet>(rt, alloc, story)?;
    run::<Matrix>(rt, alloc, story)
}

#[test]
fn messages_that_are_received(rt: HostRuntime) -> Result<(), Fail> {
    for story in [GAPS, RIGHTS, VERSIONS, RECEIVED] {
        both_run(&rt, rt.alloc(), story)?;
    }
    Ok(())
}

#[test]
fn changes_since_each_version(rt: HostRuntime) -> Result<(), Fail> {
    for story in [CHANGES, GRANTS] {
        both_run(&rt, rt.alloc(), story)?;
    }
    Ok(())
}

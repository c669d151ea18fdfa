//! Events of a cluster: what each is answered, by one and by the run. A run goes on after what is
//! refused.

use super::*;

/// What is asked of a cluster: a call of a node with its random draws, or a delivery of a message by
/// its number.
#[derive(Clone, Copy)]
enum Does {
    Call(u8, AskRef<'static>),
    Draw(u8, AskRef<'static>, u32),
    /// A shift of rights of `a` at node 0: its term, to which node, and how many.
    ShiftA(u8, u8, u64),
    Deliver(u8, u32),
}

/// An event, and what it is answered in print.
type Row = (Does, &'static str);

const SET_P: AskRef<'static> = AskRef::Set {
    name: "p",
    text: "3*panic",
};

const SET_P_OFF: AskRef<'static> = AskRef::Set {
    name: "p",
    text: "off",
};

const PASS_P: AskRef<'static> = AskRef::Pass { name: "p" };

const EMIT: AskRef<'static> = AskRef::Emit { to: 1 };

/// A right of `name`'s term to node 1.
const SHIFT_P: AskRef<'static> = AskRef::Shift {
    name: "p",
    term: 0,
    to: 1,
    amount: 1,
};

const PANICS: &str =
    "Ok(Pass(Act { term: 0, stamp: Stamp { clock: 1, node: 0 }, task: Panic(None) }))";

const DOES_NOTHING: &str =
    "Ok(Pass(Act { term: 0, stamp: Stamp { clock: 2, node: 0 }, task: Off }))";

/// A node that hasn't heard of a later setting goes on under the one before.
const OVERTAKEN: &[Row] = &[
    (Does::Call(0, SET_P), "Ok(Set(Stamp { clock: 1, node: 0 }))"),
    (Does::Call(0, SHIFT_P), "Ok(Shift(1))"),
    (
        Does::Call(0, EMIT),
        "Ok(Emit([70, 80, 71, 49, 0, 1, 0, 0, 0, 0, 0, 0, 0, 0, 0, 0, 0, 0, 0, 0, 0, 2, 0, 0, 0, 0, 0, \
         0, 0, 0, 0, 1, 1, 112, 0, 0, 0, 0, 0, 0, 0, 1, 0, 1, 0, 7, 51, 42, 112, 97, 110, 105, 99, 0, \
         0, 0, 0, 1, 0, 0, 1, 0, 0, 0, 0, 0, 0, 0, 1]))",
    ),
    (Does::Deliver(1, 0), "Ok(Deliver(true))"),
    (Does::Call(0, PASS_P), PANICS),
    (
        Does::Call(0, SET_P_OFF),
        "Ok(Set(Stamp { clock: 2, node: 0 }))",
    ),
    (Does::Call(0, PASS_P), DOES_NOTHING),
    (Does::Call(1, PASS_P), PANICS),
    (
        Does::Call(1, PASS_P),
        "Ok(Pass(NoTerm { stamp: Stamp { clock: 1, node: 0 } }))",
    ),
];

const SET_A: AskRef<'static> = AskRef::Set {
    name: "a",
    text: "2*off",
};

const SHIFT_B: AskRef<'static> = AskRef::Shift {
    name: "b",
    term: 0,
    to: 1,
    amount: 0,
};

const SHIFT_C: AskRef<'static> = AskRef::Shift {
    name: "c",
    term: 0,
    to: 1,
    amount: 1,
};

/// What a cluster and its nodes refuse.
const REFUSED: &[Row] = &[
    (Does::Call(0, SET_A), "Ok(Set(Stamp { clock: 1, node: 0 }))"),
    (Does::ShiftA(0, 1, 0), "Err(Refused(ZeroAmount))"),
    (
        Does::ShiftA(0, 1, 3),
        "Err(Refused(TooFewRights { have: 2 }))",
    ),
    (Does::ShiftA(0, 0, 1), "Err(Refused(BadNode))"),
    (Does::ShiftA(1, 1, 1), "Err(Refused(NoSuchTerm))"),
    (Does::Call(0, SHIFT_B), "Err(Refused(NotSet))"),
    (
        Does::Call(
            0,
            AskRef::Set {
                name: "c",
                text: "off",
            },
        ),
        "Ok(Set(Stamp { clock: 2, node: 0 }))",
    ),
    (Does::Call(0, SHIFT_C), "Err(Refused(NotCounted))"),
    (
        Does::Call(
            0,
            AskRef::Set {
                name: "bad!",
                text: "off",
            },
        ),
        "Err(Refused(BadName))",
    ),
    (
        Does::Draw(0, AskRef::Pass { name: "a" }, 7),
        "Err(Refused(BadWords { need: 0 }))",
    ),
    (
        Does::Call(0, EMIT),
        "Ok(Emit([70, 80, 71, 49, 0, 1, 0, 0, 0, 0, 0, 0, 0, 0, 0, 0, 0, 0, 0, 0, 0, 2, 0, 0, 0, 0, 0, \
         0, 0, 0, 0, 2, 1, 97, 0, 0, 0, 0, 0, 0, 0, 1, 0, 1, 0, 5, 50, 42, 111, 102, 102, 0, 0, 0, 0, \
         0, 1, 99, 0, 0, 0, 0, 0, 0, 0, 2, 0, 1, 0, 3, 111, 102, 102, 0, 0, 0, 0, 0]))",
    ),
    (Does::Deliver(0, 0), "Err(Refused(NotForMe))"),
    (Does::Deliver(1, 5), "Err(NoMessage)"),
    // Bytes are no message of a cluster, whose messages have numbers.
    (
        Does::Call(1, AskRef::Deliver { message: b"FPG1" }),
        "Err(NoMessage)",
    ),
    (Does::Call(2, SET_P_OFF), "Err(NoNode)"),
];

/// What two nodes do, each story in a cluster of its own.
const STORIES: &[&[Row]] = &[OVERTAKEN, REFUSED];

fn event(alloc: Global, does: Does) -> Result<Event<'static>, AllocError> {
    match does {
        Does::Call(node, ask) => Ok(Event::call(alloc, node, ask)),
        Does::Draw(node, ask, word) => Ok(Event::Call {
            node,
            ask,
            words: Vec::from_slice(alloc, &[word])?,
        }),
        Does::ShiftA(term, to, amount) => {
            let name = "a";
            let ask = AskRef::Shift {
                name,
                term,
                to,
                amount,
            };
            Ok(Event::call(alloc, 0, ask))
        }
        Does::Deliver(node, message) => Ok(Event::Deliver { node, message }),
    }
}

// A new cluster, without what its contract says.
fn world(alloc: Global) -> Result<World, NodeFault> {
    World::new(alloc, 2, 100)
}

// A step of it, likewise.
fn step(alloc: Global, world: &mut World, event: &Event<'_>) -> Result<Reply, WorldFault> {
    world.step(alloc, event)
}

fn step_text(alloc: Global, world: &mut World, does: Does) -> Result<String, AllocError> {
    let event = event(alloc, does)?;
    let found = step(alloc, world, &event);
    in_print(alloc, &found)
}

// Takes each step, and ends the test at the first that is answered otherwise.
fn expect_steps(rt: &impl Abort, alloc: Global, rows: &[Row]) -> Result<(), Fail> {
    let mut world = world(alloc)?;
    for (place, (does, wanted)) in rows.iter().enumerate() {
        let found = step_text(alloc, &mut world, *does)?;
        expect(rt, &(place, found.as_str()), &(place, *wanted));
    }
    Ok(())
}

#[test]
fn each_step_is_answered(rt: HostRuntime) -> Result<(), Fail> {
    for rows in STORIES {
        expect_steps(&rt, rt.alloc(), rows)?;
    }
    Ok(())
}

fn events(alloc: Global, rows: &[Row]) -> Result<Vec<Event<'static>>, AllocError> {
    let mut events = Vec::new(alloc);
    for (does, _) in rows {
        events.push(event(alloc, *does)?)?;
    }
    Ok(events)
}

// A run at a new cluster, without what its contract says.
fn run(alloc: Global, world: &mut World, events: &[Event<'_>]) -> Result<RunReport, AllocError> {
    world.run(alloc, events)
}

// Ends the test where the run answers otherwise, or answers more or fewer events than it was given.
fn expect_run(rt: &impl Abort, alloc: Global, rows: &[Row]) -> Result<(), Fail> {
    let events = events(alloc, rows)?;
    let mut world = world(alloc)?;
    let report = run(alloc, &mut world, &events)?;
    expect(rt, &report.answers.len(), &rows.len());
    for (found, (_, wanted)) in report.answers.iter().zip(rows) {
        let found = in_print(alloc, found)?;
        expect(rt, &found.as_str(), wanted);
    }
    Ok(())
}

#[test]
fn a_run_answers_each_event(rt: HostRuntime) -> Result<(), Fail> {
    for rows in STORIES {
        expect_run(&rt, rt.alloc(), rows)?;
    }
    Ok(())
}

// The points of a node of a cluster, or that there is no such node.
fn points(alloc: Global, world: &World, node: u8) -> Result<String, AllocError> {
    match world.node(node) {
        Some(node) => node.list(alloc),
        None => String::from_str(alloc, "no node"),
    }
}

/// A node, and its points once what is told above of an overtaken setting has been done.
const POINTS: &[(u8, &str)] = &[(0, "p=off"), (1, "p=3*panic"), (2, "no node")];

#[test]
fn a_world_shows_its_nodes(rt: HostRuntime) -> Result<(), Fail> {
    let events = events(rt.alloc(), OVERTAKEN)?;
    let mut world = world(rt.alloc())?;
    run(rt.alloc(), &mut world, &events)?;
    for (node, wanted) in POINTS {
        let found = points(rt.alloc(), &world, *node)?;
        expect(&rt, &found.as_str(), wanted);
    }
    Ok(())
}

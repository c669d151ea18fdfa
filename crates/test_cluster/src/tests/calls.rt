//! Each method that calls a node: its reply, and its entry, which is then the last of the trace.

ghost use Rattle.std.specs.Prelude.{◌≡◌, replicate};

use super::callers::{Accepted, Caller, OfCell, OfGuarded, OfRegistry, Way};
use super::*;

/// A request, and its reply in print or its error.
type Row = (AskRef<'static>, &'static str);

/// The message of node 0 after it set `a` to `off`.
const A_OFF: AskRef<'static> = AskRef::Deliver {
    message: b"FPG1\x00\x01\
        \x00\x00\x00\x00\x00\x00\x00\x00\
        \x00\x00\x00\x00\x00\x00\x00\x01\
        \x00\x00\x00\x00\x00\x00\x00\x00\
        \x00\x01\x01a\
        \x00\x00\x00\x00\x00\x00\x00\x01\x00\
        \x01\x00\x03off\x00\x00\x00\x00\x00",
};

const PASS_A: AskRef<'static> = AskRef::Pass { name: "a" };

const PASS_P: AskRef<'static> = AskRef::Pass { name: "p" };

/// A pass of `p` triggers the first term.
const TRIGGERED: Row = (
    PASS_P,
    "Pass(Act { term: 0, stamp: Stamp { clock: 6, node: 1 }, task: Off })",
);

/// Calls of the second of two nodes, in this order.
const CALLS: &[Row] = &[
    // An old setting arrives again after a removal.
    (A_OFF, "Deliver(true)"),
    (
        PASS_A,
        "Pass(Act { term: 0, stamp: Stamp { clock: 1, node: 0 }, task: Off })",
    ),
    (
        AskRef::Remove { name: "a" },
        "Remove(Stamp { clock: 2, node: 1 })",
    ),
    (A_OFF, "Deliver(false)"),
    (PASS_A, "Pass(Unset)"),
    (
        AskRef::Emit { to: 0 },
        "Emit([70, 80, 71, 49, 1, 0, 0, 0, 0, 0, 0, 0, 0, 0, 0, 0, 0, 0, 0, 0, 0, 3, 0, 0, 0, 0, 0, 0, \
         0, 1, 0, 1, 1, 97, 0, 0, 0, 0, 0, 0, 0, 2, 1, 0, 1, 1, 0, 0, 0, 0, 0, 0, 0, 1, 0, 0, 0, 0])",
    ),
    // A load sets all or none.
    (
        AskRef::Load {
            text: ";a=off; ;b=2*return()",
        },
        "Load(2)",
    ),
    (
        AskRef::Load {
            text: "a=off;b=bad",
        },
        "N3 BadActions S4 BadActions entry=1 A7 UnknownTask term=0",
    ),
    (AskRef::Load { text: "" }, "Load(0)"),
    (
        AskRef::Shift {
            name: "b",
            term: 0,
            to: 0,
            amount: 1,
        },
        "Shift(1)",
    ),
    (
        AskRef::Grant {
            name: "b",
            term: 0,
            amount: 3,
        },
        "Grant(3)",
    ),
    (
        AskRef::Set {
            name: "p",
            text: "100%off",
        },
        "Set(Stamp { clock: 5, node: 1 })",
    ),
    // A count of two runs out.
    (
        AskRef::Set {
            name: "p",
            text: "2*off",
        },
        "Set(Stamp { clock: 6, node: 1 })",
    ),
    TRIGGERED,
    TRIGGERED,
    (
        PASS_P,
        "Pass(NoTerm { stamp: Stamp { clock: 6, node: 1 } })",
    ),
    (AskRef::Remove { name: "a!" }, "N2 BadName"),
    (AskRef::Emit { to: 1 }, "N9 BadNode"),
];

/// The points of the node after these calls.
const POINTS: &str = "a=off;b=2*return();p=2*off";

// The reply of a call in print, or its error.
fn answer_text(alloc: Global, answer: &Result<Accepted, NodeFault>) -> Result<String, AllocError> {
    match answer {
        Ok((_, entry)) => in_print(alloc, &entry.reply),
        Err(fault) => format!(in alloc; "{fault}"),
    }
}

// Ends the test if an accepted call isn't the last of the trace at its index, or if a rejected call is in
// the trace. Returns the number of accepted calls.
fn expect_shown<C: Caller>(
    rt: &impl Abort,
    alloc: Global,
    caller: &C,
    answer: &Result<Accepted, NodeFault>,
    before: u64,
) -> Result<u64, AllocError> {
    let shown = caller.shown(alloc)?;
    let Ok((place, entry)) = answer else {
        expect(rt, &shown.calls, &before);
        return Ok(before);
    };
    let entry = in_print(alloc, entry)?;
    let calls = before.saturating_add(1);
    let found = (shown.calls, shown.last.as_str(), (*place).unwrap_or(before));
    expect(rt, &found, &(calls, entry.as_str(), before));
    Ok(calls)
}

// Makes the calls, and ends the test at the first with another reply.
fn expect_calls<C: Caller>(rt: &impl Abort, alloc: Global, caller: &mut C) -> Result<(), Fail> {
    let mut calls = 0;
    for (number, (ask, wanted)) in CALLS.iter().enumerate() {
        let answer = caller.call(alloc, *ask);
        let found = answer_text(alloc, &answer)?;
        expect(rt, &(number, found.as_str()), &(number, *wanted));
        calls = expect_shown(rt, alloc, caller, &answer, calls)?;
    }
    Ok(())
}

/// A name, and the outcome of a pass by it after these calls and a grant of one right.
type Pass = (&'static str, PassOutcome);

const LATEST: Stamp = Stamp { clock: 6, node: 1 };

const PASSES: &[Pass] = &[
    ("q", PassOutcome::Unset),
    (
        "p",
        PassOutcome::Act {
            stamp: LATEST,
            term: 0,
        },
    ),
    ("p", PassOutcome::NoTerm { stamp: LATEST }),
];

fn passed<C: Caller>(alloc: Global, caller: &mut C, name: &str) -> Result<PassOutcome, Fail> {
    let point = Name::parse(alloc, name)?;
    Ok(caller.pass(alloc, &point)?)
}

fn grant<C: Caller>(alloc: Global, caller: &mut C) -> Result<(), NodeFault> {
    let (name, term, amount) = ("p", 0, 1);
    caller.call(alloc, AskRef::Grant { name, term, amount })?;
    Ok(())
}

// Grants a right, then passes points by their names.
fn expect_passes<C: Caller>(rt: &impl Abort, alloc: Global, caller: &mut C) -> Result<(), Fail> {
    grant(alloc, caller)?;
    for (name, outcome) in PASSES {
        let found = passed(alloc, caller, name)?;
        expect(rt, &found, outcome);
    }
    Ok(())
}

// Makes all these calls, then checks the points.
fn expect_all<C: Caller>(rt: &impl Abort, alloc: Global, caller: &mut C) -> Result<(), Fail> {
    expect_calls(rt, alloc, caller)?;
    expect_passes(rt, alloc, caller)?;
    let shown = caller.shown(alloc)?;
    expect(rt, &shown.points.as_str(), &POINTS);
    Ok(())
}

fn expect_of_cell(rt: &impl Abort, alloc: Global, way: Way) -> Result<(), Fail> {
    let cell = NodeCell::new(alloc, SECOND_OF_TWO, [0; 32])?;
    let mut caller = OfCell { cell, way };
    expect_all(rt, alloc, &mut caller)
}

#[test]
fn calls_of_a_node_alone(rt: HostRuntime) -> Result<(), Fail> {
    for way in [Way::Enter, Way::Submit] {
        expect_of_cell(&rt, rt.alloc(), way)?;
    }
    Ok(())
}

/// The number of these calls that are accepted.
const ACCEPTED: u64 = 19;

fn expect_under<L: Label, R: Abort>(
    rt: &R,
    alloc: Global,
    blank: Blank,
    way: Way,
) -> Result<(), Fail>
    requires name { blank.name ≡ L.name }
    requires parts { (blank.parts ≡ L.parts) × (L.parts ≡ 1) }
    requires config { SECOND_OF_TWO ≡ L.config }
    requires seed { replicate 32 0 ≡ L.seed }
{
    let (guarded, mut seats) = Guarded::<L>::start(alloc, blank, SECOND_OF_TWO, [0; 32], 1)?;
    let seat = seats.pop().ok_or("a seat")?;
    let mut caller = OfGuarded { guarded, seat, way };
    expect_all(rt, alloc, &mut caller)?;
    expect(rt, &caller.seat.calls(), &ACCEPTED);
    Ok(())
}

fn expect_of_guarded<R: Abort>(rt: &R, alloc: Global, way: Way) -> Result<(), Fail> {
    expect_under::<Brand, R>(rt, alloc, Blank::new(1), way)
}

#[test]
fn calls_of_a_node_under_a_lock(rt: HostRuntime) -> Result<(), Fail> {
    for way in [Way::Enter, Way::Submit] {
        expect_of_guarded(&rt, rt.alloc(), way)?;
    }
    Ok(())
}

fn expect_behind<L: Label, R: Abort + Wait>(
    rt: &R,
    alloc: Global,
    blank: Blank,
    way: Way,
) -> Result<(), Fail>
    requires name { blank.name ≡ L.name }
    requires parts { (blank.parts ≡ L.parts) × (L.parts ≡ 1) }
    requires config { SECOND_OF_TWO ≡ L.config }
    requires seed { replicate 32 0 ≡ L.seed }
{
    let (registry, seat) = started::<L, R>(rt, alloc, blank, SECOND_OF_TWO)?;
    let mut caller = OfRegistry {
        rt,
        registry,
        seat,
        way,
    };
    expect_all(rt, alloc, &mut caller)?;
    expect(rt, &caller.seat.calls(), &ACCEPTED);
    Ok(())
}

fn expect_of_registry<R: Abort + Wait>(rt: &R, alloc: Global, way: Way) -> Result<(), Fail> {
    expect_behind::<Brand, R>(rt, alloc, Blank::new(1), way)
}

#[test]
fn calls_of_a_node_behind_a_lock(rt: HostRuntime) -> Result<(), Fail> {
    for way in [Way::Enter, Way::Submit, Way::Method] {
        expect_of_registry(&rt, rt.alloc(), way)?;
    }
    Ok(())
}

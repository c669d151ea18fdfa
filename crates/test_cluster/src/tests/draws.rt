//! The random draws of passes are those of the node's stream, in order. A rejected pass makes none.

ghost use Rattle.std.specs.Prelude.{◌≡◌};

use super::callers::{Accepted, Caller, OfCell, OfGuarded, OfRegistry, Way};
use super::*;

const SEED: [u8; 32] = [
    0, 1, 2, 3, 4, 5, 6, 7, 8, 9, 10, 11, 12, 13, 14, 15, 16, 17, 18, 19, 20, 21, 22, 23, 24, 25,
    26, 27, 28, 29, 30, 31,
];

/// The second of two nodes draws from stream 1. It accepts a setting and five passes.
const SIX_CALLS: Config = Config {
    node: 1,
    nodes: 2,
    trace_cap: 6,
};

const PASS: AskRef<'static> = AskRef::Pass { name: "p" };

/// A request, and its random draws or its error. A program written from the definition of ChaCha8 gave
/// the draws for this seed on stream 1. For a seed of zeros on stream 0 that program gives the published
/// block, 3e00ef2f 895f40d6 7f5bb8e8 1f09a5a1 ..
const DRAWS: &[(AskRef<'static>, &str)] = &[
    (
        AskRef::Set {
            name: "p",
            text: "20%off",
        },
        "[]",
    ),
    (PASS, "[4011706191]"),
    (AskRef::Pass { name: "p!" }, "N2 BadName"),
    (PASS, "[3171865337]"),
    (AskRef::Pass { name: "q" }, "[]"),
    (PASS, "[2462398529]"),
    (PASS, "[2436282966]"),
    (PASS, "N1 TraceFull"),
    (PASS, "N1 TraceFull"),
];

// Makes a call, and makes it again if memory is refused.
fn repeated<C: Caller>(
    alloc: Global,
    caller: &mut C,
    ask: AskRef<'_>,
) -> Result<Accepted, NodeFault> {
    match caller.call(alloc, ask) {
        Err(NodeFault::OutOfMemory) => caller.call(alloc, ask),
        answer => answer,
    }
}

// The random draws of a call in print, or its error.
fn draws_text<C: Caller>(
    alloc: Global,
    caller: &mut C,
    ask: AskRef<'_>,
) -> Result<String, AllocError> {
    match repeated(alloc, caller, ask) {
        Ok((_, entry)) => in_print(alloc, &entry.words),
        Err(fault) => format!(in alloc; "{fault}"),
    }
}

// Ends the test if a call makes other random draws.
fn expect_draws<C: Caller>(
    rt: &impl Abort,
    alloc: Global,
    caller: &mut C,
) -> Result<(), AllocError> {
    for (number, (ask, wanted)) in DRAWS.iter().enumerate() {
        let found = draws_text(alloc, caller, *ask)?;
        expect(rt, &(number, found.as_str()), &(number, *wanted));
    }
    Ok(())
}

#[test]
fn draws_of_a_node_alone(rt: HostRuntime) -> Result<(), Fail> {
    let cell = NodeCell::new(rt.alloc(), SIX_CALLS, SEED)?;
    let way = Way::Enter;
    let mut caller = OfCell { cell, way };
    expect_draws(&rt, rt.alloc(), &mut caller)?;
    expect(&rt, &caller.cell.place(), &4);
    Ok(())
}

fn expect_under<L: Label, R: Abort>(
    rt: &R,
    alloc: Global,
    blank: Blank,
    config: Config,
) -> Result<(), Fail>
    requires name { blank.name ≡ L.name }
    requires parts { (blank.parts ≡ L.parts) × (L.parts ≡ 1) }
    requires config { config ≡ L.config }
    requires seed { SEED ≡ L.seed }
{
    let (guarded, mut seats) = Guarded::<L>::start(alloc, blank, config, SEED, 1)?;
    let (seat, way) = (seats.pop().ok_or("a seat")?, Way::Enter);
    let mut caller = OfGuarded { guarded, seat, way };
    expect_draws(rt, alloc, &mut caller)?;
    Ok(())
}

#[test]
fn draws_of_a_node_under_a_lock(rt: HostRuntime) -> Result<(), Fail> {
    expect_under::<Brand, HostRuntime>(&rt, rt.alloc(), Blank::new(1), SIX_CALLS)
}

fn expect_behind<L: Label, R: Abort + Wait>(
    rt: &R,
    alloc: Global,
    blank: Blank,
    config: Config,
    way: Way,
) -> Result<(), Fail>
    requires name { blank.name ≡ L.name }
    requires parts { (blank.parts ≡ L.parts) × (L.parts ≡ 1) }
    requires config { config ≡ L.config }
    requires seed { SEED ≡ L.seed }
{
    let (registry, mut seats) = Registry::<L>::start(rt, alloc, blank, config, SEED, 1)?;
    let seat = seats.pop().ok_or("a seat")?;
    let mut caller = OfRegistry {
        rt,
        registry,
        seat,
        way,
    };
    expect_draws(rt, alloc, &mut caller)?;
    Ok(())
}

fn expect_of_registry<R: Abort + Wait>(rt: &R, alloc: Global, way: Way) -> Result<(), Fail> {
    expect_behind::<Brand, R>(rt, alloc, Blank::new(1), SIX_CALLS, way)
}

#[test]
fn draws_of_a_node_behind_a_lock(rt: HostRuntime) -> Result<(), Fail> {
    for way in [Way::Enter, Way::Method] {
        expect_of_registry(&rt, rt.alloc(), way)?;
    }
    Ok(())
}

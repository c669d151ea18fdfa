//! Hit counters and budgets: each call, its answer, and the cells after it.

use super::joined::{expect_joins, two};
use super::{expect, expect_print};
use counters::{Budget, CounterFault, HitCounter};
use lattice_laws::Join;
use std::alloc::{AllocError, Global};
use std::process::Abort;
use std::test::Fail;

/// The answer of a call: the new number, if the call returns one.
type Answer = Result<Option<u64>, CounterFault>;

const MAX: u64 = u64::MAX;

/// A call of a hit counter.
#[derive(Clone, Copy)]
enum HitCall {
    Hit(u8),
    Raise(u8, u64),
}

/// The hits of the nodes 0 and 1, and of all nodes.
type Hits = (u64, u64, u128);

fn hits(counter: &HitCounter) -> Hits {
    (counter.of(0), counter.of(1), counter.total())
}

fn raised(answer: Result<(), AllocError>) -> Answer {
    match answer {
        Ok(()) => Ok(None),
        Err(_) => Err(CounterFault::OutOfMemory),
    }
}

fn try_hit(counter: &mut HitCounter, call: HitCall) -> Answer {
    match call {
        HitCall::Hit(node) => counter.hit(node).map(Some),
        HitCall::Raise(node, number) => raised(counter.raise(node, number)),
    }
}

/// Makes a call. A call that is refused memory must change nothing, and is made again.
fn hit(rt: &impl Abort, counter: &mut HitCounter, call: HitCall) -> Answer {
    let before = hits(counter);
    let answer = try_hit(counter, call);
    if answer != Err(CounterFault::OutOfMemory) {
        return answer;
    }
    expect(rt, &hits(counter), &before);
    try_hit(counter, call)
}

/// Calls of a hit counter, with their answers and the hits after each.
type HitRows = &'static [(HitCall, Answer, Hits)];

const FULL_CELL: Hits = (MAX, 0, 18_446_744_073_709_551_615);

const HITS_BY_HAND: HitRows = &[
    (HitCall::Raise(0, MAX), Ok(None), FULL_CELL),
    (HitCall::Hit(0), Err(CounterFault::CellFull), FULL_CELL),
    (
        HitCall::Hit(1),
        Ok(Some(1)),
        (MAX, 1, 18_446_744_073_709_551_616),
    ),
];

const MORE_HITS: HitRows = &[
    (HitCall::Raise(0, 0), Ok(None), (0, 0, 0)),
    (HitCall::Hit(0), Ok(Some(1)), (1, 0, 1)),
    (HitCall::Hit(0), Ok(Some(2)), (2, 0, 2)),
    (HitCall::Raise(0, 1), Ok(None), (2, 0, 2)),
    (HitCall::Raise(1, 5), Ok(None), (2, 5, 7)),
];

fn follow_hits(rt: &impl Abort, alloc: Global, rows: HitRows) {
    let mut counter = HitCounter::new(alloc);
    for (call, answer, after) in rows {
        expect(rt, &hit(rt, &mut counter, *call), answer);
        expect(rt, &hits(&counter), after);
    }
}

#[test]
fn hits_by_hand(rt: HostRuntime) {
    for rows in [HITS_BY_HAND, MORE_HITS] {
        follow_hits(&rt, rt.alloc(), rows);
    }
}

/// A call of a budget of 2 that node 0 set.
#[derive(Clone, Copy)]
enum Call {
    Spend(u8),
    Shift(u8, u8, u64),
    RaiseSpent(u8, u64),
    RaiseMoved(u8, u8, u64),
    Grant(u8, u64),
    RaiseGranted(u8, u64),
}

/// What the nodes 0 and 1 each spent, moved to the other, have left as rights, and granted.
type Seen = ((u64, u64, i128, u64), (u64, u64, i128, u64));

fn seen(budget: &Budget) -> Seen {
    (
        (
            budget.spent(0),
            budget.moved(0, 1),
            budget.rights(0, 2, 0),
            budget.granted(0),
        ),
        (
            budget.spent(1),
            budget.moved(1, 0),
            budget.rights(0, 2, 1),
            budget.granted(1),
        ),
    )
}

fn try_call(alloc: Global, budget: &mut Budget, call: Call) -> Answer {
    match call {
        Call::Spend(node) => budget.spend(0, 2, node).map(Some),
        Call::Shift(from, to, amount) => budget.shift(alloc, 0, 2, from, to, amount).map(Some),
        Call::RaiseSpent(node, number) => raised(budget.raise_spent(node, number)),
        Call::RaiseMoved(from, to, number) => raised(budget.raise_moved(alloc, from, to, number)),
        Call::Grant(node, amount) => budget.grant(alloc, node, amount).map(Some),
        Call::RaiseGranted(node, total) => raised(budget.raise_granted(alloc, node, total)),
    }
}

/// Makes a call. A call that is refused memory must change nothing, and is made again.
fn ask(rt: &impl Abort, alloc: Global, budget: &mut Budget, call: Call) -> Answer {
    let before = seen(budget);
    let answer = try_call(alloc, budget, call);
    if answer != Err(CounterFault::OutOfMemory) {
        return answer;
    }
    expect(rt, &seen(budget), &before);
    try_call(alloc, budget, call)
}

/// Calls of a fresh budget, with their answers and the cells after each.
type Rows = &'static [(Call, Answer, Seen)];

const NO_RIGHTS: Answer = Err(CounterFault::TooFewRights { have: 0 });

/// The setter spends its rights and no more.
const SPENDS: Rows = &[
    (Call::Spend(0), Ok(Some(1)), ((1, 0, 1, 0), (0, 0, 0, 0))),
    (Call::Spend(0), Ok(Some(2)), ((2, 0, 0, 0), (0, 0, 0, 0))),
    (Call::Spend(0), NO_RIGHTS, ((2, 0, 0, 0), (0, 0, 0, 0))),
    (Call::Spend(1), NO_RIGHTS, ((2, 0, 0, 0), (0, 0, 0, 0))),
    (
        Call::Shift(0, 1, 1),
        NO_RIGHTS,
        ((2, 0, 0, 0), (0, 0, 0, 0)),
    ),
    (
        Call::Shift(0, 0, 0),
        Err(CounterFault::ZeroAmount),
        ((2, 0, 0, 0), (0, 0, 0, 0)),
    ),
];

const FRESH: Seen = ((0, 0, 2, 0), (0, 0, 0, 0));

const TWO_RIGHTS: Answer = Err(CounterFault::TooFewRights { have: 2 });

/// A shift moves rights that the node has, to another node.
const SHIFTS: Rows = &[
    (Call::Shift(0, 1, 3), TWO_RIGHTS, FRESH),
    (Call::Shift(0, 1, 0), Err(CounterFault::ZeroAmount), FRESH),
    (Call::Shift(0, 0, 1), Err(CounterFault::SameNode), FRESH),
    (Call::Shift(0, 0, 3), TWO_RIGHTS, FRESH),
    (
        Call::Shift(0, 1, 2),
        Ok(Some(2)),
        ((0, 2, 0, 0), (0, 0, 2, 0)),
    ),
    (
        Call::Shift(1, 0, 1),
        Ok(Some(1)),
        ((0, 2, 1, 0), (0, 1, 1, 0)),
    ),
    (
        Call::Shift(0, 1, 1),
        Ok(Some(3)),
        ((0, 3, 0, 0), (0, 1, 2, 0)),
    ),
    (Call::Spend(1), Ok(Some(1)), ((0, 3, 0, 0), (1, 1, 1, 0))),
];

const SPENT_BEFORE: Seen = ((0, 0, 2, 0), (2, 0, -2, 0));

const MOVED_AFTER: Seen = ((0, 2, 0, 0), (2, 0, 0, 0));

const FULL: Seen = ((0, MAX, 2, 0), (2, MAX, -2, 0));

/// A raise keeps the greater number. A spend that is known before the shift that pays for it leaves
/// fewer than no rights.
const RAISES: Rows = &[
    (Call::RaiseSpent(1, 2), Ok(None), SPENT_BEFORE),
    (Call::RaiseSpent(1, 1), Ok(None), SPENT_BEFORE),
    (
        Call::Spend(1),
        Err(CounterFault::TooFewRights { have: -2 }),
        SPENT_BEFORE,
    ),
    (Call::RaiseMoved(0, 1, 2), Ok(None), MOVED_AFTER),
    (Call::RaiseMoved(0, 1, 1), Ok(None), MOVED_AFTER),
    (Call::RaiseMoved(2, 1, 0), Ok(None), MOVED_AFTER),
    (
        Call::RaiseMoved(0, 1, MAX),
        Ok(None),
        (
            (0, MAX, -18_446_744_073_709_551_613, 0),
            (2, 0, 18_446_744_073_709_551_613, 0),
        ),
    ),
    (Call::RaiseMoved(1, 0, MAX), Ok(None), FULL),
    (Call::Shift(0, 1, 1), Err(CounterFault::CellFull), FULL),
    (Call::Shift(0, 1, 0), Err(CounterFault::ZeroAmount), FULL),
];

const GRANTED_TWO: Seen = ((0, 0, 4, 2), (0, 0, 0, 0));

/// A grant adds to the rights of its node. A total that comes again adds nothing.
const GRANTS: Rows = &[
    (Call::RaiseGranted(0, 2), Ok(None), GRANTED_TWO),
    (Call::RaiseGranted(0, 1), Ok(None), GRANTED_TWO),
    (
        Call::Grant(0, 0),
        Err(CounterFault::ZeroAmount),
        GRANTED_TWO,
    ),
    (
        Call::Grant(0, MAX),
        Err(CounterFault::CellFull),
        GRANTED_TWO,
    ),
    (Call::Grant(1, 1), Ok(Some(1)), ((0, 0, 4, 2), (0, 0, 1, 1))),
    (Call::Grant(0, 3), Ok(Some(5)), ((0, 0, 7, 5), (0, 0, 1, 1))),
    (
        Call::RaiseMoved(0, 0, 9),
        Ok(None),
        ((0, 0, 11, 9), (0, 0, 1, 1)),
    ),
    (
        Call::Shift(0, 1, 11),
        Ok(Some(11)),
        ((0, 11, 0, 9), (0, 0, 12, 1)),
    ),
];

const GREATEST_GRANT: Seen = ((0, 0, 18_446_744_073_709_551_617, MAX), (0, 0, 0, 0));

const ALL_BUT_TWO_SPENT: Seen = ((MAX, 0, 2, MAX), (0, 0, 0, 0));

/// A node with rights whose cell of spends is full spends no more. A grant fills no cell of shifts.
const GREATEST_NUMBERS: Rows = &[
    (Call::Grant(0, MAX), Ok(Some(MAX)), GREATEST_GRANT),
    (
        Call::Grant(0, 1),
        Err(CounterFault::CellFull),
        GREATEST_GRANT,
    ),
    (
        Call::Shift(0, 0, 1),
        Err(CounterFault::SameNode),
        GREATEST_GRANT,
    ),
    (
        Call::Shift(0, 0, MAX),
        Err(CounterFault::SameNode),
        GREATEST_GRANT,
    ),
    (
        Call::Shift(0, 0, 0),
        Err(CounterFault::ZeroAmount),
        GREATEST_GRANT,
    ),
    (Call::Shift(1, 1, 1), NO_RIGHTS, GREATEST_GRANT),
    (Call::RaiseSpent(0, MAX), Ok(None), ALL_BUT_TWO_SPENT),
    (
        Call::Spend(0),
        Err(CounterFault::CellFull),
        ALL_BUT_TWO_SPENT,
    ),
];

/// The spends and the grants of all nodes, as the budget adds them up and as counted here.
fn sums(budget: &Budget) -> [(u128, u128); 2] {
    let ((one, _, _, granted), (other, _, _, more)) = seen(budget);
    [
        (budget.total_spent(), budget.total_granted()),
        (
            u128::from(one) + u128::from(other),
            u128::from(granted) + u128::from(more),
        ),
    ]
}

fn expect_seen(rt: &impl Abort, budget: &Budget, wanted: &Seen) {
    expect(rt, &seen(budget), wanted);
    let [found, counted] = sums(budget);
    expect(rt, &found, &counted);
}

fn follow(rt: &impl Abort, alloc: Global, rows: Rows) {
    let mut budget = Budget::new(alloc);
    for (call, answer, after) in rows {
        expect(rt, &ask(rt, alloc, &mut budget, *call), answer);
        expect_seen(rt, &budget, after);
    }
}

const BUDGETS: &[Rows] = &[SPENDS, SHIFTS, RAISES, GRANTS, GREATEST_NUMBERS];

#[test]
fn budgets_by_hand(rt: HostRuntime) {
    for rows in BUDGETS {
        follow(&rt, rt.alloc(), rows);
    }
}

fn hit_counter(alloc: Global, calls: &[HitCall]) -> Result<HitCounter, CounterFault> {
    let mut counter = HitCounter::new(alloc);
    for call in calls {
        try_hit(&mut counter, *call)?;
    }
    Ok(counter)
}

const FIVE_HITS: &[HitCall] = &[HitCall::Raise(0, 5)];

const HITS_OF_TWO_NODES: &[HitCall] = &[HitCall::Raise(0, 4), HitCall::Raise(1, 7)];

#[test]
fn joins_of_hits(rt: HostRuntime) -> Result<(), Fail> {
    let alloc = rt.alloc();
    let both = two(
        hit_counter(alloc, FIVE_HITS),
        hit_counter(alloc, HITS_OF_TWO_NODES),
    )?;
    let orders = ((false, false), false);
    expect_joins(&rt, alloc, both, orders, hits, &(5, 7, 12))?;
    Ok(())
}

fn budget(alloc: Global, calls: &[Call]) -> Result<Budget, CounterFault> {
    let mut budget = Budget::new(alloc);
    for call in calls {
        try_call(alloc, &mut budget, *call)?;
    }
    Ok(budget)
}

const A_SPEND_AND_A_SHIFT: &[Call] = &[Call::RaiseSpent(0, 2), Call::RaiseMoved(0, 1, 1)];

const TWO_SHIFTS: &[Call] = &[
    Call::RaiseSpent(0, 1),
    Call::RaiseMoved(0, 1, 2),
    Call::RaiseMoved(1, 0, 1),
];

#[test]
fn joins_of_budgets(rt: HostRuntime) -> Result<(), Fail> {
    let alloc = rt.alloc();
    let both = two(
        budget(alloc, A_SPEND_AND_A_SHIFT),
        budget(alloc, TWO_SHIFTS),
    )?;
    let orders = ((false, false), false);
    let wanted = ((2, 2, -1, 0), (0, 1, 1, 0));
    expect_joins(&rt, alloc, both, orders, seen, &wanted)?;
    Ok(())
}

fn is_least<J: Join>(value: J) -> bool {
    value.is_bottom()
}

#[test]
fn new_counters_are_the_bottom(rt: HostRuntime) {
    let hits = is_least(HitCounter::new(rt.alloc()));
    let budget = is_least(Budget::new(rt.alloc()));
    expect(&rt, &(hits, budget), &(true, true));
}

const FAULTS: &[(CounterFault, &str)] = &[
    (
        CounterFault::TooFewRights { have: -3 },
        "B1 TooFewRights have=-3",
    ),
    (
        CounterFault::TooFewRights { have: 2 },
        "B1 TooFewRights have=2",
    ),
    (CounterFault::CellFull, "B2 CellFull"),
    (CounterFault::ZeroAmount, "B3 ZeroAmount"),
    (CounterFault::SameNode, "B4 SameNode"),
    (CounterFault::OutOfMemory, "B5 OutOfMemory"),
];

#[test]
fn texts_of_counter_faults(rt: HostRuntime) -> Result<(), Fail> {
    for (fault, wanted) in FAULTS {
        expect_print(&rt, rt.alloc(), fault, wanted)?;
    }
    Ok(())
}

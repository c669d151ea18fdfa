//! Copies: each equals its source.

use super::joined::expect_copy;
use super::{expect, held_copy};
use actions::{Actions, Name, Term, parse_actions};
use counters::{Budget, HitCounter};
use lattice_laws::{Held, LexOf, MapOf, Max, PairOf};
use stamp_register::{Body, Key};
use std::alloc::{AllocError, Global};
use std::fmt::Debug;
use std::process::Abort;
use std::test::Fail;

const TEXT: &str = " 020.50%3*print(a(b)c) -> panic";

const CANONICAL: &str = "20.5%3*print(a(b)c)->panic";

/// Checks the copy that a map or a value under a key makes of its key.
fn expect_held_copy<K: Held + Debug>(
    rt: &impl Abort,
    alloc: Global,
    key: &K,
) -> Result<(), AllocError> {
    let copy = held_copy(alloc, key)?;
    expect(rt, &copy, key);
    Ok(())
}

#[test]
fn copies_of_actions(rt: HostRuntime) -> Result<(), Fail> {
    let actions = parse_actions(rt.alloc(), TEXT)?;
    let copy = actions.copied(rt.alloc())?;
    expect(&rt, &(copy == actions, copy.text()), &(true, CANONICAL));
    expect_held_copy(&rt, rt.alloc(), &actions)?;
    Ok(())
}

/// A copy of a term, and one of its task, in print.
fn copied_term(alloc: Global, term: &Term) -> Result<String, AllocError> {
    let (term, task) = (term.copied(alloc)?, term.task.copied(alloc)?);
    format!(in alloc; "{term} {task:?}")
}

/// A term and its task, in print.
fn term_text(alloc: Global, term: &Term) -> Result<String, AllocError> {
    let task = &term.task;
    format!(in alloc; "{term} {task:?}")
}

/// An action text of every task, and one of every task with an argument.
const TASKS: &[&str] = &[
    TEXT,
    "off->return->sleep(5)->panic->print->pause->yield->delay(6)",
    "50%1*return()->2*panic(a)->3*print(b)->return(c d)",
];

/// Checks the copies of each term and of each task.
fn expect_term_copies(rt: &impl Abort, alloc: Global, actions: &Actions) -> Result<(), AllocError> {
    for index in 0..actions.len() as u8 {
        if let Some(term) = actions.term(index) {
            let wanted = term_text(alloc, term)?;
            let found = copied_term(alloc, term)?;
            expect(rt, &found.as_str(), &wanted.as_str());
        }
    }
    Ok(())
}

#[test]
fn copies_of_terms_and_tasks(rt: HostRuntime) -> Result<(), Fail> {
    for text in TASKS {
        let actions = parse_actions(rt.alloc(), text)?;
        expect_term_copies(&rt, rt.alloc(), &actions)?;
    }
    Ok(())
}

#[test]
fn copies_of_names(rt: HostRuntime) -> Result<(), Fail> {
    let name = Name::parse(rt.alloc(), "raft.store-3:before_save")?;
    let copy = name.copied(rt.alloc())?;
    let found = (copy == name, copy.text());
    expect(&rt, &found, &(true, "raft.store-3:before_save"));
    expect_held_copy(&rt, rt.alloc(), &name)?;
    Ok(())
}

fn key(alloc: Global, text: &str) -> Result<Key, Fail> {
    let (clock, node) = (7, 3);
    let body = Body::Set(parse_actions(alloc, text)?);
    Ok(Key { clock, node, body })
}

/// Checks both copies of a key.
fn expect_key_copies(rt: &impl Abort, alloc: Global, key: Key) -> Result<(), AllocError> {
    let copy = key.copied(alloc)?;
    expect(rt, &copy, &key);
    expect_held_copy(rt, alloc, &key)
}

#[test]
fn copies_of_keys(rt: HostRuntime) -> Result<(), Fail> {
    let (clock, node, body) = (9, 1, Body::Removed);
    expect_key_copies(&rt, rt.alloc(), Key { clock, node, body })?;
    expect_key_copies(&rt, rt.alloc(), key(rt.alloc(), TEXT)?)?;
    Ok(())
}

#[test]
fn copies_of_numbers(rt: HostRuntime) -> Result<(), Fail> {
    for number in [0u8, 7, 255] {
        expect_held_copy(&rt, rt.alloc(), &number)?;
    }
    Ok(())
}

/// What a point stores: its key with a budget for each counted term, and its hits.
type Point = PairOf<LexOf<Key, Budgets>, HitCounter>;

type Budgets = MapOf<u8, Budget>;

type Points = MapOf<Name, Point>;

/// What node 1 spent, what node 0 moved to node 1, and the hits of node 1.
type Numbers = (u64, u64, u64);

/// A spend at node 1 without the shift that pays for it, and with the shift; and hits.
const STATES: &[Numbers] = &[(1, 0, 0), (1, 1, 0), (1, 1, 3)];

fn budget(alloc: Global, (spent, moved, _): Numbers) -> Result<Budget, AllocError> {
    let mut budget = Budget::new(alloc);
    budget.raise_spent(1, spent)?;
    budget.raise_moved(alloc, 0, 1, moved)?;
    Ok(budget)
}

fn hit_counter(alloc: Global, (_, _, hits): Numbers) -> Result<HitCounter, AllocError> {
    let mut counter = HitCounter::new(alloc);
    counter.raise(1, hits)?;
    Ok(counter)
}

fn budgets(alloc: Global, numbers: Numbers) -> Result<Budgets, AllocError> {
    let mut budgets = MapOf::new(alloc);
    budgets.raise(alloc, 0, budget(alloc, numbers)?)?;
    Ok(budgets)
}

fn point(alloc: Global, key: Key, numbers: Numbers) -> Result<Point, AllocError> {
    let first = LexOf::of(key, budgets(alloc, numbers)?);
    let second = hit_counter(alloc, numbers)?;
    Ok(PairOf { first, second })
}

fn points(alloc: Global, name: Name, key: Key, numbers: Numbers) -> Result<Points, AllocError> {
    let point = point(alloc, key, numbers)?;
    let mut points = MapOf::new(alloc);
    points.raise(alloc, name, point)?;
    Ok(points)
}

fn number(max: &Max) -> u64 {
    max.0
}

fn spent_and_moved(budget: &Budget) -> (u64, u64) {
    (budget.spent(1), budget.moved(0, 1))
}

fn hits(counter: &HitCounter) -> u64 {
    counter.of(1)
}

fn of_first_term(budgets: &Budgets) -> Option<(u64, u64)> {
    Some(spent_and_moved(budgets.get(&0)?))
}

/// The clock of the key, and what its first term shows.
fn under_key(value: &LexOf<Key, Budgets>) -> Option<(u64, Option<(u64, u64)>)> {
    let (key, budgets) = value.held()?;
    Some((key.clock, of_first_term(budgets)))
}

fn of_point(point: &Point) -> (Option<(u64, Option<(u64, u64)>)>, u64) {
    (under_key(&point.first), hits(&point.second))
}

/// What the one point shows.
fn of_points(points: &Points) -> Option<(Option<(u64, Option<(u64, u64)>)>, u64)> {
    let (_, point) = points.at(0)?;
    Some(of_point(point))
}

fn expect_counter_copies(
    rt: &impl Abort,
    alloc: Global,
    numbers: Numbers,
) -> Result<(), AllocError> {
    let (spent, moved, passes) = numbers;
    expect_copy(
        rt,
        alloc,
        &budget(alloc, numbers)?,
        spent_and_moved,
        &(spent, moved),
    )?;
    expect_copy(rt, alloc, &hit_counter(alloc, numbers)?, hits, &passes)?;
    expect_copy(rt, alloc, &Max(spent), number, &spent)
}

fn expect_point_copies(
    rt: &impl Abort,
    alloc: Global,
    point: &Point,
    (spent, moved, hits): Numbers,
) -> Result<(), AllocError> {
    let under = Some((7, Some((spent, moved))));
    expect_copy(rt, alloc, &point.first, under_key, &under)?;
    expect_copy(rt, alloc, point, of_point, &(under, hits))
}

fn expect_map_copies(
    rt: &impl Abort,
    alloc: Global,
    points: &Points,
    (spent, moved, hits): Numbers,
) -> Result<(), AllocError> {
    let under = Some((7, Some((spent, moved))));
    expect_copy(rt, alloc, points, of_points, &Some((under, hits)))
}

#[test]
fn copies_of_counters(rt: HostRuntime) -> Result<(), Fail> {
    for numbers in STATES {
        expect_counter_copies(&rt, rt.alloc(), *numbers)?;
    }
    Ok(())
}

#[test]
fn copies_of_budgets_under_keys(rt: HostRuntime) -> Result<(), Fail> {
    for numbers in STATES {
        let point = point(rt.alloc(), key(rt.alloc(), "2*off")?, *numbers)?;
        expect_point_copies(&rt, rt.alloc(), &point, *numbers)?;
    }
    Ok(())
}

fn points_of_a(alloc: Global, numbers: Numbers) -> Result<Points, Fail> {
    let name = Name::parse(alloc, "a")?;
    let key = key(alloc, "2*off")?;
    Ok(points(alloc, name, key, numbers)?)
}

#[test]
fn copies_of_maps(rt: HostRuntime) -> Result<(), Fail> {
    for numbers in STATES {
        let points = points_of_a(rt.alloc(), *numbers)?;
        expect_map_copies(&rt, rt.alloc(), &points, *numbers)?;
    }
    Ok(())
}

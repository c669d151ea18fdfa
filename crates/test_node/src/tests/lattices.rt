//! Values that join: numbers, pairs, maps, and values under keys.

use super::expect;
use super::joined::{expect_joins, two};
use lattice_laws::{Join, LexOf, MapOf, Max, PairOf};
use std::alloc::{AllocError, Global};
use std::process::Abort;
use std::test::Fail;

type Row = MapOf<u8, Max>;

type Table = MapOf<u8, Row>;

type Both = PairOf<Max, Max>;

/// Two numbers, the join, and whether each is below the other.
const NUMBERS: &[(u64, u64, u64, (bool, bool))] = &[
    (3, 5, 5, (true, false)),
    (5, 3, 5, (false, true)),
    (4, 4, 4, (true, true)),
    (0, 7, 7, (true, false)),
];

fn number_of(number: &Max) -> u64 {
    number.0
}

/// The join is the greater number, and the bottom is 0.
#[test]
fn joins_of_numbers(rt: HostRuntime) -> Result<(), Fail> {
    for (one, other, both, is_below) in NUMBERS {
        let values = (Max(*one), Max(*other));
        let orders = (*is_below, *one == 0);
        expect_joins(&rt, rt.alloc(), values, orders, number_of, both)?;
    }
    Ok(())
}

type Numbers = (u64, u64);

fn pair((first, second): Numbers) -> Both {
    PairOf {
        first: Max(first),
        second: Max(second),
    }
}

fn parts(pair: &Both) -> Numbers {
    (pair.first.0, pair.second.0)
}

/// Two pairs, the join, and whether each is below the other.
const PAIRS: &[(Numbers, Numbers, Numbers, (bool, bool))] = &[
    ((2, 3), (4, 1), (4, 3), (false, false)),
    ((4, 1), (4, 3), (4, 3), (true, false)),
    ((4, 3), (5, 6), (5, 6), (true, false)),
    ((0, 0), (0, 0), (0, 0), (true, true)),
    ((0, 3), (0, 1), (0, 3), (false, true)),
];

/// Pairs join part by part.
#[test]
fn joins_of_pairs(rt: HostRuntime) -> Result<(), Fail> {
    for (one, other, both, is_below) in PAIRS {
        let values = (pair(*one), pair(*other));
        let orders = (*is_below, *one == (0, 0));
        expect_joins(&rt, rt.alloc(), values, orders, parts, both)?;
    }
    Ok(())
}

fn number(row: &Row, key: u8) -> u64 {
    match row.get(&key) {
        Some(value) => value.0,
        None => 0,
    }
}

/// A key, the number that it is raised to, the number that it then has, and the number of keys.
const RAISES: &[(u8, u64, u64, usize)] = &[(7, 3, 3, 1), (7, 1, 3, 1), (2, 0, 0, 1), (4, 8, 8, 2)];

fn raise_to(alloc: Global, row: &mut Row, key: u8, number: u64) -> Result<(), AllocError> {
    row.raise(alloc, key, Max(number))
}

/// The number of a key, whether the map is empty, and how many keys it has.
fn after_raise(row: &Row, key: u8) -> (u64, bool, usize) {
    (number(row, key), row.is_empty(), row.len())
}

/// The entries at the places 0 to 2, and how many entries there are.
fn entries_and_count(row: &Row) -> ([Option<(u8, u64)>; 3], usize) {
    let entries = [0, 1, 2].map(|place| row.at(place).map(|(key, value)| (*key, value.0)));
    (entries, row.iter().count())
}

/// A map keeps the greater number of a key, and stores no bottom.
#[test]
fn raises_in_a_map(rt: HostRuntime) -> Result<(), Fail> {
    let mut map = Row::new(rt.alloc());
    expect(&rt, &map.is_empty(), &true);
    for (key, value, wanted, len) in RAISES {
        raise_to(rt.alloc(), &mut map, *key, *value)?;
        expect(&rt, &after_raise(&map, *key), &(*wanted, false, *len));
    }
    let wanted = [Some((4, 8)), Some((7, 3)), None];
    expect(&rt, &entries_and_count(&map), &(wanted, 2));
    Ok(())
}

/// A line of a table, and its numbers of the keys 1 and 2.
type Line = (u8, u64, u64);

fn row(alloc: Global, first: u64, second: u64) -> Result<Row, AllocError> {
    let mut row = MapOf::new(alloc);
    row.raise(alloc, 1, Max(first))?;
    row.raise(alloc, 2, Max(second))?;
    Ok(row)
}

fn table(alloc: Global, lines: &[Line]) -> Result<Table, AllocError> {
    let mut table = MapOf::new(alloc);
    for (line, first, second) in lines {
        table.raise(alloc, *line, row(alloc, *first, *second)?)?;
    }
    Ok(table)
}

fn cell(table: &Table, line: u8, key: u8) -> u64 {
    match table.get(&line) {
        Some(row) => number(row, key),
        None => 0,
    }
}

/// The numbers of the keys 1 and 2 in the lines 1 and 2, and how many lines there are.
type Cells = ([u64; 4], usize);

fn cells_and_len(table: &Table) -> Cells {
    let cells = [
        cell(table, 1, 1),
        cell(table, 1, 2),
        cell(table, 2, 1),
        cell(table, 2, 2),
    ];
    (cells, table.len())
}

/// Two tables, whether each is below the other, and the cells of the join.
const TABLES: &[(&[Line], &[Line], (bool, bool), Cells)] = &[
    (
        &[(1, 5, 0)],
        &[(1, 4, 0), (2, 6, 2)],
        (false, false),
        ([5, 0, 6, 2], 2),
    ),
    (
        &[(2, 4, 0)],
        &[(1, 7, 2), (2, 3, 9), (3, 8, 0)],
        (false, false),
        ([7, 2, 4, 9], 3),
    ),
    (
        &[(1, 3, 0), (2, 1, 1), (1, 2, 4), (1, 6, 5)],
        &[],
        (false, true),
        ([6, 5, 1, 1], 2),
    ),
    (&[], &[(2, 0, 1)], (true, false), ([0, 0, 0, 1], 1)),
];

/// Maps join key by key.
#[test]
fn joins_of_maps(rt: HostRuntime) -> Result<(), Fail> {
    for (one, other, is_below, wanted) in TABLES {
        let values = two(table(rt.alloc(), one), table(rt.alloc(), other))?;
        let orders = (*is_below, one.is_empty());
        expect_joins(&rt, rt.alloc(), values, orders, cells_and_len, wanted)?;
    }
    Ok(())
}

type Keyed = LexOf<u8, Row>;

/// The key, and the number of the key 1 in the row under it.
type Held = Option<(u8, u64)>;

fn held(value: &Keyed) -> Held {
    let (key, row) = value.held()?;
    Some((*key, number(row, 1)))
}

fn keyed(alloc: Global, held: Held) -> Result<Keyed, AllocError> {
    Ok(match held {
        Some((key, value)) => LexOf::of(key, row(alloc, value, 0)?),
        None => LexOf::nothing(),
    })
}

/// Two values under keys, the join, and whether each is below the other.
const KEYED: &[(Held, Held, Held, (bool, bool))] = &[
    (Some((1, 9)), Some((2, 3)), Some((2, 3)), (true, false)),
    (Some((2, 3)), Some((2, 5)), Some((2, 5)), (true, false)),
    (Some((2, 5)), Some((2, 3)), Some((2, 5)), (false, true)),
    (Some((2, 3)), Some((2, 3)), Some((2, 3)), (true, true)),
    (None, Some((1, 9)), Some((1, 9)), (true, false)),
];

/// The greater key wins, and values under equal keys join.
#[test]
fn joins_of_values_under_keys(rt: HostRuntime) -> Result<(), Fail> {
    for (one, other, both, is_below) in KEYED {
        let values = two(keyed(rt.alloc(), *one), keyed(rt.alloc(), *other))?;
        let orders = (*is_below, one.is_none());
        expect_joins(&rt, rt.alloc(), values, orders, held, both)?;
    }
    Ok(())
}

//! Numbers by node, 0 where there is none, and rows of them.

ghost use Rattle.std.specs.Prelude.{◌≡◌, ◌≤◌, ◌+◌, ◌*◌, ◌^◌, ◌==◌, if◌then◌else◌, pos, ◌-ℤ◌};
ghost use Rattle.std.specs.Prelude.{length, map, max, slice_index, None, IfOk, IfErr, OnOk, OnErr};
ghost use Rattle.std.specs.List.{range_with_len};
ghost use Rattle.counters.specs.Sums.{node_numbers, sum_below, sum_others, AddsEach, AreWithin};
ghost use Rattle.counters.specs.Cells.{cell, row_cell, came_to, went_from, WritesCell, WritesRowCell};
ghost use Rattle.counters.specs.Refusals.{hit_refusal, IsRefusal};

use crate::fault::CounterFault;
use lattice_laws::{MapOf, Numbers, PairOf};
use std::alloc::{AllocError, Global};

/// A number for each node.
pub(crate) type Cells = Numbers;

/// For each node a number for each node.
pub(crate) type Rows = MapOf<u8, Cells>;

/// What each node spent, and what each moved to each other and, at its own place, granted.
pub(crate) type SpentAndMoved = PairOf<Cells, Rows>;

/// The number of a node.
#[tactic(auto, unfolding(crate::specs::Cells::cell))]
pub(crate) fn number_of(cells: &Cells, node: u8) -> u64
    ensures { result ≡ cell cells.now node }
{
    cells.at(node)
}

/// The number in a row at a node.
#[tactic(auto, unfolding(crate::specs::Cells::cell, crate::specs::Cells::row_cell))]
pub(crate) fn number_in_row(rows: &Rows, from: u8, to: u8) -> u64
    ensures { result ≡ row_cell rows.now from to }
{
    match rows.get(&from) {
        Some(row) => number_of(row, to),
        None => 0,
    }
}

// The number at a place, 0 where there is none.
fn number_at(numbers: &[u64], place: usize) -> u64
    ensures { result ≡ slice_index numbers.now place }
{
    numbers.get(place).copied().unwrap_or(0)
}

/// All numbers together.
pub(crate) fn total(cells: &Cells) -> u128
    ensures value { result ≡ sum_below node_numbers (cell cells.now) }
    ensures small { result ≤ 256 * 2 ^ 64 }
{
    let mut sum = 0u128;
    for number in cells.as_slice() {
        sum += u128::from(*number);
    }
    sum
}

// Of all numbers together those of the nodes other than this one.
fn others_of(total: u128, cells: &Cells, node: u8) -> u128
    requires all { total ≡ sum_below node_numbers (cell cells.now) }
    requires small { total ≤ 256 * 2 ^ 64 }
    ensures value { result ≡ sum_others node_numbers node (cell cells.now) }
    ensures small { result ≤ 256 * 2 ^ 64 }
{
    total - u128::from(number_of(cells, node))
}

/// What each row has at its own node, together.
pub(crate) fn total_of_own(rows: &Rows) -> u128
    ensures { result ≡ sum_below node_numbers (λ node. row_cell rows.now node node) }
{
    let mut sum = 0u128;
    for (node, row) in rows.iter() {
        sum += u128::from(number_of(row, *node));
    }
    sum
}

/// Writes the number of each node that there is a place for.
pub(crate) fn write_numbers(cells: &Cells, numbers: &mut [u64])
    ensures { numbers.new ≡ map (cell cells.now) (range_with_len 0 (length numbers.old)) }
{
    let known = cells.as_slice();
    numbers.fill(0);
    for place in 0..numbers.len().min(known.len()) {
        numbers[place] = number_at(known, place);
    }
}

/// Writes how much less than 0 the number of each node is that there is a place for.
pub(crate) fn write_negated(cells: &Cells, sums: &mut [i128])
    ensures sums { sums.new ≡ map (λ node. pos 0 -ℤ pos (cell cells.now node))
        (range_with_len 0 (length sums.old)) }
    ensures small { AreWithin (2 ^ 99) sums.new }
{
    let numbers = cells.as_slice();
    sums.fill(0);
    for place in 0..sums.len().min(numbers.len()) {
        sums[place] -= i128::from(number_at(numbers, place));
    }
}

// Adds each node's number to the sum at its place, and answers all numbers together.
fn add_numbers(cells: &Cells, sums: &mut [i128]) -> u128
    requires { AreWithin (2 ^ 100) sums.old }
    ensures sums { AddsEach (λ place. pos (cell cells.now place)) sums.old sums.new }
    ensures small { AreWithin (2 ^ 101) sums.new }
    ensures total { result ≡ sum_below node_numbers (cell cells.now) }
    ensures few { result ≤ 256 * 2 ^ 64 }
{
    let numbers = cells.as_slice();
    let places = sums.len().min(numbers.len());
    let mut total = 0u128;
    for place in 0..places {
        let number = number_at(numbers, place);
        sums[place] += i128::from(number);
        total += u128::from(number);
    }
    for place in places..numbers.len() {
        total += u128::from(number_at(numbers, place));
    }
    total
}

// Adds what a node's row has at each node to the sum at its place, and takes what it has at others
// from the sum of the node.
fn add_row(row: &Cells, node: u8, sums: &mut [i128])
    requires { AreWithin (2 ^ 100) sums.old }
    ensures { AddsEach (λ place. pos (cell row.now place)
        -ℤ pos (if place == node then sum_others node_numbers node (cell row.now) else 0))
        sums.old sums.new }
{
    let total = add_numbers(row, sums);
    let place = usize::from(node);
    if place < sums.len() {
        sums[place] -= others_of(total, row, node) as i128;
    }
}

/// Adds to each sum what came to the node by the rows, and takes from it what went from it to others.
pub(crate) fn add_rows(rows: &Rows, sums: &mut [i128])
    requires { AreWithin (2 ^ 99) sums.old }
    ensures sums { AddsEach
        (λ place. pos (came_to rows.now place) -ℤ pos (went_from rows.now place))
        sums.old sums.new }
    ensures small { AreWithin (2 ^ 100) sums.new }
{
    for (node, row) in rows.iter() {
        add_row(row, *node, sums);
    }
}

/// Raises a node's number to at least this one. Memory is asked for only where it is 0.
pub(crate) fn raise(cells: &mut Cells, node: u8, number: u64) -> Result<(), AllocError>
    ensures ok { OnOk result
        (WritesCell cells.old cells.new node (max (cell cells.old node) number)) }
    ensures err { OnErr result (cells.new ≡ cells.old) }
    ensures absent { OnErr result (cell cells.old node ≡ 0) }
{
    if number <= number_of(cells, node) {
        return Ok(());
    }
    cells.put(node, number)
}

/// Counts one more at a node, and answers how many it now has. It is refused where there are
/// 2^64 - 1, and where there is none and memory is refused.
pub(crate) fn count(cells: &mut Cells, node: u8) -> Result<u64, CounterFault>
    ensures ok { OnOk result (hit_refusal cells.old node ≡ None) }
    ensures answer { IfOk result (λ more. more ≡ cell cells.old node + 1) }
    ensures after { IfOk result (WritesCell cells.old cells.new node) }
    ensures refused { IfErr result (IsRefusal (hit_refusal cells.old node) (cell cells.old node)) }
    ensures err { OnErr result (cells.new ≡ cells.old) }
{
    let Some(more) = number_of(cells, node).checked_add(1) else {
        return Err(CounterFault::CellFull);
    };
    cells.put(node, more)?;
    Ok(more)
}

/// Raises the number in a row at a node to at least this one, in place where there is a row. Memory
/// is asked for only where it is 0.
pub(crate) fn raise_row(
    rows: &mut Rows,
    alloc: Global,
    from: u8,
    to: u8,
    number: u64,
) -> Result<(), AllocError>
    ensures ok { OnOk result
        (WritesRowCell rows.old rows.new from to (max (row_cell rows.old from to) number)) }
    ensures err { OnErr result (rows.new ≡ rows.old) }
    ensures absent { OnErr result (row_cell rows.old from to ≡ 0) }
{
    match rows.change(&from, |row| raise(row, to, number)) {
        Some(raised) => raised,
        None => {
            let mut row = Cells::new(alloc);
            raise(&mut row, to, number)?;
            rows.raise(alloc, from, row)
        }
    }
}

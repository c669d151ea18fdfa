//! In which column each call stands.

ghost use Rattle.std.specs.Prelude.{◌≡◌, ℕ, ◌+◌, ◌==◌, ◌<◌, ◌≤◌, ◌++◌, ◌∷◌, [], length};
ghost use Rattle.std.specs.Prelude.{if◌then◌else◌, slice_index, IfOk, OnOk};
ghost use Rattle.drill_picture.specs.Boards.{IsBoard};
ghost use Rattle.drill_picture.specs.Calls.{call_at};
ghost use Rattle.drill_picture.specs.Placing.{AreAllColumns, column_of, count_at, may_stand};
ghost use Rattle.drill_picture.specs.Placing.{next_at};

use crate::calls::{call_at, taken};
use crate::made::Made;
use crate::place::Place;
use packed_trace::Trace;
use std::alloc::{AllocError, Global};

/// Where the calls of a drill stand.
#[derive(Drop)]
pub struct Placed {
    /// By columns from the left, and in each by nodes.
    pub places: Vec<Place>,
    /// How many columns there are.
    pub columns: u32,
}

/// The places so far, how many calls of each node stand, and the messages made so far.
#[derive(Drop)]
struct Board<'a> {
    places: Vec<Place>,
    positions: Vec<u32>,
    made: Made<'a>,
}

// How many calls of a node stand.
fn position(board: &Board<'_>, traces: &[Trace], node: usize) -> u32
    requires board { IsBoard traces.now board.now }
    requires node { node < length traces.now }
    ensures { result ≡ count_at node board.now.places.items }
{
    board.positions[node]
}

// Whether the call at an index of a node's trace may stand in the next column.
fn may_stand(board: &Board<'_>, traces: &[Trace], node: usize, index: u32) -> bool
    requires { IsBoard traces.now board.now }
    ensures { result ≡ may_stand traces.now board.now.places.items
        (call_at traces.now node index) }
{
    let Some(call) = call_at(traces, node, index) else {
        return false;
    };
    match taken(call.ask()) {
        Some(bytes) => board.made.has(bytes),
        None => true,
    }
}

// Adds the next call of a node to a column, if it may stand there.
#[tactic(auto, unfolding(crate::specs::Placing::next_at))]
fn push_next(
    stand: &mut Vec<Place>,
    board: &Board<'_>,
    traces: &[Trace],
    column: u32,
    node: usize,
) -> Result<(), AllocError>
    requires board { IsBoard traces.now board.now }
    requires node { node < length traces.now }
    requires few { length traces.now ≤ 256 }
    ensures { OnOk result (stand.new.items ≡ stand.old.items
        ++ next_at traces.now board.now.places.items column node) }
{
    let index = position(board, traces, node);
    if may_stand(board, traces, node, index) {
        stand.push(Place {
            node: node as u8,
            index,
            column,
        })?;
    }
    Ok(())
}

// The next column.
#[tactic(auto, unfolding(crate::specs::Placing::column_of))]
fn column_of(
    alloc: Global,
    board: &Board<'_>,
    traces: &[Trace],
    column: u32,
) -> Result<Vec<Place>, AllocError>
    requires board { IsBoard traces.now board.now }
    requires few { length traces.now ≤ 256 }
    ensures { IfOk result (λ stand.
        stand.items ≡ column_of traces.now board.now.places.items column) }
{
    let mut stand = Vec::new(alloc);
    for node in 0..traces.len() {
        push_next(&mut stand, board, traces, column, node)?;
    }
    Ok(stand)
}

// Counts one more at a node, if it is there.
fn count_up(positions: &mut Vec<u32>, node: usize) -> Result<(), AllocError>
    ensures len { OnOk result (length positions.new.items ≡ length positions.old.items) }
    ensures counts { OnOk result ((n : ℕ) → n < length positions.old.items
        → slice_index positions.new.items n
        ≡ slice_index positions.old.items n + (if node == n then 1 else 0)) }
{
    if node >= positions.len() {
        return Ok(());
    }
    let position = positions[node];
    if position == u32::MAX {
        return Err(AllocError);
    }
    positions[node] = position + 1;
    Ok(())
}

// Lets a call stand. The only error is out of memory, as which 2^32 calls of a node are refused.
fn add_place<'a>(board: &mut Board<'a>, traces: &'a [Trace], place: Place) -> Result<(), AllocError>
    requires { IsBoard traces.now board.old }
    ensures kept { OnOk result (IsBoard traces.now board.new) }
    ensures places { OnOk result (board.new.places.items ≡ board.old.places.items ++ place ∷ []) }
{
    let node = place.node as usize;
    board.made.add_call(call_at(traces, node, place.index))?;
    count_up(&mut board.positions, node)?;
    board.places.push(place)?;
    Ok(())
}

// Lets the calls of a column stand.
fn add_column<'a>(
    board: &mut Board<'a>,
    traces: &'a [Trace],
    column: &[Place],
) -> Result<(), AllocError>
    requires { IsBoard traces.now board.old }
    ensures kept { OnOk result (IsBoard traces.now board.new) }
    ensures places { OnOk result (board.new.places.items
        ≡ board.old.places.items ++ column.now) }
{
    for place in column {
        add_place(board, traces, *place)?;
    }
    Ok(())
}

// A board on which no call stands.
fn empty_board<'a>(alloc: Global, traces: &'a [Trace]) -> Result<Board<'a>, AllocError>
    ensures kept { IfOk result (IsBoard traces.now) }
    ensures places { IfOk result (λ board. board.places.items ≡ []) }
{
    Ok(Board {
        places: Vec::new(alloc),
        positions: vec![in alloc; 0; traces.len()]?,
        made: Made::new(alloc),
    })
}

// Lets all calls stand that may, on a board on which none stands, and answers how many columns there
// are.
fn place_all<'a>(
    board: &mut Board<'a>,
    alloc: Global,
    traces: &'a [Trace],
) -> Result<u32, AllocError>
    requires board { IsBoard traces.now board.old }
    requires none { board.old.places.items ≡ [] }
    requires few { length traces.now ≤ 256 }
    ensures { IfOk result (λ columns.
        AreAllColumns traces.now columns board.new.places.items) }
{
    for column in 0..u32::MAX {
        let stand = column_of(alloc, board, traces, column)?;
        if stand.is_empty() {
            return Ok(column);
        }
        add_column(board, traces, &stand)?;
    }
    // No drill has so many.
    Err(AllocError)
}

/// Places the calls of traces, which stand in the order of their nodes, each in the first column that
/// the calls before it allow: those of its node, and the one that made the message that it takes.
/// What waits for a message that no call before it can have made isn't placed.
pub fn place_calls(alloc: Global, traces: &[Trace]) -> Result<Placed, AllocError>
    requires { length traces.now ≤ 256 }
    ensures { IfOk result (λ placed.
        AreAllColumns traces.now placed.columns placed.places.items) }
{
    let mut board = empty_board(alloc, traces)?;
    let columns = place_all(&mut board, alloc, traces)?;
    let Board {
        places,
        positions: _,
        made: _,
    } = board;
    Ok(Placed { places, columns })
}

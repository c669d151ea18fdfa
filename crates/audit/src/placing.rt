//! An order of the traces' entries in which each message is emitted before it is delivered.
//!
//! What was emitted stays emitted, so that to place an entry that is ready never bars an order that
//! fits: entries are placed as they are ready, and where no node can go on there is none.

ghost use Rattle.std.specs.Prelude.{◌≡◌, ℕ, List, length, slice_index, IfOk, IfSome, IfNone, Some};
ghost use Rattle.std.specs.Prelude.{IsTrue, OnOk, ◌^◌, ◌<◌, ◌≤◌};
ghost use Rattle.std.specs.Bool.{OnTrue, OnFalse};
ghost use Rattle.audit.specs.Boards.{IsBoard, placed_on, IsPlacing, has_sent, left};
ghost use Rattle.audit.specs.Places.{IsStuckAt};
ghost use Rattle.audit.specs.Messages.{bytes_delivered};
ghost use Rattle.packed_trace.specs.Packed.{seen_told};
ghost use Rattle.audit.specs.Traces.{AreShort, entry_at, trace_of};

use crate::sent::Sent;
use crate::told::{call_at, delivered};
use node_core::{Seen, Trace};
use std::alloc::{AllocError, Global};

/// What the placing came to: all entries in an order that fits, or the next entry of the least node
/// that has one left where no node can go on.
#[derive(Drop, Debug)]
pub(crate) enum Placing {
    All(Vec<(u8, u32)>),
    Stuck { node: u8, index: u32 },
}

/// The places so far, each node's next index, and the messages emitted so far.
#[derive(Drop)]
struct Board<'a> {
    order: Vec<(u8, u32)>,
    positions: Vec<u32>,
    sent: Sent<'a>,
}

// The next entry of a node, if it is ready.
fn next_ready<'a>(board: &Board<'a>, traces: &'a [Trace], node: usize) -> Option<Seen<'a>>
    requires board { IsBoard traces.now board.now }
    requires node { node < length traces.now }
    ensures entry { IfSome result (λ entry.
        entry_at traces.now node (slice_index board.now.positions.items node)
        ≡ Some (seen_told entry)) }
    ensures fed { IfSome result (λ entry. (bytes : List ℕ) →
        bytes_delivered (seen_told entry) ≡ Some bytes → IsTrue (has_sent board.now.sent bytes)) }
    ensures stuck { IfNone result (IsStuckAt traces.now (placed_on board.now) node) }
{
    let trace = &traces[node];
    let index = board.positions[node];
    let Some(entry) = call_at(trace, index as u64) else {
        return None;
    };
    if let Some(bytes) = delivered(entry) {
        if !board.sent.has(bytes) {
            return None;
        }
    }
    Some(entry)
}

// Places the next entry of a node, if it is ready; whether it was.
fn step<'a>(board: &mut Board<'a>, traces: &'a [Trace], node: usize) -> Result<bool, AllocError>
    requires board { IsBoard traces.now board.old }
    requires node { node < length traces.now }
    requires few { length traces.now ≤ 256 }
    requires short { AreShort traces.now }
    ensures kept { OnOk result (IsBoard traces.now board.new) }
    ensures moved { IfOk result (λ moved. OnTrue moved
        (left traces.now board.new.positions.items < left traces.now board.old.positions.items)) }
    ensures still { IfOk result (λ moved. OnFalse moved (board.new ≡ board.old)) }
    ensures stuck { IfOk result (λ moved. OnFalse moved
        (IsStuckAt traces.now (placed_on board.old) node)) }
{
    let Some(entry) = next_ready(board, traces, node) else {
        return Ok(false);
    };
    let index = board.positions[node];
    board.sent.add_reply(entry)?;
    board.order.push((node as u8, index))?;
    board.positions[node] = index + 1;
    Ok(true)
}

// Places entries of a node as long as its next one is ready; whether it placed any.
fn advance<'a>(board: &mut Board<'a>, traces: &'a [Trace], node: usize) -> Result<bool, AllocError>
    requires board { IsBoard traces.now board.old }
    requires node { node < length traces.now }
    requires few { length traces.now ≤ 256 }
    requires short { AreShort traces.now }
    ensures kept { OnOk result (IsBoard traces.now board.new) }
    ensures moved { IfOk result (λ moved. OnTrue moved
        (left traces.now board.new.positions.items < left traces.now board.old.positions.items)) }
    ensures still { IfOk result (λ moved. OnFalse moved (board.new ≡ board.old)) }
    ensures stuck { IfOk result (λ moved. OnFalse moved
        (IsStuckAt traces.now (placed_on board.old) node)) }
{
    if !step(board, traces, node)? {
        return Ok(false);
    }
    while step(board, traces, node)? {}
    Ok(true)
}

// Goes over the nodes once; whether any entry was placed.
fn round<'a>(board: &mut Board<'a>, traces: &'a [Trace]) -> Result<bool, AllocError>
    requires board { IsBoard traces.now board.old }
    requires few { length traces.now ≤ 256 }
    requires short { AreShort traces.now }
    ensures kept { OnOk result (IsBoard traces.now board.new) }
    ensures moved { IfOk result (λ moved. OnTrue moved
        (left traces.now board.new.positions.items < left traces.now board.old.positions.items)) }
    ensures still { IfOk result (λ moved. OnFalse moved (board.new ≡ board.old)) }
    ensures stuck { IfOk result (λ moved. OnFalse moved ((node : ℕ) → node < length traces.now
        → IsStuckAt traces.now (placed_on board.old) node)) }
{
    let mut moved = false;
    for node in 0..traces.len() {
        if advance(board, traces, node)? {
            moved = true;
        }
    }
    Ok(moved)
}

// Places entries until no node can go on.
fn settle<'a>(board: &mut Board<'a>, traces: &'a [Trace]) -> Result<(), AllocError>
    requires board { IsBoard traces.now board.old }
    requires few { length traces.now ≤ 256 }
    requires short { AreShort traces.now }
    ensures kept { OnOk result (IsBoard traces.now board.new) }
    ensures stuck { OnOk result ((node : ℕ) → node < length traces.now
        → IsStuckAt traces.now (placed_on board.new) node) }
{
    while round(board, traces)? {}
    Ok(())
}

// The least node whose trace goes on at its position.
fn first_left(positions: &[u32], traces: &[Trace]) -> Option<usize>
    requires { length positions.now ≡ length traces.now }
    ensures left { IfSome result (λ node. (node < length traces.now)
        × (slice_index positions.now node < length (trace_of traces.now node))) }
    ensures least { IfSome result (λ node. (n : ℕ) → n < node
        → length (trace_of traces.now n) ≤ slice_index positions.now n) }
    ensures none { IfNone result ((n : ℕ) → n < length traces.now
        → length (trace_of traces.now n) ≤ slice_index positions.now n) }
{
    for node in 0..traces.len() {
        if (positions[node] as usize) < traces[node].len() {
            return Some(node);
        }
    }
    None
}

/// An order of the traces' entries that fits, or the place at which every order gets stuck.
pub(crate) fn place_all(alloc: Global, traces: &[Trace]) -> Result<Placing, AllocError>
    requires few { length traces.now ≤ 256 }
    requires short { AreShort traces.now }
    ensures { IfOk result (λ placing. IsPlacing traces.now placing) }
{
    let mut board = Board {
        order: Vec::new(alloc),
        positions: vec![in alloc; 0; traces.len()]?,
        sent: Sent::new(alloc),
    };
    settle(&mut board, traces)?;
    let Board {
        order,
        positions,
        sent: _,
    } = board;
    match first_left(positions.as_slice(), traces) {
        None => Ok(Placing::All(order)),
        Some(node) => Ok(Placing::Stuck {
            node: node as u8,
            index: positions[node],
        }),
    }
}

//! A recorded drill as far as it is read, line by line.

ghost use Rattle.std.specs.Prelude.{◌≡◌, ◌∷◌, ◌++◌, [], option_map, slice_get, IfOk, OnOk};
ghost use Rattle.drills.specs.Lines.{line_told, receipt_told};
ghost use Rattle.drills.specs.Drills.{IsPut, after_entry, after_head, after_line, after_list};
ghost use Rattle.drills.specs.Drills.{after_receipt, after_text, after_trace, at_start, begun};
ghost use Rattle.drills.specs.Drills.{behind, ends_at, lists_told, so_far_of, started};
ghost use Rattle.drills.specs.Drills.{traces_told};
ghost use Rattle.node_calls.specs.Told.{told};

use crate::drill::Drill;
use crate::line::{Line, line_in};
use node_calls::{Entry, Receipt};
use packed_trace::Trace;
use std::alloc::{AllocError, Global};

/// The part whose lines come next.
#[derive(Clone, Copy)]
pub enum Place {
    /// None: no part began.
    Nowhere,
    /// The trace of this node.
    InTrace(u64),
    /// The list of this number.
    InList(u64),
}

/// What is read so far of a drill: whether its parts may come in pieces, and the part whose lines
/// come next.
#[derive(Drop)]
pub struct SoFar {
    pub pieces: bool,
    pub drill: Drill,
    pub place: Place,
}

// Begins the next trace, where this is its number.
fn begin_trace(alloc: Global, traces: &mut Vec<Trace>, node: u64) -> Result<bool, AllocError>
    ensures { IfOk result (λ put.
        IsPut put (begun node (traces_told traces.old.items)) (traces_told traces.new.items)) }
{
    if node != traces.len() as u64 {
        return Ok(false);
    }
    traces.push(Trace::new(alloc))?;
    Ok(true)
}

// Begins the next list, where this is its number.
fn begin_list(alloc: Global, lists: &mut Vec<Vec<Receipt>>, number: u64) -> Result<bool, AllocError>
    ensures { IfOk result (λ put.
        IsPut put (begun number (lists_told lists.old.items)) (lists_told lists.new.items)) }
{
    if number != lists.len() as u64 {
        return Ok(false);
    }
    lists.push(Vec::new(alloc))?;
    Ok(true)
}

// Whether a node has a trace, of so many calls.
fn trace_ends_at(traces: &Vec<Trace>, node: u64, from: u64) -> bool
    ensures { result ≡ ends_at from (slice_get (traces_told traces.now.items) node) }
{
    match traces.get(node as usize) {
        Some(trace) => from == trace.len() as u64,
        None => false,
    }
}

// Whether there is a list of this number, of so many receipts.
fn list_ends_at(lists: &Vec<Vec<Receipt>>, number: u64, from: u64) -> bool
    ensures { result ≡ ends_at from (slice_get (lists_told lists.now.items) number) }
{
    match lists.get(number as usize) {
        Some(list) => from == list.len() as u64,
        None => false,
    }
}

// Begins a trace, or goes on with it from where its piece begins.
fn start_trace(
    alloc: Global,
    traces: &mut Vec<Trace>,
    pieces: bool,
    node: u64,
    from: Option<u64>,
) -> Result<bool, AllocError>
    ensures { IfOk result (λ put. IsPut put
        (started pieces node from (traces_told traces.old.items)) (traces_told traces.new.items)) }
{
    match from {
        None => begin_trace(alloc, traces, node),
        Some(from) if pieces && trace_ends_at(traces, node, from) => Ok(true),
        Some(0) if pieces => begin_trace(alloc, traces, node),
        Some(_) => Ok(false),
    }
}

// Begins a list, or goes on with it from where its piece begins.
fn start_list(
    alloc: Global,
    lists: &mut Vec<Vec<Receipt>>,
    pieces: bool,
    number: u64,
    from: Option<u64>,
) -> Result<bool, AllocError>
    ensures { IfOk result (λ put. IsPut put
        (started pieces number from (lists_told lists.old.items)) (lists_told lists.new.items)) }
{
    match from {
        None => begin_list(alloc, lists, number),
        Some(from) if pieces && list_ends_at(lists, number, from) => Ok(true),
        Some(0) if pieces => begin_list(alloc, lists, number),
        Some(_) => Ok(false),
    }
}

/// Puts an entry after the calls of a trace.
///
/// Errors: out of memory.
pub(crate) fn add_entry(trace: &mut Trace, entry: Entry) -> Result<(), AllocError>
    ensures { OnOk result (trace.new.calls ≡ trace.old.calls ++ told entry ∷ []) }
{
    if trace.reserve_entry().is_err() {
        drop(entry);
        return Err(AllocError);
    }
    trace.push_entry(entry);
    Ok(())
}

// Puts an entry behind the trace of a node, where there is one.
fn push_entry(traces: &mut Vec<Trace>, node: u64, entry: Entry) -> Result<bool, AllocError>
    ensures { IfOk result (λ put. IsPut put
        (behind node (told entry ∷ []) (traces_told traces.old.items))
        (traces_told traces.new.items)) }
{
    let Some(trace) = traces.get_mut(node as usize) else {
        drop(entry);
        return Ok(false);
    };
    add_entry(trace, entry)?;
    Ok(true)
}

// Puts a receipt behind a list, where there is one.
fn push_receipt(
    lists: &mut Vec<Vec<Receipt>>,
    number: u64,
    receipt: Receipt,
) -> Result<bool, AllocError>
    ensures { IfOk result (λ put. IsPut put
        (behind number (receipt_told receipt ∷ []) (lists_told lists.old.items))
        (lists_told lists.new.items)) }
{
    let Some(list) = lists.get_mut(number as usize) else {
        drop(receipt);
        return Ok(false);
    };
    list.push(receipt)?;
    Ok(true)
}

// Starts a piece of a trace.
fn put_trace(
    alloc: Global,
    so_far: &mut SoFar,
    node: u64,
    from: Option<u64>,
) -> Result<bool, AllocError>
    ensures { IfOk result (λ put. IsPut put
        (after_trace (so_far_of so_far.old) node from) (so_far_of so_far.new)) }
{
    // Without pieces the traces come before the lists.
    if !so_far.pieces && !so_far.drill.lists.is_empty() {
        return Ok(false);
    }
    so_far.place = Place::InTrace(node);
    start_trace(alloc, &mut so_far.drill.traces, so_far.pieces, node, from)
}

// Starts a piece of a list.
fn put_list(
    alloc: Global,
    so_far: &mut SoFar,
    number: u64,
    from: Option<u64>,
) -> Result<bool, AllocError>
    ensures { IfOk result (λ put. IsPut put
        (after_list (so_far_of so_far.old) number from) (so_far_of so_far.new)) }
{
    so_far.place = Place::InList(number);
    start_list(alloc, &mut so_far.drill.lists, so_far.pieces, number, from)
}

// Puts an entry behind the trace that goes on.
fn put_entry(so_far: &mut SoFar, entry: Entry) -> Result<bool, AllocError>
    ensures { IfOk result (λ put. IsPut put
        (after_entry (so_far_of so_far.old) (told entry) so_far.old.place)
        (so_far_of so_far.new)) }
{
    match so_far.place {
        Place::InTrace(node) => push_entry(&mut so_far.drill.traces, node, entry),
        Place::Nowhere | Place::InList(_) => {
            drop(entry);
            Ok(false)
        }
    }
}

// Puts a receipt behind the list that goes on.
fn put_receipt(so_far: &mut SoFar, receipt: Receipt) -> Result<bool, AllocError>
    ensures { IfOk result (λ put. IsPut put
        (after_receipt (so_far_of so_far.old) (receipt_told receipt) so_far.old.place)
        (so_far_of so_far.new)) }
{
    match so_far.place {
        Place::InList(number) => push_receipt(&mut so_far.drill.lists, number, receipt),
        Place::Nowhere | Place::InTrace(_) => {
            drop(receipt);
            Ok(false)
        }
    }
}

// Puts a line behind the first one.
fn put_line(alloc: Global, so_far: &mut SoFar, line: Line) -> Result<bool, AllocError>
    ensures { IfOk result (λ put. IsPut put
        (after_head (so_far_of so_far.old) (line_told line)) (so_far_of so_far.new)) }
{
    match line {
        Line::Head { .. } | Line::Part(_) => Ok(false),
        Line::Trace { node, from } => put_trace(alloc, so_far, node, from),
        Line::Entry(entry) => put_entry(so_far, entry),
        Line::List { number, from } => put_list(alloc, so_far, number, from),
        Line::Receipt(receipt) => put_receipt(so_far, receipt),
    }
}

// The drill with a line more, which isn't the first.
fn after_head(alloc: Global, mut so_far: SoFar, line: Line) -> Result<Option<SoFar>, AllocError>
    ensures { IfOk result (λ next. option_map so_far_of next
        ≡ after_head (so_far_of so_far) (line_told line)) }
{
    if put_line(alloc, &mut so_far, line)? {
        Ok(Some(so_far))
    } else {
        Ok(None)
    }
}

fn at_start(alloc: Global, line: Line) -> Option<SoFar>
    ensures { option_map so_far_of result ≡ at_start (line_told line) }
{
    match line {
        Line::Head { pieces } => Some(SoFar {
            pieces,
            drill: Drill {
                traces: Vec::new(alloc),
                lists: Vec::new(alloc),
            },
            place: Place::Nowhere,
        }),
        Line::Trace { .. }
        | Line::Entry(_)
        | Line::List { .. }
        | Line::Receipt(_)
        | Line::Part(_) => {
            drop(line);
            None
        }
    }
}

/// The drill with a line more, or with its first one, where it can be read and stands in its place.
pub(crate) fn after_text(
    alloc: Global,
    so_far: Option<SoFar>,
    bytes: &[u8],
) -> Result<Option<SoFar>, AllocError>
    ensures { IfOk result (λ next. option_map so_far_of next
        ≡ after_text (option_map so_far_of so_far) bytes.now) }
{
    let Some(line) = line_in(alloc, bytes)? else {
        return Ok(None);
    };
    match so_far {
        Some(so_far) => after_head(alloc, so_far, line),
        None => Ok(at_start(alloc, line)),
    }
}

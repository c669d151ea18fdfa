//! Whether the receipts are those of the traces.

ghost use Rattle.std.specs.Prelude.{◌≡◌, ℕ, ◌+◌, ◌<◌, ◌≤◌, ◌&&◌, ◌==◌, List, length, IfOk, IfSome};
ghost use Rattle.std.specs.Prelude.{IfNone, IsTrue, ◌↔◌, All, false, if◌then◌else◌, slice_index_or};
ghost use Rattle.std.specs.Bool.{OnTrue, OnFalse};
ghost use Rattle.audit.specs.Traces.{AreShort, trace_of};
ghost use Rattle.audit.specs.Receipts.{IsReceiptOf, AllMatch, given_count, given_all, times_seen};
ghost use Rattle.audit.specs.Receipts.{HasPlace, HasPlaces, HaveSamePlaces};
ghost use Rattle.audit.specs.Receipts.{IsLate, Ascends, AllAscend, IsFirstLate};
ghost use Rattle.audit.specs.Checked.{IsChecked};

use crate::told::{call_at, same_call};
use node_core::{Receipt, Trace};
use std::alloc::{AllocError, Global};

/// Why the receipts aren't those of the traces.
#[derive(Drop, Debug)]
pub(crate) enum ReceiptFault {
    Differs,
    Twice,
    Missing,
    OutOfMemory,
    OutOfOrder { list: usize, place: usize },
}

/// The places of the receipts seen so far: of each node's trace, which entries.
#[derive(Drop)]
pub(crate) struct Seen {
    rows: Vec<Vec<bool>>,
}

impl Seen {
    /// None of the places of these traces.
    pub(crate) fn new(alloc: Global, traces: &[Trace]) -> Result<Seen, AllocError>
        ensures none { IfOk result (λ seen. (n i : ℕ) → times_seen seen n i ≡ 0) }
        ensures places { IfOk result (λ seen. HasPlaces seen traces.now) }
    {
        let mut rows = Vec::new(alloc);
        for trace in traces {
            rows.push(vec![in alloc; false; trace.len()]?)?;
        }
        Ok(Seen { rows })
    }

    pub(crate) fn has(&self, node: u8, index: u32) -> bool
        ensures { times_seen self.now node index ≡ (if result then 1 else 0) }
    {
        let node = node as usize;
        if node >= self.rows.len() {
            return false;
        }
        is_marked(self.rows[node].as_slice(), index as usize)
    }

    /// Notes a receipt; whether it is the first of its place.
    pub(crate) fn note(&mut self, receipt: &Receipt) -> bool
        requires { HasPlace self.old receipt.now }
        ensures first { OnTrue result ((n i : ℕ) →
            times_seen self.new n i ≡ times_seen self.old n i
            + (if (receipt.now.node == n) && (receipt.now.index == i) then 1 else 0)) }
        ensures again { OnFalse result
            (times_seen self.old receipt.now.node receipt.now.index ≡ 1) }
        ensures places { HaveSamePlaces self.old self.new }
    {
        let row = &mut self.rows[receipt.node as usize];
        let index = receipt.index as usize;
        if row[index] {
            return false;
        }
        row[index] = true;
        true
    }
}

fn is_marked(row: &[bool], index: usize) -> bool
    ensures { result ≡ slice_index_or row.now index false }
{
    index < row.len() && row[index]
}

/// Whether a receipt holds the entry at its place.
fn is_receipt_of(traces: &[Trace], receipt: &Receipt) -> bool
    ensures { IsTrue result ↔ IsReceiptOf traces.now receipt.now }
{
    let node = receipt.node as usize;
    if node >= traces.len() {
        return false;
    }
    let trace = &traces[node];
    match call_at(trace, receipt.index) {
        None => false,
        Some(call) => same_call(call, &receipt.entry),
    }
}

/// Whether each receipt of a list holds the entry at its place.
fn list_matches(traces: &[Trace], receipts: &[Receipt]) -> bool
    ensures { IsTrue result ↔ All (IsReceiptOf traces.now) receipts.now }
{
    receipts
        .iter()
        .all(|receipt| is_receipt_of(traces, receipt))
}

/// Whether each receipt holds the entry at its place.
fn all_match(traces: &[Trace], lists: &[Vec<Receipt>]) -> bool
    ensures { IsTrue result ↔ AllMatch traces.now lists.now }
{
    for list in lists {
        if !list_matches(traces, list.as_slice()) {
            return false;
        }
    }
    true
}

/// Notes a list of receipts; false where a place comes again.
fn note_list(seen: &mut Seen, receipts: &[Receipt]) -> bool
    requires { All (HasPlace seen.old) receipts.now }
    ensures once { OnTrue result ((n i : ℕ) →
        times_seen seen.new n i ≡ times_seen seen.old n i + given_count n i receipts.now) }
    ensures twice { OnFalse result ((n : ℕ) × (i : ℕ)
        × (2 ≤ times_seen seen.old n i + given_count n i receipts.now)) }
    ensures places { HaveSamePlaces seen.old seen.new }
{
    for receipt in receipts {
        if !seen.note(receipt) {
            return false;
        }
    }
    true
}

/// Notes all receipts, each of which is of a place; `None` where a place comes again.
fn note_all(
    alloc: Global,
    traces: &[Trace],
    lists: &[Vec<Receipt>],
) -> Result<Option<Seen>, AllocError>
    requires { AllMatch traces.now lists.now }
    ensures once { IfOk result (λ seen. IfSome seen (λ seen. (n i : ℕ) →
        times_seen seen n i ≡ given_all n i lists.now)) }
    ensures twice { IfOk result (λ seen. IfNone seen
        ((n : ℕ) × (i : ℕ) × (2 ≤ given_all n i lists.now))) }
{
    let mut seen = Seen::new(alloc, traces)?;
    for list in lists {
        if !note_list(&mut seen, list.as_slice()) {
            return Ok(None);
        }
    }
    Ok(Some(seen))
}

/// Whether a node's receipts were all seen.
fn node_present(seen: &Seen, node: u8, len: u32) -> bool
    ensures all { OnTrue result ((i : ℕ) → i < len → times_seen seen.now node i ≡ 1) }
    ensures missing { OnFalse result ((i : ℕ) × (i < len) × (times_seen seen.now node i ≡ 0)) }
{
    for index in 0..len {
        if !seen.has(node, index) {
            return false;
        }
    }
    true
}

/// Whether each entry's receipt was seen.
fn all_present(seen: &Seen, traces: &[Trace]) -> bool
    requires few { length traces.now ≤ 256 }
    requires short { AreShort traces.now }
    ensures all { OnTrue result ((n i : ℕ) → n < length traces.now
        → i < length (trace_of traces.now n) → times_seen seen.now n i ≡ 1) }
    ensures missing { OnFalse result ((n : ℕ) × (i : ℕ)
        × (i < length (trace_of traces.now n)) × (times_seen seen.now n i ≡ 0)) }
{
    for node in 0..traces.len() {
        let trace = &traces[node];
        if !node_present(seen, node as u8, trace.len() as u32) {
            return false;
        }
    }
    true
}

/// The first place of a list that isn't above an earlier one of its node.
fn first_late(receipts: &[Receipt]) -> Option<usize>
    ensures late { IfSome result (λ p. IsLate receipts.now p) }
    ensures least { IfSome result (λ p. (k : ℕ) → k < p → IsLate receipts.now k → ⊥) }
    ensures none { IfNone result (Ascends receipts.now) }
{
    let mut next = [0u128; 256];
    for (place, receipt) in receipts.iter().enumerate() {
        let node = receipt.node as usize;
        let index = receipt.index as u128;
        if index < next[node] {
            return Some(place);
        }
        next[node] = index + 1;
    }
    None
}

/// The first list with such a place, and the place.
fn first_list_late(lists: &[Vec<Receipt>]) -> Option<(usize, usize)>
    ensures late { IfSome result (λ at. IsFirstLate lists.now at.0 at.1) }
    ensures none { IfNone result (AllAscend lists.now) }
{
    for (list, receipts) in lists.iter().enumerate() {
        if let Some(place) = first_late(receipts.as_slice()) {
            return Some((list, place));
        }
    }
    None
}

/// Whether the receipts are the entries of the traces, each once and none missing, in the order of each list.
pub(crate) fn check_receipts(
    alloc: Global,
    traces: &[Trace],
    lists: &[Vec<Receipt>],
) -> Result<(), ReceiptFault>
    requires few { length traces.now ≤ 256 }
    requires short { AreShort traces.now }
    ensures { IsChecked traces.now lists.now result }
{
    if !all_match(traces, lists) {
        return Err(ReceiptFault::Differs);
    }
    let noted = match note_all(alloc, traces, lists) {
        Ok(noted) => noted,
        Err(_) => return Err(ReceiptFault::OutOfMemory),
    };
    let Some(seen) = noted else {
        return Err(ReceiptFault::Twice);
    };
    if !all_present(&seen, traces) {
        return Err(ReceiptFault::Missing);
    }
    match first_list_late(lists) {
        Some((list, place)) => Err(ReceiptFault::OutOfOrder { list, place }),
        None => Ok(()),
    }
}

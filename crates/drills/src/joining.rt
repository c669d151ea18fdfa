//! Parts to a drill.

ghost use Rattle.std.specs.Prelude.{◌≡◌, ◌≢◌, ℕ, ◌∷◌, ◌++◌, [], map, option_map, unwrap_or, IfErr};
ghost use Rattle.std.specs.Prelude.{IfOk, OnOk, Ok, Err};
ghost use Rattle.node_calls.specs.Told.{Told};
ghost use Rattle.drills.specs.declared.join_fault.JoinFault.TheVariants.{OutOfMemory};
ghost use Rattle.packed_trace.specs.Packed.{seen_told};
ghost use Rattle.drills.specs.Drills.{drill_of, lists_told, traces_told};
ghost use Rattle.drills.specs.Lines.{head_told, receipt_told};
ghost use Rattle.drills.specs.Parts.{part_of};
ghost use Rattle.drills.specs.Joined.{drill_of_traces, first_other, is_beside, is_doubled};
ghost use Rattle.drills.specs.Joined.{is_missing, joined_of, least, nodes_of, parts_of};
ghost use Rattle.drills.specs.Joined.{receipt_at, receipts_from, refusal_of, trace_of, traces_below};
ghost use Rattle.drills.specs.Places.{place_from};

use crate::drill::Drill;
use crate::join_fault::JoinFault;
use crate::part::{Part, PartHead};
use node_calls::Receipt;
use packed_trace::{Seen, Trace};
use std::alloc::{AllocError, Global};

fn is_beside(first: &PartHead, head: &PartHead) -> bool
    ensures { result ≡ is_beside (head_told first.now) (head_told head.now) }
{
    head.nodes == first.nodes && head.run.as_str() == first.run.as_str() && head.node < first.nodes
}

// The first part that is of another drill, by its place, counted from 1.
fn first_other(first: &PartHead, parts: &[Part]) -> Option<u64>
    ensures { result ≡ first_other (head_told first.now) 1 (map part_of parts.now) }
{
    for index in 0..parts.len() {
        if !is_beside(first, &parts[index].head) {
            return Some((index + 1) as u64);
        }
    }
    None
}

// How many parts are of a node.
fn parts_of(parts: &[Part], node: u8) -> usize
    ensures { result ≡ parts_of node (map part_of parts.now) }
{
    let mut count = 0;
    for part in parts {
        if part.head.node == node {
            count += 1;
        }
    }
    count
}

// The least of so many nodes that has two parts.
fn same_part(parts: &[Part], nodes: u8) -> Option<u8>
    ensures { result ≡ least (is_doubled (map part_of parts.now)) nodes }
{
    for node in 0..nodes {
        if 1 < parts_of(parts, node) {
            return Some(node);
        }
    }
    None
}

// The least of so many nodes that has no part.
fn no_part(parts: &[Part], nodes: u8) -> Option<u8>
    ensures { result ≡ least (is_missing (map part_of parts.now)) nodes }
{
    for node in 0..nodes {
        if parts_of(parts, node) == 0 {
            return Some(node);
        }
    }
    None
}

fn refusal(first: &PartHead, parts: &[Part]) -> Option<JoinFault>
    ensures { result ≡ refusal_of (head_told first.now) (map part_of parts.now) }
{
    if let Some(file) = first_other(first, parts) {
        return Some(JoinFault::OtherDrill { file });
    }
    if let Some(node) = same_part(parts, first.nodes) {
        return Some(JoinFault::SamePart { node });
    }
    let node = no_part(parts, first.nodes)?;
    Some(JoinFault::NoPart { node })
}

// Of how many nodes parts are, where they join.
fn nodes_of(parts: &[Part]) -> Result<u8, JoinFault>
    ensures { result ≡ nodes_of (map part_of parts.now) }
{
    let Some(first) = parts.first() else {
        return Err(JoinFault::NoPart { node: 0 });
    };
    match refusal(&first.head, parts) {
        Some(fault) => Err(fault),
        None => Ok(first.head.nodes),
    }
}

// The index of the first part of a node.
fn place_of(parts: &[Part], node: u8) -> Option<usize>
    ensures { result ≡ place_from node 0 (map part_of parts.now) }
{
    for index in 0..parts.len() {
        if parts[index].head.node == node {
            return Some(index);
        }
    }
    None
}

// Takes the trace of a node out of the parts. Those of the others stay.
fn take_trace(alloc: Global, parts: &mut Vec<Part>, node: u8) -> Trace
    ensures taken { result.calls ≡ trace_of node (map part_of parts.old.items) }
    ensures others { (other : ℕ) → other ≢ node
        → trace_of other (map part_of parts.new.items)
        ≡ trace_of other (map part_of parts.old.items) }
{
    match place_of(parts, node) {
        Some(index) => parts.remove(index).trace,
        None => Trace::new(alloc),
    }
}

// Puts a receipt of a call behind those of the calls before it.
fn push_receipt(
    list: &mut Vec<Receipt>,
    alloc: Global,
    node: u8,
    index: usize,
    call: Seen<'_>,
) -> Result<(), AllocError>
    ensures { OnOk result (map receipt_told list.new.items ≡ map receipt_told list.old.items
        ++ receipt_at node index (seen_told call.entry) ∷ []) }
{
    let entry = call.to_entry(alloc)?;
    list.push(Receipt {
        node,
        index: index as u64,
        entry,
    })?;
    Ok(())
}

// A receipt of each call of a node's trace.
fn receipts_of(alloc: Global, node: u8, trace: &Trace) -> Result<Vec<Receipt>, AllocError>
    ensures { IfOk result (λ list. map receipt_told list.items
        ≡ receipts_from node 0 trace.now.calls) }
{
    let mut list = Vec::new(alloc);
    for index in 0..trace.len() {
        if let Some(call) = trace.at(index) {
            push_receipt(&mut list, alloc, node, index, call)?;
        }
    }
    Ok(list)
}

// Takes the trace of a node out of the parts, and puts it behind those of a drill, with a list of its
// receipts.
fn add_node(
    drill: &mut Drill,
    alloc: Global,
    parts: &mut Vec<Part>,
    node: u8,
) -> Result<(), AllocError>
    ensures traces { OnOk result (traces_told drill.new.traces.items
        ≡ traces_told drill.old.traces.items ++ trace_of node (map part_of parts.old.items) ∷ []) }
    ensures lists { OnOk result (lists_told drill.new.lists.items
        ≡ lists_told drill.old.lists.items
        ++ receipts_from node 0 (trace_of node (map part_of parts.old.items)) ∷ []) }
    ensures others { OnOk result ((other : ℕ) → other ≢ node
        → trace_of other (map part_of parts.new.items)
        ≡ trace_of other (map part_of parts.old.items)) }
{
    let trace = take_trace(alloc, parts, node);
    drill.lists.push(receipts_of(alloc, node, &trace)?)?;
    drill.traces.push(trace)?;
    Ok(())
}

// The traces of so many nodes, in their order, with a list of receipts for each.
fn drill_in_order(alloc: Global, mut parts: Vec<Part>, nodes: u8) -> Result<Drill, AllocError>
    ensures { IfOk result (λ drill. drill_of drill
        ≡ drill_of_traces (traces_below nodes (map part_of parts.items))) }
{
    let mut drill = Drill {
        traces: Vec::new(alloc),
        lists: Vec::new(alloc),
    };
    for node in 0..nodes {
        add_node(&mut drill, alloc, &mut parts, node)?;
    }
    Ok(drill)
}

/// Joins parts to the drill that they are of: the traces in the order of their nodes, and for each node
/// a list of receipts, which are its calls with their places, counted from 0. Caps may differ.
///
/// Refused are, in this order: the first part of another number of nodes or of another run than the
/// first one, or of no node of it, as `OtherDrill`; the least node of which there are two parts, as
/// `SamePart`; and the least of which there is none, as `NoPart`, where no part at all is none of node
/// 0. The only other error is out of memory.
pub fn joined(alloc: Global, parts: Vec<Part>) -> Result<Drill, JoinFault>
    ensures ok { IfOk result (λ drill.
        joined_of (map part_of parts.items) ≡ Ok (drill_of drill)) }
    ensures err { IfErr result (λ fault. fault ≢ OutOfMemory
        → joined_of (map part_of parts.items) ≡ Err fault) }
{
    let nodes = match nodes_of(&parts) {
        Ok(nodes) => nodes,
        Err(fault) => return Err(fault),
    };
    Ok(drill_in_order(alloc, parts, nodes)?)
}

//! Calls that nodes make before their workers and that weren't accepted, as the receipts tell.

ghost use Rattle.std.specs.Prelude.{◌≡◌, ◌++◌, map, OnOk};
ghost use Rattle.node_calls.specs.Told.{ask_ref_told};
ghost use Rattle.thread_plans.specs.Lines.{start_value};
ghost use Rattle.thread_plans.specs.Plans.{plan_value, start_line_value};
ghost use Rattle.thread_warnings.specs.ShortStarts.{counted_in, counted_starts, is_counted};
ghost use Rattle.thread_warnings.specs.ShortStarts.{is_counted_start, is_shift, is_spread, node_short};
ghost use Rattle.thread_warnings.specs.ShortStarts.{spreads_at, start_calls, start_receipts, start_said};
ghost use Rattle.thread_warnings.specs.ShortStarts.{starts_lines};

use crate::short::first_place;
use node_calls::{AskRef, Receipt};
use std::alloc::{AllocError, Global};
use thread_plans::{Start, StartLine, ThreadPlan};
use warnings::Warnings;

fn is_spread(start: Start<'_>) -> bool
    ensures { result ≡ is_spread (start_value start.entry) }
{
    match start {
        Start::Call(_) => false,
        Start::Spread { .. } => true,
    }
}

// Whether a node spreads its rights.
fn spreads_at(plan: &ThreadPlan<'_>, node: u8) -> bool
    ensures { result ≡ spreads_at (plan_value plan.now) node }
{
    let spreads = plan
        .starts
        .iter()
        .filter(|line| line.node == node && is_spread(line.start))
        .count();
    spreads > 0
}

fn is_shift(call: AskRef<'_>) -> bool
    ensures { result ≡ is_shift (ask_ref_told call.entry) }
{
    match call {
        AskRef::Shift { .. } => true,
        AskRef::Set { .. }
        | AskRef::Remove { .. }
        | AskRef::Load { .. }
        | AskRef::Pass { .. }
        | AskRef::Grant { .. }
        | AskRef::Emit { .. }
        | AskRef::Deliver { .. } => false,
    }
}

// Whether a call counts: where a node spreads, shifts don't, since a spread makes some.
fn is_counted(spread: bool, call: AskRef<'_>) -> bool
    ensures { result ≡ is_counted spread (ask_ref_told call.entry) }
{
    !(spread && is_shift(call))
}

fn is_counted_start(spread: bool, start: Start<'_>) -> bool
    ensures { result ≡ is_counted_start spread (start_value start.entry) }
{
    match start {
        Start::Call(call) => is_counted(spread, call),
        Start::Spread { .. } => false,
    }
}

// The calls of a node before its workers that count.
fn counted_starts(starts: &[StartLine<'_>], spread: bool, node: u8) -> usize
    ensures { result ≡ counted_starts spread node (map start_line_value starts.now) }
{
    starts
        .iter()
        .filter(|line| line.node == node && is_counted_start(spread, line.start))
        .count()
}

fn start_calls(plan: &ThreadPlan<'_>, node: u8) -> u64
    ensures { result ≡ start_calls (plan_value plan.now) node }
{
    counted_starts(&plan.starts, spreads_at(plan, node), node) as u64
}

fn counted_in(spread: bool, receipts: &[Receipt]) -> u64
    ensures { result ≡ counted_in spread receipts.now }
{
    let counted = receipts
        .iter()
        .filter(|receipt| is_counted(spread, receipt.entry.ask.as_ref()))
        .count();
    counted as u64
}

fn start_receipts(plan: &ThreadPlan<'_>, lists: &[Vec<Receipt>], node: u8) -> u64
    ensures { result ≡ start_receipts (plan_value plan.now) lists.now node }
{
    match lists.get(first_place(plan, node) as usize) {
        Some(list) => counted_in(spreads_at(plan, node), list),
        None => 0,
    }
}

fn say_node(alloc: Global, node: u8, short: u64, said: &mut Warnings) -> Result<(), AllocError>
    ensures { OnOk result (said.new ≡ said.old ++ node_short node short) }
{
    said.push_text(format!(in alloc; "node {node}: start calls not accepted: {short}")?)
}

// Says of a node that calls weren't accepted, where there are fewer receipts.
fn say_start(
    alloc: Global,
    node: u8,
    calls: u64,
    receipts: u64,
    said: &mut Warnings,
) -> Result<(), AllocError>
    ensures { OnOk result (said.new ≡ said.old ++ start_said node calls receipts) }
{
    if receipts < calls {
        say_node(alloc, node, calls - receipts, said)
    } else {
        Ok(())
    }
}

/// Says of each node of a plan how many of the calls that it makes before its workers weren't accepted,
/// if any. Where it spreads its rights, its shifts don't count.
pub(crate) fn say_starts(
    alloc: Global,
    plan: &ThreadPlan<'_>,
    lists: &[Vec<Receipt>],
    said: &mut Warnings,
) -> Result<(), AllocError>
    ensures { OnOk result (said.new
        ≡ said.old ++ starts_lines (plan_value plan.now) lists.now) }
{
    for node in 0..plan.size.nodes {
        let calls = start_calls(plan, node);
        let receipts = start_receipts(plan, lists, node);
        say_start(alloc, node, calls, receipts, said)?;
    }
    Ok(())
}

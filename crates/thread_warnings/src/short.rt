//! Calls of workers that weren't accepted, as the receipts tell.

ghost use Rattle.std.specs.Prelude.{◌≡◌, ◌==◌, ◌+◌, ◌++◌, ◌<◌, ◌≤◌, count_by, length, map, nat_lt, take};
ghost use Rattle.std.specs.Prelude.{OnOk};
ghost use Rattle.thread_plans.specs.Plans.{block_value, plan_value};
ghost use Rattle.thread_warnings.specs.Short.{first_place, is_named, line_short, lists_beside, number_at};
ghost use Rattle.thread_warnings.specs.Short.{receipts_at, short_of, short_said, short_sum, shorts_lines};
ghost use Rattle.thread_warnings.specs.Short.{worker_place};

use node_calls::Receipt;
use std::alloc::{AllocError, Global};
use thread_plans::{Block, MOST_NAMED, ThreadPlan, blocks_at, say_count};
use warnings::Warnings;

fn blocks_below(blocks: &[Block<'_>], node: u8) -> usize
    ensures { result ≡ count_by (λ b. nat_lt b.node node) blocks.now }
{
    blocks.iter().filter(|block| block.node < node).count()
}

// How many lists a node has beside those of its workers.
fn lists_beside(plan: &ThreadPlan<'_>) -> u64
    ensures value { result ≡ lists_beside (plan_value plan.now) }
    ensures few { result ≤ 2 }
{
    if plan.gossip.is_some() { 2 } else { 1 }
}

/// The place of a node's first list: of the calls before its workers.
pub(crate) fn first_place(plan: &ThreadPlan<'_>, node: u8) -> u64
    ensures value { result ≡ first_place (plan_value plan.now) node }
    ensures bound { result ≤ 512 + length plan.now.blocks.items }
{
    u64::from(node) * lists_beside(plan) + blocks_below(&plan.blocks, node) as u64
}

// Of so many blocks, how many are a node's.
fn blocks_before(blocks: &[Block<'_>], before: usize, node: u8) -> usize
    requires { before ≤ length blocks.now }
    ensures value { result
        ≡ count_by (λ b. b.node == node) (map block_value (take before blocks.now)) }
    ensures bound { result ≤ length blocks.now }
{
    blocks_at(&blocks[..before], node)
}

// The place of the list of a worker, before whose block so many blocks stand.
fn worker_place(plan: &ThreadPlan<'_>, before: usize, node: u8) -> u64
    requires { before ≤ length plan.now.blocks.items }
    ensures { result ≡ worker_place (plan_value plan.now) before node }
{
    first_place(plan, node) + 1 + blocks_before(&plan.blocks, before, node) as u64
}

// How many receipts the list at a place has.
fn receipts_at(lists: &[Vec<Receipt>], place: u64) -> u64
    ensures { result ≡ receipts_at lists.now place }
{
    match lists.get(place as usize) {
        Some(list) => list.len() as u64,
        None => 0,
    }
}

// How many calls of a worker weren't accepted.
fn short_of(plan: &ThreadPlan<'_>, lists: &[Vec<Receipt>], before: usize, block: &Block<'_>) -> u64
    requires { before ≤ length plan.now.blocks.items }
    ensures { result ≡ short_of (plan_value plan.now) lists.now before (block_value block.now) }
{
    let place = worker_place(plan, before, block.node);
    u64::from(block.calls).saturating_sub(receipts_at(lists, place))
}

fn number_at(numbers: &[u32], place: usize) -> u32
    ensures { result ≡ number_at numbers.now place }
{
    match numbers.get(place) {
        Some(number) => *number,
        None => 0,
    }
}

// A worker is named where calls weren't accepted, unless many are named already.
fn is_named(named: usize, short: u64) -> bool
    ensures { result ≡ is_named named short }
{
    short > 0 && named < MOST_NAMED as usize
}

fn say_line(alloc: Global, number: u32, short: u64, said: &mut Warnings) -> Result<(), AllocError>
    ensures { OnOk result (said.new ≡ said.old ++ line_short number short) }
{
    said.push_text(format!(in alloc; "line {number}: calls not accepted: {short}")?)
}

// Says how many calls of a worker weren't accepted, where it is named.
fn say_short(
    alloc: Global,
    named: usize,
    number: u32,
    short: u64,
    said: &mut Warnings,
) -> Result<(), AllocError>
    ensures { OnOk result (said.new ≡ said.old ++ short_said named number short) }
{
    if is_named(named, short) {
        say_line(alloc, number, short, said)
    } else {
        Ok(())
    }
}

// Says how many workers have such calls, where not all were named.
fn say_sum(alloc: Global, named: usize, said: &mut Warnings) -> Result<(), AllocError>
    ensures { OnOk result (said.new ≡ said.old ++ short_sum named) }
{
    if named <= MOST_NAMED as usize {
        return Ok(());
    }
    say_count(alloc, "workers with such calls: ", named as u128, said)
}

/// Says of each worker of a plan how many of its calls weren't accepted, if any, by the number of the
/// line that it begins in: of 20 workers at most, and then how many they are.
pub(crate) fn say_shorts(
    alloc: Global,
    plan: &ThreadPlan<'_>,
    lists: &[Vec<Receipt>],
    numbers: &[u32],
    said: &mut Warnings,
) -> Result<(), AllocError>
    ensures { OnOk result (said.new ≡ said.old
        ++ shorts_lines (plan_value plan.now) lists.now numbers.now) }
{
    let mut before = 0usize;
    let mut named = 0usize;
    for block in &plan.blocks {
        let short = short_of(plan, lists, before, block);
        say_short(alloc, named, number_at(numbers, before), short, said)?;
        named += usize::from(short > 0);
        before += 1;
    }
    say_sum(alloc, named, said)
}

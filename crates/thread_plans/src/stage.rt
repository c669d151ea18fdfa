//! How far a script of threads was read.

ghost use Rattle.std.specs.Prelude.{◌≡◌, ◌<◌, ◌≤◌, ◌==◌, ◌++◌, ◌∷◌, [], count_by, option_map, true, IfOk};
ghost use Rattle.message_format.specs.Limits.{max_nodes};
ghost use Rattle.node_calls.specs.Told.{ask_ref_told};
ghost use Rattle.thread_plans.specs.Lines.{gossip_line, line_value, start_line, start_value};
ghost use Rattle.thread_plans.specs.Plans.{add_calls, after_empty, after_line, after_sized};
ghost use Rattle.thread_plans.specs.Plans.{after_started, after_text, after_working, begin_block};
ghost use Rattle.thread_plans.specs.Plans.{block_value, plan_value, stage_value, whole_plan};
ghost use Rattle.thread_plans.specs.Plans.{with_block};

use crate::line::{Line, Start, read_line};
use crate::plan::{Block, CallLine, RoundKind, Rounds, Size, StartLine, ThreadPlan, Working};
use message_format::MAX_NODES;
use node_calls::AskRef;
use std::alloc::{AllocError, Global};
use streams::is_skipped;

/// The most blocks of a node.
const MOST_BLOCKS: usize = 250;

/// How far a script was read.
#[derive(Drop)]
pub enum Stage<'a> {
    /// Nothing was said yet.
    Empty,
    /// The nodes are known.
    Sized(Size),
    /// The seed is known too, and there is no block yet.
    Started(ThreadPlan<'a>),
    /// There is a block.
    Working(Working<'a>),
}

/// The blocks of a node.
pub fn blocks_at(blocks: &[Block<'_>], node: u8) -> usize
    ensures { result ≡ count_by (λ b. b.node == node) blocks.now }
{
    blocks.iter().filter(|block| block.node == node).count()
}

// A new block, where the node is there and has room for one.
fn begin_block<'a>(alloc: Global, plan: ThreadPlan<'a>, node: u8) -> Option<Stage<'a>>
    ensures { option_map stage_value result ≡ begin_block (plan_value plan.entry) node }
{
    if node >= plan.size.nodes || blocks_at(&plan.blocks, node) >= MOST_BLOCKS {
        return None;
    }
    let last = Block {
        node,
        lines: Vec::new(alloc),
        calls: 0,
    };
    Some(Stage::Working(Working { plan, last }))
}

// The plan with its last block.
fn with_block(working: Working<'_>) -> Result<ThreadPlan<'_>, AllocError>
    ensures { IfOk result (λ plan.
        plan_value plan ≡ with_block (plan_value working.entry.plan) (block_value working.entry.last)) }
{
    let Working { mut plan, last } = working;
    plan.blocks.push(last)?;
    Ok(plan)
}

// The calls behind those of the last block, where these aren't too many.
fn add_calls<'a>(
    working: Working<'a>,
    call: AskRef<'a>,
    times: u16,
) -> Result<Option<Stage<'a>>, AllocError>
    ensures { IfOk result (λ stage. option_map stage_value stage
        ≡ add_calls (plan_value working.entry.plan) (block_value working.entry.last) (ask_ref_told call.entry) times) }
{
    let Working { plan, last } = working;
    let Block {
        node,
        mut lines,
        calls,
    } = last;
    let Some(calls) = calls.checked_add(u32::from(times)) else {
        return Ok(None);
    };
    lines.push(CallLine { call, times })?;
    let last = Block { node, lines, calls };
    Ok(Some(Stage::Working(Working { plan, last })))
}

fn after_empty(line: Line<'_>) -> Option<Stage<'_>>
    ensures { option_map stage_value result ≡ after_empty (line_value line.entry) }
{
    match line {
        Line::Nodes { count, trace_cap } if 1 <= count && count <= MAX_NODES => Some(Stage::Sized(
            Size {
                nodes: count,
                trace_cap,
            },
        )),
        Line::Nodes { .. }
        | Line::Seed(_)
        | Line::Start { .. }
        | Line::Gossip { .. }
        | Line::Worker { .. }
        | Line::Calls { .. } => None,
    }
}

fn after_sized(alloc: Global, size: Size, line: Line<'_>) -> Option<Stage<'_>>
    ensures { option_map stage_value result
        ≡ after_sized size.nodes size.trace_cap (line_value line.entry) }
{
    match line {
        Line::Seed(seed) => Some(Stage::Started(ThreadPlan {
            size,
            seed,
            starts: Vec::new(alloc),
            gossip: None,
            blocks: Vec::new(alloc),
        })),
        Line::Nodes { .. }
        | Line::Start { .. }
        | Line::Gossip { .. }
        | Line::Worker { .. }
        | Line::Calls { .. } => None,
    }
}

// What a node does before the workers, where the node is there and no gossip was told.
fn add_start<'a>(
    mut plan: ThreadPlan<'a>,
    node: u8,
    start: Start<'a>,
) -> Result<Option<Stage<'a>>, AllocError>
    ensures { IfOk result (λ stage. option_map stage_value stage
        ≡ after_started (plan_value plan.entry) (start_line node (start_value start.entry))) }
{
    if node >= plan.size.nodes || plan.gossip.is_some() {
        return Ok(None);
    }
    plan.starts.push(StartLine { node, start })?;
    Ok(Some(Stage::Started(plan)))
}

// The rounds of gossip, where none were told.
fn set_gossip(mut plan: ThreadPlan<'_>, rounds: u32) -> Option<Stage<'_>>
    ensures { option_map stage_value result
        ≡ after_started (plan_value plan.entry) (gossip_line rounds) }
{
    if plan.gossip.is_some() {
        return None;
    }
    plan.gossip = Some(Rounds {
        count: rounds,
        kind: RoundKind::Telling,
    });
    Some(Stage::Started(plan))
}

fn after_started<'a>(
    alloc: Global,
    plan: ThreadPlan<'a>,
    line: Line<'a>,
) -> Result<Option<Stage<'a>>, AllocError>
    ensures { IfOk result (λ stage. option_map stage_value stage
        ≡ after_started (plan_value plan.entry) (line_value line.entry)) }
{
    match line {
        Line::Start { node, start } => add_start(plan, node, start),
        Line::Gossip { rounds } => Ok(set_gossip(plan, rounds)),
        Line::Worker { node } => Ok(begin_block(alloc, plan, node)),
        Line::Nodes { .. } | Line::Seed(_) | Line::Calls { .. } => Ok(None),
    }
}

fn after_working<'a>(
    alloc: Global,
    working: Working<'a>,
    line: Line<'a>,
) -> Result<Option<Stage<'a>>, AllocError>
    ensures { IfOk result (λ stage. option_map stage_value stage
        ≡ after_working (plan_value working.entry.plan) (block_value working.entry.last) (line_value line.entry)) }
{
    match line {
        Line::Worker { node } => Ok(begin_block(alloc, with_block(working)?, node)),
        Line::Calls { call, times } => add_calls(working, call, times),
        Line::Nodes { .. } | Line::Seed(_) | Line::Start { .. } | Line::Gossip { .. } => Ok(None),
    }
}

fn after_line<'a>(
    alloc: Global,
    stage: Stage<'a>,
    line: Line<'a>,
) -> Result<Option<Stage<'a>>, AllocError>
    ensures { IfOk result (λ next. option_map stage_value next
        ≡ after_line (stage_value stage.entry) (line_value line.entry)) }
{
    match stage {
        Stage::Empty => Ok(after_empty(line)),
        Stage::Sized(size) => Ok(after_sized(alloc, size, line)),
        Stage::Started(plan) => after_started(alloc, plan, line),
        Stage::Working(working) => after_working(alloc, working, line),
    }
}

/// How far the script was read with a line more, where the line is one of a script and stands in its
/// place.
pub fn after_text<'a>(
    alloc: Global,
    stage: Stage<'a>,
    line: &'a [u8],
) -> Result<Option<Stage<'a>>, AllocError>
    ensures { IfOk result (λ next. option_map stage_value next
        ≡ after_text (stage_value stage.entry) line.now) }
{
    if is_skipped(line) {
        return Ok(Some(stage));
    }
    match read_line(line) {
        Some(line) => after_line(alloc, stage, line),
        None => Ok(None),
    }
}

/// The plan, where the seed was read.
pub fn whole_plan(stage: Stage<'_>) -> Result<Option<ThreadPlan<'_>>, AllocError>
    ensures { IfOk result (λ plan. option_map plan_value plan ≡ whole_plan (stage_value stage.entry)) }
{
    match stage {
        Stage::Empty | Stage::Sized(_) => Ok(None),
        Stage::Started(plan) => Ok(Some(plan)),
        Stage::Working(working) => Ok(Some(with_block(working)?)),
    }
}

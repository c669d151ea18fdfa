//! What workers ask.

ghost use Rattle.std.specs.Prelude.{◌≡◌, ◌+◌, ◌++◌, ◌∷◌, [], ◌<◌, ◌≤◌, ◌^◌, ◌==◌, cond};
ghost use Rattle.std.specs.Prelude.{count_by, map, vec_len, All, IfOk, OnOk};
ghost use Rattle.std.specs.List.{filter};
ghost use Rattle.node_calls.specs.Told.{ask_told};
ghost use Rattle.node_registry.specs.Seats.{new_seat};
ghost use Rattle.thread_plans.specs.Plans.{block_value, call_line_value};
ghost use Rattle.thread_workers.specs.Asks.{asks_of_block, asks_of_line};

use node_core::Ask;
use node_registry::{Job, Label, Registry, Seat};
use std::alloc::{AllocError, Global};
use thread_plans::{Block, CallLine};

// What a line asks, so many times.
fn push_asks(alloc: Global, line: &CallLine<'_>, asks: &mut Vec<Ask>) -> Result<(), AllocError>
    ensures len { OnOk result (vec_len asks.new ≡ vec_len asks.old + line.now.times) }
    ensures told { OnOk result (map ask_told asks.new.items
        ≡ map ask_told asks.old.items ++ asks_of_line (call_line_value line.now)) }
{
    for _time in 0..line.times {
        asks.push(line.call.copied(alloc)?)?;
    }
    Ok(())
}

// What a block asks, each line as often as it says.
fn asks_of(alloc: Global, block: &Block<'_>) -> Result<Vec<Ask>, AllocError>
    ensures all { IfOk result (λ asks. vec_len asks ≡ block.now.calls) }
    ensures few { IfOk result (λ asks. vec_len asks < 2 ^ 32) }
    ensures told { IfOk result (λ asks.
        map ask_told asks.items ≡ asks_of_block (block_value block.now)) }
{
    let mut asks = Vec::with_capacity(alloc, block.calls as usize)?;
    for line in &block.lines {
        push_asks(alloc, line, &mut asks)?;
    }
    Ok(asks)
}

// Puts a job for a block, if it is the node's, with the last seat.
fn push_job<'a, L: Label>(
    alloc: Global,
    registry: &'a Registry<L>,
    block: &Block<'_>,
    node: u8,
    seats: &mut Vec<Seat<L>>,
    jobs: &mut Vec<Job<'a, L>>,
) -> Result<(), AllocError>
    requires room { cond (block.now.node == node) 1 0 ≤ vec_len seats.old }
    requires few { All (λ j. vec_len j.asks < 2 ^ 32) jobs.old.items }
    requires fresh { All (λ j. j.seat ≡ new_seat) jobs.old.items }
    requires fresh_seats { All (λ seat. seat ≡ new_seat) seats.old.items }
    ensures len { OnOk result
        (vec_len jobs.new ≡ vec_len jobs.old + cond (block.now.node == node) 1 0) }
    ensures seats { OnOk result
        (vec_len seats.new + cond (block.now.node == node) 1 0 ≡ vec_len seats.old) }
    ensures few { OnOk result (All (λ j. vec_len j.asks < 2 ^ 32) jobs.new.items) }
    ensures fresh { OnOk result (All (λ j. j.seat ≡ new_seat) jobs.new.items) }
    ensures fresh_seats { OnOk result (All (λ seat. seat ≡ new_seat) seats.new.items) }
    ensures asks { OnOk result (map (λ j. map ask_told j.asks.items) jobs.new.items
        ≡ map (λ j. map ask_told j.asks.items) jobs.old.items
        ++ cond (block.now.node == node) (asks_of_block (block_value block.now) ∷ []) []) }
{
    if block.node != node {
        return Ok(());
    }
    let Some(seat) = seats.pop() else {
        unreachable!();
    };
    let asks = asks_of(alloc, block)?;
    jobs.push(Job {
        registry,
        seat,
        asks,
    })?;
    Ok(())
}

/// A job for each block of a node, in their order, from as many seats.
pub(crate) fn jobs_of<'a, L: Label>(
    alloc: Global,
    registry: &'a Registry<L>,
    mut seats: Vec<Seat<L>>,
    blocks: &[Block<'_>],
    node: u8,
) -> Result<Vec<Job<'a, L>>, AllocError>
    requires each { vec_len seats ≡ count_by (λ b. b.node == node) blocks.now }
    requires fresh { All (λ seat. seat ≡ new_seat) seats.items }
    ensures len { IfOk result (λ jobs. vec_len jobs ≡ vec_len seats) }
    ensures few { IfOk result (λ jobs. All (λ j. vec_len j.asks < 2 ^ 32) jobs.items) }
    ensures fresh { IfOk result (λ jobs. All (λ j. j.seat ≡ new_seat) jobs.items) }
    ensures asks { IfOk result (λ jobs. map (λ j. map ask_told j.asks.items) jobs.items
        ≡ map asks_of_block (filter (λ b. b.node == node) (map block_value blocks.now))) }
{
    let mut jobs = Vec::new(alloc);
    for block in blocks {
        push_job(alloc, registry, block, node, &mut seats, &mut jobs)?;
    }
    Ok(jobs)
}

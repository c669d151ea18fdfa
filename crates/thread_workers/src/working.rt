//! The workers of a node, each in a thread of its own.

ghost use Rattle.std.specs.Prelude.{◌≡◌, ◌<◌, ◌≤◌, ◌^◌, ◌==◌, count_by, map, vec_len, All, IfOk};
ghost use Rattle.std.specs.List.{AllZip};
ghost use Rattle.node_calls.specs.Told.{ask_told};
ghost use Rattle.node_registry.specs.Receipts.{AreGivenSince};
ghost use Rattle.node_registry.specs.Seats.{new_seat};
ghost use Rattle.thread_plans.specs.Plans.{block_value};
ghost use Rattle.thread_workers.specs.Calls.{HandsBack};
ghost use Rattle.thread_workers.specs.Workers.{AreListsAt, AreOfWorkers, of_node};

use crate::asks::jobs_of;
use crate::finished::Finished;
use crate::looks::Looks;
use crate::refused::faults_of;
use crate::turns::Turns;
use crate::waiting::Waiting;
use node_core::NodeFault;
use node_registry::{Done, Job, Registry, Seat, run_workers};
use std::alloc::{AllocError, Global};
use std::sync::Wait;
use std::thread::Threads;
use thread_plans::Block;

// Makes the calls of workers, each in a thread of its own.
fn make_calls<L: Waiting + Send + Sync, R: Threads + Wait + Sync>(
    rt: &R,
    alloc: Global,
    registry: &Registry<L>,
    looks: &Looks<'_, L>,
    node: u8,
    jobs: Vec<Job<'_, L>>,
) -> Result<Vec<Done<L>>, AllocError>
    requires number { vec_len jobs ≤ 65536 }
    requires few { All (λ j. vec_len j.asks < 2 ^ 32) jobs.items }
    requires fresh { All (λ j. j.seat ≡ new_seat) jobs.items }
    ensures len { IfOk result (λ dones. vec_len dones ≡ vec_len jobs.entry) }
    ensures counted { IfOk result (λ dones.
        All (λ d. d.seat.calls ≡ vec_len d.receipts) dones.items) }
    ensures given { IfOk result (λ dones.
        All (λ d. AreGivenSince L.config L.seed new_seat d.receipts.items) dones.items) }
    ensures made { IfOk result (λ dones.
        AllZip (λ j d. HandsBack L.config L.seed (map ask_told j.asks.items) d)
        jobs.entry.items dones.items) }
{
    let turns = Turns {
        rt,
        registry,
        looks,
        node,
    };
    match run_workers(rt, alloc, jobs, &turns) {
        Ok(dones) => Ok(dones),
        Err(_) => Err(AllocError),
    }
}

/// Makes the calls of those of these blocks that are a node's, each block in a thread of its own that waits
/// before calls as `looks` says, from as many seats without a call; and keeps there what the node knew when a
/// wait ended. Answers these seats with a list for each block, in their order, and why calls of these
/// blocks were refused, in the order of the blocks and of the calls of each. Where memory is refused to one
/// of them, it is to all.
pub fn work<L: Waiting + Send + Sync, R: Threads + Wait + Sync>(
    rt: &R,
    alloc: Global,
    registry: &Registry<L>,
    looks: &Looks<'_, L>,
    blocks: &[Block<'_>],
    node: u8,
    seats: Vec<Seat<L>>,
) -> Result<(Finished<L>, Vec<NodeFault>), AllocError>
    requires number { vec_len seats ≤ 65536 }
    requires each { vec_len seats ≡ count_by (λ b. b.node == node) blocks.now }
    requires fresh { All (λ seat. seat ≡ new_seat) seats.items }
    ensures len { IfOk result (λ all. vec_len all.0.seats ≡ vec_len seats) }
    ensures given { IfOk result (λ all. AreListsAt L.config L.seed all.0.lists.items) }
    ensures calls { IfOk result (λ all. AreOfWorkers L.config L.seed
        (of_node node (map block_value blocks.now)) all.0.lists.items all.1.items) }
{
    let jobs = jobs_of(alloc, registry, seats, blocks, node)?;
    let dones = make_calls(rt, alloc, registry, looks, node, jobs)?;
    let faults = faults_of(alloc, &dones)?;
    Ok((Finished::new(alloc).with_workers(dones)?, faults))
}

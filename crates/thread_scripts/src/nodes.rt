//! The nodes of a run: each makes its own calls, and hears of others by gossip alone.

ghost use Rattle.std.specs.Prelude.{◌≡◌, ◌+◌, ◌<◌, ◌^◌, ◌==◌, cond, true, false, count_by, length, vec_len};
ghost use Rattle.std.specs.Prelude.{option_map, All, IfOk};
ghost use Rattle.std.specs.List.{sum_by};
ghost use Rattle.std.specs.Option.{is_some};
ghost use Rattle.node_steps.specs.Refusals.{is_bad_config};
ghost use Rattle.node_registry.specs.Seats.{new_seat};
ghost use Rattle.thread_plans.specs.Plans.{plan_value};
ghost use Rattle.thread_scripts.specs.Plays.{AreOfNode, AreOfWork, IsTraceOf};
ghost use Rattle.thread_workers.specs.Workers.{AreListsAt, of_node};

use crate::beside::{Both, Crew, Gossip, Gossiped, Gossiper, work_and_gossip};
use crate::starts::make_starts;
use node_core::{Config, NodeFault, Receipt, Trace};
use node_registry::{Closed, Label, Registry, Seat};
use std::alloc::{AllocError, Global};
use std::marker::Brand;
use std::sync::Wait;
use std::sync::ledger::Blank;
use std::thread::Threads;
use thread_plans::{ThreadPlan, blocks_at};
use thread_workers::{Finished, Looks, Waiting, Waits, work};

/// A node that is to run, with its gossip, if it does any.
#[derive(Drop)]
pub(crate) struct NodeJob {
    pub config: Config,
    pub gossip: Option<Gossip>,
    ghost good: { is_bad_config config ≡ false },
}

/// What a node's run came to: its trace; of each seat the receipts of its calls, in their order; why calls
/// before its workers were refused, each with the place of its line in the plan, and calls of its workers;
/// and the lines of its waits that were in vain.
#[derive(Drop)]
pub(crate) struct NodePlayed {
    pub trace: Trace,
    pub lists: Vec<Vec<Receipt>>,
    pub start_faults: Vec<(usize, NodeFault)>,
    pub faults: Vec<NodeFault>,
    pub vain: Vec<u32>,
    ghost counted: { length trace.calls ≡ sum_by (λ list. vec_len list) lists.items },
}

// Seats that are done, why calls of workers were refused, and the lines of waits that were in vain.
type Worked<L> = (Finished<L>, Vec<NodeFault>, Vec<u32>);

// The same, and why calls before the workers were refused.
#[derive(Drop)]
struct Made<L: Label> {
    finished: Finished<L>,
    start_faults: Vec<(usize, NodeFault)>,
    faults: Vec<NodeFault>,
    vain: Vec<u32>,
}

// The calls of a node's workers, and its gossip beside them, from as many seats.
fn make_calls_beside<L: Waiting + Send + Sync, R: Threads + Wait + Sync>(
    rt: &R,
    alloc: Global,
    registry: &Registry<L>,
    finished: Finished<L>,
    mut seats: Vec<Seat<L>>,
    plan: &ThreadPlan<'_>,
    looks: &Looks<'_, L>,
    node: u8,
    gossip: Option<Gossip>,
) -> Result<Worked<L>, AllocError>
    requires node { node ≡ L.config.node }
    requires few { vec_len seats < 2 ^ 8 }
    requires each { vec_len seats ≡ count_by (λ b. b.node == node) plan.now.blocks.items
        + cond (is_some gossip) 1 0 }
    requires fresh { All (λ seat. seat ≡ new_seat) seats.items }
    requires given { AreListsAt L.config L.seed finished.lists.items }
    ensures len { IfOk result (λ all.
        vec_len all.0.seats ≡ vec_len finished.seats + vec_len seats) }
    ensures given { IfOk result (λ all. AreListsAt L.config L.seed all.0.lists.items) }
    ensures calls { IfOk result (λ all. AreOfWork L.config L.seed
        (of_node node (plan_value plan.now).blocks) (option_map (λ g. (g.wire, g.rounds)) gossip)
        L.waits finished.lists.items all.0.lists.items all.1.items all.2.items) }
{
    let Some(gossip) = gossip else {
        let (worked, faults) = work(rt, alloc, registry, looks, &plan.blocks, node, seats)?;
        let vain = looks.vain(rt, alloc, registry, node, &[])?;
        return Ok((finished.with_all(worked)?, faults, vain));
    };
    let Some(seat) = seats.pop() else {
        unreachable!();
    };
    let crew = Crew {
        registry,
        looks,
        blocks: &plan.blocks,
        node,
        seats,
    };
    let Both {
        worked,
        faults,
        gossiped,
    } = work_and_gossip(rt, alloc, crew, Gossiper { seat, gossip })?;
    let Gossiped {
        seat,
        wire: _,
        receipts,
    } = gossiped;
    let receipts = receipts?;
    let vain = looks.vain(rt, alloc, registry, node, &receipts)?;
    let finished = finished.with_all(worked)?;
    Ok((finished.with(seat, receipts)?, faults, vain))
}

// Makes the calls of a node: first the ones before the workers, and then those of the workers and of
// its gossip, in threads. All seats come back.
fn make_calls<L: Waiting + Send + Sync, R: Threads + Wait + Sync>(
    rt: &R,
    alloc: Global,
    registry: &Registry<L>,
    mut seats: Vec<Seat<L>>,
    plan: &ThreadPlan<'_>,
    looks: &Looks<'_, L>,
    node: u8,
    gossip: Option<Gossip>,
) -> Result<Made<L>, AllocError>
    requires node { node ≡ L.config.node }
    requires few { vec_len seats < 2 ^ 8 }
    requires each { vec_len seats ≡ count_by (λ b. b.node == node) plan.now.blocks.items + 1
        + cond (is_some gossip) 1 0 }
    requires fresh { All (λ seat. seat ≡ new_seat) seats.items }
    ensures len { IfOk result (λ all. vec_len all.finished.seats ≡ vec_len seats) }
    ensures calls { IfOk result (λ all. AreOfNode L.config L.seed (plan_value plan.now)
        (option_map (λ g. (g.wire, g.rounds)) gossip) L.waits all.finished.lists.items
        (all.start_faults.items, all.faults.items) all.vain.items) }
{
    let finished = Finished::new(alloc);
    let Some(seat) = seats.pop() else {
        unreachable!();
    };
    let (seat, receipts, _, start_faults) = make_starts(
        rt,
        alloc,
        registry,
        seat,
        &plan.starts,
        node,
    )?;
    let finished = finished.with(seat, receipts)?;
    let (all, faults, vain) = make_calls_beside(
        rt, alloc, registry, finished, seats, plan, looks, node, gossip,
    )?;
    Ok(Made {
        finished: all,
        start_faults,
        faults,
        vain,
    })
}

// Runs the node of the registry that `L` names: what that is, the caller picks.
fn run_registry<L: Waiting + Send + Sync, R: Threads + Wait + Sync>(
    rt: &R,
    alloc: Global,
    blank: Blank,
    job: NodeJob,
    seats: u8,
    plan: &ThreadPlan<'_>,
    waits: &Waits,
) -> Result<NodePlayed, AllocError>
    requires name { blank.name ≡ L.name }
    requires parts { (blank.parts ≡ L.parts) × (L.parts ≡ seats) × (0 < seats) }
    requires each { seats ≡ count_by (λ b. b.node == job.config.node) plan.now.blocks.items + 1
        + cond (is_some job.gossip) 1 0 }
    requires config { job.config ≡ L.config }
    requires seed { plan.now.seed ≡ L.seed }
    requires keeps { L.keeps ≡ true }
    requires waits { waits.now.awaits.items ≡ L.waits }
    ensures trace { IfOk result (λ played. IsTraceOf job.config plan.now.seed played.trace) }
    ensures lists { IfOk result (λ played. AreOfNode job.config plan.now.seed
        (plan_value plan.now) (option_map (λ g. (g.wire, g.rounds)) job.gossip)
        waits.now.awaits.items played.lists.items
        (played.start_faults.items, played.faults.items) played.vain.items) }
{
    let NodeJob { config, gossip } = job;
    let started = Registry::<L>::start(rt, alloc, blank, config, plan.seed, seats);
    // A good configuration is refused as out of memory alone.
    let Ok((registry, seats)) = started else {
        return Err(AllocError);
    };
    let looks = Looks::new(alloc, waits)?;
    let Made {
        finished,
        start_faults,
        faults,
        vain,
    } = make_calls(
        rt,
        alloc,
        &registry,
        seats,
        plan,
        &looks,
        config.node,
        gossip,
    )?;
    let Finished { seats, lists } = finished;
    let Closed {
        from: _,
        trace,
        calls: _,
    } = registry.close(seats);
    Ok(NodePlayed {
        trace,
        lists,
        start_faults,
        faults,
        vain,
    })
}

// One seat for the calls before the workers, one for each block, and one for gossip.
fn seats_at(plan: &ThreadPlan<'_>, job: &NodeJob) -> u8
    ensures { result ≡ count_by (λ b. b.node == job.now.config.node) plan.now.blocks.items
        + 1 + cond (is_some job.now.gossip) 1 0 }
{
    blocks_at(&plan.blocks, job.config.node) as u8 + 1 + u8::from(job.gossip.is_some())
}

/// Runs a node.
pub(crate) fn run_node<R: Threads + Wait + Sync>(
    rt: &R,
    alloc: Global,
    plan: &ThreadPlan<'_>,
    waits: &Waits,
    job: NodeJob,
) -> Result<NodePlayed, AllocError>
    ensures trace { IfOk result (λ played. IsTraceOf job.config plan.now.seed played.trace) }
    ensures lists { IfOk result (λ played. AreOfNode job.config plan.now.seed
        (plan_value plan.now) (option_map (λ g. (g.wire, g.rounds)) job.gossip)
        waits.now.awaits.items played.lists.items
        (played.start_faults.items, played.faults.items) played.vain.items) }
{
    let seats = seats_at(plan, &job);
    let blank = Blank::new(u64::from(seats));
    run_registry::<Brand, R>(rt, alloc, blank, job, seats, plan, waits)
}

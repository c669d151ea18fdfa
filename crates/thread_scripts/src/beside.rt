//! The workers of a node, and its gossip beside them.

ghost use Rattle.std.specs.Prelude.{◌≡◌, ◌≤◌, ◌==◌, count_by, map, vec_len, All, IfOk, MatchResult};
ghost use Rattle.node_registry.specs.Receipts.{AreGivenSince};
ghost use Rattle.node_registry.specs.Seats.{new_seat};
ghost use Rattle.thread_plans.specs.Plans.{block_value};
ghost use Rattle.thread_workers.specs.Workers.{AreListsAt, AreOfWorkers, of_node};
ghost use Rattle.thread_scripts.specs.Gossips.{AreRoundsOf, IsGossip, count_or};

use crate::rounds::do_rounds;
use crate::steps::StepWire;
use gossip::MailWire;
use node_core::{NodeFault, Receipt};
use node_registry::{Label, Registry, Seat};
use std::alloc::{AllocError, Global};
use std::snapshot::Snapshot;
use std::sync::Wait;
use std::thread;
use std::thread::{Promise, PromisedHandle, Scope, Threads};
use thread_plans::{Block, Rounds};
use thread_workers::{Finished, Looks, Waiting, Waits, work};

/// The gossip of a node: so many rounds over its wire.
#[derive(Drop)]
pub(crate) struct Gossip {
    pub wire: MailWire,
    pub rounds: Rounds,
}

/// Gossip that is to be done from a seat without a call.
#[derive(Drop)]
pub(crate) struct Gossiper<L: Label> {
    pub seat: Seat<L>,
    pub gossip: Gossip,
    ghost fresh: { seat ≡ new_seat },
}

/// What a node's gossip came to, all of which was done from one seat: the receipts of its calls, where
/// memory wasn't refused.
#[derive(Drop)]
pub(crate) struct Gossiped<L: Label> {
    pub seat: Seat<L>,
    pub wire: MailWire,
    pub receipts: Result<Vec<Receipt>, AllocError>,
    ghost counted: { count_or receipts seat.calls ≡ seat.calls },
}

/// What workers came to: their seats, and why their calls were refused.
pub(crate) type Worked<L> = (Finished<L>, Vec<NodeFault>);

/// What workers and gossip came to beside each other.
#[derive(Drop)]
pub(crate) struct Both<L: Label> {
    pub worked: Finished<L>,
    pub faults: Vec<NodeFault>,
    pub gossiped: Gossiped<L>,
}

/// The workers of a node, as many seats for them, none of which has called yet, and what they wait for.
#[derive(Drop)]
pub(crate) struct Crew<'a, L: Waiting> {
    pub registry: &'a Registry<L>,
    pub looks: &'a Looks<'a, L>,
    pub blocks: &'a [Block<'a>],
    pub node: u8,
    pub seats: Vec<Seat<L>>,
    ghost number: { vec_len seats ≤ 65536 },
    ghost each: { vec_len seats ≡ count_by (λ b. b.node == node) blocks.now },
    ghost fresh: { All (λ seat. seat ≡ new_seat) seats.items },
}

// Does the gossip of a node.
fn do_gossip<L: Label, R: Wait>(
    rt: &R,
    alloc: Global,
    registry: &Registry<L>,
    waits: &Waits,
    node: u8,
    gossiper: Gossiper<L>,
) -> Gossiped<L>
    ensures { IfOk result.receipts (λ rs. AreRoundsOf L.config L.seed
        (gossiper.gossip.wire, gossiper.gossip.rounds) result.wire
        gossiper.gossip.rounds.count rs.items) }
{
    let Gossiper { mut seat, gossip } = gossiper;
    let Gossip { wire, rounds } = gossip;
    let mut wire = StepWire::over(wire, waits.steps(), node);
    let receipts = do_rounds(rt, alloc, registry, &mut seat, &mut wire, rounds);
    waits.leave(node);
    let StepWire { mail, .. } = wire;
    Gossiped {
        seat,
        wire: mail,
        receipts,
    }
}

// A thread hands back what this crew came to.
#[derive(Drop)]
struct Works<'a, L: Waiting> {
    crew: Snapshot<Crew<'a, L>>,
}

impl<'a, L: Waiting> Promise<Result<Worked<L>, AllocError>> for Works<'a, L> {
    ghost kept_by = { λ p worked. IfOk worked (λ all.
        (vec_len all.0.seats ≡ vec_len p.crew.value.seats)
        × AreListsAt L.config L.seed all.0.lists.items
        × AreOfWorkers L.config L.seed
        (of_node p.crew.value.node (map block_value p.crew.value.blocks.now))
        all.0.lists.items all.1.items) };
}

// The thread of a crew, or what it came to where it has none.
type Working<'a, L> = Result<
    PromisedHandle<Result<Worked<L>, AllocError>, Works<'a, L>>,
    Result<Worked<L>, AllocError>,
>;

// Lets a crew call.
fn do_work<L: Waiting + Send + Sync, R: Threads + Wait + Sync>(
    rt: &R,
    alloc: Global,
    crew: Crew<'_, L>,
) -> Result<Worked<L>, AllocError>
    ensures { IfOk result (λ all. (vec_len all.0.seats ≡ vec_len crew.entry.seats)
        × AreListsAt L.config L.seed all.0.lists.items
        × AreOfWorkers L.config L.seed
        (of_node crew.entry.node (map block_value crew.entry.blocks.now))
        all.0.lists.items all.1.items) }
{
    let Crew {
        registry,
        looks,
        blocks,
        node,
        seats,
    } = crew;
    work(rt, alloc, registry, looks, blocks, node, seats)
}

// Starts the work of a crew. Where it has no thread, it is done before this returns, and waits for no
// round of gossip.
fn start_work<'s, E, L: Waiting + Send + Sync + 's, R: Threads + Wait + Sync>(
    scope: &Scope<'s, E>,
    rt: &'s R,
    alloc: Global,
    crew: Crew<'s, L>,
) -> Working<'s, L>
    ensures { MatchResult result (λ h. h.promise.crew.value ≡ crew.entry)
        (λ worked. IfOk worked (λ all. (vec_len all.0.seats ≡ vec_len crew.entry.seats)
        × AreListsAt L.config L.seed all.0.lists.items
        × AreOfWorkers L.config L.seed
        (of_node crew.entry.node (map block_value crew.entry.blocks.now))
        all.0.lists.items all.1.items)) }
{
    let waits = crew.looks.waits;
    let node = crew.node;
    let promise = Works {
        crew: Snapshot::of(&crew),
    };
    let started = scope.spawn_with(
        promise,
        move || -> Result<Worked<L>, AllocError>
            ensures { IfOk result (λ all. (vec_len all.0.seats ≡ vec_len crew.entry.seats)
                × AreListsAt L.config L.seed all.0.lists.items
                × AreOfWorkers L.config L.seed
                (of_node crew.entry.node (map block_value crew.entry.blocks.now))
                all.0.lists.items all.1.items) }
        { do_work(rt, alloc, crew) },
    );
    match started {
        Ok(thread) => Ok(thread),
        Err(back) => {
            waits.leave(node);
            Err((back.value)())
        }
    }
}

// Does the gossip of a node where its crew works beside it in a thread, and no round where it has none.
fn gossip_beside<L: Waiting, R: Wait>(
    rt: &R,
    alloc: Global,
    registry: &Registry<L>,
    waits: &Waits,
    node: u8,
    working: &Working<'_, L>,
    gossiper: Gossiper<L>,
) -> Gossiped<L>
    ensures { IfOk result.receipts (λ rs. MatchResult working.now
        (λ _. AreRoundsOf L.config L.seed (gossiper.gossip.wire, gossiper.gossip.rounds)
        result.wire gossiper.gossip.rounds.count rs.items)
        (λ _. AreRoundsOf L.config L.seed (gossiper.gossip.wire, gossiper.gossip.rounds)
        result.wire 0 rs.items)) }
{
    if working.is_ok() {
        return do_gossip(rt, alloc, registry, waits, node, gossiper);
    }
    let Gossiper { seat, gossip } = gossiper;
    let Gossip { wire, rounds } = gossip;
    let gossip = Gossip {
        wire,
        rounds: Rounds { count: 0, ..rounds },
    };
    do_gossip(rt, alloc, registry, waits, node, Gossiper { seat, gossip })
}

fn join_work<L: Waiting, R: Threads>(
    rt: &R,
    working: Working<'_, L>,
) -> Result<Worked<L>, AllocError>
    ensures { MatchResult working.entry (λ h. IfOk result (λ all.
        (vec_len all.0.seats ≡ vec_len h.promise.crew.value.seats)
        × AreListsAt L.config L.seed all.0.lists.items
        × AreOfWorkers L.config L.seed
        (of_node h.promise.crew.value.node (map block_value h.promise.crew.value.blocks.now))
        all.0.lists.items all.1.items))
        (λ worked. result ≡ worked) }
{
    match working {
        Ok(thread) => thread.join(rt),
        Err(worked) => worked,
    }
}

// Lets a crew call, and does the node's gossip beside it.
fn work_in<'s, E, L: Waiting + Send + Sync + 's, R: Threads + Wait + Sync>(
    scope: &Scope<'s, E>,
    rt: &'s R,
    alloc: Global,
    crew: Crew<'s, L>,
    gossiper: Gossiper<L>,
) -> Result<Both<L>, AllocError>
    ensures len { IfOk result (λ both.
        vec_len both.worked.seats ≡ vec_len crew.entry.seats) }
    ensures given { IfOk result (λ both.
        AreListsAt L.config L.seed both.worked.lists.items) }
    ensures calls { IfOk result (λ both. AreOfWorkers L.config L.seed
        (of_node crew.entry.node (map block_value crew.entry.blocks.now))
        both.worked.lists.items both.faults.items) }
    ensures gossiped { IfOk result (λ both. IfOk both.gossiped.receipts (λ rs.
        IsGossip L.config L.seed (gossiper.gossip.wire, gossiper.gossip.rounds)
        both.gossiped.wire rs.items)) }
{
    let registry = crew.registry;
    let waits = crew.looks.waits;
    let node = crew.node;
    let working = start_work(scope, rt, alloc, crew);
    let gossiped = gossip_beside(rt, alloc, registry, waits, node, &working, gossiper);
    let (worked, faults) = join_work(rt, working)?;
    Ok(Both {
        worked,
        faults,
        gossiped,
    })
}

/// Makes the calls of a node's workers as `work` does, in threads, and does the node's gossip beside them.
pub(crate) fn work_and_gossip<L: Waiting + Send + Sync, R: Threads + Wait + Sync>(
    rt: &R,
    alloc: Global,
    crew: Crew<'_, L>,
    gossiper: Gossiper<L>,
) -> Result<Both<L>, AllocError>
    ensures len { IfOk result (λ both.
        vec_len both.worked.seats ≡ vec_len crew.entry.seats) }
    ensures given { IfOk result (λ both.
        AreListsAt L.config L.seed both.worked.lists.items) }
    ensures calls { IfOk result (λ both. AreOfWorkers L.config L.seed
        (of_node crew.entry.node (map block_value crew.entry.blocks.now))
        both.worked.lists.items both.faults.items) }
    ensures gossiped { IfOk result (λ both. IfOk both.gossiped.receipts (λ rs.
        IsGossip L.config L.seed (gossiper.gossip.wire, gossiper.gossip.rounds)
        both.gossiped.wire rs.items)) }
{
    thread::scope(
        thread::scope_env(),
        rt,
        |scope| -> Result<Both<L>, AllocError>
            ensures len { IfOk result (λ both.
                vec_len both.worked.seats ≡ vec_len crew.entry.seats) }
            ensures given { IfOk result (λ both.
                AreListsAt L.config L.seed both.worked.lists.items) }
            ensures calls { IfOk result (λ both. AreOfWorkers L.config L.seed
                (of_node crew.entry.node (map block_value crew.entry.blocks.now))
                both.worked.lists.items both.faults.items) }
            ensures gossiped { IfOk result (λ both. IfOk both.gossiped.receipts (λ rs.
                IsGossip L.config L.seed (gossiper.gossip.wire, gossiper.gossip.rounds)
                both.gossiped.wire rs.items)) }
        { work_in(scope, rt, alloc, crew, gossiper) },
    )
}

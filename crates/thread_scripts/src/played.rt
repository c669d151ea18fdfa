//! The run of a plan.

ghost use Rattle.std.specs.Prelude.{◌≡◌, ◌+◌, ◌++◌, ◌∷◌, [], length, option_map, vec_len, IfOk};
ghost use Rattle.std.specs.List.{sum_by};
ghost use Rattle.thread_plans.specs.Plans.{plan_value};
ghost use Rattle.thread_scripts.specs.Gossips.{gossip_over};
ghost use Rattle.thread_scripts.specs.Plays.{AllFrom, AreListsOf, AreListsWaiting, AreOfNode};
ghost use Rattle.thread_scripts.specs.Plays.{AreTracesOf, IsTraceOf, config_at, gossip_at};

use crate::beside::Gossip;
use crate::nodes::{NodeJob, NodePlayed, run_node};
use gossip::MailWire;
use node_core::{Config, NodeFault, Receipt, Trace};
use std::alloc::{AllocError, Global};
use std::sync::Wait;
use std::thread;
use std::thread::Threads;
use thread_plans::{Rounds, ThreadPlan};
use thread_workers::{Waits, put_behind};

/// What a plan came to: the traces of its nodes, in their order; of each seat the receipts of its calls,
/// in their order; why calls before the workers were refused, in the order of the nodes and of their
/// lines, each with the place of its line among the plan's; why calls of workers were, in the order of the
/// nodes, of their blocks, and of the calls of each; and the lines of waits that were in vain, in the order
/// of the nodes.
#[derive(Drop)]
pub struct Played {
    pub traces: Vec<Trace>,
    pub lists: Vec<Vec<Receipt>>,
    pub start_faults: Vec<(usize, NodeFault)>,
    pub faults: Vec<NodeFault>,
    pub vain: Vec<u32>,
    ghost counted: { sum_by (λ trace. length trace.calls) traces.items
        ≡ sum_by (λ list. vec_len list) lists.items },
}

impl Played {
    fn new(alloc: Global) -> Played
        ensures len { vec_len result.traces ≡ 0 }
        ensures none { result.traces.items ≡ [] }
        ensures no_list { result.lists.items ≡ [] }
        ensures no_start_fault { result.start_faults.items ≡ [] }
        ensures no_fault { result.faults.items ≡ [] }
        ensures none_in_vain { result.vain.items ≡ [] }
    {
        Played {
            traces: Vec::new(alloc),
            lists: Vec::new(alloc),
            start_faults: Vec::new(alloc),
            faults: Vec::new(alloc),
            vain: Vec::new(alloc),
        }
    }

    // With one node more.
    fn with(self, node: NodePlayed) -> Result<Played, AllocError>
        ensures len { IfOk result (λ all. vec_len all.traces ≡ vec_len self.traces + 1) }
        ensures traces { IfOk result (λ all.
            all.traces.items ≡ self.traces.items ++ node.trace ∷ []) }
        ensures lists { IfOk result (λ all.
            all.lists.items ≡ self.lists.items ++ node.lists.items) }
        ensures start_faults { IfOk result (λ all.
            all.start_faults.items ≡ self.start_faults.items ++ node.start_faults.items) }
        ensures faults { IfOk result (λ all.
            all.faults.items ≡ self.faults.items ++ node.faults.items) }
        ensures vain { IfOk result (λ all.
            all.vain.items ≡ self.vain.items ++ node.vain.items) }
    {
        let Played {
            mut traces,
            mut lists,
            mut start_faults,
            mut faults,
            mut vain,
        } = self;
        let NodePlayed {
            trace,
            lists: others,
            start_faults: before,
            faults: more,
            vain: lines,
        } = node;
        traces.push(trace)?;
        put_behind(&mut lists, others)?;
        put_behind(&mut start_faults, before)?;
        put_behind(&mut faults, more)?;
        put_behind(&mut vain, lines)?;
        Ok(Played {
            traces,
            lists,
            start_faults,
            faults,
            vain,
        })
    }

    /// How many calls were accepted: how many entries the traces have, and receipts the lists.
    pub fn calls(&self) -> u128
        ensures { result ≡ sum_by (λ trace. length trace.calls) self.now.traces.items }
    {
        let mut calls = 0u128;
        for trace in &self.traces {
            calls += trace.len() as u128;
        }
        calls
    }
}

// The gossip of a node over its wire, if it does so many rounds.
fn gossip_over(wire: MailWire, rounds: Option<Rounds>) -> Option<Gossip>
    ensures { gossip_over wire rounds ≡ option_map (λ g. (g.wire, g.rounds)) result }
{
    match rounds {
        Some(rounds) => Some(Gossip { wire, rounds }),
        None => None,
    }
}

// The nodes of a plan, each with its wire, if they do gossip.
fn jobs_of(alloc: Global, plan: &ThreadPlan<'_>) -> Result<Vec<NodeJob>, AllocError>
    ensures len { IfOk result (λ jobs. vec_len jobs ≡ plan.now.size.nodes) }
    ensures each { IfOk result (λ jobs. AllFrom (λ node job.
        (job.config ≡ config_at (plan_value plan.now) node)
        × (option_map (λ g. (g.wire, g.rounds)) job.gossip
        ≡ gossip_at (plan_value plan.now) node)) 0 jobs.items) }
{
    let nodes = plan.size.nodes;
    let mut jobs = Vec::with_capacity(alloc, usize::from(nodes))?;
    for wire in MailWire::all(alloc, nodes)? {
        let config = Config {
            node: jobs.len() as u8,
            nodes,
            trace_cap: plan.size.trace_cap as u64,
        };
        let gossip = gossip_over(wire, plan.gossip);
        jobs.push_reserved(NodeJob { config, gossip });
    }
    Ok(jobs)
}

// Runs the nodes of a plan beside each other.
fn run_all<R: Threads + Wait + Sync>(
    rt: &R,
    alloc: Global,
    plan: &ThreadPlan<'_>,
    waits: &Waits,
) -> Result<Vec<Result<NodePlayed, AllocError>>, AllocError>
    ensures len { IfOk result (λ runs. vec_len runs ≡ plan.now.size.nodes) }
    ensures each { IfOk result (λ runs. AllFrom (λ node run. IfOk run (λ played.
        IsTraceOf (config_at (plan_value plan.now) node) plan.now.seed played.trace)) 0
        runs.items) }
    ensures lists { IfOk result (λ runs. AllFrom (λ node run. IfOk run (λ played.
        AreOfNode (config_at (plan_value plan.now) node) plan.now.seed (plan_value plan.now)
        (gossip_at (plan_value plan.now) node) waits.now.awaits.items played.lists.items
        (played.start_faults.items, played.faults.items) played.vain.items)) 0 runs.items) }
{
    let jobs = jobs_of(alloc, plan)?;
    let run = |job: NodeJob| -> Result<NodePlayed, AllocError>
        ensures trace { IfOk result (λ played.
            IsTraceOf job.config plan.entry.now.seed played.trace) }
        ensures lists { IfOk result (λ played. AreOfNode job.config plan.entry.now.seed
            (plan_value plan.entry.now) (option_map (λ g. (g.wire, g.rounds)) job.gossip)
            waits.entry.now.awaits.items played.lists.items
            (played.start_faults.items, played.faults.items) played.vain.items) }
    { run_node(rt, alloc, plan, waits, job) };
    thread::map_vec(rt, jobs, &run)
}

/// Plays a plan: the nodes run beside each other, and so do the workers of each of them. Each trace is
/// legal, and its random draws are the first ones of the plan's seed. The lists are, node by node, the
/// receipts of what it does before its workers, of each of its blocks, and of its gossip; and the faults
/// say why calls before the workers were refused, and calls of these blocks.
pub fn play<R: Threads + Wait + Sync>(
    rt: &R,
    alloc: Global,
    plan: &ThreadPlan<'_>,
) -> Result<Played, AllocError>
    ensures len { IfOk result (λ played. vec_len played.traces ≡ plan.now.size.nodes) }
    ensures traces { IfOk result (λ played.
        AreTracesOf (plan_value plan.now) played.traces.items) }
    ensures lists { IfOk result (λ played.
        AreListsOf (plan_value plan.now) played.lists.items
        (played.start_faults.items, played.faults.items)) }
{
    play_waiting(rt, alloc, plan, &Waits::none(alloc))
}

/// Plays a plan as `play` does, with workers that wait. Of each wait in vain some state of its node, after
/// the last call of the node's gossip, doesn't know the setting; of each other, some state knows it.
pub fn play_waiting<R: Threads + Wait + Sync>(
    rt: &R,
    alloc: Global,
    plan: &ThreadPlan<'_>,
    waits: &Waits,
) -> Result<Played, AllocError>
    ensures len { IfOk result (λ played. vec_len played.traces ≡ plan.now.size.nodes) }
    ensures traces { IfOk result (λ played.
        AreTracesOf (plan_value plan.now) played.traces.items) }
    ensures lists { IfOk result (λ played.
        AreListsWaiting (plan_value plan.now) waits.now.awaits.items played.lists.items
        (played.start_faults.items, played.faults.items) played.vain.items) }
{
    let mut played = Played::new(alloc);
    for run in run_all(rt, alloc, plan, waits)? {
        played = played.with(run?)?;
    }
    Ok(played)
}

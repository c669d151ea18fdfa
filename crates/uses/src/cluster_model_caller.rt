//! A caller of `cluster_model`.

ghost use Rattle.std.specs.Prelude.{◌≡◌, ℕ, ◌+◌, ◌≤◌, List, [], Some, IfOk, count_by};
ghost use Rattle.stamp_register.specs.Keys.{KeyValue, stamp_of};
ghost use Rattle.operations.specs.Operations.{count_of};
ghost use Rattle.cluster_model.specs.Events.{Answer, new_world};
ghost use Rattle.cluster_model.specs.Worlds as worlds;
ghost use Rattle.cluster_model.specs.Worlds.{Cluster, cluster_of};
ghost use Rattle.cluster_model.specs.Histories.{IsIssued, all_granted};
ghost use Rattle.cluster_model.specs.declared.run.RunReport.{RunReport};
ghost use Rattle.cluster_model.specs.Runs.{asked, told, happened_after, tells_act};

use cluster_model::{Event, RunReport, World};
use node_core::NodeFault;
use std::alloc::Global;

/// Runs a drill on a new cluster. Of a term that was counted and granted so often under one stamp,
/// the answers say at most so often that it was executed, on whichever node.
pub fn drill(
    alloc: Global,
    nodes: u8,
    trace_cap: u32,
    events: &[Event<'_>],
) -> Result<RunReport, NodeFault>
    ensures { let cluster : Cluster = cluster_of nodes trace_cap in
        let answers : RunReport → List Answer = told (new_world cluster) in
        let past : RunReport → List worlds.Event =
        λ report. happened_after [] (new_world cluster) (asked events.now) (answers report) in
        IfOk result (λ report. (name : List ℕ) (key : KeyValue) (term count : ℕ) →
        IsIssued cluster (past report) name key → count_of key term ≡ Some count →
        count_by (tells_act (stamp_of key) term) (answers report)
        ≤ count + all_granted cluster (past report) name key term) }
{
    let mut world = World::new(alloc, nodes, trace_cap)?;
    match world.run(alloc, events) {
        Ok(report) => Ok(report),
        Err(_) => Err(NodeFault::OutOfMemory),
    }
}

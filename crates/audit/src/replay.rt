//! Whether a node alone gives what its trace tells.

ghost use Rattle.std.specs.Prelude.{◌≡◌, ℕ, ◌^◌, ◌<◌, ◌≤◌, length, map, IfErr, IfNone, IfOk, IfSome};
ghost use Rattle.stamp_register.specs.declared.key.Stamp.{Stamp};
ghost use Rattle.message_format.specs.Limits.{max_nodes};
ghost use Rattle.node_calls.specs.Asks.{call_from};
ghost use Rattle.node_steps.specs.Nodes.{start};
ghost use Rattle.node_core.specs.Resumed.{IsFirstWrong, IsLegalAlone};
ghost use Rattle.audit.specs.declared.tally.Tally.{Tally};
ghost use Rattle.audit.specs.Sums.{sum_of};
ghost use Rattle.audit.specs.Tallies.{IsTallied, Notes};
ghost use Rattle.audit.specs.Traces.{AllLegal, IsLeastWrong};

use crate::tally::Tally;
use node_core::{Config, NodeCore, NodeFault, Trace};
use std::alloc::Global;

// The greatest cap that a script says, which a drill's node may have had.
const MOST_CALLS: u64 = 4_294_967_295;

// The index of the first entry of a trace that a node doesn't give, if there is one; the tally notes
// those that it gives. The traces of a drill have fewer than 2^32 calls.
fn first_wrong(
    alloc: Global,
    config: Config,
    trace: &Trace,
    tally: &mut Tally,
) -> Result<Option<u32>, NodeFault>
    requires size { (1 ≤ config.nodes) × (config.nodes ≤ max_nodes) }
    requires node { config.node < config.nodes }
    requires cap { config.trace_cap < 2 ^ 32 }
    requires granted { (stamp : Stamp) (term : ℕ)
        → sum_of tally.old.granted stamp term ≤ 2 ^ 101 }
    requires executed { (stamp : Stamp) (term : ℕ)
        → sum_of tally.old.executed stamp term ≤ 2 ^ 101 }
    ensures noted { IfOk result (λ wrong. IfNone wrong
        (Notes tally.old tally.new config.node start
        (map (call_from config.nodes) trace.now.calls))) }
    ensures wrong { IfOk result (λ wrong. IfSome wrong (IsFirstWrong config trace.now.calls)) }
    ensures legal { IfOk result (λ wrong. IfNone wrong (IsLegalAlone config trace.now.calls)) }
    ensures err { IfErr result (λ fault. fault ≡ NodeFault.OutOfMemory) }
{
    let mut core = NodeCore::new(alloc, config)?;
    let mut index = 0;
    while let Some(seen) = trace.at(index) {
        if !core.repeat(alloc, seen)? {
            return Ok(Some(index as u32));
        }
        tally.note(alloc, &core, seen)?;
        index += 1;
    }
    Ok(None)
}

/// The least node that doesn't give its trace, if there is one, and the first entry that it doesn't
/// give; else the tally is that of all traces. The only error is out of memory.
pub(crate) fn least_wrong(
    alloc: Global,
    nodes: u8,
    traces: &[Trace],
    tally: &mut Tally,
) -> Result<Option<(u8, u32)>, NodeFault>
    requires few { nodes ≤ max_nodes }
    requires each { length traces.now ≡ nodes }
    requires none { IsTallied tally.old nodes traces.now 0 }
    ensures tallied { IfOk result (λ wrong. IfNone wrong
        (IsTallied tally.new nodes traces.now nodes)) }
    ensures wrong { IfOk result (λ wrong. IfSome wrong
        (λ at. IsLeastWrong nodes traces.now at.0 at.1)) }
    ensures legal { IfOk result (λ wrong. IfNone wrong (AllLegal nodes traces.now)) }
    ensures err { IfErr result (λ fault. fault ≡ NodeFault.OutOfMemory) }
{
    for node in 0..nodes {
        let config = Config {
            node,
            nodes,
            trace_cap: MOST_CALLS,
        };
        if let Some(index) = first_wrong(alloc, config, &traces[node as usize], tally)? {
            return Ok(Some((node, index)));
        }
    }
    Ok(None)
}

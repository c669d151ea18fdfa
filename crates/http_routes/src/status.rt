//! What a node knows of itself.

ghost use Rattle.std.specs.Prelude.{◌≡◌, option_map, IfOk, string_bytes};
ghost use Rattle.node_core.specs.Traces.{state_known};
ghost use Rattle.report_text.specs.Status.{status_json_text};
ghost use Rattle.http_routes.specs.Answers.{head_of};

use node_core::NodeCore;
use report_text::{NodeHead, PeerRow, status_json};
use std::alloc::{AllocError, Global};

// What a node is, and how many calls it accepted.
fn head_of(core: &NodeCore) -> NodeHead
    ensures { result ≡ head_of core.now }
{
    let config = core.config();
    NodeHead {
        number: config.node,
        nodes: config.nodes,
        calls: core.calls(),
        cap: config.trace_cap,
    }
}

/// The status of a node, as JSON: what it knows of itself and of all budgets, and what was received from
/// these other nodes, if they are given.
///
/// Errors: out of memory.
pub fn node_status(
    alloc: Global,
    core: &NodeCore,
    peers: Option<&[PeerRow]>,
) -> Result<String, AllocError>
    ensures { IfOk result (λ text. string_bytes text ≡ status_json_text (head_of core.now)
        (state_known core.now) (option_map (λ rows. rows.now) peers.entry)) }
{
    status_json(alloc, core.state(), head_of(core), peers)
}

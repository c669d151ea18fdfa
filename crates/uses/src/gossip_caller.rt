//! A caller of `gossip`.

ghost use Rattle.std.specs.Prelude.{◌≡◌, ◌+◌, IfOk};

use gossip::{Wire, gossip_rounds, spread};
use node_core::NodeFault;
use node_registry::{Label, Registry, Seat};
use std::alloc::Global;
use std::sync::Wait;

/// Sets a point, gives each other node its share of the rights, and tells all of them once. Answers how
/// many calls were accepted.
pub fn set_everywhere<L: Label, W: Wire, R: Wait>(
    rt: &R,
    alloc: Global,
    registry: &Registry<L>,
    seat: &mut Seat<L>,
    wire: &mut W,
    name: &str,
    text: &str,
) -> Result<usize, NodeFault>
    ensures { IfOk result (λ calls. seat.new.calls ≡ seat.old.calls + calls) }
{
    registry.set(rt, alloc, seat, name, text)?;
    let shares = spread(rt, alloc, registry, seat, name);
    let told = gossip_rounds(rt, alloc, registry, seat, wire, 1);
    Ok(1 + shares.receipts.len() + told.receipts.len())
}

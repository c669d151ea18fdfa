//! Spreads of a node behind a lock.

ghost use Rattle.std.specs.Prelude.{◌≡◌};
ghost use Rattle.registry_sharing.specs.Spreads.{IsSetSpreadOf, IsSpreadOf, SetsSpread, SpreadsSo};

use node_core::{NodeCore, NodeFault};
use node_registry::{Batch, Label, Registry, Seat};
use stamp_register::Stamp;
use std::alloc::Global;
use std::sync::Wait;

// The rights to a point, as they are.
#[derive(Drop)]
struct SpreadBatch<'a> {
    name: &'a str,
}

impl<'a> Batch<Result<u64, NodeFault>> for SpreadBatch<'a> {
    ghost comes = { λ was now. SpreadsSo was.name.now };

    fn make(&mut self, alloc: Global, node: &mut NodeCore) -> Result<u64, NodeFault> {
        node_sharing::spread(node, alloc, self.name)
    }
}

// A setting, and the rights to it.
#[derive(Drop)]
struct SettingBatch<'a> {
    name: &'a str,
    text: &'a str,
}

impl<'a> Batch<Result<Stamp, NodeFault>> for SettingBatch<'a> {
    ghost comes = { λ was now. SetsSpread was.name.now was.text.now };

    fn make(&mut self, alloc: Global, node: &mut NodeCore) -> Result<Stamp, NodeFault> {
        node_sharing::set_spread(node, alloc, self.name, self.text)
    }
}

/// Spreads the rights that a node behind a lock has to a point, as `node_sharing::spread` does.
pub fn spread<L: Label, R: Wait>(
    rt: &R,
    alloc: Global,
    registry: &Registry<L>,
    seat: &mut Seat<L>,
    name: &str,
) -> Result<u64, NodeFault>
    ensures { IsSpreadOf L.config L.seed L.keeps L.parts seat.old seat.new name.now result }
{
    registry.make_batch(rt, alloc, seat, &mut SpreadBatch { name })
}

/// Sets a point of a node behind a lock, and spreads the rights to it, as `node_sharing::set_spread`
/// does: no pass of another thread comes between.
pub fn set_spread<L: Label, R: Wait>(
    rt: &R,
    alloc: Global,
    registry: &Registry<L>,
    seat: &mut Seat<L>,
    name: &str,
    text: &str,
) -> Result<Stamp, NodeFault>
    ensures { IsSetSpreadOf L.config L.seed L.keeps L.parts seat.old seat.new name.now text.now
        result }
{
    registry.make_batch(rt, alloc, seat, &mut SettingBatch { name, text })
}

//! Rounds of sharing of a node behind a lock.

ghost use Rattle.std.specs.Prelude.{◌≡◌, ◌+◌, ◌≤◌, [], length, IfOk};
ghost use Rattle.node_registry.specs.Receipts.{AreGivenSince};
ghost use Rattle.registry_sharing.specs.Rounds.{AreCallsFrom, IsRoundWith, IsShareRound, Shares};
ghost use Rattle.registry_sharing.specs.Rounds.{SharesWith};

use node_core::{NodeCore, NodeFault, Receipt};
use node_registry::{Batch, Label, Registry, Seat};
use node_sharing::share;
use sharing::Memory;
use std::alloc::{AllocError, Global};
use std::marker::Model;
use std::sync::Wait;

/// A node's sharing, round by round. Contracts see what it remembers from each to the next.
#[derive(Drop)]
pub struct Sharing {
    memory: Memory,
}

impl Model for Sharing {
    ghost use Rattle.std.specs.Prelude.{List};
    ghost use Rattle.sharing.specs.Memory.{Recalled};

    ghost Value = { List Recalled };

    ghost view = { λ sharing. sharing.memory };
}

impl Sharing {
    /// Before the first round.
    pub fn new(alloc: Global) -> Sharing
        ensures { result ≡ [] }
    {
        Sharing {
            memory: Memory::new(alloc),
        }
    }

    /// A round of a node behind a lock, which is held for all of it: the shifts that are due are made,
    /// and counted to the seat. Answers how many they are. Where one is refused, as N1 of a full trace,
    /// those before it are made, and the next round goes on from there.
    pub fn share<L: Label, R: Wait>(
        &mut self,
        rt: &R,
        alloc: Global,
        registry: &Registry<L>,
        seat: &mut Seat<L>,
    ) -> Result<usize, NodeFault>
        ensures { IsShareRound L.config L.seed L.keeps L.parts seat.old seat.new
            self.old self.new result }
    {
        registry.make_batch(rt, alloc, seat, self)
    }

    /// A round as `share`, which answers the receipt of each shift that was made, in their order. Where
    /// a shift is refused, those before it have theirs, and the next round goes on from there. Where
    /// memory is refused, some may be made that have none.
    pub fn share_receipts<L: Label, R: Wait>(
        &mut self,
        rt: &R,
        alloc: Global,
        registry: &Registry<L>,
        seat: &mut Seat<L>,
    ) -> Result<Vec<Receipt>, AllocError>
        ensures round { IfOk result (λ rs. IsRoundWith L.config L.seed L.keeps L.parts
            seat.old seat.new self.old self.new rs.items) }
        ensures given { IfOk result (λ rs. AreGivenSince L.config L.seed seat.old rs.items) }
    {
        registry.make_batch(rt, alloc, seat, self)
    }
}

// The receipts of the calls that a node keeps from this place on.
fn receipts_from(node: &NodeCore, alloc: Global, from: u64) -> Result<Vec<Receipt>, AllocError>
    requires kept { node.now.from ≤ from }
    requires there { from ≤ length node.now.trace }
    ensures calls { IfOk result (λ rs. AreCallsFrom node.now from rs.items) }
    ensures all { IfOk result (λ rs. from + length rs.items ≡ length node.now.trace) }
{
    let number = node.config().node;
    let mut receipts = Vec::new(alloc);
    for index in from..node.calls() {
        let Some(call) = node.at(index) else {
            unreachable!();
        };
        let entry = call.to_entry(alloc)?;
        receipts.push(Receipt {
            node: number,
            index,
            entry,
        })?;
    }
    Ok(receipts)
}

impl Batch<Result<Vec<Receipt>, AllocError>> for Sharing {
    ghost comes = { λ was now k new answer.
        IfOk answer (λ rs. SharesWith was now k new rs.items) };

    fn make(&mut self, alloc: Global, node: &mut NodeCore) -> Result<Vec<Receipt>, AllocError> {
        // This says that the node keeps its calls from now on, and nothing else is wanted of it.
        let _ = node.from();
        let before = node.calls();
        let shared = share(node, alloc, &mut self.memory);
        if let Err(NodeFault::OutOfMemory) = shared {
            return Err(AllocError);
        }
        receipts_from(node, alloc, before)
    }
}

impl Batch<Result<usize, NodeFault>> for Sharing {
    ghost comes = { Shares };

    fn make(&mut self, alloc: Global, node: &mut NodeCore) -> Result<usize, NodeFault> {
        share(node, alloc, &mut self.memory)
    }
}

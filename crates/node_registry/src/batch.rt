//! Several calls of a node that nothing comes between.

use node_core::NodeCore;
use std::alloc::Global;

/// Calls of a node that are made while its lock is held, so that no other call comes between them.
/// None of them is a pass: there are no random draws for one.
pub trait Batch<T> {
    ghost use Rattle.node_core.specs.Traces.{Kept};
    ghost use Rattle.node_registry.specs.Batches.{GoesOn};

    /// What may come of it: of itself before and after, of the node before and after, and as the
    /// answer.
    ghost comes: { Self → Self → Kept → Kept → T → Type 0 };

    /// Makes the calls that the node is to accept now, and answers what came of them.
    fn make(&mut self, alloc: Global, node: &mut NodeCore) -> T
        ensures goes_on { GoesOn node.old node.new }
        ensures comes { comes self.old self.new node.old node.new result };
}

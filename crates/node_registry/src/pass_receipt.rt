//! What a caller is told of a pass without a copy of its texts.

ghost use Rattle.std.specs.Prelude.{◌≡◌};
ghost use Rattle.node_calls.specs.Told.{passed_ref};
ghost use Rattle.node_registry.specs.Receipts.{outcome_of};

use node_core::PassReplyRef;
use stamp_register::Stamp;

/// What a pass came to, without its task.
#[derive(Clone, Copy, Debug, PartialEq, Eq)]
pub enum PassOutcome {
    /// The point isn't set here.
    Unset,
    /// The point is set, and none of its terms was triggered.
    NoTerm { stamp: Stamp },
    /// This term was triggered, numbered from 0.
    Act { stamp: Stamp, term: u8 },
}

/// What the caller of an accepted pass is told: the number of the node, the place of the pass in the
/// node's trace, counted from 0, and what it came to. `Registry::receipt` has its task and its random
/// draws.
#[derive(Clone, Copy, Debug, PartialEq, Eq)]
pub struct PassReceipt {
    pub node: u8,
    pub index: u64,
    pub outcome: PassOutcome,
}

impl PassOutcome {
    pub(crate) fn of(reply: PassReplyRef<'_>) -> PassOutcome
        ensures { result ≡ outcome_of (passed_ref reply.entry) }
    {
        match reply {
            PassReplyRef::Unset => PassOutcome::Unset,
            PassReplyRef::NoTerm { stamp } => PassOutcome::NoTerm { stamp },
            PassReplyRef::Act { stamp, term, .. } => PassOutcome::Act { stamp, term },
        }
    }
}

//! Why an event of a cluster is refused.

use node_core::NodeFault;
use std::alloc::AllocError;
use std::error::Error;
use std::fmt;

/// Why an event is refused: the first that applies, in this order. A refused event changes nothing.
///
/// `Display` shows the variant's name, or the text of the fault that it holds.
#[derive(Clone, Copy, Debug, PartialEq, Eq)]
pub enum WorldFault {
    /// There is no such node.
    NoNode,
    /// There is no such message.
    NoMessage,
    /// The node refuses, or memory was refused.
    Refused(NodeFault),
}

impl fmt::Display for WorldFault {
    ghost use Rattle.std.specs.Prelude.{Some};
    ghost use Rattle.cluster_model.specs.FaultText.{world_fault_text};

    ghost output = { λ e. Some (world_fault_text e) };

    fn fmt<W: fmt::Write>(&self, f: &mut fmt::Formatter<W>) -> fmt::Result {
        match self {
            WorldFault::NoNode => f.write_str("NoNode"),
            WorldFault::NoMessage => f.write_str("NoMessage"),
            WorldFault::Refused(fault) => write!(f, "{fault}"),
        }
    }
}

impl Error for WorldFault {}

impl From<NodeFault> for WorldFault {
    ghost use Rattle.std.specs.Prelude.{◌≡◌};
    ghost use Rattle.cluster_model.specs.declared.fault.WorldFault.TheVariants.{Refused};

    ghost from_gives = { λ fault e. e ≡ Refused fault };

    fn from(fault: NodeFault) -> WorldFault {
        WorldFault::Refused(fault)
    }
}

impl From<AllocError> for WorldFault {
    ghost use Rattle.std.specs.Prelude.{◌≡◌};
    ghost use Rattle.node_calls.specs.declared.fault.NodeFault.TheVariants.{OutOfMemory};
    ghost use Rattle.cluster_model.specs.declared.fault.WorldFault.TheVariants.{Refused};

    ghost from_gives = { λ _ e. e ≡ Refused OutOfMemory };

    fn from(_error: AllocError) -> WorldFault {
        WorldFault::Refused(NodeFault::OutOfMemory)
    }
}

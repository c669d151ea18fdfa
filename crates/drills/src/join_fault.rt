//! Why parts join to no drill.

ghost use Rattle.std.specs.Prelude.{◌≡◌};
ghost use Rattle.drills.specs.declared.join_fault.JoinFault.TheVariants.{OutOfMemory};

use std::alloc::AllocError;
use std::error::Error;
use std::fmt;

/// Why parts join to no drill. `Display` shows the number, the variant's name and the field as
/// `field=value`, as `DrillFault` does.
#[derive(Clone, Copy, Debug, PartialEq, Eq)]
pub enum JoinFault {
    /// A part is of another number of nodes or of another run than the first one, or its node is none of
    /// those. Parts are counted from 1.
    OtherDrill { file: u64 },
    /// A node has two parts.
    SamePart { node: u8 },
    /// A node has no part.
    NoPart { node: u8 },
    /// Memory was refused.
    OutOfMemory,
}

impl fmt::Display for JoinFault {
    ghost use Rattle.std.specs.Prelude.{Some};
    ghost use Rattle.drills.specs.FaultText.{join_fault_text};

    ghost output = { λ fault. Some (join_fault_text fault) };

    fn fmt<W: fmt::Write>(&self, f: &mut fmt::Formatter<W>) -> fmt::Result {
        match self {
            JoinFault::OtherDrill { file } => write!(f, "P6 OtherDrill file={file}"),
            JoinFault::SamePart { node } => write!(f, "P7 SamePart node={node}"),
            JoinFault::NoPart { node } => write!(f, "P8 NoPart node={node}"),
            JoinFault::OutOfMemory => f.write_str("P4 OutOfMemory"),
        }
    }
}

impl Error for JoinFault {}

impl From<AllocError> for JoinFault {
    ghost from_gives = { λ _ fault. fault ≡ OutOfMemory };

    fn from(_error: AllocError) -> JoinFault {
        JoinFault::OutOfMemory
    }
}

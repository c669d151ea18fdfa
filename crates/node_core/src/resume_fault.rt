//! Why a node isn't resumed.

use std::error::Error;
use std::fmt;

/// Why no node is made of recorded calls. `Display` shows the number, the variant's name and the field
/// as `field=value`, as the refusals of calls do.
#[derive(Clone, Copy, Debug, PartialEq, Eq)]
pub enum ResumeFault {
    /// The cluster hasn't 1 to 32 nodes, the node isn't one of them, or its cap is too great.
    BadConfig,
    /// Memory was refused.
    OutOfMemory,
    /// The node of the calls before refuses the call of this number, counted from 0, or answers it
    /// otherwise.
    Differs { index: u64 },
}

impl fmt::Display for ResumeFault {
    ghost use Rattle.std.specs.Prelude.{Some};
    ghost use Rattle.node_core.specs.FaultText.{resume_fault_text};

    ghost output = { λ fault. Some (resume_fault_text fault) };

    fn fmt<W: fmt::Write>(&self, f: &mut fmt::Formatter<W>) -> fmt::Result {
        match self {
            ResumeFault::BadConfig => f.write_str("N21 BadConfig"),
            ResumeFault::OutOfMemory => f.write_str("N22 OutOfMemory"),
            ResumeFault::Differs { index } => write!(f, "N23 Differs index={index}"),
        }
    }
}

impl Error for ResumeFault {}

//! Why a call isn't answered, and why a node doesn't go on from a part.

ghost use Rattle.std.specs.Prelude.{◌≡◌};
ghost use Rattle.part_keeper.specs.declared.fault.PartFault.TheVariants.{OutOfMemory};

use node_core::NodeFault;
use std::alloc::AllocError;
use std::error::Error;
use std::fmt;

/// Lines couldn't be written. `Display` says so in words.
#[derive(Clone, Copy, Debug, PartialEq, Eq)]
pub struct NotRecorded;

impl fmt::Display for NotRecorded {
    fn fmt<W: fmt::Write>(&self, f: &mut fmt::Formatter<W>) -> fmt::Result {
        f.write_str("the calls could not be recorded")
    }
}

impl Error for NotRecorded {}

/// Why a call at a node whose part is kept isn't answered.
#[derive(Clone, Copy, Debug, PartialEq, Eq)]
pub enum CallFault {
    /// The node refuses it.
    Refused(NodeFault),
    /// It was made, and its line couldn't be written.
    NotRecorded,
    /// It wasn't made, since an earlier one couldn't be recorded.
    RecordingFailed,
}

/// Why the call of a line isn't given again.
#[derive(Clone, Copy, Debug, PartialEq, Eq)]
pub enum LineFault {
    /// The line isn't that of a call.
    NoCall,
    /// The node refuses the call, or answers it otherwise.
    Differs,
    /// Memory was refused.
    OutOfMemory,
}

impl From<AllocError> for LineFault {
    ghost use Rattle.part_keeper.specs.declared.fault.LineFault.TheVariants as lines;

    ghost from_gives = { λ _ fault. fault ≡ lines.OutOfMemory };

    fn from(_error: AllocError) -> LineFault {
        LineFault::OutOfMemory
    }
}

/// Why a node doesn't go on from a part.
#[derive(Clone, Copy, Debug, PartialEq, Eq)]
pub enum PartFault {
    /// A read failed.
    ReadFailed,
    /// A line isn't that of a call. Lines are counted from 1.
    NoCall { line: u64 },
    /// A line has more bytes than that of a call can have.
    TooLong { line: u64 },
    /// The node refuses the call of a line, or answers it otherwise.
    Differs { line: u64 },
    /// Memory was refused.
    OutOfMemory,
}

impl From<AllocError> for PartFault {
    ghost from_gives = { λ _ fault. fault ≡ OutOfMemory };

    fn from(_error: AllocError) -> PartFault {
        PartFault::OutOfMemory
    }
}

//! Why a script is refused.

ghost use Rattle.std.specs.Prelude.{◌≡◌};
ghost use Rattle.streams.specs.declared.fault.ScriptFault.TheVariants.{OutOfMemory};

use std::alloc::AllocError;
use std::error::Error;
use std::fmt;

/// Why a script is refused. `Display` shows the number, the variant's name and the field as
/// `field=value`.
#[derive(Clone, Copy, Debug, PartialEq, Eq)]
pub enum ScriptFault {
    /// The script is longer than 16777216 bytes.
    TooLong,
    /// A read failed.
    ReadFailed,
    /// A write failed, or took no byte of what is left.
    WriteFailed,
    /// Memory was refused.
    OutOfMemory,
    /// A line of a script of threads has another form, or stands out of its place. Lines are counted
    /// from 1. A script of calls answers such a line, and isn't refused for it.
    BadLine { line: u32 },
}

impl fmt::Display for ScriptFault {
    ghost use Rattle.std.specs.Prelude.{Some};
    ghost use Rattle.streams.specs.FaultText.{script_fault_text};

    ghost output = { λ fault. Some (script_fault_text fault) };

    fn fmt<W: fmt::Write>(&self, f: &mut fmt::Formatter<W>) -> fmt::Result {
        match self {
            ScriptFault::TooLong => f.write_str("P1 TooLong"),
            ScriptFault::ReadFailed => f.write_str("P2 ReadFailed"),
            ScriptFault::WriteFailed => f.write_str("P3 WriteFailed"),
            ScriptFault::OutOfMemory => f.write_str("P4 OutOfMemory"),
            ScriptFault::BadLine { line } => write!(f, "P5 BadLine line={line}"),
        }
    }
}

impl Error for ScriptFault {}

impl From<AllocError> for ScriptFault {
    ghost from_gives = { λ _ fault. fault ≡ OutOfMemory };

    fn from(_error: AllocError) -> ScriptFault {
        ScriptFault::OutOfMemory
    }
}

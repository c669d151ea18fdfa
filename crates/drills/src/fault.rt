//! Why a recorded drill is refused.

ghost use Rattle.std.specs.Prelude.{◌≡◌};
ghost use Rattle.drills.specs.declared.fault.DrillFault.TheVariants.{OutOfMemory};

use std::alloc::AllocError;
use std::error::Error;
use std::fmt;

/// Why a recorded drill is refused. `Display` shows the number, the variant's name and the field as
/// `field=value`, as the faults of scripts do.
#[derive(Clone, Copy, Debug, PartialEq, Eq)]
pub enum DrillFault {
    /// A read failed.
    ReadFailed,
    /// A write failed, or took no byte of what is left.
    WriteFailed,
    /// Memory was refused.
    OutOfMemory,
    /// A line has another form, or stands out of its place. Lines are counted from 1.
    BadLine { line: u64 },
}

impl fmt::Display for DrillFault {
    ghost use Rattle.std.specs.Prelude.{Some};
    ghost use Rattle.drills.specs.FaultText.{drill_fault_text};

    ghost output = { λ fault. Some (drill_fault_text fault) };

    fn fmt<W: fmt::Write>(&self, f: &mut fmt::Formatter<W>) -> fmt::Result {
        match self {
            DrillFault::ReadFailed => f.write_str("P2 ReadFailed"),
            DrillFault::WriteFailed => f.write_str("P3 WriteFailed"),
            DrillFault::OutOfMemory => f.write_str("P4 OutOfMemory"),
            DrillFault::BadLine { line } => write!(f, "P5 BadLine line={line}"),
        }
    }
}

impl Error for DrillFault {}

impl From<AllocError> for DrillFault {
    ghost from_gives = { λ _ fault. fault ≡ OutOfMemory };

    fn from(_error: AllocError) -> DrillFault {
        DrillFault::OutOfMemory
    }
}

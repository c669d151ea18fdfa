//! Why files weren't audited.

ghost use Rattle.std.specs.Prelude.{◌≡◌};
ghost use Rattle.drills.specs.declared.fault.DrillFault.TheVariants.{OutOfMemory};
ghost use Rattle.commands.specs.declared.audit_refused.AuditRefused.TheVariants.{Drill};

use drills::{DrillFault, JoinFault};
use std::alloc::{AllocError, AllocFailed};
use std::fmt;

/// Why files weren't audited. `Display` shows the fault.
#[derive(Clone, Copy, Debug)]
pub enum AuditRefused {
    /// A drill can't be read, or not what is said of it or of parts be written.
    Drill { fault: DrillFault },
    /// A part can't be read. The file that should have it is told by its place, counted from 0.
    Part { file: usize, fault: DrillFault },
    /// Parts join to no drill.
    Join { fault: JoinFault },
}

impl fmt::Display for AuditRefused {
    ghost use Rattle.std.specs.Prelude.{Some};
    ghost use Rattle.commands.specs.RefusedText.{refused_text};

    ghost output = { λ refused. Some (refused_text refused) };

    fn fmt<W: fmt::Write>(&self, f: &mut fmt::Formatter<W>) -> fmt::Result {
        match self {
            AuditRefused::Drill { fault } | AuditRefused::Part { fault, .. } => fault.fmt(f),
            AuditRefused::Join { fault } => fault.fmt(f),
        }
    }
}

impl From<AllocError> for AuditRefused {
    ghost from_gives = { λ _ refused. refused ≡ Drill OutOfMemory };

    fn from(_error: AllocError) -> AuditRefused {
        AuditRefused::Drill {
            fault: DrillFault::OutOfMemory,
        }
    }
}

impl<T: Drop> From<AllocFailed<T>> for AuditRefused {
    ghost from_gives = { λ _ refused. refused ≡ Drill OutOfMemory };

    fn from(_error: AllocFailed<T>) -> AuditRefused {
        AuditRefused::from(AllocError)
    }
}

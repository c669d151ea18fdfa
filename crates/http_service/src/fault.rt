//! Why serving ends early.

ghost use Rattle.std.specs.Prelude.{◌≡◌, Some};
ghost use Rattle.http_service.specs.declared.fault.ServeFault.TheVariants.{OutOfMemory};
ghost use Rattle.http_service.specs.FaultText.{serve_fault_text};

use std::alloc::AllocError;
use std::error::Error;
use std::fmt;

/// Why serving ends early. `Display` shows the number and the variant's name.
#[derive(Clone, Copy, Debug, PartialEq, Eq)]
pub enum ServeFault {
    /// The address can't be listened on.
    BindFailed,
    /// The system gave nothing to accept connections with, or no random keys.
    AcceptFailed,
    /// Memory was refused.
    OutOfMemory,
}

impl fmt::Display for ServeFault {
    ghost output = { λ e. Some (serve_fault_text e) };

    fn fmt<W: fmt::Write>(&self, f: &mut fmt::Formatter<W>) -> fmt::Result {
        match self {
            ServeFault::BindFailed => f.write_str("V1 BindFailed"),
            ServeFault::AcceptFailed => f.write_str("V2 AcceptFailed"),
            ServeFault::OutOfMemory => f.write_str("V3 OutOfMemory"),
        }
    }
}

impl Error for ServeFault {}

impl From<AllocError> for ServeFault {
    ghost from_gives = { λ _ e. e ≡ OutOfMemory };

    fn from(_e: AllocError) -> ServeFault {
        ServeFault::OutOfMemory
    }
}

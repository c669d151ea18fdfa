//! Why a counter refuses.

ghost use Rattle.std.specs.Prelude.{◌≡◌};

use std::alloc::AllocError;
use std::error::Error;
use std::fmt;

/// Why a call is refused. Where several refusals apply, the first of them in this order is the
/// answer. After a refusal the counter is as it was.
///
/// `Display` shows the number, the variant's name and its field as `field=value`.
#[derive(Clone, Copy, Debug, PartialEq, Eq)]
pub enum CounterFault {
    /// The node has only so many rights, which may be fewer than none.
    TooFewRights { have: i128 },
    /// The cell would be above 2^64 - 1.
    CellFull,
    /// The amount is 0.
    ZeroAmount,
    /// The amount would go to the node that it comes from.
    SameNode,
    /// Memory was refused.
    OutOfMemory,
}

impl fmt::Display for CounterFault {
    ghost use Rattle.std.specs.Prelude.{Some};
    ghost use Rattle.counters.specs.Refusals.{counter_fault_text};

    ghost output = { λ e. Some (counter_fault_text e) };

    fn fmt<W: fmt::Write>(&self, f: &mut fmt::Formatter<W>) -> fmt::Result {
        match self {
            CounterFault::TooFewRights { have } => write!(f, "B1 TooFewRights have={have}"),
            CounterFault::CellFull => f.write_str("B2 CellFull"),
            CounterFault::ZeroAmount => f.write_str("B3 ZeroAmount"),
            CounterFault::SameNode => f.write_str("B4 SameNode"),
            CounterFault::OutOfMemory => f.write_str("B5 OutOfMemory"),
        }
    }
}

impl Error for CounterFault {}

impl From<AllocError> for CounterFault {
    ghost use Rattle.counters.specs.declared.fault.CounterFault.TheVariants.{OutOfMemory};

    ghost from_gives = { λ _ fault. fault ≡ OutOfMemory };

    fn from(_error: AllocError) -> CounterFault {
        CounterFault::OutOfMemory
    }
}

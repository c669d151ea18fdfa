//! Why bytes are no message.

ghost use Rattle.std.specs.Prelude.{◌≡◌};
ghost use Rattle.message_format.specs.declared.fault.WireFault.TheVariants.{OutOfMemory};

use std::alloc::{AllocError, AllocFailed};
use std::error::Error;
use std::fmt;

/// Why bytes are no message.
///
/// That they are too many is tested first. Then they are read field by field, and the first fault
/// is the answer: a field is `Short` where its bytes aren't all there, before its value is looked
/// at. `NoGrant` is tested last. `offset` is how many bytes stand before the field or, for
/// `CellOrder`, before the cell. `OutOfMemory` may be answered in place of any other fault.
///
/// `Display` shows a number, the variant's name and its field as `field=value`.
#[derive(Clone, Copy, Debug, PartialEq, Eq)]
pub enum WireFault {
    /// The first four bytes aren't those of a message without grants, nor of one with some.
    Magic { offset: usize },
    /// The bytes end before the end of the field that begins here.
    Short { offset: usize },
    /// Bytes are left after the last name.
    Long { offset: usize },
    /// There is no node of this number, or nothing goes from a node to itself.
    BadNode { offset: usize },
    /// The name isn't above the one before it.
    NameOrder { offset: usize },
    /// The length isn't 1 to 128, or these bytes aren't all bytes of a name.
    BadName { offset: usize },
    /// The tag isn't 0 or 1.
    BadBody { offset: usize },
    /// The length is above 1024, or the text that begins here isn't the canonical text of actions.
    NotCanonical { offset: usize },
    /// The cell isn't above the one before it.
    CellOrder { offset: usize },
    /// The value is 0.
    ZeroCell { offset: usize },
    /// The key sets no counted term of this number.
    BadTerm { offset: usize },
    /// There are more than 67108864 bytes, which is the offset.
    TooBig { offset: usize },
    /// Memory was refused.
    OutOfMemory,
    /// The first four bytes, which stand at the offset, are those of a message with grants, and none
    /// is told.
    NoGrant { offset: usize },
}

impl From<AllocError> for WireFault {
    ghost from_gives = { λ _ e. e ≡ OutOfMemory };

    fn from(_e: AllocError) -> WireFault {
        WireFault::OutOfMemory
    }
}

impl<T: Drop> From<AllocFailed<T>> for WireFault {
    ghost from_gives = { λ _ e. e ≡ OutOfMemory };

    fn from(_e: AllocFailed<T>) -> WireFault {
        WireFault::OutOfMemory
    }
}

impl fmt::Display for WireFault {
    ghost use Rattle.std.specs.Prelude.{Some};
    ghost use Rattle.message_format.specs.FaultText.{wire_fault_text};

    ghost output = { λ e. Some (wire_fault_text e) };

    fn fmt<W: fmt::Write>(&self, f: &mut fmt::Formatter<W>) -> fmt::Result {
        let (text, offset) = match self {
            WireFault::Magic { offset } => ("W1 Magic", offset),
            WireFault::Short { offset } => ("W2 Short", offset),
            WireFault::Long { offset } => ("W3 Long", offset),
            WireFault::BadNode { offset } => ("W4 BadNode", offset),
            WireFault::NameOrder { offset } => ("W5 NameOrder", offset),
            WireFault::BadName { offset } => ("W6 BadName", offset),
            WireFault::BadBody { offset } => ("W7 BadBody", offset),
            WireFault::NotCanonical { offset } => ("W8 NotCanonical", offset),
            WireFault::CellOrder { offset } => ("W9 CellOrder", offset),
            WireFault::ZeroCell { offset } => ("W10 ZeroCell", offset),
            WireFault::BadTerm { offset } => ("W11 BadTerm", offset),
            WireFault::TooBig { offset } => ("W12 TooBig", offset),
            WireFault::OutOfMemory => return f.write_str("W13 OutOfMemory"),
            WireFault::NoGrant { offset } => ("W14 NoGrant", offset),
        };
        write!(f, "{text} offset={offset}")
    }
}

impl Error for WireFault {}

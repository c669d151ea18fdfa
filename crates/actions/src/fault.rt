//! Why an action text or a setting text is refused.

ghost use Rattle.std.specs.Prelude.{◌≡◌};
ghost use Rattle.actions.specs.declared.fault.ActionFault.TheVariants.{OutOfMemory};
ghost use Rattle.actions.specs.declared.fault.SettingFault.TheVariants as settings;

use std::alloc::{AllocError, AllocFailed};
use std::error::Error;
use std::fmt;

/// Why an action text is refused.
///
/// The tests are made in this order, and the first that refuses is answered: `TooLong`, `BadByte`,
/// `TooManyTerms`, and then for each term, from the first on, `Unclosed` to `BadTime` as they stand
/// here. `term` is the term's number, counted from 0.
///
/// `Display` shows a number, the variant's name, and its field as `field=value`.
#[derive(Clone, Copy, Debug, PartialEq, Eq)]
pub enum ActionFault {
    /// The text is longer than 1024 bytes.
    TooLong,
    /// There are more than 16 terms.
    TooManyTerms,
    /// A term has a `(` and doesn't end with `)`.
    Unclosed { term: u8 },
    /// What stands before the first `%` isn't 1 to 3 digits, perhaps with a point and 1 to 4
    /// digits, or is above 100.
    BadPercent { term: u8 },
    /// What stands before the first `*` isn't 1 or more digits, or is above 2^64 - 1.
    BadCount { term: u8 },
    /// Nothing stands where the task's word should.
    NoTask { term: u8 },
    /// The word is none of the eight tasks.
    UnknownTask { term: u8 },
    /// `sleep` or `delay` has no argument.
    NeedsTime { term: u8 },
    /// The argument of `sleep` or `delay` isn't 1 or more digits, or is above 2^64 - 1.
    BadTime { term: u8 },
    /// The text has a byte below 0x20, 0x7f or a `;`, and this is the place of the first.
    BadByte { offset: usize },
    /// Memory was refused.
    OutOfMemory,
}

impl From<AllocError> for ActionFault {
    ghost from_gives = { λ _ e. e ≡ OutOfMemory };

    fn from(_e: AllocError) -> ActionFault {
        ActionFault::OutOfMemory
    }
}

impl<T: Drop> From<AllocFailed<T>> for ActionFault {
    ghost from_gives = { λ _ e. e ≡ OutOfMemory };

    fn from(_e: AllocFailed<T>) -> ActionFault {
        ActionFault::OutOfMemory
    }
}

impl fmt::Display for ActionFault {
    ghost use Rattle.std.specs.Prelude.{Some};
    ghost use Rattle.actions.specs.FaultText.{fault_text};

    ghost output = { λ e. Some (fault_text e) };

    fn fmt<W: fmt::Write>(&self, f: &mut fmt::Formatter<W>) -> fmt::Result {
        match self {
            ActionFault::TooLong => f.write_str("A1 TooLong"),
            ActionFault::TooManyTerms => f.write_str("A2 TooManyTerms"),
            ActionFault::Unclosed { term } => write!(f, "A3 Unclosed term={term}"),
            ActionFault::BadPercent { term } => write!(f, "A4 BadPercent term={term}"),
            ActionFault::BadCount { term } => write!(f, "A5 BadCount term={term}"),
            ActionFault::NoTask { term } => write!(f, "A6 NoTask term={term}"),
            ActionFault::UnknownTask { term } => write!(f, "A7 UnknownTask term={term}"),
            ActionFault::NeedsTime { term } => write!(f, "A8 NeedsTime term={term}"),
            ActionFault::BadTime { term } => write!(f, "A9 BadTime term={term}"),
            ActionFault::BadByte { offset } => write!(f, "A10 BadByte offset={offset}"),
            ActionFault::OutOfMemory => f.write_str("A11 OutOfMemory"),
        }
    }
}

impl Error for ActionFault {}

/// Why a setting text is refused.
///
/// `TooLong` is tested first, and then each entry that isn't only spaces, from the first on:
/// `NoEquals` to `BadActions` as they stand here. `entry` is the entry's number among those,
/// counted from 0.
///
/// `Display` shows a number, the variant's name, and each field as `field=value`, at last the text
/// of the fault that it holds.
#[derive(Clone, Copy, Debug, PartialEq, Eq)]
pub enum SettingFault {
    /// The text is longer than 65536 bytes.
    TooLong,
    /// An entry has no `=`.
    NoEquals { entry: u16 },
    /// What stands before the first `=` is no name.
    BadName { entry: u16 },
    /// What stands after it is refused as an action text, in which offsets are counted from there.
    BadActions { entry: u16, fault: ActionFault },
    /// Memory was refused.
    OutOfMemory,
}

impl From<AllocError> for SettingFault {
    ghost from_gives = { λ _ e. e ≡ settings.OutOfMemory };

    fn from(_e: AllocError) -> SettingFault {
        SettingFault::OutOfMemory
    }
}

impl<T: Drop> From<AllocFailed<T>> for SettingFault {
    ghost from_gives = { λ _ e. e ≡ settings.OutOfMemory };

    fn from(_e: AllocFailed<T>) -> SettingFault {
        SettingFault::OutOfMemory
    }
}

impl fmt::Display for SettingFault {
    ghost use Rattle.std.specs.Prelude.{Some};
    ghost use Rattle.actions.specs.FaultText.{setting_fault_text};

    ghost output = { λ e. Some (setting_fault_text e) };

    fn fmt<W: fmt::Write>(&self, f: &mut fmt::Formatter<W>) -> fmt::Result {
        match self {
            SettingFault::TooLong => f.write_str("S1 TooLong"),
            SettingFault::NoEquals { entry } => write!(f, "S2 NoEquals entry={entry}"),
            SettingFault::BadName { entry } => write!(f, "S3 BadName entry={entry}"),
            SettingFault::BadActions { entry, fault } => {
                write!(f, "S4 BadActions entry={entry} {fault}")
            }
            SettingFault::OutOfMemory => f.write_str("S5 OutOfMemory"),
        }
    }
}

impl Error for SettingFault {}

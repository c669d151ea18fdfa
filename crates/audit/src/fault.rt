//! Why an audit says no.

use std::error::Error;
use std::fmt;

/// Why an audit says no: the first that applies, in this order, but that out of memory may stand in
/// the place of any other but the first.
///
/// `Display` shows the number, the variant's name and each field as `field=value`.
#[derive(Clone, Copy, Debug, PartialEq, Eq)]
pub enum AuditFault {
    /// The cluster hasn't 1 to 32 nodes, or there isn't a trace for each.
    BadConfig,
    /// A replay of the node's trace alone doesn't give the entry at this index. It is the first such
    /// entry of the least such node.
    WrongReply { node: u8, index: u32 },
    /// No schedule fits the traces: whatever is placed first, no node can go on, and this is the next
    /// entry of the least node that has one left.
    Stuck { node: u8, index: u32 },
    /// A receipt isn't that of an entry.
    ReceiptDiffers,
    /// An entry has two receipts.
    ReceiptTwice,
    /// An entry has no receipt.
    ReceiptMissing,
    /// Memory was refused.
    OutOfMemory,
    /// The receipt at a place of a list isn't of a later entry than one of its node before it in that
    /// list. It is the first such place of the first such list; both count from 0.
    OutOfOrder { list: usize, place: usize },
}

impl fmt::Display for AuditFault {
    ghost use Rattle.std.specs.Prelude.{Some};
    ghost use Rattle.audit.specs.FaultText.{audit_fault_text};

    ghost output = { λ e. Some (audit_fault_text e) };

    fn fmt<W: fmt::Write>(&self, f: &mut fmt::Formatter<W>) -> fmt::Result {
        match self {
            AuditFault::BadConfig => f.write_str("X1 BadConfig"),
            AuditFault::WrongReply { node, index } => {
                write!(f, "X2 WrongReply node={node} index={index}")
            }
            AuditFault::Stuck { node, index } => write!(f, "X3 Stuck node={node} index={index}"),
            AuditFault::ReceiptDiffers => f.write_str("X4 ReceiptDiffers"),
            AuditFault::ReceiptTwice => f.write_str("X5 ReceiptTwice"),
            AuditFault::ReceiptMissing => f.write_str("X6 ReceiptMissing"),
            AuditFault::OutOfMemory => f.write_str("X7 OutOfMemory"),
            AuditFault::OutOfOrder { list, place } => {
                write!(f, "X8 OutOfOrder list={list} place={place}")
            }
        }
    }
}

impl Error for AuditFault {}

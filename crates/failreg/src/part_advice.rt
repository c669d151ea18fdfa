//! What is wrong with the journal of a served node, and how to fix it.

use command_line::quoted;
use node_service::OpenFault;
use part_keeper::PartFault;
use std::alloc::{AllocError, Global};

/// The fix for a file that isn't the node's journal.
const OWN_JOURNAL: &str = "check the path and permissions. Use a new file only for a node number \
    that was never used.";

/// The fix for a journal that another process has open.
const END_OTHER: &str = "end that process, and give each node a journal of its own.";

/// The fix for a journal that can't be written.
const MAKE_ROOM: &str = "free disk space or fix permissions, then restart the node.";

// What is wrong.
fn met(alloc: Global, fault: &OpenFault) -> Result<String, AllocError> {
    match fault {
        OpenFault::CantOpen(error) => format!(in alloc; "cannot open ({error})"),
        OpenFault::NoFile => String::from_str(alloc, "not a regular file"),
        OpenFault::InUse => { String::from_str(alloc, "already open in this process or another") }
        OpenFault::OtherHead(told) => String::from_str(alloc, told),
        OpenFault::NotBegun(error) => { format!(in alloc; "cannot be started ({error})") }
        OpenFault::Lines(PartFault::ReadFailed) => String::from_str(alloc, "cannot read"),
        OpenFault::Lines(PartFault::NoCall { line }) => {
            format!(in alloc; "line {line} is not a journal entry")
        }
        OpenFault::Lines(PartFault::TooLong { line }) => {
            format!(in alloc; "line {line} is longer than any journal entry")
        }
        OpenFault::Lines(PartFault::Differs { line }) => {
            format!(in alloc; "line {line} does not replay")
        }
        OpenFault::Lines(PartFault::OutOfMemory) => { String::from_str(alloc, "out of memory") }
    }
}

fn to_do(fault: &OpenFault) -> &'static str {
    match fault {
        OpenFault::CantOpen(_) | OpenFault::NoFile | OpenFault::OtherHead(_) => OWN_JOURNAL,
        OpenFault::InUse => END_OTHER,
        OpenFault::NotBegun(_) | OpenFault::Lines(PartFault::OutOfMemory) => MAKE_ROOM,
        OpenFault::Lines(
            PartFault::ReadFailed
            | PartFault::NoCall { .. }
            | PartFault::TooLong { .. }
            | PartFault::Differs { .. },
        ) => OWN_JOURNAL,
    }
}

fn advice_on_fault(alloc: Global, path: &str, fault: &OpenFault) -> Result<String, AllocError> {
    let shown = quoted(alloc, path)?;
    let met = met(alloc, fault)?;
    let to_do = to_do(fault);
    format!(in alloc; "journal {shown}: {met}: {to_do}")
}

/// What is wrong with a journal from which a node can't resume, and how to fix it; empty if memory runs
/// out.
pub fn advice_on_recorded(alloc: Global, path: &str, fault: &OpenFault) -> String {
    advice_on_fault(alloc, path, fault).unwrap_or(String::new(alloc))
}

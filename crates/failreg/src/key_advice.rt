//! What a refusal met of the file of a key, and what to do.

use command_line::quoted;
use node_service::{KeyFault, MOST_KEY};
use std::alloc::{AllocError, Global};

// What was met.
fn met(alloc: Global, fault: &KeyFault) -> Result<String, AllocError> {
    match fault {
        KeyFault::CantRead(error) => format!(in alloc; "cannot read ({error})"),
        KeyFault::OpenToOthers(mode) => {
            format!(in alloc; "other users can access it: its mode is {mode:o}")
        }
        KeyFault::TooShort(bytes) => format!(in alloc; "it has {bytes} bytes"),
        KeyFault::TooLong => format!(in alloc; "it has more than {MOST_KEY} bytes"),
    }
}

fn advice_on_fault(alloc: Global, path: &str, fault: &KeyFault) -> Result<String, AllocError> {
    let shown = quoted(alloc, path)?;
    let met = met(alloc, fault)?;
    format!(in alloc;
        "key {shown}: {met}: create one with (umask 077; head -c 32 /dev/urandom >FILE)"
    )
}

/// What of the file of a key was met, and what to do. Without memory for it there is none.
pub fn advice_on_key(alloc: Global, path: &str, fault: &KeyFault) -> String {
    advice_on_fault(alloc, path, fault).unwrap_or(String::new(alloc))
}

//! What a node is asked, with its texts where they stand.

ghost use Rattle.std.specs.Prelude.{◌≡◌, IfOk};
ghost use Rattle.node_calls.specs.Told.{ask_ref_told, ask_told, is_pass};

use crate::ask::Ask;
use std::alloc::{AllocError, Global};

/// What a node is asked, with its texts and its message where they stand: an `Ask` without memory of
/// its own.
#[derive(Clone, Copy, Debug)]
pub enum AskRef<'a> {
    /// Sets a point to an action text.
    Set {
        name: &'a str,
        text: &'a str,
    },
    /// Removes a point.
    Remove {
        name: &'a str,
    },
    /// Sets the points of a setting text.
    Load {
        text: &'a str,
    },
    /// Passes a point.
    Pass {
        name: &'a str,
    },
    /// Moves rights to execute a counted term to another node.
    Shift {
        name: &'a str,
        term: u8,
        to: u8,
        amount: u64,
    },
    /// Grants this node rights to execute a counted term beyond its count.
    Grant {
        name: &'a str,
        term: u8,
        amount: u64,
    },
    /// Makes a message to another node.
    Emit {
        to: u8,
    },
    /// Takes in a message of another node, as bytes.
    Deliver {
        message: &'a [u8],
    },
}

impl AskRef<'_> {
    /// Whether it asks to pass a point.
    pub fn is_pass(self) -> bool
        ensures { result ≡ is_pass (ask_ref_told self.entry) }
    {
        match self {
            AskRef::Pass { .. } => true,
            AskRef::Set { .. }
            | AskRef::Remove { .. }
            | AskRef::Load { .. }
            | AskRef::Shift { .. }
            | AskRef::Grant { .. }
            | AskRef::Emit { .. }
            | AskRef::Deliver { .. } => false,
        }
    }

    /// A value with memory of its own that asks the same. The only error is out of memory.
    pub fn copied(self, alloc: Global) -> Result<Ask, AllocError>
        ensures { IfOk result (λ copy. ask_told copy ≡ ask_ref_told self.entry) }
    {
        Ok(match self {
            AskRef::Set { name, text } => Ask::Set {
                name: String::from_str(alloc, name)?,
                text: String::from_str(alloc, text)?,
            },
            AskRef::Remove { name } => Ask::Remove {
                name: String::from_str(alloc, name)?,
            },
            AskRef::Load { text } => Ask::Load {
                text: String::from_str(alloc, text)?,
            },
            AskRef::Pass { name } => Ask::Pass {
                name: String::from_str(alloc, name)?,
            },
            AskRef::Shift {
                name,
                term,
                to,
                amount,
            } => Ask::Shift {
                name: String::from_str(alloc, name)?,
                term,
                to,
                amount,
            },
            AskRef::Grant { name, term, amount } => Ask::Grant {
                name: String::from_str(alloc, name)?,
                term,
                amount,
            },
            AskRef::Emit { to } => Ask::Emit { to },
            AskRef::Deliver { message } => Ask::Deliver {
                message: Vec::from_slice(alloc, message)?,
            },
        })
    }
}

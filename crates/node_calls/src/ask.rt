//! What a node is asked.

ghost use Rattle.std.specs.Prelude.{◌≡◌, ℕ, IfOk, IfErr, OnErr, false};
ghost use Rattle.node_calls.specs.declared.ask.Ask.TheVariants.{Deliver};
ghost use Rattle.node_calls.specs.declared.reply.Reply.{Reply};
ghost use Rattle.node_calls.specs.Told.{ask_ref_told, ask_told, is_delivery, is_pass};
ghost use Rattle.node_calls.specs.Asks.{ask_value};

use crate::ask_ref::AskRef;
use std::alloc::{AllocError, Global};

/// What a node is asked.
#[derive(Debug)]
pub enum Ask {
    /// Sets a point to an action text.
    Set {
        name: String,
        text: String,
    },
    /// Removes a point.
    Remove {
        name: String,
    },
    /// Sets the points of a setting text.
    Load {
        text: String,
    },
    /// Passes a point.
    Pass {
        name: String,
    },
    /// Moves rights to execute a counted term to another node.
    Shift {
        name: String,
        term: u8,
        to: u8,
        amount: u64,
    },
    /// Grants this node rights to execute a counted term beyond its count.
    Grant {
        name: String,
        term: u8,
        amount: u64,
    },
    /// Makes a message to another node.
    Emit {
        to: u8,
    },
    /// Takes in a message of another node, as bytes.
    Deliver {
        message: Vec<u8>,
    },
}

impl Drop for Ask {
    fn drop(self) {
        match self {
            Ask::Set { name: _, text: _ } => {}
            Ask::Remove { name: _ } => {}
            Ask::Load { text: _ } => {}
            Ask::Pass { name: _ } => {}
            Ask::Shift {
                name: _,
                term: _,
                to: _,
                amount: _,
            } => {}
            Ask::Grant {
                name: _,
                term: _,
                amount: _,
            } => {}
            Ask::Emit { to: _ } => {}
            Ask::Deliver { message: _ } => {}
        }
    }
}

impl Ask {
    /// The same request, with its texts where they stand.
    pub fn as_ref(&self) -> AskRef<'_>
        ensures { ask_ref_told result ≡ ask_told self.now }
    {
        match self {
            Ask::Set { name, text } => AskRef::Set {
                name: name.as_str(),
                text: text.as_str(),
            },
            Ask::Remove { name } => AskRef::Remove {
                name: name.as_str(),
            },
            Ask::Load { text } => AskRef::Load {
                text: text.as_str(),
            },
            Ask::Pass { name } => AskRef::Pass {
                name: name.as_str(),
            },
            Ask::Shift {
                name,
                term,
                to,
                amount,
            } => AskRef::Shift {
                name: name.as_str(),
                term: *term,
                to: *to,
                amount: *amount,
            },
            Ask::Grant { name, term, amount } => AskRef::Grant {
                name: name.as_str(),
                term: *term,
                amount: *amount,
            },
            Ask::Emit { to } => AskRef::Emit { to: *to },
            Ask::Deliver { message } => AskRef::Deliver {
                message: message.as_slice(),
            },
        }
    }

    /// A value of its own that asks the same, to the byte. The only error is out of memory.
    pub fn copied(&self, alloc: Global) -> Result<Ask, AllocError>
        ensures told { IfOk result (λ copy. ask_told copy ≡ ask_told self.now) }
        ensures same { IfOk result (λ copy. (nodes : ℕ) (reply : Reply)
            → ask_value nodes copy reply ≡ ask_value nodes self.now reply) }
    {
        self.as_ref().copied(alloc)
    }

    /// The bytes of a delivery, or any other request as it was.
    pub fn into_message(self) -> Result<Vec<u8>, Ask>
        ensures ok { IfOk result (λ message. self ≡ Deliver message) }
        ensures err { IfErr result (λ ask. ask ≡ self) }
        ensures other { OnErr result (is_delivery (ask_told self) ≡ false) }
    {
        match self {
            Ask::Deliver { message } => Ok(message),
            ask => Err(ask),
        }
    }

    /// Whether it asks to pass a point.
    pub fn is_pass(&self) -> bool
        ensures { result ≡ is_pass (ask_told self.now) }
    {
        self.as_ref().is_pass()
    }
}

//! An accepted call of a node.

ghost use Rattle.std.specs.Prelude.{◌≡◌, IfOk};
ghost use Rattle.node_calls.specs.Told.{told};

use crate::ask::Ask;
use crate::reply::Reply;
use std::alloc::{AllocError, Global};

/// An accepted call: what was asked, the random draws that a pass was given, and the answer.
#[derive(Debug, Drop)]
pub struct Entry {
    pub ask: Ask,
    pub words: Vec<u32>,
    pub reply: Reply,
}

impl Entry {
    /// An entry of its own that tells the same, to the byte. The only error is out of memory.
    pub fn copied(&self, alloc: Global) -> Result<Entry, AllocError>
        ensures { IfOk result (λ copy. told copy ≡ told self.now) }
    {
        Ok(Entry {
            ask: self.ask.copied(alloc)?,
            words: Vec::from_slice(alloc, &self.words)?,
            reply: self.reply.copied(alloc)?,
        })
    }
}

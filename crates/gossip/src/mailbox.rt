//! The mailbox of a node. What was put there, and what was found there, is known by values that are
//! made nowhere else.

ghost use Rattle.std.specs.Prelude.{◌≡◌, ◌≤◌, ◌⊎◌, ◌↔◌, ◌++◌, ◌∷◌, [], IfOk, IfErr, IfSome, IfNone};
ghost use Rattle.std.specs.Prelude.{OnErr};
ghost use Rattle.std.specs.VecDeque.{deque_len};

use crate::wire::WireError;
use std::alloc::{AllocError, Global};
use std::collections::VecDeque;
use std::snapshot::Snapshot;
use std::sync::{Mutex, Wait};

/// The most messages that wait in a mailbox.
pub const MOST_MESSAGES: usize = 64;

/// A message that was put into the mailbox of a node.
#[derive(Drop)]
pub struct Posted {
    to: u8,
    message: Snapshot<Vec<u8>>,
}

/// What was found in the mailbox of a node: a message, which was taken, or none.
#[derive(Drop)]
pub struct Look {
    node: u8,
    found: Option<Vec<u8>>,
}

impl Look {
    /// The message that was taken.
    pub(crate) fn into_found(self) -> Option<Vec<u8>>
        ensures { result ≡ self.found }
    {
        self.found
    }
}

// The messages that wait for a node, the oldest first.
#[derive(Drop)]
struct Waiting {
    messages: VecDeque<Vec<u8>>,
    ghost few: { deque_len messages ≤ 64 },
}

impl Waiting {
    fn new(alloc: Global) -> Result<Waiting, AllocError>
        ensures { IfOk result (λ w. w.messages.items ≡ []) }
    {
        let messages = VecDeque::with_capacity(alloc, MOST_MESSAGES)?;
        Ok(Waiting { messages })
    }

    // Puts a message behind the others, where there is room, and answers what was put there.
    fn put(&mut self, message: Vec<u8>) -> Result<Snapshot<Vec<u8>>, WireError>
        ensures ok { IfOk result (λ put. put.value ≡ message) }
        ensures put { IfOk result (λ put.
            self.new.messages.items ≡ self.old.messages.items ++ put.value ∷ []) }
        ensures full { (result ≡ Err WireError.Full) ↔ (deque_len self.old.messages ≡ 64) }
        ensures only { IfErr result (λ e. (e ≡ WireError.Full) ⊎ (e ≡ WireError.OutOfMemory)) }
        ensures err { OnErr result (self.new.messages.items ≡ self.old.messages.items) }
    {
        if self.messages.len() >= MOST_MESSAGES {
            return Err(WireError::Full);
        }
        let put = Snapshot::of(&message);
        self.messages.push_back(message)?;
        Ok(put)
    }

    // Takes the oldest message.
    fn take(&mut self) -> Option<Vec<u8>>
        ensures some { IfSome result (λ m. self.old.messages.items ≡ m ∷ self.new.messages.items) }
        ensures none { IfNone result (self.old.messages.items ≡ []) }
    {
        self.messages.pop_front()
    }
}

/// The mailbox of a node, behind a lock.
#[derive(Drop)]
pub struct Mailbox {
    node: u8,
    waiting: Mutex<Waiting>,
}

impl Mailbox {
    /// An empty one.
    pub(crate) fn new(alloc: Global, node: u8) -> Result<Mailbox, AllocError>
        ensures { IfOk result (λ m. m.node ≡ node) }
    {
        let waiting = Mutex::new(Waiting::new(alloc)?);
        Ok(Mailbox { node, waiting })
    }

    /// Puts a message behind those that wait.
    pub(crate) fn put<R: Wait>(&self, rt: &R, message: Vec<u8>) -> Result<Posted, WireError>
        ensures to { IfOk result (λ posted. posted.to ≡ self.now.node) }
        ensures message { IfOk result (λ posted. posted.message.value ≡ message) }
        ensures only { IfErr result (λ e. (e ≡ WireError.Full) ⊎ (e ≡ WireError.OutOfMemory)) }
    {
        let mut waiting = self.waiting.lock(rt);
        let message = waiting.put(message)?;
        Ok(Posted {
            to: self.node,
            message,
        })
    }

    /// Takes the oldest message.
    pub(crate) fn look<R: Wait>(&self, rt: &R) -> Look
        ensures { result.node ≡ self.now.node }
    {
        let mut waiting = self.waiting.lock(rt);
        Look {
            node: self.node,
            found: waiting.take(),
        }
    }
}

//! What a node answers, with its task or its message where it stands.

ghost use Rattle.std.specs.Prelude.{◌≡◌, IfOk};
ghost use Rattle.node_calls.specs.Told.{passed, passed_ref, reply_told, reply_ref_told};

use crate::reply::{PassReply, Reply};
use actions::Task;
use stamp_register::Stamp;
use std::alloc::{AllocError, Global};

/// What a pass of a point came to, with its task where it stands: a `PassReply` without memory of its
/// own.
#[derive(Clone, Copy)]
pub enum PassReplyRef<'a> {
    /// The point isn't set here.
    Unset,
    /// The point is set, and none of its terms was triggered.
    NoTerm {
        stamp: Stamp,
    },
    /// This term was triggered, numbered from 0.
    Act {
        term: u8,
        stamp: Stamp,
        task: &'a Task,
    },
}

impl PassReplyRef<'_> {
    /// A value with memory of its own that says the same. The only error is out of memory.
    pub fn copied(self, alloc: Global) -> Result<PassReply, AllocError>
        ensures { IfOk result (λ copy. passed copy ≡ passed_ref self.entry) }
    {
        Ok(match self {
            PassReplyRef::Unset => PassReply::Unset,
            PassReplyRef::NoTerm { stamp } => PassReply::NoTerm { stamp },
            PassReplyRef::Act { term, stamp, task } => PassReply::Act {
                term,
                stamp,
                task: task.copied(alloc)?,
            },
        })
    }
}

/// The answer to an ask that was accepted, with its task or its message where it stands: a `Reply`
/// without memory of its own.
#[derive(Clone, Copy)]
pub enum ReplyRef<'a> {
    /// The stamp of the setting.
    Set(Stamp),
    /// The stamp of the removal.
    Remove(Stamp),
    /// How many entries were set.
    Load(u16),
    /// What the pass came to.
    Pass(PassReplyRef<'a>),
    /// How many rights were moved in all, from this node to that one.
    Shift(u64),
    /// How many rights this node granted itself in all.
    Grant(u64),
    /// The bytes of the message.
    Emit(&'a [u8]),
    /// Whether settings or cells changed.
    Deliver(bool),
}

impl ReplyRef<'_> {
    /// A value with memory of its own that says the same, to the byte. The only error is out of memory.
    pub fn copied(self, alloc: Global) -> Result<Reply, AllocError>
        ensures { IfOk result (λ copy. reply_told copy ≡ reply_ref_told self.entry) }
    {
        Ok(match self {
            ReplyRef::Set(stamp) => Reply::Set(stamp),
            ReplyRef::Remove(stamp) => Reply::Remove(stamp),
            ReplyRef::Load(entries) => Reply::Load(entries),
            ReplyRef::Pass(reply) => Reply::Pass(reply.copied(alloc)?),
            ReplyRef::Shift(total) => Reply::Shift(total),
            ReplyRef::Grant(total) => Reply::Grant(total),
            ReplyRef::Emit(message) => Reply::Emit(Vec::from_slice(alloc, message)?),
            ReplyRef::Deliver(changed) => Reply::Deliver(changed),
        })
    }
}

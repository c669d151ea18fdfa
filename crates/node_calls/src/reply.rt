//! What a node answers.

ghost use Rattle.std.specs.Prelude.{◌≡◌, IfOk};
ghost use Rattle.node_calls.specs.Told.{passed, passed_ref, reply_told, reply_ref_told};

use crate::reply_ref::{PassReplyRef, ReplyRef};
use actions::Task;
use stamp_register::Stamp;
use std::alloc::{AllocError, Global};

/// What a pass of a point came to. The caller carries the task out.
#[derive(Debug, Drop)]
pub enum PassReply {
    /// The point isn't set here.
    Unset,
    /// The point is set, and none of its terms was triggered.
    NoTerm { stamp: Stamp },
    /// This term was triggered, numbered from 0.
    Act { term: u8, stamp: Stamp, task: Task },
}

impl PassReply {
    /// The same, with its task where it stands.
    pub fn as_ref(&self) -> PassReplyRef<'_>
        ensures { passed_ref result ≡ passed self.now }
    {
        match self {
            PassReply::Unset => PassReplyRef::Unset,
            PassReply::NoTerm { stamp } => PassReplyRef::NoTerm { stamp: *stamp },
            PassReply::Act { term, stamp, task } => PassReplyRef::Act {
                term: *term,
                stamp: *stamp,
                task,
            },
        }
    }
}

/// The answer to an ask that was accepted.
#[derive(Debug)]
pub enum Reply {
    /// The stamp of the setting.
    Set(Stamp),
    /// The stamp of the removal.
    Remove(Stamp),
    /// How many entries were set.
    Load(u16),
    /// What the pass came to.
    Pass(PassReply),
    /// How many rights were moved in all, from this node to that one.
    Shift(u64),
    /// How many rights this node granted itself in all.
    Grant(u64),
    /// The bytes of the message.
    Emit(Vec<u8>),
    /// Whether settings or cells changed.
    Deliver(bool),
}

impl Drop for Reply {
    fn drop(self) {
        match self {
            Reply::Set(_) => {}
            Reply::Remove(_) => {}
            Reply::Load(_) => {}
            Reply::Pass(_) => {}
            Reply::Shift(_) => {}
            Reply::Grant(_) => {}
            Reply::Emit(_) => {}
            Reply::Deliver(_) => {}
        }
    }
}

impl Reply {
    /// The same, with its task or its message where it stands.
    pub fn as_ref(&self) -> ReplyRef<'_>
        ensures { reply_ref_told result ≡ reply_told self.now }
    {
        match self {
            Reply::Set(stamp) => ReplyRef::Set(*stamp),
            Reply::Remove(stamp) => ReplyRef::Remove(*stamp),
            Reply::Load(entries) => ReplyRef::Load(*entries),
            Reply::Pass(reply) => ReplyRef::Pass(reply.as_ref()),
            Reply::Shift(total) => ReplyRef::Shift(*total),
            Reply::Grant(total) => ReplyRef::Grant(*total),
            Reply::Emit(message) => ReplyRef::Emit(message.as_slice()),
            Reply::Deliver(changed) => ReplyRef::Deliver(*changed),
        }
    }

    /// A value of its own that says the same, to the byte. The only error is out of memory.
    pub fn copied(&self, alloc: Global) -> Result<Reply, AllocError>
        ensures { IfOk result (λ copy. reply_told copy ≡ reply_told self.now) }
    {
        self.as_ref().copied(alloc)
    }
}

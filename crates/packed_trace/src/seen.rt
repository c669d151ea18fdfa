//! A call of a trace, where it lies.

ghost use Rattle.std.specs.Prelude.{◌≡◌, IfOk, option_map};
ghost use Rattle.node_calls.specs.Told.{ask_ref_told, passed_ref, reply_ref_told, told};
ghost use Rattle.packed_trace.specs.Packed.{passed_in, seen_told};

use crate::pass::Pass;
use crate::row::{Row, reply_by};
use node_calls::{AskRef, Entry, PassReplyRef, Reply, ReplyRef};
use std::alloc::{AllocError, Global};

/// An accepted call, where it lies in its trace.
#[derive(Clone, Copy)]
pub enum Seen<'a> {
    /// A pass: the term that was triggered, counted from 0, and the random draw that it was given.
    Pass {
        row: &'a Row,
        term: Option<u8>,
        word: Option<u32>,
    },
    /// Any other call, or a pass that was given several random draws.
    Entry(&'a Entry),
}

impl<'a> Seen<'a> {
    /// What was asked.
    pub fn ask(self) -> AskRef<'a>
        ensures { ask_ref_told result ≡ (seen_told self.entry).ask }
    {
        match self {
            Seen::Pass { row, .. } => AskRef::Pass {
                name: row.name.text(),
            },
            Seen::Entry(entry) => entry.ask.as_ref(),
        }
    }

    /// What was answered.
    pub fn reply(self) -> ReplyRef<'a>
        ensures { reply_ref_told result ≡ (seen_told self.entry).reply }
    {
        match self {
            Seen::Pass { row, term, .. } => ReplyRef::Pass(reply_by(row.setting(), term)),
            Seen::Entry(entry) => entry.reply.as_ref(),
        }
    }

    /// What a pass was answered; none of another call.
    pub fn pass_reply(self) -> Option<PassReplyRef<'a>>
        ensures { option_map passed_ref result ≡ passed_in (seen_told self.entry).reply }
    {
        match self {
            Seen::Pass { row, term, .. } => Some(reply_by(row.setting(), term)),
            Seen::Entry(entry) => match &entry.reply {
                Reply::Pass(reply) => Some(reply.as_ref()),
                Reply::Set(_)
                | Reply::Remove(_)
                | Reply::Load(_)
                | Reply::Shift(_)
                | Reply::Grant(_)
                | Reply::Emit(_)
                | Reply::Deliver(_) => None,
            },
        }
    }

    /// An entry of its own that tells the same. The only error is out of memory.
    pub fn to_entry(self, alloc: Global) -> Result<Entry, AllocError>
        ensures { IfOk result (λ entry. told entry ≡ seen_told self.entry) }
    {
        match self {
            Seen::Pass { row, term, word } => Pass {
                name: &row.name,
                setting: row.setting(),
                term,
                words: word.as_slice(),
            }
            .to_entry(alloc),
            Seen::Entry(entry) => entry.copied(alloc),
        }
    }
}

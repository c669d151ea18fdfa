//! A pass that is to be kept.

ghost use Rattle.std.specs.Prelude.{◌≡◌, IfOk};
ghost use Rattle.node_calls.specs.Told.{passed_ref, told};
ghost use Rattle.packed_trace.specs.Packed.{passed_by, pass_value, setting_ref_told};

use crate::row::{SettingRef, reply_by};
use actions::Name;
use node_calls::{Ask, Entry, PassReplyRef, Reply};
use std::alloc::{AllocError, Global};

/// A pass: the name of its point, the setting of the point, if it is set, the term that was triggered,
/// counted from 0, and the random draws that it was given.
#[derive(Clone, Copy)]
pub struct Pass<'a> {
    pub name: &'a Name,
    pub setting: Option<SettingRef<'a>>,
    pub term: Option<u8>,
    pub words: &'a [u32],
}

/// A pass for which a trace has room, by the row that the trace has for it, or as an entry.
#[derive(Drop)]
pub enum Prepared {
    Pass {
        row: u16,
        term: Option<u8>,
        word: Option<u32>,
    },
    // An entry is twenty times as large as the rest, and would be moved with each pass.
    Entry(Box<Entry>),
}

impl<'a> Pass<'a> {
    /// What it is answered.
    pub fn reply(self) -> PassReplyRef<'a>
        ensures { passed_ref result ≡ passed_by (setting_ref_told self.entry.setting) self.entry.term }
    {
        reply_by(self.setting, self.term)
    }

    /// An entry that tells it. The only error is out of memory.
    pub fn to_entry(self, alloc: Global) -> Result<Entry, AllocError>
        ensures { IfOk result (λ entry. told entry ≡ pass_value self.entry) }
    {
        let name = String::from_str(alloc, self.name.text())?;
        let words = Vec::from_slice(alloc, self.words)?;
        let reply = self.reply().copied(alloc)?;
        Ok(Entry {
            ask: Ask::Pass { name },
            words,
            reply: Reply::Pass(reply),
        })
    }
}

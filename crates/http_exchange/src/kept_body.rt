//! What is kept of a body that comes in pieces.

ghost use Rattle.std.specs.Prelude.{◌≡◌, ◌+◌, ◌-◌, ◌<◌, ◌≤◌, ◌++◌, List, ℕ, [], length, vec_capacity, OnErr, OnOk};
ghost use Rattle.std.specs.Str.{is_utf8};
ghost use Rattle.message_format.specs.Spelling.{max_message};
ghost use Rattle.http_routes.specs.Bodies.{IsKept, most_kept};
ghost use Rattle.http_routes.specs.declared.table.Keeps.{Keeps};
ghost use Rattle.http_exchange.specs.Keeping.{HasCome};

use crate::text_check::TextCheck;
use http_routes::{Keeps, MAX_BODY};
use std::alloc::{AllocError, Global};
use std::str;

/// A byte that no text begins with.
const NO_TEXT: u8 = 0x80;

/// What is kept of a body that comes in pieces: its first bytes, as many as its route keeps.
#[derive(Drop)]
pub struct KeptBody {
    keeps: Keeps,
    read: Vec<u8>,
    // How many bytes came: at most one more than the longest body has.
    count: usize,
    check: TextCheck,
}

impl KeptBody {
    /// Where nothing came yet.
    pub fn new(alloc: Global, keeps: Keeps) -> KeptBody
        ensures { HasCome keeps result [] }
    {
        KeptBody {
            keeps,
            read: Vec::new(alloc),
            count: 0,
            check: TextCheck::new(),
        }
    }

    /// Of which nothing is kept.
    pub fn none(alloc: Global) -> KeptBody
        ensures { HasCome Keeps.Nothing result [] }
    {
        KeptBody::new(alloc, Keeps::Nothing)
    }

    /// How many bytes came, up to one more than the longest body has.
    pub fn count(&self) -> usize
        ensures { result ≡ self.now.count }
    {
        self.count
    }

    // How many bytes more are kept.
    fn room(&self) -> usize
        ensures { (keeps : Keeps) (came : List ℕ) → HasCome keeps self.now came
            → result ≡ most_kept keeps - length came }
    {
        let most = match self.keeps {
            Keeps::Nothing => 0,
            Keeps::Text(longest) => longest as usize + 1,
            Keeps::Whole => MAX_BODY,
        };
        most.saturating_sub(self.read.len())
    }

    /// Makes room, at once, for what is kept of so many bytes more. The only error is out of memory.
    pub fn reserve(&mut self, more: u64) -> Result<(), AllocError>
        ensures { (keeps : Keeps) (came : List ℕ) → HasCome keeps self.old came
            → HasCome keeps self.new came }
    {
        let room = self.room();
        self.read.reserve_exact(more.min(room as u64) as usize)
    }

    /// Takes the next piece. The only error is out of memory, where its bytes don't fit into the room that
    /// there was.
    pub fn add(&mut self, piece: &[u8]) -> Result<(), AllocError>
        ensures ok { OnOk result ((keeps : Keeps) (came : List ℕ) → HasCome keeps self.old came
            → HasCome keeps self.new (came ++ piece.now)) }
        ensures err { OnErr result (vec_capacity self.old.read
            < length self.old.read.items + length piece.now) }
        ensures stays { OnErr result ((keeps : Keeps) (came : List ℕ) → HasCome keeps self.old came
            → HasCome keeps self.new came) }
    {
        let room = self.room();
        self.read
            .extend_from_slice(&piece[..room.min(piece.len())])?;
        self.count = self.count.saturating_add(piece.len()).min(MAX_BODY + 1);
        if let Keeps::Text(_) = self.keeps {
            self.check.add(piece);
        }
        Ok(())
    }

    /// What stands for a body of which all came.
    pub fn into_bytes(self) -> Vec<u8>
        ensures { (keeps : Keeps) (came : List ℕ) → HasCome keeps self came
            → length came ≤ max_message → IsKept keeps came result.items }
    {
        let KeptBody {
            keeps,
            mut read,
            count,
            check,
        } = self;
        if let Keeps::Text(longest) = keeps
            && count > longest as usize + 1
        {
            stand_in(&mut read, check.is_text());
        }
        read
    }
}

// Makes of the first bytes of a longer body a text where the body is one, and else none.
fn stand_in(read: &mut [u8], is_text: bool)
    ensures len { length read.new ≡ length read.old }
    ensures text { 0 < length read.old → is_utf8 read.new ≡ is_text }
{
    if is_text {
        // A character may be cut off at the end.
        if let Err(cut) = str::from_utf8(read) {
            let end = cut.valid_up_to();
            read[end..].fill(b' ');
        }
    } else if let Some(first) = read.first_mut() {
        *first = NO_TEXT;
    }
}

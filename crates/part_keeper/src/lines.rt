//! The lines of a part that is written as its node goes on.

ghost use Rattle.std.specs.Prelude.{◌≡◌, ◌↔◌, true, false, not, IsErr, OnOk};
ghost use Rattle.std.specs.Io.KnownBytes.{Appends};
ghost use Rattle.streams.specs.Watched.{has_unflushed, inner_of};
ghost use Rattle.packed_trace.specs.Packed.{seen_told};
ghost use Rattle.drills.specs.Lines.{entry as entry_line};
ghost use Rattle.part_keeper.specs.Kept.{PutsLine, Records};

use crate::fault::NotRecorded;
use drills::write_entry;
use node_core::{AskRef, ReplyRef, Seen, Trace};
use std::alloc::Global;
use std::io;
use std::io::Write;
use streams::Watched;

/// How many bytes of lines wait to be written in one write. The line of a longer message is written
/// piece by piece.
const MOST_WAITING: usize = 1_048_576;

// How many bytes the message of a call has.
fn message_len(call: Seen<'_>) -> usize {
    match (call.ask(), call.reply()) {
        (AskRef::Deliver { message }, _) => message.len(),
        (_, ReplyRef::Emit(message)) => message.len(),
        _ => 0,
    }
}

/// Where the lines of a part go, until one couldn't be written.
#[derive(Drop)]
pub struct PartLines<W> {
    out: Watched<W>,
    has_failed: bool,
}

impl<W: Write> PartLines<W> {
    /// Lines go behind what a writer has.
    pub fn new(out: W) -> PartLines<W>
        ensures out { inner_of result.out ≡ out }
        ensures goes_on { result.has_failed ≡ false }
    {
        PartLines {
            out: Watched::new(out),
            has_failed: false,
        }
    }

    /// Whether lines are still written: until one couldn't be.
    pub fn goes_on(&self) -> bool
        ensures { result ≡ not self.now.has_failed }
    {
        !self.has_failed
    }

    /// Writes nothing from now on.
    pub(crate) fn end(&mut self)
        ensures out { self.new.out ≡ self.old.out }
        ensures failed { self.new.has_failed ≡ true }
    {
        self.has_failed = true;
    }

    // Writes bytes in one write, and flushes them.
    fn put(&mut self, bytes: &[u8]) -> io::Result<()>
        ensures ok { OnOk result (Appends (W.contents (inner_of self.old.out))
            (W.contents (inner_of self.new.out)) bytes.now) }
        ensures flushed { OnOk result (has_unflushed self.new.out ≡ false) }
        ensures same { self.new.has_failed ≡ self.old.has_failed }
    {
        self.out.write_all(bytes)?;
        self.out.flush()?;
        Ok(())
    }

    // Writes the line of a call after those that wait, unless it can wait with them.
    fn put_call(&mut self, alloc: Global, call: Seen<'_>, waiting: &mut Vec<u8>) -> io::Result<()>
        ensures ok { OnOk result (PutsLine W.contents (inner_of self.old.out)
            (inner_of self.new.out) waiting.old.items waiting.new.items
            (entry_line (seen_told call.entry))) }
        ensures same { self.new.has_failed ≡ self.old.has_failed }
    {
        if waiting.len().saturating_add(message_len(call)) <= MOST_WAITING {
            return write_entry(alloc, call, waiting);
        }
        self.out.write_all(waiting.as_slice())?;
        waiting.clear();
        write_entry(alloc, call, &mut self.out)
    }

    fn put_lines(&mut self, alloc: Global, trace: &Trace) -> io::Result<()>
        ensures ok { OnOk result (Records W.contents (inner_of self.old.out)
            (inner_of self.new.out) trace.now.calls) }
        ensures flushed { OnOk result (has_unflushed self.new.out ≡ false) }
        ensures same { self.new.has_failed ≡ self.old.has_failed }
    {
        let mut waiting = Vec::new(alloc);
        for index in 0..trace.len() {
            if let Some(call) = trace.at(index) {
                self.put_call(alloc, call, &mut waiting)?;
            }
        }
        self.put(waiting.as_slice())
    }

    /// Writes the line of each call of a trace, and flushes them: in one write, unless they are long. Once
    /// that fails nothing is written any more.
    pub fn keep(&mut self, alloc: Global, trace: &Trace) -> Result<(), NotRecorded>
        ensures ok { OnOk result (Records W.contents (inner_of self.old.out)
            (inner_of self.new.out) trace.now.calls) }
        ensures flushed { OnOk result (has_unflushed self.new.out ≡ false) }
        ensures failed { IsErr result ↔ (self.new.has_failed ≡ true) }
        ensures after { self.old.has_failed ≡ true → self.new ≡ self.old }
    {
        if self.has_failed {
            return Err(NotRecorded);
        }
        match self.put_lines(alloc, trace) {
            Ok(()) => Ok(()),
            Err(_) => {
                self.has_failed = true;
                Err(NotRecorded)
            }
        }
    }
}

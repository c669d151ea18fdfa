//! A journal that is written piece by piece.

ghost use Rattle.std.specs.Prelude.{◌≡◌, ◌<◌, ◌↔◌, ◌+◌, ◌^◌, true, false, not, length};
ghost use Rattle.std.specs.Prelude.{IfSome, IsErr, OnOk};
ghost use Rattle.streams.specs.Watched.{has_unflushed};
ghost use Rattle.std.specs.Option.{is_some};
ghost use Rattle.part_keeper.specs.Pieces.{Writes};

use crate::fault::NotRecorded;
use crate::lines::PartLines;
use node_registry::Piece;
use std::alloc::Global;
use std::io::Write;

/// Where the lines of a node's calls go, and how many of its calls have their line there.
#[derive(Drop)]
pub(crate) struct Journal<W> {
    lines: PartLines<W>,
    calls: u64,
}

impl<W: Write> Journal<W> {
    /// The journal of a node whose first so many calls have their lines there.
    pub(crate) fn new(lines: PartLines<W>, calls: u64) -> Journal<W>
        ensures { (result.lines ≡ lines) × (result.calls ≡ calls) }
    {
        Journal { lines, calls }
    }

    /// Whether lines are still written: until a piece couldn't be.
    pub(crate) fn goes_on(&self) -> bool
        ensures { result ≡ not self.now.lines.has_failed }
    {
        self.lines.goes_on()
    }

    /// How many calls have their line there.
    pub(crate) fn calls(&self) -> u64
        ensures { result ≡ self.now.calls }
    {
        self.calls
    }

    // How many calls it has with those of a piece, which has to begin where the journal ends.
    fn calls_with(&self, piece: &Piece) -> Option<u64>
        ensures some { (is_some result ≡ true) ↔ ((piece.now.from ≡ self.now.calls)
            × (self.now.calls + length piece.now.trace.calls < 2 ^ 64)) }
        ensures calls { IfSome result (λ calls. calls ≡ self.now.calls + length piece.now.trace.calls) }
    {
        if piece.from == self.calls {
            self.calls.checked_add(piece.trace.len() as u64)
        } else {
            None
        }
    }

    /// Writes the lines of a piece. A piece that doesn't begin where the journal ends isn't written: the
    /// journal would leave calls out, or have them twice. Once that fails nothing is written any more.
    pub(crate) fn write(&mut self, alloc: Global, piece: &Piece) -> Result<(), NotRecorded>
        ensures written { OnOk result (Writes W.contents self.old self.new piece.now) }
        ensures flushed { OnOk result (has_unflushed self.new.lines.out ≡ false) }
        ensures failed { IsErr result ↔ (self.new.lines.has_failed ≡ true) }
    {
        let Some(calls) = self.calls_with(piece) else {
            self.lines.end();
            return Err(NotRecorded);
        };
        self.lines.keep(alloc, &piece.trace)?;
        self.calls = calls;
        Ok(())
    }
}

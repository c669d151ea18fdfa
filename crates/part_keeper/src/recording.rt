//! A node's calls, each of which is written before its caller is told.

ghost use Rattle.std.specs.Prelude.{◌≡◌, ◌≢◌, ◌≤◌, ◌↔◌, ◌⊎◌, ◌+◌, [], true, false, not};
ghost use Rattle.std.specs.Prelude.{IfOk, IfErr, IsErr, OnOk, Err};
ghost use Rattle.streams.specs.Watched.{has_unflushed};
ghost use Rattle.node_registry.specs.Batches.{IsBatch};
ghost use Rattle.node_registry.specs.declared.guarded.Piece.{Piece};
ghost use Rattle.node_registry.specs.Cells.{Cell, IsCellSince};
ghost use Rattle.node_registry.specs.Pieces.{IsPieceOf};
ghost use Rattle.node_registry.specs.Receipts.{IsAnswered};
ghost use Rattle.node_registry.specs.Seats.{HasSameCalls};
ghost use Rattle.part_keeper.specs.Kept.{IsRecorded, IsUnanswered, Records};
ghost use Rattle.part_keeper.specs.Pieces.{Continues, HasLine};

use crate::fault::{CallFault, NotRecorded};
use crate::journal::Journal;
use crate::lines::PartLines;
use node_core::{Ask, Reply};
use node_registry::{Batch, Label, Registry, Seat};
use std::alloc::Global;
use std::io::Write;
use std::marker::PhantomData;
use std::sync::Wait;

/// A message that the recording of a node has handed back, which it does once the lines of all calls that
/// the node had accepted are written. Nobody else makes one, and each is had once: who sends messages of
/// such a node takes it in place of the message.
#[derive(Drop)]
pub struct AllWritten<'m, L: Label> {
    message: &'m [u8],
    calls: u64,
    of: PhantomData<L>,
}

impl<'m, L: Label> AllWritten<'m, L> {
    /// How many calls of the node have their lines written: all that it had accepted when the message was
    /// handed back.
    pub fn calls(&self) -> u64
        ensures { result ≡ self.now.calls }
    {
        self.calls
    }

    /// The message, which may leave now.
    pub fn into_message(self) -> &'m [u8]
        ensures { result.now ≡ self.entry.message.now }
    {
        self.message
    }
}

/// Whether calls are still made, as the recording had it when it was looked at. Only a recording makes one.
#[derive(Clone, Copy, Debug, PartialEq, Eq)]
pub struct RecordingState {
    goes_on: bool,
}

impl RecordingState {
    /// Whether calls are still made.
    pub fn goes_on(self) -> bool
        ensures { result ≡ self.goes_on }
    {
        self.goes_on
    }
}

/// What a recorder's lock guards: the seat from which a node is called, and the journal, which has the line
/// of each call of that seat, unless one couldn't be written.
#[derive(Drop)]
pub struct Recording<L: Label, W> {
    seat: Seat<L>,
    journal: Journal<W>,
    ghost forgets: { L.keeps ≡ false },
    ghost kept: { journal.lines.has_failed ≡ false → seat.calls ≤ journal.calls },
}

impl<L: Label, W: Write> Recording<L, W> {
    ghost use Rattle.part_keeper.specs.Outs.{out_of, written_of};

    /// Of a node whose calls so far were made from this seat, are written, and forgotten.
    pub fn new(seat: Seat<L>, lines: PartLines<W>) -> Recording<L, W>
        requires { L.keeps ≡ false }
        ensures held { (result.seat ≡ seat) × (result.journal.lines ≡ lines) }
        ensures written { written_of result ≡ seat.calls }
    {
        let written = seat.calls();
        Recording {
            seat,
            journal: Journal::new(lines, written),
        }
    }

    /// Whether calls are still made: until one couldn't be recorded.
    pub fn state(&self) -> RecordingState
        ensures { result.goes_on ≡ not self.now.journal.lines.has_failed }
    {
        RecordingState {
            goes_on: self.journal.goes_on(),
        }
    }

    /// Makes a call, writes its line behind those of the calls that were made before, and then answers
    /// its reply. Where that can't be written, it says so, and no call is made from then on.
    pub fn submit<R: Wait>(
        &mut self,
        rt: &R,
        alloc: Global,
        registry: &Registry<L>,
        ask: Ask,
    ) -> Result<Reply, CallFault>
        ensures answered { IfOk result (IsAnswered L.config L.seed ask) }
        ensures recorded { IfOk result
            (IsRecorded W.contents (out_of self.old) (out_of self.new) ask) }
        ensures journal { IfOk result (HasLine W.contents L.config L.seed L.keeps L.parts
            self.new.seat (out_of self.old) (out_of self.new) (written_of self.old)
            (written_of self.new) ask) }
        ensures flushed { OnOk result (has_unflushed self.new.journal.lines.out ≡ false) }
        ensures counted { OnOk result (self.new.seat.calls ≡ self.old.seat.calls + 1) }
        ensures unanswered { IfErr result (IsUnanswered L.config L.seed ask) }
        ensures unmade { IfErr result (λ fault. fault ≢ CallFault.NotRecorded
            → (self.new.seat ≡ self.old.seat) × (self.new.journal ≡ self.old.journal)) }
        ensures after { self.old.journal.lines.has_failed ≡ true
            → result ≡ Err CallFault.RecordingFailed }
    {
        if !self.journal.goes_on() {
            return Err(CallFault::RecordingFailed);
        }
        let (reply, piece) = match registry.submit_giving(rt, alloc, &mut self.seat, ask) {
            Ok(given) => given,
            Err(fault) => return Err(CallFault::Refused(fault)),
        };
        match self.journal.write(alloc, &piece) {
            Ok(()) => Ok(reply),
            Err(_) => {
                drop(reply);
                Err(CallFault::NotRecorded)
            }
        }
    }

    /// Makes the calls of a batch, writes their lines behind those of the calls that were made before,
    /// and then answers what came of them. Where those can't be written, it says so, and no call is made
    /// from then on.
    pub fn make_batch<R: Wait, T: Drop, B: Batch<T>>(
        &mut self,
        rt: &R,
        alloc: Global,
        registry: &Registry<L>,
        batch: &mut B,
    ) -> Result<T, CallFault>
        ensures made { IfOk result (λ answer. IsBatch L.config L.seed L.keeps L.parts
            self.old.seat self.new.seat (λ was now. B.comes batch.old batch.new was now answer)) }
        ensures kept { OnOk result ((c : Cell) × (piece : Piece)
            × IsCellSince L.config L.seed L.keeps L.parts self.new.seat c × IsPieceOf c piece
            × Records W.contents (out_of self.old) (out_of self.new) piece.trace.calls) }
        ensures journal { OnOk result (Continues W.contents L.config L.seed L.keeps L.parts
            self.new.seat (out_of self.old) (out_of self.new) (written_of self.old)
            (written_of self.new)) }
        ensures flushed { OnOk result (has_unflushed self.new.journal.lines.out ≡ false) }
        ensures only { IfErr result (λ fault.
            (fault ≡ CallFault.NotRecorded) ⊎ (fault ≡ CallFault.RecordingFailed)) }
        ensures unmade { IfErr result (λ fault. fault ≢ CallFault.NotRecorded
            → (self.new.seat ≡ self.old.seat) × (self.new.journal ≡ self.old.journal)) }
        ensures after { self.old.journal.lines.has_failed ≡ true
            → result ≡ Err CallFault.RecordingFailed }
    {
        if !self.state().goes_on() {
            return Err(CallFault::RecordingFailed);
        }
        let (answer, piece) = registry.make_batch_giving(rt, alloc, &mut self.seat, batch);
        match self.journal.write(alloc, &piece) {
            Ok(()) => Ok(answer),
            Err(_) => Err(CallFault::NotRecorded),
        }
    }

    /// Writes the lines of all calls that were made so far and aren't written yet, and answers what shows
    /// it, with no message.
    pub fn keep<R: Wait>(
        &mut self,
        rt: &R,
        alloc: Global,
        registry: &Registry<L>,
    ) -> Result<AllWritten<'static, L>, NotRecorded>
        ensures kept { OnOk result ((c : Cell) × (piece : Piece)
            × IsCellSince L.config L.seed L.keeps L.parts self.old.seat c × IsPieceOf c piece
            × Records W.contents (out_of self.old) (out_of self.new) piece.trace.calls) }
        ensures journal { OnOk result (Continues W.contents L.config L.seed L.keeps L.parts
            self.new.seat (out_of self.old) (out_of self.new) (written_of self.old)
            (written_of self.new)) }
        ensures flushed { OnOk result (has_unflushed self.new.journal.lines.out ≡ false) }
        ensures handed { IfOk result (λ written. (written.message.now ≡ [])
            × (written.calls ≡ written_of self.new)) }
        ensures failed { IsErr result ↔ (self.new.journal.lines.has_failed ≡ true) }
        ensures seat { HasSameCalls self.old.seat self.new.seat }
    {
        self.keep_before(rt, alloc, registry, b"")
    }

    /// Writes them before a message leaves that the node has made, and hands it back then.
    pub fn keep_before<'m, R: Wait>(
        &mut self,
        rt: &R,
        alloc: Global,
        registry: &Registry<L>,
        message: &'m [u8],
    ) -> Result<AllWritten<'m, L>, NotRecorded>
        ensures kept { OnOk result ((c : Cell) × (piece : Piece)
            × IsCellSince L.config L.seed L.keeps L.parts self.old.seat c × IsPieceOf c piece
            × Records W.contents (out_of self.old) (out_of self.new) piece.trace.calls) }
        ensures journal { OnOk result (Continues W.contents L.config L.seed L.keeps L.parts
            self.new.seat (out_of self.old) (out_of self.new) (written_of self.old)
            (written_of self.new)) }
        ensures flushed { OnOk result (has_unflushed self.new.journal.lines.out ≡ false) }
        ensures handed { IfOk result (λ written. (written.message.now ≡ message.now)
            × (written.calls ≡ written_of self.new)) }
        ensures failed { IsErr result ↔ (self.new.journal.lines.has_failed ≡ true) }
        ensures seat { HasSameCalls self.old.seat self.new.seat }
    {
        let piece = registry.give(rt, alloc, &mut self.seat);
        self.journal.write(alloc, &piece)?;
        Ok(AllWritten {
            message,
            calls: self.journal.calls(),
            of: PhantomData,
        })
    }
}

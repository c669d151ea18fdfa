//! What lies under a registry's lock, and the seats from which it is called.

ghost use Rattle.std.specs.Prelude.{◌≡◌, ℕ, ◌+◌, ◌*◌, ◌≤◌, ◌<◌, ◌⊎◌, List, drop, length, map};
ghost use Rattle.std.specs.Prelude.{vec_len, All, ◌-◌, Some, slice_get};
ghost use Rattle.std.specs.Prelude.{IfOk, IfErr, IfNone, IfSome, OnErr, OnOk, OnSome};
ghost use Rattle.std.specs.Prelude.{MatchOption, IsTrue, true, false};
ghost use Rattle.rand_chacha.specs.ChaCha.{key_of};
ghost use Rattle.node_calls.specs.Asks as asks;
ghost use Rattle.node_calls.specs.Asks.{Asked, ask_value_first, call_from};
ghost use Rattle.node_steps.specs.Nodes.{max_trace_cap};
ghost use Rattle.node_steps.specs.Refusals.{is_bad_config};
ghost use Rattle.node_registry.specs.Batches.{AreEntered};
ghost use Rattle.node_registry.specs.Cells.{Cell, Enters, IsCellOf, IsLawfulAt, IsRefusedBy};
ghost use Rattle.node_registry.specs.Cells.{Passes, Submits, cell_without_kept, new_cell};
ghost use Rattle.node_registry.specs.Pieces.{AreBytes, GivesCall, IsAllLeft, IsLeft, IsPieceOf};
ghost use Rattle.node_registry.specs.Pieces.{HasBytes, emitted_in};
ghost use Rattle.node_calls.specs.Told.{Told, ask_ref_told, bytes_of, reply_ref_told};
ghost use Rattle.node_registry.specs.Receipts.{IsEntryFor, IsNoneAt, IsReceiptAt, pass_receipt_of};
ghost use Rattle.node_registry.specs.Receipts.{receipt_of};
ghost use Rattle.node_registry.specs.Seats.{AreCalled, SeatState, amount_of, called, calls_from};
ghost use Rattle.node_registry.specs.Seats.{gave, given_by, new_seat};

use crate::batch::Batch;
use crate::cell::NodeCell;
use crate::label::Label;
use crate::pass_receipt::PassReceipt;
use actions::Name;
use node_core::{Ask, AskRef, Config, NodeCore, NodeFault, Receipt, Reply, ReplyRef, Trace};
use std::alloc::{AllocError, Global};
use std::marker::Model;
use std::sync::ledger::{Blank, Book, Share};

/// What the ledger counts for a call. The calls that all seats handed out are fewer, so the ledger's
/// total has both numbers.
const CALL: u64 = u64::MAX;

/// The right to call a registry. A seat counts the calls that were accepted from it and the calls
/// that it handed out, and has the number after that of its last call.
#[derive(Drop)]
pub struct Seat<L: Label> {
    calls: u64,
    given: u64,
    next: u64,
    share: Share<L>,
}

impl<L: Label> Model for Seat<L> {
    ghost Value = { SeatState };

    ghost view = { λ s. record { calls = s.calls; given = s.given; next = s.next } };

    ghost invariant = { λ s. (s.share.amount ≡ amount_of s.calls s.given) × (s.share.parts ≡ 1)
        × (s.given ≤ max_trace_cap) };
}

impl<L: Label> Seat<L> {
    /// How many calls were accepted from this seat.
    pub fn calls(&self) -> u64
        ensures { result ≡ self.now.calls }
    {
        self.calls
    }

    /// How many calls of the node's trace this seat handed out.
    pub fn given(&self) -> u64
        ensures { result ≡ self.now.given }
    {
        self.given
    }

    /// The number after that of the last call that was accepted from this seat, 0 before there is one.
    pub fn next(&self) -> u64
        ensures { result ≡ self.now.next }
    {
        self.next
    }
}

/// What lies under a registry's lock: a node with its generator, and the book of the calls that its
/// seats made and handed out. Contracts see it as the node with its generator.
#[derive(Drop)]
pub struct Guarded<L: Label> {
    cell: NodeCell,
    book: Book<L>,
}

impl<L: Label> Model for Guarded<L> {
    ghost Value = { Cell };

    ghost view = { λ g. g.cell };

    ghost invariant = { λ g.
        (g.book.total ≡ amount_of (length g.cell.node.trace) g.cell.node.from)
        × (g.cell.node.config ≡ L.config) × (g.cell.key ≡ key_of L.seed)
        × (L.keeps ≡ true → g.cell.node.from ≡ 0) × (L.parts < 256) };
}

/// A piece of a node's trace: the number of its first call, counted from 0, and the calls from there
/// on.
#[derive(Drop)]
pub struct Piece {
    pub from: u64,
    pub trace: Trace,
}

/// What is left of a registry: the calls that its node kept, the number of the first of them, counted
/// from 0, and how many calls were accepted from its seats.
#[derive(Drop)]
pub struct Closed {
    pub from: u64,
    pub trace: Trace,
    pub calls: u64,
}

impl<L: Label> Guarded<L> {
    /// A node that has accepted no call, with its seats. A refusal spends the blank.
    pub fn start(
        alloc: Global,
        blank: Blank,
        config: Config,
        seed: [u8; 32],
        seats: u8,
    ) -> Result<(Guarded<L>, Vec<Seat<L>>), NodeFault>
        requires name { blank.name ≡ L.name }
        requires parts { (blank.parts ≡ L.parts) × (L.parts ≡ seats) × (0 < seats) }
        requires config { config ≡ L.config }
        requires seed { seed ≡ L.seed }
        ensures ok { IfOk result (λ r. r.0 ≡ new_cell config seed) }
        ensures seats { IfOk result (λ r.
            (vec_len r.1 ≡ seats) × All (λ seat. seat ≡ new_seat) r.1.items) }
        ensures good { OnOk result (is_bad_config config ≡ false) }
        ensures err { IfErr result (λ f. (f ≡ NodeFault.OutOfMemory)
            ⊎ ((f ≡ NodeFault.BadConfig) × IsTrue (is_bad_config config))) }
    {
        let cell = NodeCell::new(alloc, config, seed)?;
        let (book, rest) = blank.open::<L>();
        let all = seated(alloc, rest, seats)?;
        Ok((Guarded { cell, book }, all))
    }

    /// The node, which is the label's.
    pub fn core(&self) -> &NodeCore
        ensures core { result.now ≡ self.now.node }
        ensures lawful { IsLawfulAt L.config L.seed self.now }
    {
        self.cell.core()
    }

    /// Makes a call as `NodeCell::enter` does, and counts it to the seat.
    pub fn enter(
        &mut self,
        alloc: Global,
        seat: &mut Seat<L>,
        ask: &Ask,
    ) -> Result<Receipt, NodeFault>
        ensures asked { IfOk result (λ r. IsEntryFor self.old.node.config.nodes ask.now r.entry) }
        ensures ok { IfOk result (λ r. Enters self.old self.new r.entry) }
        ensures receipt { IfOk result (λ r. r ≡ receipt_of self.old r.entry) }
        ensures counted { OnOk result (seat.new ≡ called seat.old (length self.old.node.trace)) }
        ensures since { OnOk result (seat.old.calls ≤ length self.old.node.trace) }
        ensures refused { IfErr result
            (IsRefusedBy self.old (ask_value_first self.old.node.config.nodes ask.now)) }
        ensures err { OnErr result ((self.new ≡ self.old) × (seat.new ≡ seat.old)) }
    {
        let copy = ask.copied(alloc)?;
        self.enter_owned(alloc, seat, copy)
    }

    /// Makes a call with an ask that goes into the receipt.
    pub(crate) fn enter_owned(
        &mut self,
        alloc: Global,
        seat: &mut Seat<L>,
        ask: Ask,
    ) -> Result<Receipt, NodeFault>
        ensures asked { IfOk result (λ r. r.entry.ask ≡ ask) }
        ensures ok { IfOk result (λ r. Enters self.old self.new r.entry) }
        ensures receipt { IfOk result (λ r. r ≡ receipt_of self.old r.entry) }
        ensures counted { OnOk result (seat.new ≡ called seat.old (length self.old.node.trace)) }
        ensures since { OnOk result (seat.old.calls ≤ length self.old.node.trace) }
        ensures lawful { IsLawfulAt L.config L.seed self.old }
        ensures refused { IfErr result
            (IsRefusedBy self.old (ask_value_first self.old.node.config.nodes ask)) }
        ensures err { OnErr result ((self.new ≡ self.old) × (seat.new ≡ seat.old)) }
    {
        let Guarded { cell, book } = self;
        let Seat {
            calls,
            given: _,
            next,
            share,
        } = seat;
        book.audit(share);
        let core = cell.core();
        let node = core.config().node;
        let index = core.calls();
        // The call says that no more calls were handed out than there are, and nothing else is wanted.
        let _ = core.from();
        let entry = cell.enter_owned(alloc, ask)?;
        book.add(share, CALL);
        *calls += 1;
        *next = index + 1;
        Ok(Receipt { node, index, entry })
    }

    /// Makes a call as `NodeCell::submit` does, and counts it to the seat.
    pub fn submit(
        &mut self,
        alloc: Global,
        seat: &mut Seat<L>,
        ask: Ask,
    ) -> Result<Reply, NodeFault>
        ensures ok { IfOk result (λ r. Submits self.old self.new ask r) }
        ensures counted { OnOk result (seat.new ≡ called seat.old (length self.old.node.trace)) }
        ensures since { OnOk result (seat.old.calls ≤ length self.old.node.trace) }
        ensures lawful { IsLawfulAt L.config L.seed self.old }
        ensures refused { IfErr result
            (IsRefusedBy self.old (ask_value_first self.old.node.config.nodes ask)) }
        ensures err { OnErr result ((self.new ≡ self.old) × (seat.new ≡ seat.old)) }
    {
        let Guarded { cell, book: ledger } = self;
        let Seat {
            calls,
            given: _,
            next,
            share,
        } = seat;
        ledger.audit(share);
        let core = cell.core();
        let number = core.calls();
        // The call says that no more calls were handed out than there are, and nothing else is wanted.
        let _ = core.from();
        let reply = cell.submit(alloc, ask)?;
        ledger.add(share, CALL);
        *calls += 1;
        *next = number + 1;
        Ok(reply)
    }

    /// Makes a call as `submit` does, and hands out the calls that the node keeps then, as `give` does: the
    /// last of them is this one.
    pub fn submit_giving(
        &mut self,
        alloc: Global,
        seat: &mut Seat<L>,
        ask: Ask,
    ) -> Result<(Reply, Piece), NodeFault>
        requires forgets { L.keeps ≡ false }
        requires given { seat.old.given ≤ self.old.node.from }
        ensures ok { IfOk result (λ r. (d : Cell) × GivesCall self.old d ask r.0 r.1
            × (self.new ≡ cell_without_kept d)
            × IsCellOf L.config L.seed L.keeps L.parts seat.new d) }
        ensures counted { IfOk result (λ r. seat.new
            ≡ gave (called seat.old (length self.old.node.trace)) (length r.1.trace.calls)) }
        ensures since { IsCellOf L.config L.seed L.keeps L.parts seat.old self.old }
        ensures refused { IfErr result
            (IsRefusedBy self.old (ask_value_first self.old.node.config.nodes ask)) }
        ensures err { OnErr result ((self.new ≡ self.old) × (seat.new ≡ seat.old)) }
    {
        self.audit(seat);
        is_asked(self.core(), ask.as_ref());
        let reply = self.submit(alloc, seat, ask)?;
        reply_has_bytes(reply.as_ref());
        let Some(piece) = self.give(alloc, seat) else {
            unreachable!()
        };
        last_has_bytes(&piece.trace);
        Ok((reply, piece))
    }

    /// Passes a point as `NodeCell::pass_point` does, and counts it to the seat.
    pub fn pass_point(
        &mut self,
        alloc: Global,
        seat: &mut Seat<L>,
        point: &Name,
    ) -> Result<PassReceipt, NodeFault>
        ensures ok { OnOk result (Passes self.old self.new point.now) }
        ensures receipt { IfOk result (λ r. r ≡ pass_receipt_of self.old point.now) }
        ensures counted { OnOk result (seat.new ≡ called seat.old (length self.old.node.trace)) }
        ensures since { OnOk result (seat.old.calls ≤ length self.old.node.trace) }
        ensures lawful { IsLawfulAt L.config L.seed self.old }
        ensures refused { IfErr result (IsRefusedBy self.old (asks.Pass point.now)) }
        ensures err { OnErr result ((self.new ≡ self.old) × (seat.new ≡ seat.old)) }
    {
        let Guarded { cell, book: tally } = self;
        let Seat {
            calls,
            given: _,
            next,
            share,
        } = seat;
        tally.audit(share);
        let core = cell.core();
        let node = core.config().node;
        let place = core.calls();
        // The call says that no more calls were handed out than there are, and nothing else is wanted.
        let _ = core.from();
        let outcome = cell.pass_point(alloc, point)?;
        tally.add(share, CALL);
        *calls += 1;
        *next = place + 1;
        Ok(PassReceipt {
            node,
            index: place,
            outcome,
        })
    }

    /// Makes the calls of a batch as `NodeCell::make_batch` does, and counts each to the seat.
    pub fn make_batch<T, B: Batch<T>>(
        &mut self,
        alloc: Global,
        seat: &mut Seat<L>,
        batch: &mut B,
    ) -> T
        ensures entered { (asks : List Asked) × AreEntered self.old asks self.new
            × AreCalled seat.old (length asks) (length self.new.node.trace) seat.new }
        ensures given { seat.new.given ≡ seat.old.given }
        ensures comes { B.comes batch.old batch.new self.old.node self.new.node result }
        ensures since { IsCellOf L.config L.seed L.keeps L.parts seat.old self.old }
    {
        self.audit(seat);
        let Guarded { cell, book: sums } = self;
        let Seat {
            calls,
            given: _,
            next,
            share,
        } = seat;
        let before = cell.core().calls();
        let answer = cell.make_batch(alloc, batch);
        let after = cell.core().calls();
        let more = after - before;
        add_calls(sums, share, more);
        *calls += more;
        if more != 0 {
            *next = after;
        }
        answer
    }

    /// Makes the calls of a batch as `make_batch` does, and hands out the calls that the node keeps then, as
    /// `give` does.
    pub fn make_batch_giving<T, B: Batch<T>>(
        &mut self,
        alloc: Global,
        seat: &mut Seat<L>,
        batch: &mut B,
    ) -> (T, Piece)
        requires forgets { L.keeps ≡ false }
        requires given { seat.old.given ≤ self.old.node.from }
        ensures entered { (d : Cell) × (asks : List Asked) × AreEntered self.old asks d
            × AreCalled seat.old (length asks) (length d.node.trace) seat.new
            × B.comes batch.old batch.new self.old.node d.node result.0
            × IsPieceOf d result.1 × (self.new ≡ cell_without_kept d)
            × IsCellOf L.config L.seed L.keeps L.parts seat.new d }
        ensures handed { seat.new.given ≡ seat.old.given + length result.1.trace.calls }
        ensures since { IsCellOf L.config L.seed L.keeps L.parts seat.old self.old }
    {
        let answer = self.make_batch(alloc, seat, batch);
        let Some(piece) = self.give(alloc, seat) else {
            unreachable!()
        };
        (answer, piece)
    }

    /// The receipt of an accepted call by its place in the trace of the node's whole life; none where
    /// the call is no longer kept, or there are fewer. There are at least the seat's, and no others if it
    /// is the only seat.
    pub fn receipt(
        &mut self,
        alloc: Global,
        seat: &mut Seat<L>,
        index: u64,
    ) -> Result<Option<Receipt>, AllocError>
        ensures found { IfOk result (λ found.
            MatchOption found (IsNoneAt self.old index) (IsReceiptAt self.old index)) }
        ensures since { IsCellOf L.config L.seed L.keeps L.parts seat.old self.old }
        ensures same { (self.new ≡ self.old) × (seat.new ≡ seat.old) }
    {
        self.audit(seat);
        let core = self.cell.core();
        let node = core.config().node;
        let Some(call) = core.at(index) else {
            return Ok(None);
        };
        let entry = call.to_entry(alloc)?;
        Ok(Some(Receipt { node, index, entry }))
    }

    /// Changes nothing, and says that the node has the seat's calls. If it is the only seat, just the
    /// calls that it handed out are no longer kept.
    pub fn audit(&mut self, seat: &mut Seat<L>)
        ensures since { IsCellOf L.config L.seed L.keeps L.parts seat.old self.old }
        ensures alone { L.parts ≡ 1 → seat.old.given ≡ self.old.node.from }
        ensures same { (self.new ≡ self.old) × (seat.new ≡ seat.old) }
    {
        let Guarded {
            cell,
            book: account,
        } = self;
        let Seat {
            calls: _,
            given: _,
            next: _,
            share,
        } = seat;
        account.audit(share);
        // The calls say that the cell is lawful, and that no more of its calls were handed out than
        // there are. Nothing else is wanted of them.
        let _ = cell.core().from();
    }

    /// Hands out the calls that the node keeps, keeps none, and counts them to the seat. Numbers of
    /// calls stay what they are. None where the seat handed out more than the node no longer keeps,
    /// and nothing is changed: so it is with no seat of a registry, but the ledger of its seats alone
    /// doesn't say so.
    pub fn give(&mut self, alloc: Global, seat: &mut Seat<L>) -> Option<Piece>
        requires { L.keeps ≡ false }
        ensures cell { OnSome result (self.new ≡ cell_without_kept self.old) }
        ensures piece { IfSome result (IsPieceOf self.old) }
        ensures counted { IfSome result (λ p. seat.new ≡ gave seat.old (length p.trace.calls)) }
        ensures since { IsCellOf L.config L.seed L.keeps L.parts seat.old self.old }
        ensures alone { L.parts ≡ 1 → seat.old.given ≡ self.old.node.from }
        ensures none { IfNone result (self.old.node.from < seat.old.given) }
        ensures same { IfNone result ((self.new ≡ self.old) × (seat.new ≡ seat.old)) }
    {
        self.audit(seat);
        let Guarded {
            cell,
            book: balance,
        } = self;
        let Seat {
            calls: _,
            given,
            next: _,
            share,
        } = seat;
        let core = cell.core();
        let first = core.from();
        if first < *given {
            return None;
        }
        let more = core.calls() - first;
        let trace = cell.give(alloc);
        balance.add(share, more);
        *given += more;
        Some(Piece { from: first, trace })
    }

    /// Takes all seats back. What is left is the end of a legal trace, which has as many entries as the
    /// seats made calls, and whose random draws are the first ones of the seed. It is all but what the
    /// seats handed out: all of it where they handed out none, as where the registry keeps each call.
    pub fn close(self, seats: Vec<Seat<L>>) -> Closed
        requires all { vec_len seats ≡ L.parts }
        requires some { 0 < L.parts }
        ensures trace { map (call_from L.config.nodes) result.trace.calls
            ≡ drop self.node.from self.node.trace }
        ensures from { result.from ≡ self.node.from }
        ensures given { result.from ≡ given_by seats.items }
        ensures left { IsLeft L.config L.seed result }
        ensures all { L.keeps ≡ true → IsAllLeft L.config L.seed result }
        ensures ungiven { given_by seats.items ≡ 0 → IsAllLeft L.config L.seed result }
        ensures calls { result.calls ≡ calls_from seats.items }
    {
        let Guarded { cell, mut book } = self;
        let mut all = gathered(seats);
        book.audit(&mut all);
        let core = cell.core();
        let from = core.from();
        let calls = core.calls();
        let trace = cell.into_trace();
        Closed { from, trace, calls }
    }
}

// The bytes of a message are bytes. Nothing here runs.
fn are_bytes(bytes: &[u8])
    ensures { AreBytes bytes.now }
{
    let _ = bytes;
}

fn ask_has_bytes(ask: AskRef<'_>)
    ensures { AreBytes (bytes_of (ask_ref_told ask.entry)) }
{
    match ask {
        AskRef::Deliver { message } => are_bytes(message),
        AskRef::Set { .. }
        | AskRef::Remove { .. }
        | AskRef::Load { .. }
        | AskRef::Pass { .. }
        | AskRef::Shift { .. }
        | AskRef::Grant { .. }
        | AskRef::Emit { .. } => are_bytes(&[]),
    }
}

fn reply_has_bytes(reply: ReplyRef<'_>)
    ensures { AreBytes (emitted_in (reply_ref_told reply.entry)) }
{
    match reply {
        ReplyRef::Emit(message) => are_bytes(message),
        ReplyRef::Set(_)
        | ReplyRef::Remove(_)
        | ReplyRef::Load(_)
        | ReplyRef::Pass(_)
        | ReplyRef::Shift(_)
        | ReplyRef::Grant(_)
        | ReplyRef::Deliver(_) => are_bytes(&[]),
    }
}

// What holds of each node and of each call that it is asked. Nothing here runs.
fn is_asked(core: &NodeCore, ask: AskRef<'_>)
    ensures few { core.now.config.nodes < 256 }
    ensures within { core.now.from ≤ length core.now.trace }
    ensures bytes { AreBytes (bytes_of (ask_ref_told ask.entry)) }
{
    let _ = core.config().nodes;
    let _ = core.from();
    ask_has_bytes(ask);
}

// And of the last call of a trace.
fn last_has_bytes(trace: &Trace)
    ensures { (t : Told) → slice_get trace.now.calls (length trace.now.calls - 1) ≡ Some t
        → HasBytes t }
{
    if let Some(call) = trace.last() {
        ask_has_bytes(call.ask());
        reply_has_bytes(call.reply());
    }
}

// Adds calls to a share, whose loop does nothing when a program runs.
fn add_calls<L: Label>(counted: &mut Book<L>, share: &mut Share<L>, calls: u64)
    requires { 0 < share.old.parts }
    ensures total { counted.new.total ≡ counted.old.total + amount_of calls 0 }
    ensures amount { share.new.amount ≡ share.old.amount + amount_of calls 0 }
    ensures parts { share.new.parts ≡ share.old.parts }
{
    for _ in 0..calls {
        counted.add(share, CALL);
    }
}

// A seat for each part.
fn seated<L: Label>(
    alloc: Global,
    mut rest: Share<L>,
    seats: u8,
) -> Result<Vec<Seat<L>>, AllocError>
    requires parts { rest.parts ≡ seats }
    requires amount { rest.amount ≡ 0 }
    ensures { IfOk result (λ v. (vec_len v ≡ seats) × All (λ seat. seat ≡ new_seat) v.items) }
{
    let mut all = Vec::with_capacity(alloc, usize::from(seats))?;
    for _ in 0..seats {
        let share = rest.split_off(1, 0);
        all.push_reserved(Seat {
            calls: 0,
            given: 0,
            next: 0,
            share,
        });
    }
    Ok(all)
}

// The shares of all seats in one.
fn gathered<L: Label>(mut seats: Vec<Seat<L>>) -> Share<L>
    requires { 0 < vec_len seats }
    ensures parts { result.parts ≡ vec_len seats }
    ensures amount { result.amount ≡ amount_of (calls_from seats.items) (given_by seats.items) }
    ensures few { given_by seats.items ≤ vec_len seats * max_trace_cap }
{
    let Some(
        Seat {
            calls: _,
            given: _,
            next: _,
            share: mut all,
        },
    ) = seats.pop()
    else {
        unreachable!()
    };
    while let Some(
        Seat {
            calls: _,
            given: _,
            next: _,
            share,
        },
    ) = seats.pop()
    {
        all.merge(share);
    }
    all
}

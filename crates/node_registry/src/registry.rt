//! One node behind one lock.

ghost use Rattle.std.specs.Prelude.{◌≡◌, ℕ, ◌≤◌, ◌<◌, ◌⊎◌, length, vec_len, All};
ghost use Rattle.std.specs.Prelude.{IfOk, IfErr, OnErr, OnOk, IsTrue, MatchOption, true, false};
ghost use Rattle.std.specs.Fn.{FnOnceReturnsAt};
ghost use Rattle.std.specs.Sync.Mutex.{mutex_guard_value};
ghost use Rattle.node_calls.specs.Asks as asks;
ghost use Rattle.node_calls.specs.Asks.{ask_value_first, bare_emit};
ghost use Rattle.node_calls.specs.Told.{ask_told, bytes_of};
ghost use Rattle.node_calls.specs.Asks.{emit_asked, message_read};
ghost use Rattle.node_steps.specs.Refusals.{is_bad_config};
ghost use Rattle.node_registry.specs.Batches.{IsBatch};
ghost use Rattle.node_registry.specs.Cells.{Cell, IsCellSince, IsLawfulAt};
ghost use Rattle.node_registry.specs.Pieces.{IsAllLeft, IsGivenBatch, IsGivenCall, IsLeft, IsPieceOf};
ghost use Rattle.node_registry.specs.Receipts.{IsAnswered, IsEntryFor, IsGiven, IsReceiptOf};
ghost use Rattle.node_registry.specs.Receipts.{IsNoneAt, IsPassReceipt, IsReceiptAt, IsRefused};
ghost use Rattle.node_registry.specs.Seats.{ComesNext, IsCalled, called, calls_from, gave, given_by};
ghost use Rattle.node_registry.specs.Seats.{new_seat};

use crate::batch::Batch;
use crate::guarded::{Closed, Guarded, Piece, Seat};
use crate::label::Label;
use crate::pass_receipt::PassReceipt;
use actions::Name;
use node_core::{Ask, Config, NodeCore, NodeFault, Receipt, Reply};
use std::alloc::{AllocError, Global};
use std::hint;
use std::sync::ledger::Blank;
use std::sync::{Mutex, MutexGuard, Wait};

/// How long a thread pauses each time that it finds a lock taken, before it sleeps until it gets it.
const PAUSES: [u32; 9] = [64, 128, 256, 512, 1024, 2048, 4096, 8192, 16384];

/// One node behind one lock. Each accepted call is one step of the node, made while the lock is
/// held, and its caller is given a receipt.
pub struct Registry<L: Label> {
    lock: Mutex<Guarded<L>>,
}

impl<L: Label> Drop for Registry<L> {
    fn drop(self) {
        let Registry { lock: _ } = self;
    }
}

impl<L: Label> Registry<L> {
    /// A node that has accepted no call, with its seats. A refusal spends the blank.
    pub fn start<R>(
        _rt: &R,
        alloc: Global,
        blank: Blank,
        config: Config,
        seed: [u8; 32],
        seats: u8,
    ) -> Result<(Registry<L>, Vec<Seat<L>>), NodeFault>
        requires name { blank.name ≡ L.name }
        requires parts { (blank.parts ≡ L.parts) × (L.parts ≡ seats) × (0 < seats) }
        requires config { config ≡ L.config }
        requires seed { seed ≡ L.seed }
        ensures seats { IfOk result (λ r.
            (vec_len r.1 ≡ seats) × All (λ seat. seat ≡ new_seat) r.1.items) }
        ensures good { OnOk result (is_bad_config config ≡ false) }
        ensures err { IfErr result (λ f. (f ≡ NodeFault.OutOfMemory)
            ⊎ ((f ≡ NodeFault.BadConfig) × IsTrue (is_bad_config config))) }
    {
        let (guarded, seats) = Guarded::start(alloc, blank, config, seed, seats)?;
        let lock = Mutex::new(guarded);
        Ok((Registry { lock }, seats))
    }

    // Takes the lock. A call holds it for less time than a thread takes to fall asleep and be woken, and
    // each look at a taken lock slows the thread that has it: so who finds it taken looks again later
    // and later.
    fn held<R: Wait>(&self, rt: &R) -> MutexGuard<'_, Guarded<L>> {
        for pauses in PAUSES {
            if let Some(guard) = self.lock.try_lock() {
                return guard;
            }
            for _ in 0..pauses {
                hint::spin_loop();
            }
        }
        self.lock.lock(rt)
    }

    // Takes the lock for a seat whose next call has at least this number. Each later holder of the
    // lock finds at least as many calls, but no clause says so of a lock: so it is looked at.
    fn held_since<R: Wait>(&self, rt: &R, next: u64) -> MutexGuard<'_, Guarded<L>>
        ensures { next ≤ length (mutex_guard_value result).node.trace }
    {
        for _ in rt.forever() {
            let guarded = self.held(rt);
            if next <= guarded.core().calls() {
                return guarded;
            }
        }
        unreachable!()
    }

    // Takes the lock for such a seat that hands calls out, where no fewer calls are handed out than it did.
    // No clause says that of a lock either.
    fn held_to_give<R: Wait>(&self, rt: &R, next: u64, given: u64) -> MutexGuard<'_, Guarded<L>>
        ensures since { next ≤ length (mutex_guard_value result).node.trace }
        ensures given { given ≤ (mutex_guard_value result).node.from }
    {
        for _ in rt.forever() {
            let guarded = self.held_since(rt, next);
            if given <= guarded.core().from() {
                return guarded;
            }
        }
        unreachable!()
    }

    /// Makes a call under the lock, as `Guarded::enter` does, and counts it to the seat. The copy of
    /// the ask that the receipt has is made before.
    pub fn enter<R: Wait>(
        &self,
        rt: &R,
        alloc: Global,
        seat: &mut Seat<L>,
        ask: &Ask,
    ) -> Result<Receipt, NodeFault>
        ensures receipt { IfOk result (λ r. (r.node ≡ L.config.node)
            × IsEntryFor L.config.nodes ask.now r.entry) }
        ensures given { IfOk result (IsGiven L.config L.seed) }
        ensures since { IfOk result (λ r. ComesNext seat.old r.index) }
        ensures counted { IfOk result (λ r. seat.new ≡ called seat.old r.index) }
        ensures refused { IfErr result
            (IsRefused L.config L.seed (ask_value_first L.config.nodes ask.now)) }
        ensures err { OnErr result (seat.new ≡ seat.old) }
    {
        let copy = ask.copied(alloc)?;
        self.enter_owned(rt, alloc, seat, copy)
    }

    /// Makes a call as `enter` does, with an ask that goes into the receipt and isn't copied.
    pub fn enter_owned<R: Wait>(
        &self,
        rt: &R,
        alloc: Global,
        seat: &mut Seat<L>,
        ask: Ask,
    ) -> Result<Receipt, NodeFault>
        ensures node { IfOk result (λ r. r.node ≡ L.config.node) }
        ensures asked { IfOk result (λ r. r.entry.ask ≡ ask) }
        ensures given { IfOk result (IsGiven L.config L.seed) }
        ensures since { IfOk result (λ r. ComesNext seat.old r.index) }
        ensures counted { IfOk result (λ r. seat.new ≡ called seat.old r.index) }
        ensures refused { IfErr result
            (IsRefused L.config L.seed (ask_value_first L.config.nodes ask)) }
        ensures err { OnErr result (seat.new ≡ seat.old) }
    {
        let mut guarded = self.held_since(rt, seat.next());
        guarded.enter_owned(alloc, seat, ask)
    }

    /// Makes a call under the lock with an ask that goes into the trace, counts it to the seat, and
    /// answers the reply alone: there is no receipt of it. The bytes of a message that is delivered
    /// aren't copied.
    pub fn submit<R: Wait>(
        &self,
        rt: &R,
        alloc: Global,
        seat: &mut Seat<L>,
        ask: Ask,
    ) -> Result<Reply, NodeFault>
        ensures answered { IfOk result (IsAnswered L.config L.seed ask) }
        ensures counted { OnOk result (IsCalled seat.old seat.new) }
        ensures refused { IfErr result
            (IsRefused L.config L.seed (ask_value_first L.config.nodes ask)) }
        ensures err { OnErr result (seat.new ≡ seat.old) }
    {
        let mut guarded = self.held_since(rt, seat.next());
        guarded.submit(alloc, seat, ask)
    }

    /// Makes a call as `submit` does, and hands out the calls that the node keeps then, as `give` does, under
    /// one lock: the last of them is this call, to the byte.
    pub fn submit_giving<R: Wait>(
        &self,
        rt: &R,
        alloc: Global,
        seat: &mut Seat<L>,
        ask: Ask,
    ) -> Result<(Reply, Piece), NodeFault>
        requires { L.keeps ≡ false }
        ensures given { IfOk result (λ r. IsGivenCall L.config L.seed L.keeps L.parts seat.old
            seat.new ask r.0 r.1) }
        ensures refused { IfErr result
            (IsRefused L.config L.seed (ask_value_first L.config.nodes ask)) }
        ensures err { OnErr result (seat.new ≡ seat.old) }
    {
        let mut guarded = self.held_to_give(rt, seat.next(), seat.given());
        guarded.submit_giving(alloc, seat, ask)
    }

    /// Sets a point to an action text.
    pub fn set<R: Wait>(
        &self,
        rt: &R,
        alloc: Global,
        seat: &mut Seat<L>,
        name: &str,
        text: &str,
    ) -> Result<Receipt, NodeFault>
        ensures receipt { IfOk result (IsReceiptOf L.config (asks.Set name.now text.now)) }
        ensures given { IfOk result (IsGiven L.config L.seed) }
        ensures since { IfOk result (λ r. ComesNext seat.old r.index) }
        ensures counted { IfOk result (λ r. seat.new ≡ called seat.old r.index) }
        ensures refused { IfErr result (IsRefused L.config L.seed (asks.Set name.now text.now)) }
        ensures err { OnErr result (seat.new ≡ seat.old) }
    {
        let name = String::from_str(alloc, name)?;
        let text = String::from_str(alloc, text)?;
        let ask = Ask::Set { name, text };
        self.enter_owned(rt, alloc, seat, ask)
    }

    /// Removes a point.
    pub fn remove<R: Wait>(
        &self,
        rt: &R,
        alloc: Global,
        seat: &mut Seat<L>,
        name: &str,
    ) -> Result<Receipt, NodeFault>
        ensures receipt { IfOk result (IsReceiptOf L.config (asks.Remove name.now)) }
        ensures given { IfOk result (IsGiven L.config L.seed) }
        ensures since { IfOk result (λ r. ComesNext seat.old r.index) }
        ensures counted { IfOk result (λ r. seat.new ≡ called seat.old r.index) }
        ensures refused { IfErr result (IsRefused L.config L.seed (asks.Remove name.now)) }
        ensures err { OnErr result (seat.new ≡ seat.old) }
    {
        let name = String::from_str(alloc, name)?;
        let ask = Ask::Remove { name };
        self.enter_owned(rt, alloc, seat, ask)
    }

    /// Sets the points of a setting text.
    pub fn load<R: Wait>(
        &self,
        rt: &R,
        alloc: Global,
        seat: &mut Seat<L>,
        text: &str,
    ) -> Result<Receipt, NodeFault>
        ensures receipt { IfOk result (IsReceiptOf L.config (asks.Load text.now)) }
        ensures given { IfOk result (IsGiven L.config L.seed) }
        ensures since { IfOk result (λ r. ComesNext seat.old r.index) }
        ensures counted { IfOk result (λ r. seat.new ≡ called seat.old r.index) }
        ensures refused { IfErr result (IsRefused L.config L.seed (asks.Load text.now)) }
        ensures err { OnErr result (seat.new ≡ seat.old) }
    {
        let text = String::from_str(alloc, text)?;
        let ask = Ask::Load { text };
        self.enter_owned(rt, alloc, seat, ask)
    }

    /// Passes a point, with the next random draws of the node's stream, as many as the point needs.
    pub fn pass<R: Wait>(
        &self,
        rt: &R,
        alloc: Global,
        seat: &mut Seat<L>,
        name: &str,
    ) -> Result<Receipt, NodeFault>
        ensures receipt { IfOk result (IsReceiptOf L.config (asks.Pass name.now)) }
        ensures given { IfOk result (IsGiven L.config L.seed) }
        ensures since { IfOk result (λ r. ComesNext seat.old r.index) }
        ensures counted { IfOk result (λ r. seat.new ≡ called seat.old r.index) }
        ensures refused { IfErr result (IsRefused L.config L.seed (asks.Pass name.now)) }
        ensures err { OnErr result (seat.new ≡ seat.old) }
    {
        let name = String::from_str(alloc, name)?;
        let ask = Ask::Pass { name };
        self.enter_owned(rt, alloc, seat, ask)
    }

    /// Moves rights to execute a counted term to another node.
    pub fn shift<R: Wait>(
        &self,
        rt: &R,
        alloc: Global,
        seat: &mut Seat<L>,
        name: &str,
        term: u8,
        to: u8,
        amount: u64,
    ) -> Result<Receipt, NodeFault>
        ensures receipt { IfOk result (IsReceiptOf L.config (asks.Shift name.now term to amount)) }
        ensures given { IfOk result (IsGiven L.config L.seed) }
        ensures since { IfOk result (λ r. ComesNext seat.old r.index) }
        ensures counted { IfOk result (λ r. seat.new ≡ called seat.old r.index) }
        ensures refused { IfErr result
            (IsRefused L.config L.seed (asks.Shift name.now term to amount)) }
        ensures err { OnErr result (seat.new ≡ seat.old) }
    {
        let name = String::from_str(alloc, name)?;
        let ask = Ask::Shift {
            name,
            term,
            to,
            amount,
        };
        self.enter_owned(rt, alloc, seat, ask)
    }

    /// Grants the node rights to execute a counted term beyond its count.
    pub fn grant<R: Wait>(
        &self,
        rt: &R,
        alloc: Global,
        seat: &mut Seat<L>,
        name: &str,
        term: u8,
        amount: u64,
    ) -> Result<Receipt, NodeFault>
        ensures receipt { IfOk result (IsReceiptOf L.config (asks.Grant name.now term amount)) }
        ensures given { IfOk result (IsGiven L.config L.seed) }
        ensures since { IfOk result (λ r. ComesNext seat.old r.index) }
        ensures counted { IfOk result (λ r. seat.new ≡ called seat.old r.index) }
        ensures refused { IfErr result
            (IsRefused L.config L.seed (asks.Grant name.now term amount)) }
        ensures err { OnErr result (seat.new ≡ seat.old) }
    {
        let name = String::from_str(alloc, name)?;
        let ask = Ask::Grant { name, term, amount };
        self.enter_owned(rt, alloc, seat, ask)
    }

    /// Makes a message to another node. The receipt's reply has its bytes.
    pub fn emit<R: Wait>(
        &self,
        rt: &R,
        alloc: Global,
        seat: &mut Seat<L>,
        to: u8,
    ) -> Result<Receipt, NodeFault>
        ensures receipt { IfOk result (λ r.
            IsReceiptOf L.config (emit_asked L.config.nodes to r.entry.reply) r) }
        ensures given { IfOk result (IsGiven L.config L.seed) }
        ensures since { IfOk result (λ r. ComesNext seat.old r.index) }
        ensures counted { IfOk result (λ r. seat.new ≡ called seat.old r.index) }
        ensures refused { IfErr result (IsRefused L.config L.seed (bare_emit to)) }
        ensures err { OnErr result (seat.new ≡ seat.old) }
    {
        let ask = Ask::Emit { to };
        self.enter_owned(rt, alloc, seat, ask)
    }

    /// Takes in a message of another node, as bytes.
    pub fn deliver<R: Wait>(
        &self,
        rt: &R,
        alloc: Global,
        seat: &mut Seat<L>,
        message: &[u8],
    ) -> Result<Receipt, NodeFault>
        ensures receipt { IfOk result
            (IsReceiptOf L.config (asks.Deliver (message_read L.config.nodes message.now))) }
        ensures bytes { IfOk result (λ r. bytes_of (ask_told r.entry.ask) ≡ message.now) }
        ensures given { IfOk result (IsGiven L.config L.seed) }
        ensures since { IfOk result (λ r. ComesNext seat.old r.index) }
        ensures counted { IfOk result (λ r. seat.new ≡ called seat.old r.index) }
        ensures refused { IfErr result
            (IsRefused L.config L.seed (asks.Deliver (message_read L.config.nodes message.now))) }
        ensures err { OnErr result (seat.new ≡ seat.old) }
    {
        let message = Vec::from_slice(alloc, message)?;
        let ask = Ask::Deliver { message };
        self.enter_owned(rt, alloc, seat, ask)
    }

    /// Passes a point by its name, as `pass` does, and answers where the pass lies in the node's trace
    /// and what it came to. No text is copied: `receipt` has the rest.
    pub fn pass_point<R: Wait>(
        &self,
        rt: &R,
        alloc: Global,
        seat: &mut Seat<L>,
        point: &Name,
    ) -> Result<PassReceipt, NodeFault>
        ensures receipt { IfOk result (IsPassReceipt L.config L.seed point.now) }
        ensures since { IfOk result (λ r. ComesNext seat.old r.index) }
        ensures counted { IfOk result (λ r. seat.new ≡ called seat.old r.index) }
        ensures refused { IfErr result (IsRefused L.config L.seed (asks.Pass point.now)) }
        ensures err { OnErr result (seat.new ≡ seat.old) }
    {
        let mut guarded = self.held_since(rt, seat.next());
        guarded.pass_point(alloc, seat, point)
    }

    /// Makes the calls of a batch under the lock, so that no call of another seat comes between them,
    /// counts each to the seat, and answers what came of them. None of them is a pass.
    pub fn make_batch<R: Wait, T, B: Batch<T>>(
        &self,
        rt: &R,
        alloc: Global,
        seat: &mut Seat<L>,
        batch: &mut B,
    ) -> T
        ensures batch { IsBatch L.config L.seed L.keeps L.parts seat.old seat.new
            (λ was now. B.comes batch.old batch.new was now result) }
        ensures given { seat.new.given ≡ seat.old.given }
    {
        let mut guarded = self.held_since(rt, seat.next());
        guarded.make_batch(alloc, seat, batch)
    }

    /// Makes the calls of a batch as `make_batch` does, and hands out the calls that the node keeps then, as
    /// `give` does, under one lock.
    pub fn make_batch_giving<R: Wait, T, B: Batch<T>>(
        &self,
        rt: &R,
        alloc: Global,
        seat: &mut Seat<L>,
        batch: &mut B,
    ) -> (T, Piece)
        requires { L.keeps ≡ false }
        ensures { IsGivenBatch L.config L.seed L.keeps L.parts seat.old seat.new
            (λ was now. B.comes batch.old batch.new was now result.0) result.1 }
    {
        let mut guarded = self.held_to_give(rt, seat.next(), seat.given());
        guarded.make_batch_giving(alloc, seat, batch)
    }

    /// The receipt of an accepted call by its place in the trace of the node's whole life, counted from
    /// 0; none where the call is no longer kept, or there are fewer. There are at least the seat's, and
    /// no others if it is the only seat. What the call was asked and answered is copied under the lock:
    /// `with` lends it. The only error is out of memory.
    pub fn receipt<R: Wait>(
        &self,
        rt: &R,
        alloc: Global,
        seat: &mut Seat<L>,
        index: u64,
    ) -> Result<Option<Receipt>, AllocError>
        ensures found { IfOk result (λ found. (c : Cell)
            × IsCellSince L.config L.seed L.keeps L.parts seat.old c
            × MatchOption found (IsNoneAt c index) (IsReceiptAt c index)) }
        ensures same { seat.new ≡ seat.old }
    {
        let mut guarded = self.held_since(rt, seat.next());
        guarded.receipt(alloc, seat, index)
    }

    /// Lends the node under the lock, and answers what is answered there. The node is the label's,
    /// its trace is legal, and its passes were given the random draws of the stream in order.
    pub fn with<R: Wait, T, F: FnOnce(&NodeCore) -> T>(&self, rt: &R, f: F) -> T
        requires { F.IsAlwaysCallable f }
        ensures { (c : Cell) × IsLawfulAt L.config L.seed c
            × FnOnceReturnsAt F.FnOnce f c.node result }
    {
        let guarded = self.held(rt);
        f(guarded.core())
    }

    /// Lends the node under the lock, as `with` does, to a seat: the node has the seat's calls.
    pub fn with_seat<R: Wait, T, F: FnOnce(&NodeCore) -> T>(
        &self,
        rt: &R,
        seat: &mut Seat<L>,
        f: F,
    ) -> T
        requires { F.IsAlwaysCallable f }
        ensures seen { (c : Cell) × IsCellSince L.config L.seed L.keeps L.parts seat.old c
            × FnOnceReturnsAt F.FnOnce f c.node result }
        ensures same { seat.new ≡ seat.old }
    {
        let mut guarded = self.held_since(rt, seat.next());
        guarded.audit(seat);
        f(guarded.core())
    }

    /// Hands out the calls that the node keeps, keeps none, and counts them to the seat: to be written
    /// or looked at once the lock is let go. Receipts' numbers stay what they are. It takes no memory.
    pub fn give<R: Wait>(&self, rt: &R, alloc: Global, seat: &mut Seat<L>) -> Piece
        requires { L.keeps ≡ false }
        ensures piece { (c : Cell) × IsCellSince L.config L.seed L.keeps L.parts seat.old c
            × IsPieceOf c result }
        ensures counted { seat.new ≡ gave seat.old (length result.trace.calls) }
    {
        let mut guarded = self.held_to_give(rt, seat.next(), seat.given());
        let Some(piece) = guarded.give(alloc, seat) else {
            unreachable!()
        };
        piece
    }

    /// Takes all seats back. What is left is the end of a legal trace, which has as many entries as the
    /// seats made calls, and whose random draws are the first ones of the seed. It is all but what the
    /// seats handed out: all of it where they handed out none, as where the registry keeps each call.
    pub fn close(self, seats: Vec<Seat<L>>) -> Closed
        requires all { vec_len seats ≡ L.parts }
        requires some { 0 < L.parts }
        ensures left { IsLeft L.config L.seed result }
        ensures all { L.keeps ≡ true → IsAllLeft L.config L.seed result }
        ensures ungiven { given_by seats.items ≡ 0 → IsAllLeft L.config L.seed result }
        ensures from { result.from ≡ given_by seats.items }
        ensures calls { result.calls ≡ calls_from seats.items }
    {
        let Registry { lock } = self;
        lock.into_inner().close(seats)
    }
}

//! A replica with versions.
#![tactic(auto, unfolding(crate::specs::Versions::value_of))]

ghost use Rattle.std.specs.Prelude.{◌≡◌, ◌≢◌, ◌+◌, ◌<◌, ◌^◌, ℕ, List, Some, false, map, option_map};
ghost use Rattle.std.specs.Prelude.{IfOk, IsSome, OnOk, OnErr};
ghost use Rattle.stamp_register.specs.Keys.{key_value};
ghost use Rattle.replica_state.specs.States.{budget_of, with_key, with_pass, with_shifts};
ghost use Rattle.std.specs.List.{AllByRecursion};
ghost use Rattle.operations.specs.Operations.{Operation, IsWellFormed, ShiftsToAnother, operation};
ghost use Rattle.replica_state.specs.Knowledge.{is_upto, changes};
ghost use Rattle.operations.specs.declared.counted.Counted.TheVariants.{Execs};
ghost use Rattle.message_format.specs.Messages.{message_value, operations_in};
ghost use Rattle.message_format.specs.Spelling.{IsMessage};
ghost use Rattle.delta_exchange.specs.Marks.{marks_value, AreUpto};

use crate::learning::replica_of;
use crate::marks::Marks;
use crate::news::{Told, learned, make_room, mark_all, news_of_message, news_of_ops};
use crate::versions::NodeVersions;
use actions::Name;
use message_format::Message;
use replica_state::{Counted, Op, Replica};
use stamp_register::{Body, Key};
use std::alloc::{AllocError, Global};

/// A replica with versions: it counts the changes of its state, knows when each key and each cell
/// last changed, and keeps of each other node the version that it has of it and the version that
/// the other is known to have.
#[derive(Debug)]
pub struct Versioned<R> {
    pub(crate) replica: R,
    version: u64,
    known: NodeVersions,
    acked: NodeVersions,
    pub(crate) marks: Marks,
    ghost upto: { AreUpto (marks_value marks) version },
}

impl<R: Drop> Drop for Versioned<R> {
    fn drop(self) {
        let Versioned {
            replica: _,
            version: _,
            known: _,
            acked: _,
            marks: _,
        } = self;
    }
}

// What a pass counts beside the hit, where it executes a counted term.
fn executed(spent: Option<u8>, node: u8) -> Option<Counted>
    ensures { result ≡ option_map (λ term. Execs term node) spent }
{
    spent.map(|term| Counted::Execs { term, node })
}

impl<R: Replica> Versioned<R> {
    ghost use Rattle.delta_exchange.specs.News.{news_in, news_of, operation_of, Brings, BringsNews};
    ghost use Rattle.delta_exchange.specs.Versions.{value_of, nothing_known, MayPass, ChangesTo, Issues, Receives};

    /// The replica that knows nothing, at version 0.
    pub fn new(alloc: Global) -> Versioned<R>
        ensures { value_of R.state result ≡ nothing_known }
    {
        Versioned {
            replica: R::empty(alloc),
            version: 0,
            known: NodeVersions::new(alloc),
            acked: NodeVersions::new(alloc),
            marks: Marks::new(alloc),
        }
    }

    /// The replica.
    pub fn state(&self) -> &R
        ensures { R.state result.now ≡ (value_of R.state self.now).state }
    {
        &self.replica
    }

    /// How many calls changed the state.
    pub fn version(&self) -> u64
        ensures { result ≡ (value_of R.state self.now).version }
    {
        self.version
    }

    /// The version of another node that this one has, 0 at first.
    pub fn known(&self, from: u8) -> u64
        ensures { result ≡ (value_of R.state self.now).known from }
    {
        self.known.version(from)
    }

    /// The version of this node that another one is known to have, 0 at first.
    pub fn acked(&self, to: u8) -> u64
        ensures { result ≡ (value_of R.state self.now).acked to }
    {
        self.acked.version(to)
    }

    /// Gives a point a key above the one that it has. Where memory is refused, nothing has changed.
    pub fn set_key(&mut self, alloc: Global, name: Name, key: Key) -> Result<(), AllocError>
        requires above { is_upto (Some (key_value key))
            ((value_of R.state self.old).state.key name) ≡ false }
        requires version { (value_of R.state self.old).version + 1 < 2 ^ 64 }
        ensures ok { OnOk result (ChangesTo (value_of R.state self.old)
            (with_key name (key_value key) (value_of R.state self.old).state)
            (value_of R.state self.new)) }
        ensures err { OnErr result (value_of R.state self.new ≡ value_of R.state self.old) }
    {
        self.marks.make_room(alloc, &name, None)?;
        let marked = name.copied(alloc)?;
        self.replica.set_key(alloc, name, key)?;
        self.version += 1;
        self.marks.renew(&marked, self.version);
        Ok(())
    }

    /// Counts a pass of a point at a node and, where a counted term was triggered, its execution
    /// there. Where memory is refused, nothing has changed.
    #[inline(always)]
    pub fn count_pass(
        &mut self,
        alloc: Global,
        name: &Name,
        node: u8,
        spent: Option<u8>,
    ) -> Result<(), AllocError>
        requires { MayPass (value_of R.state self.old) name.now node spent }
        ensures ok { OnOk result (ChangesTo (value_of R.state self.old)
            (with_pass name.now node spent (value_of R.state self.old).state)
            (value_of R.state self.new)) }
        ensures err { OnErr result (value_of R.state self.new ≡ value_of R.state self.old) }
    {
        let hits = Some(Counted::Hits { node });
        let execs = executed(spent, node);
        let Some(marks) = self.marks.names.get_mut(name) else {
            return self.count_unmarked_pass(alloc, name, node, spent);
        };
        marks.make_pass_room(hits, execs)?;
        self.replica.count_pass(alloc, name, node, spent)?;
        self.version += 1;
        marks.mark_pass(node, hits, execs, self.version);
        Ok(())
    }

    // Counts a pass of a name that has no marks yet.
    fn count_unmarked_pass(
        &mut self,
        alloc: Global,
        name: &Name,
        node: u8,
        spent: Option<u8>,
    ) -> Result<(), AllocError>
        requires { MayPass (value_of R.state self.old) name.now node spent }
        ensures ok { OnOk result (ChangesTo (value_of R.state self.old)
            (with_pass name.now node spent (value_of R.state self.old).state)
            (value_of R.state self.new)) }
        ensures err { OnErr result (value_of R.state self.new ≡ value_of R.state self.old) }
    {
        let hits = Some(Counted::Hits { node });
        let execs = executed(spent, node);
        self.marks.make_room(alloc, name, hits)?;
        self.marks.make_room(alloc, name, execs)?;
        self.replica.count_pass(alloc, name, node, spent)?;
        self.version += 1;
        self.marks.mark(name, false, hits, self.version);
        self.marks.mark(name, false, execs, self.version);
        Ok(())
    }

    /// Counts the rights to a counted term of the point's key that one node moved to another, or
    /// granted itself where both are one, so many in all and more than before. Where memory is
    /// refused, nothing has changed.
    pub fn count_shift(
        &mut self,
        alloc: Global,
        name: &Name,
        term: u8,
        from: u8,
        to: u8,
        total: u64,
    ) -> Result<(), AllocError>
        requires set { IsSome ((value_of R.state self.old).state.key name.now) }
        requires more { (value_of R.state self.old).state.shifts name.now term from to < total }
        requires counted { IsSome (budget_of (value_of R.state self.old).state name.now term) }
        requires version { (value_of R.state self.old).version + 1 < 2 ^ 64 }
        ensures ok { OnOk result (ChangesTo (value_of R.state self.old)
            (with_shifts name.now term from to total (value_of R.state self.old).state)
            (value_of R.state self.new)) }
        ensures err { OnErr result (value_of R.state self.new ≡ value_of R.state self.old) }
    {
        let shifts = Some(Counted::Shifts { term, from, to });
        self.marks.make_room(alloc, name, shifts)?;
        self.replica
            .count_shift(alloc, name, term, from, to, total)?;
        self.version += 1;
        self.marks.mark(name, false, shifts, self.version);
        Ok(())
    }

    /// Learns operations that this node issues, all at once. The answer says whether they change
    /// the state, and then the version is one higher. Where memory is refused, nothing has changed.
    pub fn issue(&mut self, alloc: Global, ops: &[Op]) -> Result<bool, AllocError>
        requires formed { AllByRecursion IsWellFormed (map operation ops.now) }
        requires others { AllByRecursion ShiftsToAnother ops.now }
        requires version { (value_of R.state self.old).version + 1 < 2 ^ 64 }
        ensures changed { IfOk result (λ changed. changed
            ≡ changes (value_of R.state self.old).state (map operation ops.now)) }
        ensures ok { OnOk result (Issues (value_of R.state self.old)
            (map operation ops.now) (value_of R.state self.new)) }
        ensures err { OnErr result (value_of R.state self.new ≡ value_of R.state self.old) }
    {
        let no_key = Key {
            clock: 0,
            node: 0,
            body: Body::Removed,
        };
        let news = news_of_ops(alloc, &self.replica, ops, &no_key)?;
        self.learn_news(alloc, &news)
    }

    // Learns the news of operations, all at once, as one change. The answer says whether there are
    // any.
    fn learn_news(&mut self, alloc: Global, news: &[Told]) -> Result<bool, AllocError>
        requires news { (told : List Operation) × AllByRecursion IsWellFormed told
            × (map news_of news.now ≡ news_in (value_of R.state self.old).state told) }
        requires version { (value_of R.state self.old).version + 1 < 2 ^ 64 }
        ensures changed { IfOk result (λ changed. (told : List Operation)
            → map news_of news.now ≡ news_in (value_of R.state self.old).state told
            → changed ≡ changes (value_of R.state self.old).state told) }
        ensures ok { OnOk result ((told : List Operation)
            → map news_of news.now ≡ news_in (value_of R.state self.old).state told
            → Issues (value_of R.state self.old) told (value_of R.state self.new)) }
        ensures err { OnErr result (value_of R.state self.new ≡ value_of R.state self.old) }
    {
        let received = learned(alloc, news)?;
        self.learn(alloc, news, received)
    }

    /// Learns what a message tells, all at once: its operations, the version of its sender, if this
    /// node has all that lies before, and the version of this node that the sender has. The answer
    /// says whether the state changes, and then the version is one higher. Where memory is refused,
    /// nothing has changed.
    pub fn receive(&mut self, alloc: Global, message: &Message) -> Result<bool, AllocError>
        requires message { (nodes : ℕ) × IsMessage nodes (message_value message.now) }
        requires version { (value_of R.state self.old).version + 1 < 2 ^ 64 }
        ensures changed { IfOk result (λ changed. changed ≡ changes
            (value_of R.state self.old).state (operations_in (message_value message.now))) }
        ensures ok { OnOk result (Receives (value_of R.state self.old)
            (message_value message.now) (value_of R.state self.new)) }
        ensures err { OnErr result (value_of R.state self.new ≡ value_of R.state self.old) }
    {
        let received = self.news(alloc, message)?;
        self.receive_replica(alloc, message, received)
    }

    /// What of a message is to be learned, as a replica that is merged: one that knows nothing, where
    /// all of the message is known, and else all that it tells. Only out of memory is an error.
    pub fn news(&self, alloc: Global, message: &Message) -> Result<R, AllocError>
        requires { (nodes : ℕ) × IsMessage nodes (message_value message.now) }
        ensures { IfOk result (λ received. Brings (value_of R.state self.now).state
            (R.state received) (operations_in (message_value message.now))) }
    {
        let news = news_of_message(alloc, &self.replica, message)?;
        if news.is_empty() {
            return Ok(R::empty(alloc));
        }
        replica_of(alloc, message)
    }

    /// Does what `receive` does, where what is to be learned of the message is at hand, as `news`
    /// answers it.
    pub fn receive_replica(
        &mut self,
        alloc: Global,
        message: &Message,
        received: R,
    ) -> Result<bool, AllocError>
        requires received { Brings (value_of R.state self.old).state
            (R.state received) (operations_in (message_value message.now)) }
        requires version { (value_of R.state self.old).version + 1 < 2 ^ 64 }
        ensures changed { IfOk result (λ changed. changed ≡ changes
            (value_of R.state self.old).state (operations_in (message_value message.now))) }
        ensures ok { OnOk result (Receives (value_of R.state self.old)
            (message_value message.now) (value_of R.state self.new)) }
        ensures err { OnErr result (value_of R.state self.new ≡ value_of R.state self.old) }
    {
        let news = news_of_message(alloc, &self.replica, message)?;
        self.learn_message(alloc, message, &news, received)
    }

    // Learns the news of a message, which another replica brings, and the versions that it tells.
    fn learn_message(
        &mut self,
        alloc: Global,
        message: &Message,
        news: &[Told],
        received: R,
    ) -> Result<bool, AllocError>
        requires brings { BringsNews (value_of R.state self.old).state (R.state received)
            (map operation_of news.now) }
        requires news { map news_of news.now ≡ news_in
            (value_of R.state self.old).state (operations_in (message_value message.now)) }
        requires version { (value_of R.state self.old).version + 1 < 2 ^ 64 }
        ensures changed { IfOk result (λ changed. changed ≡ changes
            (value_of R.state self.old).state (operations_in (message_value message.now))) }
        ensures ok { OnOk result (Receives (value_of R.state self.old)
            (message_value message.now) (value_of R.state self.new)) }
        ensures err { OnErr result (value_of R.state self.new ≡ value_of R.state self.old) }
    {
        self.known.make_room(message.from)?;
        self.acked.make_room(message.from)?;
        let changed = self.learn(alloc, news, received)?;
        self.known
            .raise_known(message.from, message.base, message.upto);
        self.acked.raise_acked(message.from, message.ack);
        Ok(changed)
    }

    // Learns the news that another replica brings, all at once, as one change. The answer says
    // whether there are any.
    fn learn(&mut self, alloc: Global, news: &[Told], received: R) -> Result<bool, AllocError>
        requires brings { BringsNews (value_of R.state self.old).state (R.state received)
            (map operation_of news.now) }
        requires version { (value_of R.state self.old).version + 1 < 2 ^ 64 }
        ensures changed { IfOk result (λ changed. (told : List Operation)
            → map news_of news.now ≡ news_in (value_of R.state self.old).state told
            → changed ≡ changes (value_of R.state self.old).state told) }
        ensures ok { OnOk result ((told : List Operation)
            → map news_of news.now ≡ news_in (value_of R.state self.old).state told
            → Issues (value_of R.state self.old) told (value_of R.state self.new)) }
        ensures err { OnErr result (value_of R.state self.new ≡ value_of R.state self.old) }
        ensures known { self.new.known ≡ self.old.known }
        ensures acked { self.new.acked ≡ self.old.acked }
    {
        if news.is_empty() {
            return Ok(false);
        }
        make_room(alloc, &mut self.marks, news)?;
        self.replica.merge(alloc, received)?;
        self.version += 1;
        mark_all(&mut self.marks, news, self.version);
        Ok(true)
    }
}

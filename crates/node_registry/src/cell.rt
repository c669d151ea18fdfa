//! A node with the generator of its random draws.

ghost use Rattle.std.specs.Prelude.{◌≡◌, List, drop, map, IfOk, IfErr, OnErr, OnOk, IsTrue, false};
ghost use Rattle.node_calls.specs.Asks as asks;
ghost use Rattle.node_calls.specs.Asks.{Asked, ask_value_first, call_from};
ghost use Rattle.node_steps.specs.Refusals.{is_bad_config};
ghost use Rattle.node_registry.specs.Batches.{AreEntered};
ghost use Rattle.node_registry.specs.Cells.{Cell, Enters, IsLawful, IsRefusedBy, IsWithinBounds, Passes, Submits};
ghost use Rattle.node_registry.specs.Cells.{cell_of, cell_without_kept, new_cell, next_passed};
ghost use Rattle.node_registry.specs.Receipts.{IsEntryFor, outcome_of};

use crate::batch::Batch;
use crate::drawing::{call_with_words, submit_with_words};
use crate::pass_receipt::PassOutcome;
use actions::Name;
use node_core::{Ask, Config, Entry, Generator, NodeCore, NodeFault, Reply, Trace};
use std::alloc::Global;
use std::marker::Model;

/// A node with the generator of the random draws that its passes are given: ChaCha8 of a seed, on
/// the stream of the node's number. Contracts see the node, the generator's key, and the place of
/// its next random draw, counted from 0.
#[derive(Drop)]
pub struct NodeCell {
    core: NodeCore,
    generator: Generator,
}

impl Model for NodeCell {
    ghost Value = { Cell };

    ghost view = { λ c. cell_of c.core c.generator };

    ghost invariant = { λ c. (c.generator.stream ≡ c.core.config.node)
        × IsLawful (cell_of c.core c.generator) × IsWithinBounds (cell_of c.core c.generator) };
}

impl NodeCell {
    /// A node that has accepted no call, at the start of its stream.
    pub fn new(alloc: Global, config: Config, seed: [u8; 32]) -> Result<NodeCell, NodeFault>
        ensures ok { IfOk result (λ c. c ≡ new_cell config seed) }
        ensures good { OnOk result (is_bad_config config ≡ false) }
        ensures err { IfErr result (λ f.
            (f ≡ NodeFault.BadConfig) × IsTrue (is_bad_config config)) }
    {
        let core = NodeCore::new(alloc, config)?;
        let generator = Generator::new(seed, u64::from(config.node));
        Ok(NodeCell { core, generator })
    }

    /// The node. Its trace is legal, and its passes were given the random draws of the stream in
    /// order.
    pub fn core(&self) -> &NodeCore
        ensures core { result.now ≡ self.now.node }
        ensures lawful { IsLawful self.now }
        ensures bounds { IsWithinBounds self.now }
    {
        &self.core
    }

    /// The place of the next random draw.
    pub fn place(&self) -> u128
        ensures { result ≡ self.now.place }
    {
        self.generator.place()
    }

    /// Makes a call, a pass with the next random draws of the stream, as many as its point needs,
    /// and answers a copy of the entry that the trace has for it. A refused call makes no random
    /// draw.
    pub fn enter(&mut self, alloc: Global, ask: &Ask) -> Result<Entry, NodeFault>
        ensures asked { IfOk result (IsEntryFor self.old.node.config.nodes ask.now) }
        ensures ok { IfOk result (Enters self.old self.new) }
        ensures refused { IfErr result
            (IsRefusedBy self.old (ask_value_first self.old.node.config.nodes ask.now)) }
        ensures err { OnErr result (self.new ≡ self.old) }
    {
        let copy = ask.copied(alloc)?;
        self.enter_owned(alloc, copy)
    }

    /// Makes a call with an ask that goes into the entry.
    pub(crate) fn enter_owned(&mut self, alloc: Global, ask: Ask) -> Result<Entry, NodeFault>
        ensures asked { IfOk result (λ e. e.ask ≡ ask) }
        ensures ok { IfOk result (Enters self.old self.new) }
        ensures refused { IfErr result
            (IsRefusedBy self.old (ask_value_first self.old.node.config.nodes ask)) }
        ensures err { OnErr result (self.new ≡ self.old) }
    {
        let NodeCell { core, generator } = self;
        let (words, reply) = match call_with_words(core, generator, alloc, &ask) {
            Ok(answered) => answered,
            Err(fault) => {
                drop(ask);
                return Err(fault);
            }
        };
        Ok(Entry { ask, words, reply })
    }

    /// Makes a call as `enter` does, with an ask that goes into the trace, and answers the reply
    /// alone. The bytes of a message that is delivered aren't copied.
    pub fn submit(&mut self, alloc: Global, ask: Ask) -> Result<Reply, NodeFault>
        ensures ok { IfOk result (λ r. Submits self.old self.new ask r) }
        ensures refused { IfErr result
            (IsRefusedBy self.old (ask_value_first self.old.node.config.nodes ask)) }
        ensures err { OnErr result (self.new ≡ self.old) }
    {
        let NodeCell { core, generator } = self;
        let (_, reply) = submit_with_words(core, generator, alloc, ask)?;
        Ok(reply)
    }

    /// Passes a point by its name, with the next random draws of the stream, as many as it needs. No
    /// text is copied. A refused pass makes no random draw.
    pub fn pass_point(&mut self, alloc: Global, point: &Name) -> Result<PassOutcome, NodeFault>
        ensures ok { OnOk result (Passes self.old self.new point.now) }
        ensures outcome { IfOk result (λ o. o ≡ outcome_of (next_passed self.old point.now)) }
        ensures refused { IfErr result (IsRefusedBy self.old (asks.Pass point.now)) }
        ensures err { OnErr result (self.new ≡ self.old) }
    {
        let NodeCell { core, generator } = self;
        core.pass_point_generating(alloc, point, generator)?;
        match core.last_pass() {
            Some(reply) => Ok(PassOutcome::of(reply)),
            None => unreachable!(),
        }
    }

    /// Makes the calls of a batch, and answers what came of them. No random draw is made.
    pub fn make_batch<T, B: Batch<T>>(&mut self, alloc: Global, batch: &mut B) -> T
        ensures entered { (asks : List Asked) × AreEntered self.old asks self.new }
        ensures comes { B.comes batch.old batch.new self.old.node self.new.node result }
    {
        let NodeCell { core, generator: _ } = self;
        batch.make(alloc, core)
    }

    /// Hands out the accepted calls that are kept, and keeps none (`NodeCore::give`).
    pub fn give(&mut self, alloc: Global) -> Trace
        ensures cell { self.new ≡ cell_without_kept self.old }
        ensures those { map (call_from self.old.node.config.nodes) result.calls
            ≡ drop self.old.node.from self.old.node.trace }
    {
        self.core.give(alloc)
    }

    /// The accepted calls that are kept.
    pub(crate) fn into_trace(self) -> Trace
        ensures trace { map (call_from self.node.config.nodes) result.calls
            ≡ drop self.node.from self.node.trace }
        ensures lawful { IsLawful self }
    {
        let NodeCell { core, generator: _ } = self;
        core.into_trace()
    }
}

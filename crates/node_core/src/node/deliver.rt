//! Taking in a message of another node.

ghost use Rattle.std.specs.Prelude.{◌≡◌, [], IfOk, IfErr, OnOk, OnErr, IsErrOf, IsOk, None};
ghost use Rattle.message_format.specs.Reading.{header_of};
ghost use Rattle.node_calls.specs.Asks as asks;
ghost use Rattle.node_core.specs.Deliveries.{DeliversAs};
ghost use Rattle.node_core.specs.Memory.{DeliveryNeedsMemory};
ghost use Rattle.node_core.specs.Room.{HasRoom};
ghost use Rattle.node_core.specs.Traces.{Accepts, IsRefusalOf, after_call, delivery_of, refusal, reply_to};

use super::NodeCore;
use delta_exchange::MAX_NAMES;
use node_calls::{Ask, Entry, NodeFault, Reply};
use node_steps::{Delivery, is_any_overspent, is_message_ahead, latest_clock, read_message};
use replica_state::Replica;
use std::alloc::{AllocError, Global};

impl NodeCore {
    /// Takes in a message of another node, as bytes, and answers whether settings or cells changed.
    /// It raises the node's clock to the greatest that the message tells, and its version where
    /// anything changed. Bytes that are no message, or that say more of this node than it knows
    /// itself, are refused, and nothing of them is kept.
    pub fn deliver(&mut self, alloc: Global, message: &[u8]) -> Result<bool, NodeFault>
        ensures ok { IfOk result (λ changed. Accepts self.old self.new
            (delivery_of self.old message.now) [] (asks.IsDelivered changed)) }
        ensures refused { IfErr result (IsRefusalOf self.old (delivery_of self.old message.now) []) }
        ensures memory { IsErrOf result NodeFault.OutOfMemory → DeliveryNeedsMemory self.old message.now }
        ensures err { OnErr result (self.new ≡ self.old) }
    {
        let delivery = self.deliver_checked(alloc, message)?;
        Ok(self.learn(alloc, delivery, Vec::from_slice(alloc, message)?)?)
    }

    /// Takes in a message as `deliver` does. Its bytes go into the trace, and aren't copied.
    pub fn deliver_owned(&mut self, alloc: Global, message: Vec<u8>) -> Result<bool, NodeFault>
        ensures ok { IfOk result (λ changed. Accepts self.old self.new
            (delivery_of self.old message.items) [] (asks.IsDelivered changed)) }
        ensures refused { IfErr result (IsRefusalOf self.old (delivery_of self.old message.items) []) }
        ensures memory { IsErrOf result NodeFault.OutOfMemory
            → DeliveryNeedsMemory self.old message.items }
        ensures err { OnErr result (self.new ≡ self.old) }
    {
        let delivery = self.deliver_checked(alloc, &message)?;
        Ok(self.learn(alloc, delivery, message)?)
    }

    // What a message comes to, or the refusal.
    pub(crate) fn deliver_checked(&self, alloc: Global, bytes: &[u8]) -> Result<Delivery, NodeFault>
        ensures ok { OnOk result (refusal self.now (delivery_of self.now bytes.now) [] ≡ None) }
        ensures delivery { IfOk result (λ d. DeliversAs self.now bytes.now d) }
        ensures room { OnOk result (HasRoom self.now) }
        ensures refused { IfErr result (IsRefusalOf self.now (delivery_of self.now bytes.now) []) }
        ensures header { OnOk result (IsOk (header_of self.now.config.nodes bytes.now)) }
        ensures memory { IsErrOf result NodeFault.OutOfMemory → DeliveryNeedsMemory self.now bytes.now }
    {
        self.check_trace()?;
        let message = read_message(alloc, self.config.nodes, bytes)?;
        if message.to != self.config.node {
            return Err(NodeFault::NotForMe);
        }
        if is_message_ahead(self.replica.state(), self.config.node, &message) {
            return Err(NodeFault::OwnAhead);
        }
        if message.ack > self.replica.version() {
            return Err(NodeFault::AckAhead);
        }
        let received = self.replica.news(alloc, &message)?;
        if is_any_overspent(
            self.config.nodes,
            self.replica.state(),
            &received,
            &message.entries,
        ) {
            return Err(NodeFault::Overspent);
        }
        if self.replica.state().names_together(&received) > MAX_NAMES {
            return Err(NodeFault::TooManyPoints);
        }
        Ok(Delivery {
            clock: latest_clock(&message.entries),
            message,
            received,
        })
    }

    // Learns what a message tells, as an accepted call asks, and answers whether that is anything.
    fn learn(
        &mut self,
        alloc: Global,
        delivery: Delivery,
        bytes: Vec<u8>,
    ) -> Result<bool, AllocError>
        requires room { HasRoom self.old }
        requires delivery { DeliversAs self.old bytes.items delivery }
        ensures after { OnOk result (self.new ≡ after_call self.old (delivery_of self.old bytes.items) []) }
        ensures changed { IfOk result (λ changed. reply_to self.old (delivery_of self.old bytes.items) []
            ≡ asks.IsDelivered changed) }
        ensures err { OnErr result (self.new ≡ self.old) }
    {
        let Delivery {
            message,
            clock,
            received,
        } = delivery;
        self.history.reserve_entry()?;
        let changed = self.replica.receive_replica(alloc, &message, received)?;
        self.clock = self.clock.max(clock);
        let entry = Entry {
            ask: Ask::Deliver { message: bytes },
            words: Vec::new(alloc),
            reply: Reply::Deliver(changed),
        };
        self.history.push_entry(entry);
        Ok(changed)
    }
}

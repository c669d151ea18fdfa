//! Making a message to another node.

ghost use Rattle.std.specs.Prelude.{◌≡◌, ◌≢◌, [], ◌<◌, IfOk, IfErr, OnOk, OnErr, IsErrOf, Some, None};
ghost use Rattle.node_calls.specs.Asks as asks;
ghost use Rattle.node_calls.specs.Asks.{bare_emit, message_read};
ghost use Rattle.node_core.specs.Deliveries.{TellsDelta};
ghost use Rattle.node_core.specs.Memory.{EmitNeedsMemory};
ghost use Rattle.node_core.specs.Room.{HasRoom};
ghost use Rattle.node_core.specs.Traces.{Emits, IsRefusalOf, after_call, emission_of, refusal, reply_to};

use super::NodeCore;
use delta_exchange::encode;
use node_calls::{Ask, Entry, NodeFault, Reply};
use std::alloc::{AllocError, Global};

impl NodeCore {
    /// Makes a message to another node and answers its bytes: it tells what differs between what this
    /// node knew at the version that the other one is known to have and what it knows now.
    pub fn emit(&mut self, alloc: Global, to: u8) -> Result<Vec<u8>, NodeFault>
        ensures ok { IfOk result (λ b. Emits self.old self.new to b.items) }
        // What it tells.
        ensures delta { IfOk result (λ b. TellsDelta self.old to b.items) }
        ensures refused { IfErr result (IsRefusalOf self.old (bare_emit to) []) }
        ensures memory { IsErrOf result NodeFault.OutOfMemory → EmitNeedsMemory self.old to }
        ensures err { OnErr result (self.new ≡ self.old) }
    {
        self.emit_checked(to)?;
        let message = self.message_to(alloc, to)?;
        let recorded = Vec::from_slice(alloc, &message)?;
        self.record_message(alloc, to, recorded)?;
        Ok(message)
    }

    // Whether a message to a node is refused.
    pub(crate) fn emit_checked(&self, to: u8) -> Result<(), NodeFault>
        ensures ok { OnOk result (refusal self.now (bare_emit to) [] ≡ None) }
        ensures room { OnOk result (HasRoom self.now
            × (to < self.now.config.nodes) × (to ≢ self.now.config.node)) }
        ensures refused { IfErr result (λ f. refusal self.now (bare_emit to) [] ≡ Some f) }
    {
        self.check_trace()?;
        if to >= self.config.nodes || to == self.config.node {
            return Err(NodeFault::BadNode);
        }
        Ok(())
    }

    // The bytes of a message to another node that tells what it isn't known to have.
    fn message_to(&self, alloc: Global, to: u8) -> Result<Vec<u8>, AllocError>
        requires to { (to < self.now.config.nodes) × (to ≢ self.now.config.node) }
        ensures { IfOk result (λ b. TellsDelta self.now to b.items) }
    {
        let base = self.replica.acked(to);
        let message = self
            .replica
            .changed_since(alloc, base, self.config.node, to)?;
        encode(alloc, &message)
    }

    // Records a message that was made.
    fn record_message(&mut self, alloc: Global, to: u8, message: Vec<u8>) -> Result<(), AllocError>
        requires room { HasRoom self.old }
        requires reply { reply_to self.old (emission_of self.old to message.items) []
            ≡ asks.IsEmitted (message_read self.old.config.nodes message.items) }
        ensures after { OnOk result (self.new ≡ after_call self.old (emission_of self.old to message.items) []) }
        ensures err { OnErr result (self.new ≡ self.old) }
    {
        self.history.reserve_entry()?;
        let entry = Entry {
            ask: Ask::Emit { to },
            words: Vec::new(alloc),
            reply: Reply::Emit(message),
        };
        self.history.push_entry(entry);
        Ok(())
    }
}

//! A cluster in one program: its nodes, and the messages between them.

ghost use Rattle.std.specs.Prelude.{◌≡◌, ◌≢◌, ◌<◌, ◌≤◌, [], false, true, length, map, option_map, IfOk};
ghost use Rattle.std.specs.Prelude.{IfErr, OnOk, OnErr, IsTrue, Ok, Err, Some, slice_get};
ghost use Rattle.node_calls.specs.Asks.{Message, answered_from, call_from, message_read};
ghost use Rattle.node_calls.specs.Told.{ask_ref_told, emits, passes, reply_ref_told};
ghost use Rattle.node_calls.specs.declared.fault.NodeFault.TheVariants.{OutOfMemory};
ghost use Rattle.cluster_model.specs.Events.{event_value, calls, delivers, has_message, new_world};
ghost use Rattle.cluster_model.specs.Events.{node_asked, answer, answer_value, world_after};
ghost use Rattle.cluster_model.specs.Events.{scheduled, last_reply};
ghost use Rattle.cluster_model.specs.Places.{IsEmit, IsEmitOf};
ghost use Rattle.cluster_model.specs.Runs.{IsAnswer, after_answer, happened, Continues, HasHistory};
ghost use Rattle.cluster_model.specs.Worlds.{cluster_of, is_cluster_size};

use crate::event::Event;
use crate::fault::WorldFault;
use node_core::{AskRef, Config, NodeCore, NodeFault, Reply, ReplyRef, Trace};
use std::alloc::Global;
use std::marker::Model;

/// Where a message stands: it is the reply of an entry of its sender's trace.
#[derive(Clone, Copy, Debug)]
struct Place {
    node: u8,
    entry: usize,
}

/// The nodes of a cluster, by their numbers, and all messages that they made, numbered from 0.
#[derive(Debug, Drop)]
pub struct World {
    nodes: Vec<NodeCore>,
    messages: Vec<Place>,
}

impl Model for World {
    ghost use Rattle.cluster_model.specs.Events.{WorldValue};
    ghost use Rattle.cluster_model.specs.Places.{world_of, IsWorld};

    ghost Value = { WorldValue };

    ghost view = { λ w. world_of w.nodes.items w.messages.items };

    ghost invariant = { λ w. IsWorld w.nodes.items w.messages.items };
}

// The accepted calls of a node that keeps all of them.
fn whole_trace(node: &NodeCore) -> &Trace
    requires { node.now.from ≡ 0 }
    ensures { map (call_from node.now.config.nodes) result.now.calls ≡ node.now.trace }
{
    node.trace()
}

// The bytes of the message that an entry of a node's trace made.
fn message_in(node: &NodeCore, entry: usize) -> &[u8]
    requires made { IsEmit node.now.trace entry }
    requires whole { node.now.from ≡ 0 }
    ensures { (message : Message) → IsEmitOf node.now.trace entry message →
        message_read node.now.config.nodes result.now ≡ Ok message }
{
    let Some(seen) = whole_trace(node).at(entry) else {
        unreachable!()
    };
    match seen.reply() {
        ReplyRef::Emit(message) => message,
        _ => unreachable!(),
    }
}

fn place_at(places: &[Place], number: u32) -> Option<Place>
    ensures { result ≡ slice_get places.now number }
{
    places.get(number as usize).copied()
}

impl World {
    /// A cluster of 1 to 32 nodes, each of which accepts `trace_cap` calls in its life.
    pub fn new(alloc: Global, nodes: u8, trace_cap: u32) -> Result<World, NodeFault>
        ensures ok { IfOk result (λ w. w ≡ new_world (cluster_of nodes trace_cap)) }
        // Nothing has happened there.
        ensures history { IfOk result (λ w. HasHistory (cluster_of nodes trace_cap) [] w) }
        ensures size { OnOk result (IsTrue (is_cluster_size nodes)) }
        ensures refused { IfErr result (λ fault. fault ≢ OutOfMemory →
            (is_cluster_size nodes ≡ false) × (fault ≡ NodeFault.BadConfig)) }
        // A bad size takes no memory.
        ensures bad { is_cluster_size nodes ≡ false → result ≡ Err NodeFault.BadConfig }
    {
        if nodes == 0 {
            return Err(NodeFault::BadConfig);
        }
        let mut cores = Vec::new(alloc);
        for node in 0..nodes {
            let core = NodeCore::new(
                alloc,
                Config {
                    node,
                    nodes,
                    trace_cap: u64::from(trace_cap),
                },
            )?;
            if cores.push(core).is_err() {
                return Err(NodeFault::OutOfMemory);
            }
        }
        Ok(World {
            nodes: cores,
            messages: Vec::new(alloc),
        })
    }

    /// A node, by its number.
    pub fn node(&self, number: u8) -> Option<&NodeCore>
        ensures { option_map (λ n. n.now) result ≡ slice_get self.now.nodes number }
    {
        self.nodes.get(number as usize)
    }

    /// How many messages were made.
    pub fn messages(&self) -> usize
        ensures { result ≡ length self.now.messages }
    {
        self.messages.len()
    }

    /// Asks a node. A refused event changes nothing.
    pub fn step(&mut self, alloc: Global, event: &Event<'_>) -> Result<Reply, WorldFault>
        ensures answer { IsAnswer self.old (event_value event.now)
            (answer_value (length self.old.nodes) result) }
        ensures after { self.new ≡ after_answer self.old (event_value event.now)
            (answer_value (length self.old.nodes) result) }
        ensures err { OnErr result (self.new ≡ self.old) }
        // To find that there is no such node takes no memory.
        ensures no_node { length self.old.nodes ≤ node_asked (event_value event.now) →
            result ≡ Err WorldFault.NoNode }
        // It is a step of the schedule that the events so far are.
        ensures history { Continues self.old self.new (happened self.old (event_value event.now)
            (answer_value (length self.old.nodes) result)) }
    {
        if event.node() as usize >= self.nodes.len() {
            return Err(WorldFault::NoNode);
        }
        match event {
            Event::Call { node, ask, words } => self.call(alloc, *node, *ask, words),
            Event::Deliver { node, message } => self.deliver(alloc, *node, *message),
        }
    }

    // A call of a node.
    fn call(
        &mut self,
        alloc: Global,
        node: u8,
        ask: AskRef<'_>,
        words: &[u32],
    ) -> Result<Reply, WorldFault>
        requires { node < length self.old.nodes }
        ensures answer { IsAnswer self.old (calls node (ask_ref_told ask.entry) words.now)
            (answer_value (length self.old.nodes) result) }
        ensures after { self.new ≡ after_answer self.old (calls node (ask_ref_told ask.entry) words.now)
            (answer_value (length self.old.nodes) result) }
        ensures history { Continues self.old self.new
            (happened self.old (calls node (ask_ref_told ask.entry) words.now)
            (answer_value (length self.old.nodes) result)) }
    {
        match ask {
            AskRef::Deliver { .. } => Err(WorldFault::NoMessage),
            AskRef::Emit { to } => self.emit(alloc, node, to, words),
            AskRef::Set { .. }
            | AskRef::Remove { .. }
            | AskRef::Load { .. }
            | AskRef::Pass { .. }
            | AskRef::Shift { .. }
            | AskRef::Grant { .. } => self.ask(alloc, node, ask, words),
        }
    }

    // A call that neither makes nor brings a message.
    fn ask(
        &mut self,
        alloc: Global,
        node: u8,
        ask: AskRef<'_>,
        words: &[u32],
    ) -> Result<Reply, WorldFault>
        requires node { node < length self.old.nodes }
        requires silent { has_message (ask_ref_told ask) ≡ false }
        ensures answer { IsAnswer self.old (calls node (ask_ref_told ask.entry) words.now)
            (answer_value (length self.old.nodes) result) }
        ensures after { self.new ≡ after_answer self.old (calls node (ask_ref_told ask.entry) words.now)
            (answer_value (length self.old.nodes) result) }
        ensures history { Continues self.old self.new
            (happened self.old (calls node (ask_ref_told ask.entry) words.now)
            (answer_value (length self.old.nodes) result)) }
    {
        Ok(self.nodes[node as usize].call(alloc, ask, words)?)
    }

    // A message of a node to another. Its place is the entry that the sender's trace then has.
    fn emit(&mut self, alloc: Global, node: u8, to: u8, words: &[u32]) -> Result<Reply, WorldFault>
        requires { node < length self.old.nodes }
        ensures answer { IsAnswer self.old (calls node (emits to) words.now)
            (answer_value (length self.old.nodes) result) }
        ensures after { self.new ≡ after_answer self.old (calls node (emits to) words.now)
            (answer_value (length self.old.nodes) result) }
        ensures history { Continues self.old self.new
            (happened self.old (calls node (emits to) words.now)
            (answer_value (length self.old.nodes) result)) }
    {
        self.messages.reserve(1)?;
        let sender = &mut self.nodes[node as usize];
        let entry = sender.calls() as usize;
        let reply = sender.call(alloc, AskRef::Emit { to }, words)?;
        self.messages.push_reserved(Place { node, entry });
        Ok(reply)
    }

    // A delivery of a message by its number.
    fn deliver(&mut self, alloc: Global, node: u8, message: u32) -> Result<Reply, WorldFault>
        requires { node < length self.old.nodes }
        ensures answer { IsAnswer self.old (delivers node message)
            (answer_value (length self.old.nodes) result) }
        ensures after { self.new ≡ after_answer self.old (delivers node message)
            (answer_value (length self.old.nodes) result) }
        ensures history { Continues self.old self.new (happened self.old (delivers node message)
            (answer_value (length self.old.nodes) result)) }
    {
        let Some(place) = place_at(&self.messages, message) else {
            return Err(WorldFault::NoMessage);
        };
        // The sender and the receiver are in one vector: the bytes are copied for the call.
        let sender = &self.nodes[place.node as usize];
        let bytes = Vec::from_slice(alloc, message_in(sender, place.entry))?;
        let changed = self.nodes[node as usize].deliver(alloc, &bytes)?;
        Ok(Reply::Deliver(changed))
    }

    /// The reply of the last call that a node accepted, if there is one.
    pub fn last_reply(&self, node: u8) -> Option<ReplyRef<'_>>
        ensures { option_map (λ r. answered_from (length self.now.nodes) (reply_ref_told r)) result
            ≡ last_reply self.now node }
    {
        let core = self.nodes.get(node as usize)?;
        Some(whole_trace(core).last()?.reply())
    }

    /// Asks a node as `step` does. The reply is in the node's trace (`last_reply`): of a pass no copy
    /// of it is made.
    pub fn record(&mut self, alloc: Global, event: &Event<'_>) -> Result<(), WorldFault>
        ensures answer { OnOk result (Some (answer self.old (event_value event.now))
            ≡ option_map Ok (last_reply self.new (node_asked (event_value event.now)))) }
        ensures after { OnOk result (self.new ≡ world_after self.old (event_value event.now)) }
        ensures history { OnOk result (
            Continues self.old self.new (scheduled self.old (event_value event.now))) }
        ensures refused { IfErr result (λ fault.
            IsAnswer self.old (event_value event.now) (Err fault)) }
        ensures err { OnErr result (self.new ≡ self.old) }
    {
        if let Event::Call {
            node,
            ask: AskRef::Pass { name },
            words,
        } = event
        {
            self.record_pass(alloc, *node, name, words)
        } else {
            self.step(alloc, event)?;
            Ok(())
        }
    }

    fn record_pass(
        &mut self,
        alloc: Global,
        node: u8,
        name: &str,
        words: &[u32],
    ) -> Result<(), WorldFault>
        ensures answer { OnOk result (Some (answer self.old (calls node (passes name.now) words.now))
            ≡ option_map Ok (last_reply self.new node)) }
        ensures after { OnOk result (
            self.new ≡ world_after self.old (calls node (passes name.now) words.now)) }
        ensures history { OnOk result (
            Continues self.old self.new (scheduled self.old (calls node (passes name.now) words.now))) }
        ensures refused { IfErr result (λ fault.
            IsAnswer self.old (calls node (passes name.now) words.now) (Err fault)) }
        ensures err { OnErr result (self.new ≡ self.old) }
    {
        let node = node as usize;
        if node >= self.nodes.len() {
            return Err(WorldFault::NoNode);
        }
        self.nodes[node].record_pass(alloc, name, words)?;
        Ok(())
    }
}

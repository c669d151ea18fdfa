//! A node: what it holds, and what it tells of it. Each call stands in a module of its own.

ghost use Rattle.std.specs.Prelude.{◌≡◌, drop, length, ◌≤◌, ◌↔◌, pos, ◌≤ℤ◌, map, IfOk, IfErr};
ghost use Rattle.std.specs.Prelude.{OnOk, IsTrue, option_map, string_bytes, true, false};
ghost use Rattle.node_steps.specs.Replicas.{state_in};
ghost use Rattle.replica_state.specs.States.{rights_of, spent_of, total_hits};
ghost use Rattle.delta_exchange.specs.Wholes.{AreLawful};
ghost use Rattle.node_calls.specs.Asks.{call_from};
ghost use Rattle.node_steps.specs.Passes.{words_for};
ghost use Rattle.node_steps.specs.Refusals.{is_bad_config};
ghost use Rattle.node_core.specs.Room.{HasRoom};
ghost use Rattle.node_core.specs.Stamps.{HasStamp};
ghost use Rattle.node_steps.specs.Texts.{list_text};
ghost use Rattle.node_core.specs.Traces.{call_kept, new_kept, node_of, state_known, without_kept};
ghost use Rattle.packed_trace.specs.Packed.{seen_told};

mod apply;
mod deliver;
mod emit;
mod grant;
mod load;
mod pass;
mod repeat;
mod set;
mod shift;

use actions::Name;
use delta_exchange::{MAX_NODES, Versioned};
use history::History;
use node_calls::NodeFault;
use node_steps::{Config, MAX_TRACE_CAP, State, list_of, words_needed};
use packed_trace::{Seen, Trace};
use replica_state::Replica;
use stamp_register::Stamp;
use std::alloc::{AllocError, Global};
use std::marker::Model;

/// One node. Its callers see its configuration and its trace; all else that it holds is what the
/// calls of the trace come to.
#[derive(Debug, Drop)]
pub struct NodeCore {
    config: Config,
    clock: u64,
    replica: Versioned<State>,
    history: History,
}

impl Model for NodeCore {
    ghost use Rattle.node_core.specs.Replicas.{value_in};
    ghost use Rattle.node_core.specs.Traces.{Kept, kept_of};
    ghost use Rattle.node_core.specs.KeptVersions.{IsInStepWith};

    ghost Value = { Kept };

    ghost view = { λ c. kept_of c.config c.history.calls };

    ghost invariant = { λ c. IsInStepWith (kept_of c.config c.history.calls) c.clock (value_in c.replica) };
}

impl NodeCore {
    /// A node that has accepted no call.
    pub fn new(alloc: Global, config: Config) -> Result<NodeCore, NodeFault>
        ensures ok { IfOk result (λ n. n ≡ new_kept config) }
        ensures good { OnOk result (is_bad_config config ≡ false) }
        ensures err { IfErr result (λ f. (f ≡ NodeFault.BadConfig) × IsTrue (is_bad_config config)) }
    {
        if config.nodes == 0
            || config.nodes > MAX_NODES
            || config.node >= config.nodes
            || config.trace_cap > MAX_TRACE_CAP
        {
            return Err(NodeFault::BadConfig);
        }
        Ok(NodeCore {
            config,
            clock: 0,
            replica: Versioned::new(alloc),
            history: History::new(alloc),
        })
    }

    /// The configuration that the node was made with.
    pub fn config(&self) -> Config
        ensures { result ≡ self.now.config }
    {
        self.config
    }

    /// How many random draws a pass of a point takes, 0 where it isn't set.
    pub fn words_needed(&self, name: &Name) -> u8
        ensures { result ≡ words_for (state_known self.now) name.now }
    {
        words_needed(self.replica.state(), name)
    }

    /// The rights of a node to execute a counted term, in this node's view; 0 where there is no
    /// such term. A node's own rights are never negative.
    pub fn rights(&self, name: &Name, term: u8, node: u8) -> i128
        ensures value { result ≡ rights_of (state_known self.now) name.now term node }
        ensures own { node ≡ self.now.config.node → pos 0 ≤ℤ result }
    {
        self.replica.state().rights(name, term, node)
    }

    /// The executions of a counted term at all nodes, in this node's view; 0 where there is no
    /// such term.
    pub fn spent(&self, name: &Name, term: u8) -> u128
        ensures { result ≡ spent_of (state_known self.now) name.now term }
    {
        self.replica.state().spent(name, term)
    }

    /// The passes of a point at all nodes while it was set, in this node's view.
    pub fn hits(&self, name: &Name) -> u128
        ensures { result ≡ total_hits (state_known self.now) name.now }
    {
        self.replica.state().total_hits(name)
    }

    /// Whether a pause that began under a stamp is over: true unless the point still has it.
    pub fn pause_over(&self, name: &Name, stamp: Stamp) -> bool
        ensures { IsTrue result ↔ (HasStamp ((state_known self.now).key name.now) stamp → ⊥) }
    {
        match self.replica.state().key(name) {
            Some(key) => key.stamp() != stamp,
            None => true,
        }
    }

    /// `name=actions` of each point that is set, in byte order of the names, joined by `;`.
    pub fn list(&self, alloc: Global) -> Result<String, AllocError>
        ensures { IfOk result (λ text. string_bytes text ≡ list_text (state_known self.now)) }
    {
        list_of(alloc, self.replica.state())
    }

    /// How many accepted calls changed what the node knows.
    pub fn version(&self) -> u64
        ensures { result ≡ (node_of self.now).marks.version }
    {
        self.replica.version()
    }

    /// The version of another node that this one has all of, 0 at first.
    pub fn known(&self, from: u8) -> u64
        ensures { result ≡ (node_of self.now).marks.known from }
    {
        self.replica.known(from)
    }

    /// The version of this node that another one said it has, 0 at first.
    pub fn acked(&self, to: u8) -> u64
        ensures value { result ≡ (node_of self.now).marks.acked to }
        ensures reached { result ≤ (node_of self.now).marks.version }
    {
        self.replica.acked(to)
    }

    /// All that the node knows of settings, hits, executions, and moved and granted rights.
    pub fn state(&self) -> &State
        ensures { state_in result.now ≡ state_known self.now }
    {
        self.replica.state()
    }

    /// How many calls the node accepted in its life.
    pub fn calls(&self) -> u64
        ensures { result ≡ length self.now.trace }
    {
        self.history.len()
    }

    /// How many of the first calls are no longer kept.
    pub fn from(&self) -> u64
        ensures from { result ≡ self.now.from }
        ensures within { result ≤ length self.now.trace }
    {
        self.history.from()
    }

    /// An accepted call by its number, counted from 0; none where it isn't kept, or there are fewer.
    pub fn at(&self, index: u64) -> Option<Seen<'_>>
        ensures { option_map (λ call. call_from self.now.config.nodes (seen_told call)) result
            ≡ call_kept self.now index }
    {
        self.history.at(index)
    }

    /// The accepted calls that are kept: all of them, where none were given or forgotten.
    pub fn trace(&self) -> &Trace
        ensures { map (call_from self.now.config.nodes) result.now.calls
            ≡ drop self.now.from self.now.trace }
    {
        self.history.kept()
    }

    /// The accepted calls that are kept, without the node.
    pub fn into_trace(self) -> Trace
        ensures { map (call_from self.config.nodes) result.calls ≡ drop self.from self.trace }
    {
        let NodeCore {
            config: _,
            clock: _,
            replica: _,
            history,
        } = self;
        history.into_kept()
    }

    /// Hands out the accepted calls that are kept, to be written or looked at, and keeps none. What
    /// the node holds, and the numbers of its calls, stay what they are. It takes no memory.
    pub fn give(&mut self, alloc: Global) -> Trace
        ensures calls { self.new ≡ without_kept self.old }
        ensures those { map (call_from self.old.config.nodes) result.calls
            ≡ drop self.old.from self.old.trace }
    {
        self.history.give(alloc)
    }

    /// Frees the accepted calls that are kept. What the node holds, and the numbers of its calls, stay
    /// what they are.
    pub fn forget(&mut self, alloc: Global)
        ensures { self.new ≡ without_kept self.old }
    {
        self.history.forget(alloc);
    }

    // What the node knows is lawful: messages can tell each operation of it.
    pub(crate) fn is_lawful(&self)
        ensures { AreLawful self.now.config.nodes (node_of self.now).ops }
    {
        let _ = &self.replica;
    }

    // Whether the trace takes one more call.
    fn check_trace(&self) -> Result<(), NodeFault>
        ensures ok { OnOk result (HasRoom self.now) }
        ensures full { IfErr result (λ f. (f ≡ NodeFault.TraceFull)
            × (self.now.config.trace_cap ≤ length self.now.trace)) }
    {
        if self.history.len() >= self.config.trace_cap {
            return Err(NodeFault::TraceFull);
        }
        Ok(())
    }
}

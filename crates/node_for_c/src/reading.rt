//! What a registry tells of a point by the bytes of its name.

ghost use Rattle.std.specs.Prelude.{◌≡◌, ◌≢◌, ◌↔◌, pos, false, IsSome, IsTrue};
ghost use Rattle.node_steps.specs.Nodes.{setting_of};
ghost use Rattle.node_core.specs.Traces.{state_known};
ghost use Rattle.replica_state.specs.States.{rights_of, spent_of, total_hits};
ghost use Rattle.node_for_c.specs.Calls.{IsNoName};
ghost use Rattle.node_for_c.specs.Pauses.{IsPauseOver};

use crate::registry::{Registry, read_name};
use actions::Name;
use node_core::NodeCore;
use replica_state::Replica;
use stamp_register::Stamp;
use std::alloc::Global;

impl Registry {
    /// Whether a point is set, or the status where its name can't be read.
    pub fn is_set(&self, alloc: Global, name: &[u8]) -> (u32, bool)
        ensures value { result.0 ≡ 0 → (IsTrue result.1
            ↔ IsSome (setting_of (state_known self.now.core) name.now)) }
        ensures refused { result.0 ≢ 0 → IsNoName name.now result.0 }
        ensures none { result.0 ≢ 0 → result.1 ≡ false }
    {
        match read_name(alloc, name) {
            Ok(name) => (0, is_set(&self.core, &name)),
            Err(status) => (status, false),
        }
    }

    /// How often a term ran at all nodes, as far as the node knows, or the status where the name can't be
    /// read.
    pub fn spent(&self, alloc: Global, name: &[u8], term: u8) -> (u32, u128)
        ensures value { result.0 ≡ 0
            → result.1 ≡ spent_of (state_known self.now.core) name.now term }
        ensures refused { result.0 ≢ 0 → IsNoName name.now result.0 }
        ensures none { result.0 ≢ 0 → result.1 ≡ 0 }
    {
        match read_name(alloc, name) {
            Ok(name) => (0, self.core.spent(&name, term)),
            Err(status) => (status, 0),
        }
    }

    /// How often a point was passed at all nodes while it was set, as far as the node knows, or the status
    /// where the name can't be read.
    pub fn hits(&self, alloc: Global, name: &[u8]) -> (u32, u128)
        ensures value { result.0 ≡ 0 → result.1 ≡ total_hits (state_known self.now.core) name.now }
        ensures refused { result.0 ≢ 0 → IsNoName name.now result.0 }
        ensures none { result.0 ≢ 0 → result.1 ≡ 0 }
    {
        match read_name(alloc, name) {
            Ok(name) => (0, self.core.hits(&name)),
            Err(status) => (status, 0),
        }
    }

    /// The rights of a node to execute a counted term, as this node knows, or the status where the name
    /// can't be read.
    pub fn rights(&self, alloc: Global, name: &[u8], term: u8, of: u8) -> (u32, i128)
        ensures value { result.0 ≡ 0
            → result.1 ≡ rights_of (state_known self.now.core) name.now term of }
        ensures refused { result.0 ≢ 0 → IsNoName name.now result.0 }
        ensures none { result.0 ≢ 0 → result.1 ≡ pos 0 }
    {
        match read_name(alloc, name) {
            Ok(name) => (0, self.core.rights(&name, term, of)),
            Err(status) => (status, 0),
        }
    }

    /// Whether a pause is over that began with a pass of this stamp, or the status where the name can't be
    /// read.
    #[tactic(auto, unfolding(crate::specs::Pauses::IsPauseOver))]
    pub fn pause_over(&self, alloc: Global, name: &[u8], since: Stamp) -> (u32, bool)
        ensures value { result.0 ≡ 0 → (IsTrue result.1
            ↔ IsPauseOver self.now.core name.now since) }
        ensures refused { result.0 ≢ 0 → IsNoName name.now result.0 }
        ensures none { result.0 ≢ 0 → result.1 ≡ false }
    {
        match read_name(alloc, name) {
            Ok(name) => (0, self.core.pause_over(&name, since)),
            Err(status) => (status, false),
        }
    }
}

fn is_set(core: &NodeCore, name: &Name) -> bool
    ensures { IsTrue result ↔ IsSome (setting_of (state_known core.now) name.now) }
{
    match core.state().key(name) {
        Some(key) => key.actions().is_some(),
        None => false,
    }
}

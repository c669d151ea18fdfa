//! What workers wait for.

ghost use Rattle.std.specs.Prelude.{◌≡◌, [], IfOk};
ghost use Rattle.node_core.specs.Traces.{state_known};
ghost use Rattle.operations.specs.Counts.{given_key};
ghost use Rattle.thread_workers.specs.Known.{is_known, is_set, is_since};

use crate::steps::Steps;
use actions::Name;
use node_core::NodeCore;
use replica_state::Replica;
use stamp_register::{Body, Key, Stamp};
use std::alloc::{AllocError, Global};
use thread_plans::ThreadPlan;

/// Before its call of this index a worker of a node waits until the node knows a setting of this point,
/// with a stamp of just this one, or its gossip is over. Workers of a node are counted from 0, and so
/// are the calls of each.
#[derive(Drop)]
pub struct Await {
    /// The line of the script that says so.
    pub line: u32,
    pub node: u8,
    pub worker: u16,
    pub index: u32,
    /// The point; none where the text is no name, so that no node ever knows it.
    pub name: Option<Name>,
    pub stamp: Option<Stamp>,
}

impl Await {
    pub(crate) fn is_before(&self, node: u8, worker: u16, index: u32) -> bool {
        self.node == node && self.worker == worker && self.index == index
    }
}

fn is_set(key: Option<&Key>) -> bool
    ensures { result ≡ is_set (given_key key.entry) }
{
    match key {
        Some(key) => match &key.body {
            Body::Set(_) => true,
            Body::Removed => false,
        },
        None => false,
    }
}

fn is_since(stamp: Stamp, key: Option<&Key>) -> bool
    ensures { result ≡ is_since stamp (given_key key.entry) }
{
    match key {
        Some(key) => {
            stamp.clock < key.clock || stamp.clock == key.clock && stamp.node <= key.node
        }
        None => false,
    }
}

/// Whether a node knows a setting of a point, with a stamp of just this one or a later one.
pub fn is_known(core: &NodeCore, name: &Name, stamp: Option<Stamp>) -> bool
    ensures { result ≡ is_known stamp ((state_known core.now).key name.now) }
{
    let key = core.state().key(name);
    match stamp {
        Some(stamp) => is_since(stamp, key),
        None => is_set(key),
    }
}

/// What the workers of a run wait for, and whether the rounds of its gossip are in step.
#[derive(Drop)]
pub struct Waits {
    // So many rounds are done before any worker calls.
    first: u64,
    /// The lines that wait.
    pub awaits: Vec<Await>,
    steps: Option<Steps>,
}

impl Waits {
    /// For nothing, and rounds go as they go.
    pub fn none(alloc: Global) -> Waits
        ensures { result.awaits.items ≡ [] }
    {
        Waits {
            first: 0,
            awaits: Vec::new(alloc),
            steps: None,
        }
    }

    /// Before the first call of any worker for so many rounds of gossip, and then as these say. The
    /// rounds of gossip are in step: no node hears in one before all have told in it.
    pub fn in_step(
        alloc: Global,
        plan: &ThreadPlan<'_>,
        first: u32,
        awaits: Vec<Await>,
    ) -> Result<Waits, AllocError>
        ensures { IfOk result (λ waits. waits.awaits.items ≡ awaits.items) }
    {
        let steps = match plan.gossip {
            Some(_) => Some(Steps::new(alloc, plan.size.nodes)?),
            None => None,
        };
        Ok(Waits {
            first: u64::from(first),
            awaits,
            steps,
        })
    }

    /// The rounds of gossip, where they are in step.
    pub fn steps(&self) -> Option<&Steps> {
        self.steps.as_ref()
    }

    // Whether the first rounds of a node are done, or its gossip is over.
    pub(crate) fn are_first_done(&self, node: u8) -> bool {
        match &self.steps {
            Some(steps) => steps.heard(node) >= self.first,
            None => true,
        }
    }

    pub(crate) fn is_over(&self, node: u8) -> bool {
        match &self.steps {
            Some(steps) => steps.is_over(node),
            None => true,
        }
    }

    /// A node's gossip is over.
    pub fn leave(&self, node: u8) {
        if let Some(steps) = &self.steps {
            steps.leave(node);
        }
    }
}

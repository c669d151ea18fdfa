//! What is asked of a cluster.

ghost use Rattle.std.specs.Prelude.{◌≡◌, []};
ghost use Rattle.node_calls.specs.Told.{ask_ref_told};
ghost use Rattle.cluster_model.specs.Events.{calls, event_value, node_asked};

use node_core::AskRef;
use std::alloc::Global;

/// What is asked of a cluster. Nodes and messages have numbers from 0.
#[derive(Debug, Drop)]
pub enum Event<'a> {
    /// A call of a node, with a random draw for each term of a passed point whose chance is below
    /// 100%. Of the calls, a delivery of bytes is none of a cluster, which knows its messages by
    /// their numbers.
    Call {
        node: u8,
        ask: AskRef<'a>,
        words: Vec<u32>,
    },
    /// Delivers a message to a node, by the number that it has among all that were made.
    Deliver {
        node: u8,
        message: u32,
    },
}

impl<'a> Event<'a> {
    /// A call of a node without random draws. It takes no memory.
    pub fn call(alloc: Global, node: u8, ask: AskRef<'a>) -> Event<'a>
        ensures { event_value result ≡ calls node (ask_ref_told ask.entry) [] }
    {
        Event::Call {
            node,
            ask,
            words: Vec::new(alloc),
        }
    }

    /// The node that is asked.
    pub fn node(&self) -> u8
        ensures { result ≡ node_asked (event_value self.now) }
    {
        match self {
            Event::Call { node, .. } | Event::Deliver { node, .. } => *node,
        }
    }
}

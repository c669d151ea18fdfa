//! What is said of peers that lost their state.

use http_wire::{Forgetful, Forgetting};
use std::alloc::Global;
use std::io;
use std::time::{Clock, Duration, Instant};

/// How often it is said at most of a peer that it lost its state.
const SAID_EVERY_SECONDS: u64 = 60;

// When it was last said of a node.
#[derive(Clone, Copy)]
struct SaidOf {
    node: u8,
    at: Instant,
}

/// When it was last said of each peer.
#[derive(Drop)]
pub(crate) struct Said {
    last: Vec<SaidOf>,
}

impl Said {
    pub(crate) fn new(alloc: Global) -> Said {
        Said {
            last: Vec::new(alloc),
        }
    }

    // Whether it was said of a node a moment ago.
    fn is_fresh(&self, node: u8, now: Instant) -> bool {
        let every = Duration::from_secs(SAID_EVERY_SECONDS);
        self.last.iter().any(|said| said.node == node
            && now.saturating_duration_since(said.at) < every)
    }

    // Notes that it is said of a node now.
    fn note(&mut self, node: u8, at: Instant) {
        self.last.retain(|said| said.node != node);
        // Without memory for it, it is said again.
        let _ = self.last.push(SaidOf { node, at });
    }

    /// Says of each node that answered so that it lost its state, once a minute at most.
    pub(crate) fn say<R: Clock + Eprint>(&mut self, rt: &R, losses: &[Forgetful]) {
        let Ok(now) = Instant::now(rt) else {
            return;
        };
        for peer in losses {
            let Forgetful { node, fault } = *peer;
            if !self.is_fresh(node, now) {
                self.note(node, now);
                let _ = say_forgotten(rt, node, fault);
            }
        }
    }
}

// Prints that a node lost its state, and what to do.
fn say_forgotten<R: Eprint>(rt: &R, node: u8, fault: Forgetting) -> io::Result<()> {
    eprintln!(rt;
        "failreg: node {node} lost its state (it returned {fault}): it restarted without its journal, or \
         a second process runs under its number. End it, and restart it with its journal, or under a \
         number that was never used."
    )
}

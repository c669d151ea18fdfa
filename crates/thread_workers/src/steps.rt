//! Rounds of gossip in step: no node hears in a round before all of them have told in it.

use std::alloc::{AllocError, Global};
use std::sync::atomic::{AtomicBool, AtomicU64, Ordering};
use std::thread;

/// How often a thread looks whether all nodes have told, before rounds are no longer in step: for some
/// seconds. So a node whose thread can't start holds up nobody for good.
const MOST_LOOKS: u32 = 8_000_000;

/// What a node's counts are once its gossip is over.
const OVER: u64 = u64::MAX;

/// In how many rounds each node has told, and in how many it has heard.
#[derive(Drop)]
pub struct Steps {
    told: Vec<AtomicU64>,
    heard: Vec<AtomicU64>,
    is_broken: AtomicBool,
}

fn counts(alloc: Global, nodes: u8) -> Result<Vec<AtomicU64>, AllocError> {
    let mut counts = Vec::new(alloc);
    for _node in 0..nodes {
        counts.push(AtomicU64::new(0))?;
    }
    Ok(counts)
}

fn set(counts: &[AtomicU64], node: u8, rounds: u64) {
    if let Some(count) = counts.get(usize::from(node)) {
        count.store(rounds, Ordering::SeqCst);
    }
}

impl Steps {
    pub(crate) fn new(alloc: Global, nodes: u8) -> Result<Steps, AllocError> {
        Ok(Steps {
            told: counts(alloc, nodes)?,
            heard: counts(alloc, nodes)?,
            is_broken: AtomicBool::new(false),
        })
    }

    // Whether each node has told in so many rounds, or its gossip is over.
    fn have_told(&self, rounds: u64) -> bool {
        for told in &self.told {
            if told.load(Ordering::SeqCst) < rounds {
                return false;
            }
        }
        true
    }

    /// A node has told in so many rounds, and waits until all have, or rounds are no longer in step.
    pub fn wait_told(&self, node: u8, rounds: u64) {
        set(&self.told, node, rounds);
        for _look in 0..MOST_LOOKS {
            if self.is_broken.load(Ordering::SeqCst) || self.have_told(rounds) {
                return;
            }
            thread::yield_now();
        }
        self.is_broken.store(true, Ordering::SeqCst);
    }

    /// In how many rounds a node has heard.
    pub(crate) fn heard(&self, node: u8) -> u64 {
        match self.heard.get(usize::from(node)) {
            Some(heard) => heard.load(Ordering::SeqCst),
            None => OVER,
        }
    }

    /// A node has heard in so many rounds.
    pub fn hear(&self, node: u8, rounds: u64) {
        set(&self.heard, node, rounds);
    }

    pub(crate) fn is_over(&self, node: u8) -> bool {
        self.heard(node) == OVER
    }

    /// A node's gossip is over: nobody waits for it any more.
    pub(crate) fn leave(&self, node: u8) {
        set(&self.told, node, OVER);
        set(&self.heard, node, OVER);
    }
}

//! What no contract says: that callers receive what the trace has, that two nodes have two locks, and that
//! workers run at the same time; what mailboxes and HTTP carry, what rounds send and when, and what a
//! wire that fails leaves behind. And tables of what scripts, nodes, clusters, audits, recordings and
//! requests are answered, each answer found by hand.

mod any_wire;
mod audited_workers;
mod audits;
mod batches;
mod callers;
mod calls;
mod digests;
mod draws;
mod entries;
mod events;
mod failing;
mod fleet;
mod mail;
mod messages;
mod nodes;
mod pieces;
mod printed_scripts;
mod printed_threads;
mod recordings;
mod registry;
mod requests;
mod resumed;
mod rounds;
mod served;
mod spreads;
mod stage;
mod workers;

use actions::Name;
use cluster_model::{Event, RunReport, World, WorldFault};
use failing::{Failing, Fails};
use fleet::many_points;
use gossip::WireError::{Failed, Full, NoPeer, OutOfMemory};
use gossip::{
    Ended, GossipReport, MailWire, Pace, Reach, Wire, WireError, gossip_news, gossip_rounds,
};
use node_core::{Ask, AskRef, Config, Entry, NodeCore, NodeFault, Receipt, Reply, Trace};
use node_registry::{Guarded, Label, NodeCell, PassOutcome, PassReceipt, Registry, Seat};
use stage::{EMPTY, FIRST_OF_THREE, FIRST_OF_TWO, SECOND_OF_TWO, list, one_seat, opened, started};
use stamp_register::Stamp;
use std::alloc::{AllocError, Global};
use std::fmt::{Debug, Write};
use std::marker::Brand;
use std::process::Abort;
use std::sync::Wait;
use std::sync::ledger::Blank;
use std::test::Fail;

/// A value in print.
fn in_print<T: Debug>(alloc: Global, value: &T) -> Result<String, AllocError> {
    format!(in alloc; "{value:?}")
}

/// Ends the test where what is found isn't what is wanted.
fn expect<T: PartialEq + Debug>(rt: &impl Abort, found: &T, wanted: &T) {
    assert_eq!(rt; found, wanted);
}

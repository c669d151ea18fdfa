//! A replica that counts its changes and knows of each key and each cell which change was the last,
//! so that it tells another what changed since a version, and what a message tells as a replica.
//!
//! ```rust
//! let changed = versioned.receive(alloc, &message)?;
//! versioned.count_pass(alloc, &name, node, Some(term))?;
//! ```
//!
//! The messages themselves, and their bytes, are `message_format`'s. They are given on here, for
//! callers of replicas with versions.
#![tactic(auto)]

pub mod laws;
mod learning;
mod marks;
mod news;
mod pass_marks;
mod since;
mod versioned;
mod versions;

pub use learning::replica_of;
pub use message_format::{
    MAX_MESSAGE, MAX_NAMES, MAX_NODES, Message, NameEntry, WireFault, decode, encode,
};
pub use versioned::Versioned;

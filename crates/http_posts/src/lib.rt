//! Messages that are posted to the servers of nodes, over HTTP, and what the servers answer.
//!
//! ```rust
//! let mut poster = Poster::new(rt)?;
//! let connection = poster.connect(Peer { node: 1, address })?;
//! let told = poster.post(alloc, connection, key, message)?;
//! told.taken_in()?;
//! ```
#![tactic(auto)]

mod answer;
mod connection;
mod fault;
mod fields;
mod first_piece;
mod forgetting;
mod key;
mod peer;
mod poster;
mod request;
mod waiting;

pub use answer::{Exchanged, Posted};
pub use connection::{Connection, POST_SECONDS};
pub use fault::PostError;
pub use forgetting::Forgetting;
pub use key::Key;
pub use peer::Peer;
pub use poster::Poster;

//! Which other nodes of its cluster a served node has heard, and which of their messages it refused.
//!
//! Whoever serves a node notes what each message came to, by the reply to it, and shows the rows in the
//! status. Whoever takes messages from another transport notes what the node returned for each. Where a
//! node hears first, a call is made only once a message of each other node was accepted; messages and reads
//! wait for nobody.
//!
//! Nodes tell only news. One that was started again asks each other one to tell it anyway, at `/hello`: who
//! did is noted, for whoever tells them.
//!
//! ```rust
//! let peers = Peers::new(alloc, 0, 3, Hearing::First)?;
//! let reply = match peers.awaited(rt).node() {
//!     Some(node) => waiting(alloc, node),
//!     None => called(&mut node, request),
//! };
//! ```
#![tactic(auto)]

mod shared;

pub use peers::{AskState, Awaited, Cluster, Hearing, NotedAttempt, sender_of, waiting};
pub use report_text::SendFault;
pub use shared::{NotedDelivery, NotedReply, Peers};

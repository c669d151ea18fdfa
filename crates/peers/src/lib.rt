//! What a node knows of the other nodes of its cluster, besides the counts: of which of them it accepted a
//! message, which it rejected, who asked for the state, and when each is sent it.
//!
//! There is no lock in it, no clock and no socket. `PeerBook` is all of it, for a program that carries
//! messages itself. A served node has `Heard` and `Asked` behind locks (`http_peers`).
//!
//! ```rust
//! let mut book = PeerBook::new(Cluster { own: 0, nodes: 3 });
//! match book.look(&core, 1) {
//!     Due::Nothing => {}
//!     Due::Tell => book.told(1),
//!     Due::Ask => {}
//! }
//! ```
#![tactic(auto)]

mod asked;
mod book;
mod code;
mod heard;
mod hello;
pub mod laws;
mod pacing;
mod waits;

pub use asked::{AskState, Asked};
pub use book::PeerBook;
pub use code::{Outcome, outcome_by, outcome_of};
pub use gossip_pace::sender_of;
pub use heard::{Awaited, Cluster, Heard, Hearing, Noted, NotedAttempt, Row};
pub use hello::{asker_in, greeting};
pub use pacing::{Due, Pacing};
pub use waits::waiting;

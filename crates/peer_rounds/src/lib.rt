//! Rounds of gossip of a served node: beside its service they tell its peers what these don't know, share rights
//! where rights follow demand, and ask to be told by whom its calls wait for.
//!
//! ```rust
//! let service = Service::new();
//! // In a second thread, until the rounds are done or the service has ended:
//! let told = tell_peers(rt, registry, None, &mut seat, &telling, &heard, key, &service);
//! // In the first one, after the last client:
//! service.end(rt);
//! // After the rounds: why a message from the wire ended them, if it showed that the node has lost its state.
//! let lost = told.rounds.loss.map(|shown| service.lost_state(&shown));
//! ```
#![tactic(auto)]

mod host;
mod losses;
mod round;
mod rounds;
mod served_wire;
mod service;
mod taken;
mod targets;
mod telling;

pub use host::Host;
pub use round::{Early, RightsNow, Round, Rounds};
pub use rounds::tell_over;
pub use served_wire::{Calls, ServedWire};
pub use service::{Loss, Service};
pub use taken::{note_attempts, note_taken};
pub use telling::{Over, Told, tell_peers};

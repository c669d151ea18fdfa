//! Serves a node over HTTP, by the table of requests and the replies of `http_routes` and the
//! connections of `http_service`.
//!
//! A node may be served as it is, with its calls forgotten with each reply, or with its part kept: then
//! a call is answered once its line is written.
//!
//! Which of its peers it hears is noted (`Peers`), and told with its status; where they are heard first
//! (`Hearing`), a call waits until each of them was.
//!
//! A service that has an `Ending` is ended by `POST /stop`, by whoever else has that ending, and by a
//! message that shows that the node has forgotten what it did.
#![tactic(auto)]

mod handler;
mod node_answers;
mod served_node;
mod serving;

pub use http_peers::{Hearing, Peers};
pub use http_service::{
    Access, Clients, Ended, Ending, KeyFault, Offer, Reason, ServeFault, Served,
};
pub use serving::{serve, serve_forgetting, serve_recording};

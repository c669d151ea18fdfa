//! A wire of gossip to nodes of other programs, over HTTP.
#![tactic(auto)]

mod forgetful;
mod wire;

pub use forgetful::Forgetful;
pub use http_posts::{Forgetting, Key, POST_SECONDS, Peer};
pub use wire::HttpWire;

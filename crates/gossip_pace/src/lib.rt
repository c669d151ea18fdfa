//! When a node sends a peer what it knows. It counts rounds and needs no clock: `gossip` asks it in each
//! round, and so does the library for a program that carries messages itself.
#![tactic(auto)]

mod news;
mod sender;

pub use news::{News, Pace};
pub use sender::sender_of;

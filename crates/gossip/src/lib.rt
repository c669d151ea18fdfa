//! Gossip: nodes tell each other what they know, over any wire, and a node spreads its rights.
#![tactic(auto)]

mod caller;
mod failures;
mod mail;
mod mailbox;
mod news_rounds;
mod report;
mod rounds;
mod spreading;
mod wire;

pub use failures::{Attempt, AttemptFault, Failed, Rejected};
pub use gossip_pace::{News, Pace, sender_of};
pub use history::Log;
pub use mail::MailWire;
pub use mailbox::MOST_MESSAGES;
pub use news_rounds::gossip_news;
pub use report::{Ended, GossipReport};
pub use rounds::{MOST_TAKEN, gossip_rounds};
pub use spreading::spread;
pub use wire::{PeerWire, Reach, Wire, WireError};

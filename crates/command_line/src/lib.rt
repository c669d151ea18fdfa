//! The command line of the program: its subcommands and their options, its help, and what is wrong
//! with words that ask for none of it.
//!
//! ```rust
//! let invocation = read_command_line(alloc, words.as_slice());
//! ```
#![tactic(auto)]

mod addresses;
mod guarding;
mod help;
mod peers;
mod quoting;
mod reading;
mod subcommands;
mod words;

pub use addresses::{AddressFault, is_here, port_here, read_address};
pub use guarding::{Unguarded, first_unguarded};
pub use peers::{NamedPeer, PeerFault, PeersFault, read_peer, read_peers};
pub use quoting::quoted;
pub use reading::{
    AuditOptions, GossipOptions, Invocation, PartOptions, PictureOptions, Rights, ServeOptions,
    SimOptions, Start, ThreadOptions, read_command_line,
};

//! The calls of a node as values: what it is asked, what it answers, why it refuses, and the entry of
//! its trace that an accepted call leaves.
//!
//! ```rust
//! let again = ask.copied(alloc)?;
//! ```
#![tactic(auto)]

mod ask;
mod ask_ref;
mod fault;
mod receipt;
mod reply;
mod reply_ref;
mod same;
mod trace;

pub use ask::Ask;
pub use ask_ref::AskRef;
pub use fault::{NodeFault, TextFault};
pub use receipt::Receipt;
pub use reply::{PassReply, Reply};
pub use reply_ref::{PassReplyRef, ReplyRef};
pub use trace::Entry;

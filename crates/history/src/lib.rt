//! The calls of a node's whole life, of which the newest are kept. Contracts see all of them for ever;
//! what is given away or forgotten takes no memory.
//!
//! ```rust
//! let part = history.give(alloc);
//! ```
#![tactic(auto)]

mod history;
mod log;

pub use history::History;
pub use log::Log;

//! The lines of scripts that ask a node for a call.
//!
//! ```rust
//! let call = call_after("shift", "torn_write 0 2 3");
//! ```
#![tactic(auto)]

mod call;

pub use call::call_after;

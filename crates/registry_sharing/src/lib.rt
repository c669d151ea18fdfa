//! Rights that follow demand at a node behind a lock: its rounds of sharing, and its spreads, each of
//! which is made under the lock as a whole.
#![tactic(auto)]

mod round;
mod spreading;

pub use round::Sharing;
pub use spreading::{set_spread, spread};

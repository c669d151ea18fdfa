//! A node's round of sharing: the shifts of its rights that are due, made as calls of its own; and the
//! rights to a point, spread over all nodes at once.
#![tactic(auto)]

mod round;
mod spreading;

pub use round::share;
pub use spreading::{set_spread, spread};

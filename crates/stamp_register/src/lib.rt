//! Keys of settings: which setting of a point is the later one.
#![tactic(auto)]

mod key;
pub mod laws;

pub use key::{Body, Key, Stamp};

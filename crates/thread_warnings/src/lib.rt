//! What a run of a script of threads is warned of, in words: lines that follow from its script, its plan
//! and what it came to.
#![tactic(auto)]

pub mod laws;
mod refused;
mod refused_starts;
mod short;
mod short_starts;
mod unfit;
mod warned;

pub use warned::{read_plan_saying, run_warnings};

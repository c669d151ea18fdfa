//! The workers of a node in a script of threads: what they ask, what they wait for, and what they came to.
#![tactic(auto)]

mod asks;
mod finished;
mod lists;
mod looks;
mod refused;
mod steps;
mod turns;
mod waiting;
mod waits;
mod working;

pub use finished::Finished;
pub use lists::put_behind;
pub use looks::Looks;
pub use steps::Steps;
pub use waiting::Waiting;
pub use waits::{Await, Waits, is_known};
pub use working::work;

//! Scripts of threads that are checked: the lines that they have besides, the plan that is played, and what
//! is said of the lines that fail.
#![tactic(auto)]

mod awaits;
mod failed;
mod lines;
mod plans;
mod scan;
mod views;

pub use awaits::awaits_in;
pub use failed::failures_of;
pub use plans::{first_rounds, plain_text_of, plan_with};

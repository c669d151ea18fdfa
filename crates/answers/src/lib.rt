//! Answers of scripts, threads and audits, and their two writers: lines and JSON objects.
//!
//! ```rust
//! let mut printed = Printed::new(alloc, Format::Objects);
//! printed.put(alloc, Answer::Set(stamp))?;
//! ```
#![tactic(auto)]

mod answer;
mod cause;
pub mod laws;
mod lines;
mod members;
mod objects;
mod printed;
mod reports;
mod strings;
mod verdict;
mod warned;

pub use answer::{Answer, Kind};
pub use cause::Cause;
pub use printed::{Format, Printed};
pub use warned::push_warnings;

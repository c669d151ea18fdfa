//! Action texts: what a failpoint does when it is passed, term by term.
//!
//! The form `[p%][cnt*]task[(arg)]`, terms joined by `->`, and the eight tasks are those of
//! fail-rs's crate documentation. The limits, what is refused and in which order, spaces, the
//! canonical text and the names of points are this project's own.
//!
//! ```rust
//! let actions = parse_actions(alloc, "20%3*print(still alive!)->panic")?;
//! // One random draw, for the term of 20%. The first term may run as long as it has rights.
//! // One random draw, for the term of 20%. The first term may run as long as it has rights.
//! ```
#![tactic(auto)]

mod actions;
mod choice;
mod fault;
pub mod laws;
mod name;
mod numbers;
mod percent;
mod reading;
mod setting;
mod task;

pub use actions::{Actions, parse_actions};
pub use choice::decide;
pub use fault::{ActionFault, SettingFault};
pub use name::{Name, NameFault};
pub use reading::MAX_TERMS;
pub use setting::parse_setting;
pub use task::{Task, Term};

//! The accepted calls of a node, of which a pass takes eight bytes. Contracts see the list of what they
//! tell.
//!
//! ```rust
//! let pass = trace.prepare(alloc, Pass { name, setting, term, words })?;
//! trace.push(pass);
//! ```
#![tactic(auto)]

mod guesses;
mod heads;
mod pass;
mod row;
mod seen;
mod trace;

pub use pass::{Pass, Prepared};
pub use row::{Row, Setting, SettingRef};
pub use seen::Seen;
pub use trace::{MAX_ROWS, Trace};

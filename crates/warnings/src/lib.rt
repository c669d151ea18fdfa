//! What a program warns of: lines for standard error.
//!
//! ```rust
//! let mut warnings = Warnings::new(alloc);
//! warnings.push(Vec::from_slice(alloc, b"bad lines: 21")?)?;
//! ```
#![tactic(auto)]

mod warnings;

pub use warnings::Warnings;

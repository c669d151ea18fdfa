//! What the code of a refusal means, why the refusal comes and what to do.
//!
//! ```rust
//! let entry = explanation_of("N7");
//! ```
#![tactic(auto)]

mod explaining;
mod table;

pub use explaining::{all_codes, all_titles, explain, explanation_of};
pub use table::TABLE;

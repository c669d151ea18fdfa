//! What can be known of the points of a cluster, as operations: settings, and how often a point was
//! hit, a counted term executed, and rights to it moved or granted.
//!
//! ```rust
//! let set = Op::Set { name, key };
//! assert!(set.is_well_formed());
//! ```
#![tactic(auto)]

mod counted;
mod counted_order;
mod op;
mod terms;

pub use counted::{Count, Counted, key_with};
pub use op::Op;
pub use terms::count_of;

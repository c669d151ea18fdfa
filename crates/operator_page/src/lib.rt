//! The page on which an operator sees the node that serves it, and changes its points.
#![tactic(auto)]

mod page;

pub use page::{PAGE, POLICY};

//! The files in which the drill of a run, or the part of each node, is kept.
#![tactic(auto)]

mod files;
mod kept;
mod there;

pub use files::{file_at, part_files};
pub use kept::{keep_drill, keep_parts};
pub use there::in_the_way;

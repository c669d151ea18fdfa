//! Replicas: what a node knows of the cluster's points, as the state that a set of operations
//! comes to. Which operations came first, and how often, makes no difference.
#![tactic(auto)]

pub mod laws;
mod matrix;
mod reader;
mod replica;
mod slot;
mod slot_map;
mod term_reader;
mod terms;

pub use matrix::Matrix;
pub use operations::{Count, Counted, Op, count_of, key_with};
pub use reader::{PointReader, Stored};
pub use replica::Replica;
pub use slot::Slot;
pub use term_reader::TermReader;

//! One lock per node: threads call a node in turn, and are given a receipt of each accepted call.
#![tactic(auto)]

mod batch;
mod cell;
mod drawing;
mod guarded;
mod label;
mod noted;
mod pass_receipt;
mod registry;
mod workers;

pub use batch::Batch;
pub use cell::NodeCell;
pub use guarded::{Closed, Guarded, Piece, Seat};
pub use label::Label;
pub use noted::Refusals;
pub use pass_receipt::{PassOutcome, PassReceipt};
pub use registry::Registry;
pub use workers::{Done, Gate, Job, run_workers};

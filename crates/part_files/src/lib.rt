//! The part of a node in a file: it is opened and locked, and the node goes on from it; and a wire over
//! which a message leaves once its line is written.
#![tactic(auto)]

mod gated_wire;
mod journal_file;
mod part_file;
mod recording_wire;

pub use part_file::{OpenFault, OpenPart, open_part};
pub use recording_wire::RecordingWire;

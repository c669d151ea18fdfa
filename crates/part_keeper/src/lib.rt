//! The part of a node that threads call: its lines are written before anybody is told of its calls,
//! and a node goes on from it.
#![tactic(auto)]

mod bounded_line;
mod fault;
mod journal;
pub mod laws;
mod lines;
mod part_file;
mod recorder;
mod recording;
mod repeating;

pub use bounded_line::read_line;
pub use fault::{CallFault, LineFault, NotRecorded, PartFault};
pub use lines::PartLines;
pub use part_file::PartFile;
pub use recorder::Recorder;
pub use recording::{AllWritten, Recording, RecordingState};
pub use repeating::{MOST_OF_LINE, Repeated, repeat_call, repeat_calls};

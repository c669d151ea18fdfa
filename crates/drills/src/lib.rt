//! Recorded drills: the traces of the nodes and the receipts of their callers as a text that is kept,
//! and checked later; and parts, of which each is the record of one node, and which join to a drill.
//! What is written reads back as the same.
#![tactic(auto)]

mod call_line;
mod drill;
mod fault;
mod join_fault;
mod joining;
mod json_rows;
pub mod laws;
mod line;
mod line_text;
mod part;
mod part_reader;
mod reader;
mod rows;
mod so_far;
mod writer;

pub use call_line::{entry_text, write_entry};
pub use drill::Drill;
pub use fault::DrillFault;
pub use join_fault::JoinFault;
pub use joining::joined;
pub use line::{entry_in, part_head_in};
pub use line_text::part_head_text;
pub use part::{Part, PartHead};
pub use part_reader::read_part;
pub use reader::read_drill;
pub use writer::{write_drill, write_part};

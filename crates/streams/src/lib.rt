//! Readers and writers that are watched, a whole script read, a whole text written, and what the bytes
//! of a line are, with its fields.
#![tactic(auto)]

mod fault;
mod fields;
mod line;
mod watched;
mod whole;

pub use fault::ScriptFault;
pub use fields::{cut, cut_byte, cut_field, field, first_word};
pub use line::{is_skipped, text_of};
pub use watched::Watched;
pub use whole::{MOST_BYTES, read_script, write_text};

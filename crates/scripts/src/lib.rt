//! Scripts that drive a cluster of failpoint registries: what each line asks for, what it is
//! answered, and a run from a reader to a writer.
#![tactic(auto)]

mod check;
mod command;
mod faults;
mod form;
pub mod laws;
mod question;
mod reply;
mod run;
mod script;
mod warn;

pub use check::checked_warnings_of;
pub use command::{Command, Question, read_command};
pub use decimals::{amount, byte, number, word};
pub use faults::say_of;
pub use form::Form;
pub use run::{run_script, run_script_as, run_script_checked, run_script_warning};
pub use streams::{
    MOST_BYTES, ScriptFault, Watched, cut, cut_byte, cut_field, field, is_skipped, read_script,
    text_of, write_text,
};

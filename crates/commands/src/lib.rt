//! What each subcommand of the program does, but for the one that serves a node and the one that runs
//! scripts of threads; and how a subcommand ends.
#![tactic(auto)]

mod advice;
mod audit_refused;
mod audited_files;
mod auditing;
mod charted;
mod explaining;
mod finish;
mod formats;
mod parsing;
mod picturing;
mod script_runs;
mod short_lines;

pub use audited_files::audit;
pub use explaining::explain_codes;
pub use finish::{finish_script, refuse, say};
pub use formats::answer_format;
pub use parsing::parse;
pub use picturing::draw_drill;
pub use script_runs::{check, sim};

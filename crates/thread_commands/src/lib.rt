//! What the subcommand does that runs scripts of threads, and with `--check` checks them.
#![tactic(auto)]

mod checked_run;
mod checking;
mod ending;
mod part_recording;
mod recording;
mod saying;
mod thread_runs;

pub use checking::check_threads;
pub use thread_runs::threads;

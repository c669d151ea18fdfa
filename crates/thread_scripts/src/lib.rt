//! Scripts that drive nodes from threads: what their plans come to when they are played, and a run from
//! a reader to a writer.
#![tactic(auto)]

mod beside;
pub mod laws;
mod nodes;
mod output;
mod played;
mod rounds;
mod run;
mod starts;
mod steps;

pub use output::{Judged, judged_of, output_of, told_of};
pub use played::{Played, play, play_waiting};
pub use run::{run_threads, run_threads_warning};
pub use thread_plans::{
    Block, CallLine, RoundKind, Rounds, Size, Start, StartLine, ThreadPlan, read_plan,
};
pub use thread_warnings::read_plan_saying;
pub use thread_workers::{Await, Waits};

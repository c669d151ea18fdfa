//! The plans of scripts that drive nodes from threads: what each line asks for, and what the lines come
//! to.
#![tactic(auto)]

mod bad_lines;
pub mod laws;
mod line;
mod line_calls;
mod line_numbers;
mod plan;
mod reading;
mod stage;
mod wanted;

pub use bad_lines::{MOST_NAMED, bad_lines_of, say_count};
pub use line::Start;
pub use line_calls::call_in_line;
pub use line_numbers::{start_lines_of, worker_lines_of};
pub use plan::{Block, CallLine, RoundKind, Rounds, Size, StartLine, ThreadPlan};
pub use reading::read_plan;
pub use stage::blocks_at;

//! The calls that lines of a worker ask for.

ghost use Rattle.std.specs.Prelude.{◌≡◌, option_map};
ghost use Rattle.node_calls.specs.Told.{ask_ref_told};
ghost use Rattle.thread_plans.specs.LineCalls.{asked_by, call_in};
ghost use Rattle.thread_plans.specs.Lines.{line_value};

use crate::line::{Line, read_line};
use node_calls::AskRef;

fn asked_by(line: Line<'_>) -> Option<AskRef<'_>>
    ensures { option_map ask_ref_told result ≡ asked_by (line_value line.entry) }
{
    match line {
        Line::Calls { call, .. } => Some(call),
        Line::Nodes { .. }
        | Line::Seed(_)
        | Line::Start { .. }
        | Line::Gossip { .. }
        | Line::Worker { .. } => None,
    }
}

/// The call that a line of a worker asks for, if it asks for one.
pub fn call_in_line(line: &[u8]) -> Option<AskRef<'_>>
    ensures { option_map ask_ref_told result ≡ call_in line.now }
{
    let read = read_line(line)?;
    asked_by(read)
}

//! What of a script is looked at apart.

ghost use Rattle.std.specs.Prelude.{◌≡◌, ◌++◌, ◌≤◌, length, IfOk, OnOk};
ghost use Rattle.streams.specs.Fields.{output_line};
ghost use Rattle.thread_checks.specs.Lines.{rounds_in};
ghost use Rattle.thread_checks.specs.Views.{all_rounds, rounds_of, start_line, unshared, view_line};
ghost use Rattle.thread_checks.specs.Views.{view_of, worked_after};

use crate::lines::{is_expect, is_own, is_spread, is_worker, rounds_in, share_in};
use std::alloc::{AllocError, Global};
use streams::MOST_BYTES;

/// What of a script is looked at apart.
#[derive(Clone, Copy)]
pub(crate) enum View {
    /// The lines of its plan.
    Plan,
    /// What is asked before the workers, as a script of calls.
    Starts,
    /// All but what is done before the workers.
    Workers,
}

fn start_line(line: &[u8]) -> &[u8]
    ensures { result.now ≡ start_line line.now }
{
    if line.starts_with(b"nodes ") || is_expect(line) {
        return line;
    }
    if line.starts_with(b"start ") && !is_spread(line) {
        &line[6..]
    } else {
        &[]
    }
}

// A line `gossip <rounds> share` without its last word: as a line of a plan.
fn unshared(line: &[u8]) -> &[u8]
    ensures { result.now ≡ unshared line.now }
{
    if share_in(line).is_some() {
        &line[..line.len().saturating_sub(6)]
    } else {
        line
    }
}

// What is left of a line, where a worker was met before it or not.
fn view_line(view: View, worked: bool, line: &[u8]) -> &[u8]
    ensures { result.now ≡ view_line view worked line.now }
{
    match view {
        View::Plan if is_own(line) => &[],
        View::Plan => unshared(line),
        View::Starts if worked => &[],
        View::Starts => start_line(line),
        View::Workers if line.starts_with(b"start ") => &[],
        View::Workers => line,
    }
}

/// Whether a worker was met, with a line more.
pub(crate) fn worked_after(worked: bool, line: &[u8]) -> bool
    ensures { result ≡ worked_after worked line.now }
{
    worked || is_worker(line)
}

fn push_line(line: &[u8], text: &mut Vec<u8>) -> Result<(), AllocError>
    ensures { OnOk result (text.new.items ≡ text.old.items ++ output_line line.now) }
{
    text.extend_from_slice(line)?;
    text.push(b'\n')?;
    Ok(())
}

/// A view of a script: as many lines as the script has, some of which are empty in place of what they
/// say.
pub(crate) fn view_of(alloc: Global, view: View, script: &[u8]) -> Result<Vec<u8>, AllocError>
    ensures text { IfOk result (λ text. text.items ≡ view_of view script.now) }
    ensures few { IfOk result (λ text. length text.items ≤ MOST_BYTES) }
{
    let mut text = Vec::new(alloc);
    let mut worked = false;
    for line in script.split(|byte| *byte == b'\n') {
        push_line(view_line(view, worked, line), &mut text)?;
        worked = worked_after(worked, line);
    }
    text.truncate(text.len().saturating_sub(1));
    // A view is no longer than its script.
    if text.len() > MOST_BYTES {
        return Err(AllocError);
    }
    Ok(text)
}

fn push_rounds(rounds: Option<u32>, all: &mut Vec<u32>) -> Result<(), AllocError>
    ensures { OnOk result (all.new.items ≡ all.old.items ++ rounds_of rounds) }
{
    if let Some(rounds) = rounds {
        all.push(rounds)?;
    }
    Ok(())
}

/// The rounds of the lines `gossip <rounds> <meant>`.
pub(crate) fn all_rounds(alloc: Global, meant: &str, script: &[u8]) -> Result<Vec<u32>, AllocError>
    ensures { IfOk result (λ rounds. rounds.items ≡ all_rounds meant.now script.now) }
{
    let mut rounds = Vec::new(alloc);
    for line in script.split(|byte| *byte == b'\n') {
        push_rounds(rounds_in(meant, line), &mut rounds)?;
    }
    Ok(rounds)
}

//! In which lines of a script nodes start something, and workers begin.

ghost use Rattle.std.specs.Prelude.{◌≡◌, ◌++◌, ◌≤◌, length, option_map, IfOk, OnOk};
ghost use Rattle.streams.specs.Fields.{lines_of};
ghost use Rattle.thread_plans.specs.LineNumbers.{has_kind, is_kind, number_if, numbers_from};
ghost use Rattle.thread_plans.specs.LineNumbers.{start_lines, worker_lines};
ghost use Rattle.thread_plans.specs.Lines.{line_value};

use crate::line::{Line, read_line};
use std::alloc::{AllocError, Global};
use streams::MOST_BYTES;

/// Which lines are numbered.
#[derive(Clone, Copy)]
enum Kind {
    /// `start` lines.
    Start,
    /// Lines with which a worker begins.
    Worker,
}

fn is_kind(kind: Kind, line: &Option<Line<'_>>) -> bool
    ensures { result ≡ is_kind kind (option_map line_value line.now) }
{
    match kind {
        Kind::Start => matches!(line, Some(Line::Start { .. })),
        Kind::Worker => matches!(line, Some(Line::Worker { .. })),
    }
}

fn has_kind(kind: Kind, line: &[u8]) -> bool
    ensures { result ≡ has_kind kind line.now }
{
    is_kind(kind, &read_line(line))
}

// Keeps the number of a line, if it is one of those.
fn push_number(number: u32, is_one: bool, numbers: &mut Vec<u32>) -> Result<(), AllocError>
    ensures { OnOk result (numbers.new.items ≡ numbers.old.items ++ number_if is_one number) }
{
    if is_one {
        numbers.push(number)?;
    }
    Ok(())
}

fn numbers_of(alloc: Global, kind: Kind, script: &[u8]) -> Result<Vec<u32>, AllocError>
    requires { length script.now ≤ MOST_BYTES }
    ensures { IfOk result (λ numbers. numbers.items ≡ numbers_from kind 1 (lines_of script.now)) }
{
    let mut numbers = Vec::new(alloc);
    let mut number = 1u32;
    for line in script.split(|byte| *byte == b'\n') {
        push_number(number, has_kind(kind, line), &mut numbers)?;
        number += 1;
    }
    Ok(numbers)
}

/// The numbers of the `start` lines of a script, in their order; lines are counted from 1.
#[tactic(auto, unfolding(crate::specs::LineNumbers::start_lines))]
pub fn start_lines_of(alloc: Global, script: &[u8]) -> Result<Vec<u32>, AllocError>
    requires { length script.now ≤ MOST_BYTES }
    ensures { IfOk result (λ numbers. numbers.items ≡ start_lines script.now) }
{
    numbers_of(alloc, Kind::Start, script)
}

/// The numbers of the lines with which the workers of a script begin, in their order; lines are counted
/// from 1.
#[tactic(auto, unfolding(crate::specs::LineNumbers::worker_lines))]
pub fn worker_lines_of(alloc: Global, script: &[u8]) -> Result<Vec<u32>, AllocError>
    requires { length script.now ≤ MOST_BYTES }
    ensures { IfOk result (λ numbers. numbers.items ≡ worker_lines script.now) }
{
    numbers_of(alloc, Kind::Worker, script)
}

//! Parts: a script of threads of which the record of each node is kept.

ghost use Rattle.std.specs.Prelude.{◌≡◌, ◌≢◌, ◌≤◌, ◌⊎◌, ℕ, length, false, Err};
ghost use Rattle.std.specs.Prelude.{All, IfErr, IfOk, OnErr};
ghost use Rattle.streams.specs.declared.fault.ScriptFault.TheVariants.{BadLine, OutOfMemory};
ghost use Rattle.streams.specs.declared.fault.ScriptFault.TheVariants.{ReadFailed, TooLong};
ghost use Rattle.streams.specs.declared.fault.ScriptFault.TheVariants.{WriteFailed};
ghost use Rattle.streams.specs.Watched.{has_failed};
ghost use Rattle.drill_files.specs.Kept.{KeepsParts};
ghost use Rattle.thread_scripts.specs.Outputs.{ComesToSaying};
ghost use Rattle.thread_plans.specs.BadLines.{bad_lines};
ghost use Rattle.thread_plans.specs.Plans.{plan_in, plan_value};
ghost use Rattle.thread_commands.specs.Recordings.{IsKept};

use answers::Format;
use drill_files::{keep_parts, part_files};
use std::alloc::Global;
use std::fs::Files;
use std::io::Write;
use std::sync::Wait;
use std::thread::Threads;
use streams::{MOST_BYTES, ScriptFault, Watched};
use thread_scripts::{ThreadPlan, play, told_of};
use thread_warnings::read_plan_saying;
use warnings::Warnings;

// Plays the plan of a script and keeps the part of each node. Returns what it prints in a format, and sets
// what is said to what it is warned of.
fn play_in_parts<R: Threads + Wait + Sync, D: Write>(
    rt: &R,
    alloc: Global,
    format: Format,
    script: &[u8],
    plan: &ThreadPlan<'_>,
    files: &mut [Watched<D>],
    said: &mut Warnings,
) -> Result<Vec<u8>, ScriptFault>
    requires length { length script.now ≤ MOST_BYTES }
    requires files { length files.old ≡ plan.now.size.nodes }
    requires sound { All (λ file. has_failed file ≡ false) files.old }
    // The parts that were kept are those of the run whose output this is.
    ensures ok { IfOk result (λ printed. IsKept (λ traces lists. KeepsParts D.contents
        plan.now.size.nodes plan.now.size.trace_cap traces files.old files.new) format script.now
        (plan_value plan.now) printed.items said.new) }
    ensures unsaid { OnErr result (said.new ≡ said.old) }
    ensures only { IfErr result (λ fault. (fault ≡ WriteFailed) ⊎ (fault ≡ OutOfMemory)) }
{
    let played = play(rt, alloc, plan)?;
    keep_parts(alloc, plan.size, &played.traces, files)?;
    let (printed, warned) = told_of(alloc, format, script, plan, &played)?;
    *said = warned;
    Ok(printed)
}

/// Runs a script of threads, and keeps the part of each node in a folder. Returns what it prints in a
/// format, and sets what is said as `run_threads_warning` does. A script without a plan leaves the folder
/// as it was.
pub fn run_in_parts<R: Threads + Wait + Sync + Files>(
    rt: &R,
    alloc: Global,
    format: Format,
    folder: &str,
    script: &[u8],
    said: &mut Warnings,
) -> Result<Vec<u8>, ScriptFault>
    requires { length script.now ≤ MOST_BYTES }
    // The script has a plan, this is its whole output, and what is said is what it is warned of.
    ensures ok { IfOk result (λ printed.
        ComesToSaying format script.now printed.items said.new) }
    // The line is the first that is bad.
    ensures bad_line { (line : ℕ) → result ≡ Err (BadLine line) → plan_in script.now ≡ Err line }
    ensures bad_said { (line : ℕ) → result ≡ Err (BadLine line) →
        said.new ≡ bad_lines script.now }
    ensures unsaid { IfErr result (λ fault.
        ((line : ℕ) → fault ≢ BadLine line) → said.new ≡ said.old) }
    ensures no_read { result ≢ Err ReadFailed }
    ensures short { result ≢ Err TooLong }
{
    let plan = read_plan_saying(alloc, script, said)?;
    let mut files = part_files(rt, alloc, folder, plan.size.nodes)?;
    play_in_parts(rt, alloc, format, script, &plan, &mut files, said)
}

//! Scripts of threads that are checked.

ghost use Rattle.std.specs.Prelude.{◌≡◌, ◌≢◌, ◌↔◌, ◌<◌, ◌≤◌, ◌⊎◌, ℕ, [], true, false, length, Err};
ghost use Rattle.std.specs.Prelude.{vec_len, IfErr, IfOk};
ghost use Rattle.std.specs.Process.{exit_status};
ghost use Rattle.streams.specs.declared.fault.ScriptFault.TheVariants.{BadLine, OutOfMemory};
ghost use Rattle.streams.specs.declared.fault.ScriptFault.TheVariants.{ReadFailed, TooLong};
ghost use Rattle.streams.specs.declared.fault.ScriptFault.TheVariants.{WriteFailed};
ghost use Rattle.streams.specs.Streams.{IfInput};
ghost use Rattle.streams.specs.Watched.{has_failed, has_unflushed};
ghost use Rattle.thread_plans.specs.BadLines.{bad_lines};
ghost use Rattle.thread_checks.specs.Checked.{plain_text};
ghost use Rattle.thread_commands.specs.Checked.{ChecksSaying, ChecksTo, FailsSaying};
ghost use Rattle.thread_commands.specs.Said.{TellsWith};
ghost use Rattle.commands.specs.Formats.{answer_format};
ghost use Rattle.commands.specs.Statuses.{HasStatus, OnStatus};

use crate::checked_run::{CheckedRun, play_checked};
use crate::ending::end_run;
use answers::Format;
use command_line::ThreadOptions;
use commands::{answer_format, refuse};
use drill_files::{file_at, in_the_way, keep_drill, keep_parts, part_files};
use std::alloc::AllocGlobal;
use std::fs::Files;
use std::io::{Read, Write};
use std::process::ExitCode;
use std::sync::Wait;
use std::thread::Threads;
use streams::{MOST_BYTES, ScriptFault, Watched, read_script};
use warnings::Warnings;

// Keeps the drill of a run in a file, or the part of each node in a folder, where that is asked for.
fn keep<R: Files + AllocGlobal>(
    rt: &R,
    options: ThreadOptions<'_>,
    run: &CheckedRun,
) -> Result<(), ScriptFault>
    requires { vec_len run.now.played.traces ≡ run.now.size.nodes }
    ensures { IfErr result (λ fault. (fault ≡ WriteFailed) ⊎ (fault ≡ OutOfMemory)) }
{
    match (options.record, options.record_parts) {
        (Some(path), _) => {
            let mut recorder = file_at(rt, rt.alloc(), path)?;
            keep_drill(
                rt.alloc(),
                &run.played.traces,
                &run.played.lists,
                &mut recorder,
            )
        }
        (None, Some(folder)) => {
            let mut files = part_files(rt, rt.alloc(), folder, run.size.nodes)?;
            keep_parts(rt.alloc(), run.size, &run.played.traces, &mut files)
        }
        (None, None) => Ok(()),
    }
}

// Runs a script of threads as one that is checked, as `run_checked` does.
fn check_script<R: Threads + Wait + Sync + Files + AllocGlobal>(
    rt: &R,
    format: Format,
    options: ThreadOptions<'_>,
    script: &[u8],
    said: &mut Warnings,
) -> Result<Vec<u8>, ScriptFault>
    requires { length script.now ≤ MOST_BYTES }
    ensures ok { IfOk result (λ printed. ChecksTo format script.now printed.items said.new) }
    ensures bad_said { (line : ℕ) → result ≡ Err (BadLine line) →
        said.new ≡ bad_lines (plain_text script.now) }
    ensures unsaid { IfErr result (λ fault.
        ((line : ℕ) → fault ≢ BadLine line) → said.new ≡ said.old) }
    ensures no_read { result ≢ Err ReadFailed }
{
    let run = play_checked(rt, rt.alloc(), format, script, said)?;
    keep(rt, options, &run)?;
    let CheckedRun {
        printed,
        said: failures,
        ..
    } = run;
    *said = failures;
    Ok(printed)
}

// Runs the script of threads that a reader gives as one that is checked, and keeps its drill where that is
// asked for. Returns what it prints in a format, and sets what is said to that of the lines that fail; or,
// where it is refused for a bad line, to what was wanted of its bad lines.
fn run_checked<R: Threads + Wait + Sync + Files + AllocGlobal, I: Read>(
    rt: &R,
    format: Format,
    options: ThreadOptions<'_>,
    reader: &mut Watched<I>,
    said: &mut Warnings,
) -> Result<Vec<u8>, ScriptFault>
    requires { has_failed reader.old ≡ false }
    ensures ok { IfOk result (λ printed. IfInput I.remaining reader.old (λ input.
        ChecksTo format input printed.items said.new)) }
    ensures bad_said { (line : ℕ) → result ≡ Err (BadLine line) → IfInput I.remaining reader.old
        (λ input. said.new ≡ bad_lines (plain_text input)) }
    ensures unsaid { IfErr result (λ fault.
        ((line : ℕ) → fault ≢ BadLine line) → said.new ≡ said.old) }
    ensures read_failed { (result ≡ Err ReadFailed) ↔ (has_failed reader.new ≡ true) }
    ensures long { IfInput I.remaining reader.old (λ input. MOST_BYTES < length input →
        (result ≡ Err TooLong) ⊎ (has_failed reader.new ≡ true) ⊎ (result ≡ Err OutOfMemory)) }
{
    let script = read_script(rt.alloc(), reader)?;
    check_script(rt, format, options, script.as_slice(), said)
}

/// Runs the script of threads that a reader gives as one that is checked, and may keep its drill: in
/// files that are there only where that is wanted.
pub fn check_threads<R, I: Read, O: Write, E: Write>(
    rt: &R,
    options: ThreadOptions<'_>,
    reader: &mut Watched<I>,
    writer: &mut Watched<O>,
    errors: &mut Watched<E>,
) -> anyhow::Result<ExitCode>
where
    R: Threads + Wait + Sync + Eprint + AllocGlobal + Files,
    requires reader { has_failed reader.old ≡ false }
    requires writer { has_failed writer.old ≡ false }
    requires errors { has_failed errors.old ≡ false }
    // With status 0 its whole output is written and flushed, and nothing is said: no line fails.
    ensures good { OnStatus result 0 (IfInput I.remaining reader.old (λ input.
        ChecksSaying (answer_format options.entry.json) input (λ text failed. (failed ≡ [])
        × TellsWith (answer_format options.entry.json) O.contents writer.old writer.new
        E.contents errors.old errors.new text failed))) }
    ensures flushed { OnStatus result 0 (has_unflushed writer.new ≡ false) }
    // With status 3 lines fail, or are bad, and that is said. Where answers are JSON objects, an object
    // of each line that is said stands behind them.
    ensures failed { OnStatus result 3 (IfInput I.remaining reader.old (λ input.
        FailsSaying (answer_format options.entry.json) input
        (TellsWith (answer_format options.entry.json) O.contents writer.old writer.new
        E.contents errors.old errors.new))) }
    // Where lines can't be written, nothing is said.
    ensures unwritten { options.entry.json ≡ false → has_failed writer.new ≡ true →
        errors.new ≡ errors.old }
    // A script that is too long, or that can't be read or answered, has status 1.
    ensures read_failed { has_failed reader.new ≡ true → HasStatus result 1 }
    ensures write_failed { has_failed writer.new ≡ true → HasStatus result 1 }
    ensures long { IfInput I.remaining reader.old (λ input.
        MOST_BYTES < length input → HasStatus result 1) }
    ensures status { IfOk result (λ code.
        (exit_status code ≡ 0) ⊎ (exit_status code ≡ 1) ⊎ (exit_status code ≡ 3)) }
{
    if let Some(advice) = in_the_way(rt, options)? {
        return refuse(rt, ScriptFault::WriteFailed, &advice);
    }
    let format = answer_format(options.json);
    let mut said = Warnings::new(rt.alloc());
    let run = run_checked(rt, format, options, reader, &mut said);
    end_run(rt, format, true, run, &said, writer, errors)
}

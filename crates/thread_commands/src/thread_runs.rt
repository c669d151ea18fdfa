//! Scripts of threads that are run, and kept where that is asked for.

ghost use Rattle.std.specs.Prelude.{◌≡◌, ◌<◌, ◌⊎◌, [], true, false, length, IfOk};
ghost use Rattle.std.specs.Process.{exit_status};
ghost use Rattle.streams.specs.Streams.{IfInput};
ghost use Rattle.streams.specs.Watched.{has_failed, has_unflushed};
ghost use Rattle.thread_plans.specs.BadLines.{bad_lines};
ghost use Rattle.thread_scripts.specs.Outputs.{PlaysSaying};
ghost use Rattle.commands.specs.Formats.{answer_format};
ghost use Rattle.commands.specs.Statuses.{HasStatus, OnStatus};
ghost use Rattle.thread_commands.specs.Said.{SaysOrNothing, TellsWith, heard};

use crate::ending::end_run;
use crate::saying::run_saying;
use command_line::ThreadOptions;
use commands::{answer_format, refuse};
use drill_files::in_the_way;
use std::alloc::{AllocGlobal, Global};
use std::fs::Files;
use std::io::{Read, Write};
use std::process::ExitCode;
use std::sync::Wait;
use std::thread::Threads;
use streams::{MOST_BYTES, ScriptFault, Watched};
use warnings::Warnings;

// What is said, unless that isn't wanted.
fn heard(alloc: Global, quiet: bool, said: Warnings) -> Warnings
    ensures { result ≡ heard quiet said }
{
    if quiet { Warnings::new(alloc) } else { said }
}

/// Runs the script of threads that a reader gives, may keep its drill, in files that are there only where
/// that is wanted, and may say what goes wrong in it.
pub fn threads<R, I: Read, O: Write, E: Write>(
    rt: &R,
    options: ThreadOptions<'_>,
    reader: &mut Watched<I>,
    writer: &mut Watched<O>,
    errors: &mut Watched<E>,
) -> anyhow::Result<ExitCode>
where
    R: Threads + Wait + Sync + Eprint + AllocGlobal + Files,
    requires reader { has_failed reader.old ≡ false }
    requires writer { has_failed writer.old ≡ false }
    requires errors { has_failed errors.old ≡ false }
    // With status 0 the script has a plan, and what is written and flushed is its whole output, of some
    // traces and receipts; and what it is warned of is said, of exactly these, unless that isn't wanted.
    // Where answers are JSON objects, an object of each line that is said stands behind them.
    ensures done { OnStatus result 0 (IfInput I.remaining reader.old (λ input.
        PlaysSaying (answer_format options.entry.json) input (λ text said.
        TellsWith (answer_format options.entry.json) O.contents writer.old writer.new
        E.contents errors.old errors.new text (heard options.entry.quiet said)))) }
    ensures flushed { OnStatus result 0 (has_unflushed writer.new ≡ false) }
    ensures quiet { options.entry.quiet ≡ true → errors.new ≡ errors.old }
    // Where it is refused, nothing is written and said but what was wanted of its bad lines.
    ensures refused { has_failed writer.new ≡ false → OnStatus result 1 (
        IfInput I.remaining reader.old (λ input. SaysOrNothing
        (TellsWith (answer_format options.entry.json) O.contents writer.old writer.new
        E.contents errors.old errors.new []) (heard options.entry.quiet (bad_lines input)))) }
    // Where lines can't be written, nothing is said.
    ensures unwritten { options.entry.json ≡ false → has_failed writer.new ≡ true →
        errors.new ≡ errors.old }
    // A script that is too long, or that can't be read or answered, has status 1.
    ensures read_failed { has_failed reader.new ≡ true → HasStatus result 1 }
    ensures write_failed { has_failed writer.new ≡ true → HasStatus result 1 }
    ensures long { IfInput I.remaining reader.old (λ input.
        MOST_BYTES < length input → HasStatus result 1) }
    ensures status { IfOk result (λ code. (exit_status code ≡ 0) ⊎ (exit_status code ≡ 1)) }
{
    if let Some(advice) = in_the_way(rt, options)? {
        return refuse(rt, ScriptFault::WriteFailed, &advice);
    }
    let format = answer_format(options.json);
    let mut said = Warnings::new(rt.alloc());
    let run = run_saying(rt, format, options, reader, &mut said);
    let said = heard(rt.alloc(), options.quiet, said);
    end_run(rt, format, false, run, &said, writer, errors)
}

//! Scripts of threads that a reader gives, which are run, kept where that is asked for, and warned of.

ghost use Rattle.std.specs.Prelude.{◌≡◌, ◌≢◌, ◌↔◌, ◌<◌, ◌≤◌, ◌⊎◌, ℕ, true, false, length, Err};
ghost use Rattle.std.specs.Prelude.{IfErr, IfOk};
ghost use Rattle.streams.specs.declared.fault.ScriptFault.TheVariants.{BadLine, OutOfMemory};
ghost use Rattle.streams.specs.declared.fault.ScriptFault.TheVariants.{ReadFailed, TooLong};
ghost use Rattle.streams.specs.Streams.{IfInput};
ghost use Rattle.streams.specs.Watched.{has_failed};
ghost use Rattle.thread_plans.specs.BadLines.{bad_lines};
ghost use Rattle.thread_plans.specs.Plans.{plan_in};
ghost use Rattle.thread_scripts.specs.Outputs.{ComesToSaying};

use crate::part_recording::run_in_parts;
use crate::recording::run_recorded;
use answers::Format;
use command_line::ThreadOptions;
use std::alloc::AllocGlobal;
use std::fs::Files;
use std::io::Read;
use std::sync::Wait;
use std::thread::Threads;
use streams::{MOST_BYTES, ScriptFault, Watched, read_script};
use thread_scripts::run_threads_warning;
use warnings::Warnings;

// What is kept of a run, by the path of a file or of a folder.
#[derive(Clone, Copy)]
enum Kept<'a> {
    Drill(&'a str),
    Parts(&'a str),
}

// Runs a script of threads, and keeps its drill in a file or the part of each node in a folder. Returns
// what it prints, and sets what is said. A script without a plan leaves the files as they were.
fn run_script<R: Threads + Wait + Sync + Files + AllocGlobal>(
    rt: &R,
    format: Format,
    kept: Kept<'_>,
    script: &[u8],
    said: &mut Warnings,
) -> Result<Vec<u8>, ScriptFault>
    requires { length script.now ≤ MOST_BYTES }
    // The script has a plan, this is its whole output, and what is said is what it is warned of.
    ensures ok { IfOk result (λ printed.
        ComesToSaying format script.now printed.items said.new) }
    // The line is the first that is bad.
    ensures bad_line { (line : ℕ) → result ≡ Err (BadLine line) → plan_in script.now ≡ Err line }
    ensures bad_said { (line : ℕ) → result ≡ Err (BadLine line) →
        said.new ≡ bad_lines script.now }
    ensures unsaid { IfErr result (λ fault.
        ((line : ℕ) → fault ≢ BadLine line) → said.new ≡ said.old) }
    ensures no_read { result ≢ Err ReadFailed }
    ensures short { result ≢ Err TooLong }
{
    match kept {
        Kept::Drill(path) => run_recorded(rt, rt.alloc(), format, path, script, said),
        Kept::Parts(folder) => run_in_parts(rt, rt.alloc(), format, folder, script, said),
    }
}

// Runs the script of threads that a reader gives as `run_script` does. A script that can't be read leaves
// the files as they were.
fn run_kept<R: Threads + Wait + Sync + Files + AllocGlobal, I: Read>(
    rt: &R,
    format: Format,
    kept: Kept<'_>,
    reader: &mut Watched<I>,
    said: &mut Warnings,
) -> Result<Vec<u8>, ScriptFault>
    requires { has_failed reader.old ≡ false }
    // The script has a plan, this is its whole output, and what is said is what it is warned of.
    ensures ok { IfOk result (λ printed. IfInput I.remaining reader.old (λ input.
        ComesToSaying format input printed.items said.new)) }
    // The line is the first that is bad.
    ensures bad_line { (line : ℕ) → result ≡ Err (BadLine line) →
        IfInput I.remaining reader.old (λ input. plan_in input ≡ Err line) }
    ensures bad_said { (line : ℕ) → result ≡ Err (BadLine line) →
        IfInput I.remaining reader.old (λ input. said.new ≡ bad_lines input) }
    ensures unsaid { IfErr result (λ fault.
        ((line : ℕ) → fault ≢ BadLine line) → said.new ≡ said.old) }
    ensures read_failed { (result ≡ Err ReadFailed) ↔ (has_failed reader.new ≡ true) }
    ensures too_long { result ≡ Err TooLong →
        IfInput I.remaining reader.old (λ input. MOST_BYTES < length input) }
    // A longer script is too long, but where a read failed or memory was refused before.
    ensures long { IfInput I.remaining reader.old (λ input. MOST_BYTES < length input →
        (result ≡ Err TooLong) ⊎ (has_failed reader.new ≡ true) ⊎ (result ≡ Err OutOfMemory)) }
{
    let script = read_script(rt.alloc(), reader)?;
    run_script(rt, format, kept, script.as_slice(), said)
}

/// Runs the script of threads that a reader gives, and keeps its drill, where that is asked for. Returns
/// what it prints in a format, and sets what is said.
pub fn run_saying<R: Threads + Wait + Sync + Files + AllocGlobal, I: Read>(
    rt: &R,
    format: Format,
    options: ThreadOptions<'_>,
    reader: &mut Watched<I>,
    said: &mut Warnings,
) -> Result<Vec<u8>, ScriptFault>
    requires { has_failed reader.old ≡ false }
    ensures ok { IfOk result (λ printed. IfInput I.remaining reader.old (λ input.
        ComesToSaying format input printed.items said.new)) }
    ensures bad_said { (line : ℕ) → result ≡ Err (BadLine line) →
        IfInput I.remaining reader.old (λ input. said.new ≡ bad_lines input) }
    ensures unsaid { IfErr result (λ fault.
        ((line : ℕ) → fault ≢ BadLine line) → said.new ≡ said.old) }
    ensures read_failed { (result ≡ Err ReadFailed) ↔ (has_failed reader.new ≡ true) }
    ensures long { IfInput I.remaining reader.old (λ input. MOST_BYTES < length input →
        (result ≡ Err TooLong) ⊎ (has_failed reader.new ≡ true) ⊎ (result ≡ Err OutOfMemory)) }
{
    match (options.record, options.record_parts) {
        (Some(path), _) => run_kept(rt, format, Kept::Drill(path), reader, said),
        (None, Some(folder)) => run_kept(rt, format, Kept::Parts(folder), reader, said),
        (None, None) => run_threads_warning(rt, rt.alloc(), format, reader, said),
    }
}

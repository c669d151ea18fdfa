//! A script of threads from a reader, and what it prints to a writer.

ghost use Rattle.std.specs.Prelude.{◌≡◌, ◌≢◌, ℕ, ◌+◌, ◌<◌, ◌≤◌, ◌↔◌, ◌⊎◌, true, false, length};
ghost use Rattle.std.specs.Prelude.{IfErr, IfOk, OnOk};
ghost use Rattle.answers.specs.declared.printed.Format.TheVariants.{Lines};
ghost use Rattle.streams.specs.declared.fault.ScriptFault.TheVariants.{BadLine, OutOfMemory};
ghost use Rattle.streams.specs.declared.fault.ScriptFault.TheVariants.{ReadFailed, TooLong};
ghost use Rattle.streams.specs.declared.fault.ScriptFault.TheVariants.{WriteFailed};
ghost use Rattle.streams.specs.Watched.{has_failed, has_unflushed};
ghost use Rattle.streams.specs.Streams.{IfInput, ReadsUpTo, Writes, WritesPrefix};
ghost use Rattle.thread_scripts.specs.Outputs.{ComesTo, ComesToSaying, PlaysTo};
ghost use Rattle.thread_plans.specs.BadLines.{bad_lines};
ghost use Rattle.thread_plans.specs.Plans.{plan_in};

use crate::output::{output_of, told_of};
use crate::played::play;
use answers::Format;
use std::alloc::Global;
use std::io::{Read, Write};
use std::sync::Wait;
use std::thread::Threads;
use streams::{MOST_BYTES, ScriptFault, Watched, read_script, write_text};
use thread_plans::read_plan;
use thread_warnings::read_plan_saying;
use warnings::Warnings;

// What a script prints, or its first bad line.
fn played_text<R: Threads + Wait + Sync>(
    rt: &R,
    alloc: Global,
    script: &[u8],
) -> Result<Vec<u8>, ScriptFault>
    requires { length script.now ≤ MOST_BYTES }
    ensures ok { IfOk result (λ text. ComesTo Lines script.now text.items) }
    ensures bad { (line : ℕ) → result ≡ Err (BadLine line) → plan_in script.now ≡ Err line }
    ensures only { IfErr result (λ fault.
        (fault ≡ OutOfMemory) ⊎ ((line : ℕ) × (fault ≡ BadLine line))) }
{
    let plan = read_plan(alloc, script)?;
    let played = play(rt, alloc, &plan)?;
    let text = output_of(alloc, Format::Lines, &plan, &played)?;
    Ok(text)
}

/// Runs the script of threads that a reader gives, and writes how many workers there were, how many
/// calls were accepted, and what an audit says of them.
///
/// Before anything is called, the whole script is read. The calls have been made before the first byte
/// is written.
pub fn run_threads<R: Threads + Wait + Sync, I: Read, O: Write>(
    rt: &R,
    alloc: Global,
    reader: &mut Watched<I>,
    writer: &mut Watched<O>,
) -> Result<(), ScriptFault>
    requires reader { has_failed reader.old ≡ false }
    requires writer { has_failed writer.old ≡ false }

    // The script has a plan, and its whole output is written: of some traces and receipts.
    ensures ok { OnOk result (IfInput I.remaining reader.old (λ input.
        PlaysTo Lines input (Writes O.contents writer.old writer.new))) }
    // All that was written is flushed.
    ensures flushed { OnOk result (has_unflushed writer.new ≡ false) }
    // Where a write failed, a prefix of it.
    ensures prefix { result ≡ Err WriteFailed → IfInput I.remaining reader.old (λ input.
        PlaysTo Lines input (WritesPrefix O.contents writer.old writer.new)) }
    // After any other fault the writer is as it was.
    ensures unwritten { IfErr result (λ fault. fault ≢ WriteFailed → writer.new ≡ writer.old) }

    // The line is the first that is bad.
    ensures bad_line { (line : ℕ) → result ≡ Err (BadLine line) →
        IfInput I.remaining reader.old (λ input. plan_in input ≡ Err line) }
    ensures read_failed { (result ≡ Err ReadFailed) ↔ (has_failed reader.new ≡ true) }
    ensures write_failed { (result ≡ Err WriteFailed) ↔ (has_failed writer.new ≡ true) }
    // A longer script is too long, but where a read failed or memory was refused before; no other
    // is.
    ensures long { IfInput I.remaining reader.old (λ input. MOST_BYTES < length input →
        (result ≡ Err TooLong) ⊎ (has_failed reader.new ≡ true) ⊎ (result ≡ Err OutOfMemory)) }
    ensures too_long { result ≡ Err TooLong →
        IfInput I.remaining reader.old (λ input. MOST_BYTES < length input) }
    ensures taken { ReadsUpTo (MOST_BYTES + 1) I.remaining reader.old reader.new }
{
    let script = read_script(alloc, reader)?;
    let text = played_text(rt, alloc, script.as_slice())?;
    write_text(writer, &text)
}

// What a script prints in a format. What is said becomes what it is warned of or, if it has no plan, what
// was wanted of its bad lines.
fn played_saying<R: Threads + Wait + Sync>(
    rt: &R,
    alloc: Global,
    format: Format,
    script: &[u8],
    said: &mut Warnings,
) -> Result<Vec<u8>, ScriptFault>
    requires { length script.now ≤ MOST_BYTES }
    ensures ok { IfOk result (λ printed.
        ComesToSaying format script.now printed.items said.new) }
    ensures bad { (line : ℕ) → result ≡ Err (BadLine line) → plan_in script.now ≡ Err line }
    ensures bad_said { (line : ℕ) → result ≡ Err (BadLine line) →
        said.new ≡ bad_lines script.now }
    ensures unsaid { IfErr result (λ fault.
        ((line : ℕ) → fault ≢ BadLine line) → said.new ≡ said.old) }
    ensures only { IfErr result (λ fault.
        (fault ≡ OutOfMemory) ⊎ ((line : ℕ) × (fault ≡ BadLine line))) }
{
    let plan = read_plan_saying(alloc, script, said)?;
    let played = play(rt, alloc, &plan)?;
    let (printed, warned) = told_of(alloc, format, script, &plan, &played)?;
    *said = warned;
    Ok(printed)
}

/// Runs the script of threads that a reader gives, and returns what it prints in a format. Sets what is
/// said to what it is warned of; or, where it is refused for a bad line, to what was wanted of its bad
/// lines. After any other fault what is said is as it was.
pub fn run_threads_warning<R: Threads + Wait + Sync, I: Read>(
    rt: &R,
    alloc: Global,
    format: Format,
    reader: &mut Watched<I>,
    said: &mut Warnings,
) -> Result<Vec<u8>, ScriptFault>
    requires { has_failed reader.old ≡ false }

    // The script has a plan, this is its whole output, of some traces and receipts, and what is said is
    // what it is warned of, of exactly these.
    ensures ok { IfOk result (λ printed. IfInput I.remaining reader.old (λ input.
        ComesToSaying format input printed.items said.new)) }

    // The line is the first that is bad.
    ensures bad_line { (line : ℕ) → result ≡ Err (BadLine line) →
        IfInput I.remaining reader.old (λ input. plan_in input ≡ Err line) }
    ensures bad_said { (line : ℕ) → result ≡ Err (BadLine line) →
        IfInput I.remaining reader.old (λ input. said.new ≡ bad_lines input) }
    ensures unsaid { IfErr result (λ fault.
        ((line : ℕ) → fault ≢ BadLine line) → said.new ≡ said.old) }
    ensures read_failed { (result ≡ Err ReadFailed) ↔ (has_failed reader.new ≡ true) }
    ensures no_write { result ≢ Err WriteFailed }
    ensures long { IfInput I.remaining reader.old (λ input. MOST_BYTES < length input →
        (result ≡ Err TooLong) ⊎ (has_failed reader.new ≡ true) ⊎ (result ≡ Err OutOfMemory)) }
    ensures too_long { result ≡ Err TooLong →
        IfInput I.remaining reader.old (λ input. MOST_BYTES < length input) }
    ensures taken { ReadsUpTo (MOST_BYTES + 1) I.remaining reader.old reader.new }
{
    let script = read_script(alloc, reader)?;
    played_saying(rt, alloc, format, script.as_slice(), said)
}

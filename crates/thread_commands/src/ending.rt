//! How a run of a script ends: what is printed and said of it, and its exit status.

ghost use Rattle.std.specs.Prelude.{◌≡◌, [], true, false, is_ok, IfOk};
ghost use Rattle.std.specs.Process.{exit_status};
ghost use Rattle.answers.specs.declared.printed.Format.TheVariants.{Lines};
ghost use Rattle.streams.specs.Streams.{Writes};
ghost use Rattle.streams.specs.Watched.{has_failed, has_unflushed};
ghost use Rattle.warnings.specs.Lines.{text_of_lines};
ghost use Rattle.commands.specs.Statuses.{HasStatus, OnStatus};
ghost use Rattle.thread_commands.specs.Said.{Ends, TellsWith, answers_in, is_wrong};
ghost use Rattle.thread_commands.specs.Said.{printed_with, status_of};

use answers::{Format, push_warnings};
use commands::{finish_script, refuse, say};
use std::alloc::{AllocError, AllocGlobal, Global};
use std::io::Write;
use std::process::ExitCode;
use streams::{ScriptFault, Watched, write_text};
use warnings::Warnings;

// What is printed and said of a run, and whether it was refused.
#[derive(Drop)]
struct Told {
    run: Result<(), ScriptFault>,
    printed: Vec<u8>,
    text: Vec<u8>,
}

// With an object of each line that is said, where answers are JSON objects.
fn push_said(format: Format, said: &Warnings, printed: &mut Vec<u8>) -> Result<(), AllocError>
    ensures { IfOk result (λ _. printed.new.items
        ≡ printed_with format printed.old.items said.now) }
{
    match format {
        Format::Lines => Ok(()),
        Format::Objects => push_warnings(said, printed),
    }
}

fn told_of(
    alloc: Global,
    format: Format,
    run: Result<Vec<u8>, ScriptFault>,
    said: &Warnings,
) -> Result<Told, AllocError>
    ensures run { IfOk result (λ told. is_ok told.run ≡ is_ok run) }
    ensures printed { IfOk result (λ told. told.printed.items
        ≡ printed_with format (answers_in run) said.now) }
    ensures text { IfOk result (λ told. told.text.items ≡ text_of_lines said.now) }
{
    let (mut printed, run) = match run {
        Ok(answers) => (answers, Ok(())),
        Err(fault) => (Vec::new(alloc), Err(fault)),
    };
    push_said(format, said, &mut printed)?;
    let text = said.text(alloc)?;
    Ok(Told { run, printed, text })
}

// Prints why a run was refused, if it was, and says what is said of it: that this can't be written is no
// fault. Ends with 3 if it is wrong.
fn end<R: Eprint, E: Write>(
    rt: &R,
    wrong: bool,
    run: Result<(), ScriptFault>,
    text: &[u8],
    errors: &mut Watched<E>,
) -> anyhow::Result<ExitCode>
    requires { has_failed errors.old ≡ false }
    ensures status { HasStatus result (status_of wrong (is_ok run)) }
    ensures said { IfOk result (λ code. has_failed errors.new ≡ false →
        Writes E.contents errors.old errors.new text.now) }
    ensures unsaid { text.now ≡ [] → errors.new ≡ errors.old }
{
    let code = finish_script(rt, run, "")?;
    say(errors, text);
    if wrong {
        Ok(ExitCode::from(3))
    } else {
        Ok(code)
    }
}

// Writes what is printed, and then says what is said, unless that can't be written.
fn end_lines<R: Eprint, O: Write, E: Write>(
    rt: &R,
    wrong: bool,
    told: Told,
    writer: &mut Watched<O>,
    errors: &mut Watched<E>,
) -> anyhow::Result<ExitCode>
    requires writer { has_failed writer.old ≡ false }
    requires errors { has_failed errors.old ≡ false }
    ensures status { has_failed writer.new ≡ false →
        HasStatus result (status_of wrong (is_ok told.run)) }
    ensures printed { has_failed writer.new ≡ false → IfOk result (λ code.
        Writes O.contents writer.old writer.new told.printed.items) }
    ensures said { has_failed writer.new ≡ false → IfOk result (λ code.
        has_failed errors.new ≡ false →
        Writes E.contents errors.old errors.new told.text.items) }
    ensures flushed { has_failed writer.new ≡ false → IfOk result (λ code.
        has_unflushed writer.new ≡ false) }
    ensures write_failed { has_failed writer.new ≡ true → HasStatus result 1 }
    ensures unwritten { has_failed writer.new ≡ true → errors.new ≡ errors.old }
    ensures unsaid { told.text.items ≡ [] → errors.new ≡ errors.old }
{
    match write_text(writer, &told.printed) {
        Ok(()) => end(rt, wrong, told.run, &told.text, errors),
        Err(fault) => refuse(rt, fault, ""),
    }
}

// Says what is said, and then writes what is printed.
fn end_objects<R: Eprint, O: Write, E: Write>(
    rt: &R,
    wrong: bool,
    told: Told,
    writer: &mut Watched<O>,
    errors: &mut Watched<E>,
) -> anyhow::Result<ExitCode>
    requires writer { has_failed writer.old ≡ false }
    requires errors { has_failed errors.old ≡ false }
    ensures status { has_failed writer.new ≡ false →
        HasStatus result (status_of wrong (is_ok told.run)) }
    ensures printed { has_failed writer.new ≡ false → IfOk result (λ code.
        Writes O.contents writer.old writer.new told.printed.items) }
    ensures said { has_failed writer.new ≡ false → IfOk result (λ code.
        has_failed errors.new ≡ false →
        Writes E.contents errors.old errors.new told.text.items) }
    ensures flushed { has_failed writer.new ≡ false → IfOk result (λ code.
        has_unflushed writer.new ≡ false) }
    ensures write_failed { has_failed writer.new ≡ true → HasStatus result 1 }
    ensures unsaid { told.text.items ≡ [] → errors.new ≡ errors.old }
{
    let code = end(rt, wrong, told.run, &told.text, errors)?;
    match write_text(writer, &told.printed) {
        Ok(()) => Ok(code),
        Err(fault) => refuse(rt, fault, ""),
    }
}

/// Ends a run: prints what it prints or why it was refused, and what is said of it. That this can't be said
/// is no fault. Ends with 3 if the script is checked and something is said.
///
/// All is known before the first byte is written, so that out of memory prints nothing but that.
pub(crate) fn end_run<R: Eprint + AllocGlobal, O: Write, E: Write>(
    rt: &R,
    format: Format,
    check: bool,
    run: Result<Vec<u8>, ScriptFault>,
    said: &Warnings,
    writer: &mut Watched<O>,
    errors: &mut Watched<E>,
) -> anyhow::Result<ExitCode>
    requires writer { has_failed writer.old ≡ false }
    requires errors { has_failed errors.old ≡ false }
    ensures ended { has_failed writer.new ≡ false → IfOk result (λ code.
        Ends (is_wrong check said.now) run said.now (exit_status code)
        (TellsWith format O.contents writer.old writer.new E.contents errors.old errors.new)) }
    ensures flushed { OnStatus result 0 (has_unflushed writer.new ≡ false) }
    ensures write_failed { has_failed writer.new ≡ true → HasStatus result 1 }
    // Lines are said only if what is printed could be written.
    ensures unwritten { format ≡ Lines → has_failed writer.new ≡ true →
        errors.new ≡ errors.old }
    ensures unsaid { said.now ≡ [] → errors.new ≡ errors.old }
{
    let wrong = check && !said.is_empty();
    let Ok(told) = told_of(rt.alloc(), format, run, said) else {
        return refuse(rt, ScriptFault::OutOfMemory, "");
    };
    match format {
        Format::Lines => end_lines(rt, wrong, told, writer, errors),
        Format::Objects => end_objects(rt, wrong, told, writer, errors),
    }
}

//! What codes of refusals mean.

ghost use Rattle.std.specs.Prelude.{◌≡◌, ◌⊎◌, [], true, false, option_map, string_bytes};
ghost use Rattle.std.specs.Prelude.{unwrap_or, IfOk, OnOk};
ghost use Rattle.std.specs.Process.{exit_status};
ghost use Rattle.streams.specs.Streams.{Writes};
ghost use Rattle.streams.specs.Watched.{has_failed, has_unflushed};
ghost use Rattle.commands.specs.Explaining.{asked_text, is_unknown, no_code_text, unknown_text};
ghost use Rattle.commands.specs.Statuses.{HasStatus, OnStatus};

use crate::finish::finish_script;
use command_line::quoted;
use refusal_texts::{TABLE, all_codes, all_titles, explain};
use scripts::{Watched, write_text};
use std::alloc::{AllocError, AllocGlobal, Global};
use std::io::Write;
use std::process::ExitCode;

// What explains a text, or each title where there is none.
fn asked(alloc: Global, text: &Option<String>) -> Result<String, AllocError>
    ensures { IfOk result (λ shown.
        string_bytes shown ≡ asked_text TABLE.now (option_map string_bytes text.now)) }
{
    match text {
        Some(text) => explain(alloc, text),
        None => all_titles(alloc),
    }
}

// What was met: the text, or nothing.
fn met(text: &Option<String>) -> &str
    ensures { result.now ≡ unwrap_or (option_map string_bytes text.now) [] }
{
    match text {
        Some(text) => text,
        None => "",
    }
}

// What is said of a text that is shown so, where there are these codes.
#[tactic(auto, unfolding(crate::specs::Explaining::no_code_text))]
fn no_code(alloc: Global, shown: &str, codes: &str) -> Result<String, AllocError>
    ensures { IfOk result (λ said. string_bytes said ≡ no_code_text shown.now codes.now) }
{
    let mut said = String::new(alloc);
    said.push_str("error: no error code in ")?;
    said.push_str(shown)?;
    said.push_str("\ncodes:")?;
    said.push_str(codes)?;
    said.push_str("\n")?;
    Ok(said)
}

// What is said of a text that has no code.
fn unknown(alloc: Global, text: &str) -> Result<String, AllocError>
    ensures { IfOk result (λ said. string_bytes said ≡ unknown_text TABLE.now text.now) }
{
    no_code(alloc, &quoted(alloc, text)?, &all_codes(alloc)?)
}

// Writes what explains a text.
fn write_shown<R: Eprint, O: Write>(
    rt: &R,
    shown: &str,
    writer: &mut Watched<O>,
) -> anyhow::Result<ExitCode>
    requires { has_failed writer.old ≡ false }
    ensures done { OnStatus result 0 (Writes O.contents writer.old writer.new shown.now) }
    ensures flushed { OnStatus result 0 (has_unflushed writer.new ≡ false) }
    ensures write_failed { has_failed writer.new ≡ true → HasStatus result 1 }
    ensures failed { OnStatus result 1 (has_failed writer.new ≡ true) }
    ensures status { IfOk result (λ code. (exit_status code ≡ 0) ⊎ (exit_status code ≡ 1)) }
{
    finish_script(rt, write_text(writer, shown.as_bytes()), "")
}

// Says that a text has no code; where that can't be said, the status tells it.
fn say_unknown<E: Write>(
    alloc: Global,
    text: &str,
    errors: &mut Watched<E>,
) -> Result<(), AllocError>
    requires { has_failed errors.old ≡ false }
    ensures { OnOk result (has_failed errors.new ≡ false →
        Writes E.contents errors.old errors.new (unknown_text TABLE.now text.now)) }
{
    let said = unknown(alloc, text)?;
    let _said = write_text(errors, said.as_bytes());
    Ok(())
}

/// Writes what the codes in a text mean or, where there is no text, all codes. A text without a code
/// is a mistake in the command line, and standard error has what was met and which codes there are.
pub fn explain_codes<R: Eprint + AllocGlobal, O: Write, E: Write>(
    rt: &R,
    text: &Option<String>,
    writer: &mut Watched<O>,
    errors: &mut Watched<E>,
) -> anyhow::Result<ExitCode>
    requires writer { has_failed writer.old ≡ false }
    requires errors { has_failed errors.old ≡ false }
    // With status 0 what explains the text was written and flushed, and nothing was said.
    ensures known { OnStatus result 0
        (is_unknown TABLE.now (option_map string_bytes text.now) ≡ false) }
    ensures done { OnStatus result 0 (Writes O.contents writer.old writer.new
        (asked_text TABLE.now (option_map string_bytes text.now))) }
    ensures flushed { OnStatus result 0 (has_unflushed writer.new ≡ false) }
    ensures quiet { OnStatus result 0 (errors.new ≡ errors.old) }
    // With status 2 nothing explains it. Nothing was written, and what was met was said.
    ensures unknown { OnStatus result 2
        (is_unknown TABLE.now (option_map string_bytes text.now) ≡ true) }
    ensures unwritten { OnStatus result 2 (writer.new ≡ writer.old) }
    ensures said { OnStatus result 2 (has_failed errors.new ≡ false →
        Writes E.contents errors.old errors.new
        (unknown_text TABLE.now (unwrap_or (option_map string_bytes text.now) []))) }
    // It is 1 where the output can't be written, and then alone.
    ensures write_failed { has_failed writer.new ≡ true → HasStatus result 1 }
    ensures failed { OnStatus result 1 (has_failed writer.new ≡ true) }
    ensures status { IfOk result (λ code.
        (exit_status code ≡ 0) ⊎ (exit_status code ≡ 1) ⊎ (exit_status code ≡ 2)) }
{
    let shown = asked(rt.alloc(), text)?;
    if !shown.is_empty() {
        return write_shown(rt, &shown, writer);
    }
    say_unknown(rt.alloc(), met(text), errors)?;
    Ok(ExitCode::from(2))
}

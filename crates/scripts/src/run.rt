//! A script from a reader, and its text to a writer.

ghost use Rattle.std.specs.Prelude.{◌≡◌, ◌≢◌, ℕ, ◌+◌, ◌<◌, ◌==◌, ◌↔◌, ◌⊎◌, true, false, length};
ghost use Rattle.std.specs.Prelude.{IfErr, IfOk, OnErr, OnOk};
ghost use Rattle.streams.specs.declared.fault.ScriptFault.TheVariants.{BadLine, OutOfMemory};
ghost use Rattle.streams.specs.declared.fault.ScriptFault.TheVariants.{ReadFailed, TooLong};
ghost use Rattle.streams.specs.declared.fault.ScriptFault.TheVariants.{WriteFailed};
ghost use Rattle.streams.specs.Watched.{has_failed, has_unflushed};
ghost use Rattle.scripts.specs.Schedules.{RunsAsSchedule};
ghost use Rattle.scripts.specs.Checks.{checked_lines, checked_text, told_text};
ghost use Rattle.scripts.specs.Script.{script_text};
ghost use Rattle.scripts.specs.Warnings.{warned_output, warned_text};
ghost use Rattle.scripts.specs.Written.{form_text, printed_with};
ghost use Rattle.warnings.specs.Lines.{text_of_lines};
ghost use Rattle.streams.specs.Streams.{IfInput, ReadsUpTo, Writes, WritesPrefix};

use crate::check::{Checked, checked_output_of};
use crate::form::Form;
use crate::script::output_of;
use crate::warn::warned_output_of;
use answers::push_warnings;
use std::alloc::{AllocError, Global};
use std::io::{Read, Write};
use streams::{MOST_BYTES, ScriptFault, Watched, read_script, write_text};
use warnings::Warnings;

/// Runs the script that a reader gives, and writes what it prints.
///
/// The whole text is known before the first byte is written, so that out of memory writes none.
pub fn run_script<R: Read, W: Write>(
    alloc: Global,
    reader: &mut Watched<R>,
    writer: &mut Watched<W>,
) -> Result<(), ScriptFault>
    requires reader { has_failed reader.old ≡ false }
    requires writer { has_failed writer.old ≡ false }

    // The text of what was read is written, and nothing else.
    ensures ok { OnOk result (IfInput R.remaining reader.old (λ input.
        Writes W.contents writer.old writer.new (script_text input))) }
    // What its lines asked of the cluster was carried out as a schedule, so that what
    // `laws::script_is_schedule` says holds of it.
    ensures schedule { OnOk result (IfInput R.remaining reader.old RunsAsSchedule) }
    // All that was written is flushed.
    ensures flushed { OnOk result (has_unflushed writer.new ≡ false) }
    // Where a write failed, a prefix of it.
    ensures prefix { result ≡ Err WriteFailed → IfInput R.remaining reader.old (λ input.
        WritesPrefix W.contents writer.old writer.new (script_text input)) }
    // After any other fault the writer is as it was.
    ensures unwritten { IfErr result (λ fault. fault ≢ WriteFailed → writer.new ≡ writer.old) }

    ensures read_failed { (result ≡ Err ReadFailed) ↔ (has_failed reader.new ≡ true) }
    ensures write_failed { (result ≡ Err WriteFailed) ↔ (has_failed writer.new ≡ true) }
    // No line of a script of calls is refused.
    ensures no_line { (line : ℕ) → result ≢ Err (BadLine line) }
    // A longer script is too long, but where a read failed or memory was refused before; no other
    // is.
    ensures long { IfInput R.remaining reader.old (λ input. MOST_BYTES < length input →
        (result ≡ Err TooLong) ⊎ (has_failed reader.new ≡ true) ⊎ (result ≡ Err OutOfMemory)) }
    ensures too_long { result ≡ Err TooLong →
        IfInput R.remaining reader.old (λ input. MOST_BYTES < length input) }
    ensures taken { ReadsUpTo (MOST_BYTES + 1) R.remaining reader.old reader.new }
{
    run_script_as(alloc, Form::Plain, reader, writer)
}

/// Runs the script that a reader gives, and writes what it prints in a form.
///
/// The whole text is known before the first byte is written, so that out of memory writes none.
pub fn run_script_as<R: Read, W: Write>(
    alloc: Global,
    form: Form,
    reader: &mut Watched<R>,
    writer: &mut Watched<W>,
) -> Result<(), ScriptFault>
    requires reader { has_failed reader.old ≡ false }
    requires writer { has_failed writer.old ≡ false }

    // What is printed of what was read is written, and nothing else.
    ensures ok { OnOk result (IfInput R.remaining reader.old (λ input.
        Writes W.contents writer.old writer.new (form_text form input))) }
    // What its lines asked of the cluster was carried out as a schedule, so that what
    // `laws::script_is_schedule` says holds of it.
    ensures schedule { OnOk result (IfInput R.remaining reader.old RunsAsSchedule) }
    // All that was written is flushed.
    ensures flushed { OnOk result (has_unflushed writer.new ≡ false) }
    // Where a write failed, a prefix of it.
    ensures prefix { result ≡ Err WriteFailed → IfInput R.remaining reader.old (λ input.
        WritesPrefix W.contents writer.old writer.new (form_text form input)) }
    // After any other fault the writer is as it was.
    ensures unwritten { IfErr result (λ fault. fault ≢ WriteFailed → writer.new ≡ writer.old) }

    ensures read_failed { (result ≡ Err ReadFailed) ↔ (has_failed reader.new ≡ true) }
    ensures write_failed { (result ≡ Err WriteFailed) ↔ (has_failed writer.new ≡ true) }
    // No line of a script of calls is refused.
    ensures no_line { (line : ℕ) → result ≢ Err (BadLine line) }
    // A longer script is too long, but where a read failed or memory was refused before; no other
    // is.
    ensures long { IfInput R.remaining reader.old (λ input. MOST_BYTES < length input →
        (result ≡ Err TooLong) ⊎ (has_failed reader.new ≡ true) ⊎ (result ≡ Err OutOfMemory)) }
    ensures too_long { result ≡ Err TooLong →
        IfInput R.remaining reader.old (λ input. MOST_BYTES < length input) }
    ensures taken { ReadsUpTo (MOST_BYTES + 1) R.remaining reader.old reader.new }
{
    let script = read_script(alloc, reader)?;
    let bytes = output_of(alloc, form, script.as_slice())?;
    write_text(writer, bytes.as_slice())
}

// Adds what is said to what is printed, where answers are JSON objects.
fn push_said(form: Form, said: &Warnings, printed: &mut Vec<u8>) -> Result<(), AllocError>
    ensures { OnOk result (printed.new.items ≡ printed_with form printed.old.items said.now) }
{
    match form {
        Form::Plain | Form::Echoed => Ok(()),
        Form::Objects => push_warnings(said, printed),
    }
}

// Writes what a script prints, and then what is said of it: that this can't be written is no fault. Both
// are known before the first byte is written.
fn write_both<W: Write, E: Write>(
    alloc: Global,
    form: Form,
    writer: &mut Watched<W>,
    errors: &mut Watched<E>,
    checked: Checked,
) -> Result<bool, ScriptFault>
    requires writer { has_failed writer.old ≡ false }
    requires errors { has_failed errors.old ≡ false }
    ensures good { IfOk result (λ good. good ≡ (length checked.said == 0)) }
    ensures printed { OnOk result (Writes W.contents writer.old writer.new
        (printed_with form checked.printed.items checked.said)) }
    ensures flushed { OnOk result (has_unflushed writer.new ≡ false) }
    ensures said { OnOk result (has_failed errors.new ≡ false →
        Writes E.contents errors.old errors.new (text_of_lines checked.said)) }
    ensures only { IfErr result (λ fault. (fault ≡ WriteFailed) ⊎ (fault ≡ OutOfMemory)) }
    ensures failed { (result ≡ Err WriteFailed) ↔ (has_failed writer.new ≡ true) }
    ensures unwritten { result ≡ Err OutOfMemory → writer.new ≡ writer.old }
    // After any fault nothing is said.
    ensures unsaid { OnErr result (errors.new ≡ errors.old) }
{
    let Checked { mut printed, said } = checked;
    push_said(form, &said, &mut printed)?;
    let text = said.text(alloc)?;
    write_text(writer, &printed)?;
    if !text.is_empty() {
        let _ = write_text(errors, &text);
    }
    Ok(said.is_empty())
}

/// Runs the script that a reader gives, and writes what it prints in a form; and what is said of its bad
/// lines, and of passes that met a point that isn't set, to another writer. Where answers are JSON
/// objects, an object of each of these lines stands behind them.
pub fn run_script_warning<R: Read, W: Write, E: Write>(
    alloc: Global,
    form: Form,
    reader: &mut Watched<R>,
    writer: &mut Watched<W>,
    errors: &mut Watched<E>,
) -> Result<(), ScriptFault>
    requires reader { has_failed reader.old ≡ false }
    requires writer { has_failed writer.old ≡ false }
    requires errors { has_failed errors.old ≡ false }

    // What is printed of what was read is written, and nothing else.
    ensures ok { OnOk result (IfInput R.remaining reader.old (λ input.
        Writes W.contents writer.old writer.new (warned_output form input))) }
    ensures schedule { OnOk result (IfInput R.remaining reader.old RunsAsSchedule) }
    ensures flushed { OnOk result (has_unflushed writer.new ≡ false) }
    // And what is said of it, where that could be written.
    ensures said { OnOk result (has_failed errors.new ≡ false →
        IfInput R.remaining reader.old (λ input.
        Writes E.contents errors.old errors.new (warned_text input))) }
    // After any fault nothing is said.
    ensures unsaid { OnErr result (errors.new ≡ errors.old) }
    ensures unwritten { IfErr result (λ fault. fault ≢ WriteFailed → writer.new ≡ writer.old) }

    ensures read_failed { (result ≡ Err ReadFailed) ↔ (has_failed reader.new ≡ true) }
    ensures write_failed { (result ≡ Err WriteFailed) ↔ (has_failed writer.new ≡ true) }
    ensures no_line { (line : ℕ) → result ≢ Err (BadLine line) }
    ensures long { IfInput R.remaining reader.old (λ input. MOST_BYTES < length input →
        (result ≡ Err TooLong) ⊎ (has_failed reader.new ≡ true) ⊎ (result ≡ Err OutOfMemory)) }
    ensures too_long { result ≡ Err TooLong →
        IfInput R.remaining reader.old (λ input. MOST_BYTES < length input) }
{
    let script = read_script(alloc, reader)?;
    let warned = warned_output_of(alloc, form, script.as_slice())?;
    write_both(alloc, form, writer, errors, warned)?;
    Ok(())
}

/// Runs the script that a reader gives as one that is checked: writes what it prints in a form, and
/// what is said of the lines that fail to another writer. Answers whether none fails. Where answers are
/// JSON objects, an object of each of these lines stands behind them.
///
/// A line `expect <text>` prints nothing and fails unless the answer before it goes on with just
/// this. So do bad lines, refusals that no line expects, and questions about what isn't there.
pub fn run_script_checked<R: Read, W: Write, E: Write>(
    alloc: Global,
    form: Form,
    reader: &mut Watched<R>,
    writer: &mut Watched<W>,
    errors: &mut Watched<E>,
) -> Result<bool, ScriptFault>
    requires reader { has_failed reader.old ≡ false }
    requires writer { has_failed writer.old ≡ false }
    requires errors { has_failed errors.old ≡ false }

    // What the lines print that expect nothing is written, and nothing else.
    ensures ok { OnOk result (IfInput R.remaining reader.old (λ input.
        Writes W.contents writer.old writer.new (told_text form input))) }
    ensures schedule { OnOk result (IfInput R.remaining reader.old RunsAsSchedule) }
    ensures flushed { OnOk result (has_unflushed writer.new ≡ false) }
    // None fails where nothing is said.
    ensures good { IfOk result (λ good. IfInput R.remaining reader.old (λ input.
        good ≡ (length (checked_lines input) == 0))) }
    // What is said of the lines that fail is written, where it could be.
    ensures said { OnOk result (has_failed errors.new ≡ false →
        IfInput R.remaining reader.old (λ input.
        Writes E.contents errors.old errors.new (checked_text input))) }
    // After any fault nothing is said.
    ensures unsaid { OnErr result (errors.new ≡ errors.old) }
    ensures unwritten { IfErr result (λ fault. fault ≢ WriteFailed → writer.new ≡ writer.old) }

    ensures read_failed { (result ≡ Err ReadFailed) ↔ (has_failed reader.new ≡ true) }
    ensures write_failed { (result ≡ Err WriteFailed) ↔ (has_failed writer.new ≡ true) }
    ensures no_line { (line : ℕ) → result ≢ Err (BadLine line) }
    ensures long { IfInput R.remaining reader.old (λ input. MOST_BYTES < length input →
        (result ≡ Err TooLong) ⊎ (has_failed reader.new ≡ true) ⊎ (result ≡ Err OutOfMemory)) }
    ensures too_long { result ≡ Err TooLong →
        IfInput R.remaining reader.old (λ input. MOST_BYTES < length input) }
{
    let script = read_script(alloc, reader)?;
    let checked = checked_output_of(alloc, form, script.as_slice())?;
    write_both(alloc, form, writer, errors, checked)
}

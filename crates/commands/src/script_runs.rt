//! Scripts that are run, and checked where that is wanted.

ghost use Rattle.std.specs.Prelude.{◌≡◌, ◌≢◌, ◌<◌, ◌⊎◌, true, false, length};
ghost use Rattle.std.specs.Prelude.{IfOk, IsErr, OnOk};
ghost use Rattle.std.specs.Process.{exit_status};
ghost use Rattle.scripts.specs.Checks.{checked_status, checked_text, told_text};
ghost use Rattle.scripts.specs.Warnings.{warned_text};
ghost use Rattle.streams.specs.Streams.{IfInput, Writes};
ghost use Rattle.streams.specs.Watched.{has_failed, has_unflushed};
ghost use Rattle.commands.specs.Forms.{form_of, printed_by};
ghost use Rattle.commands.specs.Statuses.{HasStatus, OnStatus};

use crate::finish::{finish_checked, finish_script};
use command_line::SimOptions;
use scripts::{
    Form, MOST_BYTES, ScriptFault, Watched, run_script_as, run_script_checked, run_script_warning,
};
use std::alloc::{AllocGlobal, Global};
use std::io::{Read, Write};
use std::process::ExitCode;

// How answers are printed. Lines aren't echoed before JSON objects.
fn form_of(options: SimOptions) -> Form
    ensures { result ≡ form_of options }
{
    if options.json {
        return Form::Objects;
    }
    if options.echo {
        Form::Echoed
    } else {
        Form::Plain
    }
}

// Runs a script that isn't checked, and says what goes wrong in it, unless that isn't wanted.
fn run_unchecked<I: Read, O: Write, E: Write>(
    alloc: Global,
    options: SimOptions,
    reader: &mut Watched<I>,
    writer: &mut Watched<O>,
    errors: &mut Watched<E>,
) -> Result<(), ScriptFault>
    requires reader { has_failed reader.old ≡ false }
    requires writer { has_failed writer.old ≡ false }
    requires errors { has_failed errors.old ≡ false }
    ensures ok { OnOk result (IfInput I.remaining reader.old (λ input.
        Writes O.contents writer.old writer.new (printed_by options input))) }
    ensures flushed { OnOk result (has_unflushed writer.new ≡ false) }
    ensures said { options.quiet ≡ false → OnOk result (
        has_failed errors.new ≡ false → IfInput I.remaining reader.old (λ input.
        Writes E.contents errors.old errors.new (warned_text input))) }
    ensures quiet { options.quiet ≡ true → errors.new ≡ errors.old }
    ensures read_failed { has_failed reader.new ≡ true → IsErr result }
    ensures write_failed { has_failed writer.new ≡ true → IsErr result }
    ensures long { IfInput I.remaining reader.old (λ input.
        MOST_BYTES < length input → IsErr result) }
{
    if options.quiet {
        run_script_as(alloc, form_of(options), reader, writer)
    } else {
        run_script_warning(alloc, form_of(options), reader, writer, errors)
    }
}

/// Runs the script that a reader gives, and may say which of its lines go wrong.
pub fn sim<R: Eprint + AllocGlobal, I: Read, O: Write, E: Write>(
    rt: &R,
    options: SimOptions,
    reader: &mut Watched<I>,
    writer: &mut Watched<O>,
    errors: &mut Watched<E>,
) -> anyhow::Result<ExitCode>
    requires reader { has_failed reader.old ≡ false }
    requires writer { has_failed writer.old ≡ false }
    requires errors { has_failed errors.old ≡ false }
    // With status 0 the whole text of what was read is written and flushed.
    ensures done { OnStatus result 0 (IfInput I.remaining reader.old (λ input.
        Writes O.contents writer.old writer.new (printed_by options input))) }
    ensures flushed { OnStatus result 0 (has_unflushed writer.new ≡ false) }
    // And what goes wrong in it is said, unless that isn't wanted.
    ensures said { options.quiet ≡ false → OnStatus result 0 (
        has_failed errors.new ≡ false → IfInput I.remaining reader.old (λ input.
        Writes E.contents errors.old errors.new (warned_text input))) }
    ensures quiet { options.quiet ≡ true → errors.new ≡ errors.old }
    // A script that is too long, or that can't be read or answered, has status 1.
    ensures read_failed { has_failed reader.new ≡ true → HasStatus result 1 }
    ensures write_failed { has_failed writer.new ≡ true → HasStatus result 1 }
    ensures long { IfInput I.remaining reader.old (λ input.
        MOST_BYTES < length input → HasStatus result 1) }
    ensures status { IfOk result (λ code. (exit_status code ≡ 0) ⊎ (exit_status code ≡ 1)) }
{
    let run = run_unchecked(rt.alloc(), options, reader, writer, errors);
    finish_script(rt, run, "")
}

/// Runs the script that a reader gives as one that is checked.
pub fn check<R: Eprint + AllocGlobal, I: Read, O: Write, E: Write>(
    rt: &R,
    options: SimOptions,
    reader: &mut Watched<I>,
    writer: &mut Watched<O>,
    errors: &mut Watched<E>,
) -> anyhow::Result<ExitCode>
    requires reader { has_failed reader.old ≡ false }
    requires writer { has_failed writer.old ≡ false }
    requires errors { has_failed errors.old ≡ false }
    // The status is 1, or that of the script: 0 where nothing is said of its lines, and else 3.
    ensures status { IfOk result (λ code. exit_status code ≢ 1 →
        IfInput I.remaining reader.old (λ input. exit_status code ≡ checked_status input)) }
    ensures only { IfOk result (λ code.
        (exit_status code ≡ 0) ⊎ (exit_status code ≡ 1) ⊎ (exit_status code ≡ 3)) }
    // Then what its lines print is written and flushed, and what is said of them.
    ensures printed { IfOk result (λ code. exit_status code ≢ 1 →
        IfInput I.remaining reader.old (λ input.
        Writes O.contents writer.old writer.new (told_text (form_of options) input))) }
    ensures flushed { IfOk result (λ code. exit_status code ≢ 1 →
        has_unflushed writer.new ≡ false) }
    ensures said { IfOk result (λ code. exit_status code ≢ 1 → has_failed errors.new ≡ false →
        IfInput I.remaining reader.old (λ input.
        Writes E.contents errors.old errors.new (checked_text input))) }
    // A script that is too long, or that can't be read or answered, has status 1.
    ensures read_failed { has_failed reader.new ≡ true → HasStatus result 1 }
    ensures write_failed { has_failed writer.new ≡ true → HasStatus result 1 }
    ensures long { IfInput I.remaining reader.old (λ input.
        MOST_BYTES < length input → HasStatus result 1) }
{
    finish_checked(
        rt,
        run_script_checked(rt.alloc(), form_of(options), reader, writer, errors),
    )
}

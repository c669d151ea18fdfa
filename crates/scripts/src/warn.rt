//! A script that isn't checked: what its lines print, and what is said of those that go wrong.

ghost use Rattle.std.specs.Prelude.{◌≡◌, ◌+◌, ◌++◌, ◌∷◌, ◌<◌, ◌≤◌, [], decimal, false, is_some};
ghost use Rattle.std.specs.Prelude.{length};
ghost use Rattle.std.specs.Prelude.{option_map, IfOk, IfSome, OnOk};
ghost use Rattle.streams.specs.Lines.{is_skipped};
ghost use Rattle.answers.specs.Answers.{kind_in};
ghost use Rattle.answers.specs.Printing.{after_put};
ghost use Rattle.scripts.specs.Commands.{command_value};
ghost use Rattle.scripts.specs.Schedules.{GoesOn, LineGoesOn, RunsAsSchedule};
ghost use Rattle.scripts.specs.Script.{after_line, after_read, command_in};
ghost use Rattle.scripts.specs.Warned.{warned_of};
ghost use Rattle.scripts.specs.Warnings.{after_warned, bad_in, bad_sum, count_one, is_unset, line_warned};
ghost use Rattle.scripts.specs.Warnings.{unset_sum, unwarned, warned_lines, warned_sums};
ghost use Rattle.scripts.specs.Written.{form_output, form_text, format_of, line_answer, read_answer};

use crate::check::Checked;
use crate::command::Command;
use crate::faults::{say_bad, why_bad};
use crate::form::Form;
use crate::script::{line_command, run_read};
use answers::{Kind, Printed};
use cluster_model::World;
use std::alloc::{AllocError, Global};
use streams::{MOST_BYTES, is_skipped};
use warnings::Warnings;

/// The most bad lines that are named.
const MOST_NAMED: u32 = 20;

fn is_unset(kind: Kind) -> bool
    ensures { result ≡ is_unset kind }
{
    match kind {
        Kind::Unset => true,
        Kind::Refused | Kind::Other => false,
    }
}

// A line that begins so and ends with a number.
fn say_count(alloc: Global, front: &str, count: u32, said: &mut Warnings) -> Result<(), AllocError>
    ensures { OnOk result (said.new ≡ said.old ++ (front.now ++ decimal count) ∷ []) }
{
    let line = format!(in alloc; "{front}{count}")?;
    said.push_text(line)
}

/// A script that is read line by line, and what was said of its lines so far.
#[derive(Drop)]
struct Warning {
    // The number of the line that comes next.
    number: u32,
    // How many lines were bad, and how many passes met a point that isn't set.
    bad: u32,
    unset: u32,
    said: Warnings,
}

impl Warning {
    fn new(alloc: Global) -> Warning
        ensures state { warned_of result ≡ unwarned }
        ensures said { result.said ≡ [] }
    {
        Warning {
            number: 1,
            bad: 0,
            unset: 0,
            said: Warnings::new(alloc),
        }
    }

    // Names a bad line, unless many were.
    fn name_bad(
        &mut self,
        alloc: Global,
        world: &Option<World>,
        line: &[u8],
        command: &Option<Command<'_>>,
    ) -> Result<(), AllocError>
        requires bad { self.old.bad < 4294967295 }
        requires skipped { is_skipped line.now ≡ false }
        requires read { option_map command_value command.now ≡ command_in line.now }
        ensures number { OnOk result (self.new.number ≡ self.old.number) }
        ensures bad { OnOk result (self.new.bad
            ≡ self.old.bad + count_one (is_some (bad_in world.now line.now))) }
        ensures unset { OnOk result (self.new.unset ≡ self.old.unset) }
        ensures said { OnOk result (self.new.said
            ≡ self.old.said ++ line_warned world.now (warned_of self.old) line.now) }
    {
        let why = why_bad(world, line, command);
        if self.bad < MOST_NAMED {
            say_bad(alloc, self.number, why, &mut self.said)?;
        }
        self.bad += u32::from(why.is_some());
        Ok(())
    }

    // Answers a line that isn't skipped, and counts it where a pass meets a point that isn't set.
    fn answer(
        &mut self,
        alloc: Global,
        world: &mut Option<World>,
        command: Option<Command<'_>>,
        printed: &mut Printed,
    ) -> Result<(), AllocError>
        requires unset { self.old.unset < 4294967295 }
        requires number { self.old.number < 4294967295 }
        ensures printed { OnOk result (printed.new ≡ after_put printed.old
            (read_answer world.old (option_map command_value command.entry))) }
        ensures number { OnOk result (self.new.number ≡ self.old.number + 1) }
        ensures bad { OnOk result (self.new.bad ≡ self.old.bad) }
        ensures unset { OnOk result (self.new.unset ≡ self.old.unset + count_one (is_unset
            (kind_in (read_answer world.old (option_map command_value command.entry))))) }
        ensures said { OnOk result (self.new.said ≡ self.old.said) }
        ensures world { OnOk result (
            world.new ≡ after_read world.old (option_map command_value command.entry)) }
        ensures history { OnOk result (
            IfSome (option_map command_value command.entry) (GoesOn world.old)) }
    {
        run_read(alloc, world, command, printed)?;
        self.unset += u32::from(is_unset(printed.kind()));
        self.number += 1;
        Ok(())
    }

    // Says how many lines were bad, where not all were named.
    fn sum_bad(&mut self, alloc: Global) -> Result<(), AllocError>
        ensures state { OnOk result (warned_of self.new ≡ warned_of self.old) }
        ensures said { OnOk result (self.new.said
            ≡ self.old.said ++ bad_sum self.old.bad) }
    {
        if self.bad <= MOST_NAMED {
            return Ok(());
        }
        say_count(alloc, "bad lines: ", self.bad, &mut self.said)
    }

    // Says how many passes met a point that isn't set, if one did.
    fn sum_unset(&mut self, alloc: Global) -> Result<(), AllocError>
        ensures { OnOk result (self.new.said
            ≡ self.old.said ++ unset_sum self.old.unset) }
    {
        if self.unset == 0 {
            return Ok(());
        }
        let front = "evaluations of points that aren't set: ";
        say_count(alloc, front, self.unset, &mut self.said)
    }

    fn sum_up(&mut self, alloc: Global) -> Result<(), AllocError>
        ensures { OnOk result (self.new.said
            ≡ self.old.said ++ warned_sums (warned_of self.old)) }
    {
        self.sum_bad(alloc)?;
        self.sum_unset(alloc)
    }
}

// Any line.
fn warn_line(
    alloc: Global,
    world: &mut Option<World>,
    warning: &mut Warning,
    line: &[u8],
    printed: &mut Printed,
) -> Result<(), AllocError>
    requires number { warning.old.number < 4294967295 }
    requires bad { warning.old.bad < warning.old.number }
    requires unset { warning.old.unset < warning.old.number }
    ensures printed { OnOk result (
        printed.new ≡ after_put printed.old (line_answer world.old line.now)) }
    ensures said { OnOk result (warning.new.said
        ≡ warning.old.said ++ line_warned world.old (warned_of warning.old) line.now) }
    ensures state { OnOk result (warned_of warning.new
        ≡ after_warned world.old (warned_of warning.old) line.now) }
    ensures world { OnOk result (world.new ≡ after_line world.old line.now) }
    ensures history { OnOk result (LineGoesOn world.old line.now) }
{
    if is_skipped(line) {
        warning.number += 1;
        printed.put_none();
        return Ok(());
    }
    let command = line_command(alloc, line)?;
    warning.name_bad(alloc, world, line, &command)?;
    warning.answer(alloc, world, command, printed)
}

// Any line, printed in this form.
fn warn_printing(
    alloc: Global,
    form: Form,
    world: &mut Option<World>,
    warning: &mut Warning,
    line: &[u8],
    printed: &mut Printed,
) -> Result<(), AllocError>
    requires number { warning.old.number < 4294967295 }
    requires bad { warning.old.bad < warning.old.number }
    requires unset { warning.old.unset < warning.old.number }
    requires format { printed.old.format ≡ format_of form }
    ensures format { OnOk result (printed.new.format ≡ printed.old.format) }
    ensures printed { OnOk result (
        printed.new.bytes ≡ printed.old.bytes ++ form_output form world.old line.now) }
    ensures said { OnOk result (warning.new.said
        ≡ warning.old.said ++ line_warned world.old (warned_of warning.old) line.now) }
    ensures state { OnOk result (warned_of warning.new
        ≡ after_warned world.old (warned_of warning.old) line.now) }
    ensures world { OnOk result (world.new ≡ after_line world.old line.now) }
    ensures history { OnOk result (LineGoesOn world.old line.now) }
{
    form.push_echo(line, printed)?;
    warn_line(alloc, world, warning, line, printed)
}

/// What a script prints in a form, and what is said of its bad lines and of passes that met a point that
/// isn't set.
pub(crate) fn warned_output_of(
    alloc: Global,
    form: Form,
    script: &[u8],
) -> Result<Checked, AllocError>
    requires { length script.now ≤ MOST_BYTES }
    ensures printed { IfOk result (λ c. c.printed.items ≡ form_text form script.now) }
    ensures said { IfOk result (λ c. c.said ≡ warned_lines script.now) }
    ensures schedule { OnOk result (RunsAsSchedule script.now) }
{
    let mut world = None;
    let mut warning = Warning::new(alloc);
    let mut printed = Printed::new(alloc, form.format());
    for line in script.split(|byte| *byte == b'\n') {
        warn_printing(alloc, form, &mut world, &mut warning, line, &mut printed)?;
    }
    warning.sum_up(alloc)?;
    Ok(Checked {
        printed: printed.into_bytes(),
        said: warning.said,
    })
}

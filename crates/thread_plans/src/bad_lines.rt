//! What is said of the bad lines of a script.

ghost use Rattle.std.specs.Prelude.{◌≡◌, ◌++◌, ◌∷◌, ◌<◌, ◌≤◌, [], decimal, length, not, option_map};
ghost use Rattle.std.specs.Prelude.{if◌then◌else◌, IfOk, OnOk, Some, None};
ghost use Rattle.thread_plans.specs.BadLines.{after_named, bad_lines, bad_said, bad_sum};
ghost use Rattle.thread_plans.specs.BadLines.{end_said, end_wanted, has_form, line_said, none_named};
ghost use Rattle.thread_plans.specs.BadLines.{stage_behind, wanted_behind, why_said};
ghost use Rattle.thread_plans.specs.Named.{naming_value};
ghost use Rattle.thread_plans.specs.Plans.{stage_value};

use crate::line::read_line;
use crate::reading::ends_line;
use crate::stage::{Stage, after_text};
use crate::wanted::{wanted, wanted_at_end, wanted_in};
use std::alloc::{AllocError, Global};
use streams::{MOST_BYTES, is_skipped};
use warnings::Warnings;

/// The most lines of a kind that are named in what is said of a script.
pub const MOST_NAMED: u32 = 20;

/// Lines that are read in turn, and what was said of those that are bad.
#[derive(Drop)]
pub(crate) struct Naming<'a> {
    // What the lines came to, until one was bad.
    stage: Option<Stage<'a>>,
    // The number of the next line.
    number: u32,
    // How many were bad.
    bad: u32,
    said: Warnings,
}

fn has_form(line: &[u8]) -> bool
    ensures { result ≡ has_form line.now }
{
    is_skipped(line) || read_line(line).is_some()
}

// What was wanted of a line, if it is bad.
fn wanted_behind(stage: &Option<Stage<'_>>, line: &[u8]) -> &'static str
    ensures { result.now ≡ wanted_behind (option_map stage_value stage.now) line.now }
{
    match stage {
        Some(stage) => wanted(stage, line),
        None => wanted_in(line),
    }
}

// What the lines come to with one more, where none was bad.
fn stage_behind<'a>(
    alloc: Global,
    stage: Option<Stage<'a>>,
    line: &'a [u8],
) -> Result<Option<Stage<'a>>, AllocError>
    ensures { IfOk result (λ next. option_map stage_value next
        ≡ stage_behind (option_map stage_value stage.entry) line.now) }
{
    match stage {
        Some(stage) => after_text(alloc, stage, line),
        None => Ok(None),
    }
}

// A line that none of a plan's lines goes on with is bad, and behind such a line one without a form.
fn is_bad(was_good: bool, is_end: bool, line: &[u8]) -> bool
    ensures { result ≡ (if was_good then is_end else not (has_form line.now)) }
{
    if was_good { is_end } else { !has_form(line) }
}

fn end_wanted(stage: &Option<Stage<'_>>) -> Option<&'static str>
    ensures { option_map (λ why. why.now) result
        ≡ end_wanted (option_map stage_value stage.now) }
{
    match stage {
        Some(stage) => wanted_at_end(stage),
        None => None,
    }
}

// Says why a line is bad.
fn say_why(alloc: Global, number: u32, why: &str, said: &mut Warnings) -> Result<(), AllocError>
    ensures { OnOk result (said.new ≡ said.old ++ why_said number why.now) }
{
    said.push_text(format!(in alloc; "line {number}: bad line: {why}")?)
}

// The same, if it is.
fn say_bad(
    alloc: Global,
    number: u32,
    why: Option<&'static str>,
    said: &mut Warnings,
) -> Result<(), AllocError>
    ensures { OnOk result (said.new
        ≡ said.old ++ bad_said number (option_map (λ why. why.now) why.entry)) }
{
    match why {
        Some(why) => say_why(alloc, number, why, said),
        None => Ok(()),
    }
}

// Says what was wanted of a line that is bad.
fn say_line(
    alloc: Global,
    number: u32,
    is_bad: bool,
    wanted: &'static str,
    said: &mut Warnings,
) -> Result<(), AllocError>
    ensures { OnOk result (said.new ≡ said.old
        ++ bad_said number (if is_bad then Some wanted.now else None)) }
{
    if is_bad {
        say_bad(alloc, number, Some(wanted), said)
    } else {
        Ok(())
    }
}

/// Says how many there are of something.
pub fn say_count(
    alloc: Global,
    front: &str,
    count: u128,
    said: &mut Warnings,
) -> Result<(), AllocError>
    ensures { OnOk result (said.new ≡ said.old ++ (front.now ++ decimal count) ∷ []) }
{
    said.push_text(format!(in alloc; "{front}{count}")?)
}

// Says how many lines were bad, where not all were named.
fn say_sum(alloc: Global, bad: u32, said: &mut Warnings) -> Result<(), AllocError>
    ensures { OnOk result (said.new ≡ said.old ++ bad_sum bad) }
{
    if bad <= MOST_NAMED {
        return Ok(());
    }
    say_count(alloc, "bad lines: ", bad as u128, said)
}

impl<'a> Naming<'a> {
    fn new(alloc: Global) -> Naming<'a>
        ensures state { naming_value result ≡ none_named }
        ensures said { result.said ≡ [] }
    {
        Naming {
            stage: Some(Stage::Empty),
            number: 1,
            bad: 0,
            said: Warnings::new(alloc),
        }
    }

    fn read(self, alloc: Global, line: &'a [u8]) -> Result<Naming<'a>, AllocError>
        requires number { self.number < 4294967295 }
        requires bad { self.bad < self.number }
        ensures state { IfOk result (λ next.
            naming_value next ≡ after_named (naming_value self.entry) line.now) }
        ensures said { IfOk result (λ next. next.said
            ≡ self.entry.said ++ line_said (naming_value self.entry) line.now) }
    {
        let Naming {
            stage,
            number,
            bad,
            mut said,
        } = self;
        let wanted = wanted_behind(&stage, line);
        let was_good = stage.is_some();
        let stage = stage_behind(alloc, stage, line)?;
        let is_bad = is_bad(was_good, stage.is_none(), line);
        if bad < MOST_NAMED {
            say_line(alloc, number, is_bad, wanted, &mut said)?;
        }
        Ok(Naming {
            stage,
            number: number + 1,
            bad: bad + u32::from(is_bad),
            said,
        })
    }

    // All that is said, where the line behind the last would have this number.
    fn end(self, alloc: Global, next: u32) -> Result<Warnings, AllocError>
        ensures { IfOk result (λ said. said
            ≡ self.entry.said ++ end_said next (naming_value self.entry)) }
    {
        let Naming {
            stage,
            number: _,
            bad,
            mut said,
        } = self;
        say_bad(alloc, next, end_wanted(&stage), &mut said)?;
        say_sum(alloc, bad, &mut said)?;
        Ok(said)
    }
}

/// What is said of a script without a plan, a line for each: of its first bad line, with its number,
/// what was wanted of it; and of each line behind it that has none of the forms. 20 lines are named at
/// most, and then it is said how many there were. Of a script with a plan nothing is said.
pub fn bad_lines_of(alloc: Global, script: &[u8]) -> Result<Warnings, AllocError>
    requires { length script.now ≤ MOST_BYTES }
    ensures { IfOk result (λ said. said ≡ bad_lines script.now) }
{
    let mut naming = Naming::new(alloc);
    for line in script.split(|byte| *byte == b'\n') {
        naming = naming.read(alloc, line)?;
    }
    // The number is one more than there are lines and, behind a last newline, nothing.
    let next = naming.number - u32::from(ends_line(script));
    naming.end(alloc, next)
}

//! A script that is checked: what its lines print, and what is said of those that fail.

ghost use Rattle.std.specs.Prelude.{◌≡◌, ◌+◌, ◌++◌, ◌<◌, ◌≤◌, [], codes, false, length, option_map};
ghost use Rattle.std.specs.Prelude.{IfOk, OnOk};
ghost use Rattle.std.specs.List.{position_or_len};
ghost use Rattle.answers.specs.Printing.{after_put};
ghost use Rattle.streams.specs.Lines.{is_skipped};
ghost use Rattle.scripts.specs.Checks.{answered_text, asked_said, checked_answer, checked_lines};
ghost use Rattle.scripts.specs.Checks.{expected_in, first_line, goes_on, is_alarm, is_left, is_line_end};
ghost use Rattle.scripts.specs.Checks.{is_refused, later_lines, line_checked, line_said, meets, missed};
ghost use Rattle.scripts.specs.Checks.{checked_output, settled, shown};
ghost use Rattle.scripts.specs.Checks.{taking, unchecked, waiting};
ghost use Rattle.scripts.specs.Commands.{command_value};
ghost use Rattle.scripts.specs.Faults.{bad_said, missing_said, why_bad, why_missing};
ghost use Rattle.scripts.specs.Checking.{checking_of};
ghost use Rattle.scripts.specs.Schedules.{LineGoesOn, RunsAsSchedule};
ghost use Rattle.scripts.specs.Script.{after_line, command_in};
ghost use Rattle.scripts.specs.Written.{format_of, line_answer};

use crate::command::Command;
use crate::faults::{say_bad, say_missing, say_of, why_bad, why_missing};
use crate::form::Form;
use crate::script::{line_command, run_read};
use answers::{Kind, Printed};
use cluster_model::World;
use std::alloc::{AllocError, Global};
use streams::{MOST_BYTES, is_skipped};
use warnings::Warnings;

/// A script that is read line by line: what its lines printed so far, and what was said of them.
#[derive(Drop)]
struct Check {
    // The number of the line that comes next.
    number: u32,
    // That of the line that was answered last, the kind of its answer, what of this no line has
    // expected yet, and whether one has expected some of it.
    asked: u32,
    kind: Kind,
    rest: Vec<u8>,
    met: bool,
    said: Warnings,
}

/// What a script prints, and what is said of its lines that fail.
#[derive(Drop)]
pub(crate) struct Checked {
    pub(crate) printed: Vec<u8>,
    pub(crate) said: Warnings,
}

// The text that a line expects, if it expects one.
fn expected_in(line: &[u8]) -> Option<&[u8]>
    ensures { option_map (λ text. text.now) result ≡ expected_in line.now }
{
    if line == b"expect".as_slice() {
        return Some(b"");
    }
    if line.starts_with(b"expect ") {
        Some(&line[7..])
    } else {
        None
    }
}

// Where the first line of a text ends.
fn line_end(text: &[u8]) -> usize
    ensures value { result ≡ position_or_len is_line_end text.now }
    ensures bound { result ≤ length text.now }
{
    let mut end = 0;
    while end < text.len() && text[end] != b'\n' {
        end += 1;
    }
    end
}

fn first_line(text: &[u8]) -> &[u8]
    ensures { result.now ≡ first_line text.now }
{
    &text[..line_end(text)]
}

fn later_lines(text: &[u8]) -> &[u8]
    ensures { result.now ≡ later_lines text.now }
{
    let end = line_end(text);
    if end < text.len() {
        &text[end + 1..]
    } else {
        &[]
    }
}

fn goes_on(front: &[u8], text: &[u8]) -> bool
    ensures { result ≡ goes_on front.now text.now }
{
    front.len() < text.len() && text[front.len()] == b' ' && text.starts_with(front)
}

fn is_refused(kind: Kind) -> bool
    ensures { result ≡ is_refused kind }
{
    match kind {
        Kind::Refused => true,
        Kind::Unset | Kind::Other => false,
    }
}

// An answer of this kind is just what was expected, or a refusal that begins so.
fn meets(kind: Kind, expected: &[u8], answer: &[u8]) -> bool
    ensures { result ≡ meets kind expected.now answer.now }
{
    expected == answer || (is_refused(kind) && goes_on(expected, answer))
}

fn is_alarm(kind: Kind) -> bool
    ensures { result ≡ is_alarm kind }
{
    match kind {
        Kind::Unset | Kind::Refused => true,
        Kind::Other => false,
    }
}

fn shown(text: &[u8]) -> &[u8]
    ensures { result.now ≡ shown text.now }
{
    if text.is_empty() { b"nothing" } else { text }
}

// Says that a line expected another text, where it did.
fn say_missed(
    alloc: Global,
    number: u32,
    kind: Kind,
    expected: &[u8],
    answer: &[u8],
    said: &mut Warnings,
) -> Result<(), AllocError>
    ensures { OnOk result (said.new
        ≡ said.old ++ missed number kind expected.now answer.now) }
{
    if meets(kind, expected, answer) {
        return Ok(());
    }
    let mut what = Vec::new(alloc);
    push_missed(&mut what, expected, answer)?;
    say_of(alloc, number, &what, said)
}

fn push_missed(what: &mut Vec<u8>, expected: &[u8], answer: &[u8]) -> Result<(), AllocError>
    ensures { OnOk result (what.new.items ≡ what.old.items
        ++ (codes "expected " ++ shown expected.now ++ codes ", got " ++ shown answer.now)) }
{
    what.extend_from_slice(b"expected ")?;
    what.extend_from_slice(shown(expected))?;
    what.extend_from_slice(b", got ")?;
    what.extend_from_slice(shown(answer))
}

// Says what is wrong with a line that asks for this.
fn say_wrong(
    alloc: Global,
    number: u32,
    world: &Option<World>,
    line: &[u8],
    command: &Option<Command<'_>>,
    said: &mut Warnings,
) -> Result<(), AllocError>
    ensures { OnOk result (said.new ≡ said.old
        ++ (bad_said number (why_bad world.now line.now (option_map command_value command.now))
        ++ missing_said number (why_missing world.now (option_map command_value command.now)))) }
{
    say_bad(alloc, number, why_bad(world, line, command), said)?;
    let missing = why_missing(alloc, world, command)?;
    say_missing(alloc, number, missing, said)
}

impl Check {
    fn new(alloc: Global) -> Check
        ensures state { checking_of result ≡ unchecked }
        ensures said { result.said ≡ [] }
    {
        Check {
            number: 1,
            asked: 0,
            kind: Kind::Other,
            rest: Vec::new(alloc),
            met: false,
            said: Warnings::new(alloc),
        }
    }

    // Whether an answer is left over that a line should have expected.
    fn is_left(&self) -> bool
        ensures { result ≡ is_left (checking_of self.now) }
    {
        !self.rest.is_empty() && (self.met || is_alarm(self.kind))
    }

    // Says so.
    fn settle(&mut self, alloc: Global) -> Result<(), AllocError>
        ensures state { OnOk result (checking_of self.new ≡ checking_of self.old) }
        ensures said { OnOk result (self.new.said
            ≡ self.old.said ++ settled (checking_of self.old)) }
    {
        if !self.is_left() {
            return Ok(());
        }
        let mut what = Vec::from_slice(alloc, b"not expected: ")?;
        what.extend_from_slice(first_line(&self.rest))?;
        say_of(alloc, self.asked, &what, &mut self.said)
    }

    // A line that expects a text takes the next line of the answer.
    fn take(&mut self, alloc: Global, expected: &[u8]) -> Result<(), AllocError>
        requires { self.old.number < 4294967295 }
        ensures state { OnOk result (checking_of self.new ≡ taking (checking_of self.old)) }
        ensures said { OnOk result (self.new.said ≡ self.old.said
            ++ missed self.old.number self.old.kind expected.now
            (first_line self.old.rest.items)) }
    {
        let answer = first_line(&self.rest);
        say_missed(
            alloc,
            self.number,
            self.kind,
            expected,
            answer,
            &mut self.said,
        )?;
        self.rest = Vec::from_slice(alloc, later_lines(&self.rest))?;
        self.met = true;
        self.number += 1;
        Ok(())
    }

    // The last answer that was printed waits to be expected.
    fn wait(&mut self, alloc: Global, printed: &Printed) -> Result<(), AllocError>
        requires { self.old.number < 4294967295 }
        ensures number { OnOk result (self.new.number ≡ self.old.number + 1) }
        ensures asked { OnOk result (self.new.asked ≡ self.old.number) }
        ensures kind { OnOk result (self.new.kind ≡ printed.now.kind) }
        ensures rest { OnOk result (self.new.rest.items ≡ printed.now.line) }
        ensures met { OnOk result (self.new.met ≡ false) }
        ensures said { OnOk result (self.new.said ≡ self.old.said) }
    {
        self.rest = Vec::from_slice(alloc, printed.line().as_bytes())?;
        self.kind = printed.kind();
        self.asked = self.number;
        self.met = false;
        self.number += 1;
        Ok(())
    }

    // Says what is wrong with the answer before a line that asks for something, and with the line.
    fn say_asked(
        &mut self,
        alloc: Global,
        world: &Option<World>,
        line: &[u8],
        command: &Option<Command<'_>>,
    ) -> Result<(), AllocError>
        requires { option_map command_value command.now ≡ command_in line.now }
        ensures state { OnOk result (checking_of self.new ≡ checking_of self.old) }
        ensures said { OnOk result (self.new.said
            ≡ self.old.said ++ asked_said world.now (checking_of self.old) line.now) }
    {
        self.settle(alloc)?;
        say_wrong(alloc, self.number, world, line, command, &mut self.said)
    }
}

// A line that asks for something, and is neither skipped nor expects.
fn ask_line(
    alloc: Global,
    world: &mut Option<World>,
    check: &mut Check,
    line: &[u8],
    printed: &mut Printed,
) -> Result<(), AllocError>
    requires number { check.old.number < 4294967295 }
    requires read { is_skipped line.now ≡ false }
    ensures printed { OnOk result (
        printed.new ≡ after_put printed.old (line_answer world.old line.now)) }
    ensures said { OnOk result (check.new.said
        ≡ check.old.said ++ asked_said world.old (checking_of check.old) line.now) }
    ensures state { OnOk result (checking_of check.new
        ≡ waiting (checking_of check.old) (line_answer world.old line.now)) }
    ensures world { OnOk result (world.new ≡ after_line world.old line.now) }
    ensures history { OnOk result (LineGoesOn world.old line.now) }
{
    let command = line_command(alloc, line)?;
    check.say_asked(alloc, world, line, &command)?;
    run_read(alloc, world, command, printed)?;
    check.wait(alloc, printed)
}

// Any line.
fn check_line(
    alloc: Global,
    world: &mut Option<World>,
    check: &mut Check,
    line: &[u8],
    printed: &mut Printed,
) -> Result<(), AllocError>
    requires { check.old.number < 4294967295 }
    ensures printed { OnOk result (
        printed.new ≡ after_put printed.old (checked_answer world.old line.now)) }
    ensures said { OnOk result (check.new.said
        ≡ check.old.said ++ line_said world.old (checking_of check.old) line.now) }
    ensures state { OnOk result (checking_of check.new
        ≡ line_checked world.old (checking_of check.old) line.now) }
    ensures world { OnOk result (world.new ≡ after_line world.old line.now) }
    ensures history { OnOk result (LineGoesOn world.old line.now) }
{
    if is_skipped(line) {
        check.number += 1;
        printed.put_none();
        return Ok(());
    }
    match expected_in(line) {
        Some(expected) => {
            printed.put_none();
            check.take(alloc, expected)
        }
        None => ask_line(alloc, world, check, line, printed),
    }
}

// Any line, printed in this form.
fn check_printing(
    alloc: Global,
    form: Form,
    world: &mut Option<World>,
    check: &mut Check,
    line: &[u8],
    printed: &mut Printed,
) -> Result<(), AllocError>
    requires number { check.old.number < 4294967295 }
    requires format { printed.old.format ≡ format_of form }
    ensures format { OnOk result (printed.new.format ≡ printed.old.format) }
    ensures printed { OnOk result (
        printed.new.bytes ≡ printed.old.bytes ++ checked_output form world.old line.now) }
    ensures said { OnOk result (check.new.said
        ≡ check.old.said ++ line_said world.old (checking_of check.old) line.now) }
    ensures state { OnOk result (checking_of check.new
        ≡ line_checked world.old (checking_of check.old) line.now) }
    ensures world { OnOk result (world.new ≡ after_line world.old line.now) }
    ensures history { OnOk result (LineGoesOn world.old line.now) }
{
    form.push_echo(line, printed)?;
    check_line(alloc, world, check, line, printed)
}

/// What a script that is checked prints in a form, and what is said of its lines that fail.
pub(crate) fn checked_output_of(
    alloc: Global,
    form: Form,
    script: &[u8],
) -> Result<Checked, AllocError>
    requires { length script.now ≤ MOST_BYTES }
    ensures printed { IfOk result (λ c. c.printed.items ≡ answered_text form script.now) }
    ensures said { IfOk result (λ c. c.said ≡ checked_lines script.now) }
    ensures schedule { OnOk result (RunsAsSchedule script.now) }
{
    let mut world = None;
    let mut check = Check::new(alloc);
    let mut printed = Printed::new(alloc, form.format());
    for line in script.split(|byte| *byte == b'\n') {
        check_printing(alloc, form, &mut world, &mut check, line, &mut printed)?;
    }
    check.settle(alloc)?;
    Ok(Checked {
        printed: printed.into_bytes(),
        said: check.said,
    })
}

/// What is said of the lines of a script that fail, as `run_script_checked` says it: nothing, where none
/// does.
pub fn checked_warnings_of(alloc: Global, script: &[u8]) -> Result<Warnings, AllocError>
    requires { length script.now ≤ MOST_BYTES }
    ensures { IfOk result (λ said. said ≡ checked_lines script.now) }
{
    let checked = checked_output_of(alloc, Form::Plain, script)?;
    Ok(checked.said)
}

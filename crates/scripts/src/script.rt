//! What a script prints.

ghost use Rattle.std.specs.Prelude.{◌≡◌, ◌++◌, Some, None, Ok, IfOk, IfSome, OnOk, option_map};
ghost use Rattle.cluster_model.specs.Events.{event_value};
ghost use Rattle.answers.specs.Printing.{after_put};
ghost use Rattle.scripts.specs.Commands as commands;
ghost use Rattle.scripts.specs.Commands.{command_value, nodes};
ghost use Rattle.streams.specs.Lines.{text_in};
ghost use Rattle.scripts.specs.Script.{command_in, after_event};
ghost use Rattle.scripts.specs.Script.{after_command, after_read, after_line};
ghost use Rattle.scripts.specs.Schedules.{Begins, GoesOn, IsNext, LineGoesOn, RunsAsSchedule};
ghost use Rattle.scripts.specs.Written.{command_answer, event_answer, form_output, form_text};
ghost use Rattle.scripts.specs.Written.{format_of, line_answer, read_answer};

use crate::command::{Command, read_command};
use crate::form::Form;
use crate::question::ask;
use crate::reply::{put_refusal, reply_answer};
use answers::{Answer, Printed};
use cluster_model::{Event, World};
use std::alloc::{AllocError, Global};
use streams::{is_skipped, text_of};

fn start_world(
    alloc: Global,
    world: &mut Option<World>,
    count: u8,
    trace_cap: u32,
    out: &mut Printed,
) -> Result<(), AllocError>
    requires { world.old ≡ None }
    ensures answer { OnOk result (
        out.new ≡ after_put out.old (command_answer None (nodes count trace_cap))) }
    ensures world { OnOk result (world.new ≡ after_command None (nodes count trace_cap)) }
    ensures history { OnOk result (Begins (nodes count trace_cap)) }
{
    match World::new(alloc, count, trace_cap) {
        Ok(made) => {
            *world = Some(made);
            out.put_none();
            Ok(())
        }
        Err(fault) => put_refusal(alloc, fault.into(), out),
    }
}

fn run_event(
    alloc: Global,
    world: &mut World,
    event: &Event<'_>,
    out: &mut Printed,
) -> Result<(), AllocError>
    ensures answer { OnOk result (out.new
        ≡ after_put out.old (Some (event_answer world.old (event_value event.now)))) }
    ensures world { OnOk result (world.new ≡ after_event world.old (event_value event.now)) }
    ensures history { OnOk result (IsNext world.old (commands.event (event_value event.now))) }
{
    let messages = world.messages();
    match world.record(alloc, event) {
        Ok(()) => match world.last_reply(event.node()) {
            Some(reply) => out.put(alloc, reply_answer(reply, messages)),
            None => unreachable!(),
        },
        Err(fault) => put_refusal(alloc, fault, out),
    }
}

fn run_command_in(
    alloc: Global,
    world: &mut World,
    command: &Command<'_>,
    out: &mut Printed,
) -> Result<(), AllocError>
    ensures answer { OnOk result (out.new
        ≡ after_put out.old (command_answer (Some world.old) (command_value command.now))) }
    ensures world { OnOk result (
        Some world.new ≡ after_command (Some world.old) (command_value command.now)) }
    ensures history { OnOk result (IsNext world.old (command_value command.now)) }
{
    match command {
        Command::Nodes { .. } => out.put(alloc, Answer::BadLine),
        Command::Event(event) => run_event(alloc, world, event, out),
        Command::Question { node, question } => ask(alloc, world, *node, *question, out),
    }
}

fn run_command(
    alloc: Global,
    world: &mut Option<World>,
    command: &Command<'_>,
    out: &mut Printed,
) -> Result<(), AllocError>
    ensures answer { OnOk result (out.new
        ≡ after_put out.old (command_answer world.old (command_value command.now))) }
    ensures world { OnOk result (
        world.new ≡ after_command world.old (command_value command.now)) }
    ensures history { OnOk result (GoesOn world.old (command_value command.now)) }
{
    match world {
        Some(world) => run_command_in(alloc, world, command, out),
        None => match command {
            Command::Nodes { count, trace_cap } => {
                start_world(alloc, world, *count, *trace_cap, out)
            }
            Command::Event(_) | Command::Question { .. } => out.put(alloc, Answer::BadLine),
        },
    }
}

/// What a line asks for, where it is text and has one of the forms.
pub(crate) fn line_command(alloc: Global, line: &[u8]) -> Result<Option<Command<'_>>, AllocError>
    ensures command { IfOk result (λ command.
        option_map command_value command ≡ command_in line.now) }
    // A line that is no text takes no memory.
    ensures no_text { text_in line.now ≡ None → result ≡ Ok None }
{
    let Some(text) = text_of(line) else {
        return Ok(None);
    };
    read_command(alloc, text)
}

/// Answers a line that isn't skipped, by what it asks for.
pub(crate) fn run_read(
    alloc: Global,
    world: &mut Option<World>,
    command: Option<Command<'_>>,
    out: &mut Printed,
) -> Result<(), AllocError>
    ensures answer { OnOk result (out.new
        ≡ after_put out.old (read_answer world.old (option_map command_value command.entry))) }
    ensures world { OnOk result (
        world.new ≡ after_read world.old (option_map command_value command.entry)) }
    ensures history { OnOk result (
        IfSome (option_map command_value command.entry) (GoesOn world.old)) }
{
    match &command {
        Some(command) => run_command(alloc, world, command, out),
        None => out.put(alloc, Answer::BadLine),
    }
}

fn run_line(
    alloc: Global,
    world: &mut Option<World>,
    line: &[u8],
    out: &mut Printed,
) -> Result<(), AllocError>
    ensures answer { OnOk result (out.new ≡ after_put out.old (line_answer world.old line.now)) }
    ensures world { OnOk result (world.new ≡ after_line world.old line.now) }
    ensures history { OnOk result (LineGoesOn world.old line.now) }
{
    if is_skipped(line) {
        out.put_none();
        return Ok(());
    }
    let command = line_command(alloc, line)?;
    run_read(alloc, world, command, out)
}

// Prints what a line is answered, in this form.
fn print_line(
    alloc: Global,
    form: Form,
    world: &mut Option<World>,
    line: &[u8],
    out: &mut Printed,
) -> Result<(), AllocError>
    requires { out.old.format ≡ format_of form }
    ensures format { OnOk result (out.new.format ≡ out.old.format) }
    ensures bytes { OnOk result (
        out.new.bytes ≡ out.old.bytes ++ form_output form world.old line.now) }
    ensures world { OnOk result (world.new ≡ after_line world.old line.now) }
    ensures history { OnOk result (LineGoesOn world.old line.now) }
{
    form.push_echo(line, out)?;
    run_line(alloc, world, line, out)
}

/// What a script prints in a form. The bytes of a line that is echoed may be no text.
pub fn output_of(alloc: Global, form: Form, script: &[u8]) -> Result<Vec<u8>, AllocError>
    ensures bytes { IfOk result (λ bytes. bytes.items ≡ form_text form script.now) }
    ensures schedule { OnOk result (RunsAsSchedule script.now) }
{
    let mut world = None;
    let mut out = Printed::new(alloc, form.format());
    for line in script.split(|byte| *byte == b'\n') {
        print_line(alloc, form, &mut world, line, &mut out)?;
    }
    Ok(out.into_bytes())
}

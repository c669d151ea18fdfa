//! Answers as lines.

ghost use Rattle.std.specs.Prelude.{◌≡◌, ◌++◌, codes, decimal};
ghost use Rattle.std.specs.Fmt.{signed_decimal};
ghost use Rattle.actions.specs.Canonical.{task_text};
ghost use Rattle.actions.specs.Value.{task_value};
ghost use Rattle.node_calls.specs.Told.{Act};
ghost use Rattle.node_core.specs.Traces.{state_known};
ghost use Rattle.report_text.specs.Lines.{report_lines_text};
ghost use Rattle.stamp_register.specs.Keys.{stamp_text};
ghost use Rattle.answers.specs.Answers.{answer_value};
ghost use Rattle.answers.specs.Lines.{Prints, PrintsLine, line_of, pass_text};

use crate::answer::Answer;
use actions::Task;
use itoa::Buffer;
use node_core::NodeCore;
use report_text::report_lines;
use stamp_register::Stamp;
use std::alloc::{AllocError, Global};
use std::fmt::Write;

// A formatter prints the same and takes longer, and passes are most of a script.
fn print_number(out: &mut String, number: u64) -> Result<(), AllocError>
    ensures { Prints result out.old out.new (decimal number) }
{
    out.push_str(Buffer::new().format(number))
}

fn print_stamp(out: &mut String, stamp: Stamp) -> Result<(), AllocError>
    ensures { Prints result out.old out.new (stamp_text stamp) }
{
    print_number(out, stamp.clock)?;
    out.push_str(".")?;
    print_number(out, u64::from(stamp.node))
}

// A line of a word alone.
fn print_alone(out: &mut String, word: &str) -> Result<(), AllocError>
    ensures { PrintsLine result out.old out.new word.now }
{
    out.push_str(word)?;
    out.push_str("\n")
}

// A line that begins so and ends with a stamp.
fn print_stamped(out: &mut String, front: &str, stamp: Stamp) -> Result<(), AllocError>
    ensures { PrintsLine result out.old out.new (front.now ++ stamp_text stamp) }
{
    writeln!(out, "{front}{stamp}")
}

// A line that begins so and ends with a number.
fn print_counted(out: &mut String, front: &str, count: u128) -> Result<(), AllocError>
    ensures { PrintsLine result out.old out.new (front.now ++ decimal count) }
{
    writeln!(out, "{front}{count}")
}

// The number of a term, between spaces.
fn print_term(out: &mut String, term: u8) -> Result<(), AllocError>
    ensures { Prints result out.old out.new (codes " " ++ decimal term ++ codes " ") }
{
    out.push_str(" ")?;
    print_number(out, u64::from(term))?;
    out.push_str(" ")
}

fn print_task(out: &mut String, task: &Task) -> Result<(), AllocError>
    ensures { PrintsLine result out.old out.new (task_text (task_value task.now)) }
{
    write!(out, "{task}")?;
    out.push_str("\n")
}

// A pass pushes the words between as they are: a formatter takes longer.
fn print_act(out: &mut String, stamp: Stamp, term: u8, task: &Task) -> Result<(), AllocError>
    ensures { PrintsLine result out.old out.new (pass_text (Act stamp term (task_value task.now))) }
{
    out.push_str("act ")?;
    print_stamp(out, stamp)?;
    print_term(out, term)?;
    print_task(out, task)
}

fn print_report(alloc: Global, node: &NodeCore, out: &mut String) -> Result<(), AllocError>
    ensures { Prints result out.old out.new
        (report_lines_text (state_known node.now) node.now.config.nodes) }
{
    let lines = report_lines(alloc, node.state(), node.config().nodes)?;
    out.push_str(&lines)
}

/// Adds the line of an answer, or the lines of a report.
pub(crate) fn push_line(
    alloc: Global,
    answer: Answer<'_>,
    out: &mut String,
) -> Result<(), AllocError>
    ensures { Prints result out.old out.new (line_of (answer_value answer.entry)) }
{
    match answer {
        Answer::Set(stamp) => print_stamped(out, "set ", stamp),
        Answer::Removed(stamp) => print_stamped(out, "removed ", stamp),
        Answer::Loaded(entries) => print_counted(out, "loaded ", u128::from(entries)),
        Answer::Unset => print_alone(out, "unset"),
        Answer::NoTerm(stamp) => print_stamped(out, "none ", stamp),
        Answer::Act { stamp, term, task } => print_act(out, stamp, term, task),
        Answer::Shifted(total) => print_counted(out, "shifted ", u128::from(total)),
        Answer::Granted(total) => print_counted(out, "granted ", u128::from(total)),
        Answer::Message(number) => print_counted(out, "message ", number as u128),
        Answer::Delivered(true) => print_alone(out, "changed"),
        Answer::Delivered(false) => print_alone(out, "same"),
        Answer::Refused(fault) => writeln!(out, "refused {fault}"),
        Answer::BadLine => print_alone(out, "bad line"),
        Answer::Listed(text) => print_alone(out, text),
        Answer::Report(node) => print_report(alloc, node, out),
        Answer::Rights(left) => writeln!(out, "{left}"),
        Answer::Spent(count) => writeln!(out, "{count}"),
        Answer::Hits(count) => writeln!(out, "{count}"),
        Answer::Workers(count) => print_counted(out, "workers ", count as u128),
        Answer::Calls(count) => print_counted(out, "calls ", count),
        Answer::Yes => print_alone(out, "audit yes"),
        Answer::No(fault) => writeln!(out, "audit no {fault}"),
        Answer::Budget(total) => writeln!(out, "{total}"),
        Answer::Cut(node) => print_counted(out, "cut node=", u128::from(node)),
    }
}

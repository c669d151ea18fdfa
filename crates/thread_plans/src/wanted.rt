//! What was wanted of a line that is bad, in words.

ghost use Rattle.std.specs.Prelude.{◌≡◌, option_map};
ghost use Rattle.thread_plans.specs.Lines.{line_value};
ghost use Rattle.thread_plans.specs.Plans.{plan_value, stage_value};
ghost use Rattle.thread_plans.specs.Wanted.{call_form, checked_form, ends_with_return, form_of};
ghost use Rattle.thread_plans.specs.Wanted.{later_words, line_form, start_form, wanted};
ghost use Rattle.thread_plans.specs.Wanted.{wanted_at_end, wanted_first, wanted_in};
ghost use Rattle.thread_plans.specs.Wanted.{wanted_of_started, wanted_of_worker};
ghost use Rattle.thread_plans.specs.Wanted.{wanted_of_working, wanted_there};

use crate::line::{Line, read_line};
use crate::plan::ThreadPlan;
use crate::stage::Stage;
use streams::{cut, first_word, text_of};

const NODES_COME_FIRST: &str = "nodes <n> <cap> comes first";

// What stands behind the first space, or nothing.
fn later_words(text: &str) -> &str
    ensures { result.now ≡ later_words text.now }
{
    match cut(text) {
        Some((_, rest)) => rest,
        None => "",
    }
}

// What of a line that only a script that is checked has, or that no line starts with this word.
fn checked_form(word: &str) -> &'static str
    ensures { result.now ≡ checked_form word.now }
{
    match word {
        "await" => "await <name>[ <stamp>] needs --check",
        "expect" => "expect <text> needs --check",
        _ => "no line starts with this word",
    }
}

// How a call of a worker is written, or what else.
fn call_form(word: &str) -> &'static str
    ensures { result.now ≡ call_form word.now }
{
    match word {
        "set" => "set <name> <actions>",
        "remove" => "remove <name>",
        "load" => "load <entries>",
        "shift" => "shift <name> <term> <to> <amount>",
        "grant" => "grant <name> <term> <amount>",
        "pass" => "pass <name> <times>",
        _ => checked_form(word),
    }
}

// How a line is written whose second word this is, behind `start`.
fn start_form(word: &str) -> &'static str
    ensures { result.now ≡ start_form word.now }
{
    match word {
        "set" => "start set <node> <name> <actions>",
        "remove" => "start remove <node> <name>",
        "load" => "start load <node> <entries>",
        "shift" => "start shift <node> <name> <term> <to> <amount>",
        "grant" => "start grant <node> <name> <term> <amount>",
        "spread" => "start spread <node> <name>",
        _ => "start must be followed by set, remove, load, shift, grant or spread",
    }
}

// The same of any line, whose second word counts only behind `start`.
fn line_form(word: &str, second: &str) -> &'static str
    ensures { result.now ≡ line_form word.now second.now }
{
    match word {
        "nodes" => "nodes <n> <cap>",
        "seed" => "seed <64 hexadecimal digits>",
        "start" => start_form(second),
        "gossip" => "gossip <rounds>",
        "worker" => "worker <node>",
        _ => call_form(word),
    }
}

fn form_of(text: &str) -> &'static str
    ensures { result.now ≡ form_of text.now }
{
    line_form(first_word(text), first_word(later_words(text)))
}

fn ends_with_return(line: &[u8]) -> bool
    ensures { result ≡ ends_with_return line.now }
{
    !line.is_empty() && line[line.len() - 1] == b'\r'
}

/// What was wanted of a line that has none of the forms.
pub(crate) fn wanted_in(line: &[u8]) -> &'static str
    ensures { result.now ≡ wanted_in line.now }
{
    if ends_with_return(line) {
        return "it ends with a carriage return";
    }
    match text_of(line) {
        Some(text) => form_of(text),
        None => "it isn't UTF-8",
    }
}

// Of a line before the nodes are known.
fn wanted_first(line: &Line<'_>) -> &'static str
    ensures { result.now ≡ wanted_first (line_value line.now) }
{
    match line {
        Line::Nodes { .. } => "there are 1 to 32 nodes",
        Line::Seed(_)
        | Line::Start { .. }
        | Line::Gossip { .. }
        | Line::Worker { .. }
        | Line::Calls { .. } => NODES_COME_FIRST,
    }
}

// Of a worker, behind the seed.
fn wanted_of_worker(nodes: u8, node: u8) -> &'static str
    ensures { result.now ≡ wanted_of_worker nodes node }
{
    if node < nodes {
        "a node has 250 workers at most"
    } else {
        "there is no node of this number"
    }
}

// Before the first worker.
fn wanted_of_started(plan: &ThreadPlan<'_>, line: &Line<'_>) -> &'static str
    ensures { result.now ≡ wanted_of_started (plan_value plan.now) (line_value line.now) }
{
    match line {
        Line::Nodes { .. } => "there is already a nodes line",
        Line::Seed(_) => "there is already a seed line",
        Line::Start { node, .. } if *node < plan.size.nodes => "start lines come before gossip",
        Line::Start { .. } => "there is no node of this number",
        Line::Gossip { .. } => "there is one gossip line at most",
        Line::Worker { node } => wanted_of_worker(plan.size.nodes, *node),
        Line::Calls { .. } => "worker <node> comes before its calls",
    }
}

// Behind one.
fn wanted_of_working(plan: &ThreadPlan<'_>, line: &Line<'_>) -> &'static str
    ensures { result.now ≡ wanted_of_working (plan_value plan.now) (line_value line.now) }
{
    match line {
        Line::Nodes { .. } => "there is already a nodes line",
        Line::Seed(_) => "there is already a seed line",
        Line::Start { .. } => "start lines come before the workers",
        Line::Gossip { .. } => "gossip comes before the workers",
        Line::Worker { node } => wanted_of_worker(plan.size.nodes, *node),
        Line::Calls { .. } => "a worker makes 4294967295 calls at most",
    }
}

// Of a line that has one of the forms, and is out of its place.
fn wanted_there(stage: &Stage<'_>, line: &Line<'_>) -> &'static str
    ensures { result.now ≡ wanted_there (stage_value stage.now) (line_value line.now) }
{
    match stage {
        Stage::Empty => wanted_first(line),
        Stage::Sized(_) => "seed <64 hexadecimal digits> comes next",
        Stage::Started(plan) => wanted_of_started(plan, line),
        Stage::Working(working) => wanted_of_working(&working.plan, line),
    }
}

/// What was wanted of a line that is bad behind those that were read.
pub(crate) fn wanted(stage: &Stage<'_>, line: &[u8]) -> &'static str
    ensures { result.now ≡ wanted (stage_value stage.now) line.now }
{
    match read_line(line) {
        Some(read) => wanted_there(stage, &read),
        None => wanted_in(line),
    }
}

/// What was wanted of the end of a script that stops early, if it does.
pub(crate) fn wanted_at_end(stage: &Stage<'_>) -> Option<&'static str>
    ensures { option_map (λ why. why.now) result ≡ wanted_at_end (stage_value stage.now) }
{
    match stage {
        Stage::Empty => Some(NODES_COME_FIRST),
        Stage::Sized(_) => Some("seed <64 hexadecimal digits> comes next"),
        Stage::Started(_) | Stage::Working(_) => None,
    }
}

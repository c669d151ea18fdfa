//! What is wrong with a line, in words.

ghost use Rattle.std.specs.Prelude.{◌≡◌, ◌++◌, is_some, option_map, slice_get, string_bytes};
ghost use Rattle.std.specs.Prelude.{IfOk, OnOk};
ghost use Rattle.node_core.specs.Traces.{state_known};
ghost use Rattle.operations.specs.Counts.{given_key};
ghost use Rattle.operations.specs.Operations.{count_of};
ghost use Rattle.stamp_register.specs.Keys.{key_value};
ghost use Rattle.scripts.specs.Commands.{command_value, question_value};
ghost use Rattle.scripts.specs.Faults.{bad_said, ends_with_return, first_of_both, form_of};
ghost use Rattle.scripts.specs.Faults.{key_named, missing_at, missing_said, no_node, no_point};
ghost use Rattle.scripts.specs.Faults.{no_term, question_form, said_of, wanted_in, why_bad};
ghost use Rattle.scripts.specs.Faults.{why_missing};

use crate::command::{Command, Question};
use crate::question::name_in;
use cluster_model::World;
use node_core::NodeCore;
use operations::count_of;
use replica_state::Replica;
use stamp_register::Key;
use std::alloc::{AllocError, Global};
use streams::{first_word, text_of};
use warnings::Warnings;

/// Why something is wrong, in words; none where nothing is.
type Why = Option<&'static str>;

// How a line of this question is written, or what only a script that is checked has, or that no line
// begins so.
fn question_form(word: &str) -> &'static str
    ensures { result.now ≡ question_form word.now }
{
    match word {
        "list" => "list <node>",
        "report" => "report <node>",
        "rights" => "rights <node> <name> <term> <of>",
        "spent" => "spent <node> <name> <term>",
        "hits" => "hits <node> <name>",
        "expect" => "expect <text> needs --check",
        _ => "no line starts with this word",
    }
}

// The same of any line.
fn form_of(word: &str) -> &'static str
    ensures { result.now ≡ form_of word.now }
{
    match word {
        "nodes" => "nodes <n> <cap>",
        "set" => "set <node> <name> <actions>",
        "remove" => "remove <node> <name>",
        "load" => "load <node> <entries>",
        "pass" => "pass <node> <name>[ <draw>]...",
        "shift" => "shift <node> <name> <term> <to> <amount>",
        "grant" => "grant <node> <name> <term> <amount>",
        "emit" => "emit <node> <to>",
        "deliver" => "deliver <node> <message>",
        _ => question_form(word),
    }
}

fn ends_with_return(line: &[u8]) -> bool
    ensures { result ≡ ends_with_return line.now }
{
    !line.is_empty() && line[line.len() - 1] == b'\r'
}

// What was wanted of a line that has none of the forms.
fn wanted_in(line: &[u8]) -> &'static str
    ensures { result.now ≡ wanted_in line.now }
{
    if ends_with_return(line) {
        return "it ends with a carriage return";
    }
    match text_of(line) {
        Some(text) => form_of(first_word(text)),
        None => "it isn't UTF-8",
    }
}

/// Why a line that asks for this prints `bad line`, if it does.
pub(crate) fn why_bad(world: &Option<World>, line: &[u8], command: &Option<Command<'_>>) -> Why
    ensures { option_map (λ why. why.now) result
        ≡ why_bad world.now line.now (option_map command_value command.now) }
{
    match (world, command) {
        (_, None) => Some(wanted_in(line)),
        (None, Some(Command::Nodes { .. })) => None,
        (None, Some(_)) => Some("nodes <n> <cap> comes first"),
        (Some(_), Some(Command::Nodes { .. })) => Some("there is already a nodes line"),
        (Some(_), Some(_)) => None,
    }
}

// What a node has of a point.
fn key_named<'a>(
    alloc: Global,
    node: &'a NodeCore,
    name: &str,
) -> Result<Option<&'a Key>, AllocError>
    ensures { IfOk result (λ key. given_key key ≡ key_named (state_known node.now) name.now) }
{
    match name_in(alloc, name)? {
        Some(name) => Ok(node.state().key(&name)),
        None => Ok(None),
    }
}

fn no_point(key: Option<&Key>) -> Why
    ensures { option_map (λ why. why.now) result ≡ no_point (given_key key.entry) }
{
    match key {
        Some(_) => None,
        None => Some("the node knows no point of this name"),
    }
}

fn no_term(key: Option<&Key>, term: u8) -> Why
    ensures { option_map (λ why. why.now) result ≡ no_term term (given_key key.entry) }
{
    let Some(key) = key else {
        return no_point(key);
    };
    if count_of(key, term).is_some() {
        None
    } else {
        Some("the point has no counted term of this number")
    }
}

fn no_node(world: &World, node: u8) -> Why
    ensures { option_map (λ why. why.now) result ≡ no_node node (slice_get world.now.nodes node) }
{
    match world.node(node) {
        Some(_) => None,
        None => Some("there is no node of this number"),
    }
}

// What of a point isn't there, by the point's name.
fn no_point_named(alloc: Global, node: &NodeCore, name: &str) -> Result<Why, AllocError>
    ensures { IfOk result (λ why. option_map (λ why. why.now) why
        ≡ no_point (key_named (state_known node.now) name.now)) }
{
    Ok(no_point(key_named(alloc, node, name)?))
}

fn no_term_named(alloc: Global, node: &NodeCore, name: &str, term: u8) -> Result<Why, AllocError>
    ensures { IfOk result (λ why. option_map (λ why. why.now) why
        ≡ no_term term (key_named (state_known node.now) name.now)) }
{
    Ok(no_term(key_named(alloc, node, name)?, term))
}

// The same, or that another node isn't there.
fn no_rights(
    alloc: Global,
    world: &World,
    node: &NodeCore,
    name: &str,
    term: u8,
    of: u8,
) -> Result<Why, AllocError>
    ensures { IfOk result (λ why. option_map (λ why. why.now) why
        ≡ first_of_both (no_term term (key_named (state_known node.now) name.now))
        (no_node of (slice_get world.now.nodes of))) }
{
    let why = no_term_named(alloc, node, name, term)?;
    Ok(why.or(no_node(world, of)))
}

// Why a question to a node is about what isn't there, if it is.
fn missing_at(
    alloc: Global,
    world: &World,
    node: &NodeCore,
    question: Question<'_>,
) -> Result<Why, AllocError>
    ensures { IfOk result (λ why. option_map (λ why. why.now) why
        ≡ missing_at world.now node.now (question_value question.entry)) }
{
    match question {
        Question::List | Question::Report => Ok(None),
        Question::Rights { name, term, of } => no_rights(alloc, world, node, name, term, of),
        Question::Spent { name, term } => no_term_named(alloc, node, name, term),
        Question::Hits { name } => no_point_named(alloc, node, name),
    }
}

/// Why a line that asks for this is about what isn't there, if it is a question and the node that it
/// asks is there.
pub(crate) fn why_missing(
    alloc: Global,
    world: &Option<World>,
    command: &Option<Command<'_>>,
) -> Result<Why, AllocError>
    ensures { IfOk result (λ why. option_map (λ why. why.now) why
        ≡ why_missing world.now (option_map command_value command.now)) }
{
    let (Some(world), Some(Command::Question { node, question })) = (world, command) else {
        return Ok(None);
    };
    match world.node(*node) {
        Some(core) => missing_at(alloc, world, core, *question),
        None => Ok(None),
    }
}

/// Says something of a line, by its number.
pub fn say_of(
    alloc: Global,
    number: u32,
    what: &[u8],
    said: &mut Warnings,
) -> Result<(), AllocError>
    ensures { OnOk result (said.new ≡ said.old ++ said_of number what.now) }
{
    let mut line = format!(in alloc; "line {number}: ")?.into_bytes();
    line.extend_from_slice(what)?;
    said.push(line)
}

/// Says why a line is bad, if it is.
pub(crate) fn say_bad(
    alloc: Global,
    number: u32,
    why: Why,
    said: &mut Warnings,
) -> Result<(), AllocError>
    ensures { OnOk result (said.new
        ≡ said.old ++ bad_said number (option_map (λ why. why.now) why.entry)) }
{
    let Some(why) = why else {
        return Ok(());
    };
    let what = format!(in alloc; "bad line: {why}")?;
    say_of(alloc, number, what.as_bytes(), said)
}

/// Says what of a line isn't there, if something isn't.
pub(crate) fn say_missing(
    alloc: Global,
    number: u32,
    why: Why,
    said: &mut Warnings,
) -> Result<(), AllocError>
    ensures { OnOk result (said.new
        ≡ said.old ++ missing_said number (option_map (λ why. why.now) why.entry)) }
{
    match why {
        Some(why) => say_of(alloc, number, why.as_bytes(), said),
        None => Ok(()),
    }
}

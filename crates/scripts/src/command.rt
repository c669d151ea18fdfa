//! What a line asks for.

ghost use Rattle.std.specs.Prelude.{◌≡◌, false, option_map, IfOk};
ghost use Rattle.std.specs.Vec.{vec_items};
ghost use Rattle.streams.specs.Fields.{has_space, field_of, fields_of};
ghost use Rattle.scripts.specs.Commands.{command_value, words_of, nodes_in, call_in, pass_with};
ghost use Rattle.scripts.specs.Commands.{pass_in, emit_in, deliver_in, list_in, report_in};
ghost use Rattle.scripts.specs.Commands.{rights_in, spent_in, hits_in, plain_command_after};
ghost use Rattle.scripts.specs.Commands.{command_after, command_of};

use call_lines::call_after;
use cluster_model::Event;
use decimals::{byte, word};
use node_calls::AskRef;
use std::alloc::{AllocError, Global};
use streams::{cut, cut_byte, cut_field, field};

/// A question about what a node shows.
#[derive(Clone, Copy)]
pub enum Question<'a> {
    /// The points that are set.
    List,
    /// What is known of each point.
    Report,
    /// The rights to a term that a node has left.
    Rights { name: &'a str, term: u8, of: u8 },
    /// How often a term ran.
    Spent { name: &'a str, term: u8 },
    /// How often a point was passed while it was set.
    Hits { name: &'a str },
}

/// What a line asks for.
#[derive(Drop)]
pub enum Command<'a> {
    /// A cluster of so many nodes, each of which accepts so many calls.
    Nodes { count: u8, trace_cap: u32 },
    /// An event of the cluster.
    Event(Event<'a>),
    /// A question to a node.
    Question { node: u8, question: Question<'a> },
}

fn nodes_command(rest: &str) -> Option<Command<'_>>
    ensures { option_map command_value result ≡ nodes_in rest.now }
{
    let (count, trace_cap) = cut_byte(rest)?;
    let trace_cap = word(trace_cap)?;
    Some(Command::Nodes { count, trace_cap })
}

// `<word> <node> <rest>`: a call of a node that takes no random draws, and makes and takes no message.
fn call_command<'a>(alloc: Global, word: &str, rest: &'a str) -> Option<Command<'a>>
    ensures { option_map command_value result ≡ call_in word.now rest.now }
{
    let (node, rest) = cut_byte(rest)?;
    let ask = call_after(word, rest)?;
    Some(Command::Event(Event::call(alloc, node, ask)))
}

fn words_in(alloc: Global, text: &str) -> Result<Option<Vec<u32>>, AllocError>
    ensures { IfOk result (λ words. option_map vec_items words ≡ words_of (fields_of text.now)) }
{
    let mut words = Vec::new(alloc);
    for field in text.split(' ') {
        let Some(number) = word(field) else {
            return Ok(None);
        };
        words.push(number)?;
    }
    Ok(Some(words))
}

// A pass of this name, which has no space, where the random draws could be read.
fn pass_of(node: u8, name: &str, words: Option<Vec<u32>>) -> Option<Command<'_>>
    requires { has_space name.now ≡ false }
    ensures { option_map command_value result ≡
        pass_with node (field_of name.now) (option_map vec_items words) }
{
    let words = words?;
    if name.is_empty() {
        return None;
    }
    Some(Command::Event(Event::Call {
        node,
        ask: AskRef::Pass { name },
        words,
    }))
}

fn pass_command(alloc: Global, rest: &str) -> Result<Option<Command<'_>>, AllocError>
    ensures { IfOk result (λ command. option_map command_value command ≡ pass_in rest.now) }
{
    let Some((node, pass)) = cut_byte(rest) else {
        return Ok(None);
    };
    match cut(pass) {
        None => Ok(pass_of(node, pass, Some(Vec::new(alloc)))),
        Some((name, words)) => Ok(pass_of(node, name, words_in(alloc, words)?)),
    }
}

fn emit_command(alloc: Global, rest: &str) -> Option<Command<'_>>
    ensures { option_map command_value result ≡ emit_in rest.now }
{
    let (node, to) = cut_byte(rest)?;
    let to = byte(to)?;
    Some(Command::Event(Event::call(alloc, node, AskRef::Emit { to })))
}

fn deliver_command(rest: &str) -> Option<Command<'_>>
    ensures { option_map command_value result ≡ deliver_in rest.now }
{
    let (node, message) = cut_byte(rest)?;
    let message = word(message)?;
    Some(Command::Event(Event::Deliver { node, message }))
}

fn list_command(rest: &str) -> Option<Command<'_>>
    ensures { option_map command_value result ≡ list_in rest.now }
{
    let node = byte(rest)?;
    let question = Question::List;
    Some(Command::Question { node, question })
}

fn report_command(rest: &str) -> Option<Command<'_>>
    ensures { option_map command_value result ≡ report_in rest.now }
{
    let node = byte(rest)?;
    let question = Question::Report;
    Some(Command::Question { node, question })
}

fn rights_command(rest: &str) -> Option<Command<'_>>
    ensures { option_map command_value result ≡ rights_in rest.now }
{
    let (node, rest) = cut_byte(rest)?;
    let (name, rest) = cut_field(rest)?;
    let (term, of) = cut_byte(rest)?;
    let of = byte(of)?;
    let question = Question::Rights { name, term, of };
    Some(Command::Question { node, question })
}

fn spent_command(rest: &str) -> Option<Command<'_>>
    ensures { option_map command_value result ≡ spent_in rest.now }
{
    let (node, rest) = cut_byte(rest)?;
    let (name, term) = cut_field(rest)?;
    let term = byte(term)?;
    let question = Question::Spent { name, term };
    Some(Command::Question { node, question })
}

fn hits_command(rest: &str) -> Option<Command<'_>>
    ensures { option_map command_value result ≡ hits_in rest.now }
{
    let (node, name) = cut_byte(rest)?;
    let name = field(name)?;
    let question = Question::Hits { name };
    Some(Command::Question { node, question })
}

// By the line's first word, what follows it; but for a pass, which alone takes memory.
fn plain_command_after<'a>(alloc: Global, word: &str, rest: &'a str) -> Option<Command<'a>>
    ensures { option_map command_value result ≡ plain_command_after word.now rest.now }
{
    match word {
        "emit" => emit_command(alloc, rest),
        "deliver" => deliver_command(rest),
        "list" => list_command(rest),
        "report" => report_command(rest),
        "rights" => rights_command(rest),
        "spent" => spent_command(rest),
        "hits" => hits_command(rest),
        "nodes" => nodes_command(rest),
        _ => call_command(alloc, word, rest),
    }
}

// The same of any.
fn command_after<'a>(
    alloc: Global,
    word: &str,
    rest: &'a str,
) -> Result<Option<Command<'a>>, AllocError>
    ensures { IfOk result (λ command.
        option_map command_value command ≡ command_after word.now rest.now) }
{
    // Passes come first, since scripts have most of them.
    if word == "pass" {
        return pass_command(alloc, rest);
    }
    Ok(plain_command_after(alloc, word, rest))
}

/// What a line asks for, where it has one of the forms.
pub fn read_command(alloc: Global, line: &str) -> Result<Option<Command<'_>>, AllocError>
    ensures { IfOk result (λ command. option_map command_value command ≡ command_of line.now) }
{
    match cut(line) {
        Some((word, rest)) => command_after(alloc, word, rest),
        None => Ok(None),
    }
}

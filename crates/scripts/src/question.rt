//! What a node is asked of what it knows, and what it prints.

ghost use Rattle.std.specs.Prelude.{◌≡◌, false, IsOk, IfOk, OnOk, Some, None, if◌then◌else◌};
ghost use Rattle.actions.specs.Names.{is_name};
ghost use Rattle.node_core.specs.Traces.{state_known};
ghost use Rattle.scripts.specs.Commands.{question_value, list, report, rights, spent, hits};
ghost use Rattle.answers.specs.Printing.{after_put};
ghost use Rattle.scripts.specs.Questions.{asked_answer, question_answer};
ghost use Rattle.scripts.specs.Questions.{hits_named, rights_named, spent_named};

use crate::command::Question;
use crate::reply::put_refusal;
use actions::{Name, NameFault};
use answers::{Answer, Printed};
use cluster_model::{World, WorldFault};
use node_core::NodeCore;
use std::alloc::{AllocError, Global};

fn put_list(alloc: Global, node: &NodeCore, out: &mut Printed) -> Result<(), AllocError>
    ensures { OnOk result (out.new ≡ after_put out.old (Some (question_answer node.now list))) }
{
    let list = node.list(alloc)?;
    out.put(alloc, Answer::Listed(&list))
}

fn put_report(alloc: Global, node: &NodeCore, out: &mut Printed) -> Result<(), AllocError>
    ensures { OnOk result (out.new ≡ after_put out.old (Some (question_answer node.now report))) }
{
    out.put(alloc, Answer::Report(node))
}

/// The name that a text is, if it is one.
pub(crate) fn name_in(alloc: Global, text: &str) -> Result<Option<Name>, AllocError>
    ensures name { IfOk result (λ name. name ≡ (if is_name text.now then Some text.now else None)) }
    // What is no name takes no memory.
    ensures no_name { is_name text.now ≡ false → IsOk result }
{
    match Name::parse(alloc, text) {
        Ok(name) => Ok(Some(name)),
        Err(NameFault::BadName) => Ok(None),
        Err(NameFault::OutOfMemory) => Err(AllocError),
    }
}

fn rights_named(
    alloc: Global,
    node: &NodeCore,
    name: &str,
    term: u8,
    of: u8,
) -> Result<i128, AllocError>
    ensures { IfOk result (λ left. left ≡ rights_named (state_known node.now) name.now term of) }
{
    match name_in(alloc, name)? {
        Some(name) => Ok(node.rights(&name, term, of)),
        None => Ok(0),
    }
}

fn put_rights(
    alloc: Global,
    node: &NodeCore,
    name: &str,
    term: u8,
    of: u8,
    out: &mut Printed,
) -> Result<(), AllocError>
    ensures { OnOk result (out.new
        ≡ after_put out.old (Some (question_answer node.now (rights name.now term of)))) }
{
    let rights = rights_named(alloc, node, name, term, of)?;
    out.put(alloc, Answer::Rights(rights))
}

fn spent_named(alloc: Global, node: &NodeCore, name: &str, term: u8) -> Result<u128, AllocError>
    ensures { IfOk result (λ count. count ≡ spent_named (state_known node.now) name.now term) }
{
    match name_in(alloc, name)? {
        Some(name) => Ok(node.spent(&name, term)),
        None => Ok(0),
    }
}

fn put_spent(
    alloc: Global,
    node: &NodeCore,
    name: &str,
    term: u8,
    out: &mut Printed,
) -> Result<(), AllocError>
    ensures { OnOk result (out.new
        ≡ after_put out.old (Some (question_answer node.now (spent name.now term)))) }
{
    let spent = spent_named(alloc, node, name, term)?;
    out.put(alloc, Answer::Spent(spent))
}

fn hits_named(alloc: Global, node: &NodeCore, name: &str) -> Result<u128, AllocError>
    ensures { IfOk result (λ count. count ≡ hits_named (state_known node.now) name.now) }
{
    match name_in(alloc, name)? {
        Some(name) => Ok(node.hits(&name)),
        None => Ok(0),
    }
}

fn put_hits(alloc: Global, node: &NodeCore, name: &str, out: &mut Printed) -> Result<(), AllocError>
    ensures { OnOk result (out.new
        ≡ after_put out.old (Some (question_answer node.now (hits name.now)))) }
{
    let hits = hits_named(alloc, node, name)?;
    out.put(alloc, Answer::Hits(hits))
}

fn ask_node(
    alloc: Global,
    node: &NodeCore,
    question: Question<'_>,
    out: &mut Printed,
) -> Result<(), AllocError>
    ensures { OnOk result (out.new ≡ after_put out.old
        (Some (question_answer node.now (question_value question.entry)))) }
{
    match question {
        Question::List => put_list(alloc, node, out),
        Question::Report => put_report(alloc, node, out),
        Question::Rights { name, term, of } => put_rights(alloc, node, name, term, of, out),
        Question::Spent { name, term } => put_spent(alloc, node, name, term, out),
        Question::Hits { name } => put_hits(alloc, node, name, out),
    }
}

/// Asks a node, by its number, and prints what it answers.
pub(crate) fn ask(
    alloc: Global,
    world: &World,
    node: u8,
    question: Question<'_>,
    out: &mut Printed,
) -> Result<(), AllocError>
    ensures { OnOk result (out.new ≡ after_put out.old
        (Some (asked_answer world.now node (question_value question.entry)))) }
{
    match world.node(node) {
        Some(core) => ask_node(alloc, core, question, out),
        None => put_refusal(alloc, WorldFault::NoNode, out),
    }
}

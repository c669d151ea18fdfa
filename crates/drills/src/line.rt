//! The lines of a recorded drill, and of a part, read.

ghost use Rattle.std.specs.Prelude.{◌≡◌, option_map, IfOk};
ghost use Rattle.std.specs.Vec.{vec_items};
ghost use Rattle.serde_json.specs.View.{view};
ghost use Rattle.node_calls.specs.Told.{ask_told, reply_told, told};
ghost use Rattle.drills.specs.Lines.{head_told, line_told, receipt_told};
ghost use Rattle.drills.specs.Reading.{answer_in, ask_member, begin_in, head_in, line_in, line_of};
ghost use Rattle.drills.specs.Reading.{members_in, number_member, pair_in, receipt_in, reply_member};
ghost use Rattle.drills.specs.Reading.{text_member, told_in, version_in, words_member};
ghost use Rattle.drills.specs.Reading.{entry_alone, entry_in, head_alone, head_members_in};
ghost use Rattle.drills.specs.Reading.{is_part, part_head_in, part_head_of};

use crate::part::PartHead;
use crate::rows::{ask_in, byte_in, reply_in, word_in, words_in};
use node_calls::{Ask, Entry, Receipt, Reply};
use serde_json::Value;
use std::alloc::{AllocError, Global};
use streams::text_of;

/// A line of a recorded drill.
#[derive(Drop)]
pub enum Line {
    /// The first line, which names the format and its version: whether parts may come in pieces.
    Head { pieces: bool },
    /// A piece of the trace of this node begins, behind so many calls of it, if that is told.
    Trace { node: u64, from: Option<u64> },
    /// The next entry of the trace.
    Entry(Entry),
    /// A piece of the list of this number begins, behind so many receipts of it, if that is told.
    List { number: u64, from: Option<u64> },
    /// The next receipt of the list.
    Receipt(Receipt),
    /// The first line of a part, which is no drill's.
    Part(PartHead),
}

fn members_in(value: &Value) -> usize
    ensures { result ≡ members_in (view value.now) }
{
    match value.as_object() {
        Some(members) => members.len(),
        None => 0,
    }
}

fn ask_member(alloc: Global, value: &Value) -> Result<Option<Ask>, AllocError>
    ensures { IfOk result (λ ask. option_map ask_told ask ≡ ask_member (view value.now)) }
{
    match value.get("ask") {
        Some(ask) => ask_in(alloc, ask),
        None => Ok(None),
    }
}

fn words_member(alloc: Global, value: &Value) -> Result<Option<Vec<u32>>, AllocError>
    ensures { IfOk result (λ words. option_map vec_items words ≡ words_member (view value.now)) }
{
    match value.get("words") {
        Some(words) => words_in(alloc, words),
        None => Ok(None),
    }
}

fn reply_member(alloc: Global, value: &Value) -> Result<Option<Reply>, AllocError>
    ensures { IfOk result (λ reply. option_map reply_told reply ≡ reply_member (view value.now)) }
{
    match value.get("reply") {
        Some(reply) => reply_in(alloc, reply),
        None => Ok(None),
    }
}

// The words and the reply of an entry.
fn answer_in(alloc: Global, value: &Value) -> Result<Option<(Vec<u32>, Reply)>, AllocError>
    ensures { IfOk result (λ answer.
        option_map (λ answer. (vec_items answer.0, reply_told answer.1)) answer
        ≡ answer_in (view value.now)) }
{
    let Some(words) = words_member(alloc, value)? else {
        return Ok(None);
    };
    match reply_member(alloc, value)? {
        Some(reply) => Ok(Some((words, reply))),
        None => Ok(None),
    }
}

fn told_in(alloc: Global, value: &Value) -> Result<Option<Entry>, AllocError>
    ensures { IfOk result (λ entry. option_map told entry ≡ told_in (view value.now)) }
{
    let Some(ask) = ask_member(alloc, value)? else {
        return Ok(None);
    };
    match answer_in(alloc, value) {
        Ok(Some((words, reply))) => Ok(Some(Entry { ask, words, reply })),
        Ok(None) => {
            drop(ask);
            Ok(None)
        }
        Err(error) => {
            drop(ask);
            Err(error)
        }
    }
}

fn receipt_in(alloc: Global, value: &Value) -> Result<Option<Receipt>, AllocError>
    ensures { IfOk result (λ receipt.
        option_map receipt_told receipt ≡ receipt_in (view value.now)) }
{
    let (Some(node), Some(index)) = (
        value.get("node").and_then(byte_in),
        value.get("index").and_then(word_in),
    ) else {
        return Ok(None);
    };
    let Some(entry) = told_in(alloc, value)? else {
        return Ok(None);
    };
    Ok(Some(Receipt {
        node,
        index: u64::from(index),
        entry,
    }))
}

fn text_member<'a>(value: &'a Value, name: &str) -> Option<&'a str>
    ensures { option_map (λ text. text.now) result ≡ text_member name.now (view value.now) }
{
    value.get(name)?.as_str()
}

fn number_member(value: &Value, name: &str) -> Option<u64>
    ensures { result ≡ number_member name.now (view value.now) }
{
    value.get(name)?.as_u64()
}

// The first line of a drill of this version.
fn version_in(version: u64) -> Option<Line>
    ensures { option_map line_told result ≡ version_in version }
{
    match version {
        1 => Some(Line::Head { pieces: false }),
        2 => Some(Line::Head { pieces: true }),
        _ => None,
    }
}

fn head_in(value: &Value) -> Option<Line>
    ensures { option_map line_told result ≡ head_in (view value.now) }
{
    let name = text_member(value, "failreg")?;
    let version = number_member(value, "version")?;
    if name == "drill" {
        version_in(version)
    } else {
        None
    }
}

// The line with which a part begins, or a piece of it.
fn begin_in(value: &Value, from: Option<u64>) -> Option<Line>
    ensures { option_map line_told result ≡ begin_in from (view value.now) }
{
    match number_member(value, "trace") {
        Some(node) => Some(Line::Trace { node, from }),
        None => number_member(value, "list").map(|number| Line::List { number, from }),
    }
}

// A line of two members: a piece that says where it begins, and else the first line.
fn pair_in(value: &Value) -> Option<Line>
    ensures { option_map line_told result ≡ pair_in (view value.now) }
{
    match number_member(value, "from") {
        Some(from) => begin_in(value, Some(from)),
        None => head_in(value),
    }
}

// Whether it is the first line of a part of the first version.
fn is_part(value: &Value) -> bool
    ensures { result ≡ is_part (view value.now) }
{
    let is_named = match text_member(value, "failreg") {
        Some(name) => name == "part",
        None => false,
    };
    is_named
        && match number_member(value, "version") {
            Some(version) => version == 1,
            None => false,
        }
}

fn head_members_in(alloc: Global, value: &Value) -> Result<Option<PartHead>, AllocError>
    ensures { IfOk result (λ head.
        option_map head_told head ≡ head_members_in (view value.now)) }
{
    let (Some(node), Some(nodes)) = (
        value.get("node").and_then(byte_in),
        value.get("nodes").and_then(byte_in),
    ) else {
        return Ok(None);
    };
    let (Some(cap), Some(run)) = (number_member(value, "cap"), text_member(value, "run")) else {
        return Ok(None);
    };
    let run = String::from_str(alloc, run)?;
    Ok(Some(PartHead {
        node,
        nodes,
        cap,
        run,
    }))
}

fn part_head_of(alloc: Global, value: &Value) -> Result<Option<PartHead>, AllocError>
    ensures { IfOk result (λ head. option_map head_told head ≡ part_head_of (view value.now)) }
{
    if is_part(value) {
        head_members_in(alloc, value)
    } else {
        Ok(None)
    }
}

fn line_of(alloc: Global, value: &Value) -> Result<Option<Line>, AllocError>
    ensures { IfOk result (λ line. option_map line_told line ≡ line_of (view value.now)) }
{
    match members_in(value) {
        5 => Ok(receipt_in(alloc, value)?.map(Line::Receipt)),
        3 => Ok(told_in(alloc, value)?.map(Line::Entry)),
        1 => Ok(begin_in(value, None)),
        2 => Ok(pair_in(value)),
        6 => Ok(part_head_of(alloc, value)?.map(Line::Part)),
        _ => Ok(None),
    }
}

/// What the bytes of a line say, where they are text and JSON of one of the forms.
pub(crate) fn line_in(alloc: Global, bytes: &[u8]) -> Result<Option<Line>, AllocError>
    ensures { IfOk result (λ line. option_map line_told line ≡ line_in bytes.now) }
{
    let Some(text) = text_of(bytes) else {
        return Ok(None);
    };
    match Value::from_str(alloc, text) {
        Ok(value) => line_of(alloc, &value),
        Err(error) if error.is_memory() => Err(AllocError),
        Err(_) => Ok(None),
    }
}

// The entry of an entry's line.
fn entry_alone(line: Line) -> Option<Entry>
    ensures { option_map told result ≡ entry_alone (line_told line) }
{
    match line {
        Line::Entry(entry) => Some(entry),
        Line::Head { .. }
        | Line::Trace { .. }
        | Line::List { .. }
        | Line::Receipt(_)
        | Line::Part(_) => {
            drop(line);
            None
        }
    }
}

/// The entry that the bytes of a line tell, without the newline that ends it, where the line is an
/// entry's. The only error is out of memory.
pub fn entry_in(alloc: Global, line: &[u8]) -> Result<Option<Entry>, AllocError>
    ensures { IfOk result (λ entry. option_map told entry ≡ entry_in line.now) }
{
    match line_in(alloc, line)? {
        Some(line) => Ok(entry_alone(line)),
        None => Ok(None),
    }
}

// The head of a part's first line.
fn head_alone(line: Line) -> Option<PartHead>
    ensures { option_map head_told result ≡ head_alone (line_told line) }
{
    match line {
        Line::Part(head) => Some(head),
        Line::Head { .. }
        | Line::Trace { .. }
        | Line::Entry(_)
        | Line::List { .. }
        | Line::Receipt(_) => {
            drop(line);
            None
        }
    }
}

/// The head that the bytes of a line tell, without the newline that ends it, where the line is a part's
/// first. Which of its nodes it is of isn't looked at. The only error is out of memory.
pub fn part_head_in(alloc: Global, line: &[u8]) -> Result<Option<PartHead>, AllocError>
    ensures { IfOk result (λ head. option_map head_told head ≡ part_head_in line.now) }
{
    match line_in(alloc, line)? {
        Some(line) => Ok(head_alone(line)),
        None => Ok(None),
    }
}

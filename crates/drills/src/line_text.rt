//! The lines of a recorded drill, and of a part, written.

ghost use Rattle.std.specs.Prelude.{◌≡◌, false, IfOk, None, OnOk, string_bytes};
ghost use Rattle.serde_json.specs.Data.{put, string};
ghost use Rattle.serde_json.specs.View.{members_view, view};
ghost use Rattle.drills.specs.Fits.{LineFits};
ghost use Rattle.drills.specs.Lines.{head as head_line, head_told, line_data, list as list_line};
ghost use Rattle.drills.specs.Lines.{part_head, trace as trace_line};
ghost use Rattle.drills.specs.Written.{IsPrinted, SaysLine};

use crate::part::PartHead;
use serde_json::{Map, Value, json};
use std::alloc::{AllocError, Global};

fn head_value(alloc: Global) -> Result<Value, AllocError>
    ensures { IfOk result (λ value. view value ≡ line_data (head_line false)) }
{
    let members = with_text(alloc, Map::new(alloc), "failreg", "drill")?;
    let members = with_member(alloc, members, "version", Value::from(1u64))?;
    Ok(Value::Object(members))
}

fn trace_value(alloc: Global, node: u64) -> Result<Value, AllocError>
    ensures { IfOk result (λ value. view value ≡ line_data (trace_line node None)) }
{
    json!(in alloc; {"trace": node})
}

fn list_value(alloc: Global, number: u64) -> Result<Value, AllocError>
    ensures { IfOk result (λ value. view value ≡ line_data (list_line number None)) }
{
    json!(in alloc; {"list": number})
}

// An object with one member more. It is handed on, so that an error on the way drops nothing.
fn with_member(
    alloc: Global,
    mut members: Map<String, Value>,
    name: &str,
    value: Value,
) -> Result<Map<String, Value>, AllocError>
    ensures { IfOk result (λ all. members_view all.entries
        ≡ put name.now (view value) (members_view members.entries)) }
{
    let name = String::from_str(alloc, name)?;
    drop(members.insert(name, value)?);
    Ok(members)
}

// The same of a text.
fn with_text(
    alloc: Global,
    members: Map<String, Value>,
    name: &str,
    text: &str,
) -> Result<Map<String, Value>, AllocError>
    ensures { IfOk result (λ all. members_view all.entries
        ≡ put name.now (string text.now) (members_view members.entries)) }
{
    let text = String::from_str(alloc, text)?;
    with_member(alloc, members, name, Value::String(text))
}

fn part_head_value(alloc: Global, head: &PartHead) -> Result<Value, AllocError>
    ensures value { IfOk result
        (λ value. view value ≡ line_data (part_head (head_told head.now))) }
    ensures fits { OnOk result (LineFits (part_head (head_told head.now))) }
{
    let PartHead {
        node,
        nodes,
        cap,
        run,
    } = head;
    let members = with_member(alloc, Map::new(alloc), "cap", Value::from(*cap))?;
    let members = with_text(alloc, members, "failreg", "part")?;
    let members = with_member(alloc, members, "node", Value::from(*node))?;
    let members = with_member(alloc, members, "nodes", Value::from(*nodes))?;
    let members = with_text(alloc, members, "run", run)?;
    let members = with_member(alloc, members, "version", Value::from(1u64))?;
    Ok(Value::Object(members))
}

fn printed(alloc: Global, value: &Value) -> Result<String, AllocError>
    ensures { IfOk result (λ text. IsPrinted (view value.now) (string_bytes text)) }
{
    let text = value.to_string(alloc)?;
    Ok(text)
}

/// The first line of a drill whose traces and lists come whole.
pub(crate) fn head_text(alloc: Global) -> Result<String, AllocError>
    ensures { IfOk result (λ text. SaysLine (string_bytes text) (head_line false)) }
{
    let value = head_value(alloc)?;
    printed(alloc, &value)
}

/// The line with which a node's trace begins.
pub(crate) fn trace_text(alloc: Global, node: u64) -> Result<String, AllocError>
    ensures { IfOk result (λ text. SaysLine (string_bytes text) (trace_line node None)) }
{
    let value = trace_value(alloc, node)?;
    printed(alloc, &value)
}

/// The line with which a list of receipts begins.
pub(crate) fn list_text(alloc: Global, number: u64) -> Result<String, AllocError>
    ensures { IfOk result (λ text. SaysLine (string_bytes text) (list_line number None)) }
{
    let value = list_value(alloc, number)?;
    printed(alloc, &value)
}

/// The first line of a part, without the newline that ends it. It reads back as the same head. The only
/// error is out of memory.
pub fn part_head_text(alloc: Global, head: &PartHead) -> Result<String, AllocError>
    ensures { IfOk result
        (λ text. SaysLine (string_bytes text) (part_head (head_told head.now))) }
{
    let value = part_head_value(alloc, head)?;
    printed(alloc, &value)
}

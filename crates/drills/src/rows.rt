//! What rows of JSON say.

ghost use Rattle.std.specs.Prelude.{◌≡◌, option_map, string_bytes, IfOk};
ghost use Rattle.std.specs.Vec.{vec_items};
ghost use Rattle.serde_json.specs.View.{view};
ghost use Rattle.actions.specs.Value.{task_value};
ghost use Rattle.node_calls.specs.Told.{ask_told, reply_told, passed};
ghost use Rattle.drills.specs.Reading.{number_in, byte_in, short_in, word_in, bytes_in};
ghost use Rattle.drills.specs.Reading.{text_or_null, words_in, fields_in, is_row, text_at};
ghost use Rattle.drills.specs.Reading.{number_at, byte_at, short_at, bytes_at, text_or_null_at};
ghost use Rattle.drills.specs.Reading.{stamp_in, wait_in, task_in, set_in, shift_in, grant_in};
ghost use Rattle.drills.specs.Reading.{exchange_in, ask_in};
ghost use Rattle.drills.specs.Reading.{act_in, pass_in, message_in, moved_in, reply_in};

use actions::Task;
use node_calls::{Ask, PassReply, Reply};
use serde_json::Value;
use stamp_register::Stamp;
use std::alloc::{AllocError, Global};

/// A number of 8 bits.
pub(crate) fn byte_in(value: &Value) -> Option<u8>
    ensures { result ≡ byte_in (view value.now) }
{
    let number = value.as_u64()?;
    if number > 255 {
        return None;
    }
    Some(number as u8)
}

// A number of 16 bits.
fn short_in(value: &Value) -> Option<u16>
    ensures { result ≡ short_in (view value.now) }
{
    let number = value.as_u64()?;
    if number > 65535 {
        return None;
    }
    Some(number as u16)
}

/// A number of 32 bits.
pub(crate) fn word_in(value: &Value) -> Option<u32>
    ensures { result ≡ word_in (view value.now) }
{
    let number = value.as_u64()?;
    if number > 4_294_967_295 {
        return None;
    }
    Some(number as u32)
}

/// Words, where each is a number of 32 bits.
pub(crate) fn words_in(alloc: Global, value: &Value) -> Result<Option<Vec<u32>>, AllocError>
    ensures { IfOk result (λ words. option_map vec_items words ≡ words_in (view value.now)) }
{
    let Some(values) = value.as_array() else {
        return Ok(None);
    };
    let mut words = Vec::with_capacity(alloc, values.len())?;
    for item in values {
        let Some(word) = word_in(item) else {
            return Ok(None);
        };
        words.push(word)?;
    }
    Ok(Some(words))
}

fn fields_in(row: &Value) -> usize
    ensures { result ≡ fields_in (view row.now) }
{
    match row.as_array() {
        Some(fields) => fields.len(),
        None => 0,
    }
}

// Whether it is a row of this word, with so many fields in all.
fn is_row(row: &Value, word: &str, fields: usize) -> bool
    ensures { result ≡ is_row (view row.now) word.now fields }
{
    fields_in(row) == fields
        && match text_at(row, 0) {
            Some(text) => text == word,
            None => false,
        }
}

fn text_at(row: &Value, index: usize) -> Option<&str>
    ensures { option_map (λ text. text.now) result ≡ text_at index (view row.now) }
{
    row.get(index)?.as_str()
}

fn number_at(row: &Value, index: usize) -> Option<u64>
    ensures { result ≡ number_at index (view row.now) }
{
    row.get(index)?.as_u64()
}

fn byte_at(row: &Value, index: usize) -> Option<u8>
    ensures { result ≡ byte_at index (view row.now) }
{
    byte_in(row.get(index)?)
}

fn short_at(row: &Value, index: usize) -> Option<u16>
    ensures { result ≡ short_at index (view row.now) }
{
    short_in(row.get(index)?)
}

fn string_at(alloc: Global, row: &Value, index: usize) -> Result<Option<String>, AllocError>
    ensures { IfOk result
        (λ text. option_map string_bytes text ≡ text_at index (view row.now)) }
{
    match text_at(row, index) {
        Some(text) => Ok(Some(String::from_str(alloc, text)?)),
        None => Ok(None),
    }
}

// Bytes in hexadecimal.
fn bytes_in(alloc: Global, value: &Value) -> Result<Option<Vec<u8>>, AllocError>
    ensures { IfOk result (λ bytes. option_map vec_items bytes ≡ bytes_in (view value.now)) }
{
    let Some(text) = value.as_str() else {
        return Ok(None);
    };
    match hex::decode(alloc, text) {
        Ok(bytes) => Ok(Some(bytes)),
        Err(hex::FromHexError::OutOfMemory) => Err(AllocError),
        Err(_) => Ok(None),
    }
}

fn bytes_at(alloc: Global, row: &Value, index: usize) -> Result<Option<Vec<u8>>, AllocError>
    ensures { IfOk result (λ bytes. option_map vec_items bytes ≡ bytes_at index (view row.now)) }
{
    match row.get(index) {
        Some(value) => bytes_in(alloc, value),
        None => Ok(None),
    }
}

// A text or null.
fn text_or_null(alloc: Global, value: &Value) -> Result<Option<Option<String>>, AllocError>
    ensures { IfOk result (λ text. option_map (option_map string_bytes) text
        ≡ text_or_null (view value.now)) }
{
    match value {
        Value::Null => Ok(Some(None)),
        Value::String(text) => Ok(Some(Some(String::from_str(alloc, text)?))),
        _ => Ok(None),
    }
}

fn text_or_null_at(
    alloc: Global,
    row: &Value,
    index: usize,
) -> Result<Option<Option<String>>, AllocError>
    ensures { IfOk result (λ text. option_map (option_map string_bytes) text
        ≡ text_or_null_at index (view row.now)) }
{
    match row.get(index) {
        Some(value) => text_or_null(alloc, value),
        None => Ok(None),
    }
}

// A stamp in the two fields behind the word.
fn stamp_in(row: &Value) -> Option<Stamp>
    ensures { result ≡ stamp_in (view row.now) }
{
    let clock = number_at(row, 1)?;
    let node = byte_at(row, 2)?;
    Some(Stamp { clock, node })
}

// A task that takes time.
fn wait_in(row: &Value) -> Option<Task>
    ensures { option_map task_value result ≡ wait_in (view row.now) }
{
    if is_row(row, "sleep", 2) {
        number_at(row, 1).map(Task::Sleep)
    } else if is_row(row, "pause", 1) {
        Some(Task::Pause)
    } else if is_row(row, "yield", 1) {
        Some(Task::Yield)
    } else if is_row(row, "delay", 2) {
        number_at(row, 1).map(Task::Delay)
    } else {
        None
    }
}

fn task_in(alloc: Global, row: &Value) -> Result<Option<Task>, AllocError>
    ensures { IfOk result (λ task. option_map task_value task ≡ task_in (view row.now)) }
{
    if is_row(row, "off", 1) {
        Ok(Some(Task::Off))
    } else if is_row(row, "return", 2) {
        Ok(text_or_null_at(alloc, row, 1)?.map(Task::Return))
    } else if is_row(row, "panic", 2) {
        Ok(text_or_null_at(alloc, row, 1)?.map(Task::Panic))
    } else if is_row(row, "print", 2) {
        Ok(text_or_null_at(alloc, row, 1)?.map(Task::Print))
    } else {
        Ok(wait_in(row))
    }
}

fn set_in(alloc: Global, row: &Value) -> Result<Option<Ask>, AllocError>
    ensures { IfOk result (λ ask. option_map ask_told ask ≡ set_in (view row.now)) }
{
    let Some(name) = string_at(alloc, row, 1)? else {
        return Ok(None);
    };
    let Some(text) = string_at(alloc, row, 2)? else {
        return Ok(None);
    };
    Ok(Some(Ask::Set { name, text }))
}

fn shift_in(alloc: Global, row: &Value) -> Result<Option<Ask>, AllocError>
    ensures { IfOk result (λ ask. option_map ask_told ask ≡ shift_in (view row.now)) }
{
    let Some(name) = string_at(alloc, row, 1)? else {
        return Ok(None);
    };
    let (Some(term), Some(to), Some(amount)) = (byte_at(row, 2), byte_at(row, 3), number_at(row, 4))
    else {
        return Ok(None);
    };
    Ok(Some(Ask::Shift {
        name,
        term,
        to,
        amount,
    }))
}

fn grant_in(alloc: Global, row: &Value) -> Result<Option<Ask>, AllocError>
    ensures { IfOk result (λ ask. option_map ask_told ask ≡ grant_in (view row.now)) }
{
    let Some(name) = string_at(alloc, row, 1)? else {
        return Ok(None);
    };
    let (Some(term), Some(amount)) = (byte_at(row, 2), number_at(row, 3)) else {
        return Ok(None);
    };
    Ok(Some(Ask::Grant { name, term, amount }))
}

// What was asked of rights or messages.
fn exchange_in(alloc: Global, row: &Value) -> Result<Option<Ask>, AllocError>
    ensures { IfOk result (λ ask. option_map ask_told ask ≡ exchange_in (view row.now)) }
{
    if is_row(row, "shift", 5) {
        shift_in(alloc, row)
    } else if is_row(row, "grant", 4) {
        grant_in(alloc, row)
    } else if is_row(row, "emit", 2) {
        Ok(byte_at(row, 1).map(|to| Ask::Emit { to }))
    } else if is_row(row, "deliver", 2) {
        Ok(bytes_at(alloc, row, 1)?.map(|message| Ask::Deliver { message }))
    } else {
        Ok(None)
    }
}

/// What was asked.
pub(crate) fn ask_in(alloc: Global, row: &Value) -> Result<Option<Ask>, AllocError>
    ensures { IfOk result (λ ask. option_map ask_told ask ≡ ask_in (view row.now)) }
{
    if is_row(row, "pass", 2) {
        Ok(string_at(alloc, row, 1)?.map(|name| Ask::Pass { name }))
    } else if is_row(row, "set", 3) {
        set_in(alloc, row)
    } else if is_row(row, "remove", 2) {
        Ok(string_at(alloc, row, 1)?.map(|name| Ask::Remove { name }))
    } else if is_row(row, "load", 2) {
        Ok(string_at(alloc, row, 1)?.map(|text| Ask::Load { text }))
    } else {
        exchange_in(alloc, row)
    }
}

fn act_in(alloc: Global, row: &Value) -> Result<Option<PassReply>, AllocError>
    ensures { IfOk result (λ reply. option_map passed reply ≡ act_in (view row.now)) }
{
    let (Some(stamp), Some(term)) = (stamp_in(row), byte_at(row, 3)) else {
        return Ok(None);
    };
    let Some(value) = row.get(4) else {
        return Ok(None);
    };
    let Some(task) = task_in(alloc, value)? else {
        return Ok(None);
    };
    Ok(Some(PassReply::Act { term, stamp, task }))
}

fn pass_in(alloc: Global, row: &Value) -> Result<Option<PassReply>, AllocError>
    ensures { IfOk result (λ reply. option_map passed reply ≡ pass_in (view row.now)) }
{
    if is_row(row, "act", 5) {
        act_in(alloc, row)
    } else if is_row(row, "none", 3) {
        Ok(stamp_in(row).map(|stamp| PassReply::NoTerm { stamp }))
    } else if is_row(row, "unset", 1) {
        Ok(Some(PassReply::Unset))
    } else {
        Ok(None)
    }
}

// What was answered of a message that was made or taken in, and else of a pass.
fn message_in(alloc: Global, row: &Value) -> Result<Option<Reply>, AllocError>
    ensures { IfOk result (λ reply. option_map reply_told reply ≡ message_in (view row.now)) }
{
    if is_row(row, "message", 2) {
        Ok(bytes_at(alloc, row, 1)?.map(Reply::Emit))
    } else if is_row(row, "changed", 1) {
        Ok(Some(Reply::Deliver(true)))
    } else if is_row(row, "same", 1) {
        Ok(Some(Reply::Deliver(false)))
    } else {
        Ok(pass_in(alloc, row)?.map(Reply::Pass))
    }
}

// What was answered of rights that were moved, and else of a message or a pass.
fn moved_in(alloc: Global, row: &Value) -> Result<Option<Reply>, AllocError>
    ensures { IfOk result (λ reply. option_map reply_told reply ≡ moved_in (view row.now)) }
{
    if is_row(row, "shifted", 2) {
        Ok(number_at(row, 1).map(Reply::Shift))
    } else if is_row(row, "granted", 2) {
        Ok(number_at(row, 1).map(Reply::Grant))
    } else {
        message_in(alloc, row)
    }
}

/// What was answered.
pub(crate) fn reply_in(alloc: Global, row: &Value) -> Result<Option<Reply>, AllocError>
    ensures { IfOk result (λ reply. option_map reply_told reply ≡ reply_in (view row.now)) }
{
    if is_row(row, "set", 3) {
        Ok(stamp_in(row).map(Reply::Set))
    } else if is_row(row, "removed", 3) {
        Ok(stamp_in(row).map(Reply::Remove))
    } else if is_row(row, "loaded", 2) {
        Ok(short_at(row, 1).map(Reply::Load))
    } else {
        moved_in(alloc, row)
    }
}

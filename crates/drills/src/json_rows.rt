//! What a call tells as JSON.

ghost use Rattle.std.specs.Prelude.{◌≡◌, ◌∷◌, ◌++◌, [], map, option_map, string_bytes, IfOk, OnOk};
ghost use Rattle.serde_json.specs.Data.{string};
ghost use Rattle.serde_json.specs.View.{view};
ghost use Rattle.actions.specs.Value.{task_value};
ghost use Rattle.node_calls.specs.Told.{ask_ref_told, grants, reply_ref_told, sets, shifts, Act};
ghost use Rattle.node_calls.specs.Told.{delivers, passed_ref, was_emitted};
ghost use Rattle.hex.specs.Hex.{IsBytes};
ghost use Rattle.drills.specs.Fits.{AskFits, PassFits, ReplyFits, StampFits, TaskFits, WordsFit};
ghost use Rattle.drills.specs.Rows.{text_data, count_data, row, row_data, words_data, task_data};
ghost use Rattle.drills.specs.Rows.{ask_data, pass_data, reply_data, list_data};

use actions::Task;
use node_calls::{AskRef, PassReplyRef, ReplyRef};
use serde_json::Value;
use stamp_register::Stamp;
use std::alloc::{AllocError, Global};

/// What a call tells as JSON: a value, or a row of a word and the bytes of a message, in hexadecimal.
#[derive(Drop)]
pub(crate) enum Row<'a> {
    Value(Value),
    Deliver(&'a [u8]),
    Message(&'a [u8]),
}

impl<'a> Row<'a> {
    // The row of a delivery.
    fn delivered(message: &'a [u8]) -> Row<'a>
        ensures row { row_data result ≡ ask_data (delivers message.now) }
        ensures fits { IsBytes message.now }
    {
        Row::Deliver(message)
    }

    // The row of the reply to an emit.
    fn emitted(message: &'a [u8]) -> Row<'a>
        ensures row { row_data result ≡ reply_data (was_emitted message.now) }
        ensures fits { IsBytes message.now }
    {
        Row::Message(message)
    }
}

// Puts texts behind what stands in a row.
fn push_texts(alloc: Global, row: &mut Vec<Value>, texts: &[&str]) -> Result<(), AllocError>
    ensures { OnOk result (map view row.new.items
        ≡ map view row.old.items ++ map (λ text. string text.now) texts.now) }
{
    for text in texts {
        row.push(Value::String(String::from_str(alloc, text)?))?;
    }
    Ok(())
}

// Puts numbers behind what stands in a row.
fn push_counts(row: &mut Vec<Value>, counts: &[u64]) -> Result<(), AllocError>
    ensures { OnOk result (map view row.new.items
        ≡ map view row.old.items ++ map count_data counts.now) }
{
    for count in counts {
        row.push(Value::from(*count))?;
    }
    Ok(())
}

// A word and other texts, and numbers behind them.
fn row_of(alloc: Global, texts: &[&str], counts: &[u64]) -> Result<Vec<Value>, AllocError>
    ensures { IfOk result (λ row. map view row.items
        ≡ map (λ text. string text.now) texts.now ++ map count_data counts.now) }
{
    let mut row = Vec::new(alloc);
    push_texts(alloc, &mut row, texts)?;
    push_counts(&mut row, counts)?;
    Ok(row)
}

// A row with a value behind it.
fn with_value(mut row: Vec<Value>, value: Value) -> Result<Value, AllocError>
    ensures { IfOk result
        (λ all. view all ≡ list_data (map view row.items ++ view value ∷ [])) }
{
    row.push(value)?;
    Ok(Value::Array(row))
}

// A word alone.
fn alone(alloc: Global, word: &str) -> Result<Value, AllocError>
    ensures { IfOk result (λ value. view value ≡ row word.now []) }
{
    Ok(Value::Array(row_of(alloc, &[word], &[])?))
}

// A word with a number.
fn counted(alloc: Global, word: &str, count: u64) -> Result<Value, AllocError>
    ensures { IfOk result (λ value. view value ≡ row word.now (count_data count ∷ [])) }
{
    Ok(Value::Array(row_of(alloc, &[word], &[count])?))
}

// A word with a text.
fn with_text(alloc: Global, word: &str, text: &str) -> Result<Value, AllocError>
    ensures { IfOk result (λ value. view value ≡ row word.now (string text.now ∷ [])) }
{
    Ok(Value::Array(row_of(alloc, &[word, text], &[])?))
}

// A text, or null where there is none.
fn text_value(alloc: Global, text: &Option<String>) -> Result<Value, AllocError>
    ensures { IfOk result
        (λ value. view value ≡ text_data (option_map string_bytes text.now)) }
{
    match text {
        Some(text) => Ok(Value::String(String::from_str(alloc, text)?)),
        None => Ok(Value::Null),
    }
}

// A task's word with its text.
fn texted(alloc: Global, word: &str, text: &Option<String>) -> Result<Value, AllocError>
    ensures { IfOk result (λ value. view value
        ≡ row word.now (text_data (option_map string_bytes text.now) ∷ [])) }
{
    let text = text_value(alloc, text)?;
    with_value(row_of(alloc, &[word], &[])?, text)
}

fn task_value(alloc: Global, task: &Task) -> Result<Value, AllocError>
    ensures value { IfOk result (λ value. view value ≡ task_data (task_value task.now)) }
    ensures fits { OnOk result (TaskFits (task_value task.now)) }
{
    match task {
        Task::Off => alone(alloc, "off"),
        Task::Return(text) => texted(alloc, "return", text),
        Task::Sleep(time) => counted(alloc, "sleep", *time),
        Task::Panic(text) => texted(alloc, "panic", text),
        Task::Print(text) => texted(alloc, "print", text),
        Task::Pause => alone(alloc, "pause"),
        Task::Yield => alone(alloc, "yield"),
        Task::Delay(time) => counted(alloc, "delay", *time),
    }
}

fn set_value(alloc: Global, name: &str, text: &str) -> Result<Value, AllocError>
    ensures { IfOk result (λ value. view value ≡ ask_data (sets name.now text.now)) }
{
    Ok(Value::Array(row_of(alloc, &["set", name, text], &[])?))
}

fn shift_value(
    alloc: Global,
    name: &str,
    term: u8,
    to: u8,
    amount: u64,
) -> Result<Value, AllocError>
    ensures { IfOk result (λ value. view value ≡ ask_data (shifts name.now term to amount)) }
{
    let counts = [u64::from(term), u64::from(to), amount];
    Ok(Value::Array(row_of(alloc, &["shift", name], &counts)?))
}

fn grant_value(alloc: Global, name: &str, term: u8, amount: u64) -> Result<Value, AllocError>
    ensures { IfOk result (λ value. view value ≡ ask_data (grants name.now term amount)) }
{
    let counts = [u64::from(term), amount];
    Ok(Value::Array(row_of(alloc, &["grant", name], &counts)?))
}

/// What was asked.
pub(crate) fn ask_row(alloc: Global, ask: AskRef<'_>) -> Result<Row<'_>, AllocError>
    ensures row { IfOk result (λ row. row_data row ≡ ask_data (ask_ref_told ask.entry)) }
    ensures fits { OnOk result (AskFits (ask_ref_told ask.entry)) }
{
    Ok(match ask {
        AskRef::Set { name, text } => Row::Value(set_value(alloc, name, text)?),
        AskRef::Remove { name } => Row::Value(with_text(alloc, "remove", name)?),
        AskRef::Load { text } => Row::Value(with_text(alloc, "load", text)?),
        AskRef::Pass { name } => Row::Value(with_text(alloc, "pass", name)?),
        AskRef::Shift {
            name,
            term,
            to,
            amount,
        } => Row::Value(shift_value(alloc, name, term, to, amount)?),
        AskRef::Grant { name, term, amount } => Row::Value(grant_value(alloc, name, term, amount)?),
        AskRef::Emit { to } => Row::Value(counted(alloc, "emit", u64::from(to))?),
        AskRef::Deliver { message } => Row::delivered(message),
    })
}

// A word with a stamp: its clock and its node.
fn stamped(alloc: Global, word: &str, stamp: Stamp) -> Result<Value, AllocError>
    ensures value { IfOk result (λ value. view value
        ≡ row word.now (count_data stamp.clock ∷ count_data stamp.node ∷ [])) }
    ensures fits { OnOk result (StampFits stamp) }
{
    let counts = [stamp.clock, u64::from(stamp.node)];
    Ok(Value::Array(row_of(alloc, &[word], &counts)?))
}

fn act_value(alloc: Global, term: u8, stamp: Stamp, task: &Task) -> Result<Value, AllocError>
    ensures value { IfOk result
        (λ value. view value ≡ pass_data (Act stamp term (task_value task.now))) }
    ensures fits { OnOk result (PassFits (Act stamp term (task_value task.now))) }
{
    let task = task_value(alloc, task)?;
    let counts = [stamp.clock, u64::from(stamp.node), u64::from(term)];
    with_value(row_of(alloc, &["act"], &counts)?, task)
}

fn pass_value(alloc: Global, reply: PassReplyRef<'_>) -> Result<Value, AllocError>
    ensures value { IfOk result (λ value. view value ≡ pass_data (passed_ref reply.entry)) }
    ensures fits { OnOk result (PassFits (passed_ref reply.entry)) }
{
    match reply {
        PassReplyRef::Unset => alone(alloc, "unset"),
        PassReplyRef::NoTerm { stamp } => stamped(alloc, "none", stamp),
        PassReplyRef::Act { term, stamp, task } => act_value(alloc, term, stamp, task),
    }
}

/// What was answered.
pub(crate) fn reply_row(alloc: Global, reply: ReplyRef<'_>) -> Result<Row<'_>, AllocError>
    ensures row { IfOk result (λ row. row_data row ≡ reply_data (reply_ref_told reply.entry)) }
    ensures fits { OnOk result (ReplyFits (reply_ref_told reply.entry)) }
{
    Ok(match reply {
        ReplyRef::Set(stamp) => Row::Value(stamped(alloc, "set", stamp)?),
        ReplyRef::Remove(stamp) => Row::Value(stamped(alloc, "removed", stamp)?),
        ReplyRef::Load(entries) => Row::Value(counted(alloc, "loaded", u64::from(entries))?),
        ReplyRef::Pass(reply) => Row::Value(pass_value(alloc, reply)?),
        ReplyRef::Shift(total) => Row::Value(counted(alloc, "shifted", total)?),
        ReplyRef::Grant(total) => Row::Value(counted(alloc, "granted", total)?),
        ReplyRef::Emit(message) => Row::emitted(message),
        ReplyRef::Deliver(true) => Row::Value(alone(alloc, "changed")?),
        ReplyRef::Deliver(false) => Row::Value(alone(alloc, "same")?),
    })
}

// Adds a word behind the others.
fn push_word(values: &mut Vec<Value>, word: u32) -> Result<(), AllocError>
    ensures { OnOk result (map view values.new.items
        ≡ map view values.old.items ++ count_data word ∷ []) }
{
    values.push(Value::from(word))?;
    Ok(())
}

/// The random draws of a pass.
pub(crate) fn words_value(alloc: Global, words: &[u32]) -> Result<Value, AllocError>
    ensures value { IfOk result (λ value. view value ≡ words_data words.now) }
    ensures fits { OnOk result (WordsFit words.now) }
{
    let mut values = Vec::new(alloc);
    for word in words {
        push_word(&mut values, *word)?;
    }
    Ok(Value::Array(values))
}

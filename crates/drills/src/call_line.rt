//! The line of a call, written from where the call lies.

ghost use Rattle.std.specs.Prelude.{◌≡◌, ◌++◌, false, codes, IfOk, OnOk, string_bytes};
ghost use Rattle.std.specs.Io.KnownBytes.{Appends};
ghost use Rattle.hex.specs.Hex.{IsBytes, encode_lower};
ghost use Rattle.serde_json.specs.View.{view};
ghost use Rattle.serde_json.specs.Written.{has_float};
ghost use Rattle.packed_trace.specs.Packed.{seen_told};
ghost use Rattle.drills.specs.Fits.{WordsFit};
ghost use Rattle.drills.specs.Lines.{entry as entry_line, receipt as receipt_line, receipt_told};
ghost use Rattle.drills.specs.Rows.{count_data, row_data, words_data};
ghost use Rattle.drills.specs.Written.{AddsLine, SaysLine, WritesData, WritesLine};

use crate::json_rows::{Row, ask_row, reply_row, words_value};
use node_calls::Receipt;
use packed_trace::Seen;
use serde_json::Value;
use std::alloc::{AllocError, Global};
use std::io;
use std::io::Write;

/// How many bytes of a message are written in hexadecimal at a time.
const BYTES_AT_ONCE: usize = 32_768;

/// The greatest index that a line may have.
const MAX_INDEX: u64 = 4_294_967_295;

// Writes bytes in hexadecimal.
fn write_hex<W: Write>(alloc: Global, bytes: &[u8], out: &mut W) -> io::Result<()>
    ensures { OnOk result (Appends (W.contents out.old) (W.contents out.new)
        (encode_lower bytes.now)) }
{
    let mut done = 0;
    while done < bytes.len() {
        let end = bytes.len().min(done + BYTES_AT_ONCE);
        let digits = hex::encode(alloc, &bytes[done..end])?;
        out.write_all(digits.as_bytes())?;
        done = end;
    }
    Ok(())
}

// Writes a row that ends with bytes, after what comes before their digits.
fn write_bytes<W: Write>(alloc: Global, front: &[u8], bytes: &[u8], out: &mut W) -> io::Result<()>
    ensures text { OnOk result (Appends (W.contents out.old) (W.contents out.new)
        (front.now ++ (encode_lower bytes.now ++ codes "\"]"))) }
    ensures fits { IsBytes bytes.now }
{
    out.write_all(front)?;
    write_hex(alloc, bytes, out)?;
    out.write_all(b"\"]")
}

// Writes a value as JSON without spaces.
fn write_value<W: Write>(alloc: Global, value: Value, out: &mut W) -> io::Result<()>
    ensures { OnOk result (has_float (view value) ≡ false
        → WritesData W.contents out.old out.new (view value)) }
{
    let text = value.to_vec(alloc)?;
    out.write_all(&text)
}

// Writes a row: the bytes of a message from where they lie.
fn write_row<W: Write>(alloc: Global, row: Row<'_>, out: &mut W) -> io::Result<()>
    ensures { OnOk result (has_float (row_data row.entry) ≡ false
        → WritesData W.contents out.old out.new (row_data row.entry)) }
{
    match row {
        Row::Value(value) => write_value(alloc, value, out),
        Row::Deliver(message) => write_bytes(alloc, b"[\"deliver\",\"", message, out),
        Row::Message(message) => write_bytes(alloc, b"[\"message\",\"", message, out),
    }
}

// Writes a number.
fn write_count<W: Write>(alloc: Global, count: u64, out: &mut W) -> io::Result<()>
    ensures { OnOk result (WritesData W.contents out.old out.new (count_data count)) }
{
    write_value(alloc, Value::from(count), out)
}

// The random draws of a call.
fn draws_value(alloc: Global, call: Seen<'_>) -> Result<Value, AllocError>
    ensures value { IfOk result
        (λ value. view value ≡ words_data (seen_told call.entry).words) }
    ensures fits { OnOk result (WordsFit (seen_told call.entry).words) }
{
    match call {
        Seen::Pass { word, .. } => words_value(alloc, word.as_slice()),
        Seen::Entry(entry) => words_value(alloc, &entry.words),
    }
}

// Writes the line of a call, without the newline that ends it.
fn write_call<W: Write>(alloc: Global, call: Seen<'_>, out: &mut W) -> io::Result<()>
    ensures { OnOk result
        (WritesLine W.contents out.old out.new (entry_line (seen_told call.entry))) }
{
    out.write_all(b"{\"ask\":")?;
    write_row(alloc, ask_row(alloc, call.ask())?, out)?;
    out.write_all(b",\"reply\":")?;
    write_row(alloc, reply_row(alloc, call.reply())?, out)?;
    out.write_all(b",\"words\":")?;
    write_value(alloc, draws_value(alloc, call)?, out)?;
    out.write_all(b"}")
}

/// Writes the line of a call of a trace, with the newline that ends it. It reads back as what the call
/// tells. The bytes of a message are written from where they lie, some at a time.
///
/// Errors: the writer's, or out of memory; some of the line may be written then.
pub fn write_entry<W: Write>(alloc: Global, call: Seen<'_>, out: &mut W) -> io::Result<()>
    ensures { OnOk result
        (AddsLine W.contents out.old out.new (entry_line (seen_told call.entry))) }
{
    write_call(alloc, call, out)?;
    out.write_all(b"\n")
}

/// The line of a call of a trace, without the newline that ends it. It reads back as what the call
/// tells.
///
/// Errors: out of memory.
pub fn entry_text(alloc: Global, call: Seen<'_>) -> Result<String, AllocError>
    ensures { IfOk result
        (λ text. SaysLine (string_bytes text) (entry_line (seen_told call.entry))) }
{
    let mut line = Vec::new(alloc);
    let Ok(()) = write_call(alloc, call, &mut line) else {
        return Err(AllocError);
    };
    let Ok(text) = String::from_utf8(line) else {
        unreachable!()
    };
    Ok(text)
}

// Writes the line of a receipt, without the newline that ends it.
fn write_told<W: Write>(alloc: Global, receipt: &Receipt, out: &mut W) -> io::Result<()>
    ensures { OnOk result
        (WritesLine W.contents out.old out.new (receipt_line (receipt_told receipt.now))) }
{
    let Receipt { node, index, entry } = receipt;
    // No line has a greater number.
    if *index > MAX_INDEX {
        return Err(io::Error::from(AllocError));
    }
    let call = Seen::Entry(entry);
    out.write_all(b"{\"ask\":")?;
    write_row(alloc, ask_row(alloc, call.ask())?, out)?;
    out.write_all(b",\"index\":")?;
    write_count(alloc, *index, out)?;
    out.write_all(b",\"node\":")?;
    write_count(alloc, u64::from(*node), out)?;
    out.write_all(b",\"reply\":")?;
    write_row(alloc, reply_row(alloc, call.reply())?, out)?;
    out.write_all(b",\"words\":")?;
    write_value(alloc, draws_value(alloc, call)?, out)?;
    out.write_all(b"}")
}

/// Writes the line of a receipt, with the newline that ends it.
///
/// Errors: the writer's; out of memory, also if the index is 2^32 or more, which no line has.
pub(crate) fn write_receipt<W: Write>(
    alloc: Global,
    receipt: &Receipt,
    out: &mut W,
) -> io::Result<()>
    ensures { OnOk result
        (AddsLine W.contents out.old out.new (receipt_line (receipt_told receipt.now))) }
{
    write_told(alloc, receipt, out)?;
    out.write_all(b"\n")
}

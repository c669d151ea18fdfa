//! A recorded drill, and a part, to a writer.

ghost use Rattle.std.specs.Prelude.{◌≡◌, ◌++◌, ◌∷◌, [], ◌↔◌, ◌⊎◌, true, false, map, string_bytes, IfErr, IsOk, OnOk, Ok, Err};
ghost use Rattle.streams.specs.Watched.{has_failed, has_unflushed};
ghost use Rattle.streams.specs.Streams.{Writes};
ghost use Rattle.drills.specs.declared.fault.DrillFault.TheVariants.{OutOfMemory, WriteFailed};
ghost use Rattle.drills.specs.Lines.{entry as entry_line, head_told, receipt as receipt_line, receipt_told};
ghost use Rattle.drills.specs.Drills.{drill_in, drill_text, drill_told, list_lines, lists_told};
ghost use Rattle.drills.specs.Drills.{newline, numbered, trace_lines, traces_told};
ghost use Rattle.drills.specs.Parts.{CanBeRead, part_in, part_text, whole_part};
ghost use Rattle.drills.specs.Written.{WritesLines};

use crate::call_line::{write_entry, write_receipt};
use crate::fault::DrillFault;
use crate::line_text::{head_text, list_text, part_head_text, trace_text};
use crate::part::PartHead;
use node_calls::Receipt;
use packed_trace::Trace;
use std::alloc::Global;
use std::io;
use std::io::Write;
use streams::Watched;

// Writes a line, and the newline that ends it.
fn write_line<W: Write>(writer: &mut Watched<W>, mut text: String) -> Result<(), DrillFault>
    requires { has_failed writer.old ≡ false }
    ensures ok { OnOk result (Writes W.contents writer.old writer.new
        (string_bytes text ++ newline ∷ [])) }
    ensures write_failed { (result ≡ Err WriteFailed) ↔ (has_failed writer.new ≡ true) }
    ensures only { IfErr result (λ fault. (fault ≡ WriteFailed) ⊎ (fault ≡ OutOfMemory)) }
{
    text.push('\n')?;
    match writer.write_all(text.as_bytes()) {
        Ok(()) => Ok(()),
        Err(_) => Err(DrillFault::WriteFailed),
    }
}

// What came of a line that was written: if the writer failed, that.
fn written<W: Write>(writer: &Watched<W>, came: io::Result<()>) -> Result<(), DrillFault>
    ensures came { OnOk result (IsOk came) }
    ensures write_failed { (result ≡ Err WriteFailed) ↔ (has_failed writer.now ≡ true) }
    ensures only { IfErr result (λ fault. (fault ≡ WriteFailed) ⊎ (fault ≡ OutOfMemory)) }
{
    if writer.failed() {
        return Err(DrillFault::WriteFailed);
    }
    match came {
        Ok(()) => Ok(()),
        Err(_) => Err(DrillFault::OutOfMemory),
    }
}

// Writes the calls of a trace, each from where it lies.
fn write_calls<W: Write>(
    alloc: Global,
    trace: &Trace,
    writer: &mut Watched<W>,
) -> Result<(), DrillFault>
    requires { has_failed writer.old ≡ false }
    ensures ok { OnOk result (WritesLines W.contents writer.old writer.new
        (map entry_line trace.now.calls)) }
    ensures write_failed { (result ≡ Err WriteFailed) ↔ (has_failed writer.new ≡ true) }
    ensures only { IfErr result (λ fault. (fault ≡ WriteFailed) ⊎ (fault ≡ OutOfMemory)) }
{
    for index in 0..trace.len() {
        if let Some(call) = trace.at(index) {
            let came = write_entry(alloc, call, writer);
            written(writer, came)?;
        }
    }
    Ok(())
}

// Writes a node's trace.
fn write_trace<W: Write>(
    alloc: Global,
    node: u64,
    trace: &Trace,
    writer: &mut Watched<W>,
) -> Result<(), DrillFault>
    requires { has_failed writer.old ≡ false }
    ensures ok { OnOk result (WritesLines W.contents writer.old writer.new
        (trace_lines node trace.now.calls)) }
    ensures write_failed { (result ≡ Err WriteFailed) ↔ (has_failed writer.new ≡ true) }
    ensures only { IfErr result (λ fault. (fault ≡ WriteFailed) ⊎ (fault ≡ OutOfMemory)) }
{
    write_line(writer, trace_text(alloc, node)?)?;
    write_calls(alloc, trace, writer)
}

// Writes receipts, one behind the other.
fn write_receipts<W: Write>(
    alloc: Global,
    list: &[Receipt],
    writer: &mut Watched<W>,
) -> Result<(), DrillFault>
    requires { has_failed writer.old ≡ false }
    ensures ok { OnOk result (WritesLines W.contents writer.old writer.new
        (map receipt_line (map receipt_told list.now))) }
    ensures write_failed { (result ≡ Err WriteFailed) ↔ (has_failed writer.new ≡ true) }
    ensures only { IfErr result (λ fault. (fault ≡ WriteFailed) ⊎ (fault ≡ OutOfMemory)) }
{
    for receipt in list {
        let came = write_receipt(alloc, receipt, writer);
        written(writer, came)?;
    }
    Ok(())
}

// Writes a list of receipts.
fn write_list<W: Write>(
    alloc: Global,
    number: u64,
    list: &Vec<Receipt>,
    writer: &mut Watched<W>,
) -> Result<(), DrillFault>
    requires { has_failed writer.old ≡ false }
    ensures ok { OnOk result (WritesLines W.contents writer.old writer.new
        (list_lines number (map receipt_told list.now.items))) }
    ensures write_failed { (result ≡ Err WriteFailed) ↔ (has_failed writer.new ≡ true) }
    ensures only { IfErr result (λ fault. (fault ≡ WriteFailed) ⊎ (fault ≡ OutOfMemory)) }
{
    write_line(writer, list_text(alloc, number)?)?;
    write_receipts(alloc, list, writer)
}

fn write_traces<W: Write>(
    alloc: Global,
    traces: &[Trace],
    writer: &mut Watched<W>,
) -> Result<(), DrillFault>
    requires { has_failed writer.old ≡ false }
    ensures ok { OnOk result (WritesLines W.contents writer.old writer.new
        (numbered trace_lines 0 (traces_told traces.now))) }
    ensures write_failed { (result ≡ Err WriteFailed) ↔ (has_failed writer.new ≡ true) }
    ensures only { IfErr result (λ fault. (fault ≡ WriteFailed) ⊎ (fault ≡ OutOfMemory)) }
{
    for node in 0..traces.len() {
        write_trace(alloc, node as u64, &traces[node], writer)?;
    }
    Ok(())
}

fn write_lists<W: Write>(
    alloc: Global,
    lists: &[Vec<Receipt>],
    writer: &mut Watched<W>,
) -> Result<(), DrillFault>
    requires { has_failed writer.old ≡ false }
    ensures ok { OnOk result (WritesLines W.contents writer.old writer.new
        (numbered list_lines 0 (lists_told lists.now))) }
    ensures write_failed { (result ≡ Err WriteFailed) ↔ (has_failed writer.new ≡ true) }
    ensures only { IfErr result (λ fault. (fault ≡ WriteFailed) ⊎ (fault ≡ OutOfMemory)) }
{
    for number in 0..lists.len() {
        write_list(alloc, number as u64, &lists[number], writer)?;
    }
    Ok(())
}

/// Writes a drill: the traces of the nodes, in their order, and of each caller the receipts of its
/// calls, in their order. What is written reads back as the same traces and lists.
///
/// It is written line by line. After a fault a part of it may be written, which no clause tells. A
/// receipt with an index of 2^32 or more, which no line has, is refused as out of memory.
pub fn write_drill<W: Write>(
    alloc: Global,
    traces: &[Trace],
    lists: &[Vec<Receipt>],
    writer: &mut Watched<W>,
) -> Result<(), DrillFault>
    requires { has_failed writer.old ≡ false }
    ensures ok { OnOk result (Writes W.contents writer.old writer.new
        (drill_text (drill_told traces.now lists.now))) }
    ensures reads_back { OnOk result (drill_in (drill_text (drill_told traces.now lists.now))
        ≡ Ok (drill_told traces.now lists.now)) }
    // All that was written is flushed.
    ensures flushed { OnOk result (has_unflushed writer.new ≡ false) }
    ensures write_failed { (result ≡ Err WriteFailed) ↔ (has_failed writer.new ≡ true) }
    ensures only { IfErr result (λ fault. (fault ≡ WriteFailed) ⊎ (fault ≡ OutOfMemory)) }
{
    write_line(writer, head_text(alloc)?)?;
    write_traces(alloc, traces, writer)?;
    write_lists(alloc, lists, writer)?;
    match writer.flush() {
        Ok(()) => Ok(()),
        Err(_) => Err(DrillFault::WriteFailed),
    }
}

/// Writes a part: its head, and each call of its trace. What is written reads back as the same, with no
/// line cut, where the node is one of 1 to 32 and the calls are as many as its cap at most.
///
/// It is written line by line, and after a fault some of it may be written, which no clause tells.
pub fn write_part<W: Write>(
    alloc: Global,
    head: &PartHead,
    trace: &Trace,
    writer: &mut Watched<W>,
) -> Result<(), DrillFault>
    requires { has_failed writer.old ≡ false }
    ensures ok { OnOk result (Writes W.contents writer.old writer.new
        (part_text (head_told head.now) trace.now.calls)) }
    ensures reads_back { OnOk result (CanBeRead (head_told head.now) trace.now.calls
        → part_in (part_text (head_told head.now) trace.now.calls)
        ≡ Ok (whole_part (head_told head.now) trace.now.calls)) }
    // All that was written is flushed.
    ensures flushed { OnOk result (has_unflushed writer.new ≡ false) }
    ensures write_failed { (result ≡ Err WriteFailed) ↔ (has_failed writer.new ≡ true) }
    ensures only { IfErr result (λ fault. (fault ≡ WriteFailed) ⊎ (fault ≡ OutOfMemory)) }
{
    write_line(writer, part_head_text(alloc, head)?)?;
    write_calls(alloc, trace, writer)?;
    match writer.flush() {
        Ok(()) => Ok(()),
        Err(_) => Err(DrillFault::WriteFailed),
    }
}

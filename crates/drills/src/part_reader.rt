//! A part from a reader.

ghost use Rattle.std.specs.Prelude.{◌≡◌, ◌≢◌, ◌↔◌, ℕ, ◌∷◌, [], true, false, cond, length, nat_lt};
ghost use Rattle.std.specs.Prelude.{IfOk, Ok, Err, option_map};
ghost use Rattle.std.specs.Io.BufRead.{ends_with_byte, strip_last};
ghost use Rattle.std.specs.Io.Buffered.{reader_inner};
ghost use Rattle.streams.specs.Watched.{has_failed, inner_of};
ghost use Rattle.drills.specs.declared.fault.DrillFault.TheVariants.{BadLine, ReadFailed};
ghost use Rattle.drills.specs.declared.fault.DrillFault.TheVariants.{WriteFailed};
ghost use Rattle.drills.specs.Drills.{IsPut};
ghost use Rattle.drills.specs.Lines.{head_told, line_told, part_head};
ghost use Rattle.drills.specs.Parts.{IsPart, is_numbered, part_after, part_begun, part_grown};
ghost use Rattle.drills.specs.Parts.{part_in, part_of, with_cut, with_entry};
ghost use Rattle.drills.specs.Taken.{IfBytes};
ghost use Rattle.drills.specs.TakenEnded.{TakesNext};
ghost use Rattle.node_calls.specs.Told.{told};

use crate::fault::DrillFault;
use crate::line::{Line, line_in};
use crate::part::{Part, PartHead};
use crate::so_far::add_entry;
use node_calls::Entry;
use packed_trace::Trace;
use std::alloc::{AllocError, Global};
use std::io::{BufRead, BufReader, Read};
use streams::Watched;

/// What a reader of lines gives next.
#[derive(Clone, Copy)]
pub enum Next {
    /// A line that a newline ends.
    Line,
    /// No such line, and perhaps one that no newline ends.
    End { cut: bool },
}

// A line without the newline that ends it, and whether one does.
fn take_newline(line: &mut Vec<u8>) -> bool
    ensures ended { result ≡ ends_with_byte 10 line.old.items }
    ensures line { line.new.items ≡ strip_last 10 line.old.items }
{
    if line.last() == Some(&b'\n') {
        line.pop();
        true
    } else {
        false
    }
}

// What was taken up to a newline or the end, without the newline.
fn next_of(line: &mut Vec<u8>) -> Next
    ensures next { result ≡ cond (ends_with_byte 10 line.old.items) Next.Line (Next.End true) }
    ensures line { line.new.items ≡ strip_last 10 line.old.items }
{
    if take_newline(line) {
        Next::Line
    } else {
        Next::End { cut: true }
    }
}

// Takes the next line that a newline ends, without the newline.
fn next_ended<I: Read>(
    reader: &mut BufReader<Watched<I>>,
    line: &mut Vec<u8>,
) -> Result<Next, DrillFault>
    ensures taken { IfOk result (λ next.
        TakesNext I.remaining reader.old reader.new next line.new.items) }
    // A call that failed is told, also one that was made again.
    ensures read_failed { (result ≡ Err ReadFailed)
        ↔ (has_failed (reader_inner reader.new) ≡ true) }
    ensures no_line { (number : ℕ) → result ≢ Err (BadLine number) }
    ensures no_write { result ≢ Err WriteFailed }
{
    line.clear();
    let taken = reader.read_until(b'\n', line);
    if reader.get_ref().failed() {
        return Err(DrillFault::ReadFailed);
    }
    match taken {
        Ok(0) => Ok(Next::End { cut: false }),
        Ok(_) => Ok(next_of(line)),
        Err(_) => Err(DrillFault::OutOfMemory),
    }
}

fn is_numbered(head: &PartHead) -> bool
    ensures { result ≡ is_numbered (head_told head.now) }
{
    head.nodes <= 32 && head.node < head.nodes
}

// The part that begins with a head, where its node is one of the cluster's.
fn part_headed(alloc: Global, head: PartHead) -> Option<Part>
    ensures { option_map part_of result ≡ part_begun (part_head (head_told head)) }
{
    if !is_numbered(&head) {
        return None;
    }
    Some(Part {
        head,
        trace: Trace::new(alloc),
        cut: false,
    })
}

// The part that begins with a line, if one does.
fn part_begun(alloc: Global, line: Line) -> Option<Part>
    ensures { option_map part_of result ≡ part_begun (line_told line) }
{
    match line {
        Line::Part(head) => part_headed(alloc, head),
        Line::Head { .. }
        | Line::Trace { .. }
        | Line::Entry(_)
        | Line::List { .. }
        | Line::Receipt(_) => {
            drop(line);
            None
        }
    }
}

// Puts an entry behind a part, where its node accepts one more.
fn put_entry(part: &mut Part, entry: Entry) -> Result<bool, AllocError>
    ensures { IfOk result (λ put. IsPut put
        (with_entry (part_of part.old) (told entry)) (part_of part.new)) }
{
    if part.trace.len() as u64 >= part.head.cap {
        drop(entry);
        return Ok(false);
    }
    add_entry(&mut part.trace, entry)?;
    Ok(true)
}

// A part with a line more.
fn part_grown(mut part: Part, line: Line) -> Result<Option<Part>, AllocError>
    ensures { IfOk result (λ next. option_map part_of next
        ≡ part_grown (part_of part) (line_told line)) }
{
    match line {
        Line::Entry(entry) => {
            if put_entry(&mut part, entry)? {
                Ok(Some(part))
            } else {
                Ok(None)
            }
        }
        Line::Head { .. }
        | Line::Trace { .. }
        | Line::List { .. }
        | Line::Receipt(_)
        | Line::Part(_) => {
            drop(line);
            Ok(None)
        }
    }
}

// A part with a line more, or with its first one, where it can be read and stands in its place.
fn part_after(alloc: Global, so_far: Option<Part>, bytes: &[u8]) -> Result<Option<Part>, AllocError>
    ensures { IfOk result (λ next. option_map part_of next
        ≡ part_after (option_map part_of so_far) bytes.now) }
{
    let Some(line) = line_in(alloc, bytes)? else {
        return Ok(None);
    };
    match so_far {
        Some(part) => part_grown(part, line),
        None => Ok(part_begun(alloc, line)),
    }
}

// The part, where its first line was read, and whether its last one was cut.
fn ended_part(so_far: Option<Part>, cut: bool) -> Option<Part>
    ensures { option_map part_of result ≡ option_map (with_cut cut) (option_map part_of so_far) }
{
    let mut part = so_far?;
    part.cut = cut;
    Some(part)
}

/// Reads a part to its end, line by line: it may have any number of lines, each of any length. A last
/// line that no newline ends is left out, also where it could be read, and the part says so. A head
/// that isn't of one of 1 to 32 nodes is bad, and so is the first entry that is more than its cap. More
/// than 2^32 calls are out of memory.
pub fn read_part<I: Read>(
    alloc: Global,
    reader: &mut BufReader<Watched<I>>,
) -> Result<Part, DrillFault>
    // It is the one that the bytes are.
    ensures part { IfOk result (λ part. IfBytes I.remaining reader.old (λ bytes.
        IsPart bytes (part_of part))) }
    // The same as a function of the bytes, and the first line that is bad.
    ensures ok { IfOk result (λ part. IfBytes I.remaining reader.old (λ bytes.
        part_in bytes ≡ Ok (part_of part))) }
    ensures bad_line { (line : ℕ) → result ≡ Err (BadLine line) →
        IfBytes I.remaining reader.old (λ bytes. part_in bytes ≡ Err line) }
    // A failed read is told, and nothing else is told so.
    ensures read_failed { (result ≡ Err ReadFailed)
        ↔ (has_failed (reader_inner reader.new) ≡ true) }
    ensures no_write { result ≢ Err WriteFailed }
{
    let mut line = Vec::new(alloc);
    let mut so_far = None;
    for number in 1..u64::MAX {
        if let Next::End { cut } = next_ended(reader, &mut line)? {
            return ended_part(so_far, cut).ok_or(DrillFault::BadLine { line: number });
        }
        match part_after(alloc, so_far, &line)? {
            Some(next) => so_far = Some(next),
            None => return Err(DrillFault::BadLine { line: number }),
        }
    }
    // No reader has so many lines.
    Err(DrillFault::OutOfMemory)
}

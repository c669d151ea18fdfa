//! A node that goes on from a part: each of its calls is made again.

ghost use Rattle.std.specs.Prelude.{◌≡◌, ◌↔◌, ◌⊎◌, ◌<◌, ◌+◌, ◌-◌, ◌^◌, IfOk, IsTrue, OnOk, false, Err};
ghost use Rattle.std.specs.Prelude.{IfErr, None, true};
ghost use Rattle.std.specs.Io.BufRead.{strip_last};
ghost use Rattle.std.specs.Io.Buffered.{reader_inner};
ghost use Rattle.streams.specs.Watched.{has_failed};
ghost use Rattle.node_calls.specs.Told.{reply_told};
ghost use Rattle.drills.specs.Reading.{entry_in as entry_read};
ghost use Rattle.drills.specs.Taken.{IfBytes, bytes_left};
ghost use Rattle.part_keeper.specs.Journals.{AreAllRepeated, IsFaultOf, IsTaken};
ghost use Rattle.part_keeper.specs.Repeated.{IsOtherwise, IsRepeated, in_line, next_in};
ghost use Rattle.part_keeper.specs.Repeated.{with_line};

use crate::bounded_line::read_line;
use crate::fault::{LineFault, PartFault};
use drills::entry_in;
use node_core::{Entry, NodeFault, Reply};
use node_registry::{Label, Registry, Seat};
use std::alloc::Global;
use std::io::{BufReader, Read};
use std::sync::Wait;
use streams::Watched;

/// The most bytes of the line of a call, its newline among them.
pub const MOST_OF_LINE: u64 = 268_435_456;

/// How many calls are made again before the node forgets them.
const MOST_KEPT: u64 = 1024;

/// What a node that goes on has of its part: how many calls, and how many bytes their lines have.
#[derive(Clone, Copy, Debug, PartialEq, Eq)]
pub struct Repeated {
    pub calls: u64,
    pub bytes: u64,
}

// Whether an entry has these random draws, and this reply, to the byte.
fn is_answered(entry: &Entry, words: &[u32], reply: &Reply) -> bool
    ensures { IsTrue result ↔ ((entry.now.words.items ≡ words.now)
        × (reply_told entry.now.reply ≡ reply_told reply.now)) }
{
    entry.words.as_slice() == words && entry.reply.as_ref().is_same(reply.as_ref())
}

// What a refusal of a line's call is told as.
fn refused(fault: NodeFault) -> LineFault
    ensures memory { (result ≡ LineFault.OutOfMemory) ↔ (fault ≡ NodeFault.OutOfMemory) }
    ensures only { (result ≡ LineFault.OutOfMemory) ⊎ (result ≡ LineFault.Differs) }
{
    if fault == NodeFault::OutOfMemory {
        LineFault::OutOfMemory
    } else {
        LineFault::Differs
    }
}

/// Makes the call of a line again: where the line is that of a call, which the node accepts, and answers,
/// to the byte, as the line says. Else it says why not; the node may have made another call then.
pub fn repeat_call<L: Label, R: Wait>(
    rt: &R,
    alloc: Global,
    registry: &Registry<L>,
    seat: &mut Seat<L>,
    line: &[u8],
) -> Result<(), LineFault>
    ensures given { OnOk result (IsRepeated L.config L.seed seat.old.calls seat.new.calls
        line.now) }
    ensures no_call { result ≡ Err LineFault.NoCall → entry_read line.now ≡ None }
    ensures differs { result ≡ Err LineFault.Differs → IsOtherwise L.config L.seed line.now }
{
    let Some(entry) = entry_in(alloc, line)? else {
        return Err(LineFault::NoCall);
    };
    let Entry { ask, words, reply } = entry;
    let made = match registry.enter_owned(rt, alloc, seat, ask) {
        Ok(made) => made,
        Err(fault) => {
            drop(reply);
            return Err(refused(fault));
        }
    };
    let is_given = is_answered(&made.entry, words.as_slice(), &reply);
    drop(made);
    drop(reply);
    if is_given {
        Ok(())
    } else {
        Err(LineFault::Differs)
    }
}

// The same of the line of this number.
fn in_line(fault: LineFault, line: u64) -> PartFault
    ensures { result ≡ in_line fault line }
{
    match fault {
        LineFault::NoCall => PartFault::NoCall { line },
        LineFault::Differs => PartFault::Differs { line },
        LineFault::OutOfMemory => PartFault::OutOfMemory,
    }
}

impl Repeated {
    // With the call of a line more, and the bytes of that and of the newline that ends it.
    fn with(self, line: &[u8]) -> Repeated
        requires { self.calls < 2 ^ 64 - 1 }
        ensures { result ≡ with_line line.now self }
    {
        Repeated {
            calls: self.calls + 1,
            bytes: self
                .bytes
                .saturating_add(line.len() as u64)
                .saturating_add(1),
        }
    }
}

/// What a reader of lines gives next.
enum Next {
    /// A line, without the newline that ended it.
    Line,
    /// No line that a newline ends.
    End,
    TooLong,
}

// What was taken up to a newline, the end, or the most bytes of a line, without the newline.
fn next_of(line: &mut Vec<u8>) -> Next
    ensures next { result ≡ next_in line.old.items }
    ensures line { line.new.items ≡ strip_last 10 line.old.items }
{
    if line.last() == Some(&b'\n') {
        line.pop();
        Next::Line
    } else if line.len() as u64 >= MOST_OF_LINE {
        Next::TooLong
    } else {
        Next::End
    }
}

// Takes the next line.
fn take_line<I: Read>(
    reader: &mut BufReader<Watched<I>>,
    line: &mut Vec<u8>,
) -> Result<Next, PartFault>
    ensures taken { IfOk result (λ next. IfBytes I.remaining reader.old (λ bytes.
        IsTaken next line.new.items bytes (bytes_left I.remaining reader.new))) }
    ensures read_failed { (result ≡ Err PartFault.ReadFailed)
        ↔ (has_failed (reader_inner reader.new) ≡ true) }
    ensures only { IfErr result (λ fault.
        (fault ≡ PartFault.ReadFailed) ⊎ (fault ≡ PartFault.OutOfMemory)) }
{
    line.clear();
    read_line(reader, MOST_OF_LINE as usize, line)?;
    Ok(next_of(line))
}

/// Repeats the calls of a node's journal, of which a reader gives what follows the first line, and returns
/// how many these are and how many bytes their lines have. A last line without a newline isn't one. No
/// line is kept.
///
/// Errors: at the first line that has no call (`NoCall`), whose call the node rejects or answers otherwise
/// (`Differs`), or that is longer than `MOST_OF_LINE` (`TooLong`), counted from 1 with the journal's first
/// line; `ReadFailed` if the reader failed; `OutOfMemory`.
pub fn repeat_calls<L: Label, I: Read, R: Wait>(
    rt: &R,
    alloc: Global,
    registry: &Registry<L>,
    seat: &mut Seat<L>,
    reader: &mut BufReader<Watched<I>>,
) -> Result<Repeated, PartFault>
    requires { L.keeps ≡ false }
    ensures counted { IfOk result (λ r. seat.new.calls ≡ seat.old.calls + r.calls) }
    ensures repeated { IfOk result (λ r. IfBytes I.remaining reader.old (λ bytes.
        AreAllRepeated L.config L.seed seat.old.calls seat.new.calls bytes r)) }
    ensures fault { IfErr result (λ fault. IfBytes I.remaining reader.old (λ bytes.
        IsFaultOf L.config L.seed seat.old.calls bytes fault)) }
    ensures read_failed { (result ≡ Err PartFault.ReadFailed)
        ↔ (has_failed (reader_inner reader.new) ≡ true) }
{
    let mut line = Vec::new(alloc);
    let mut had = Repeated { calls: 0, bytes: 0 };
    // The first line of the part was read before.
    for number in 2..u64::MAX {
        match take_line(reader, &mut line)? {
            Next::Line => {}
            Next::End => return Ok(had),
            Next::TooLong => return Err(PartFault::TooLong { line: number }),
        }
        if let Err(fault) = repeat_call(rt, alloc, registry, seat, line.as_slice()) {
            return Err(in_line(fault, number));
        }
        had = had.with(line.as_slice());
        if had.calls % MOST_KEPT == 0 {
            drop(registry.give(rt, alloc, seat));
        }
    }
    // No reader has so many lines.
    Err(PartFault::OutOfMemory)
}

//! A recorded drill from a reader.

ghost use Rattle.std.specs.Prelude.{◌≡◌, ◌≢◌, ◌↔◌, ℕ, ◌∷◌, [], true, false, cond};
ghost use Rattle.std.specs.Prelude.{Some, IfOk, IfSome, Ok, Err, option_map};
ghost use Rattle.std.specs.Io.BufRead.{strip_last};
ghost use Rattle.std.specs.Io.Buffered.{reader_inner};
ghost use Rattle.streams.specs.Watched.{has_failed, inner_of};
ghost use Rattle.drills.specs.declared.fault.DrillFault.TheVariants.{BadLine, ReadFailed};
ghost use Rattle.drills.specs.declared.fault.DrillFault.TheVariants.{WriteFailed};
ghost use Rattle.drills.specs.Drills.{drill_in, drill_of, lines_in};
ghost use Rattle.drills.specs.Grammar.{IsDrill, IsFirstBad};
ghost use Rattle.drills.specs.Taken.{TakesLine, IfBytes};

use crate::drill::Drill;
use crate::fault::DrillFault;
use crate::so_far::{SoFar, after_text};
use std::alloc::Global;
use std::io::{BufRead, BufReader, Read};
use streams::Watched;

// A line without the newline that ends it, if one does.
fn drop_newline(line: &mut Vec<u8>)
    ensures { line.new.items ≡ strip_last 10 line.old.items }
{
    if line.last() == Some(&b'\n') {
        line.pop();
    }
}

// Takes the next line, without its newline, and says whether there was one.
fn next_line<I: Read>(
    reader: &mut BufReader<Watched<I>>,
    line: &mut Vec<u8>,
) -> Result<bool, DrillFault>
    ensures taken { IfOk result (λ more.
        TakesLine I.remaining reader.old reader.new more line.new.items) }
    // A call that failed is told, also one that was made again.
    ensures read_failed { (result ≡ Err ReadFailed)
        ↔ (has_failed (reader_inner reader.new) ≡ true) }
    ensures no_line { (number : ℕ) → result ≢ Err (BadLine number) }
    ensures no_write { result ≢ Err WriteFailed }
{
    line.clear();
    let taken = reader.read_until(b'\n', line);
    if reader.get_ref().failed() {
        return Err(DrillFault::ReadFailed);
    }
    match taken {
        Ok(0) => Ok(false),
        Ok(_) => {
            drop_newline(line);
            Ok(true)
        }
        Err(_) => Err(DrillFault::OutOfMemory),
    }
}

// The drill, where its first line was read.
fn whole(so_far: Option<SoFar>) -> Option<Drill>
    ensures { result ≡ option_map (λ so_far. so_far.drill) so_far }
{
    Some(so_far?.drill)
}

/// Reads a drill to its end, line by line: it may have any number of lines, each of any length.
pub fn read_drill<I: Read>(
    alloc: Global,
    reader: &mut BufReader<Watched<I>>,
) -> Result<Drill, DrillFault>
    // It is the one that the bytes are.
    ensures drill { IfOk result (λ drill. IfBytes I.remaining reader.old (λ bytes.
        IsDrill bytes (drill_of drill))) }
    // The line is the first with which the lines so far are no drill.
    ensures first_bad { (line : ℕ) → result ≡ Err (BadLine line) →
        IfBytes I.remaining reader.old (λ bytes. IsFirstBad (lines_in bytes) line) }
    // The same as a function of the bytes.
    ensures ok { IfOk result (λ drill. IfBytes I.remaining reader.old (λ bytes.
        drill_in bytes ≡ Ok (drill_of drill))) }
    ensures bad_line { (line : ℕ) → result ≡ Err (BadLine line) →
        IfBytes I.remaining reader.old (λ bytes. drill_in bytes ≡ Err line) }
    // A failed read is told, and nothing else is told so.
    ensures read_failed { (result ≡ Err ReadFailed)
        ↔ (has_failed (reader_inner reader.new) ≡ true) }
    ensures no_write { result ≢ Err WriteFailed }
{
    let mut line = Vec::new(alloc);
    let mut so_far = None;
    for number in 1..u64::MAX {
        if !next_line(reader, &mut line)? {
            return whole(so_far).ok_or(DrillFault::BadLine { line: number });
        }
        match after_text(alloc, so_far, &line)? {
            Some(next) => so_far = Some(next),
            None => return Err(DrillFault::BadLine { line: number }),
        }
    }
    // No reader has so many lines.
    Err(DrillFault::OutOfMemory)
}

//! A line of a reader, which is read up to a number of bytes.

ghost use Rattle.std.specs.Prelude.{◌≡◌, ◌≢◌, ◌↔◌, ◌⊎◌, ◌<◌, ◌≤◌, ◌-◌, All, length, take};
ghost use Rattle.std.specs.Prelude.{Err, IfErr, IfSome, Ok, OnOk, OnSome, false, true};
ghost use Rattle.std.specs.Io.{IsEmptyOrEndsWith, StartsWith, StopsAt, appended_bytes};
ghost use Rattle.std.specs.Io.Buffered.{reader_inner};
ghost use Rattle.std.specs.Io.KnownBytes.{Consumes, IsAtEnd};
ghost use Rattle.streams.specs.Watched.{has_failed};
ghost use Rattle.drills.specs.Taken.{IfBytes, bytes_left};
ghost use Rattle.part_keeper.specs.Journals.{ReadsLine};

use crate::fault::PartFault;
use std::io;
use std::io::{BufRead, BufReader, Read};
use streams::Watched;

// How many bytes there are through the first newline, or in all.
fn len_through(bytes: &[u8]) -> usize
    ensures bound { result ≤ length bytes.now }
    ensures some { 0 < length bytes.now → 0 < result }
    ensures before { All (λ x. x ≢ 10) (take (result - 1) bytes.now) }
{
    let mut i = 0;
    while i < bytes.len() {
        if bytes[i] == b'\n' {
            return i + 1;
        }
        i += 1;
    }
    i
}

// Appends the bytes that a reader has ready, through the first newline and `most` at most. Returns
// whether the line goes on: neither a newline nor the end was met.
fn append_ready<B: BufRead>(reader: &mut B, most: usize, line: &mut Vec<u8>) -> io::Result<bool>
    requires { 0 < most }
    ensures appends { StartsWith line.new.items line.old.items }
    ensures bytes { Consumes (B.remaining reader.old) (B.remaining reader.new)
        (appended_bytes line.old.items line.new.items) }
    ensures within { length (appended_bytes line.old.items line.new.items) ≤ most }
    ensures stops { StopsAt (appended_bytes line.old.items line.new.items) 10 }
    ensures goes_on { result ≡ Ok true
        → All (λ x. x ≢ 10) (appended_bytes line.old.items line.new.items) }
    ensures grows { result ≡ Ok true → 0 < length (appended_bytes line.old.items line.new.items) }
    ensures done { result ≡ Ok false
        → IsEmptyOrEndsWith (appended_bytes line.old.items line.new.items) 10 }
    ensures end { result ≡ Ok false → length (appended_bytes line.old.items line.new.items) ≡ 0
        → OnSome (B.remaining reader.old) (IsAtEnd (B.remaining reader.new)) }
{
    let ready = reader.fill_buf()?;
    let end = len_through(&ready[..ready.len().min(most)]);
    line.extend_from_slice(&ready[..end])?;
    let goes_on = end > 0 && ready[end - 1] != b'\n';
    reader.consume(end);
    Ok(goes_on)
}

// Appends the bytes that a reader has, through the first newline and `most` at most.
fn append_line<B: BufRead>(reader: &mut B, most: usize, line: &mut Vec<u8>) -> io::Result<()>
    ensures { OnOk result (IfSome (B.remaining reader.old) (λ bytes.
        ReadsLine most line.old.items line.new.items bytes (B.remaining reader.new))) }
{
    let mut left = most;
    while left > 0 {
        let len = line.len();
        if !append_ready(reader, left, line)? {
            return Ok(());
        }
        left -= line.len() - len;
    }
    Ok(())
}

/// Appends the bytes that a reader has, through the first newline and `most` at most.
///
/// Errors: `ReadFailed` if the reader failed, and `OutOfMemory` if the line couldn't grow.
pub fn read_line<I: Read>(
    reader: &mut BufReader<Watched<I>>,
    most: usize,
    line: &mut Vec<u8>,
) -> Result<(), PartFault>
    ensures read { OnOk result (IfBytes I.remaining reader.old (λ bytes.
        ReadsLine most line.old.items line.new.items bytes (bytes_left I.remaining reader.new))) }
    ensures read_failed { (result ≡ Err PartFault.ReadFailed)
        ↔ (has_failed (reader_inner reader.new) ≡ true) }
    ensures only { IfErr result (λ fault.
        (fault ≡ PartFault.ReadFailed) ⊎ (fault ≡ PartFault.OutOfMemory)) }
{
    let read = append_line(reader, most, line);
    if reader.get_ref().failed() {
        return Err(PartFault::ReadFailed);
    }
    match read {
        Ok(()) => Ok(()),
        Err(_) => Err(PartFault::OutOfMemory),
    }
}

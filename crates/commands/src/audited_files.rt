//! The audit of files.

ghost use Rattle.std.specs.Prelude.{◌≡◌, ◌≢◌, ◌↔◌, ◌⊎◌, IfOk, IfErr, Err, true, false};
ghost use Rattle.std.specs.Process.{exit_status};
ghost use Rattle.streams.specs.Watched.{has_failed, has_unflushed};
ghost use Rattle.drills.specs.declared.fault.DrillFault.TheVariants.{WriteFailed};
ghost use Rattle.commands.specs.declared.audit_refused.AuditRefused.TheVariants.{Drill};
ghost use Rattle.commands.specs.Audited.{SaysOfAFile, SaysOfSomeParts};
ghost use Rattle.commands.specs.Formats.{answer_format};
ghost use Rattle.commands.specs.Statuses.{OnStatus};

use crate::advice::{advice_on_audit, missing_of};
use crate::audit_refused::AuditRefused;
use crate::auditing::{audit_drill, audit_parts};
use crate::finish::{finish_audit, refuse_missing};
use crate::formats::answer_format;
use crate::short_lines::ShortLines;
use answers::Format;
use drills::{DrillFault, Part, part_head_in, read_part};
use scripts::Watched;
use std::alloc::{AllocError, AllocGlobal, Global};
use std::fs;
use std::fs::Files;
use std::io::{BufRead, BufReader, Read, Write};
use std::process::ExitCode;

// The first line of a reader, with the newline that ends it, if one does.
fn first_line<I: Read>(
    alloc: Global,
    reader: &mut BufReader<Watched<I>>,
) -> Result<Vec<u8>, DrillFault>
    ensures { result ≢ Err WriteFailed }
{
    let mut line = Vec::new(alloc);
    let taken = reader.read_until(b'\n', &mut line);
    if reader.get_ref().failed() {
        return Err(DrillFault::ReadFailed);
    }
    match taken {
        Ok(_) => Ok(line),
        Err(_) => Err(DrillFault::OutOfMemory),
    }
}

// Whether a part begins with this line.
fn begins_part(alloc: Global, line: &[u8]) -> Result<bool, AllocError> {
    let line = line.strip_suffix(b"\n").unwrap_or(line);
    Ok(part_head_in(alloc, line)?.is_some())
}

// The first line of a reader, and whether a part begins with it.
pub fn first_of<I: Read>(
    alloc: Global,
    reader: &mut BufReader<Watched<I>>,
) -> Result<(Vec<u8>, bool), AuditRefused>
    ensures { IfErr result (λ fault. fault ≢ Drill WriteFailed) }
{
    let first = match first_line(alloc, reader) {
        Ok(first) => first,
        Err(fault) => return Err(AuditRefused::Drill { fault }),
    };
    let is_part = begins_part(alloc, &first)?;
    Ok((first, is_part))
}

// The part that a reader gives.
pub fn part_from<I: Read + Drop>(alloc: Global, input: I) -> Result<Part, DrillFault> {
    let Ok(mut reader) = BufReader::new(alloc, Watched::new(input)) else {
        return Err(DrillFault::OutOfMemory);
    };
    read_part(alloc, &mut reader)
}

// A list of the one part in a file.
pub fn alone(alloc: Global, part: Part) -> Result<Vec<Part>, AllocError> {
    let mut parts = Vec::new(alloc);
    parts.push(part)?;
    Ok(parts)
}

// Audits the part that a reader gives.
fn audit_part<I: Read + Drop, O: Write>(
    alloc: Global,
    format: Format,
    input: I,
    writer: &mut Watched<O>,
) -> Result<bool, AuditRefused>
    requires { has_failed writer.old ≡ false }
    ensures ok { IfOk result (λ yes. SaysOfSomeParts format yes O.contents writer.old writer.new) }
    ensures flushed { IfOk result (λ yes. has_unflushed writer.new ≡ false) }
    ensures write_failed { (result ≡ Err (Drill WriteFailed)) ↔ (has_failed writer.new ≡ true) }
    ensures unwritten { IfErr result (λ fault. fault ≢ Drill WriteFailed
        → writer.new ≡ writer.old) }
{
    match part_from(alloc, input) {
        Ok(part) => audit_parts(alloc, format, alone(alloc, part)?, writer),
        Err(fault) => Err(AuditRefused::Part { file: 0, fault }),
    }
}

// Audits the drill that a reader gives.
fn audit_whole<I: Read + Drop, O: Write>(
    alloc: Global,
    format: Format,
    input: I,
    writer: &mut Watched<O>,
) -> Result<bool, AuditRefused>
    requires { has_failed writer.old ≡ false }
    ensures ok { IfOk result (λ yes. SaysOfAFile format yes O.contents writer.old writer.new) }
    ensures flushed { IfOk result (λ yes. has_unflushed writer.new ≡ false) }
    ensures write_failed { (result ≡ Err (Drill WriteFailed)) ↔ (has_failed writer.new ≡ true) }
    ensures unwritten { IfErr result (λ fault. fault ≢ Drill WriteFailed
        → writer.new ≡ writer.old) }
{
    let Ok(mut reader) = BufReader::new(alloc, Watched::new(input)) else {
        return Err(AuditRefused::from(AllocError));
    };
    match audit_drill(alloc, format, &mut reader, writer) {
        Ok(yes) => Ok(yes),
        Err(fault) => Err(AuditRefused::Drill { fault }),
    }
}

// Audits the drill or the part in what is read, which its first line tells.
fn audit_input<I: Read + Drop, O: Write>(
    alloc: Global,
    format: Format,
    input: I,
    writer: &mut Watched<O>,
) -> Result<bool, AuditRefused>
    requires { has_failed writer.old ≡ false }
    ensures ok { IfOk result (λ yes. SaysOfAFile format yes O.contents writer.old writer.new) }
    ensures flushed { IfOk result (λ yes. has_unflushed writer.new ≡ false) }
    ensures write_failed { (result ≡ Err (Drill WriteFailed)) ↔ (has_failed writer.new ≡ true) }
    ensures unwritten { IfErr result (λ fault. fault ≢ Drill WriteFailed
        → writer.new ≡ writer.old) }
{
    let Ok(mut reader) = BufReader::new(alloc, Watched::new(ShortLines::new(input))) else {
        return Err(AuditRefused::from(AllocError));
    };
    let (first, is_part) = first_of(alloc, &mut reader)?;
    let whole = first.as_slice().chain(&mut reader);
    if is_part {
        audit_part(alloc, format, whole, writer)
    } else {
        audit_whole(alloc, format, whole, writer)
    }
}

// Audits the drill or the part in a file, or on standard input where the path is `-`.
fn audit_file<R: Files + Input, O: Write>(
    rt: &R,
    alloc: Global,
    format: Format,
    path: &str,
    writer: &mut Watched<O>,
) -> Result<bool, AuditRefused>
    requires { has_failed writer.old ≡ false }
    ensures ok { IfOk result (λ yes. SaysOfAFile format yes O.contents writer.old writer.new) }
    ensures flushed { IfOk result (λ yes. has_unflushed writer.new ≡ false) }
    ensures write_failed { (result ≡ Err (Drill WriteFailed)) ↔ (has_failed writer.new ≡ true) }
    ensures unwritten { IfErr result (λ fault. fault ≢ Drill WriteFailed
        → writer.new ≡ writer.old) }
{
    if path == "-" {
        return audit_input(alloc, format, rt.reader(), writer);
    }
    match fs::open(rt, path) {
        Ok(file) => audit_input(alloc, format, file, writer),
        Err(_) => Err(AuditRefused::Drill {
            fault: DrillFault::ReadFailed,
        }),
    }
}

// The part in a file, or on standard input where the path is `-`.
fn part_in_file<R: Files + Input>(rt: &R, alloc: Global, path: &str) -> Result<Part, DrillFault> {
    if path == "-" {
        return part_from(alloc, ShortLines::new(rt.reader()));
    }
    match fs::open(rt, path) {
        Ok(file) => part_from(alloc, ShortLines::new(file)),
        Err(_) => Err(DrillFault::ReadFailed),
    }
}

// The parts in files, in their order.
pub fn parts_in_files<R: Files + Input>(
    rt: &R,
    alloc: Global,
    paths: &[&str],
) -> Result<Vec<Part>, AuditRefused>
    ensures { IfErr result (λ fault. fault ≢ Drill WriteFailed) }
{
    let mut parts = Vec::new(alloc);
    for file in 0..paths.len() {
        match part_in_file(rt, alloc, paths[file]) {
            Ok(part) => parts.push(part)?,
            Err(fault) => return Err(AuditRefused::Part { file, fault }),
        }
    }
    Ok(parts)
}

/// Audits the drill or the part in a file, or the parts in several, and writes what the audit says.
/// Answers whether it is a yes. The path `-` is standard input.
pub fn audit_files<R: Files + Input, O: Write>(
    rt: &R,
    alloc: Global,
    format: Format,
    paths: &[&str],
    writer: &mut Watched<O>,
) -> Result<bool, AuditRefused>
    requires { has_failed writer.old ≡ false }
    // Of a file's bytes nothing is known; it is an audit of some drill, or of some parts, and nothing
    // else is written.
    ensures ok { IfOk result (λ yes. SaysOfAFile format yes O.contents writer.old writer.new) }
    ensures flushed { IfOk result (λ yes. has_unflushed writer.new ≡ false) }
    ensures write_failed { (result ≡ Err (Drill WriteFailed)) ↔ (has_failed writer.new ≡ true) }
    // After any other fault the writer is as it was.
    ensures unwritten { IfErr result (λ fault. fault ≢ Drill WriteFailed
        → writer.new ≡ writer.old) }
{
    if let [path] = paths {
        return audit_file(rt, alloc, format, path, writer);
    }
    let parts = parts_in_files(rt, alloc, paths)?;
    audit_parts(alloc, format, parts, writer)
}

/// Audits the drill or the part in a file, or the parts in several, and writes what the audit says, as
/// JSON objects where these are wanted. The path `-` is standard input.
pub fn audit<R: Eprint + AllocGlobal + Files + Input, O: Write>(
    rt: &R,
    paths: &[&str],
    json: bool,
    writer: &mut Watched<O>,
) -> anyhow::Result<ExitCode>
    requires { has_failed writer.old ≡ false }
    ensures done { OnStatus result 0 (SaysOfAFile (answer_format json) true
        O.contents writer.old writer.new) }
    ensures status { IfOk result (λ code. (exit_status code ≡ 0) ⊎ (exit_status code ≡ 1)) }
{
    if let Some(path) = missing_of(rt, paths) {
        return refuse_missing(rt, path);
    }
    let audited = audit_files(rt, rt.alloc(), answer_format(json), paths, writer);
    let advice = advice_on_audit(rt.alloc(), paths, &audited);
    finish_audit(rt, audited, &advice)
}

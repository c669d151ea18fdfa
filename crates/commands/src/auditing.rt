//! The audit of a recorded drill, and of parts.

ghost use Rattle.std.specs.Prelude.{◌≡◌, ◌≢◌, ◌↔◌, ◌++◌, ℕ, map, min, length, IfOk, IfErr, OnOk};
ghost use Rattle.std.specs.Prelude.{None, Ok, Err, true, false};
ghost use Rattle.std.specs.Io.Buffered.{reader_inner};
ghost use Rattle.audit.specs.Answers.{IsAudited};
ghost use Rattle.streams.specs.Watched.{has_failed, has_unflushed};
ghost use Rattle.drills.specs.declared.fault.DrillFault.TheVariants.{BadLine, ReadFailed, WriteFailed};
ghost use Rattle.drills.specs.Drills.{drill_in, drill_of};
ghost use Rattle.drills.specs.Taken.{IfBytes, bytes_left};
ghost use Rattle.drills.specs.declared.join_fault.JoinFault.{JoinFault};
ghost use Rattle.drills.specs.Joined.{joined_of};
ghost use Rattle.drills.specs.Parts.{part_of};
ghost use Rattle.commands.specs.Audited.{AreToldOf, IsToldOf, SaysOfParts, SaysVerdict};
ghost use Rattle.commands.specs.Audited.{cuts_below, cuts_text, is_cut_at, nodes_in};

use crate::audit_refused::AuditRefused;
use answers::{Answer, Format, Printed};
use audit::{AuditFault, AuditYes, audit};
use drills::{Drill, DrillFault, Part, joined, read_drill};
use scripts::{Watched, write_text};
use std::alloc::{AllocError, Global};
use std::io::{BufReader, Read, Write};

// How many nodes have so many traces. No cluster has 255 of them.
fn nodes_of(traces: usize) -> u8
    ensures { result ≡ min traces 255 }
{
    traces.min(255) as u8
}

// The verdict of an audit of a drill. Out of memory is none.
pub fn judged(alloc: Global, drill: &Drill) -> Result<Result<AuditYes, AuditFault>, DrillFault>
    ensures audited { IfOk result (IsAudited (min (length drill.now.traces.items) 255)
        drill.now.traces.items drill.now.lists.items) }
    ensures ended { IfOk result (λ verdict. verdict ≢ Err AuditFault.OutOfMemory) }
    ensures err { IfErr result (λ fault. fault ≡ DrillFault.OutOfMemory) }
{
    let nodes = nodes_of(drill.traces.len());
    match audit(alloc, nodes, &drill.traces, &drill.lists) {
        Err(AuditFault::OutOfMemory) => Err(DrillFault::OutOfMemory),
        verdict => Ok(verdict),
    }
}

// What an audit says of a drill, and whether that is a yes.
fn told_of(alloc: Global, format: Format, drill: &Drill) -> Result<(Printed, bool), DrillFault>
    ensures told { IfOk result (λ told. IsToldOf format drill.now.traces.items
        drill.now.lists.items told.1 told.0.bytes) }
    ensures err { IfErr result (λ fault. fault ≡ DrillFault.OutOfMemory) }
{
    let verdict = judged(alloc, drill)?;
    let mut printed = Printed::new(alloc, format);
    printed.put_verdict(alloc, &verdict)?;
    Ok((printed, verdict.is_ok()))
}

/// Audits the drill that a reader gives, writes what the audit says, and answers whether it is a yes.
pub fn audit_drill<I: Read, O: Write>(
    alloc: Global,
    format: Format,
    reader: &mut BufReader<Watched<I>>,
    writer: &mut Watched<O>,
) -> Result<bool, DrillFault>
    requires { has_failed writer.old ≡ false }
    // It is an audit of the drill that the bytes are, and nothing else is written.
    ensures ok { IfOk result (λ yes. SaysVerdict format
        (bytes_left I.remaining reader.old) yes O.contents writer.old writer.new) }
    ensures flushed { IfOk result (λ yes. has_unflushed writer.new ≡ false) }
    // The line is the first that is bad.
    ensures bad_line { (line : ℕ) → result ≡ Err (BadLine line) →
        IfBytes I.remaining reader.old (λ bytes. drill_in bytes ≡ Err line) }
    ensures read_failed { (result ≡ Err ReadFailed)
        ↔ (has_failed (reader_inner reader.new) ≡ true) }
    ensures write_failed { (result ≡ Err WriteFailed) ↔ (has_failed writer.new ≡ true) }
    // After any other fault the writer is as it was.
    ensures unwritten { IfErr result (λ fault. fault ≢ WriteFailed → writer.new ≡ writer.old) }
{
    let drill = read_drill(alloc, reader)?;
    let (printed, yes) = told_of(alloc, format, &drill)?;
    match write_text(writer, &printed.into_bytes()) {
        Ok(()) => Ok(yes),
        Err(_) => Err(DrillFault::WriteFailed),
    }
}

// Whether a part of a node was cut.
fn is_cut_at(parts: &[Part], node: u8) -> bool
    ensures { result ≡ is_cut_at node (map part_of parts.now) }
{
    for part in parts {
        if part.cut && part.head.node == node {
            return true;
        }
    }
    false
}

// Adds an answer for each of so many nodes whose part was cut.
fn put_cuts(
    alloc: Global,
    printed: &mut Printed,
    parts: &[Part],
    nodes: u8,
) -> Result<(), AllocError>
    ensures { OnOk result (printed.new.bytes ≡ printed.old.bytes
        ++ cuts_below printed.old.format nodes (map part_of parts.now)) }
{
    for node in 0..nodes {
        if is_cut_at(parts, node) {
            printed.put(alloc, Answer::Cut(node))?;
        }
    }
    Ok(())
}

// Of how many nodes the first part says that there are.
fn nodes_in(parts: &[Part]) -> u8
    ensures { result ≡ nodes_in (map part_of parts.now) }
{
    match parts.first() {
        Some(first) => first.head.nodes,
        None => 0,
    }
}

// An answer for each node whose part was cut, in the order of the nodes.
fn cuts_text(alloc: Global, format: Format, parts: &[Part]) -> Result<Vec<u8>, AllocError>
    ensures { IfOk result (λ text. text.items ≡ cuts_text format (map part_of parts.now)) }
{
    let mut printed = Printed::new(alloc, format);
    put_cuts(alloc, &mut printed, parts, nodes_in(parts))?;
    Ok(printed.into_bytes())
}

// The drill that parts join to.
pub fn drill_of_parts(alloc: Global, parts: Vec<Part>) -> Result<Drill, AuditRefused>
    ensures joined { IfOk result (λ drill.
        joined_of (map part_of parts.items) ≡ Ok (drill_of drill)) }
    ensures refused { (fault : JoinFault) → result ≡ Err (AuditRefused.Join fault)
        → fault ≢ JoinFault.OutOfMemory
        → joined_of (map part_of parts.items) ≡ Err fault }
    ensures only { IfErr result (λ fault. fault ≢ AuditRefused.Drill WriteFailed) }
{
    match joined(alloc, parts) {
        Ok(drill) => Ok(drill),
        Err(fault) => Err(AuditRefused::Join { fault }),
    }
}

// What an audit says of the drill that parts join to, and behind it which parts were cut; and whether it
// says yes.
fn told_of_parts(
    alloc: Global,
    format: Format,
    parts: Vec<Part>,
) -> Result<(Printed, bool), AuditRefused>
    ensures told { IfOk result (λ told.
        AreToldOf format (map part_of parts.items) told.1 told.0.bytes) }
    ensures refused { (fault : JoinFault) → result ≡ Err (AuditRefused.Join fault)
        → fault ≢ JoinFault.OutOfMemory
        → joined_of (map part_of parts.items) ≡ Err fault }
    ensures only { IfErr result (λ fault. fault ≢ AuditRefused.Drill WriteFailed) }
{
    let cuts = cuts_text(alloc, format, &parts)?;
    let drill = drill_of_parts(alloc, parts)?;
    let (mut printed, is_yes) = match told_of(alloc, format, &drill) {
        Ok(told) => told,
        Err(fault) => return Err(AuditRefused::Drill { fault }),
    };
    printed.put_bytes(&cuts)?;
    Ok((printed, is_yes))
}

/// Audits the drill that parts join to, writes what the audit says and behind it which parts were cut,
/// and answers whether it is a yes.
pub fn audit_parts<O: Write>(
    alloc: Global,
    format: Format,
    parts: Vec<Part>,
    writer: &mut Watched<O>,
) -> Result<bool, AuditRefused>
    requires { has_failed writer.old ≡ false }
    // It is an audit of the drill that they join to, and nothing else is written.
    ensures ok { IfOk result (λ yes. SaysOfParts format (map part_of parts.items)
        yes O.contents writer.old writer.new) }
    ensures flushed { IfOk result (λ yes. has_unflushed writer.new ≡ false) }
    // Where they don't join, it is for that reason.
    ensures refused { (fault : JoinFault) → result ≡ Err (AuditRefused.Join fault)
        → fault ≢ JoinFault.OutOfMemory
        → joined_of (map part_of parts.items) ≡ Err fault }
    ensures write_failed { (result ≡ Err (AuditRefused.Drill WriteFailed))
        ↔ (has_failed writer.new ≡ true) }
    // After any other fault the writer is as it was.
    ensures unwritten { IfErr result (λ fault. fault ≢ AuditRefused.Drill WriteFailed
        → writer.new ≡ writer.old) }
{
    let (printed, is_yes) = told_of_parts(alloc, format, parts)?;
    match write_text(writer, &printed.into_bytes()) {
        Ok(()) => Ok(is_yes),
        Err(_) => Err(AuditRefused::Drill {
            fault: DrillFault::WriteFailed,
        }),
    }
}

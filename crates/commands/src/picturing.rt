//! The picture of a recorded drill, and of parts.

ghost use Rattle.std.specs.Prelude.{◌≡◌, ◌≢◌, ◌≤◌, ◌↔◌, ◌⊎◌, take, false, true, length, map, IfOk, IfErr};
ghost use Rattle.std.specs.Prelude.{OnOk, Err, string_bytes};
ghost use Rattle.std.specs.Process.{exit_status};
ghost use Rattle.streams.specs.Watched.{has_failed, has_unflushed};
ghost use Rattle.drills.specs.declared.fault.DrillFault.TheVariants.{WriteFailed};
ghost use Rattle.drill_picture.specs.Counted.{counted_told};
ghost use Rattle.commands.specs.Drawn.{AreAsked, DrawsDrill, DrawsSome, Shows};
ghost use Rattle.commands.specs.Drawn.{headline_text, wrong_of};
ghost use Rattle.commands.specs.Statuses.{OnStatus};

use crate::advice::{advice_on_audit, missing_of};
use crate::audit_refused::AuditRefused;
use crate::audited_files::{alone, first_of, part_from, parts_in_files};
use crate::auditing::{drill_of_parts, judged};
use crate::charted::budgets_of;
use crate::finish::{finish_audit, refuse_missing};
use crate::short_lines::ShortLines;
use audit::{AuditFault, AuditYes};
use drill_picture::{Counted, counted_terms, picture, picture_lines};
use drills::{Drill, DrillFault, read_drill};
use packed_trace::Trace;
use scripts::{Watched, write_text};
use std::alloc::{AllocError, AllocGlobal, Global};
use std::fmt::Write as _;
use std::fs;
use std::fs::Files;
use std::io::{BufReader, Read, Write};
use std::process::ExitCode;

// The most traces that are drawn: no cluster has so many nodes.
const MOST_TRACES: usize = 256;

// What the heading says of a drill.
fn headline(alloc: Global, verdict: &Result<AuditYes, AuditFault>) -> Result<String, AllocError>
    ensures { IfOk result (λ text. string_bytes text ≡ headline_text verdict.now) }
{
    let mut text = String::new(alloc);
    match verdict {
        Ok(_) => text.push_str("audit yes")?,
        Err(fault) => write!(text, "audit no {fault}")?,
    }
    Ok(text)
}

// The call that a node doesn't reply so, if that is what an audit found.
fn wrong_of(verdict: &Result<AuditYes, AuditFault>) -> Option<(u8, u32)>
    ensures { result ≡ wrong_of verdict.now }
{
    match verdict {
        Err(AuditFault::WrongReply { node, index }) => Some((*node, *index)),
        Err(
            AuditFault::BadConfig
            | AuditFault::Stuck { .. }
            | AuditFault::ReceiptDiffers
            | AuditFault::ReceiptTwice
            | AuditFault::ReceiptMissing
            | AuditFault::OutOfMemory
            | AuditFault::OutOfOrder { .. },
        ) => None,
        Ok(_) => None,
    }
}

// The traces that are drawn.
fn drawn_traces(traces: &[Trace]) -> &[Trace]
    ensures first { result.now ≡ take 256 traces.now }
    ensures few { length result.now ≤ 256 }
{
    if traces.len() > MOST_TRACES {
        &traces[..MOST_TRACES]
    } else {
        traces
    }
}

// What the calls counted, where an audit doesn't say yes.
fn counted_of(
    alloc: Global,
    traces: &[Trace],
    verdict: &Result<AuditYes, AuditFault>,
) -> Result<Vec<Counted>, AllocError>
    requires { length traces.now ≤ 256 }
    ensures { IfOk result (λ found.
        AreAsked traces.now verdict.now (map counted_told found.items)) }
{
    match verdict {
        Ok(_) => Ok(Vec::new(alloc)),
        Err(_) => counted_terms(alloc, traces),
    }
}

// The picture of traces as an SVG, below what is said of them.
fn drawn(
    alloc: Global,
    traces: &[Trace],
    verdict: &Result<AuditYes, AuditFault>,
    said: &str,
) -> Result<String, AllocError>
    requires few { length traces.now ≤ 256 }
    requires said { said.now ≡ headline_text verdict.now }
    ensures { IfOk result (λ text. Shows false traces.now verdict.now (string_bytes text)) }
{
    let counted = counted_of(alloc, traces, verdict)?;
    let budgets = budgets_of(alloc, verdict, &counted)?;
    picture(alloc, traces, said, wrong_of(verdict), &budgets)
}

// The picture of traces, with what an audit says of their drill.
fn shown(
    alloc: Global,
    traces: &[Trace],
    verdict: &Result<AuditYes, AuditFault>,
    as_text: bool,
) -> Result<String, AllocError>
    requires { length traces.now ≤ 256 }
    ensures { IfOk result (λ text. Shows as_text traces.now verdict.now (string_bytes text)) }
{
    let said = headline(alloc, verdict)?;
    if as_text {
        picture_lines(alloc, traces, &said)
    } else {
        drawn(alloc, traces, verdict, &said)
    }
}

// The picture of a drill, with what an audit says of it.
fn picture_of(alloc: Global, drill: &Drill, as_text: bool) -> Result<String, DrillFault>
    ensures drawn { IfOk result (λ text.
        DrawsDrill as_text drill.now.traces.items drill.now.lists.items (string_bytes text)) }
    ensures err { IfErr result (λ fault. fault ≡ DrillFault.OutOfMemory) }
{
    let verdict = judged(alloc, drill)?;
    Ok(shown(alloc, drawn_traces(&drill.traces), &verdict, as_text)?)
}

// The drill that a reader gives.
fn drill_from<I: Read + Drop>(alloc: Global, input: I) -> Result<Drill, AuditRefused>
    ensures { IfErr result (λ fault. fault ≢ AuditRefused.Drill WriteFailed) }
{
    let Ok(mut reader) = BufReader::new(alloc, Watched::new(input)) else {
        return Err(AuditRefused::from(AllocError));
    };
    match read_drill(alloc, &mut reader) {
        Ok(drill) => Ok(drill),
        Err(fault) => Err(AuditRefused::Drill { fault }),
    }
}

// The drill that one part comes to.
fn drill_of_part<I: Read + Drop>(alloc: Global, input: I) -> Result<Drill, AuditRefused>
    ensures { IfErr result (λ fault. fault ≢ AuditRefused.Drill WriteFailed) }
{
    match part_from(alloc, input) {
        Ok(part) => drill_of_parts(alloc, alone(alloc, part)?),
        Err(fault) => Err(AuditRefused::Part { file: 0, fault }),
    }
}

// The drill or the part in what is read, which its first line tells.
fn drill_of_input<I: Read + Drop>(alloc: Global, input: I) -> Result<Drill, AuditRefused>
    ensures { IfErr result (λ fault. fault ≢ AuditRefused.Drill WriteFailed) }
{
    let Ok(mut reader) = BufReader::new(alloc, Watched::new(ShortLines::new(input))) else {
        return Err(AuditRefused::from(AllocError));
    };
    let (first, is_part) = first_of(alloc, &mut reader)?;
    let whole = first.as_slice().chain(&mut reader);
    if is_part {
        drill_of_part(alloc, whole)
    } else {
        drill_from(alloc, whole)
    }
}

// The drill in files: the drill or the part in one, or the parts in several. The path `-` is standard
// input.
fn drill_in_files<R: Files + Input>(
    rt: &R,
    alloc: Global,
    paths: &[&str],
) -> Result<Drill, AuditRefused>
    ensures { IfErr result (λ fault. fault ≢ AuditRefused.Drill WriteFailed) }
{
    let [path] = paths else {
        let parts = parts_in_files(rt, alloc, paths)?;
        return drill_of_parts(alloc, parts);
    };
    if *path == "-" {
        return drill_of_input(alloc, rt.reader());
    }
    match fs::open(rt, path) {
        Ok(file) => drill_of_input(alloc, file),
        Err(_) => Err(AuditRefused::Drill {
            fault: DrillFault::ReadFailed,
        }),
    }
}

// Writes the picture of the drill in files.
fn picture_files<R: Files + Input, O: Write>(
    rt: &R,
    alloc: Global,
    paths: &[&str],
    as_text: bool,
    writer: &mut Watched<O>,
) -> Result<bool, AuditRefused>
    requires { has_failed writer.old ≡ false }
    // Of a file's bytes nothing is known; it is the picture of some drill, and nothing else is written.
    ensures ok { OnOk result (DrawsSome as_text O.contents writer.old writer.new) }
    ensures flushed { OnOk result (has_unflushed writer.new ≡ false) }
    ensures write_failed { (result ≡ Err (AuditRefused.Drill WriteFailed)) ↔ (has_failed writer.new ≡ true) }
    // After any other fault the writer is as it was.
    ensures unwritten { IfErr result (λ fault. fault ≢ AuditRefused.Drill WriteFailed
        → writer.new ≡ writer.old) }
{
    let drill = drill_in_files(rt, alloc, paths)?;
    let text = match picture_of(alloc, &drill, as_text) {
        Ok(text) => text,
        Err(fault) => return Err(AuditRefused::Drill { fault }),
    };
    match write_text(writer, text.as_bytes()) {
        Ok(()) => Ok(true),
        Err(_) => Err(AuditRefused::Drill {
            fault: DrillFault::WriteFailed,
        }),
    }
}

/// Writes the picture of the drill or the part in a file, or of the parts in several, whatever an audit
/// says of it: as lanes of text or as an SVG. The path `-` is standard input.
pub fn draw_drill<R: Eprint + AllocGlobal + Files + Input, O: Write>(
    rt: &R,
    paths: &[&str],
    as_text: bool,
    writer: &mut Watched<O>,
) -> anyhow::Result<ExitCode>
    requires { has_failed writer.old ≡ false }
    ensures done { OnStatus result 0 (DrawsSome as_text O.contents writer.old writer.new) }
    ensures status { IfOk result (λ code. (exit_status code ≡ 0) ⊎ (exit_status code ≡ 1)) }
{
    if let Some(path) = missing_of(rt, paths) {
        return refuse_missing(rt, path);
    }
    let drawn = picture_files(rt, rt.alloc(), paths, as_text, writer);
    let advice = advice_on_audit(rt.alloc(), paths, &drawn);
    finish_audit(rt, drawn, &advice)
}

//! The drill of a run, and the parts of its nodes, written.

ghost use Rattle.std.specs.Prelude.{◌≡◌, ◌↔◌, ◌⊎◌, length, true, false, Err, All, IfErr, OnOk};
ghost use Rattle.streams.specs.declared.fault.ScriptFault.TheVariants.{OutOfMemory, WriteFailed};
ghost use Rattle.streams.specs.Streams.{Writes};
ghost use Rattle.streams.specs.Watched.{has_failed, has_unflushed};
ghost use Rattle.drills.specs.Parts.{part_text};
ghost use Rattle.drill_files.specs.Kept.{KeepsDrill, KeepsParts, head_at};

use drills::{DrillFault, PartHead, write_drill, write_part};
use node_calls::Receipt;
use packed_trace::Trace;
use std::alloc::Global;
use std::io::Write;
use streams::{ScriptFault, Watched};
use thread_plans::Size;

// Why a drill wasn't written, as scripts tell it.
fn unwritten(fault: DrillFault) -> ScriptFault
    ensures only { (result ≡ WriteFailed) ⊎ (result ≡ OutOfMemory) }
    ensures write_failed { (result ≡ WriteFailed) ↔ (fault ≡ DrillFault.WriteFailed) }
{
    match fault {
        DrillFault::WriteFailed => ScriptFault::WriteFailed,
        DrillFault::ReadFailed | DrillFault::OutOfMemory | DrillFault::BadLine { .. } => {
            ScriptFault::OutOfMemory
        }
    }
}

/// Writes the drill of a run that came to these traces and lists of receipts.
pub fn keep_drill<D: Write>(
    alloc: Global,
    traces: &[Trace],
    lists: &[Vec<Receipt>],
    recorder: &mut Watched<D>,
) -> Result<(), ScriptFault>
    requires { has_failed recorder.old ≡ false }
    ensures kept { OnOk result (KeepsDrill D.contents recorder.old recorder.new
        traces.now lists.now) }
    ensures flushed { OnOk result (has_unflushed recorder.new ≡ false) }
    ensures write_failed { (result ≡ Err WriteFailed) ↔ (has_failed recorder.new ≡ true) }
    ensures only { IfErr result (λ fault. (fault ≡ WriteFailed) ⊎ (fault ≡ OutOfMemory)) }
{
    match write_drill(alloc, traces, lists, recorder) {
        Ok(()) => Ok(()),
        Err(fault) => Err(unwritten(fault)),
    }
}

// Writes the part of a node of a run.
fn keep_part<D: Write>(
    alloc: Global,
    size: Size,
    node: u8,
    trace: &Trace,
    file: &mut Watched<D>,
) -> Result<(), ScriptFault>
    requires { has_failed file.old ≡ false }
    ensures kept { OnOk result (Writes D.contents file.old file.new
        (part_text (head_at size.nodes size.trace_cap node) trace.now.calls)) }
    ensures flushed { OnOk result (has_unflushed file.new ≡ false) }
    ensures only { IfErr result (λ fault. (fault ≡ WriteFailed) ⊎ (fault ≡ OutOfMemory)) }
{
    let head = PartHead {
        node,
        nodes: size.nodes,
        cap: size.trace_cap as u64,
        run: String::new(alloc),
    };
    match write_part(alloc, &head, trace, file) {
        Ok(()) => Ok(()),
        Err(fault) => Err(unwritten(fault)),
    }
}

/// Writes the part of each node of a run.
pub fn keep_parts<D: Write>(
    alloc: Global,
    size: Size,
    traces: &[Trace],
    files: &mut [Watched<D>],
) -> Result<(), ScriptFault>
    requires traces { length traces.now ≡ size.nodes }
    requires files { length files.old ≡ size.nodes }
    requires sound { All (λ file. has_failed file ≡ false) files.old }
    ensures kept { OnOk result (KeepsParts D.contents size.nodes size.trace_cap traces.now
        files.old files.new) }
    ensures only { IfErr result (λ fault. (fault ≡ WriteFailed) ⊎ (fault ≡ OutOfMemory)) }
{
    for node in 0..size.nodes {
        let at = usize::from(node);
        keep_part(alloc, size, node, &traces[at], &mut files[at])?;
    }
    Ok(())
}

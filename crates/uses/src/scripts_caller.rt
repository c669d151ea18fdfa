//! A caller of `scripts`.

ghost use Rattle.std.specs.Prelude.{◌≡◌, false, IfSome, OnOk};
ghost use Rattle.scripts.specs.Laws.{IsBounded};
ghost use Rattle.scripts.specs.Schedules.{run_in};
ghost use Rattle.scripts.specs.Script.{script_text};
ghost use Rattle.streams.specs.Fields.{lines_of};
ghost use Rattle.streams.specs.Streams.{Writes};
ghost use Rattle.streams.specs.Watched.{has_failed};

use scripts::laws::script_is_schedule;
use scripts::{ScriptFault, Watched, run_script};
use std::alloc::Global;
use std::io::Write;

/// Runs a script that lies in memory: what it prints is written, and nothing else. Of a term that was
/// counted and granted so often under one stamp, its answers say at most so often that it was
/// executed, on whichever node.
pub fn run_text<W: Write>(
    alloc: Global,
    script: &str,
    writer: &mut Watched<W>,
) -> Result<(), ScriptFault>
    requires { has_failed writer.old ≡ false }
    ensures text { OnOk result (Writes W.contents writer.old writer.new (script_text script.now)) }
    ensures bounded { OnOk result (IfSome (run_in (lines_of script.now)) IsBounded) }
{
    script_is_schedule();
    let mut reader = Watched::new(script.as_bytes());
    run_script(alloc, &mut reader, writer)
}

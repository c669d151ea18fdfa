//! A caller of `thread_scripts`.

ghost use Rattle.std.specs.Prelude.{◌≡◌, ℕ, false};
ghost use Rattle.streams.specs.declared.fault.ScriptFault.TheVariants.{BadLine};
ghost use Rattle.streams.specs.Watched.{has_failed};
ghost use Rattle.thread_plans.specs.Plans.{plan_in};

use scripts::{ScriptFault, Watched};
use std::alloc::Global;
use std::io::Write;
use std::sync::Wait;
use std::thread::Threads;
use thread_scripts::run_threads;

/// Runs a script of threads that lies in memory: a line for which it is refused is its first bad one.
pub fn run_workers_of_text<R: Threads + Wait + Sync, W: Write>(
    rt: &R,
    alloc: Global,
    script: &str,
    writer: &mut Watched<W>,
) -> Result<(), ScriptFault>
    requires { has_failed writer.old ≡ false }
    ensures { (line : ℕ) → result ≡ Err (BadLine line) → plan_in script.now ≡ Err line }
{
    let mut reader = Watched::new(script.as_bytes());
    run_threads(rt, alloc, &mut reader, writer)
}

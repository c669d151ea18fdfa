//! The run of a script that is checked.

ghost use Rattle.std.specs.Prelude.{◌≡◌, ◌≢◌, ◌⊎◌, ◌≤◌, ℕ, length, IfErr, IfOk, OnOk, Err, Ok};
ghost use Rattle.std.specs.Prelude.{vec_len};
ghost use Rattle.streams.specs.declared.fault.ScriptFault.TheVariants.{BadLine, OutOfMemory};
ghost use Rattle.thread_plans.specs.BadLines.{bad_lines};
ghost use Rattle.thread_plans.specs.Plans.{plan_in, plan_value};
ghost use Rattle.thread_checks.specs.Checked.{IsSizeOf, plain_text};
ghost use Rattle.thread_checks.specs.WaitLines.{wait_lines};
ghost use Rattle.thread_checks.specs.Waits.{waits_in};
ghost use Rattle.thread_commands.specs.Checked.{IsChecked};

use answers::Format;
use std::alloc::{AllocError, Global};
use std::sync::Wait;
use std::thread::Threads;
use streams::{MOST_BYTES, ScriptFault};
use thread_checks::{awaits_in, failures_of, first_rounds, plain_text_of, plan_with};
use thread_scripts::{Played, Size, ThreadPlan, Waits, judged_of, play_waiting};
use thread_warnings::read_plan_saying;
use warnings::Warnings;

/// What a script that is checked came to: what it prints, and what is said of the lines that fail.
#[derive(Drop)]
pub(crate) struct CheckedRun {
    pub size: Size,
    pub played: Played,
    pub printed: Vec<u8>,
    pub said: Warnings,
}

// What workers wait for where this plan of a script is played.
fn waits_of(alloc: Global, script: &[u8], plan: &ThreadPlan<'_>) -> Result<Waits, AllocError>
    requires { length script.now ≤ MOST_BYTES }
    ensures { IfOk result (λ waits. wait_lines waits.awaits.items ≡ waits_in script.now) }
{
    let first = first_rounds(alloc, script)?;
    let awaits = awaits_in(alloc, script)?;
    Waits::in_step(alloc, plan, first.unwrap_or(0), awaits)
}

// Plays the plan of a script that is checked.
fn check_plan<R: Threads + Wait + Sync>(
    rt: &R,
    alloc: Global,
    format: Format,
    script: &[u8],
    plan: ThreadPlan<'_>,
) -> Result<CheckedRun, AllocError>
    requires length { length script.now ≤ MOST_BYTES }
    requires plan { plan_in (plain_text script.now) ≡ Ok (plan_value plan) }
    ensures ok { IfOk result (λ run. IsChecked format script.now run.played.traces.items
        run.played.lists.items (run.played.start_faults.items, run.played.faults.items)
        run.printed.items run.said) }
    ensures size { IfOk result (λ run. IsSizeOf script.now run.size.nodes run.size.trace_cap) }
    ensures len { IfOk result (λ run. vec_len run.played.traces ≡ run.size.nodes) }
{
    let size = plan.size;
    let plan = plan_with(alloc, script, plan)?;
    let waits = waits_of(alloc, script, &plan)?;
    let played = play_waiting(rt, alloc, &plan, &waits)?;
    let judged = judged_of(alloc, &plan, &played)?;
    let printed = judged.printed(alloc, format)?;
    let lines = judged.printed(alloc, Format::Lines)?;
    let said = failures_of(
        alloc,
        script,
        plan,
        &played.lists,
        &played.start_faults,
        &played.faults,
        &played.vain,
        &lines,
        judged.is_yes(),
    )?;
    Ok(CheckedRun {
        size,
        played,
        printed,
        said,
    })
}

/// Plays a script as one that is checked. Where it has no plan, what is said becomes what was wanted of
/// its bad lines; otherwise it is as it was.
pub(crate) fn play_checked<R: Threads + Wait + Sync>(
    rt: &R,
    alloc: Global,
    format: Format,
    script: &[u8],
    said: &mut Warnings,
) -> Result<CheckedRun, ScriptFault>
    requires { length script.now ≤ MOST_BYTES }
    ensures ok { IfOk result (λ run. IsChecked format script.now run.played.traces.items
        run.played.lists.items (run.played.start_faults.items, run.played.faults.items)
        run.printed.items run.said) }
    ensures size { IfOk result (λ run. IsSizeOf script.now run.size.nodes run.size.trace_cap) }
    ensures len { IfOk result (λ run. vec_len run.played.traces ≡ run.size.nodes) }
    ensures bad { (line : ℕ) → result ≡ Err (BadLine line) →
        plan_in (plain_text script.now) ≡ Err line }
    ensures bad_said { (line : ℕ) → result ≡ Err (BadLine line) →
        said.new ≡ bad_lines (plain_text script.now) }
    ensures unsaid { IfErr result (λ fault.
        ((line : ℕ) → fault ≢ BadLine line) → said.new ≡ said.old) }
    ensures kept { OnOk result (said.new ≡ said.old) }
    ensures only { IfErr result (λ fault.
        (fault ≡ OutOfMemory) ⊎ ((line : ℕ) × (fault ≡ BadLine line))) }
{
    let plain = plain_text_of(alloc, script)?;
    let plan = read_plan_saying(alloc, &plain, said)?;
    let run = check_plan(rt, alloc, format, script, plan)?;
    Ok(run)
}

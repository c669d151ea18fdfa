//! What a run is warned of.

ghost use Rattle.std.specs.Prelude.{◌≡◌, ◌⊎◌, ◌++◌, ◌≢◌, ◌≤◌, ℕ, length, IfErr, IfOk, OnOk, Err, Ok};
ghost use Rattle.streams.specs.declared.fault.ScriptFault.TheVariants.{BadLine, OutOfMemory};
ghost use Rattle.thread_plans.specs.BadLines.{bad_lines};
ghost use Rattle.thread_plans.specs.Plans.{plan_in, plan_value};
ghost use Rattle.thread_warnings.specs.Warnings.{audit_said, warned_lines};

use crate::refused::say_refused;
use crate::refused_starts::say_refused_starts;
use crate::short::say_shorts;
use crate::short_starts::say_starts;
use crate::unfit::{say_unset, unfit_lines, unset_in};
use node_calls::{NodeFault, Receipt};
use std::alloc::{AllocError, Global};
use streams::{MOST_BYTES, ScriptFault};
use thread_plans::{ThreadPlan, bad_lines_of, read_plan, start_lines_of, worker_lines_of};
use warnings::Warnings;

// Says that an audit says no, if it does.
fn say_audit(alloc: Global, yes: bool, said: &mut Warnings) -> Result<(), AllocError>
    ensures { OnOk result (said.new ≡ said.old ++ audit_said yes) }
{
    if yes {
        return Ok(());
    }
    said.push(Vec::from_slice(alloc, b"the audit says no")?)
}

/// What a run of a script is warned of that has this plan, gave these lists of receipts and refused calls
/// so, before the workers and of workers, and of which the audit says yes or no: `start` lines whose
/// calls were refused, and lines of workers whose calls every node refuses, with the reason; nodes and
/// workers whose calls weren't all accepted; how many calls of workers were refused with each code; how
/// many passes met a point that isn't set; and a no. Nothing, where none of these is so.
pub fn run_warnings(
    alloc: Global,
    script: &[u8],
    plan: &ThreadPlan<'_>,
    lists: &[Vec<Receipt>],
    start_faults: &[(usize, NodeFault)],
    faults: &[NodeFault],
    yes: bool,
) -> Result<Warnings, AllocError>
    requires { length script.now ≤ MOST_BYTES }
    ensures { IfOk result (λ said. said ≡ warned_lines script.now (plan_value plan.now)
        lists.now (start_faults.now, faults.now) yes) }
{
    let mut said = Warnings::new(alloc);
    let numbers = start_lines_of(alloc, script)?;
    say_refused_starts(alloc, &numbers, start_faults, &mut said)?;
    said.append(unfit_lines(alloc, script)?)?;
    say_starts(alloc, plan, lists, &mut said)?;
    let numbers = worker_lines_of(alloc, script)?;
    say_shorts(alloc, plan, lists, &numbers, &mut said)?;
    say_refused(alloc, faults, &mut said)?;
    say_unset(alloc, unset_in(lists), &mut said)?;
    say_audit(alloc, yes, &mut said)?;
    Ok(said)
}

// Sets what is said to what was wanted of the bad lines of a script, where it is refused for one. Where
// memory is refused, that is the fault, and what is said is as it was.
fn say_bad_lines(
    alloc: Global,
    script: &[u8],
    fault: ScriptFault,
    said: &mut Warnings,
) -> ScriptFault
    requires { length script.now ≤ MOST_BYTES }
    ensures fault { (result ≡ fault) ⊎ (result ≡ OutOfMemory) }
    ensures said { (line : ℕ) → result ≡ BadLine line → said.new ≡ bad_lines script.now }
    ensures unsaid { ((line : ℕ) → result ≢ BadLine line) → said.new ≡ said.old }
{
    let ScriptFault::BadLine { .. } = fault else {
        return fault;
    };
    match bad_lines_of(alloc, script) {
        Ok(lines) => {
            *said = lines;
            fault
        }
        Err(AllocError) => ScriptFault::OutOfMemory,
    }
}

/// Reads the plan of a script as `read_plan` does, and where it has none, sets what is said to what was
/// wanted of its bad lines. Otherwise what is said is as it was.
pub fn read_plan_saying<'a>(
    alloc: Global,
    script: &'a [u8],
    said: &mut Warnings,
) -> Result<ThreadPlan<'a>, ScriptFault>
    requires { length script.now ≤ MOST_BYTES }
    ensures ok { IfOk result (λ plan. plan_in script.now ≡ Ok (plan_value plan)) }
    ensures bad { (line : ℕ) → result ≡ Err (BadLine line) → plan_in script.now ≡ Err line }
    ensures only { IfErr result (λ fault.
        (fault ≡ OutOfMemory) ⊎ ((line : ℕ) × (fault ≡ BadLine line))) }
    ensures bad_said { (line : ℕ) → result ≡ Err (BadLine line) →
        said.new ≡ bad_lines script.now }
    ensures unsaid { IfErr result (λ fault.
        ((line : ℕ) → fault ≢ BadLine line) → said.new ≡ said.old) }
    ensures kept { OnOk result (said.new ≡ said.old) }
{
    match read_plan(alloc, script) {
        Ok(plan) => Ok(plan),
        Err(fault) => Err(say_bad_lines(alloc, script, fault, said)),
    }
}

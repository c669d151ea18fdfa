//! What is said of a script that is checked, behind its run.

ghost use Rattle.std.specs.Prelude.{◌≡◌, ◌≤◌, length, IfOk};
ghost use Rattle.thread_plans.specs.Plans.{plan_value};
ghost use Rattle.thread_checks.specs.Checked.{failed_lines, without_starts};

use crate::scan::scan_lines;
use crate::views::{View, view_of};
use node_calls::{NodeFault, Receipt};
use scripts::checked_warnings_of;
use std::alloc::{AllocError, Global};
use streams::MOST_BYTES;
use thread_plans::ThreadPlan;
use thread_warnings::run_warnings;
use warnings::Warnings;

fn without_starts<'a>(alloc: Global, plan: ThreadPlan<'a>) -> ThreadPlan<'a>
    ensures { plan_value result ≡ without_starts (plan_value plan.entry) }
{
    let ThreadPlan {
        size,
        seed,
        starts: _,
        gossip,
        blocks,
    } = plan;
    ThreadPlan {
        size,
        seed,
        starts: Vec::new(alloc),
        gossip,
        blocks,
    }
}

/// What is said of the lines of a script that fail, where the plan that is played of it gave these lists of
/// receipts and refused calls so, before the workers and of workers, waits in the lines of these numbers
/// were in vain, these lines were answered and the audit says yes or no. Nothing, where none fails.
/// Lines that expect what is printed are compared with lines, also where JSON objects are printed.
///
/// The lines before the workers are answered as those of a script of calls that is checked.
pub fn failures_of(
    alloc: Global,
    script: &[u8],
    plan: ThreadPlan<'_>,
    lists: &[Vec<Receipt>],
    start_faults: &[(usize, NodeFault)],
    faults: &[NodeFault],
    vain: &[u32],
    answered: &[u8],
    yes: bool,
) -> Result<Warnings, AllocError>
    requires { length script.now ≤ MOST_BYTES }
    ensures { IfOk result (λ said. said ≡ failed_lines script.now (plan_value plan.entry)
        lists.now (start_faults.now, faults.now) vain.now answered.now yes) }
{
    let starts = view_of(alloc, View::Starts, script)?;
    let mut said = checked_warnings_of(alloc, &starts)?;
    let workers = view_of(alloc, View::Workers, script)?;
    let plan = without_starts(alloc, plan);
    said.append(run_warnings(alloc, &workers, &plan, lists, start_faults, faults, yes)?)?;
    said.append(scan_lines(alloc, script, vain, answered)?)?;
    Ok(said)
}

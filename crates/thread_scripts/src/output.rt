//! What a run answers, what of this is printed, and what the run is warned of.

ghost use Rattle.std.specs.Prelude.{◌≡◌, ◌≤◌, is_ok, length, vec_len, IfOk};
ghost use Rattle.thread_plans.specs.Plans.{plan_value};
ghost use Rattle.thread_scripts.specs.Outputs.{IsJudged, IsOutputOf, IsTold, judged_text};

use crate::played::Played;
use answers::{Answer, Format, Printed};
use audit::{AuditFault, AuditYes, audit};
use std::alloc::{AllocError, Global};
use streams::MOST_BYTES;
use thread_plans::ThreadPlan;
use thread_warnings::run_warnings;
use warnings::Warnings;

/// What a plan that was played answers: how many workers it has, how many calls were accepted, and what
/// an audit of its traces and receipts found.
#[derive(Drop)]
pub struct Judged {
    pub workers: usize,
    pub calls: u128,
    pub verdict: Result<AuditYes, AuditFault>,
}

impl Judged {
    /// Whether the audit says yes.
    pub fn is_yes(&self) -> bool
        ensures { result ≡ is_ok self.now.verdict }
    {
        self.verdict.is_ok()
    }

    /// The answers as they are printed.
    pub fn printed(&self, alloc: Global, format: Format) -> Result<Vec<u8>, AllocError>
        ensures { IfOk result (λ bytes. bytes.items ≡ judged_text format self.now) }
    {
        let mut printed = Printed::new(alloc, format);
        printed.put(alloc, Answer::Workers(self.workers))?;
        printed.put(alloc, Answer::Calls(self.calls))?;
        printed.put_verdict(alloc, &self.verdict)?;
        Ok(printed.into_bytes())
    }
}

/// What a plan that was played answers.
pub fn judged_of(
    alloc: Global,
    plan: &ThreadPlan<'_>,
    played: &Played,
) -> Result<Judged, AllocError>
    requires { vec_len played.now.traces ≡ plan.now.size.nodes }
    ensures { IfOk result (λ judged. IsJudged (plan_value plan.now)
        played.now.traces.items played.now.lists.items judged) }
{
    let verdict = audit(alloc, plan.size.nodes, &played.traces, &played.lists);
    if let Err(AuditFault::OutOfMemory) = verdict {
        return Err(AllocError);
    }
    Ok(Judged {
        workers: plan.blocks.len(),
        calls: played.calls(),
        verdict,
    })
}

/// What a plan that was played prints.
pub fn output_of(
    alloc: Global,
    format: Format,
    plan: &ThreadPlan<'_>,
    played: &Played,
) -> Result<Vec<u8>, AllocError>
    requires { vec_len played.now.traces ≡ plan.now.size.nodes }
    ensures { IfOk result (λ bytes. IsOutputOf format (plan_value plan.now)
        played.now.traces.items played.now.lists.items bytes.items) }
{
    let judged = judged_of(alloc, plan, played)?;
    judged.printed(alloc, format)
}

/// What the plan of a script prints that was played, and what the script is warned of, as
/// `run_warnings` says it.
pub fn told_of(
    alloc: Global,
    format: Format,
    script: &[u8],
    plan: &ThreadPlan<'_>,
    played: &Played,
) -> Result<(Vec<u8>, Warnings), AllocError>
    requires length { length script.now ≤ MOST_BYTES }
    requires traces { vec_len played.now.traces ≡ plan.now.size.nodes }
    ensures { IfOk result (λ told. IsTold format script.now (plan_value plan.now)
        played.now.traces.items played.now.lists.items
        (played.now.start_faults.items, played.now.faults.items) told.0.items told.1) }
{
    let judged = judged_of(alloc, plan, played)?;
    let printed = judged.printed(alloc, format)?;
    let warned = run_warnings(
        alloc,
        script,
        plan,
        &played.lists,
        &played.start_faults,
        &played.faults,
        judged.is_yes(),
    )?;
    Ok((printed, warned))
}

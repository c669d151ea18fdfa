//! The plan that is played of a script that is checked.

ghost use Rattle.std.specs.Prelude.{◌≡◌, ◌≤◌, length, slice_get, codes, IfOk};
ghost use Rattle.thread_plans.specs.Plans.{plan_value};
ghost use Rattle.thread_checks.specs.Checked.{kind_by, plain_text, plan_with, rounds_asked, rounds_sum};
ghost use Rattle.thread_checks.specs.Checked.{rounds_with, with_rounds};

use crate::views::{View, all_rounds, view_of};
use std::alloc::{AllocError, Global};
use streams::MOST_BYTES;
use thread_plans::{RoundKind, Rounds, ThreadPlan};

/// A script without the lines that only one that is checked has, each of which is empty in it. Its plan is
/// that of the script.
pub fn plain_text_of(alloc: Global, script: &[u8]) -> Result<Vec<u8>, AllocError>
    ensures text { IfOk result (λ text. text.items ≡ plain_text script.now) }
    ensures few { IfOk result (λ text. length text.items ≤ MOST_BYTES) }
{
    view_of(alloc, View::Plan, script)
}

fn rounds_sum(first: u32, beside: u32) -> u32
    ensures { result ≡ rounds_sum first beside }
{
    match first.checked_add(beside) {
        Some(rounds) => rounds,
        None => 4294967295,
    }
}

// The rounds of a node, all of this kind: first those before the workers, and then those beside them.
fn rounds_with(first: Option<u32>, gossip: Option<Rounds>, kind: RoundKind) -> Option<Rounds>
    ensures { result ≡ rounds_with first gossip kind }
{
    let count = match (first, gossip) {
        (None, None) => return None,
        (None, Some(beside)) => beside.count,
        (Some(first), None) => first,
        (Some(first), Some(beside)) => rounds_sum(first, beside.count),
    };
    Some(Rounds { count, kind })
}

fn with_rounds<'a>(plan: ThreadPlan<'a>, first: Option<u32>, kind: RoundKind) -> ThreadPlan<'a>
    ensures { plan_value result ≡ with_rounds (plan_value plan.entry) first kind }
{
    let ThreadPlan {
        size,
        seed,
        starts,
        gossip,
        blocks,
    } = plan;
    ThreadPlan {
        size,
        seed,
        starts,
        gossip: rounds_with(first, gossip, kind),
        blocks,
    }
}

// The rounds of the first line `gossip <rounds> <meant>`.
fn rounds_asked(alloc: Global, meant: &str, script: &[u8]) -> Result<Option<u32>, AllocError>
    ensures { IfOk result (λ rounds. rounds ≡ rounds_asked meant.now script.now) }
{
    let all = all_rounds(alloc, meant, script)?;
    Ok(match all.get(0) {
        Some(rounds) => Some(*rounds),
        None => None,
    })
}

fn kind_by(shares: Option<u32>) -> RoundKind
    ensures { result ≡ kind_by shares }
{
    match shares {
        Some(_) => RoundKind::Sharing,
        None => RoundKind::Telling,
    }
}

/// How many rounds of gossip a script says come before the workers, if it says so.
pub fn first_rounds(alloc: Global, script: &[u8]) -> Result<Option<u32>, AllocError>
    ensures { IfOk result (λ rounds. rounds ≡ rounds_asked (codes "first") script.now) }
{
    rounds_asked(alloc, "first", script)
}

/// The plan that is played of a script whose plan is this: with the rounds before the workers in front of
/// those beside them, all of which share rights where the script says so.
pub fn plan_with<'a>(
    alloc: Global,
    script: &[u8],
    plan: ThreadPlan<'a>,
) -> Result<ThreadPlan<'a>, AllocError>
    ensures { IfOk result (λ played.
        plan_value played ≡ plan_with script.now (plan_value plan.entry)) }
{
    let first = first_rounds(alloc, script)?;
    let kind = kind_by(rounds_asked(alloc, "share", script)?);
    Ok(with_rounds(plan, first, kind))
}

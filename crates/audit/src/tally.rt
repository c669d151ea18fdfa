//! What replays tell of budgets.

ghost use Rattle.std.specs.Prelude.{◌≡◌, ℕ, ◌+◌, ◌-◌, ◌≤◌, ◌^◌, [], ◌∷◌, length, slice_get};
ghost use Rattle.std.specs.Prelude.{option_map, option_and_then, IfOk, OnOk, Some, if◌then◌else◌};
ghost use Rattle.stamp_register.specs.declared.key.Stamp.{Stamp};
ghost use Rattle.node_calls.specs.Asks.{answered_from, call_from};
ghost use Rattle.node_calls.specs.Told.{reply_ref_told};
ghost use Rattle.stamp_register.specs.Keys.{stamp_of};
ghost use Rattle.node_core.specs.Traces.{Kept, node_of, state_known};
ghost use Rattle.packed_trace.specs.Packed.{seen_told};
ghost use Rattle.cluster_model.specs.Histories.{acts, keys_by};
ghost use Rattle.audit.specs.Counts.{AddsKeys};
ghost use Rattle.audit.specs.Sums.{sum_of};
ghost use Rattle.audit.specs.Tallies.{HaveRoom, IsAfter, IsAfterSome, IsTallied, Notes, granted_by};
ghost use Rattle.audit.specs.Totals.{AreTotalsIn};
ghost use Rattle.audit.specs.Traces.{Traces};

use crate::counts::Counts;
use crate::points::{name_of, points_set};
use crate::sums::Sums;
use crate::total::Total;
use actions::{Actions, Name};
use node_core::{AskRef, NodeCore, PassReplyRef, ReplyRef, Seen};
use replica_state::Replica;
use stamp_register::Stamp;
use std::alloc::{AllocError, Global};

/// What the calls that were replayed tell of budgets.
#[derive(Drop)]
pub(crate) struct Tally {
    counts: Counts,
    granted: Sums,
    executed: Sums,
}

impl Tally {
    pub(crate) fn new(alloc: Global) -> Tally
        ensures { (nodes : ℕ) (traces : Traces) → IsTallied result nodes traces 0 }
    {
        Tally {
            counts: Counts::new(alloc),
            granted: Sums::new(alloc),
            executed: Sums::new(alloc),
        }
    }

    /// Notes the last call of a node.
    pub(crate) fn note(
        &mut self,
        alloc: Global,
        core: &NodeCore,
        seen: Seen<'_>,
    ) -> Result<(), AllocError>
        requires after { IsAfterSome core.now (seen_told seen) }
        requires granted { HaveRoom self.old.granted }
        requires executed { HaveRoom self.old.executed }
        ensures { OnOk result ((k : Kept) → IsAfter k core.now (seen_told seen.entry)
            → Notes self.old self.new k.config.node (node_of k)
            (call_from k.config.nodes (seen_told seen.entry) ∷ [])) }
    {
        note_points(&mut self.counts, alloc, core, seen)?;
        note_grant(&mut self.granted, alloc, core, seen)?;
        note_act(&mut self.executed, seen.reply())
    }

    /// A total for each counted term, in the order of their names, stamps and numbers.
    pub(crate) fn into_totals(self, alloc: Global) -> Result<Vec<Total>, AllocError>
        ensures { IfOk result (λ totals. AreTotalsIn self totals.items) }
    {
        let Tally {
            counts,
            granted,
            executed,
        } = self;
        let mut totals = Vec::new(alloc);
        for ((name, clock, node, term), count) in counts.counts {
            let stamp = Stamp { clock, node };
            totals.push(Total {
                name,
                stamp,
                term,
                count,
                granted: granted.of(stamp, term),
                executed: executed.of(stamp, term),
            })?;
        }
        Ok(totals)
    }
}

// Adds the counted terms of the keys that the last call of a node set.
fn note_points(
    counts: &mut Counts,
    alloc: Global,
    core: &NodeCore,
    seen: Seen<'_>,
) -> Result<(), AllocError>
    requires { IsAfterSome core.now (seen_told seen) }
    ensures { OnOk result ((k : Kept) → IsAfter k core.now (seen_told seen.entry)
        → AddsKeys counts.old counts.new
        (keys_by k.config.node (node_of k)
        (Some (call_from k.config.nodes (seen_told seen.entry)).ask))) }
{
    let points = points_set(alloc, seen.ask())?;
    let Some(stamp) = last_stamp(core, &points) else {
        return Ok(());
    };
    counts.add_points(alloc, &points, stamp)
}

// The stamp of a point, if it has a key.
fn stamp_at(core: &NodeCore, name: &Name) -> Option<Stamp>
    ensures { result ≡ option_map stamp_of ((state_known core.now).key name.now) }
{
    Some(core.state().key(name)?.stamp())
}

// The stamp of the last of some points, if it has a key.
fn last_stamp(core: &NodeCore, points: &[(Name, Actions)]) -> Option<Stamp>
    ensures { result ≡ option_and_then (λ p. option_map stamp_of ((state_known core.now).key p.0))
        (slice_get points.now (length points.now - 1)) }
{
    let (name, _) = points.last()?;
    stamp_at(core, name)
}

// Adds the rights that the last call of a node granted.
fn note_grant(
    granted: &mut Sums,
    alloc: Global,
    core: &NodeCore,
    seen: Seen<'_>,
) -> Result<(), AllocError>
    requires room { HaveRoom granted.old }
    ensures value { OnOk result ((k : Kept) → IsAfter k core.now (seen_told seen.entry)
        → (stamp : Stamp) (term : ℕ) → sum_of granted.new stamp term
        ≡ sum_of granted.old stamp term
        + granted_by (node_of k) (call_from k.config.nodes (seen_told seen.entry)).ask stamp term) }
    ensures few { OnOk result ((stamp : Stamp) (term : ℕ)
        → sum_of granted.new stamp term ≤ sum_of granted.old stamp term + 2 ^ 64) }
{
    let AskRef::Grant { name, term, amount } = seen.ask() else {
        return Ok(());
    };
    let Some(name) = name_of(alloc, name)? else {
        return Ok(());
    };
    let Some(stamp) = stamp_at(core, &name) else {
        return Ok(());
    };
    granted.add(stamp, term, amount)
}

// Adds the execution that a call was answered with, if it was.
fn note_act(executed: &mut Sums, reply: ReplyRef<'_>) -> Result<(), AllocError>
    requires { HaveRoom executed.old }
    ensures { OnOk result ((nodes : ℕ) (stamp : Stamp) (term : ℕ) → sum_of executed.new stamp term
        ≡ sum_of executed.old stamp term
        + (if acts stamp term (answered_from nodes (reply_ref_told reply.entry)) then 1 else 0)) }
{
    if let ReplyRef::Pass(PassReplyRef::Act { term, stamp, .. }) = reply {
        executed.add(stamp, term, 1)?;
    }
    Ok(())
}

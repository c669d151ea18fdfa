//! What nodes know of what is waited for, and which waits were in vain.

ghost use Rattle.std.specs.Prelude.{◌≡◌, length, slice_get, IfOk, IfSome, Some};
ghost use Rattle.node_core.specs.Traces.{state_known};
ghost use Rattle.thread_workers.specs.Known.{has_come};
ghost use Rattle.thread_workers.specs.Waits.{AreWaited, IsEnded, IsSeen, IsSeenAt, are_before};

use crate::waiting::Waiting;
use crate::waits::{Await, Waits, is_known};
use node_core::{NodeCore, Receipt};
use node_registry::Registry;
use std::alloc::{AllocError, Global};
use std::marker::{Model, PhantomData};
use std::sync::{OnceLock, Wait};

/// Whether a node knew what is waited for at this place, when it had accepted so many calls.
#[derive(Drop)]
pub(crate) struct Look<L: Waiting> {
    place: usize,
    calls: u64,
    is_known: bool,
    of: PhantomData<L>,
}

impl<L: Waiting> Model for Look<L> {
    ghost use Rattle.thread_workers.specs.Waits.{IsSeenAt, LookValue};

    ghost Value = { LookValue };

    ghost view = { λ l. record { place = l.place; calls = l.calls; known = l.is_known } };

    ghost invariant = { λ l. IsSeenAt L.config L.seed L.waits l.place l.calls l.is_known };
}

fn has_come(core: &NodeCore, wait: &Await) -> bool
    ensures { result ≡ has_come (state_known core.now) wait.now.name wait.now.stamp }
{
    match &wait.name {
        Some(name) => is_known(core, name, wait.stamp),
        None => false,
    }
}

// How many calls a node has accepted, and whether it knows what is waited for.
fn calls_and_come(core: &NodeCore, wait: &Await) -> (u64, bool)
    ensures calls { result.0 ≡ length core.now.trace }
    ensures known { result.1 ≡ has_come (state_known core.now) wait.now.name wait.now.stamp }
{
    (core.calls(), has_come(core, wait))
}

fn seen_now<L: Waiting, R: Wait>(rt: &R, registry: &Registry<L>, wait: &Await) -> (u64, bool)
    ensures { IsSeen L.config L.seed result.0 wait.now result.1 }
{
    registry.with(rt, |core| calls_and_come(core, wait))
}

// Whether the calls of these receipts are among so many first ones.
fn are_before(calls: u64, receipts: &[Receipt]) -> bool
    ensures { result ≡ are_before calls receipts.now }
{
    receipts.iter().all(|receipt| receipt.index < calls)
}

// Whether a node knows what is waited for, once it has made the calls of these receipts.
fn seen_after<L: Waiting, R: Wait>(
    rt: &R,
    registry: &Registry<L>,
    wait: &Await,
    receipts: &[Receipt],
) -> bool
    ensures { IsEnded L.config L.seed receipts.now wait.now result }
{
    for _ in rt.forever() {
        let (calls, is_known) = seen_now(rt, registry, wait);
        if are_before(calls, receipts) {
            return is_known;
        }
    }
    unreachable!()
}

impl<L: Waiting> Look<L> {
    /// A look at a node now, for a wait and its place.
    pub(crate) fn now<R: Wait>(
        rt: &R,
        registry: &Registry<L>,
        place: usize,
        wait: &Await,
    ) -> Look<L>
        requires { slice_get L.waits place ≡ Some wait.now }
    {
        let (calls, is_known) = seen_now(rt, registry, wait);
        Look {
            place,
            calls,
            is_known,
            of: PhantomData,
        }
    }

    pub(crate) fn is_known(&self) -> bool {
        self.is_known
    }

    fn place(&self) -> usize {
        self.place
    }

    // How many calls the node had, and whether it knew what is waited for, if that is at this place.
    fn at(&self, place: usize) -> Option<(u64, bool)>
        ensures { IfSome result (λ seen.
            IsSeenAt L.config L.seed L.waits place seen.0 seen.1) }
    {
        if self.place == place {
            Some((self.calls, self.is_known))
        } else {
            None
        }
    }
}

/// What the workers of a node wait for, and what it knew when each wait ended, by the places of these.
#[derive(Drop)]
pub struct Looks<'a, L: Waiting> {
    pub waits: &'a Waits,
    looks: Vec<OnceLock<Look<L>>>,
    ghost meant: { waits.now.awaits.items ≡ L.waits },
}

fn room<L: Waiting>(alloc: Global, waits: &Waits) -> Result<Vec<OnceLock<Look<L>>>, AllocError> {
    let mut looks = Vec::new(alloc);
    for _wait in &waits.awaits {
        looks.push(OnceLock::new())?;
    }
    Ok(looks)
}

impl<'a, L: Waiting> Looks<'a, L> {
    /// No wait has ended.
    pub fn new(alloc: Global, waits: &'a Waits) -> Result<Looks<'a, L>, AllocError>
        requires { waits.now.awaits.items ≡ L.waits }
    {
        let looks = room(alloc, waits)?;
        Ok(Looks { waits, looks })
    }

    /// Keeps the look with which a wait ended.
    pub(crate) fn keep<R: Wait>(&self, rt: &R, look: Look<L>) {
        if let Some(slot) = self.looks.get(look.place()) {
            let _ = slot.set(rt, look);
        }
    }

    fn at(&self, place: usize) -> Option<(u64, bool)>
        ensures { IfSome result (λ seen.
            IsSeenAt L.config L.seed L.waits place seen.0 seen.1) }
    {
        self.looks.get(place)?.get()?.at(place)
    }

    // Whether a wait wasn't in vain, by the look with which it ended. No call stood behind any other, or its
    // worker didn't start, or it ended too early: there the node is looked at now.
    fn is_satisfied<R: Wait>(
        &self,
        rt: &R,
        registry: &Registry<L>,
        place: usize,
        wait: &Await,
        receipts: &[Receipt],
    ) -> bool
        requires { slice_get L.waits place ≡ Some wait.now }
        ensures { IsEnded L.config L.seed receipts.now wait.now result }
    {
        match self.at(place) {
            Some((calls, is_known)) if is_known || are_before(calls, receipts) => is_known,
            _ => seen_after(rt, registry, wait, receipts),
        }
    }

    /// The lines of a node's waits that were in vain: the node didn't know the setting, after the calls of
    /// these receipts, which are those of its gossip.
    pub fn vain<R: Wait>(
        &self,
        rt: &R,
        alloc: Global,
        registry: &Registry<L>,
        node: u8,
        receipts: &[Receipt],
    ) -> Result<Vec<u32>, AllocError>
        requires { node ≡ L.config.node }
        ensures { IfOk result (λ vain.
            AreWaited L.config L.seed receipts.now L.waits vain.items) }
    {
        let mut vain = Vec::new(alloc);
        for (place, wait) in self.waits.awaits.iter().enumerate() {
            if wait.node == node && !self.is_satisfied(rt, registry, place, wait, receipts) {
                vain.push(wait.line)?;
            }
        }
        Ok(vain)
    }
}

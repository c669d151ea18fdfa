//! What a matrix stores of all names, changed in place.
#![tactic(auto, unfolding(crate::specs::Slots::shown_slots))]

ghost use Rattle.std.specs.Prelude.{◌≡◌, ◌≢◌, ◌+◌, ◌<◌, ◌≤◌, ◌^◌, is_none, IfNone, IfSome, IsSome, OnOk, OnErr};
ghost use Rattle.std.specs.Borrow.{MutBor};
ghost use Rattle.std.specs.Fn.{FnOnceReturnsAtMut};
ghost use Rattle.stamp_register.specs.Keys.{key_value};
ghost use Rattle.replica_state.specs.Points.{empty_held, held_after_learning, held_after_key};
ghost use Rattle.replica_state.specs.Points.{held_after_pass, held_after_count};
ghost use Rattle.operations.specs.Counts.{is_hits, given_key};
ghost use Rattle.replica_state.specs.Cells.{with_held, with_change};
ghost use Rattle.replica_state.specs.States.{with_name, with_key, with_pass, with_shifts};
ghost use Rattle.replica_state.specs.Slots.{IsSlotOf, HasNoSlot, ChangesSlot, SaysSomething};
ghost use Rattle.replica_state.specs.Slots.{slot_held, slot_key, slot_number, shown_slots};
ghost use Rattle.replica_state.specs.MatrixOrder.{slots_map};
ghost use Rattle.operations.specs.declared.counted.Counted.TheVariants.{Hits, Execs};

use crate::slot::{self, Slot};
use actions::Name;
use lattice_laws::{Join, MapOf};
use operations::{Count, Counted};
use stamp_register::Key;
use std::alloc::{AllocError, Global};

/// What is stored of names: of each its slot.
pub(crate) type Slots = MapOf<Name, Slot>;

/// Tells a proof that the slots are those of a map. What `is_bottom` answers is of no use: its call
/// says it.
pub(crate) fn note_is_map(slots: &Slots)
    ensures { slots_map slots.now }
{
    let _ = slots.is_bottom();
}

/// What is stored of a name, if anything is.
#[inline(always)]
pub(crate) fn get<'a>(slots: &'a Slots, name: &Name) -> Option<&'a Slot>
    ensures some { IfSome result (λ slot. IsSlotOf (shown_slots slots.now) name.now slot.now) }
    ensures none { IfNone result (HasNoSlot (shown_slots slots.now) name.now) }
{
    note_is_map(slots);
    slots.get(name)
}

// Changes what is stored of a name in place. Where nothing is, nothing changes.
#[inline(always)]
fn change<F: FnOnce(&mut Slot) -> Result<(), AllocError>>(
    slots: &mut Slots,
    name: &Name,
    call: F,
) -> Option<Result<(), AllocError>>
    requires { (slot : MutBor _) → IsSlotOf (shown_slots slots.old) name.now slot.now
        → F.pre call slot }
    ensures some { IfSome result (ChangesSlot (FnOnceReturnsAtMut F.FnOnce call)
        (shown_slots slots.old) (shown_slots slots.new) name.now) }
    ensures none { IfNone result (HasNoSlot (shown_slots slots.old) name.now) }
    ensures unchanged { IfNone result (slots.new ≡ slots.old) }
{
    note_is_map(slots);
    let changed = slots.change(name, call);
    note_is_map(slots);
    changed
}

// Stores what is known of a name of which nothing was.
fn put(slots: &mut Slots, alloc: Global, name: Name, slot: Slot) -> Result<(), AllocError>
    requires new { HasNoSlot (shown_slots slots.old) name }
    requires some { slot_held slot ≢ empty_held }
    ensures ok { OnOk result (shown_slots slots.new
        ≡ with_held name (slot_held slot) (shown_slots slots.old)) }
    ensures err { OnErr result (slots.new ≡ slots.old) }
{
    note_is_map(slots);
    slots.raise(alloc, name, slot)?;
    note_is_map(slots);
    Ok(())
}

/// Learns what an operation of a name says that has this key or none, and this count or none.
pub(crate) fn learn(
    slots: &mut Slots,
    alloc: Global,
    name: &Name,
    key: Option<&Key>,
    count: Option<Count>,
) -> Result<(), AllocError>
    requires kinds { IfSome count (λ c. is_hits c.counted ≡ is_none key) }
    requires something { SaysSomething (given_key key) count }
    ensures ok { OnOk result (shown_slots slots.new ≡ with_change name.now
        (held_after_learning (given_key key.entry) count) (shown_slots slots.old)) }
    ensures err { OnErr result (shown_slots slots.new ≡ shown_slots slots.old) }
{
    let learn = |held: &mut Slot|
        requires { IfSome count (λ c. is_hits c.counted ≡ is_none key) }
        ensures ok { OnOk result (slot_held held.new
            ≡ held_after_learning (given_key key.entry) count (slot_held held.old)) }
        ensures err { OnErr result (slot_held held.new ≡ slot_held held.old) }
    { slot::learn(held, alloc, key, count) };
    if let Some(learned) = change(slots, name, learn) {
        return learned;
    }
    let mut new = slot::empty(alloc);
    slot::learn(&mut new, alloc, key, count)?;
    put(slots, alloc, name.copied(alloc)?, new)
}

/// Gives a name another key, of which nothing was executed or shifted yet.
pub(crate) fn set_key(
    slots: &mut Slots,
    alloc: Global,
    name: Name,
    key: Key,
) -> Result<(), AllocError>
    ensures ok { OnOk result (shown_slots slots.new
        ≡ with_key name (key_value key) (shown_slots slots.old)) }
    ensures err { OnErr result (shown_slots slots.new ≡ shown_slots slots.old) }
{
    if get(slots, &name).is_some() {
        let take = |held: &mut Slot|
            ensures { slot_held held.new ≡ held_after_key (key_value key) (slot_held held.old) }
        {
            slot::take(held, alloc, key);
            Ok(())
        };
        let _ = change(slots, &name, take);
        return Ok(());
    }
    let mut new = slot::empty(alloc);
    slot::take(&mut new, alloc, key);
    put(slots, alloc, name, new)
}

/// Counts a pass of a name that has a key and, where a counted term was triggered, its execution.
#[inline(always)]
pub(crate) fn count_pass(
    slots: &mut Slots,
    alloc: Global,
    name: &Name,
    node: u8,
    spent: Option<u8>,
) -> Result<(), AllocError>
    requires set { IsSome ((shown_slots slots.old).key name.now) }
    requires hits { (shown_slots slots.old).hits name.now node + 1 < 2 ^ 64 }
    requires execs { IfSome spent
        (λ term. (shown_slots slots.old).execs name.now term node + 1 < 2 ^ 64) }
    ensures ok { OnOk result (shown_slots slots.new
        ≡ with_pass name.now node spent (shown_slots slots.old)) }
    ensures err { OnErr result (shown_slots slots.new ≡ shown_slots slots.old) }
{
    let pass = |held: &mut Slot|
        requires set { IsSome (slot_key held.old) }
        requires hits { slot_number held.old (Hits node) + 1 < 2 ^ 64 }
        requires execs { IfSome spent
            (λ term. slot_number held.old (Execs term node) + 1 < 2 ^ 64) }
        ensures ok { OnOk result (slot_held held.new
            ≡ held_after_pass node spent (slot_held held.old)) }
        ensures err { OnErr result (slot_held held.new ≡ slot_held held.old) }
    { slot::pass(held, alloc, node, spent) };
    match change(slots, name, pass) {
        Some(passed) => passed,
        None => Ok(()),
    }
}

/// Counts so much of a name that has a key, under that key.
pub(crate) fn count(
    slots: &mut Slots,
    alloc: Global,
    name: &Name,
    count: Count,
) -> Result<(), AllocError>
    requires { IsSome ((shown_slots slots.old).key name.now) }
    ensures ok { OnOk result (shown_slots slots.new
        ≡ with_change name.now (held_after_count count) (shown_slots slots.old)) }
    ensures named { with_name name.now (shown_slots slots.old).names
        ≡ (shown_slots slots.old).names }
    ensures err { OnErr result (shown_slots slots.new ≡ shown_slots slots.old) }
{
    let raise = |held: &mut Slot|
        requires { IsSome (slot_key held.old) }
        ensures ok { OnOk result (slot_held held.new ≡ held_after_count count (slot_held held.old)) }
        ensures err { OnErr result (slot_held held.new ≡ slot_held held.old) }
    { slot::count(held, alloc, count) };
    match change(slots, name, raise) {
        Some(raised) => raised,
        None => Ok(()),
    }
}

/// Counts the rights to a term that one node moved to another, of a name that has a key.
pub(crate) fn count_shift(
    slots: &mut Slots,
    alloc: Global,
    name: &Name,
    term: u8,
    from: u8,
    to: u8,
    total: u64,
) -> Result<(), AllocError>
    requires set { IsSome ((shown_slots slots.old).key name.now) }
    requires more { (shown_slots slots.old).shifts name.now term from to ≤ total }
    ensures ok { OnOk result (shown_slots slots.new
        ≡ with_shifts name.now term from to total (shown_slots slots.old)) }
    ensures err { OnErr result (shown_slots slots.new ≡ shown_slots slots.old) }
{
    let shifts = Counted::Shifts { term, from, to };
    count(slots, alloc, name, shifts.times(total))
}

//! What a matrix stores of one name.

ghost use Rattle.std.specs.Prelude.{◌≡◌, ◌+◌, ◌<◌, ◌<ℤ◌, ◌≤◌, ◌^◌, ◌==◌, if◌then◌else◌, pos, length, map};
ghost use Rattle.std.specs.Prelude.{◌↔◌, ℕ, option_map, is_none, Some, None, OnOk, IsTrue};
ghost use Rattle.std.specs.List.{All, range_with_len};
ghost use Rattle.std.specs.Prelude.{OnErr, IfOk, IfNone, IfSome, IsSome, false};
ghost use Rattle.counters.specs.Sums.{node_numbers, sum_below};
ghost use Rattle.counters.specs.Budgets.{rights, total_spent};
ghost use Rattle.counters.specs.Cells.{budget_of, spent_cell, WritesSpent};
ghost use Rattle.stamp_register.specs.Keys.{key_value};
ghost use Rattle.replica_state.specs.Points.{empty_held, order_to_held, held_after_learning};
ghost use Rattle.replica_state.specs.Points.{held_after_key, held_after_pass, held_after_count};
ghost use Rattle.replica_state.specs.Points.{Raises, spent_of_key};
ghost use Rattle.operations.specs.Counts.{is_hits, term_of, given_key};
ghost use Rattle.replica_state.specs.Slots.{IsShareRaised, slot_held, slot_key, slot_number};
ghost use Rattle.replica_state.specs.Slots.{slot_rights, share_number, budgets_number};
ghost use Rattle.replica_state.specs.States.{MarksRights};
ghost use Rattle.operations.specs.declared.counted.Counted.{Counted};
ghost use Rattle.operations.specs.declared.counted.Counted.TheVariants.{Hits, Execs, Shifts};

use crate::reader::Stored;
use crate::terms::terms_of;
use counters::{Budget, HitCounter};
use lattice_laws::{Join, LexOf, MapOf, PairOf};
use operations::{Count, Counted, count_of};
use stamp_register::Key;
use std::alloc::{AllocError, Global};
use std::cmp::Ordering;

/// The budgets of a key's terms.
pub(crate) type Budgets = MapOf<u8, Budget>;

// What is stored of a name, joined part by part.
type Parts = PairOf<LexOf<Key, Budgets>, HitCounter>;

/// A key with the budgets of its terms, and hits, which belong to no key.
#[derive(Debug)]
pub struct Slot {
    parts: Parts,
}

impl Drop for Slot {
    fn drop(self) {
        let Slot { parts: _ } = self;
    }
}

impl Join for Slot {
    ghost use Rattle.replica_state.specs.MatrixOrder.{are_slots, slots_order, slots_laws};
    ghost use Rattle.replica_state.specs.Slots.{no_slot};

    ghost admitted = { are_slots };

    ghost order = { slots_order };

    ghost bottom = { no_slot };

    ghost laws = { slots_laws };

    fn joined(&self, alloc: Global, other: &Slot) -> Result<Slot, AllocError> {
        let parts = self.parts.joined(alloc, &other.parts)?;
        Ok(Slot { parts })
    }

    fn below(&self, other: &Slot) -> bool {
        self.parts.below(&other.parts)
    }

    fn is_bottom(&self) -> bool {
        self.parts.is_bottom()
    }

    fn copied(&self, alloc: Global) -> Result<Slot, AllocError> {
        let parts = self.parts.copied(alloc)?;
        Ok(Slot { parts })
    }

    fn join_in(&mut self, alloc: Global, other: Slot) -> Result<(), AllocError> {
        let Slot { parts } = other;
        self.parts.join_in(alloc, parts)
    }
}

impl Stored for Slot {
    ghost held = { slot_held };

    #[tactic(auto, unfolding(crate::specs::Slots::slot_held))]
    fn key(&self) -> Option<&Key> {
        key(self)
    }

    #[tactic(auto, unfolding(crate::specs::Slots::slot_held))]
    fn number(&self, counted: Counted) -> u64 {
        number(self, counted)
    }

    #[tactic(auto, unfolding(crate::specs::Slots::slot_held))]
    fn rights(&self, term: u8, node: u8) -> i128 {
        rights(self, term, node)
    }

    #[tactic(auto, unfolding(crate::specs::Slots::slot_held))]
    fn rights_of_all(&self, term: u8, into: &mut [i128]) {
        rights_of_all(self, term, into);
    }

    #[tactic(auto, unfolding(crate::specs::Slots::slot_held))]
    fn have_rights(&self, term: u8, nodes: &[u8]) -> bool {
        have_rights(self, term, nodes)
    }

    #[tactic(auto, unfolding(crate::specs::Slots::slot_held))]
    fn execs_of_all(&self, term: u8, into: &mut [u64]) {
        execs_of_all(self, term, into);
    }

    #[tactic(auto, unfolding(crate::specs::Slots::slot_held))]
    fn hits_of_all(&self, into: &mut [u64]) {
        self.parts.second.of_all(into);
    }
}

/// What is stored of a name of which nothing is known.
pub(crate) fn empty(alloc: Global) -> Slot
    ensures { slot_held result ≡ empty_held }
{
    Slot {
        parts: PairOf {
            first: LexOf::nothing(),
            second: HitCounter::new(alloc),
        },
    }
}

/// The key, if there is one.
#[inline(always)]
pub(crate) fn key(slot: &Slot) -> Option<&Key>
    ensures { given_key result ≡ slot_key slot.now }
{
    let (key, _) = slot.parts.first.held()?;
    Some(key)
}

// The budget of a term under the key, where anything of it was spent or moved.
pub(crate) fn budget(slot: &Slot, term: u8) -> Option<&Budget>
    ensures some { IfSome result (λ b. (c : Counted) → term_of c ≡ Some term
        → slot_number slot.now c ≡ share_number b.now c) }
    ensures none { IfNone result ((c : Counted) → term_of c ≡ Some term
        → slot_number slot.now c ≡ 0) }
{
    let (_, budgets) = slot.parts.first.held()?;
    budgets.get(&term)
}

/// The number of what is counted so.
pub(crate) fn number(slot: &Slot, counted: Counted) -> u64
    ensures { result ≡ slot_number slot.now counted }
{
    match counted {
        Counted::Hits { node } => slot.parts.second.of(node),
        Counted::Execs { term, node } => match budget(slot, term) {
            Some(budget) => budget.spent(node),
            None => 0,
        },
        Counted::Shifts { term, from, to } => match budget(slot, term) {
            Some(budget) => budget.moved(from, to),
            None => 0,
        },
    }
}

/// The hits at all nodes.
pub(crate) fn total_hits(slot: &Slot) -> u128
    ensures { result ≡ sum_below node_numbers (λ node. slot_number slot.now (Hits node)) }
{
    slot.parts.second.total()
}

/// The rights of a node to execute a term, 0 where it isn't counted.
#[inline(always)]
pub(crate) fn rights(slot: &Slot, term: u8, node: u8) -> i128
    ensures { result ≡ slot_rights slot.now term node }
{
    let Some((key, budgets)) = slot.parts.first.held() else {
        return 0;
    };
    let Some(count) = count_of(key, term) else {
        return 0;
    };
    match budgets.get(&term) {
        Some(budget) => budget.rights(key.node, count, node),
        None if node == key.node => i128::from(count),
        None => 0,
    }
}

// The rights of the first nodes to a count of which nothing is spent, moved or granted.
fn untouched_rights(setter: u8, count: u64, into: &mut [i128])
    ensures { into.new ≡ map (λ node. pos (if node == setter then count else 0))
        (range_with_len 0 (length into.old)) }
{
    into.fill(0);
    let place = usize::from(setter);
    if place < into.len() {
        into[place] = i128::from(count);
    }
}

/// The rights of the first nodes to execute a term, of as many as there are places.
pub(crate) fn rights_of_all(slot: &Slot, term: u8, into: &mut [i128])
    requires { length into.old ≤ 256 }
    ensures { into.new ≡ map (slot_rights slot.now term) (range_with_len 0 (length into.old)) }
{
    let Some((key, budgets)) = slot.parts.first.held() else {
        into.fill(0);
        return;
    };
    let Some(count) = count_of(key, term) else {
        into.fill(0);
        return;
    };
    match budgets.get(&term) {
        Some(budget) => budget.rights_of_all(key.node, count, into),
        None => untouched_rights(key.node, count, into),
    }
}

// The budget of a counted term, where anything of it was spent or moved: who set it, its count, and
// what the nodes did with it.
fn counted_budget(slot: &Slot, term: u8) -> Option<(u8, u64, &Budget)>
    ensures { IfSome result (λ b. (node : ℕ)
        → rights (budget_of b.2.now b.0 b.1) node ≡ slot_rights slot.now term node) }
{
    let (key, budgets) = slot.parts.first.held()?;
    let count = count_of(key, term)?;
    let budget = budgets.get(&term)?;
    Some((key.node, count, budget))
}

// Whether each of these nodes has a right to execute a term, by the rights of each.
fn have_each(slot: &Slot, term: u8, nodes: &[u8]) -> bool
    ensures { IsTrue result
        ↔ All (λ node. pos 0 <ℤ slot_rights slot.now term node) nodes.now }
{
    for node in nodes {
        if rights(slot, term, *node) <= 0 {
            return false;
        }
    }
    true
}

/// Whether each of these nodes has a right to execute a term.
pub(crate) fn have_rights(slot: &Slot, term: u8, nodes: &[u8]) -> bool
    ensures { IsTrue result
        ↔ All (λ node. pos 0 <ℤ slot_rights slot.now term node) nodes.now }
{
    match counted_budget(slot, term) {
        Some((setter, count, budget)) => budget.have_rights(setter, count, nodes),
        None => have_each(slot, term, nodes),
    }
}

/// The executions of a term at the first nodes, of as many as there are places.
pub(crate) fn execs_of_all(slot: &Slot, term: u8, into: &mut [u64])
    ensures { into.new ≡ map (λ node. slot_number slot.now (Execs term node))
        (range_with_len 0 (length into.old)) }
{
    match budget(slot, term) {
        Some(budget) => budget.spent_of_all(into),
        None => into.fill(0),
    }
}

/// The key, if there is one, and of each of its terms whether a node has a right to execute it.
#[inline(always)]
pub(crate) fn key_and_rights(slot: &Slot, node: u8) -> Option<(&Key, [bool; 16])>
    ensures key { option_map (λ p. key_value p.0.now) result ≡ slot_key slot.now }
    ensures rights { IfSome result (λ p. MarksRights (λ term. slot_rights slot.now term node) p.1) }
{
    let key = key(slot)?;
    let mut marks = [false; 16];
    for term in 0..terms_of(key) {
        marks[term] = rights(slot, term as u8, node) >= 1;
    }
    Some((key, marks))
}

/// The executions of a term at all nodes, 0 where it isn't counted.
pub(crate) fn spent(slot: &Slot, term: u8) -> u128
    ensures { result ≡ spent_of_key (slot_key slot.now) (slot_number slot.now) term }
{
    let Some((key, budgets)) = slot.parts.first.held() else {
        return 0;
    };
    let Some(_) = count_of(key, term) else {
        return 0;
    };
    match budgets.get(&term) {
        Some(budget) => budget.total_spent(),
        None => 0,
    }
}

/// What all nodes granted themselves of a term.
pub(crate) fn total_granted(slot: &Slot, term: u8) -> u128
    ensures { result ≡ sum_below node_numbers
        (λ node. slot_number slot.now (Shifts term node node)) }
{
    match budget(slot, term) {
        Some(budget) => budget.total_granted(),
        None => 0,
    }
}

/// Takes a key, of which nothing is counted yet; hits go on.
pub(crate) fn take(slot: &mut Slot, alloc: Global, key: Key)
    ensures { slot_held slot.new ≡ held_after_key (key_value key) (slot_held slot.old) }
{
    slot.parts.first = LexOf::of(key, MapOf::new(alloc));
}

// How a key stands to the one that is held. Where none is, each is greater.
fn order_to_held(slot: &Slot, key: &Key) -> Ordering
    ensures { result ≡ order_to_held (key_value key.now) (slot_key slot.now) }
{
    match slot.parts.first.held() {
        Some((held, _)) => key.cmp(held),
        None => Ordering::Greater,
    }
}

// Raises what is counted of a budget's own term.
fn raise_share(budget: &mut Budget, alloc: Global, count: Count) -> Result<(), AllocError>
    ensures ok { OnOk result (IsShareRaised budget.old budget.new count.counted count.number) }
    ensures err { OnErr result (budget.new ≡ budget.old) }
    ensures absent { OnErr result (share_number budget.old count.counted ≡ 0) }
{
    match count.counted {
        Counted::Hits { .. } => Ok(()),
        Counted::Execs { node, .. } => budget.raise_spent(node, count.number),
        Counted::Shifts { from, to, .. } => budget.raise_moved(alloc, from, to, count.number),
    }
}

// Raises what is counted of a term.
fn raise_term(
    budgets: &mut Budgets,
    alloc: Global,
    term: u8,
    count: Count,
) -> Result<(), AllocError>
    requires { term_of count.counted ≡ Some term }
    ensures ok { OnOk result
        (Raises (budgets_number budgets.old) (budgets_number budgets.new) (Some count)) }
    ensures err { OnErr result (budgets.new ≡ budgets.old) }
    ensures absent { OnErr result (budgets_number budgets.old count.counted ≡ 0) }
{
    match budgets.change(&term, |budget| raise_share(budget, alloc, count)) {
        Some(raised) => raised,
        None => {
            let mut budget = Budget::new(alloc);
            raise_share(&mut budget, alloc, count)?;
            budgets.raise(alloc, term, budget)
        }
    }
}

// Raises the number of what is counted.
fn raise(slot: &mut Slot, alloc: Global, count: Count) -> Result<(), AllocError>
    requires under { is_hits count.counted ≡ false → IsSome (slot_key slot.old) }
    ensures key { slot_key slot.new ≡ slot_key slot.old }
    ensures ok { OnOk result (Raises (slot_number slot.old) (slot_number slot.new) (Some count)) }
    ensures err { OnErr result (slot_held slot.new ≡ slot_held slot.old) }
    ensures absent { OnErr result (slot_number slot.old count.counted ≡ 0) }
{
    let term = match count.counted {
        Counted::Hits { node } => return slot.parts.second.raise(node, count.number),
        Counted::Execs { term, .. } => term,
        Counted::Shifts { term, .. } => term,
    };
    match slot
        .parts
        .first
        .change(|budgets| raise_term(budgets, alloc, term, count))
    {
        Some(raised) => raised,
        None => Ok(()),
    }
}

// Raises what is counted, if anything is.
fn raise_if_any(slot: &mut Slot, alloc: Global, count: Option<Count>) -> Result<(), AllocError>
    requires under { IfSome count (λ c. is_hits c.counted ≡ false → IsSome (slot_key slot.old)) }
    ensures key { slot_key slot.new ≡ slot_key slot.old }
    ensures ok { OnOk result (Raises (slot_number slot.old) (slot_number slot.new) count) }
    ensures err { OnErr result (slot_held slot.new ≡ slot_held slot.old) }
{
    match count {
        Some(count) => raise(slot, alloc, count),
        None => Ok(()),
    }
}

// The budgets of a key of which nothing is counted but this.
fn budgets_with(alloc: Global, count: Option<Count>) -> Result<Budgets, AllocError>
    requires { IfSome count (λ c. is_hits c.counted ≡ false) }
    ensures { IfOk result (λ b. Raises (λ c. 0) (budgets_number b) count) }
{
    let mut budgets = MapOf::new(alloc);
    let Some(count) = count else {
        return Ok(budgets);
    };
    let Some(term) = count.counted.term() else {
        return Ok(budgets);
    };
    raise_term(&mut budgets, alloc, term, count)?;
    Ok(budgets)
}

/// Learns what an operation says that has this key or none, and this count or none.
pub(crate) fn learn(
    slot: &mut Slot,
    alloc: Global,
    key: Option<&Key>,
    count: Option<Count>,
) -> Result<(), AllocError>
    requires { IfSome count (λ c. is_hits c.counted ≡ is_none key) }
    ensures ok { OnOk result (slot_held slot.new
        ≡ held_after_learning (given_key key.entry) count (slot_held slot.old)) }
    ensures err { OnErr result (slot_held slot.new ≡ slot_held slot.old) }
{
    let Some(key) = key else {
        return raise_if_any(slot, alloc, count);
    };
    match order_to_held(slot, key) {
        Ordering::Less => Ok(()),
        Ordering::Equal => raise_if_any(slot, alloc, count),
        Ordering::Greater => {
            let budgets = budgets_with(alloc, count)?;
            slot.parts.first = LexOf::of(key.copied(alloc)?, budgets);
            Ok(())
        }
    }
}

// Counts an execution of a budget's own term at a node.
#[inline(always)]
fn execute_share(budget: &mut Budget, node: u8) -> Result<(), AllocError>
    ensures ok { OnOk result
        (WritesSpent budget.old budget.new node (spent_cell budget.old node + 1)) }
    ensures err { OnErr result (budget.new ≡ budget.old) }
{
    match budget.count_spent(node) {
        Ok(_) => Ok(()),
        Err(_) => Err(AllocError),
    }
}

// Counts an execution of a term at a node.
#[inline(always)]
fn execute_term(budgets: &mut Budgets, alloc: Global, term: u8, node: u8) -> Result<(), AllocError>
    ensures ok { OnOk result (Raises (budgets_number budgets.old) (budgets_number budgets.new)
        (Some (record {
          counted = Execs term node;
          number = budgets_number budgets.old (Execs term node) + 1;
        }))) }
    ensures err { OnErr result (budgets.new ≡ budgets.old) }
{
    match budgets.change(&term, |budget| execute_share(budget, node)) {
        Some(executed) => executed,
        None => {
            let mut budget = Budget::new(alloc);
            execute_share(&mut budget, node)?;
            budgets.raise(alloc, term, budget)
        }
    }
}

// Counts an execution of a term of the key at a node.
#[inline(always)]
fn execute(slot: &mut Slot, alloc: Global, term: u8, node: u8) -> Result<(), AllocError>
    requires { IsSome (slot_key slot.old) }
    ensures key { slot_key slot.new ≡ slot_key slot.old }
    ensures ok { OnOk result (Raises (slot_number slot.old) (slot_number slot.new)
        (Some (record {
          counted = Execs term node;
          number = slot_number slot.old (Execs term node) + 1;
        }))) }
    ensures err { OnErr result (slot_held slot.new ≡ slot_held slot.old) }
{
    match slot
        .parts
        .first
        .change(|budgets| execute_term(budgets, alloc, term, node))
    {
        Some(executed) => executed,
        None => Ok(()),
    }
}

// Counts a hit at a node.
#[inline(always)]
fn hit(slot: &mut Slot, node: u8) -> Result<(), AllocError>
    requires { slot_number slot.old (Hits node) + 1 < 2 ^ 64 }
    ensures key { slot_key slot.new ≡ slot_key slot.old }
    ensures ok { OnOk result (Raises (slot_number slot.old) (slot_number slot.new)
        (Some (record { counted = Hits node; number = slot_number slot.old (Hits node) + 1 }))) }
    ensures err { OnErr result (slot_held slot.new ≡ slot_held slot.old) }
    ensures absent { OnErr result (slot_number slot.old (Hits node) ≡ 0) }
{
    match slot.parts.second.hit(node) {
        Ok(_) => Ok(()),
        Err(_) => Err(AllocError),
    }
}

/// Counts a hit at a node and, where a term was triggered, its execution there.
#[inline(always)]
pub(crate) fn pass(
    slot: &mut Slot,
    alloc: Global,
    node: u8,
    spent: Option<u8>,
) -> Result<(), AllocError>
    requires set { IsSome (slot_key slot.old) }
    requires hits { slot_number slot.old (Hits node) + 1 < 2 ^ 64 }
    requires execs { IfSome spent
        (λ term. slot_number slot.old (Execs term node) + 1 < 2 ^ 64) }
    ensures ok { OnOk result (slot_held slot.new ≡ held_after_pass node spent (slot_held slot.old)) }
    ensures err { OnErr result (slot_held slot.new ≡ slot_held slot.old) }
{
    let Some(term) = spent else {
        return hit(slot, node);
    };
    if slot.parts.second.of(node) == 0 {
        // The hit takes memory, as perhaps the execution does: so it is counted aside first.
        let mut counter = slot.parts.second.copied(alloc)?;
        counter.raise(node, 1)?;
        execute(slot, alloc, term, node)?;
        slot.parts.second = counter;
        return Ok(());
    }
    execute(slot, alloc, term, node)?;
    hit(slot, node)
}

/// Counts so much under the key that is held, which isn't looked at.
pub(crate) fn count(slot: &mut Slot, alloc: Global, count: Count) -> Result<(), AllocError>
    requires set { IsSome (slot_key slot.old) }
    ensures ok { OnOk result (slot_held slot.new ≡ held_after_count count (slot_held slot.old)) }
    ensures err { OnErr result (slot_held slot.new ≡ slot_held slot.old) }
{
    raise(slot, alloc, count)
}

//! What the plain replica holds of one name.

ghost use Rattle.std.specs.Prelude.{◌≡◌, ◌+◌, ◌-◌, ◌<◌, ◌≤◌, ◌^◌, ◌*◌, ◌↔◌, ◌||◌, ℕ, List, max};
ghost use Rattle.std.specs.Prelude.{nat_le, not, filter, vec_len, vec_capacity, position};
ghost use Rattle.std.specs.Prelude.{option_map, Some, None, OnOk, OnErr, IfSome, IsSome, IsTrue};
ghost use Rattle.std.specs.List.{list_all};
ghost use Rattle.std.specs.Option.{option_copied};
ghost use Rattle.counters.specs.Sums.{node_numbers, sum_below};
ghost use Rattle.counters.specs.Budgets.{rights};
ghost use Rattle.stamp_register.specs.Keys.{key_value};
ghost use Rattle.replica_state.specs.Points.{only_hits, empty_held, order_to_held};
ghost use Rattle.replica_state.specs.Points.{held_after_learning, held_after_pass};
ghost use Rattle.replica_state.specs.Points.{held_after_shift, Raises, rights_of_key, spent_of_key};
ghost use Rattle.operations.specs.Counts.{same_counted, is_hits, term_of, given_key, key_told, operation_told};
ghost use Rattle.op_set.specs.Counts.{node_bound, number_of, held_of};
ghost use Rattle.replica_state.specs.Unions.{both_held, if_counts, IsHeldBelow};
ghost use Rattle.operations.specs.declared.counted.Counted.{Counted};
ghost use Rattle.operations.specs.declared.counted.Counted.TheVariants.{Hits, Execs, Shifts};

use crate::budget::{rights_in, sum_execs, sum_grants, sum_hits};
use replica_state::{Count, Counted, Stored, count_of};
use stamp_register::Key;
use std::alloc::{AllocError, Global};
use std::cmp::Ordering;

/// What nothing has overtaken of one name: its key, and counts of hits and under that key. Where
/// one thing is counted twice, the greater number holds.
#[derive(Debug, Drop)]
pub struct Point {
    key: Option<Key>,
    counts: Vec<Count>,
}

/// Whether both count the same thing.
pub(crate) fn is_same(counted: Counted, other: Counted) -> bool
    ensures { result ≡ same_counted counted other }
{
    match (counted, other) {
        (Counted::Hits { node }, Counted::Hits { node: at }) => node == at,
        (Counted::Execs { term, node }, Counted::Execs { term: of, node: at }) => term == of
            && node == at,
        (
            Counted::Shifts { term, from, to },
            Counted::Shifts {
                term: of,
                from: here,
                to: there,
            },
        ) => term == of && from == here && to == there,
        _ => false,
    }
}

/// A number above those of its nodes.
pub(crate) fn node_bound(counted: Counted) -> u16
    ensures value { result ≡ node_bound counted }
    ensures small { result ≤ 256 }
{
    let last = match counted {
        Counted::Hits { node } => node,
        Counted::Execs { node, .. } => node,
        Counted::Shifts { from, to, .. } => from.max(to),
    };
    u16::from(last) + 1
}

// Whether it counts under the same key or another one: hits go on, and the rest doesn't.
fn counts_under(counted: Counted, same_key: bool) -> bool
    ensures { result ≡ (same_key || is_hits counted) }
{
    same_key || counted.is_hits()
}

/// The greatest number that is counted so.
pub(crate) fn number_of(counts: &[Count], counted: Counted) -> u64
    ensures { result ≡ number_of counts.now counted }
{
    let mut number = 0;
    for count in counts {
        if is_same(count.counted, counted) {
            number = count.number.max(number);
        }
    }
    number
}

// The place of the first count of what is counted so.
fn place_of(counts: &[Count], counted: Counted) -> Option<usize>
    ensures { result ≡ position (λ c. same_counted c.counted counted) counts.now }
{
    counts.iter().position(|c| is_same(c.counted, counted))
}

// Raises the number of what is counted, or adds it where room was made.
fn raise(counts: &mut Vec<Count>, count: Count)
    requires { vec_len counts.old < vec_capacity counts.old }
    ensures number { Raises (number_of counts.old.items) (number_of counts.new.items) (Some count) }
    ensures len { vec_len counts.new ≤ vec_len counts.old + 1 }
    // What is counted already takes no more room.
    ensures in_place { IsSome (position (λ c. same_counted c.counted count.counted) counts.old.items)
        → vec_len counts.new ≡ vec_len counts.old }
    ensures capacity { vec_capacity counts.new ≡ vec_capacity counts.old }
{
    match place_of(counts, count.counted) {
        Some(place) => {
            let held = &mut counts[place];
            held.number = held.number.max(count.number);
        }
        None => counts.push_reserved(count),
    }
}

// Adds a count where room was made.
fn put(counts: &mut Vec<Count>, count: Option<Count>)
    requires { vec_len counts.old < vec_capacity counts.old }
    ensures { Raises (number_of counts.old.items) (number_of counts.new.items) count }
{
    if let Some(count) = count {
        raise(counts, count);
    }
}

// Drops the counts of executions and shifts.
fn keep_hits(counts: &mut Vec<Count>)
    ensures items { counts.new.items ≡ filter (λ c. is_hits c.counted) counts.old.items }
    ensures len { vec_len counts.new ≤ vec_len counts.old }
    ensures capacity { vec_capacity counts.new ≡ vec_capacity counts.old }
{
    counts.retain(|c| c.counted.is_hits());
}

// Whether no number is greater than the other's. Under another key only hits are compared.
fn all_below(counts: &[Count], others: &[Count], same_key: bool) -> bool
    ensures { result ≡ list_all (λ c. not (same_key || is_hits c.counted)
        || nat_le c.number (number_of others.now c.counted)) counts.now }
{
    counts.iter().all(|c| !counts_under(c.counted, same_key)
        || c.number <= number_of(others, c.counted))
}

impl Stored for Point {
    ghost held = { held_of };

    #[tactic(auto, unfolding(crate::specs::Counts::held_of))]
    fn key(&self) -> Option<&Key> {
        self.key.as_ref()
    }

    #[tactic(auto, unfolding(crate::specs::Counts::held_of))]
    fn number(&self, counted: Counted) -> u64 {
        number_of(&self.counts, counted)
    }

    #[tactic(auto, unfolding(crate::specs::Counts::held_of))]
    fn rights(&self, term: u8, node: u8) -> i128 {
        self.rights(term, node)
    }
}

impl Point {
    /// What is held of a name of which nothing is known.
    pub(crate) fn empty(alloc: Global) -> Point
        ensures { held_of result ≡ empty_held }
    {
        Point {
            key: None,
            counts: Vec::new(alloc),
        }
    }

    /// The key, if there is one.
    pub(crate) fn key(&self) -> Option<&Key>
        ensures { option_copied result ≡ self.now.key }
    {
        self.key.as_ref()
    }

    /// The number of what is counted so.
    pub(crate) fn number(&self, counted: Counted) -> u64
        ensures { result ≡ number_of self.now.counts.items counted }
    {
        number_of(&self.counts, counted)
    }

    /// The hits at all nodes.
    pub(crate) fn total_hits(&self) -> u128
        ensures { result ≡ sum_below node_numbers (λ node. number_of self.now.counts.items (Hits node)) }
    {
        sum_hits(&self.counts)
    }

    /// The rights of a node to execute a term, 0 where it isn't counted.
    pub(crate) fn rights(&self, term: u8, node: u8) -> i128
        ensures { result ≡ rights_of_key (option_map key_value self.now.key)
            (number_of self.now.counts.items) term node }
    {
        match &self.key {
            Some(key) => match count_of(key, term) {
                Some(count) => rights_in(&self.counts, term, key.node, count, node),
                None => 0,
            },
            None => 0,
        }
    }

    /// The executions of a term at all nodes, 0 where it isn't counted.
    pub(crate) fn spent(&self, term: u8) -> u128
        ensures { result ≡ spent_of_key (option_map key_value self.now.key)
            (number_of self.now.counts.items) term }
    {
        match &self.key {
            Some(key) => match count_of(key, term) {
                Some(_) => sum_execs(&self.counts, term),
                None => 0,
            },
            None => 0,
        }
    }

    /// What all nodes granted themselves of a term.
    pub(crate) fn total_granted(&self, term: u8) -> u128
        ensures { result ≡ sum_below node_numbers
            (λ node. number_of self.now.counts.items (Shifts term node node)) }
    {
        sum_grants(&self.counts, term)
    }

    /// Takes a key, of which nothing is counted yet; hits go on.
    pub(crate) fn take(&mut self, key: Key)
        ensures key { self.new.key ≡ Some key }
        ensures number { (c : Counted)
            → number_of self.new.counts.items c ≡ only_hits (number_of self.old.counts.items) c }
        ensures len { vec_len self.new.counts ≤ vec_len self.old.counts }
        ensures capacity { vec_capacity self.new.counts ≡ vec_capacity self.old.counts }
    {
        self.key = Some(key);
        keep_hits(&mut self.counts);
    }

    /// How a key stands to the one that is held. Where none is, each is greater.
    fn order_to_held(&self, key: &Key) -> Ordering
        ensures { result ≡ order_to_held (key_value key.now) (option_map key_value self.now.key) }
    {
        match &self.key {
            Some(held) => key.cmp(held),
            None => Ordering::Greater,
        }
    }

    /// Learns what an operation says that has this key or none, and this count or none.
    pub(crate) fn learn(
        &mut self,
        alloc: Global,
        key: Option<&Key>,
        count: Option<Count>,
    ) -> Result<(), AllocError>
        ensures ok { OnOk result (held_of self.new
            ≡ held_after_learning (given_key key.entry) count (held_of self.old)) }
        ensures err { OnErr result (held_of self.new ≡ held_of self.old) }
    {
        match key {
            None => self.count(count),
            Some(key) => match self.order_to_held(key) {
                Ordering::Less => Ok(()),
                Ordering::Equal => self.count(count),
                Ordering::Greater => self.replace(key.copied(alloc)?, count),
            },
        }
    }

    // Adds a count.
    fn count(&mut self, count: Option<Count>) -> Result<(), AllocError>
        ensures key { self.new.key ≡ self.old.key }
        ensures ok { OnOk result
            (Raises (number_of self.old.counts.items) (number_of self.new.counts.items) count) }
        ensures err { OnErr result (self.new.counts.items ≡ self.old.counts.items) }
    {
        if let Some(count) = count {
            self.counts.reserve(1)?;
            raise(&mut self.counts, count);
        }
        Ok(())
    }

    // Takes a key, and a count under it.
    #[tactic(auto, unfolding(crate::specs::Counts::held_of))]
    fn replace(&mut self, key: Key, count: Option<Count>) -> Result<(), AllocError>
        ensures key { OnOk result (self.new.key ≡ Some key) }
        ensures ok { OnOk result (Raises (only_hits (number_of self.old.counts.items))
            (number_of self.new.counts.items) count) }
        ensures err { OnErr result (held_of self.new ≡ held_of self.old) }
    {
        self.counts.reserve(1)?;
        self.take(key);
        put(&mut self.counts, count);
        Ok(())
    }

    // The next count of what is counted so.
    fn next(&self, counted: Counted) -> Count
        requires { number_of self.now.counts.items counted + 1 < 2 ^ 64 }
        ensures { result
            ≡ record { counted = counted; number = number_of self.now.counts.items counted + 1 } }
    {
        counted.times(self.number(counted) + 1)
    }

    /// Counts a hit at a node and, where a term was triggered, its execution there.
    #[tactic(auto, unfolding(crate::specs::Counts::held_of))]
    pub(crate) fn pass(&mut self, node: u8, spent: Option<u8>) -> Result<(), AllocError>
        requires hits { number_of self.old.counts.items (Hits node) + 1 < 2 ^ 64 }
        requires execs { IfSome spent
            (λ term. number_of self.old.counts.items (Execs term node) + 1 < 2 ^ 64) }
        ensures ok { OnOk result (held_of self.new ≡ held_after_pass node spent (held_of self.old)) }
        ensures err { OnErr result (held_of self.new ≡ held_of self.old) }
    {
        let hits = self.next(Counted::Hits { node });
        let execs = match spent {
            Some(term) => Some(self.next(Counted::Execs { term, node })),
            None => None,
        };
        self.counts.reserve(2)?;
        raise(&mut self.counts, hits);
        put(&mut self.counts, execs);
        Ok(())
    }

    /// Counts the rights to a term that one node moved to another, or granted itself where both are
    /// one, so many in all.
    pub(crate) fn shift(&mut self, term: u8, from: u8, to: u8, total: u64) -> Result<(), AllocError>
        ensures ok { OnOk result (held_of self.new ≡ held_after_shift term from to total (held_of self.old)) }
        ensures err { OnErr result (held_of self.new ≡ held_of self.old) }
    {
        self.count(Some(Counted::Shifts { term, from, to }.times(total)))
    }

    // Learns counts of another point. Under another key only hits count here.
    fn count_all(&mut self, counts: &[Count], same_key: bool) -> Result<(), AllocError>
        ensures key { OnOk result (self.new.key ≡ self.old.key) }
        ensures ok { OnOk result ((c : Counted) → number_of self.new.counts.items c
            ≡ max (number_of self.old.counts.items c)
            (if_counts same_key c (number_of counts.now c))) }
    {
        for count in counts {
            if counts_under(count.counted, same_key) {
                self.count(Some(*count))?;
            }
        }
        Ok(())
    }

    /// Learns all that another point holds. After an error it may have learned a part.
    pub(crate) fn take_in(&mut self, alloc: Global, other: &Point) -> Result<(), AllocError>
        ensures { OnOk result (held_of self.new
            ≡ both_held (held_of self.old) (held_of other.now)) }
    {
        match &other.key {
            None => match &self.key {
                None => self.count_all(&other.counts, true),
                Some(_) => self.count_all(&other.counts, false),
            },
            Some(key) => match self.order_to_held(key) {
                Ordering::Less => self.count_all(&other.counts, false),
                Ordering::Equal => self.count_all(&other.counts, true),
                Ordering::Greater => {
                    self.take(key.copied(alloc)?);
                    self.count_all(&other.counts, true)
                }
            },
        }
    }

    /// Whether another point holds as much or more.
    pub(crate) fn below(&self, other: &Point) -> bool
        ensures { IsTrue result ↔ IsHeldBelow (held_of self.now) (held_of other.now) }
    {
        match &self.key {
            None => match &other.key {
                None => all_below(&self.counts, &other.counts, true),
                Some(_) => all_below(&self.counts, &other.counts, false),
            },
            Some(key) => match other.order_to_held(key) {
                Ordering::Less => all_below(&self.counts, &other.counts, false),
                Ordering::Equal => all_below(&self.counts, &other.counts, true),
                Ordering::Greater => false,
            },
        }
    }

    /// Whether it says nothing of its name: no key, and no number above 0.
    pub(crate) fn is_nothing(&self) -> bool
        ensures { IsTrue result ↔ IsHeldBelow (held_of self.now) empty_held }
    {
        match &self.key {
            None => all_below(&self.counts, &[], true),
            Some(_) => false,
        }
    }
}

//! The balance of each node, side by side.

ghost use Rattle.std.specs.Prelude.{◌≡◌, ◌≢◌, ◌≤◌, ◌<◌, ◌+◌, ◌^◌, ◌≤ℤ◌, ◌+ℤ◌, ◌-ℤ◌, ℕ, List, []};
ghost use Rattle.std.specs.Prelude.{length, map, max, pos, get_or, int_le, slice_set, true};
ghost use Rattle.std.specs.Prelude.{IfOk, OnOk, OnErr};
ghost use Rattle.std.specs.List.{range_with_len};
ghost use Rattle.counters.specs.Sums.{AreWithin};
ghost use Rattle.counters.specs.Balances.{AreMarked, AreReadFrom, IsLonger, MovesBetween};

use crate::cells::{SpentAndMoved, add_rows, write_negated};
use std::alloc::{AllocError, Global};
use std::marker::Model;

// Of how many nodes it is marked whether they are short.
const MARKED: usize = 32;

/// The balance of one node.
#[derive(Clone, Copy, Debug)]
struct Known {
    place: usize,
    balance: i128,
}

/// The balance of each node that has a place. Beside these stand whether each of the first nodes is
/// short, which is to have 0 or less, and the balance of one, the last written of those that are. So
/// the row of balances isn't looked at to know who is short, nor, mostly, what the setter of a term
/// has, whose count isn't in its balance.
#[derive(Debug, Drop)]
pub struct Balances {
    by_node: Vec<i128>,
    are_short: [bool; MARKED],
    known: Known,
}

impl Model for Balances {
    ghost use Rattle.std.specs.Prelude.{List, ℤ};
    ghost use Rattle.counters.specs.Balances.{AreKnown};

    ghost Value = { List ℤ };

    ghost view = { λ b. b.by_node.items };

    ghost invariant = { λ b. AreKnown b.are_short b.known.place b.known.balance b.by_node.items };
}

// Whether each of the first nodes is short.
fn marked(balances: &[i128]) -> [bool; MARKED]
    ensures { AreMarked result balances.now }
{
    let mut are_short = [true; MARKED];
    for place in 0..MARKED.min(balances.len()) {
        if balances[place] > 0 {
            are_short[place] = false;
        }
    }
    are_short
}

// Marks whether a node is short, if it is one of the first.
fn mark(are_short: &mut [bool; MARKED], place: usize, is_short: bool)
    ensures len { length are_short.new ≡ length are_short.old }
    ensures this_place { place < length are_short.old → get_or are_short.new place true ≡ is_short }
    ensures others { (node : ℕ) → node ≢ place
        → get_or are_short.new node true ≡ get_or are_short.old node true }
{
    if place < MARKED {
        are_short[place] = is_short;
    }
}

// The balance of the last node that is short, or of one that has no place.
fn known_among(balances: &[i128]) -> Known
    ensures { get_or balances.now result.place (pos 0) ≡ result.balance }
{
    let mut known = Known {
        place: balances.len(),
        balance: 0,
    };
    for place in 0..balances.len() {
        let balance = balances[place];
        if balance <= 0 {
            known = Known { place, balance };
        }
    }
    known
}

// Has a place for the balance of a node, with zeros up to it.
fn make_place(balances: &mut Vec<i128>, node: u8) -> Result<(), AllocError>
    requires { length balances.old.items ≤ 256 }
    ensures ok { OnOk result (length balances.new.items
        ≡ max (length balances.old.items) (node + 1)) }
    ensures longer { IsLonger balances.old.items balances.new.items }
    ensures few { length balances.new.items ≤ 256 }
    ensures err { OnErr result (balances.new.items ≡ balances.old.items) }
    ensures absent { OnErr result (length balances.old.items ≤ node) }
{
    let place = usize::from(node);
    if balances.len() <= place {
        balances.resize(place + 1, 0)?;
    }
    Ok(())
}

// Writes the balance of each node that there is a place for.
fn write_by_rows(shares: &SpentAndMoved, balances: &mut [i128])
    requires { length balances.old ≤ 256 }
    ensures len { length balances.new ≡ length balances.old }
    ensures read { AreReadFrom shares.now balances.new }
    ensures small { AreWithin (2 ^ 100) balances.new }
{
    write_negated(&shares.first, balances);
    add_rows(&shares.second, balances);
}

// Copies the balance of each node that there is a place for, 0 where there is none.
fn copy_balances(balances: &[i128], into: &mut [i128])
    ensures { into.new ≡ map (λ node. get_or balances.now node (pos 0))
        (range_with_len 0 (length into.old)) }
{
    into.fill(0);
    for place in 0..into.len().min(balances.len()) {
        into[place] = balances[place];
    }
}

impl Balances {
    /// No node has a place. It takes no memory.
    pub(crate) fn new(alloc: Global) -> Self
        ensures { result ≡ [] }
    {
        let by_node = Vec::new(alloc);
        let are_short = marked(&by_node);
        let known = known_among(&by_node);
        Balances {
            by_node,
            are_short,
            known,
        }
    }

    /// The balances of the first nodes, so many, by what the nodes spent and moved.
    pub(crate) fn settled(
        alloc: Global,
        shares: &SpentAndMoved,
        nodes: usize,
    ) -> Result<Self, AllocError>
        requires { nodes ≤ 256 }
        ensures len { IfOk result (λ balances. length balances ≡ nodes) }
        ensures read { IfOk result (λ balances. AreReadFrom shares.now balances) }
        ensures small { IfOk result (λ balances. AreWithin (2 ^ 100) balances) }
    {
        let mut by_node = Vec::new(alloc);
        by_node.resize(nodes, 0)?;
        write_by_rows(shares, &mut by_node);
        let are_short = marked(&by_node);
        let known = known_among(&by_node);
        Ok(Balances {
            by_node,
            are_short,
            known,
        })
    }

    /// Writes each balance anew, by what the nodes spent and moved.
    pub(crate) fn settle(&mut self, shares: &SpentAndMoved)
        ensures len { length self.new ≡ length self.old }
        ensures read { AreReadFrom shares.now self.new }
        ensures small { AreWithin (2 ^ 100) self.new }
    {
        write_by_rows(shares, &mut self.by_node);
        self.are_short = marked(&self.by_node);
        self.known = known_among(&self.by_node);
    }

    /// How many nodes have a place.
    pub(crate) fn len(&self) -> usize
        ensures { result ≡ length self.now }
    {
        self.by_node.len()
    }

    /// The balance of a node, 0 where it has no place.
    pub(crate) fn at(&self, node: usize) -> i128
        ensures { result ≡ get_or self.now node (pos 0) }
    {
        if self.known.place == node {
            return self.known.balance;
        }
        self.by_node.get(node).copied().unwrap_or(0)
    }

    /// The balances of the first nodes, of as many as there are places to write to.
    pub(crate) fn write_to(&self, into: &mut [i128])
        ensures { into.new ≡ map (λ node. get_or self.now node (pos 0))
            (range_with_len 0 (length into.old)) }
    {
        copy_balances(&self.by_node, into);
    }

    /// Has a place for the balance of a node. Memory is asked for only where there is none.
    pub(crate) fn make_place(&mut self, node: u8) -> Result<(), AllocError>
        ensures ok { OnOk result (node < length self.new) }
        ensures longer { IsLonger self.old self.new }
        ensures few { length self.new ≤ 256 }
        ensures err { OnErr result (self.new ≡ self.old) }
        ensures len { OnOk result (length self.new ≡ max (length self.old) (node + 1)) }
        ensures absent { OnErr result (length self.old ≤ node) }
    {
        make_place(&mut self.by_node, node)
    }

    /// Takes so much from the balance of a node that has a place.
    pub(crate) fn take(&mut self, node: u8, amount: u64)
        requires inside { node < length self.old }
        requires small { (pos 0 ≤ℤ (get_or self.old node (pos 0) +ℤ pos (2 ^ 101)))
            × (get_or self.old node (pos 0) ≤ℤ pos (2 ^ 101)) }
        ensures { self.new
            ≡ slice_set self.old node (get_or self.old node (pos 0) -ℤ pos amount) }
    {
        let place = usize::from(node);
        self.put(place, self.at(place) - i128::from(amount));
    }

    /// Adds so much to the balance of a node that has a place.
    pub(crate) fn add(&mut self, node: u8, amount: u64)
        requires inside { node < length self.old }
        requires small { (pos 0 ≤ℤ (get_or self.old node (pos 0) +ℤ pos (2 ^ 101)))
            × (get_or self.old node (pos 0) ≤ℤ pos (2 ^ 101)) }
        ensures { self.new
            ≡ slice_set self.old node (get_or self.old node (pos 0) +ℤ pos amount) }
    {
        let place = usize::from(node);
        self.put(place, self.at(place) + i128::from(amount));
    }

    /// Takes so much from the balance of a node and adds it to another's. A node that grants itself
    /// rights has nothing taken.
    pub(crate) fn move_between(&mut self, from: u8, to: u8, amount: u64)
        requires inside { (from < length self.old) × (to < length self.old) }
        requires small { AreWithin (2 ^ 100) self.old }
        ensures { MovesBetween from to amount self.old self.new }
    {
        if from == to {
            self.add(to, amount);
        } else {
            self.take(from, amount);
            self.add(to, amount);
        }
    }

    /// Whether a node is short: it has a balance of 0 or less. The balances are looked at only for a
    /// node behind the first.
    pub(crate) fn is_short(&self, node: usize) -> bool
        ensures { result ≡ int_le (get_or self.now node (pos 0)) (pos 0) }
    {
        match self.are_short.get(node) {
            Some(is_short) => *is_short,
            None => self.at(node) <= 0,
        }
    }

    // Writes the balance of a node that has a place.
    fn put(&mut self, place: usize, balance: i128)
        requires { place < length self.old }
        ensures { self.new ≡ slice_set self.old place balance }
    {
        let is_short = balance <= 0;
        self.by_node[place] = balance;
        mark(&mut self.are_short, place, is_short);
        if is_short || self.known.place == place {
            self.known = Known { place, balance };
        }
    }
}

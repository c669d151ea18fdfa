//! What a plain replica keeps of all names.
#![tactic(auto, unfolding(crate::specs::Shown::shown))]

ghost use Rattle.std.specs.Prelude.{◌≡◌, ◌+◌, ◌<◌, ◌≤◌, ◌^◌, ℕ, [], length, slice_get, IfOk};
ghost use Rattle.std.specs.Prelude.{IfSome, IsSome, OnOk, OnErr};
ghost use Rattle.std.specs.Map.{keys_of};
ghost use Rattle.std.specs.List.Sorted.{IsStrictlySortedBy};
ghost use Rattle.std.specs.Option.{option_copied};
ghost use Rattle.std.specs.Ordering.{nat_cmp};
ghost use Rattle.std.specs.Cmp.Lexicographic.{slice_cmp};
ghost use Rattle.stamp_register.specs.Keys.{key_value};
ghost use Rattle.replica_state.specs.Points.{held_after_learning};
ghost use Rattle.operations.specs.Counts.{given_key};
ghost use Rattle.op_set.specs.Counts.{held_of};
ghost use Rattle.replica_state.specs.States.{with_key, with_pass, with_shifts};
ghost use Rattle.replica_state.specs.Unions.{both_held, union_of};
ghost use Rattle.op_set.specs.Shown.{point_at, shown};
ghost use Rattle.replica_state.specs.Cells.{with_change};

use crate::point::Point;
use actions::Name;
use replica_state::Count;
use stamp_register::Key;
use std::alloc::{AllocError, Global};
use std::collections::BTreeMap;
use std::collections::btree_map::Iter;
use std::marker::Model;

/// What is kept of names: of each its point, in byte order.
#[derive(Debug, Drop)]
pub(crate) struct Points {
    map: BTreeMap<Name, Point>,
}

impl Model for Points {
    ghost use Rattle.std.specs.Prelude.{ℕ, List};
    ghost use Rattle.op_set.specs.declared.point.Point.{Point};

    ghost Value = { List (List ℕ × Point) };

    ghost view = { λ points. points.map.entries };
}

impl Points {
    pub(crate) fn new(alloc: Global) -> Points
        ensures { result ≡ [] }
    {
        Points {
            map: BTreeMap::new(alloc),
        }
    }

    /// What is kept of a name, if anything is.
    pub(crate) fn get(&self, name: &Name) -> Option<&Point>
        ensures value { option_copied result ≡ point_at self.now name.now }
    {
        self.map.get(name)
    }

    pub(crate) fn len(&self) -> usize
        ensures len { result ≡ length self.now }
        ensures small { result < 2 ^ 63 }
        ensures ordered { IsStrictlySortedBy (slice_cmp nat_cmp) (keys_of self.now) }
    {
        self.map.len()
    }

    /// The names with their points.
    pub(crate) fn iter(&self) -> Iter<'_, Name, Point>
        ensures rest { result ≡ self.now }
        ensures ordered { IsStrictlySortedBy (slice_cmp nat_cmp) (keys_of self.now) }
    {
        // What `len` promises puts the names in order.
        let _ = self.map.len();
        self.map.iter()
    }

    /// The name at a place.
    pub(crate) fn name_at(&self, index: usize) -> Option<&Name>
        ensures { option_copied result ≡ slice_get (keys_of self.now) index }
    {
        self.map.keys().nth(index)
    }

    /// Learns what an operation of a name says that has this key or none, and this count or none.
    pub(crate) fn learn(
        &mut self,
        alloc: Global,
        name: &Name,
        key: Option<&Key>,
        count: Option<Count>,
    ) -> Result<(), AllocError>
        ensures ok { OnOk result (shown self.new ≡ with_change name.now
            (held_after_learning (given_key key.entry) count) (shown self.old)) }
        ensures err { OnErr result (shown self.new ≡ shown self.old) }
    {
        if let Some(point) = self.map.get_mut(name) {
            return point.learn(alloc, key, count);
        }
        let mut point = Point::empty(alloc);
        point.learn(alloc, key, count)?;
        self.map.insert(name.copied(alloc)?, point)?;
        Ok(())
    }

    /// Gives a name another key, of which nothing was executed or shifted yet.
    pub(crate) fn set_key(&mut self, alloc: Global, name: Name, key: Key) -> Result<(), AllocError>
        ensures ok { OnOk result (shown self.new
            ≡ with_key name (key_value key) (shown self.old)) }
        ensures err { OnErr result (shown self.new ≡ shown self.old) }
    {
        if let Some(point) = self.map.get_mut(&name) {
            point.take(key);
            return Ok(());
        }
        let mut point = Point::empty(alloc);
        point.take(key);
        self.map.insert(name, point)?;
        Ok(())
    }

    /// Counts a pass of a name that has a key and, where a counted term was triggered, its
    /// execution.
    pub(crate) fn count_pass(
        &mut self,
        name: &Name,
        node: u8,
        spent: Option<u8>,
    ) -> Result<(), AllocError>
        requires set { IsSome ((shown self.old).key name.now) }
        requires hits { (shown self.old).hits name.now node + 1 < 2 ^ 64 }
        requires execs { IfSome spent
            (λ term. (shown self.old).execs name.now term node + 1 < 2 ^ 64) }
        ensures ok { OnOk result (shown self.new
            ≡ with_pass name.now node spent (shown self.old)) }
        ensures err { OnErr result (shown self.new ≡ shown self.old) }
    {
        if let Some(point) = self.map.get_mut(name) {
            return point.pass(node, spent);
        }
        Ok(())
    }

    /// Counts the rights to a term that one node moved to another, of a name that has a key.
    pub(crate) fn count_shift(
        &mut self,
        name: &Name,
        term: u8,
        from: u8,
        to: u8,
        total: u64,
    ) -> Result<(), AllocError>
        requires set { IsSome ((shown self.old).key name.now) }
        requires more { (shown self.old).shifts name.now term from to ≤ total }
        ensures ok { OnOk result (shown self.new
            ≡ with_shifts name.now term from to total (shown self.old)) }
        ensures err { OnErr result (shown self.new ≡ shown self.old) }
    {
        if let Some(point) = self.map.get_mut(name) {
            return point.shift(term, from, to, total);
        }
        Ok(())
    }

    // Learns all that is held of a name elsewhere.
    fn take_point(&mut self, alloc: Global, name: &Name, other: &Point) -> Result<(), AllocError>
        ensures { OnOk result (shown self.new ≡ with_change name.now
            (λ h. both_held h (held_of other.now)) (shown self.old)) }
    {
        if let Some(point) = self.map.get_mut(name) {
            return point.take_in(alloc, other);
        }
        let mut point = Point::empty(alloc);
        point.take_in(alloc, other)?;
        self.map.insert(name.copied(alloc)?, point)?;
        Ok(())
    }

    /// Learns all that is kept elsewhere. After an error a part of it may have been learned.
    pub(crate) fn take_in(&mut self, alloc: Global, other: &Points) -> Result<(), AllocError>
        ensures { OnOk result (shown self.new
            ≡ union_of (shown self.old) (shown other.now)) }
    {
        for (name, point) in other.iter() {
            self.take_point(alloc, name, point)?;
        }
        Ok(())
    }

    /// Points of their own that say the same.
    pub(crate) fn copied(&self, alloc: Global) -> Result<Points, AllocError>
        ensures { IfOk result (λ copy. shown copy ≡ shown self.now) }
    {
        // What `len` promises puts the names in order.
        let _ = self.len();
        let mut copy = Points::new(alloc);
        copy.take_in(alloc, self)?;
        Ok(copy)
    }
}

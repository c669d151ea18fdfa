//! The plain replica.
#![tactic(auto, unfolding(crate::specs::SetOrder::state_of, crate::specs::Shown::shown))]

ghost use Rattle.std.specs.Prelude.{◌≡◌, ◌↔◌, IfOk, IsTrue};
ghost use Rattle.lattice_laws.specs.Order.{IsCopy, IsJoin};
ghost use Rattle.replica_state.specs.Folds.{IsUnion};
ghost use Rattle.op_set.specs.Counts.{held_of};
ghost use Rattle.replica_state.specs.Unions.{IsHeldBelow};
ghost use Rattle.replica_state.specs.Cells.{cell_of, held_at};
ghost use Rattle.op_set.specs.Shown.{shown};
ghost use Rattle.replica_state.specs.Reached.{IsReached};

use crate::point::Point;
use crate::point_map::Points;
use actions::Name;
use lattice_laws::Join;
use replica_state::{Count, Counted, Op, PointReader, Replica, key_with};
use stamp_register::Key;
use std::alloc::{AllocError, Global};
use std::collections::btree_map;

/// The plain replica: of each name it keeps the operations that no other has overtaken, and each
/// reader looks through those.
#[derive(Debug, Drop)]
pub struct OpSet {
    points: Points,
    ghost reached: { IsReached (shown points) },
}

impl OpSet {
    ghost use Rattle.op_set.specs.SetOrder.{state_of};

    // The number of what is counted so.
    fn number(&self, name: &Name, counted: Counted) -> u64
        ensures { result ≡ cell_of (state_of self.now) name.now counted }
    {
        match self.points.get(name) {
            Some(point) => point.number(counted),
            None => 0,
        }
    }

    // Whether it holds as much of a name as is held elsewhere.
    fn is_above(&self, name: &Name, other: &Point) -> bool
        ensures { IsTrue result
            ↔ IsHeldBelow (held_of other.now) (held_at (state_of self.now) name.now) }
    {
        match self.points.get(name) {
            Some(point) => other.below(point),
            None => other.is_nothing(),
        }
    }
}

impl Join for OpSet {
    ghost use Rattle.op_set.specs.SetOrder.{state_of, no_points, IsSet, IsSetBelow, set_order};

    ghost admitted = { IsSet };

    ghost order = { IsSetBelow };

    ghost bottom = { no_points };

    ghost laws = { set_order };

    /// The set that knows what either knows: its state is that of their operations together.
    fn joined(&self, alloc: Global, other: &OpSet) -> Result<OpSet, AllocError>
        ensures join { IfOk result (IsJoin IsSet IsSetBelow self.now other.now) }
        ensures union { IfOk result
            (λ both. IsUnion (state_of self.now) (state_of other.now) (state_of both)) }
    {
        let mut points = self.points.copied(alloc)?;
        points.take_in(alloc, &other.points)?;
        Ok(OpSet { points })
    }

    fn below(&self, other: &OpSet) -> bool {
        for (name, point) in self.points.iter() {
            if !other.is_above(name, point) {
                return false;
            }
        }
        true
    }

    fn is_bottom(&self) -> bool {
        for (_, point) in self.points.iter() {
            if !point.is_nothing() {
                return false;
            }
        }
        true
    }

    /// The copy has the same state.
    fn copied(&self, alloc: Global) -> Result<OpSet, AllocError>
        ensures copy { IfOk result (IsCopy IsSet IsSetBelow self.now) }
        ensures state { IfOk result (λ copy. state_of copy ≡ state_of self.now) }
    {
        let points = self.points.copied(alloc)?;
        Ok(OpSet { points })
    }
}

impl Replica for OpSet {
    type Point = Point;

    ghost use Rattle.op_set.specs.SetOrder.{state_of, set_reached};

    ghost state = { state_of };

    ghost ordered = { λ v w _ _. (λ below. below, λ below. below) };

    ghost reached = { set_reached };

    fn empty(alloc: Global) -> OpSet {
        OpSet {
            points: Points::new(alloc),
        }
    }

    fn add(&mut self, alloc: Global, op: &Op) -> Result<(), AllocError> {
        self.points.learn(alloc, op.name(), op.key(), op.count())
    }

    fn learn(
        &mut self,
        alloc: Global,
        name: &Name,
        key: &Key,
        count: Option<Count>,
    ) -> Result<(), AllocError> {
        self.points.learn(alloc, name, key_with(key, count), count)
    }

    fn set_key(&mut self, alloc: Global, name: Name, key: Key) -> Result<(), AllocError> {
        self.points.set_key(alloc, name, key)
    }

    fn count_pass(
        &mut self,
        _alloc: Global,
        name: &Name,
        node: u8,
        spent: Option<u8>,
    ) -> Result<(), AllocError> {
        self.points.count_pass(name, node, spent)
    }

    fn count_shift(
        &mut self,
        _alloc: Global,
        name: &Name,
        term: u8,
        from: u8,
        to: u8,
        total: u64,
    ) -> Result<(), AllocError> {
        self.points.count_shift(name, term, from, to, total)
    }

    fn merge(&mut self, alloc: Global, other: OpSet) -> Result<(), AllocError> {
        *self = self.joined(alloc, &other)?;
        Ok(())
    }

    fn point(&self, name: &Name) -> PointReader<'_, Point> {
        PointReader::new(self.points.get(name))
    }

    fn key(&self, name: &Name) -> Option<&Key> {
        // What `len` promises puts the names in order.
        let _ = self.points.len();
        match self.points.get(name) {
            Some(point) => point.key(),
            None => None,
        }
    }

    fn hits(&self, name: &Name, node: u8) -> u64 {
        self.number(name, Counted::Hits { node })
    }

    fn total_hits(&self, name: &Name) -> u128 {
        match self.points.get(name) {
            Some(point) => point.total_hits(),
            None => 0,
        }
    }

    fn exec(&self, name: &Name, term: u8, node: u8) -> u64 {
        self.number(name, Counted::Execs { term, node })
    }

    fn moved(&self, name: &Name, term: u8, from: u8, to: u8) -> u64 {
        self.number(name, Counted::Shifts { term, from, to })
    }

    fn rights(&self, name: &Name, term: u8, node: u8) -> i128 {
        match self.points.get(name) {
            Some(point) => point.rights(term, node),
            None => 0,
        }
    }

    fn spent(&self, name: &Name, term: u8) -> u128 {
        match self.points.get(name) {
            Some(point) => point.spent(term),
            None => 0,
        }
    }

    fn total_granted(&self, name: &Name, term: u8) -> u128 {
        match self.points.get(name) {
            Some(point) => point.total_granted(term),
            None => 0,
        }
    }

    fn names(&self) -> usize {
        self.points.len()
    }

    fn names_with(&self, name: &Name) -> usize {
        let len = self.points.len();
        match self.points.get(name) {
            Some(_) => len,
            None => len + 1,
        }
    }

    fn names_together(&self, other: &OpSet) -> usize {
        let mut names = self.points.len() + other.points.len();
        for (name, _) in other.points.iter() {
            if self.points.get(name).is_some() {
                names -= 1;
            }
        }
        names
    }

    fn name_at(&self, index: usize) -> Option<&Name> {
        self.points.name_at(index)
    }

    fn points(&self) -> btree_map::Iter<'_, Name, Point> {
        self.points.iter()
    }
}

//! The replica that nodes run.
#![tactic(auto, unfolding(crate::specs::MatrixStates::matrix_state, crate::specs::Slots::shown_slots))]

ghost use Rattle.std.specs.Prelude.{◌≡◌, IfOk, IfNone, IfSome, OnOk, OnErr};
ghost use Rattle.lattice_laws.specs.Order.{IsCopy, IsJoin};
ghost use Rattle.replica_state.specs.Folds.{IsUnion};
ghost use Rattle.replica_state.specs.Cells.{cell_of};
ghost use Rattle.replica_state.specs.Reached.{IsReached};
ghost use Rattle.replica_state.specs.Slots.{IsSlotOf, HasNoSlot, shown_slots};

use crate::reader::PointReader;
use crate::replica::Replica;
use crate::slot::{self, Slot};
use crate::slot_map::{self, Slots};
use actions::Name;
use lattice_laws::{Join, MapOf};
use operations::{Count, Counted, Op, key_with};
use stamp_register::Key;
use std::alloc::{AllocError, Global};
use std::collections::btree_map;

/// The replica that nodes run: of each name its key with the budgets of its terms, and its hits,
/// each number in a cell of its own. What is written changes its cell in place.
#[derive(Debug)]
pub struct Matrix {
    slots: Slots,
    ghost reached: { IsReached (shown_slots slots) },
}

impl Drop for Matrix {
    fn drop(self) {
        let Matrix { slots: _ } = self;
    }
}

impl Matrix {
    ghost use Rattle.replica_state.specs.MatrixStates.{matrix_state};

    // What is stored of a name, if anything is.
    #[inline(always)]
    fn slot_of(&self, name: &Name) -> Option<&Slot>
        ensures some { IfSome result (λ slot. IsSlotOf (matrix_state self.now) name.now slot.now) }
        ensures none { IfNone result (HasNoSlot (matrix_state self.now) name.now) }
    {
        slot_map::get(&self.slots, name)
    }

    // The number of what is counted so.
    fn number(&self, name: &Name, counted: Counted) -> u64
        ensures { result ≡ cell_of (matrix_state self.now) name.now counted }
    {
        match self.slot_of(name) {
            Some(slot) => slot::number(slot, counted),
            None => 0,
        }
    }
}

impl Join for Matrix {
    ghost use Rattle.replica_state.specs.MatrixOrder.{no_matrix, IsMatrix, IsMatrixBelow, matrix_order};
    ghost use Rattle.replica_state.specs.MatrixStates.{matrix_state};

    ghost admitted = { IsMatrix };

    ghost order = { IsMatrixBelow };

    ghost bottom = { no_matrix };

    ghost laws = { matrix_order };

    /// The matrix that knows what either knows: its state is that of their operations together.
    fn joined(&self, alloc: Global, other: &Matrix) -> Result<Matrix, AllocError>
        ensures join { IfOk result (IsJoin IsMatrix IsMatrixBelow self.now other.now) }
        ensures union { IfOk result
            (λ both. IsUnion (matrix_state self.now) (matrix_state other.now) (matrix_state both)) }
    {
        let slots = self.slots.joined(alloc, &other.slots)?;
        Ok(Matrix { slots })
    }

    fn below(&self, other: &Matrix) -> bool {
        self.slots.below(&other.slots)
    }

    fn is_bottom(&self) -> bool {
        self.slots.is_bottom()
    }

    /// The copy has the same state.
    fn copied(&self, alloc: Global) -> Result<Matrix, AllocError>
        ensures copy { IfOk result (IsCopy IsMatrix IsMatrixBelow self.now) }
        ensures state { IfOk result (λ copy. matrix_state copy ≡ matrix_state self.now) }
    {
        let slots = self.slots.copied(alloc)?;
        Ok(Matrix { slots })
    }

    /// The state is then that of the operations of both.
    fn join_in(&mut self, alloc: Global, other: Matrix) -> Result<(), AllocError>
        ensures ok { OnOk result (IsJoin IsMatrix IsMatrixBelow self.old other self.new) }
        ensures union { OnOk result
            (IsUnion (matrix_state self.old) (matrix_state other) (matrix_state self.new)) }
        ensures err { OnErr result (self.new ≡ self.old) }
    {
        let Matrix { slots } = other;
        self.slots.join_in(alloc, slots)
    }
}

impl Replica for Matrix {
    type Point = Slot;

    ghost use Rattle.replica_state.specs.MatrixStates.{matrix_state, matrix_ordered, matrix_reached};

    ghost state = { matrix_state };

    ghost ordered = { matrix_ordered };

    ghost reached = { matrix_reached };

    fn empty(alloc: Global) -> Matrix {
        Matrix {
            slots: MapOf::new(alloc),
        }
    }

    fn add(&mut self, alloc: Global, op: &Op) -> Result<(), AllocError> {
        slot_map::learn(&mut self.slots, alloc, op.name(), op.key(), op.count())
    }

    fn learn(
        &mut self,
        alloc: Global,
        name: &Name,
        key: &Key,
        count: Option<Count>,
    ) -> Result<(), AllocError> {
        slot_map::learn(&mut self.slots, alloc, name, key_with(key, count), count)
    }

    fn learn_count(&mut self, alloc: Global, name: &Name, count: Count) -> Result<(), AllocError> {
        slot_map::count(&mut self.slots, alloc, name, count)
    }

    fn set_key(&mut self, alloc: Global, name: Name, key: Key) -> Result<(), AllocError> {
        slot_map::set_key(&mut self.slots, alloc, name, key)
    }

    #[inline(always)]
    fn count_pass(
        &mut self,
        alloc: Global,
        name: &Name,
        node: u8,
        spent: Option<u8>,
    ) -> Result<(), AllocError> {
        slot_map::count_pass(&mut self.slots, alloc, name, node, spent)
    }

    fn count_shift(
        &mut self,
        alloc: Global,
        name: &Name,
        term: u8,
        from: u8,
        to: u8,
        total: u64,
    ) -> Result<(), AllocError> {
        slot_map::count_shift(&mut self.slots, alloc, name, term, from, to, total)
    }

    fn merge(&mut self, alloc: Global, other: Matrix) -> Result<(), AllocError> {
        self.join_in(alloc, other)
    }

    fn point(&self, name: &Name) -> PointReader<'_, Slot> {
        PointReader::new(self.slot_of(name))
    }

    fn key(&self, name: &Name) -> Option<&Key> {
        match self.slot_of(name) {
            Some(held) => slot::key(held),
            None => None,
        }
    }

    fn hits(&self, name: &Name, node: u8) -> u64 {
        self.number(name, Counted::Hits { node })
    }

    fn total_hits(&self, name: &Name) -> u128 {
        match self.slot_of(name) {
            Some(held) => slot::total_hits(held),
            None => 0,
        }
    }

    fn exec(&self, name: &Name, term: u8, node: u8) -> u64 {
        self.number(name, Counted::Execs { term, node })
    }

    fn moved(&self, name: &Name, term: u8, from: u8, to: u8) -> u64 {
        self.number(name, Counted::Shifts { term, from, to })
    }

    fn rights(&self, name: &Name, term: u8, node: u8) -> i128 {
        match self.slot_of(name) {
            Some(held) => slot::rights(held, term, node),
            None => 0,
        }
    }

    #[inline(always)]
    fn key_and_rights(&self, name: &Name, node: u8) -> Option<(&Key, [bool; 16])> {
        match self.slot_of(name) {
            Some(held) => slot::key_and_rights(held, node),
            None => None,
        }
    }

    fn spent(&self, name: &Name, term: u8) -> u128 {
        match self.slot_of(name) {
            Some(held) => slot::spent(held, term),
            None => 0,
        }
    }

    fn total_granted(&self, name: &Name, term: u8) -> u128 {
        match self.slot_of(name) {
            Some(held) => slot::total_granted(held, term),
            None => 0,
        }
    }

    fn names(&self) -> usize {
        self.slots.len()
    }

    fn names_with(&self, name: &Name) -> usize {
        let names = self.slots.len();
        match self.slot_of(name) {
            Some(_) => names,
            None => names + 1,
        }
    }

    fn names_together(&self, other: &Matrix) -> usize {
        slot_map::note_is_map(&self.slots);
        let mut names = self.slots.len() + other.slots.len();
        for (name, _) in other.slots.iter() {
            if self.slots.get(name).is_some() {
                names -= 1;
            }
        }
        names
    }

    fn name_at(&self, index: usize) -> Option<&Name> {
        let (name, _) = self.slots.at(index)?;
        Some(name)
    }

    fn points(&self) -> btree_map::Iter<'_, Name, Slot> {
        self.slots.iter()
    }
}

//! What a node needs of the thing that holds its state.

ghost use Rattle.std.specs.Prelude.{◌≡◌, ◌+◌, ◌<◌, ◌≤◌, ◌^◌, [], ◌↔◌, length, slice_get, false};
ghost use Rattle.std.specs.Prelude.{option_map, map, Some, IfSome, IsSome, IsTrue, OnOk, OnErr};
ghost use Rattle.std.specs.List.{AllByRecursion};
ghost use Rattle.std.specs.Option.{option_copied};
ghost use Rattle.stamp_register.specs.Keys.{key_value};
ghost use Rattle.operations.specs.Operations.{operation, IsWellFormed, ShiftsToAnother};
ghost use Rattle.replica_state.specs.States.{State, with_name, with_key, with_pass, with_shifts};
ghost use Rattle.replica_state.specs.States.{total_hits, granted_in, granted_of, budget_of};
ghost use Rattle.replica_state.specs.States.{rights_of, spent_of, MarksRights};
ghost use Rattle.replica_state.specs.Folds.{fold, Learns, IsUnion};
ghost use Rattle.replica_state.specs.Reached.{IsReached};
ghost use Rattle.replica_state.specs.Knowledge.{is_upto};
ghost use Rattle.replica_state.specs.Cells.{held_at, MayLearnCount, LearnsCount};
ghost use Rattle.operations.specs.Counts.{operation_told, given_key};
ghost use Rattle.replica_state.specs.Stored.{reader_held};
ghost use Rattle.replica_state.specs.StateOrder.{OrdersByState};
ghost use Rattle.replica_state.specs.Unions.{with_names};

use crate::reader::{PointReader, Stored};
use crate::terms::terms_of;
use actions::Name;
use lattice_laws::Join;
use operations::{Count, Op, count_of};
use stamp_register::Key;
use std::alloc::{AllocError, Global};
use std::collections::btree_map;

/// A replica of the cluster's points: each value stands for the state that some well-formed
/// operations come to. What isn't there reads 0. Replicas are joined as the values that their
/// states mean.
pub trait Replica: Join {
    /// What is stored of a point.
    type Point: Stored;

    ghost state: { Self → State };

    /// The replica that knows nothing.
    fn empty(alloc: Global) -> Self
        ensures { state result ≡ fold [] };

    /// Learns an operation: where the state was that of some set, it is then that of the set with
    /// the operation. Where memory is out, the state is as it was.
    fn add(&mut self, alloc: Global, op: &Op) -> Result<(), AllocError>
        requires formed { IsWellFormed (operation op.now) }
        requires other { ShiftsToAnother op.now }
        ensures ok { OnOk result (Learns (state self.old) (state self.new) (operation op.now)) }
        ensures err { OnErr result (state self.new ≡ state self.old) };

    /// Learns an operation of a point without a copy of its key being made for it: its setting or,
    /// with a count, what is counted of the point, which of a hit is under no key. Where the state
    /// was that of some set, it is then that of the set with the operation. Where memory is out,
    /// the state is as it was.
    fn learn(
        &mut self,
        alloc: Global,
        name: &Name,
        key: &Key,
        count: Option<Count>,
    ) -> Result<(), AllocError>
        requires { IsWellFormed (operation_told name.now (key_value key.now) count) }
        ensures ok { OnOk result (Learns (state self.old) (state self.new)
            (operation_told name.now (key_value key.now) count)) }
        ensures err { OnErr result (state self.new ≡ state self.old) };

    /// Learns what is counted of a point that has a key, which isn't compared with any: a hit, or
    /// else what is counted under that key. Where memory is out, the state is as it was.
    fn learn_count(&mut self, alloc: Global, name: &Name, count: Count) -> Result<(), AllocError>
        requires { MayLearnCount (state self.old) name.now count }
        ensures ok { OnOk result (LearnsCount (state self.old) (state self.new) name.now count) }
        ensures err { OnErr result (state self.new ≡ state self.old) }
    {
        let key = match self.key(name) {
            Some(key) => key.copied(alloc)?,
            None => return Ok(()),
        };
        self.learn(alloc, name, &key, Some(count))
    }

    /// Gives a point a key above the one that it has, of which nothing was executed or shifted yet.
    fn set_key(&mut self, alloc: Global, name: Name, key: Key) -> Result<(), AllocError>
        requires above { is_upto (Some (key_value key)) ((state self.old).key name) ≡ false }
        ensures ok { OnOk result (state self.new ≡ with_key name (key_value key) (state self.old)) }
        ensures err { OnErr result (state self.new ≡ state self.old) };

    /// Counts a pass of a point at a node and, where a counted term was triggered, its execution
    /// there.
    fn count_pass(
        &mut self,
        alloc: Global,
        name: &Name,
        node: u8,
        spent: Option<u8>,
    ) -> Result<(), AllocError>
        requires set { IsSome ((state self.old).key name.now) }
        requires hits { (state self.old).hits name.now node + 1 < 2 ^ 64 }
        requires execs { IfSome spent
            (λ term. (state self.old).execs name.now term node + 1 < 2 ^ 64) }
        requires counted { IfSome spent
            (λ term. IsSome (budget_of (state self.old) name.now term)) }
        ensures ok { OnOk result (state self.new ≡ with_pass name.now node spent (state self.old)) }
        ensures err { OnErr result (state self.new ≡ state self.old) };

    /// Counts the rights to a counted term of the point's key that one node moved to another, or
    /// granted itself where both are one, so many in all.
    fn count_shift(
        &mut self,
        alloc: Global,
        name: &Name,
        term: u8,
        from: u8,
        to: u8,
        total: u64,
    ) -> Result<(), AllocError>
        requires set { IsSome ((state self.old).key name.now) }
        requires more { (state self.old).shifts name.now term from to ≤ total }
        requires counted { IsSome (budget_of (state self.old) name.now term) }
        ensures ok { OnOk result (state self.new
            ≡ with_shifts name.now term from to total (state self.old)) }
        ensures err { OnErr result (state self.new ≡ state self.old) };

    /// Learns all that another replica knows: where both states were those of some sets, this one
    /// is then that of both sets together. Where memory is out, it is as it was.
    fn merge(&mut self, alloc: Global, other: Self) -> Result<(), AllocError>
        ensures ok { OnOk result (IsUnion (state self.old) (state other) (state self.new)) }
        ensures err { OnErr result (state self.new ≡ state self.old) };

    /// What is held of a point, looked up once.
    fn point(&self, name: &Name) -> PointReader<'_, Self::Point>
        ensures { reader_held Self.Point.held result ≡ held_at (state self.now) name.now };

    /// The key of a point: its last setting or removal.
    fn key(&self, name: &Name) -> Option<&Key>
        ensures value { given_key result ≡ (state self.now).key name.now }
        ensures named { IsSome result
            → with_name name.now (state self.now).names ≡ (state self.now).names };

    /// The hits of a point at a node.
    fn hits(&self, name: &Name, node: u8) -> u64
        ensures { result ≡ (state self.now).hits name.now node };

    /// The hits of a point at all nodes.
    fn total_hits(&self, name: &Name) -> u128
        ensures { result ≡ total_hits (state self.now) name.now };

    /// The executions of a term at a node, under the point's key.
    fn exec(&self, name: &Name, term: u8, node: u8) -> u64
        ensures { result ≡ (state self.now).execs name.now term node };

    /// The total of rights that one node moved to another, or granted itself where both are one,
    /// under the point's key.
    fn moved(&self, name: &Name, term: u8, from: u8, to: u8) -> u64
        ensures { result ≡ (state self.now).shifts name.now term from to };

    /// The total of rights that a node granted itself beyond the count of a term, under the point's
    /// key.
    fn granted(&self, name: &Name, term: u8, node: u8) -> u64
        ensures { result ≡ granted_in (state self.now) name.now term node }
    {
        self.moved(name, term, node, node)
    }

    /// What all nodes granted themselves beyond the count of a term, under the point's key.
    fn total_granted(&self, name: &Name, term: u8) -> u128
        ensures { result ≡ granted_of (state self.now) name.now term };

    /// The rights of a node to execute a counted term. They can be below 0 in the view of another
    /// node, where it knows of a spend before the shift that paid for it.
    fn rights(&self, name: &Name, term: u8, node: u8) -> i128
        ensures { result ≡ rights_of (state self.now) name.now term node };

    /// What a pass asks of a point, at once: its key and, of each term, whether a node has a right
    /// to execute it.
    fn key_and_rights(&self, name: &Name, node: u8) -> Option<(&Key, [bool; 16])>
        ensures key { option_map (λ p. key_value p.0.now) result ≡ (state self.now).key name.now }
        ensures named { IsSome result
            → with_name name.now (state self.now).names ≡ (state self.now).names }
        ensures rights { IfSome result
            (λ p. MarksRights (λ term. rights_of (state self.now) name.now term node) p.1) }
    {
        let key = self.key(name)?;
        let mut marks = [false; 16];
        for term in 0..terms_of(key) {
            marks[term] = self.rights(name, term as u8, node) >= 1;
        }
        Some((key, marks))
    }

    /// Whether the point's key counts a term.
    fn is_counted(&self, name: &Name, term: u8) -> bool
        ensures { IsTrue result ↔ IsSome (budget_of (state self.now) name.now term) }
    {
        match self.key(name) {
            Some(key) => count_of(key, term).is_some(),
            None => false,
        }
    }

    /// The executions of a counted term at all nodes.
    fn spent(&self, name: &Name, term: u8) -> u128
        ensures { result ≡ spent_of (state self.now) name.now term };

    /// How many names have a key or a hit.
    fn names(&self) -> usize
        ensures { result ≡ length (state self.now).names };

    /// How many names would have a key or a hit with this one.
    fn names_with(&self, name: &Name) -> usize
        ensures { result ≡ length (with_name name.now (state self.now).names) };

    /// How many names would have a key or a hit with those of another replica.
    fn names_together(&self, other: &Self) -> usize
        ensures { result ≡ length (with_names (state other.now).names (state self.now).names) };

    /// The name at a place, in byte order.
    fn name_at(&self, index: usize) -> Option<&Name>
        ensures { option_copied result ≡ slice_get (state self.now).names index };

    /// The points that have a key or a hit, in byte order of their names, each with what is stored
    /// of it.
    fn points(&self) -> btree_map::Iter<'_, Name, Self::Point>
        ensures names { map (λ e. e.0) result ≡ (state self.now).names }
        ensures held { AllByRecursion
            (λ e. Self.Point.held e.1 ≡ held_at (state self.now) e.0) result };

    /// One value is below another where its state knows no more.
    ghost ordered: { OrdersByState Self.admitted Self.order state };

    /// Each value stands for what some well-formed operations come to.
    ghost reached: { (replica : Self) → IsReached (state replica) };
}

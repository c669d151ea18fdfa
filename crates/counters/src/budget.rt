//! What the nodes spent of a budget, what each moved to each, and what each granted.

ghost use Rattle.std.specs.Prelude.{◌≡◌, ◌↔◌, ◌≤◌, ◌+◌, ◌<◌, length, map, Some, None, IfOk, IfErr, OnOk, OnErr};
ghost use Rattle.std.specs.Prelude.{◌∷◌, ◌<ℤ◌, [], max, false, pos, IsTrue};
ghost use Rattle.std.specs.List.{All, range_with_len};
ghost use Rattle.counters.specs.Sums.{node_numbers, sum_below};
ghost use Rattle.counters.specs.Budgets.{rights};
ghost use Rattle.counters.specs.Cells.{no_shares, spent_cell, moved_cell, granted_cell, budget_of};
ghost use Rattle.counters.specs.Cells.{WritesSpent, WritesMoved};
ghost use Rattle.counters.specs.Refusals.{spend_refusal, shift_refusal, grant_refusal, too_great, IsRefusal};

use crate::cells::{SpentAndMoved, number_in_row, number_of, total, total_of_own, write_numbers};
use crate::fault::CounterFault;
use crate::ledger::Ledger;
use lattice_laws::Join;
use std::alloc::{AllocError, Global};
use std::marker::Model;

/// What the nodes did with the count of a term: how many rights to execute it each of them spent,
/// how many each moved to each, and how many each granted itself beyond the count, in all. The node
/// that set the term has the whole count at first. A node's rights are what it had, granted and was
/// given, less what it moved away and spent. What a node granted stands where it would move rights
/// to itself, as in the bounded counter's matrix (Balegas et al., SRDS 2015). Of two budgets that
/// are joined, the greater number of each cell holds. After a refusal a budget is as it was.
#[derive(Debug)]
pub struct Budget {
    ledger: Ledger,
}

impl Drop for Budget {
    fn drop(self) {
        let Budget { ledger: _ } = self;
    }
}

impl Model for Budget {
    ghost use Rattle.counters.specs.Cells.{Shares};

    ghost Value = { Shares };

    ghost view = { λ budget. budget.ledger };
}

impl Budget {
    /// A budget of which nothing is spent, moved or granted.
    pub fn new(alloc: Global) -> Self
        ensures { result ≡ no_shares }
    {
        Budget {
            ledger: Ledger::new(alloc),
        }
    }

    /// The rights of a node, where the setter has the whole count at first. They are negative
    /// where a spend of the node is known and the move that paid for it isn't.
    pub fn rights(&self, setter: u8, count: u64, node: u8) -> i128
        ensures { result ≡ rights (budget_of self.now setter count) node }
    {
        let own = if node == setter { count } else { 0 };
        self.ledger.balance(node) + i128::from(own)
    }

    /// The rights of the first nodes, of as many as there are places, as `rights` answers them one by
    /// one.
    pub fn rights_of_all(&self, setter: u8, count: u64, into: &mut [i128])
        requires { length into.old ≤ 256 }
        ensures { into.new
            ≡ map (rights (budget_of self.now setter count)) (range_with_len 0 (length into.old)) }
    {
        self.ledger.write_balances(into);
        let place = usize::from(setter);
        if place < into.len() {
            into[place] += i128::from(count);
        }
    }

    /// Whether each of these nodes has a right. It is marked who has none, so rights are read of the
    /// setter alone, and of nodes behind the first 32.
    pub fn have_rights(&self, setter: u8, count: u64, nodes: &[u8]) -> bool
        ensures { IsTrue result
            ↔ All (λ node. pos 0 <ℤ rights (budget_of self.now setter count) node) nodes.now }
    {
        nodes
            .iter()
            .all(|node| self.has_right(setter, count, *node))
    }

    /// What a node spent.
    pub fn spent(&self, node: u8) -> u64
        ensures { result ≡ spent_cell self.now node }
    {
        number_of(self.ledger.spent(), node)
    }

    /// What the first nodes spent, of as many as there are places: all that is stored of it is read
    /// once.
    pub fn spent_of_all(&self, into: &mut [u64])
        ensures { into.new ≡ map (spent_cell self.now) (range_with_len 0 (length into.old)) }
    {
        write_numbers(self.ledger.spent(), into);
    }

    /// What a node moved to another in all, or granted where both are one.
    pub fn moved(&self, from: u8, to: u8) -> u64
        ensures { result ≡ moved_cell self.now from to }
    {
        number_in_row(self.ledger.moved(), from, to)
    }

    /// What a node granted itself beyond the count, in all.
    pub fn granted(&self, node: u8) -> u64
        ensures { result ≡ granted_cell self.now node }
    {
        self.moved(node, node)
    }

    /// What all nodes spent.
    pub fn total_spent(&self) -> u128
        ensures { result ≡ sum_below node_numbers (spent_cell self.now) }
    {
        total(self.ledger.spent())
    }

    /// What all nodes granted themselves beyond the count.
    pub fn total_granted(&self) -> u128
        ensures { result ≡ sum_below node_numbers (granted_cell self.now) }
    {
        total_of_own(self.ledger.moved())
    }

    /// Spends one right of a node, and answers how many it has now spent. It is refused where the
    /// node has no right (`TooFewRights`), where it has spent 2^64 - 1 (`CellFull`), and where it
    /// has spent none and memory is refused (`OutOfMemory`).
    pub fn spend(&mut self, setter: u8, count: u64, node: u8) -> Result<u64, CounterFault>
        ensures ok { OnOk result (spend_refusal (budget_of self.old setter count) node ≡ None) }
        ensures answer { IfOk result (λ spent. spent ≡ spent_cell self.old node + 1) }
        ensures after { IfOk result (WritesSpent self.old self.new node) }
        ensures refused { IfErr result
            (IsRefusal (spend_refusal (budget_of self.old setter count) node)
            (spent_cell self.old node)) }
        ensures err { OnErr result (self.new ≡ self.old) }
    {
        let spent = self.spend_checked(setter, count, node)?;
        self.ledger.raise_spent(node, spent)?;
        Ok(spent)
    }

    /// Counts one right more that a node spent, whether or not it has one, and answers how many it
    /// has now spent. It is refused where the node has spent 2^64 - 1 (`CellFull`), and where it has
    /// spent none and memory is refused (`OutOfMemory`).
    pub fn count_spent(&mut self, node: u8) -> Result<u64, CounterFault>
        ensures ok { OnOk result (too_great (spent_cell self.old node + 1) ≡ None) }
        ensures answer { IfOk result (λ spent. spent ≡ spent_cell self.old node + 1) }
        ensures after { IfOk result (WritesSpent self.old self.new node) }
        ensures refused { IfErr result
            (IsRefusal (too_great (spent_cell self.old node + 1)) (spent_cell self.old node)) }
        ensures err { OnErr result (self.new ≡ self.old) }
    {
        let Some(more) = self.spent(node).checked_add(1) else {
            return Err(CounterFault::CellFull);
        };
        self.ledger.raise_spent(node, more)?;
        Ok(more)
    }

    /// Moves rights of a node to another, and answers how many it has now moved there in all. It
    /// is refused where the node has fewer (`TooFewRights`), where the total would be above
    /// 2^64 - 1 (`CellFull`), where the amount is 0 (`ZeroAmount`), where both nodes are one
    /// (`SameNode`), and where none is moved there yet and memory is refused (`OutOfMemory`).
    pub fn shift(
        &mut self,
        alloc: Global,
        setter: u8,
        count: u64,
        from: u8,
        to: u8,
        amount: u64,
    ) -> Result<u64, CounterFault>
        ensures ok { OnOk result
            (shift_refusal (budget_of self.old setter count) from to amount ≡ None) }
        ensures answer { IfOk result (λ moved. moved ≡ moved_cell self.old from to + amount) }
        ensures after { IfOk result (WritesMoved self.old self.new from to) }
        ensures refused { IfErr result
            (IsRefusal (shift_refusal (budget_of self.old setter count) from to amount)
            (moved_cell self.old from to)) }
        ensures err { OnErr result (self.new ≡ self.old) }
    {
        let moved = self.shift_checked(setter, count, from, to, amount)?;
        self.ledger.raise_moved(alloc, from, to, moved)?;
        Ok(moved)
    }

    /// Grants a node rights beyond the count, and answers how many it has now granted in all. It
    /// is refused where the total would be above 2^64 - 1 (`CellFull`), where the amount is 0
    /// (`ZeroAmount`), and where the node granted none yet and memory is refused (`OutOfMemory`).
    pub fn grant(&mut self, alloc: Global, node: u8, amount: u64) -> Result<u64, CounterFault>
        ensures ok { OnOk result (grant_refusal (granted_cell self.old node) amount ≡ None) }
        ensures answer { IfOk result (λ granted. granted ≡ granted_cell self.old node + amount) }
        ensures after { IfOk result (WritesMoved self.old self.new node node) }
        ensures refused { IfErr result
            (IsRefusal (grant_refusal (granted_cell self.old node) amount)
            (granted_cell self.old node)) }
        ensures err { OnErr result (self.new ≡ self.old) }
    {
        let granted = self.grant_checked(node, amount)?;
        self.ledger.raise_moved(alloc, node, node, granted)?;
        Ok(granted)
    }

    /// Raises what a node spent to at least this number. Memory is asked for only where it spent
    /// nothing.
    pub fn raise_spent(&mut self, node: u8, spent: u64) -> Result<(), AllocError>
        ensures ok { OnOk result
            (WritesSpent self.old self.new node (max (spent_cell self.old node) spent)) }
        ensures err { OnErr result (self.new ≡ self.old) }
        ensures absent { OnErr result (spent_cell self.old node ≡ 0) }
    {
        self.ledger.raise_spent(node, spent)
    }

    /// Raises what a node moved to another, or granted where both are one, to at least this total.
    /// Memory is asked for only where it moved nothing there.
    pub fn raise_moved(
        &mut self,
        alloc: Global,
        from: u8,
        to: u8,
        total: u64,
    ) -> Result<(), AllocError>
        ensures ok { OnOk result
            (WritesMoved self.old self.new from to (max (moved_cell self.old from to) total)) }
        ensures err { OnErr result (self.new ≡ self.old) }
        ensures absent { OnErr result (moved_cell self.old from to ≡ 0) }
    {
        self.ledger.raise_moved(alloc, from, to, total)
    }

    /// Raises what a node granted to at least this total. Memory is asked for only where it granted
    /// nothing.
    pub fn raise_granted(&mut self, alloc: Global, node: u8, total: u64) -> Result<(), AllocError>
        ensures ok { OnOk result
            (WritesMoved self.old self.new node node (max (granted_cell self.old node) total)) }
        ensures err { OnErr result (self.new ≡ self.old) }
        ensures absent { OnErr result (granted_cell self.old node ≡ 0) }
    {
        self.raise_moved(alloc, node, node, total)
    }

    // Whether a node has a right.
    fn has_right(&self, setter: u8, count: u64, node: u8) -> bool
        ensures { IsTrue result ↔ (pos 0 <ℤ rights (budget_of self.now setter count) node) }
    {
        if node == setter {
            self.rights(setter, count, node) > 0
        } else {
            !self.ledger.is_short(node)
        }
    }

    // What the node will have spent, or the refusal.
    fn spend_checked(&self, setter: u8, count: u64, node: u8) -> Result<u64, CounterFault>
        ensures ok { OnOk result (spend_refusal (budget_of self.now setter count) node ≡ None) }
        ensures answer { IfOk result (λ spent. spent ≡ spent_cell self.now node + 1) }
        ensures refused { IfErr result
            (λ fault. spend_refusal (budget_of self.now setter count) node ≡ Some fault) }
    {
        let have = self.rights(setter, count, node);
        if have < 1 {
            return Err(CounterFault::TooFewRights { have });
        }
        match self.spent(node).checked_add(1) {
            Some(spent) => Ok(spent),
            None => Err(CounterFault::CellFull),
        }
    }

    // What the node will have moved there, or the refusal.
    fn shift_checked(
        &self,
        setter: u8,
        count: u64,
        from: u8,
        to: u8,
        amount: u64,
    ) -> Result<u64, CounterFault>
        ensures ok { OnOk result
            (shift_refusal (budget_of self.now setter count) from to amount ≡ None) }
        ensures answer { IfOk result (λ moved. moved ≡ moved_cell self.now from to + amount) }
        ensures more { IfOk result (λ moved. moved_cell self.now from to < moved) }
        ensures refused { IfErr result
            (λ fault. shift_refusal (budget_of self.now setter count) from to amount ≡ Some fault) }
    {
        let have = self.rights(setter, count, from);
        if have < i128::from(amount) {
            return Err(CounterFault::TooFewRights { have });
        }
        let before = if from == to { 0 } else { self.moved(from, to) };
        let Some(moved) = before.checked_add(amount) else {
            return Err(CounterFault::CellFull);
        };
        if amount == 0 {
            return Err(CounterFault::ZeroAmount);
        }
        if from == to {
            return Err(CounterFault::SameNode);
        }
        Ok(moved)
    }

    // What the node will have granted, or the refusal.
    fn grant_checked(&self, node: u8, amount: u64) -> Result<u64, CounterFault>
        ensures ok { OnOk result (grant_refusal (granted_cell self.now node) amount ≡ None) }
        ensures answer { IfOk result (λ granted. granted ≡ granted_cell self.now node + amount) }
        ensures more { IfOk result (λ granted. granted_cell self.now node < granted) }
        ensures refused { IfErr result
            (λ fault. grant_refusal (granted_cell self.now node) amount ≡ Some fault) }
    {
        let Some(granted) = self.granted(node).checked_add(amount) else {
            return Err(CounterFault::CellFull);
        };
        if amount == 0 {
            return Err(CounterFault::ZeroAmount);
        }
        Ok(granted)
    }
}

impl Join for Budget {
    ghost use Rattle.std.specs.Ordering.{nat_cmp};
    ghost use Rattle.lattice_laws.specs.Map.{map_order};
    ghost use Rattle.lattice_laws.specs.Numbers.{numbers_order};
    ghost use Rattle.lattice_laws.specs.Pair.{pair_order};

    ghost admitted = { ⟦<SpentAndMoved as Join>⟧.admitted };

    ghost order = { ⟦<SpentAndMoved as Join>⟧.order };

    ghost bottom = { ⟦<SpentAndMoved as Join>⟧.bottom };

    ghost laws = { pair_order numbers_order (map_order nat_cmp numbers_order) };

    fn joined(&self, alloc: Global, other: &Self) -> Result<Self, AllocError> {
        let ledger = self.ledger.joined(alloc, &other.ledger)?;
        Ok(Budget { ledger })
    }

    fn below(&self, other: &Self) -> bool {
        self.ledger.below(&other.ledger)
    }

    fn is_bottom(&self) -> bool {
        self.ledger.is_bottom()
    }

    fn copied(&self, alloc: Global) -> Result<Self, AllocError> {
        let ledger = self.ledger.copied(alloc)?;
        Ok(Budget { ledger })
    }

    fn join_in(&mut self, alloc: Global, other: Self) -> Result<(), AllocError> {
        let Budget { ledger } = other;
        self.ledger.join_in(alloc, ledger)
    }
}

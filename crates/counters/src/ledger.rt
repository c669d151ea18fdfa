//! What the nodes spent and moved, beside the balance of each.

ghost use Rattle.std.specs.Prelude.{◌≡◌, ◌^◌, ◌≤ℤ◌, ◌+ℤ◌, ℕ, int_le, length, map, max, pos};
ghost use Rattle.std.specs.Prelude.{OnOk, OnErr};
ghost use Rattle.std.specs.List.{range_with_len};
ghost use Rattle.counters.specs.Sums.{AreWithin};
ghost use Rattle.counters.specs.Cells.{no_shares, spent_cell, moved_cell, balance_of};
ghost use Rattle.counters.specs.Cells.{WritesSpent, WritesMoved};

use crate::balances::Balances;
use crate::cells::{Cells, Rows, SpentAndMoved, number_in_row, number_of, raise, raise_row};
use lattice_laws::{Join, PairOf};
use std::alloc::{AllocError, Global};
use std::marker::Model;

/// What the nodes spent and moved, beside the balance of each: what came to it, its grants among it,
/// less what it moved to others and what it spent. So the rights of a node are read at one place,
/// and those of all in one row, however many moved some.
#[derive(Debug, Drop)]
pub struct Ledger {
    shares: SpentAndMoved,
    balances: Balances,
}

impl Model for Ledger {
    ghost use Rattle.counters.specs.Cells.{Shares};
    ghost use Rattle.counters.specs.Balances.{AreBalances};

    ghost Value = { Shares };

    ghost view = { λ l. l.shares };

    ghost invariant = { λ l. AreBalances l.shares l.balances };
}

// No balance is further from 0 than this: that each number has 64 bits comes with the answer, which
// isn't used.
fn are_small(shares: &SpentAndMoved)
    ensures { (node : ℕ) → (pos 0 ≤ℤ (balance_of shares.now node +ℤ pos (2 ^ 100)))
        × (balance_of shares.now node ≤ℤ pos (2 ^ 100)) }
{
    let _ = shares.is_bottom();
}

impl Ledger {
    /// Nothing is spent, moved or granted. It takes no memory.
    pub(crate) fn new(alloc: Global) -> Self
        ensures { result ≡ no_shares }
    {
        Ledger {
            shares: PairOf {
                first: Cells::new(alloc),
                second: Rows::new(alloc),
            },
            balances: Balances::new(alloc),
        }
    }

    /// What each node spent.
    pub(crate) fn spent(&self) -> &Cells
        ensures { result.now ≡ self.now.first }
    {
        &self.shares.first
    }

    /// What each node moved to each other and, at its own place, granted.
    pub(crate) fn moved(&self) -> &Rows
        ensures { result.now ≡ self.now.second }
    {
        &self.shares.second
    }

    /// The balance of a node.
    pub(crate) fn balance(&self, node: u8) -> i128
        ensures balance { result ≡ balance_of self.now node }
        ensures small { (pos 0 ≤ℤ (result +ℤ pos (2 ^ 100))) × (result ≤ℤ pos (2 ^ 100)) }
    {
        self.balances.at(usize::from(node))
    }

    /// The balances of the first nodes, of as many as there are places.
    pub(crate) fn write_balances(&self, into: &mut [i128])
        ensures balances { into.new
            ≡ map (balance_of self.now) (range_with_len 0 (length into.old)) }
        ensures small { AreWithin (2 ^ 100) into.new }
    {
        self.balances.write_to(into);
    }

    /// Whether a node is short: it has a balance of 0 or less.
    pub(crate) fn is_short(&self, node: u8) -> bool
        ensures { result ≡ int_le (balance_of self.now node) (pos 0) }
    {
        self.balances.is_short(usize::from(node))
    }

    /// Raises what a node spent to at least this number. Memory is asked for only where it spent
    /// nothing.
    pub(crate) fn raise_spent(&mut self, node: u8, spent: u64) -> Result<(), AllocError>
        ensures ok { OnOk result
            (WritesSpent self.old self.new node (max (spent_cell self.old node) spent)) }
        ensures err { OnErr result (self.new ≡ self.old) }
        ensures absent { OnErr result (spent_cell self.old node ≡ 0) }
    {
        let before = number_of(&self.shares.first, node);
        if spent <= before {
            return Ok(());
        }
        self.balances.make_place(node)?;
        raise(&mut self.shares.first, node, spent)?;
        are_small(&self.shares);
        self.balances.take(node, spent - before);
        Ok(())
    }

    /// Raises what a node moved to another, or granted where both are one, to at least this total.
    /// Memory is asked for only where it moved nothing there.
    pub(crate) fn raise_moved(
        &mut self,
        alloc: Global,
        from: u8,
        to: u8,
        total: u64,
    ) -> Result<(), AllocError>
        ensures ok { OnOk result
            (WritesMoved self.old self.new from to (max (moved_cell self.old from to) total)) }
        ensures err { OnErr result (self.new ≡ self.old) }
        ensures absent { OnErr result (moved_cell self.old from to ≡ 0) }
    {
        let before = number_in_row(&self.shares.second, from, to);
        if total <= before {
            return Ok(());
        }
        self.balances.make_place(from)?;
        self.balances.make_place(to)?;
        raise_row(&mut self.shares.second, alloc, from, to, total)?;
        are_small(&self.shares);
        self.balances.move_between(from, to, total - before);
        Ok(())
    }
}

impl Join for Ledger {
    ghost use Rattle.std.specs.Ordering.{nat_cmp};
    ghost use Rattle.lattice_laws.specs.Map.{map_order};
    ghost use Rattle.lattice_laws.specs.Numbers.{numbers_order};
    ghost use Rattle.lattice_laws.specs.Pair.{pair_order};

    ghost admitted = { ⟦<SpentAndMoved as Join>⟧.admitted };

    ghost order = { ⟦<SpentAndMoved as Join>⟧.order };

    ghost bottom = { ⟦<SpentAndMoved as Join>⟧.bottom };

    ghost laws = { pair_order numbers_order (map_order nat_cmp numbers_order) };

    fn joined(&self, alloc: Global, other: &Self) -> Result<Self, AllocError> {
        let shares = self.shares.joined(alloc, &other.shares)?;
        let nodes = self.balances.len().max(other.balances.len());
        let balances = Balances::settled(alloc, &shares, nodes)?;
        Ok(Ledger { shares, balances })
    }

    fn below(&self, other: &Self) -> bool {
        self.shares.below(&other.shares)
    }

    fn is_bottom(&self) -> bool {
        self.shares.is_bottom()
    }

    fn copied(&self, alloc: Global) -> Result<Self, AllocError> {
        let shares = self.shares.copied(alloc)?;
        let balances = Balances::settled(alloc, &shares, self.balances.len())?;
        Ok(Ledger { shares, balances })
    }

    fn join_in(&mut self, alloc: Global, other: Self) -> Result<(), AllocError> {
        let Ledger { shares, balances } = other;
        self.shares.join_in(alloc, shares)?;
        if self.balances.len() < balances.len() {
            self.balances = balances;
        }
        self.balances.settle(&self.shares);
        Ok(())
    }
}

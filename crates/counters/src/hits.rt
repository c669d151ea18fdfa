//! How many hits each node counted.

ghost use Rattle.std.specs.Prelude.{◌≡◌, ◌+◌, [], length, map, None, IfOk, IfErr, OnOk, OnErr, max};
ghost use Rattle.std.specs.List.{range_with_len};
ghost use Rattle.counters.specs.Sums.{node_numbers, sum_below};
ghost use Rattle.counters.specs.Cells.{cell, WritesCell};
ghost use Rattle.counters.specs.Refusals.{hit_refusal, IsRefusal};

use crate::cells::{Cells, count, number_of, raise, total, write_numbers};
use crate::fault::CounterFault;
use lattice_laws::Join;
use std::alloc::{AllocError, Global};
use std::marker::Model;

/// How many hits each node counted. Of two counters that are joined, each node's greater number
/// holds. After a refusal a counter is as it was.
#[derive(Debug)]
pub struct HitCounter {
    hits: Cells,
}

impl Drop for HitCounter {
    fn drop(self) {
        let HitCounter { hits: _ } = self;
    }
}

impl Model for HitCounter {
    ghost use Rattle.std.specs.Prelude.{List, ℕ};

    ghost Value = { List ℕ };

    ghost view = { λ counter. counter.hits };
}

impl HitCounter {
    /// A counter without hits.
    pub fn new(alloc: Global) -> Self
        ensures { result ≡ [] }
    {
        HitCounter {
            hits: Cells::new(alloc),
        }
    }

    /// The hits of a node.
    pub fn of(&self, node: u8) -> u64
        ensures { result ≡ cell self.now node }
    {
        number_of(&self.hits, node)
    }

    /// The hits of the first nodes, of as many as there are places: all that is stored is read once.
    pub fn of_all(&self, into: &mut [u64])
        ensures { into.new ≡ map (cell self.now) (range_with_len 0 (length into.old)) }
    {
        write_numbers(&self.hits, into);
    }

    /// The hits of all nodes.
    pub fn total(&self) -> u128
        ensures { result ≡ sum_below node_numbers (cell self.now) }
    {
        total(&self.hits)
    }

    /// Counts a hit of a node, and answers how many it now has. It is refused where the node has
    /// 2^64 - 1 (`CellFull`), and where it has none and memory is refused (`OutOfMemory`).
    pub fn hit(&mut self, node: u8) -> Result<u64, CounterFault>
        ensures ok { OnOk result (hit_refusal self.old node ≡ None) }
        ensures answer { IfOk result (λ hits. hits ≡ cell self.old node + 1) }
        ensures after { IfOk result (WritesCell self.old self.new node) }
        ensures refused { IfErr result
            (IsRefusal (hit_refusal self.old node) (cell self.old node)) }
        ensures err { OnErr result (self.new ≡ self.old) }
    {
        count(&mut self.hits, node)
    }

    /// Raises the hits of a node to at least `hits`. Memory is asked for only where it has none.
    pub fn raise(&mut self, node: u8, hits: u64) -> Result<(), AllocError>
        ensures ok { OnOk result
            (WritesCell self.old self.new node (max (cell self.old node) hits)) }
        ensures err { OnErr result (self.new ≡ self.old) }
        ensures absent { OnErr result (cell self.old node ≡ 0) }
    {
        raise(&mut self.hits, node, hits)
    }
}

impl Join for HitCounter {
    ghost use Rattle.lattice_laws.specs.Numbers.{numbers_order};

    ghost admitted = { ⟦<Cells as Join>⟧.admitted };

    ghost order = { ⟦<Cells as Join>⟧.order };

    ghost bottom = { ⟦<Cells as Join>⟧.bottom };

    ghost laws = { numbers_order };

    fn joined(&self, alloc: Global, other: &Self) -> Result<Self, AllocError> {
        let hits = self.hits.joined(alloc, &other.hits)?;
        Ok(HitCounter { hits })
    }

    fn below(&self, other: &Self) -> bool {
        self.hits.below(&other.hits)
    }

    fn is_bottom(&self) -> bool {
        self.hits.is_bottom()
    }

    fn copied(&self, alloc: Global) -> Result<Self, AllocError> {
        let hits = self.hits.copied(alloc)?;
        Ok(HitCounter { hits })
    }

    fn join_in(&mut self, alloc: Global, other: Self) -> Result<(), AllocError> {
        let HitCounter { hits } = other;
        self.hits.join_in(alloc, hits)
    }
}

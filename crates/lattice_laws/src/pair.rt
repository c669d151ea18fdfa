//! Pairs of values that join.

use crate::join::Join;
use std::alloc::{AllocError, Global};

/// Two values, each joined with its like.
#[derive(Debug, PartialEq, Eq, Hash, Drop)]
pub struct PairOf<A, B> {
    /// Joined with the other's first part.
    pub first: A,
    /// Joined with the other's second part.
    pub second: B,
}

impl<A: Join, B: Join> Join for PairOf<A, B> {
    ghost use Rattle.lattice_laws.specs.Pair.{AreBoth, PairOrder, pair_of, pair_order};

    ghost admitted = { AreBoth A.admitted B.admitted };

    ghost order = { PairOrder A.order B.order };

    ghost bottom = { pair_of A.bottom B.bottom };

    ghost laws = { pair_order A.laws B.laws };

    fn joined(&self, alloc: Global, other: &Self) -> Result<Self, AllocError> {
        let first = self.first.joined(alloc, &other.first)?;
        let second = self.second.joined(alloc, &other.second)?;
        Ok(PairOf { first, second })
    }

    fn below(&self, other: &Self) -> bool {
        let first = self.first.below(&other.first);
        let second = self.second.below(&other.second);
        first && second
    }

    fn is_bottom(&self) -> bool {
        let first = self.first.is_bottom();
        let second = self.second.is_bottom();
        first && second
    }

    fn copied(&self, alloc: Global) -> Result<Self, AllocError> {
        let first = self.first.copied(alloc)?;
        let second = self.second.copied(alloc)?;
        Ok(PairOf { first, second })
    }

    // Where both parts change, the first is joined beside the old one, so that a refusal at the
    // second leaves both.
    fn join_in(&mut self, alloc: Global, other: Self) -> Result<(), AllocError> {
        let PairOf { first, second } = other;
        if second.below(&self.second) {
            return self.first.join_in(alloc, first);
        }
        if first.below(&self.first) {
            return self.second.join_in(alloc, second);
        }
        let both = self.first.joined(alloc, &first)?;
        self.second.join_in(alloc, second)?;
        self.first = both;
        Ok(())
    }
}

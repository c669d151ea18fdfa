//! Sums by terms under stamps.
#![tactic(auto, unfolding(crate::specs::Sums::sum_of))]

ghost use Rattle.std.specs.Prelude.{◌≡◌, ℕ, ◌+◌, ◌<◌, ◌^◌, OnOk, if◌then◌else◌};
ghost use Rattle.stamp_register.specs.declared.key.Stamp.{Stamp};
ghost use Rattle.audit.specs.Sums.{is_term, sum_of};

use stamp_register::Stamp;
use std::alloc::{AllocError, Global};
use std::collections::BTreeMap;

/// A sum for each term under each stamp, 0 where nothing was added.
#[derive(Drop)]
pub(crate) struct Sums {
    // The stamp's clock and node, and the term.
    sums: BTreeMap<(u64, u8, u8), u128>,
}

impl Sums {
    pub(crate) fn new(alloc: Global) -> Sums
        ensures { (stamp : Stamp) (term : ℕ) → sum_of result stamp term ≡ 0 }
    {
        Sums {
            sums: BTreeMap::new(alloc),
        }
    }

    /// The sum of a term under a stamp.
    pub(crate) fn of(&self, stamp: Stamp, term: u8) -> u128
        ensures { result ≡ sum_of self.now stamp term }
    {
        match self.sums.get(&(stamp.clock, stamp.node, term)) {
            Some(sum) => *sum,
            None => 0,
        }
    }

    /// Adds to the sum of a term under a stamp.
    pub(crate) fn add(&mut self, stamp: Stamp, term: u8, amount: u64) -> Result<(), AllocError>
        requires { sum_of self.old stamp term < 2 ^ 127 }
        ensures { OnOk result ((other : Stamp) (k : ℕ) → sum_of self.new other k
            ≡ sum_of self.old other k + (if is_term stamp term other k then amount else 0)) }
    {
        let place = (stamp.clock, stamp.node, term);
        if let Some(sum) = self.sums.get_mut(&place) {
            *sum += u128::from(amount);
            return Ok(());
        }
        self.sums.insert(place, u128::from(amount))?;
        Ok(())
    }
}

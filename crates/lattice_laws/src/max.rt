//! Numbers that join to the greater one.

ghost use Rattle.std.specs.Prelude.{◌≡◌};

use crate::join::Join;
use std::alloc::{AllocError, Global};

/// A number of 64 bits. Two of them join to the greater one, and 0 is the bottom.
#[derive(Clone, Copy, Debug, PartialEq, Eq, PartialOrd, Ord, Hash)]
pub struct Max(pub u64);

impl Join for Max {
    ghost use Rattle.lattice_laws.specs.Max.{IsNumber, IsAtMost, zero_max, max_order};

    ghost admitted = { IsNumber };

    ghost order = { IsAtMost };

    ghost bottom = { zero_max };

    ghost laws = { max_order };

    fn joined(&self, _alloc: Global, other: &Max) -> Result<Max, AllocError> {
        let (a, b) = (self.0, other.0);
        Ok(Max(if a < b { b } else { a }))
    }

    fn below(&self, other: &Max) -> bool {
        let (a, b) = (self.0, other.0);
        a <= b
    }

    fn is_bottom(&self) -> bool {
        let a = self.0;
        a == 0
    }

    fn copied(&self, _alloc: Global) -> Result<Max, AllocError> {
        let value = self.0;
        prove!(value <= u64::MAX);
        Ok(Max(value))
    }

    fn join_in(&mut self, _alloc: Global, other: Max) -> Result<(), AllocError> {
        if self.0 < other.0 {
            *self = other;
        }
        Ok(())
    }
}

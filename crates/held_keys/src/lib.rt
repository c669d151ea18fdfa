//! Keys under which values are held, in order.
#![tactic(auto)]

ghost use Rattle.std.specs.Prelude.{◌≡◌, IfOk};
ghost use Rattle.std.specs.declared.cmp.Ordering.TheVariants.{Equal};

use std::alloc::{AllocError, Global};
use std::cmp::Ord;

/// Keys of maps and of values that are held under them.
pub trait Held: Ord + Drop {
    /// An equal key of its own. The only error is out of memory.
    fn copied(&self, alloc: Global) -> Result<Self, AllocError>
        ensures { IfOk result (λ copy. Self.cmp copy self.now ≡ Equal) };
}

impl Held for u8 {
    fn copied(&self, _alloc: Global) -> Result<u8, AllocError> {
        Ok(*self)
    }
}

//! What joins.

ghost use Rattle.std.specs.Prelude.{◌≡◌, ◌↔◌, IfOk, IsTrue, OnOk, OnErr};
ghost use Rattle.lattice_laws.specs.Order.{IsCopy, IsJoin, IsJoinOrder};

use std::alloc::{AllocError, Global};

/// Values with an order on what they mean, in which any two have a least value above both. Values
/// that are below each other mean the same.
pub trait Join: Drop + Sized {
    /// Holds of the values of the type.
    ghost admitted: { Self → Type 0 };

    /// Orders what the values mean.
    ghost order: { Self → Self → Type 0 };

    /// Means the least value.
    ghost bottom: { Self };

    /// The least value above both. The only error is out of memory.
    fn joined(&self, alloc: Global, other: &Self) -> Result<Self, AllocError>
        ensures { IfOk result (IsJoin admitted order self.now other.now) };

    /// Whether the other value means as much or more. It takes no memory.
    fn below(&self, other: &Self) -> bool
        ensures value { IsTrue result ↔ order self.now other.now }
        ensures admitted_self { admitted self.now }
        ensures admitted_other { admitted other.now };

    /// Whether the value means the least there is. It takes no memory.
    fn is_bottom(&self) -> bool
        ensures value { IsTrue result ↔ order self.now bottom }
        ensures admitted_self { admitted self.now };

    /// A value of its own that means the same. The only error is out of memory.
    fn copied(&self, alloc: Global) -> Result<Self, AllocError>
        ensures { IfOk result (IsCopy admitted order self.now) };

    /// Joins the other value into this one. Where memory is refused, this one stays as it was. A
    /// type that can join in place does so; else the joined value takes this one's place.
    fn join_in(&mut self, alloc: Global, other: Self) -> Result<(), AllocError>
        ensures ok { OnOk result (IsJoin admitted order self.old other self.new) }
        ensures err { OnErr result (self.new ≡ self.old) }
    {
        *self = self.joined(alloc, &other)?;
        Ok(())
    }

    /// The order is one, and the bottom is below all.
    ghost laws: { IsJoinOrder admitted order bottom };
}

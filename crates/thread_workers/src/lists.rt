//! Lists, one behind the other.

ghost use Rattle.std.specs.Prelude.{◌≡◌, ◌++◌, OnOk};

use std::alloc::AllocError;

/// Puts all of a list behind another one.
pub fn put_behind<T: Drop>(all: &mut Vec<T>, more: Vec<T>) -> Result<(), AllocError>
    ensures { OnOk result (all.new.items ≡ all.old.items ++ more.items) }
{
    all.extend(more)
}

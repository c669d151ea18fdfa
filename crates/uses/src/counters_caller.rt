//! A caller of `counters`.

ghost use Rattle.std.specs.Prelude.{◌≡◌, ◌≤◌, ℕ, OnOk, OnErr};
ghost use Rattle.counters.specs.Cells.{spent_cell};

use counters::Budget;
use lattice_laws::Join;
use std::alloc::{AllocError, Global};

/// Takes in what another copy of a budget knows: no node has executed less then.
pub fn take_in(alloc: Global, budget: &mut Budget, other: Budget) -> Result<(), AllocError>
    ensures more { OnOk result ((node : ℕ) → spent_cell budget.old node ≤ spent_cell budget.new node) }
    ensures learned { OnOk result ((node : ℕ) → spent_cell other node ≤ spent_cell budget.new node) }
    ensures err { OnErr result (budget.new ≡ budget.old) }
{
    counters::laws::budgets_by_cell();
    budget.join_in(alloc, other)
}

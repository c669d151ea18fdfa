//! What holds of every counter and of every budget.

ghost use Rattle.counters.specs.Budgets.{RemainingAndSpentAddUp};
ghost use Rattle.counters.specs.Joins.{GoesByCell, GoesByShare, JoinsByCell, JoinsByShare};

use crate::budget::Budget;
use crate::hits::HitCounter;
use lattice_laws::Join;

/// Whatever was shifted among the nodes and spent by them, the rights that remain and what was
/// spent add up to the count and what the nodes granted.
pub fn conserved()
    ensures { RemainingAndSpentAddUp }
{}

/// A counter is below another where no node has more hits, and a join has the greater number of
/// hits at each node.
pub fn hits_by_node()
    ensures order { GoesByCell ⟦<HitCounter as Join>⟧.order }
    ensures join { JoinsByCell ⟦<HitCounter as Join>⟧.admitted ⟦<HitCounter as Join>⟧.order }
{}

/// A budget is below another where no node spent more, moved more to another or granted more, and
/// a join has the greater number in each cell.
pub fn budgets_by_cell()
    ensures order { GoesByShare ⟦<Budget as Join>⟧.order }
    ensures join { JoinsByShare ⟦<Budget as Join>⟧.admitted ⟦<Budget as Join>⟧.order }
{}

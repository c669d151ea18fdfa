//! What holds of every chart. Nothing here looks at one.

ghost use Rattle.drill_picture.specs.Laws.{ColumnsAddUp, LevelsReachTheWhole};

/// In each column of a chart what was spent, what the nodes hold and what is on its way to them are
/// the rights that there are.
pub fn columns_add_up()
    ensures { ColumnsAddUp }
{}

/// So high is what is drawn of the column: its areas, one above the other, end there.
pub fn levels_reach_the_whole()
    ensures { LevelsReachTheWhole }
{}

//! What holds of every chart of a drill in which each node replies as its trace says.

ghost use Rattle.picture_laws.specs.Laws.{ColumnsAreASchedule, ColumnsTellTheWorld, YesIsLegal};

/// The calls that stand in the first columns of a picture are a schedule of the cluster, in which each
/// node sends what differs, and the world behind it is what the traces tell up to there.
pub fn columns_are_a_schedule()
    ensures { ColumnsAreASchedule }
{}

/// What a chart shows behind these columns is what the world behind that schedule has: what was
/// counted and granted, what was spent, what each node holds, and what is on its way to each.
pub fn columns_tell_the_world()
    ensures { ColumnsTellTheWorld }
{}

/// Of a drill that an audit explains each node replies as its trace says, so that both hold of it.
pub fn yes_is_legal()
    ensures { YesIsLegal }
{}

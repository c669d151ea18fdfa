//! What holds of traces and of every audit. Nothing here looks at one.

ghost use Rattle.audit.specs.Laws.{OrdersAreSchedules, StuckPlaceIsOne, TotalsAreKept};
ghost use Rattle.audit.specs.Answers.{YesWhen};

/// A schedule fits traces exactly where each trace is legal alone and there is an order of their
/// entries in which what is delivered was emitted before.
pub fn orders()
    ensures { OrdersAreSchedules }
{}

/// Whatever is placed first, the entry at which no order goes on is one.
pub fn stuck_place()
    ensures { StuckPlaceIsOne }
{}

/// Wherever an audit may say yes, it does, out of memory aside.
pub fn yes_when()
    ensures { YesWhen }
{}

/// After a yes no total has more executions than its count and what was granted together: both of
/// what this asks is promised of every yes.
pub fn totals_are_kept()
    ensures { TotalsAreKept }
{}

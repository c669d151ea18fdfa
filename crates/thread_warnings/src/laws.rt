//! What holds of every warning. Nothing here looks at one.

ghost use Rattle.thread_warnings.specs.Laws.{RefusedAreCounted, UnfitIsRefused};

/// A call of which a warning says that it is refused (`why_refused`) is refused so by each node that has
/// room for an entry, whatever it knows.
pub fn unfit_calls_are_refused()
    ensures { UnfitIsRefused }
{}

/// Each call of a worker that was refused is counted in one of the lines that say how many were refused
/// with a code (`refused_lines`): in that of the code with which the text of its fault begins.
pub fn refused_calls_are_counted()
    ensures { RefusedAreCounted }
{}

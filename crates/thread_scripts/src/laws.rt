//! What holds of every run. Nothing here looks at one.

ghost use Rattle.thread_scripts.specs.Laws.{RepliesAreRight};

/// An audit of the traces that a plan came to never says that a reply is wrong: what `play` promises of
/// them is that they are legal.
pub fn replies_are_right()
    ensures { RepliesAreRight }
{}

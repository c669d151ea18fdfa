//! What holds of every script of threads.

ghost use Rattle.thread_plans.specs.Laws.{LineIsRefused, NothingIsSaid, PlanIsRead};
ghost use Rattle.thread_plans.specs.Laws.{RefusedIsNamed, ScriptHasOnePlan};

/// A text is a script of one plan at most, and that is what is read of it (`plan_in`). What is
/// refused is the first line with which no plan goes on, or the end of a script that no plan ends
/// so.
pub fn plans_are_read()
    ensures one { ScriptHasOnePlan }
    ensures plan { PlanIsRead }
    ensures refused { LineIsRefused }
{}

/// Of a script with a plan nothing is said, and of any other the line that is refused is named first
/// (`bad_lines`).
pub fn bad_lines_are_named()
    ensures nothing { NothingIsSaid }
    ensures first { RefusedIsNamed }
{}

//! What holds of every script.

ghost use Rattle.scripts.specs.Laws.{LinesAreAnswered, LinesLeaveWorld, NodesHoldWhatTheyLearnt};
ghost use Rattle.scripts.specs.Laws.{RunIsBounded, RunIsConserved};

/// The lines of a script are answered, one after the other, by the cluster that those before it
/// left, and that is the cluster of the run that they ask for: of the events of the lines behind the
/// one that makes the cluster, each answered in the world that those before it left.
///
/// A run that is a schedule (of a script that ran, `run_script` says so) is one of those that the
/// laws of `cluster_model` are about. Of a term that was counted and granted so often under one
/// stamp, the rights that nodes have left, those in transit and the executions add up to the count
/// and the grants; the answers tell of no more executions, on all nodes together; and each node
/// holds what it learnt.
pub fn script_is_schedule()
    ensures world { LinesLeaveWorld }
    ensures answered { LinesAreAnswered }
    ensures conserved { RunIsConserved }
    ensures bounded { RunIsBounded }
    ensures learnt { NodesHoldWhatTheyLearnt }
{}

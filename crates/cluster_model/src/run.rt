//! One event after the other.

ghost use Rattle.std.specs.Prelude.{◌≡◌, IfOk, OnErr};
ghost use Rattle.cluster_model.specs.Laws.{EscrowHolds};
ghost use Rattle.cluster_model.specs.Runs.{asked, told, AreAnswers, AreHonest, Afterwards};
ghost use Rattle.cluster_model.specs.Runs.{HasHistory, HoldsWhatItLearnt, TellsExecutions};
ghost use Rattle.cluster_model.specs.Runs.{after_answers};

use crate::event::Event;
use crate::fault::WorldFault;
use crate::world::World;
use node_core::Reply;
use std::alloc::{AllocError, Global};

/// What the events of a run were answered, in their order.
#[derive(Debug, Drop)]
pub struct RunReport {
    pub answers: Vec<Result<Reply, WorldFault>>,
}

impl World {
    /// Asks for one event after the other, and answers each: what is refused changes nothing, and
    /// the run goes on. The one error is that there is no memory for the answers; nothing was asked
    /// then. Where memory is refused later, that is the answer to the event concerned.
    pub fn run(&mut self, alloc: Global, events: &[Event<'_>]) -> Result<RunReport, AllocError>
        ensures answers { IfOk result (λ report.
            AreAnswers self.old (asked events.now) (told self.old report)) }
        ensures after { IfOk result (λ report.
            self.new ≡ after_answers self.old (asked events.now) (told self.old report)) }
        ensures err { OnErr result (self.new ≡ self.old) }

        // Of a world whose history is known, as that of a new one is: the run is a schedule, in
        // which each node sends what differs.
        ensures history { IfOk result (λ report.
            Afterwards self.old (asked events.now) (told self.old report)
            (λ cluster past. HasHistory cluster past self.new)) }
        // Nodes that know the same operations hold the same state.
        ensures same { IfOk result (λ report.
            Afterwards self.old (asked events.now) (told self.old report)
            (λ cluster past. HoldsWhatItLearnt cluster past self.new)) }
        // Rights held, in transit and executions add up to what was counted and granted.
        ensures escrow { IfOk result (λ report.
            Afterwards self.old (asked events.now) (told self.old report) EscrowHolds) }
        // The answers tell of each of these executions.
        ensures executions { IfOk result (λ report.
            TellsExecutions self.old (asked events.now) (told self.old report)) }
        // No delivery is refused for what its message says.
        ensures honest { IfOk result (λ report.
            Afterwards self.old (asked events.now) (told self.old report)
            (λ _ _. AreHonest (asked events.now) (told self.old report))) }
    {
        let mut answers = Vec::with_capacity(alloc, events.len())?;
        for event in events {
            answers.push_reserved(self.step(alloc, event));
        }
        Ok(RunReport { answers })
    }
}

//! What an audit answers.

ghost use Rattle.std.specs.Prelude.{◌≡◌, ◌++◌, OnOk};
ghost use Rattle.answers.specs.Verdicts.{verdict_written};

use crate::answer::Answer;
use crate::printed::Printed;
use audit::{AuditFault, AuditYes};
use std::alloc::{AllocError, Global};

impl Printed {
    /// Adds what an audit found: that it passes, with each of its totals, or that it fails.
    pub fn put_verdict(
        &mut self,
        alloc: Global,
        verdict: &Result<AuditYes, AuditFault>,
    ) -> Result<(), AllocError>
        ensures bytes { OnOk result (self.new.bytes
            ≡ self.old.bytes ++ verdict_written self.old.format verdict.now) }
        ensures format { OnOk result (self.new.format ≡ self.old.format) }
    {
        match verdict {
            Ok(found) => {
                self.put(alloc, Answer::Yes)?;
                for total in &found.totals {
                    self.put(alloc, Answer::Budget(total))?;
                }
                Ok(())
            }
            Err(fault) => self.put(alloc, Answer::No(*fault)),
        }
    }
}

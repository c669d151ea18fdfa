//! What gossip came to.

ghost use Rattle.std.specs.Prelude.{◌≡◌, ◌+◌, ◌<◌, ◌≤◌, ◌^◌, ◌++◌, ◌∷◌, [], ◌↔◌, cond, length, vec_len};
ghost use Rattle.std.specs.Prelude.{vec_capacity, OnOk, OnErr, IsErr};
ghost use Rattle.std.specs.Prelude.{slice_set};
ghost use Rattle.gossip.specs.Attempts.{attempt_at, attempt_by, no_attempts, why_of};
ghost use Rattle.gossip.specs.declared.failures.AttemptFault.TheVariants.{NotMade};
ghost use Rattle.gossip.specs.Refused.{failure_of, is_counted, rejection_of};

use crate::failures::{Attempt, AttemptFault, Failed, Rejected};
use crate::wire::WireError;
use message_format::MAX_NODES;
use node_core::{NodeFault, Receipt};
use node_registry::Refusals;
use std::alloc::{AllocError, Global};

/// How a call ended.
#[derive(Clone, Copy, Debug, PartialEq, Eq)]
pub enum Ended {
    /// All was done.
    Done,
    /// Memory was refused. What was done until then is in the report.
    OutOfMemory,
}

/// What rounds of gossip, or a spread, came to.
#[derive(Drop)]
pub struct GossipReport {
    /// How many messages were made.
    pub emitted: u64,
    /// How many of them couldn't be sent.
    pub lost: u64,
    /// How many messages were taken in.
    pub delivered: u64,
    /// How many calls the node refused, otherwise than as out of memory.
    pub refused: u64,
    /// The receipts of the accepted calls, in the order of the calls.
    pub receipts: Vec<Receipt>,
    /// The messages that couldn't be sent, in the order of the calls that made them: to whom, and why.
    pub failed: Vec<Failed>,
    /// Of each node what came of the last message that was due for it.
    pub attempts: [Attempt; MAX_NODES as usize],
    /// The messages taken from the wire that the node rejected, otherwise than as out of memory, in
    /// the order in which they were taken: of whom, and why.
    pub rejected: Vec<Rejected>,
    /// What was asked in each call that the node refused, and why, in the order of the calls: contracts
    /// alone read it, and it takes no memory.
    pub noted: Refusals,
    pub ended: Ended,
    ghost few_lost: { lost ≤ emitted },
}

impl GossipReport {
    /// Of no call.
    pub(crate) fn new(alloc: Global) -> GossipReport
        ensures emitted { result.emitted ≡ 0 }
        ensures delivered { result.delivered ≡ 0 }
        ensures refused { result.refused ≡ 0 }
        ensures receipts { result.receipts.items ≡ [] }
        ensures ended { result.ended ≡ Ended.Done }
        ensures lost { result.lost ≡ 0 }
        ensures noted { result.noted ≡ [] }
        ensures failed { result.failed.items ≡ [] }
        ensures rejected { result.rejected.items ≡ [] }
        ensures attempts { result.attempts ≡ no_attempts }
    {
        GossipReport {
            emitted: 0,
            lost: 0,
            delivered: 0,
            refused: 0,
            receipts: Vec::new(alloc),
            failed: Vec::new(alloc),
            attempts: [Attempt::NotDue; MAX_NODES as usize],
            rejected: Vec::new(alloc),
            noted: Refusals::new(),
            ended: Ended::Done,
        }
    }

    /// What came of the last message that was due for a node.
    pub fn attempt(&self, peer: u8) -> Attempt
        ensures { result ≡ attempt_at self.now.attempts peer }
    {
        self.attempts
            .get(usize::from(peer))
            .copied()
            .unwrap_or(Attempt::NotDue)
    }

    /// Records a message that was made for a node, by what sending it came to.
    pub(crate) fn record_emit(&mut self, receipt: Receipt, to: u8, sent: Result<(), WireError>)
        requires room { vec_len self.old.receipts < vec_capacity self.old.receipts }
        requires room_to_fail { vec_len self.old.failed < vec_capacity self.old.failed }
        requires few { self.old.emitted + 1 < 2 ^ 64 }
        ensures receipts { self.new.receipts.items ≡ self.old.receipts.items ++ receipt ∷ [] }
        ensures emitted { self.new.emitted ≡ self.old.emitted + 1 }
        ensures lost { self.new.lost ≡ self.old.lost + length (failure_of to sent) }
        ensures failed { self.new.failed.items ≡ self.old.failed.items ++ failure_of to sent }
        ensures rejected { self.new.rejected.items ≡ self.old.rejected.items }
        ensures delivered { self.new.delivered ≡ self.old.delivered }
        ensures refused { self.new.refused ≡ self.old.refused }
        ensures attempts { self.new.attempts
            ≡ slice_set self.old.attempts to (attempt_by (why_of sent)) }
        ensures noted { self.new.noted ≡ self.old.noted }
        ensures ended { self.new.ended ≡ self.old.ended }
    {
        self.emitted += 1;
        if let Err(why) = sent {
            self.lost += 1;
            self.failed.push_reserved(Failed { peer: to, why });
        }
        self.note_attempt(to, Attempt::by(sent.err().map(AttemptFault::NotSent)));
        self.receipts.push_reserved(receipt);
    }

    /// Records a message that was taken in.
    pub(crate) fn record_delivery(&mut self, receipt: Receipt)
        requires room { vec_len self.old.receipts < vec_capacity self.old.receipts }
        requires few { self.old.delivered + 1 < 2 ^ 64 }
        ensures receipts { self.new.receipts.items ≡ self.old.receipts.items ++ receipt ∷ [] }
        ensures emitted { self.new.emitted ≡ self.old.emitted }
        ensures lost { self.new.lost ≡ self.old.lost }
        ensures delivered { self.new.delivered ≡ self.old.delivered + 1 }
        ensures failed { self.new.failed.items ≡ self.old.failed.items }
        ensures rejected { self.new.rejected.items ≡ self.old.rejected.items }
        ensures refused { self.new.refused ≡ self.old.refused }
        ensures attempts { self.new.attempts ≡ self.old.attempts }
        ensures noted { self.new.noted ≡ self.old.noted }
        ensures ended { self.new.ended ≡ self.old.ended }
    {
        self.delivered += 1;
        self.receipts.push_reserved(receipt);
    }

    /// Counts a refusal; the only error is out of memory, which isn't counted.
    pub(crate) fn refuse(&mut self, fault: NodeFault) -> Result<(), AllocError>
        requires { self.old.refused + 1 < 2 ^ 64 }
        ensures memory { IsErr result ↔ (fault ≡ NodeFault.OutOfMemory) }
        ensures receipts { self.new.receipts.items ≡ self.old.receipts.items }
        ensures emitted { self.new.emitted ≡ self.old.emitted }
        ensures lost { self.new.lost ≡ self.old.lost }
        ensures delivered { self.new.delivered ≡ self.old.delivered }
        ensures ok { OnOk result (self.new.refused ≡ self.old.refused + 1) }
        ensures err { OnErr result (self.new.refused ≡ self.old.refused) }
        ensures counted { self.new.refused ≡ self.old.refused + cond (is_counted fault) 1 0 }
        ensures failed { self.new.failed.items ≡ self.old.failed.items }
        ensures rejected { self.new.rejected.items ≡ self.old.rejected.items }
        ensures room { (vec_len self.new.rejected ≡ vec_len self.old.rejected)
            × (vec_capacity self.new.rejected ≡ vec_capacity self.old.rejected) }
        ensures attempts { self.new.attempts ≡ self.old.attempts }
        ensures noted { self.new.noted ≡ self.old.noted }
        ensures ended { self.new.ended ≡ self.old.ended }
    {
        if fault == NodeFault::OutOfMemory {
            return Err(AllocError);
        }
        self.refused += 1;
        Ok(())
    }

    /// Counts a message of this sender that the node rejected, and records it; the only error is out of
    /// memory, which is neither counted nor recorded.
    pub(crate) fn reject(&mut self, sender: Option<u8>, fault: NodeFault) -> Result<(), AllocError>
        requires few { self.old.refused + 1 < 2 ^ 64 }
        requires room { vec_len self.old.rejected < vec_capacity self.old.rejected }
        ensures memory { IsErr result ↔ (fault ≡ NodeFault.OutOfMemory) }
        ensures receipts { self.new.receipts.items ≡ self.old.receipts.items }
        ensures emitted { self.new.emitted ≡ self.old.emitted }
        ensures lost { self.new.lost ≡ self.old.lost }
        ensures delivered { self.new.delivered ≡ self.old.delivered }
        ensures ok { OnOk result (self.new.refused ≡ self.old.refused + 1) }
        ensures err { OnErr result (self.new.refused ≡ self.old.refused) }
        ensures counted { self.new.refused ≡ self.old.refused + cond (is_counted fault) 1 0 }
        ensures failed { self.new.failed.items ≡ self.old.failed.items }
        ensures rejected { self.new.rejected.items
            ≡ self.old.rejected.items ++ rejection_of sender fault }
        ensures attempts { self.new.attempts ≡ self.old.attempts }
        ensures noted { self.new.noted ≡ self.old.noted }
        ensures ended { self.new.ended ≡ self.old.ended }
    {
        self.refuse(fault)?;
        self.rejected.push_reserved(Rejected { sender, fault });
        Ok(())
    }

    /// Counts that the node refused to make a message, and records it; the only error is out of memory, which is
    /// neither counted nor recorded.
    pub(crate) fn refuse_emit(&mut self, to: u8, why: NodeFault) -> Result<(), AllocError>
        requires { self.old.refused + 1 < 2 ^ 64 }
        ensures memory { IsErr result ↔ (why ≡ NodeFault.OutOfMemory) }
        ensures receipts { self.new.receipts.items ≡ self.old.receipts.items }
        ensures emitted { self.new.emitted ≡ self.old.emitted }
        ensures lost { self.new.lost ≡ self.old.lost }
        ensures delivered { self.new.delivered ≡ self.old.delivered }
        ensures ok { OnOk result (self.new.refused ≡ self.old.refused + 1) }
        ensures err { OnErr result (self.new.refused ≡ self.old.refused) }
        ensures counted { self.new.refused ≡ self.old.refused + cond (is_counted why) 1 0 }
        ensures failed { self.new.failed.items ≡ self.old.failed.items }
        ensures rejected { self.new.rejected.items ≡ self.old.rejected.items }
        ensures attempts { self.new.attempts ≡ cond (is_counted why)
            (slice_set self.old.attempts to (Attempt.Failed (NotMade why))) self.old.attempts }
        ensures noted { self.new.noted ≡ self.old.noted }
        ensures ended { self.new.ended ≡ self.old.ended }
    {
        self.refuse(why)?;
        self.note_attempt(to, Attempt::Failed(AttemptFault::NotMade(why)));
        Ok(())
    }

    /// Records what came of a message that was due for a node.
    pub(crate) fn note_attempt(&mut self, peer: u8, attempt: Attempt)
        ensures attempts { self.new.attempts ≡ slice_set self.old.attempts peer attempt }
        ensures receipts { self.new.receipts ≡ self.old.receipts }
        ensures emitted { self.new.emitted ≡ self.old.emitted }
        ensures lost { self.new.lost ≡ self.old.lost }
        ensures delivered { self.new.delivered ≡ self.old.delivered }
        ensures refused { self.new.refused ≡ self.old.refused }
        ensures failed { self.new.failed ≡ self.old.failed }
        ensures rejected { self.new.rejected ≡ self.old.rejected }
        ensures noted { self.new.noted ≡ self.old.noted }
        ensures ended { self.new.ended ≡ self.old.ended }
    {
        if peer < MAX_NODES {
            self.attempts[usize::from(peer)] = attempt;
        }
    }
}

//! What an event is answered.

ghost use Rattle.std.specs.Prelude.{◌≡◌, ◌≢◌, ℕ, IfOk, IsOk, OnOk, Some};
ghost use Rattle.node_calls.specs.Asks.{answered_from};
ghost use Rattle.node_calls.specs.Told.{passed_ref, reply_ref_told};
ghost use Rattle.node_calls.specs.declared.fault.NodeFault.TheVariants.{OutOfMemory};
ghost use Rattle.cluster_model.specs.declared.fault.WorldFault.TheVariants.{Refused};
ghost use Rattle.answers.specs.Answers.{answer_value, refused};
ghost use Rattle.answers.specs.Printing.{after_put};
ghost use Rattle.scripts.specs.Replies.{pass_answer, reply_answer};

use answers::{Answer, Printed};
use cluster_model::WorldFault;
use node_core::{NodeFault, PassReplyRef, ReplyRef};
use std::alloc::{AllocError, Global};

fn pass_answer(reply: PassReplyRef<'_>) -> Answer<'_>
    ensures { answer_value result ≡ pass_answer (passed_ref reply.entry) }
{
    match reply {
        PassReplyRef::Unset => Answer::Unset,
        PassReplyRef::NoTerm { stamp } => Answer::NoTerm(stamp),
        PassReplyRef::Act { stamp, term, task } => Answer::Act { stamp, term, task },
    }
}

/// The answer that a reply is. A message has the number of those that were made before it.
pub(crate) fn reply_answer(reply: ReplyRef<'_>, messages: usize) -> Answer<'_>
    ensures { (nodes : ℕ) → answer_value result
        ≡ reply_answer messages (answered_from nodes (reply_ref_told reply.entry)) }
{
    match reply {
        ReplyRef::Pass(reply) => pass_answer(reply),
        ReplyRef::Set(stamp) => Answer::Set(stamp),
        ReplyRef::Remove(stamp) => Answer::Removed(stamp),
        ReplyRef::Load(entries) => Answer::Loaded(entries),
        ReplyRef::Shift(total) => Answer::Shifted(total),
        ReplyRef::Grant(total) => Answer::Granted(total),
        ReplyRef::Emit(_) => Answer::Message(messages),
        ReplyRef::Deliver(changed) => Answer::Delivered(changed),
    }
}

// Why something is refused; out of memory is no answer.
fn refusal_of(fault: WorldFault) -> Result<WorldFault, AllocError>
    ensures reply { IfOk result (λ refusal. (refusal ≡ fault) × (fault ≢ Refused OutOfMemory)) }
    ensures any { fault ≢ Refused OutOfMemory → IsOk result }
{
    match fault {
        WorldFault::Refused(NodeFault::OutOfMemory) => Err(AllocError),
        fault => Ok(fault),
    }
}

/// Prints why something is refused.
pub(crate) fn put_refusal(
    alloc: Global,
    fault: WorldFault,
    out: &mut Printed,
) -> Result<(), AllocError>
    ensures answer { OnOk result (out.new ≡ after_put out.old (Some (refused fault))) }
    ensures memory { OnOk result (fault ≢ Refused OutOfMemory) }
{
    let refusal = refusal_of(fault)?;
    out.put(alloc, Answer::Refused(refusal))
}

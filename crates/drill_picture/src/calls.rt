//! The calls of a drill, and the messages that they made and took.

ghost use Rattle.std.specs.Prelude.{◌≡◌, option_map};
ghost use Rattle.node_calls.specs.Told.{ask_ref_told, reply_ref_told};
ghost use Rattle.packed_trace.specs.Packed.{seen_told};
ghost use Rattle.drill_picture.specs.Arrows.{is_news};
ghost use Rattle.drill_picture.specs.Calls.{call_at, made_by, makes, taken_by};

use node_calls::{AskRef, ReplyRef};
use packed_trace::{Seen, Trace};

/// The call at an index of a node's trace, if it is there.
#[tactic(auto, unfolding(crate::specs::Calls::call_at))]
pub(crate) fn call_at(traces: &[Trace], node: usize, index: u32) -> Option<Seen<'_>>
    ensures { option_map seen_told result ≡ call_at traces.now node index }
{
    traces.get(node)?.at(index as usize)
}

/// The message that was made, if one was.
pub(crate) fn made(reply: ReplyRef<'_>) -> Option<&[u8]>
    ensures { option_map (λ b. b.now) result ≡ made_by (reply_ref_told reply.entry) }
{
    match reply {
        ReplyRef::Emit(message) => Some(message),
        ReplyRef::Set(_)
        | ReplyRef::Remove(_)
        | ReplyRef::Load(_)
        | ReplyRef::Pass(_)
        | ReplyRef::Shift(_)
        | ReplyRef::Grant(_)
        | ReplyRef::Deliver(_) => None,
    }
}

/// The message that was taken, if one was.
pub(crate) fn taken(ask: AskRef<'_>) -> Option<&[u8]>
    ensures { option_map (λ b. b.now) result ≡ taken_by (ask_ref_told ask.entry) }
{
    match ask {
        AskRef::Deliver { message } => Some(message),
        AskRef::Set { .. }
        | AskRef::Remove { .. }
        | AskRef::Load { .. }
        | AskRef::Pass { .. }
        | AskRef::Shift { .. }
        | AskRef::Grant { .. }
        | AskRef::Emit { .. } => None,
    }
}

/// Whether a call made a message of these bytes.
pub(crate) fn makes(call: Option<Seen<'_>>, bytes: &[u8]) -> bool
    ensures { result ≡ makes bytes.now (option_map seen_told call.entry) }
{
    let Some(call) = call else {
        return false;
    };
    match made(call.reply()) {
        Some(other) => other == bytes,
        None => false,
    }
}

/// Whether a delivery told its node anything.
pub(crate) fn is_news(reply: ReplyRef<'_>) -> bool
    ensures { result ≡ is_news (reply_ref_told reply.entry) }
{
    match reply {
        ReplyRef::Deliver(changed) => changed,
        ReplyRef::Set(_)
        | ReplyRef::Remove(_)
        | ReplyRef::Load(_)
        | ReplyRef::Pass(_)
        | ReplyRef::Shift(_)
        | ReplyRef::Grant(_)
        | ReplyRef::Emit(_) => false,
    }
}

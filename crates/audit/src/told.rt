//! What calls tell: whether two tell the same, and the bytes of messages.

ghost use Rattle.std.specs.Prelude.{◌≡◌, ◌↔◌, IsTrue, option_map, slice_get};
ghost use Rattle.node_calls.specs.Told.{told};
ghost use Rattle.packed_trace.specs.Packed.{seen_told};
ghost use Rattle.audit.specs.Messages.{bytes_emitted, bytes_delivered};

use node_core::{AskRef, Entry, ReplyRef, Seen, Trace};

// The random draws of a call of a trace.
fn words_of<'a>(seen: &'a Seen<'_>) -> &'a [u32]
    ensures { result.now ≡ (seen_told seen.now).words }
{
    match seen {
        Seen::Pass { word, .. } => word.as_slice(),
        Seen::Entry(entry) => entry.words.as_slice(),
    }
}

// Whether a call of a trace tells what an entry tells.
pub(crate) fn same_call(seen: Seen<'_>, entry: &Entry) -> bool
    ensures { IsTrue result ↔ (seen_told seen.entry ≡ told entry.now) }
{
    seen.ask().is_same(entry.ask.as_ref())
        && words_of(&seen) == entry.words.as_slice()
        && seen.reply().is_same(entry.reply.as_ref())
}

// The call at an index of a trace.
pub(crate) fn call_at(trace: &Trace, index: u64) -> Option<Seen<'_>>
    ensures { option_map seen_told result ≡ slice_get trace.now.calls index }
{
    trace.at(index as usize)
}

// The message that a call emitted, if it did.
pub(crate) fn emitted(seen: Seen<'_>) -> Option<&[u8]>
    ensures { option_map (λ b. b.now) result ≡ bytes_emitted (seen_told seen.entry) }
{
    match seen.reply() {
        ReplyRef::Emit(message) => Some(message),
        ReplyRef::Set(_)
        | ReplyRef::Remove(_)
        | ReplyRef::Load(_)
        | ReplyRef::Pass(_)
        | ReplyRef::Shift(_)
        | ReplyRef::Grant(_)
        | ReplyRef::Deliver(_) => None,
    }
}

// The message that a call delivered, if it did.
pub(crate) fn delivered(seen: Seen<'_>) -> Option<&[u8]>
    ensures { option_map (λ b. b.now) result ≡ bytes_delivered (seen_told seen.entry) }
{
    match seen.ask() {
        AskRef::Deliver { message } => Some(message),
        AskRef::Set { .. }
        | AskRef::Remove { .. }
        | AskRef::Load { .. }
        | AskRef::Pass { .. }
        | AskRef::Shift { .. }
        | AskRef::Grant { .. }
        | AskRef::Emit { .. } => None,
    }
}

//! Replies to calls.

ghost use Rattle.std.specs.Prelude.{◌≡◌, ◌≤◌, ◌+◌, ◌++◌, ℕ, length, decimal};
ghost use Rattle.std.specs.Prelude.{IfOk, IfErr, string_bytes, string_len, string_capacity};
ghost use Rattle.stamp_register.specs.Keys.{stamp_text};
ghost use Rattle.node_calls.specs.Asks.{reply_value};
ghost use Rattle.http_routes.specs.Replies.{http_value, IsReply};
ghost use Rattle.http_routes.specs.Replies.{acceptance_value, answered_text, outcome_value};
ghost use Rattle.http_routes.specs.Replies.{refusal_value, status_of};

use crate::http_reply::HttpReply;
use itoa::Buffer;
use node_core::{Ask, NodeFault, Reply};
use stamp_register::Stamp;
use std::alloc::{AllocError, Global};
use std::fmt::Write;

/// Room for the reply to any call, in bytes: that of an accepted one always fits.
pub(crate) const ROOM: usize = 128;

/// Room for the reply to a call, which is made before the call: so an accepted call is never
/// answered as out of memory.
#[derive(Drop)]
pub struct ReplyRoom {
    text: String,
    ghost empty: { string_len text ≡ 0 },
    ghost wide: { 128 ≤ string_capacity text },
}

impl ReplyRoom {
    /// Room for a reply. The only error is out of memory.
    pub fn new(alloc: Global) -> Result<ReplyRoom, AllocError> {
        Ok(ReplyRoom {
            text: String::with_capacity(alloc, ROOM)?,
        })
    }

    /// The reply to a call that came to this. Of an accepted call it takes no memory.
    pub fn reply(self, outcome: &Result<Reply, NodeFault>) -> HttpReply
        ensures accepted { IfOk outcome.now (λ r. (nodes : ℕ)
            → http_value result ≡ acceptance_value (reply_value nodes r)) }
        ensures refused { IfErr outcome.now (λ f. IsReply (refusal_value f) (http_value result)) }
    {
        match outcome {
            Ok(reply) => {
                let mut text = self.text;
                answered(&mut text, reply);
                HttpReply::plain(200, text.into_bytes())
            }
            Err(fault) => refused(self.text, *fault),
        }
    }
}

/// Adds a text for which there is room.
pub(crate) fn append(text: &mut String, more: &str)
    requires { string_len text.old + length more.now ≤ string_capacity text.old }
    ensures bytes { string_bytes text.new ≡ string_bytes text.old ++ more.now }
    ensures len { string_len text.new ≡ string_len text.old + length more.now }
    ensures capacity { string_capacity text.old ≤ string_capacity text.new }
{
    // It fails only where room is missing.
    let _ = text.push_str(more);
}

/// Adds a number for which there is room.
pub(crate) fn append_number(text: &mut String, number: u64)
    requires { string_len text.old + 40 ≤ string_capacity text.old }
    ensures bytes { string_bytes text.new ≡ string_bytes text.old ++ decimal number }
    ensures len { string_len text.new ≤ string_len text.old + 40 }
    ensures capacity { string_capacity text.old ≤ string_capacity text.new }
{
    append(text, Buffer::new().format(number));
}

// Adds a stamp for which there is room.
fn append_stamp(text: &mut String, stamp: Stamp)
    requires { string_len text.old + 81 ≤ string_capacity text.old }
    ensures bytes { string_bytes text.new ≡ string_bytes text.old ++ stamp_text stamp }
    ensures capacity { string_capacity text.old ≤ string_capacity text.new }
{
    append_number(text, stamp.clock);
    append(text, ".");
    append_number(text, u64::from(stamp.node));
}

/// Writes what an accepted call is answered, in room for it.
pub(crate) fn answered(text: &mut String, reply: &Reply)
    requires empty { string_len text.old ≡ 0 }
    requires wide { 128 ≤ string_capacity text.old }
    ensures bytes { (nodes : ℕ)
        → string_bytes text.new ≡ answered_text (reply_value nodes reply.now) }
    ensures capacity { string_capacity text.old ≤ string_capacity text.new }
{
    match reply {
        Reply::Set(stamp) | Reply::Remove(stamp) => append_stamp(text, *stamp),
        Reply::Load(entries) => append_number(text, u64::from(*entries)),
        Reply::Shift(total) | Reply::Grant(total) => append_number(text, *total),
        Reply::Deliver(true) => append(text, "changed"),
        Reply::Deliver(false) => append(text, "same"),
        // No request asks for either.
        Reply::Pass(_) | Reply::Emit(_) => {}
    }
}

// The reply to a refused call, written to an empty text.
fn refused(room: String, fault: NodeFault) -> HttpReply
    requires { string_len room ≡ 0 }
    ensures { IsReply (refusal_value fault) (http_value result) }
{
    let mut text = room;
    match write!(text, "{fault}") {
        Ok(()) => HttpReply {
            status: status_of(fault),
            body: text.into_bytes(),
            fault: Some(fault),
        },
        Err(_) => {
            text.clear();
            HttpReply::plain(503, text.into_bytes())
        }
    }
}

/// The status of the reply to a call that is refused so.
pub(crate) fn status_of(fault: NodeFault) -> u16
    ensures { result ≡ status_of fault }
{
    match fault {
        NodeFault::BadName
        | NodeFault::BadActions(_)
        | NodeFault::BadNode
        | NodeFault::ZeroAmount
        | NodeFault::BadMessage(_)
        | NodeFault::NotForMe
        | NodeFault::OwnAhead
        | NodeFault::AckAhead
        | NodeFault::Overspent => 400,
        NodeFault::TooManyPoints
        | NodeFault::NotSet
        | NodeFault::NoSuchTerm
        | NodeFault::NotCounted
        | NodeFault::TooFewRights { .. } => 409,
        NodeFault::TraceFull
        | NodeFault::ClockFull
        | NodeFault::CellFull
        | NodeFault::BadWords { .. }
        | NodeFault::BadConfig
        | NodeFault::OutOfMemory => 503,
    }
}

/// The reply to a request whose ask came to this: 200 and what is answered, without a body for a
/// pass or an emit, which no request asks; or the fault with its status and its text. What is
/// answered says of what kind its ask was, so nothing is read from the ask.
pub fn reply_of(alloc: Global, _ask: &Ask, outcome: &Result<Reply, NodeFault>) -> HttpReply
    ensures { (nodes : ℕ) → IsReply (outcome_value nodes outcome.now) (http_value result) }
{
    match ReplyRoom::new(alloc) {
        Ok(room) => room.reply(outcome),
        Err(_) => HttpReply::no_memory(alloc),
    }
}

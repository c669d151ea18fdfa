//! Replies in room that is kept.

ghost use Rattle.std.specs.Prelude.{◌≡◌, ◌≤◌, ◌++◌, [], false, decimal, length, IfOk, IfErr};
ghost use Rattle.std.specs.Prelude.{IsTrue, MatchOption, option_map, unwrap_or, ℕ};
ghost use Rattle.node_calls.specs.Asks.{reply_value};
ghost use Rattle.node_calls.specs.FaultText.{node_fault_text};
ghost use Rattle.http_routes.specs.Memory.{holds_fault};
ghost use Rattle.http_routes.specs.Replies.{http_value, request_fault_reply, IsReply};
ghost use Rattle.http_routes.specs.Replies.{acceptance_value, refusal_value};
ghost use Rattle.http_routes.specs.Rooms.{room_reply_value};

use crate::http_reply::HttpReply;
use crate::reply::{ROOM, answered, append, append_number, status_of};
use crate::request::RequestFault;
use node_core::{NodeFault, Reply};
use std::alloc::{AllocError, Global};
use std::marker::Model;

/// Room that is kept for the replies to many requests, one after the other: that to any accepted call
/// fits, and that to any refused one whose fault doesn't hold another. Contracts see the body that
/// stands in it.
#[derive(Drop)]
pub struct KeptRoom {
    text: String,
}

impl Model for KeptRoom {
    ghost use Rattle.std.specs.Prelude.{◌≤◌, ℕ, List, string_bytes, string_capacity};

    ghost Value = { List ℕ };

    ghost view = { λ r. string_bytes r.text };

    ghost invariant = { λ r. 128 ≤ string_capacity r.text };
}

/// A reply of which the body may stand in the room that was kept for it.
#[derive(Drop)]
pub enum RoomReply {
    /// Its body stands in the room.
    Kept {
        status: u16,
        /// The fault whose text the body is, if the node rejected the call.
        fault: Option<NodeFault>,
    },
    /// Its body has memory of its own.
    Apart(HttpReply),
}

impl KeptRoom {
    /// Empty room. The only error is out of memory.
    pub fn new(alloc: Global) -> Result<KeptRoom, AllocError>
        ensures { IfOk result (λ room. room ≡ []) }
    {
        Ok(KeptRoom {
            text: String::with_capacity(alloc, ROOM)?,
        })
    }

    /// The body that stands in it.
    pub fn body(&self) -> &[u8]
        ensures { result.now ≡ self.now }
    {
        self.text.as_bytes()
    }

    /// The same, in the memory in which it stands.
    pub fn into_body(self) -> Vec<u8>
        ensures { result.items ≡ self }
    {
        self.text.into_bytes()
    }

    /// The reply to a request that wants nothing of a node.
    pub(crate) fn refuse_request(&mut self, fault: RequestFault) -> RoomReply
        ensures { room_reply_value self.new result ≡ request_fault_reply fault }
    {
        self.text.clear();
        append(&mut self.text, fault.text());
        RoomReply::Kept {
            status: fault.status(),
            fault: None,
        }
    }

    /// The reply to a call that came to this.
    pub(crate) fn reply(&mut self, alloc: Global, outcome: &Result<Reply, NodeFault>) -> RoomReply
        ensures accepted { IfOk outcome.now (λ r. (nodes : ℕ)
            → room_reply_value self.new result ≡ acceptance_value (reply_value nodes r)) }
        ensures refused { IfErr outcome.now (λ f. IsReply (refusal_value f)
            (room_reply_value self.new result)) }
        ensures exact { IfErr outcome.now (λ f. holds_fault f ≡ false
            → room_reply_value self.new result ≡ refusal_value f) }
    {
        self.text.clear();
        match outcome {
            Ok(reply) => {
                answered(&mut self.text, reply);
                RoomReply::Kept {
                    status: 200,
                    fault: None,
                }
            }
            Err(fault) => self.refuse(alloc, *fault),
        }
    }

    // The reply to a refused call, in empty room.
    fn refuse(&mut self, alloc: Global, fault: NodeFault) -> RoomReply
        requires { self.old ≡ [] }
        ensures refused { IsReply (refusal_value fault) (room_reply_value self.new result) }
        ensures exact { holds_fault fault ≡ false
            → room_reply_value self.new result ≡ refusal_value fault }
    {
        match head_of(fault) {
            Some((text, number)) => {
                append(&mut self.text, text);
                if let Some(number) = number {
                    append_number(&mut self.text, number);
                }
                RoomReply::Kept {
                    status: status_of(fault),
                    fault: Some(fault),
                }
            }
            None => RoomReply::Apart(HttpReply::rejection(alloc, status_of(fault), fault)),
        }
    }

    /// The reply, if its body stands in this room or apart.
    pub(crate) fn filled_by(self, reply: RoomReply) -> HttpReply
        ensures { http_value result ≡ room_reply_value self reply }
    {
        match reply {
            RoomReply::Kept { status, fault } => HttpReply {
                status,
                body: self.into_body(),
                fault,
            },
            RoomReply::Apart(reply) => reply,
        }
    }
}

// The text of a fault that holds no other, and the number that it ends with, if it holds one.
fn head_of(fault: NodeFault) -> Option<(&'static str, Option<u64>)>
    ensures { MatchOption result (IsTrue (holds_fault fault)) (λ r. (length r.0.now ≤ 32)
        × (r.0.now ++ unwrap_or (option_map decimal r.1) [] ≡ node_fault_text fault)) }
{
    Some(match fault {
        NodeFault::TraceFull => ("N1 TraceFull", None),
        NodeFault::BadName => ("N2 BadName", None),
        NodeFault::TooManyPoints => ("N4 TooManyPoints", None),
        NodeFault::ClockFull => ("N5 ClockFull", None),
        NodeFault::NotSet => ("N6 NotSet", None),
        NodeFault::NoSuchTerm => ("N7 NoSuchTerm", None),
        NodeFault::NotCounted => ("N8 NotCounted", None),
        NodeFault::BadNode => ("N9 BadNode", None),
        NodeFault::ZeroAmount => ("N10 ZeroAmount", None),
        NodeFault::TooFewRights { have } => ("N11 TooFewRights have=", Some(have)),
        NodeFault::CellFull => ("N12 CellFull", None),
        NodeFault::BadWords { need } => ("N14 BadWords need=", Some(u64::from(need))),
        NodeFault::NotForMe => ("N17 NotForMe", None),
        NodeFault::OwnAhead => ("N18 OwnAhead", None),
        NodeFault::AckAhead => ("N19 AckAhead", None),
        NodeFault::Overspent => ("N20 Overspent", None),
        NodeFault::BadConfig => ("N21 BadConfig", None),
        NodeFault::OutOfMemory => ("N22 OutOfMemory", None),
        NodeFault::BadActions(_) | NodeFault::BadMessage(_) => return None,
    })
}

//! Who answers what is asked of a node.

use http_routes::{HttpReply, NodeRequest};
use report_text::PeerRow;
use std::alloc::Global;
use std::sync::Wait;

/// Answers what is asked of a node.
pub trait NodeAnswers: Drop {
    ghost use Rattle.std.specs.Prelude.{ℕ, List};
    ghost use Rattle.http_routes.specs.Asked.{NodeRequestValue, node_request_value};
    ghost use Rattle.http_routes.specs.Replies.{ReplyValue, http_value};
    ghost use Rattle.report_text.specs.declared.peer_rows.PeerRow.{PeerRow};

    /// What a request may be answered, by what it asks for and its body.
    ghost answers: { Self → NodeRequestValue → List ℕ → ReplyValue → Type 0 };

    /// What a request for the status may be answered, by the other nodes that it shows.
    ghost shows: { Self → List PeerRow → ReplyValue → Type 0 };

    /// The reply to a request whose body came whole.
    fn reply<R: Wait>(
        &self,
        rt: &R,
        alloc: Global,
        request: &NodeRequest<'_>,
        body: Vec<u8>,
    ) -> HttpReply
        ensures { answers self.now (node_request_value request.now) body.items
            (http_value result) };

    /// The status of the node, with these other nodes.
    fn status<R: Wait>(&self, rt: &R, alloc: Global, peers: &[PeerRow]) -> HttpReply
        ensures { shows self.now peers.now (http_value result) };
}

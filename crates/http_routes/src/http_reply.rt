//! Replies.

ghost use Rattle.std.specs.Prelude.{◌≡◌, IfOk, IfErr, string_bytes};
ghost use Rattle.http_routes.specs.Replies.{fault_reply, http_value, no_memory, request_fault_reply};
ghost use Rattle.http_routes.specs.Replies.{text_reply, IsReply};

use crate::request::RequestFault;
use node_calls::NodeFault;
use std::alloc::{AllocError, Global};

/// The status and the body of a reply.
#[derive(Debug, Drop)]
pub struct HttpReply {
    pub status: u16,
    pub body: Vec<u8>,
    /// The fault of the node whose text is the body, if the node rejected the request.
    pub fault: Option<NodeFault>,
}

impl HttpReply {
    /// The reply if memory for it is refused: 503 without a body.
    pub fn no_memory(alloc: Global) -> HttpReply
        ensures { http_value result ≡ no_memory }
    {
        HttpReply::plain(503, Vec::new(alloc))
    }

    /// A reply with a body that is no fault of the node's.
    pub fn plain(status: u16, body: Vec<u8>) -> HttpReply
        ensures { http_value result ≡ text_reply status body.items }
    {
        HttpReply {
            status,
            body,
            fault: None,
        }
    }

    /// A reply of a text, which is no fault of the node's.
    pub fn text(alloc: Global, status: u16, text: &str) -> HttpReply
        ensures { IsReply (text_reply status text.now) (http_value result) }
    {
        match Vec::from_slice(alloc, text.as_bytes()) {
            Ok(body) => HttpReply::plain(status, body),
            Err(_) => HttpReply::no_memory(alloc),
        }
    }

    /// A reply of a text that was written, if there was the memory for it.
    pub fn written(alloc: Global, status: u16, text: Result<String, AllocError>) -> HttpReply
        ensures ok { IfOk text (λ t. http_value result ≡ text_reply status (string_bytes t)) }
        ensures err { IfErr text (λ _. http_value result ≡ no_memory) }
    {
        match text {
            Ok(text) => HttpReply::plain(status, text.into_bytes()),
            Err(_) => HttpReply::no_memory(alloc),
        }
    }

    /// The reply to a request by which nothing is asked, with the reason.
    pub fn refusal(alloc: Global, fault: RequestFault) -> HttpReply
        ensures { IsReply (request_fault_reply fault) (http_value result) }
    {
        HttpReply::text(alloc, fault.status(), fault.text())
    }

    /// The reply to a request that the node rejects: the fault, and its text as the body.
    pub fn rejection(alloc: Global, status: u16, fault: NodeFault) -> HttpReply
        ensures { IsReply (fault_reply status fault) (http_value result) }
    {
        match format!(in alloc; "{fault}") {
            Ok(text) => HttpReply {
                status,
                body: text.into_bytes(),
                fault: Some(fault),
            },
            Err(_) => HttpReply::no_memory(alloc),
        }
    }
}

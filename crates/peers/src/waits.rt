//! Calls that wait for another node.

ghost use Rattle.http_routes.specs.Replies.{http_value};
ghost use Rattle.peers.specs.Waits.{IsWaiting};

use http_routes::HttpReply;
use std::alloc::Global;

/// The reply to a call that waits for a node, and isn't made.
pub fn waiting(alloc: Global, node: u8) -> HttpReply
    ensures { IsWaiting node (http_value result) }
{
    let text = format!(in alloc;
        "not heard yet: node {node}: calls are accepted once all nodes sent a message: start \
         it, with this node as a peer"
    );
    HttpReply::written(alloc, 503, text)
}

//! The rights of a point that are spread, at a node.

ghost use Rattle.http_routes.specs.Replies.{http_value};
ghost use Rattle.http_routes.specs.Answers.{Comes};
ghost use Rattle.http_routes.specs.Requests.{sets_spread, spreads};

use crate::http_reply::HttpReply;
use crate::reply::ReplyRoom;
use node_core::{NodeCore, Reply};
use std::alloc::Global;

/// Sets a point and spreads its rights, once there is room for the reply, so that what was done is
/// always answered as such. Nothing comes between the setting and its shifts. The reply is the stamp.
pub fn set_spread(core: &mut NodeCore, alloc: Global, name: &str, text: &str) -> HttpReply
    ensures { Comes core.old (sets_spread name.now text.now) core.new (http_value result) }
{
    let Ok(room) = ReplyRoom::new(alloc) else {
        return HttpReply::no_memory(alloc);
    };
    match node_sharing::set_spread(core, alloc, name, text) {
        Ok(stamp) => room.reply(&Ok(Reply::Set(stamp))),
        Err(fault) => room.reply(&Err(fault)),
    }
}

/// Spreads the rights of a point, once there is room for the reply. The reply is how many the node
/// keeps.
pub fn spread(core: &mut NodeCore, alloc: Global, name: &str) -> HttpReply
    ensures { Comes core.old (spreads name.now) core.new (http_value result) }
{
    let Ok(room) = ReplyRoom::new(alloc) else {
        return HttpReply::no_memory(alloc);
    };
    match node_sharing::spread(core, alloc, name) {
        // The number of rights is written like that of a grant.
        Ok(kept) => room.reply(&Ok(Reply::Grant(kept))),
        Err(fault) => room.reply(&Err(fault)),
    }
}

//! Requests at a node.

ghost use Rattle.std.specs.Prelude.{◌≡◌, [], IfOk, IfErr, IsErrOf, OnErr};
ghost use Rattle.node_calls.specs.Asks.{asked_first, asked_from, reply_value};
ghost use Rattle.node_calls.specs.Told.{ask_ref_told, reply_told};
ghost use Rattle.node_core.specs.Traces.{Accepts, IsRefusalOf};
ghost use Rattle.http_routes.specs.Answers.{Answers, Comes};
ghost use Rattle.http_routes.specs.Memory.{AskNeedsMemory, IsOutOfMemory, NeedsMemory};
ghost use Rattle.http_routes.specs.Replies.{http_value};
ghost use Rattle.http_routes.specs.Asked.{asked_value};
ghost use Rattle.http_routes.specs.Requests.{call, wanted, wanted_asked};
ghost use Rattle.http_routes.specs.Rooms.{room_reply_value};

use crate::http_reply::HttpReply;
use crate::paths::Routes;
use crate::request::Asked;
use crate::room::{KeptRoom, RoomReply};
use crate::spreading::{set_spread, spread};
use crate::status::node_status;
use crate::table::RouteSet;
use crate::wanted::WantedRef;
use node_core::{AskRef, NodeCore, NodeFault, Reply};
use report_text::report_json;
use std::alloc::Global;

// Makes a call that a request asks for by the node's call of its own, which takes no memory before
// it is needed.
fn made(core: &mut NodeCore, alloc: Global, ask: AskRef<'_>) -> Result<Reply, NodeFault>
    ensures ok { IfOk result (λ r. Accepts core.old core.new
        (asked_from core.old.config.nodes (ask_ref_told ask.entry) (reply_told r)) []
        (reply_value core.old.config.nodes r)) }
    ensures refused { IfErr result (IsRefusalOf core.old
        (asked_first core.old.config.nodes (ask_ref_told ask.entry)) []) }
    ensures memory { IsErrOf result NodeFault.OutOfMemory
        → AskNeedsMemory core.old (ask_ref_told ask.entry) }
    ensures err { OnErr result (core.new ≡ core.old) }
{
    match ask {
        AskRef::Set { name, text } => core.set(alloc, name, text).map(Reply::Set),
        AskRef::Remove { name } => core.remove(alloc, name).map(Reply::Remove),
        AskRef::Load { text } => core.load(alloc, text).map(Reply::Load),
        AskRef::Shift {
            name,
            term,
            to,
            amount,
        } => core.shift(alloc, name, term, to, amount).map(Reply::Shift),
        AskRef::Grant { name, term, amount } => {
            core.grant(alloc, name, term, amount).map(Reply::Grant)
        }
        AskRef::Deliver { message } => core.deliver(alloc, message).map(Reply::Deliver),
        // No request asks for either.
        AskRef::Pass { .. } | AskRef::Emit { .. } => core.call(alloc, ask, &[]),
    }
}

// Makes a call, whose reply has room.
fn call_in(core: &mut NodeCore, alloc: Global, room: &mut KeptRoom, ask: AskRef<'_>) -> RoomReply
    ensures comes { Comes core.old (call (ask_ref_told ask.entry)) core.new
        (room_reply_value room.new result) }
    ensures memory { IsOutOfMemory (room_reply_value room.new result)
        → NeedsMemory core.old (call (ask_ref_told ask.entry)) }
{
    let outcome = made(core, alloc, ask);
    room.reply(alloc, &outcome)
}

/// Answers what is asked of a node, in room that is kept: what it wants is done, or refused without a
/// change, and the reply says which. That memory was refused is the reply only where memory was
/// needed: a request that wants nothing of the node is always answered as such.
pub fn answer_in(
    core: &mut NodeCore,
    alloc: Global,
    room: &mut KeptRoom,
    asked: &Asked<'_>,
    body: &[u8],
) -> RoomReply
    ensures comes { Comes core.old (wanted_asked (asked_value asked.now) body.now) core.new
        (room_reply_value room.new result) }
    ensures memory { IsOutOfMemory (room_reply_value room.new result)
        → NeedsMemory core.old (wanted_asked (asked_value asked.now) body.now) }
{
    match WantedRef::asked(asked, body) {
        WantedRef::Do(ask) => call_in(core, alloc, room, ask),
        WantedRef::List => RoomReply::Apart(HttpReply::written(alloc, 200, core.list(alloc))),
        WantedRef::Report => {
            let nodes = core.config().nodes;
            let report = report_json(alloc, core.state(), nodes);
            RoomReply::Apart(HttpReply::written(alloc, 200, report))
        }
        WantedRef::Status => {
            RoomReply::Apart(HttpReply::written(alloc, 200, node_status(alloc, core, None)))
        }
        WantedRef::SetSpread { name, text } => {
            RoomReply::Apart(set_spread(core, alloc, name, text))
        }
        WantedRef::Spread { name } => RoomReply::Apart(spread(core, alloc, name)),
        WantedRef::Refused(fault) => room.refuse_request(fault),
    }
}

/// Answers a request at a node: what it wants is done, or refused without a change, and the reply
/// says which. Room for the reply is made before the node is called, so that an accepted call is
/// always answered as such, and never as out of memory.
pub fn answer(
    core: &mut NodeCore,
    alloc: Global,
    routes: &Routes,
    method: &str,
    path: &str,
    body: &[u8],
) -> HttpReply
    ensures { Answers core.old (wanted method.now path.now body.now) core.new (http_value result) }
{
    let Ok(mut room) = KeptRoom::new(alloc) else {
        return HttpReply::no_memory(alloc);
    };
    let asked = routes.asked(RouteSet::Node, method, path);
    let reply = answer_in(core, alloc, &mut room, &asked, body);
    room.filled_by(reply)
}

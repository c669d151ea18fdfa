//! A node that forgets its calls with each reply.

ghost use Rattle.std.specs.Prelude.{◌≡◌, ◌≤◌, ◌+◌, false};
ghost use Rattle.http_routes.specs.Asked.{node_request_value};
ghost use Rattle.http_routes.specs.Replies.{http_value};
ghost use Rattle.node_registry.specs.Seats.{HasSameCalls};
ghost use Rattle.http_serve.specs.Forgotten.{HandsOut};
ghost use Rattle.http_serve.specs.Served.{AnswersRequest, AnswersRequestFrom, ShowsPeers};

use super::NodeReader;
use crate::node_answers::NodeAnswers;
use http_routes::{HttpReply, NodeRequest};
use node_registry::{Label, Piece, Registry, Seat};
use report_text::PeerRow;
use std::alloc::{AllocError, Global};
use std::sync::{Arc, Mutex, Wait};

/// The calls that a node forgot last: so many, from that one on.
#[derive(Drop)]
struct Forgotten {
    from: u64,
    count: usize,
}

// Has a node forget the calls that it keeps, which are all of those of a seat that it hasn't forgotten
// yet.
fn forget<L: Label, R: Wait>(
    rt: &R,
    alloc: Global,
    registry: &Registry<L>,
    seat: &mut Seat<L>,
) -> Forgotten
    requires { L.keeps ≡ false }
    ensures given { HandsOut L.config L.seed L.keeps L.parts seat.new result.from result.count }
    ensures all { seat.new.calls ≤ result.from + result.count }
    ensures same { HasSameCalls seat.old seat.new }
{
    let Piece { from, trace } = registry.give(rt, alloc, seat);
    Forgotten {
        from,
        count: trace.len(),
    }
}

/// A seat each of whose calls its node has forgotten.
#[derive(Drop)]
struct ForgottenSeat<L: Label> {
    seat: Seat<L>,
    last: Forgotten,
    ghost forgotten: { seat.calls ≤ last.from + last.count },
}

impl<L: Label> ForgottenSeat<L> {
    fn new<R: Wait>(
        rt: &R,
        alloc: Global,
        registry: &Registry<L>,
        mut seat: Seat<L>,
    ) -> ForgottenSeat<L>
        requires { L.keeps ≡ false }
    {
        let last = forget(rt, alloc, registry, &mut seat);
        ForgottenSeat { seat, last }
    }

    // The reply to a request, before which the node has forgotten its call.
    fn answer<R: Wait>(
        &mut self,
        rt: &R,
        alloc: Global,
        reader: &NodeReader<L>,
        request: &NodeRequest<'_>,
        body: Vec<u8>,
    ) -> HttpReply
        requires { L.keeps ≡ false }
        ensures answers { AnswersRequestFrom L.config L.seed L.keeps L.parts self.old.seat
            self.new.seat (node_request_value request.now) body.items (http_value result) }
        ensures forgets { HandsOut L.config L.seed L.keeps L.parts self.new.seat
            self.new.last.from self.new.last.count }
    {
        let reply = reader.answer_from(rt, alloc, &mut self.seat, request, body);
        self.last = forget(rt, alloc, &reader.registry, &mut self.seat);
        reply
    }
}

/// A node whose calls are forgotten with each reply, so that it may be served for as long as it likes:
/// no request asks for them.
#[derive(Drop)]
pub struct ForgettingHandler<L: Label> {
    reader: NodeReader<L>,
    seat: Mutex<ForgottenSeat<L>>,
    ghost forgets: { L.keeps ≡ false },
}

impl<L: Label> ForgettingHandler<L> {
    /// The only error is out of memory.
    pub fn new<R: Wait>(
        rt: &R,
        alloc: Global,
        registry: &Arc<Registry<L>>,
        seat: Seat<L>,
    ) -> Result<ForgettingHandler<L>, AllocError>
        requires { L.keeps ≡ false }
    {
        let reader = NodeReader::new(registry)?;
        let seat = Mutex::new(ForgottenSeat::new(rt, alloc, registry, seat));
        Ok(ForgettingHandler { reader, seat })
    }
}

impl<L: Label> NodeAnswers for ForgettingHandler<L> {
    ghost answers = { λ _. AnswersRequest L.config L.seed L.keeps L.parts };

    ghost shows = { λ _. ShowsPeers L.config L.seed };

    fn reply<R: Wait>(
        &self,
        rt: &R,
        alloc: Global,
        request: &NodeRequest<'_>,
        body: Vec<u8>,
    ) -> HttpReply {
        let mut seat = self.seat.lock(rt);
        seat.answer(rt, alloc, &self.reader, request, body)
    }

    fn status<R: Wait>(&self, rt: &R, alloc: Global, peers: &[PeerRow]) -> HttpReply {
        self.reader.status(rt, alloc, Some(peers))
    }
}

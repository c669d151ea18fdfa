//! Three ways to keep the calls of a node whose requests are answered.

ghost use Rattle.std.specs.Prelude.{option_map};
ghost use Rattle.node_calls.specs.Told.{ask_ref_told, ask_told};
ghost use Rattle.http_routes.specs.Asked.{node_request_value};
ghost use Rattle.http_routes.specs.Replies.{http_value};
ghost use Rattle.http_routes.specs.Requests as requests;
ghost use Rattle.http_serve.specs.Served.{AnswersRequest, AnswersRequestFrom, IsServed, IsServedFrom};
ghost use Rattle.http_serve.specs.Served.{IsStatus, ShowsPeers};
ghost use Rattle.http_serve.specs.Spreads.{spread_of, IsSpreadFrom};

mod forgetting;
mod recording;
mod spreading;

use crate::node_answers::NodeAnswers;
pub(crate) use forgetting::ForgettingHandler;
use http_routes::{HttpReply, NodeRequest, ReplyRoom, WantedRef, node_status};
use node_core::{Ask, AskRef};
use node_registry::{Label, Registry, Seat};
pub(crate) use recording::RecordingHandler;
use report_text::{PeerRow, report_json};
use spreading::SpreadRequest;
use std::alloc::{AllocError, Global};
use std::sync::{Arc, Mutex, Wait};

/// What answers the requests to a node. It has no seat: a call is made from the one that it is lent.
#[derive(Drop)]
pub struct NodeReader<L: Label> {
    registry: Arc<Registry<L>>,
}

impl<L: Label> NodeReader<L> {
    // The only error is out of memory.
    fn new(registry: &Arc<Registry<L>>) -> Result<NodeReader<L>, AllocError> {
        Ok(NodeReader {
            registry: Arc::try_clone(registry)?,
        })
    }

    fn list<R: Wait>(&self, rt: &R, alloc: Global) -> HttpReply
        ensures { IsServed L.config L.seed L.keeps L.parts requests.list (http_value result) }
    {
        let list = self.registry.with(rt, |core| core.list(alloc));
        HttpReply::written(alloc, 200, list)
    }

    fn report<R: Wait>(&self, rt: &R, alloc: Global) -> HttpReply
        ensures { IsServed L.config L.seed L.keeps L.parts requests.report (http_value result) }
    {
        let report = self.registry.with(
            rt,
            |core| report_json(alloc, core.state(), core.config().nodes),
        );
        HttpReply::written(alloc, 200, report)
    }

    fn status<R: Wait>(&self, rt: &R, alloc: Global, peers: Option<&[PeerRow]>) -> HttpReply
        ensures { IsStatus L.config L.seed (option_map (λ rows. rows.now) peers.entry)
            (http_value result) }
    {
        match peers {
            Some(rows) => {
                let status = self
                    .registry
                    .with(rt, |core| node_status(alloc, core, Some(rows)));
                HttpReply::written(alloc, 200, status)
            }
            None => {
                let status = self
                    .registry
                    .with(rt, |core| node_status(alloc, core, None));
                HttpReply::written(alloc, 200, status)
            }
        }
    }

    /// The reply to a request whose body came whole, from a seat, which counts the calls that were
    /// accepted. A call is made once there is room for its reply, so that an accepted one is always
    /// answered as such: whoever is answered otherwise may ask again. A message goes into the call
    /// and isn't copied.
    pub fn answer_from<R: Wait>(
        &self,
        rt: &R,
        alloc: Global,
        seat: &mut Seat<L>,
        request: &NodeRequest<'_>,
        body: Vec<u8>,
    ) -> HttpReply
        ensures { AnswersRequestFrom L.config L.seed L.keeps L.parts seat.old seat.new
            (node_request_value request.now) body.items (http_value result) }
    {
        if let NodeRequest::Deliver = request {
            return self.call(rt, alloc, seat, Ask::Deliver { message: body });
        }
        match WantedRef::of(request, body.as_slice()) {
            WantedRef::Do(ask) => self.call_of(rt, alloc, seat, ask),
            WantedRef::List => self.list(rt, alloc),
            WantedRef::Report => self.report(rt, alloc),
            WantedRef::Status => self.status(rt, alloc, None),
            WantedRef::SetSpread { name, text } => self.spread(rt, alloc, seat, name, Some(text)),
            WantedRef::Spread { name } => self.spread(rt, alloc, seat, name, None),
            WantedRef::Refused(fault) => HttpReply::refusal(alloc, fault),
        }
    }

    // The reply to a call that lies in a request.
    fn call_of<R: Wait>(
        &self,
        rt: &R,
        alloc: Global,
        seat: &mut Seat<L>,
        ask: AskRef<'_>,
    ) -> HttpReply
        ensures { IsServedFrom L.config L.seed L.keeps L.parts seat.old seat.new
            (requests.call (ask_ref_told ask.entry)) (http_value result) }
    {
        match ask.copied(alloc) {
            Ok(ask) => self.call(rt, alloc, seat, ask),
            Err(_) => HttpReply::no_memory(alloc),
        }
    }

    fn call<R: Wait>(&self, rt: &R, alloc: Global, seat: &mut Seat<L>, ask: Ask) -> HttpReply
        ensures { IsServedFrom L.config L.seed L.keeps L.parts seat.old seat.new
            (requests.call (ask_told ask)) (http_value result) }
    {
        let Ok(room) = ReplyRoom::new(alloc) else {
            return HttpReply::no_memory(alloc);
        };
        let outcome = self.registry.submit(rt, alloc, seat, ask);
        room.reply(&outcome)
    }

    // The reply to a request to spread the rights of a point, which is set to the text before, if there
    // is one.
    fn spread<R: Wait>(
        &self,
        rt: &R,
        alloc: Global,
        seat: &mut Seat<L>,
        name: &str,
        text: Option<&str>,
    ) -> HttpReply
        ensures { IsSpreadFrom L.config L.seed L.keeps L.parts seat.old seat.new
            (spread_of name.now (option_map (λ t. t.now) text.entry)) (http_value result) }
    {
        let mut request = SpreadRequest { name, text };
        self.registry.make_batch(rt, alloc, seat, &mut request)
    }
}

/// A node with the seat from which requests call it.
#[derive(Drop)]
pub struct NodeHandler<L: Label> {
    reader: NodeReader<L>,
    seat: Mutex<Seat<L>>,
}

impl<L: Label> NodeHandler<L> {
    /// The only error is out of memory.
    pub fn new(registry: &Arc<Registry<L>>, seat: Seat<L>) -> Result<NodeHandler<L>, AllocError> {
        Ok(NodeHandler {
            reader: NodeReader::new(registry)?,
            seat: Mutex::new(seat),
        })
    }
}

impl<L: Label> NodeAnswers for NodeHandler<L> {
    ghost answers = { λ _. AnswersRequest L.config L.seed L.keeps L.parts };

    ghost shows = { λ _. ShowsPeers L.config L.seed };

    fn reply<R: Wait>(
        &self,
        rt: &R,
        alloc: Global,
        request: &NodeRequest<'_>,
        body: Vec<u8>,
    ) -> HttpReply {
        let mut seat = self.seat.lock(rt);
        self.reader.answer_from(rt, alloc, &mut seat, request, body)
    }

    fn status<R: Wait>(&self, rt: &R, alloc: Global, peers: &[PeerRow]) -> HttpReply {
        self.reader.status(rt, alloc, Some(peers))
    }
}

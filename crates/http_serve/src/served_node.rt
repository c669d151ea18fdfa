//! A served node, with the other nodes of its cluster and the end of its service.

ghost use Rattle.std.specs.Prelude.{◌≡◌, IfOk, MatchOption, is_some};
ghost use Rattle.std.specs.Arc.{arc_value};
ghost use Rattle.http_routes.specs.Asked.{node_request_value};
ghost use Rattle.http_routes.specs.Replies.{http_value, IsReply};
ghost use Rattle.gossip_pace.specs.Senders.{sender_of};
ghost use Rattle.http_serve.specs.Clients.{stop_reply, AnswersClient, IsAnsweredAs, IsAnsweredCall};
ghost use Rattle.http_serve.specs.Clients.{IsAnsweredStatus, IsMet, IsStopped};

use crate::node_answers::NodeAnswers;
use http_peers::{NotedReply, Peers, sender_of, waiting};
use http_routes::{HttpReply, Kind, NodeRequest, Request, RequestFault, Row};
use http_service::{Ended, Ending, Handler};
use node_calls::NodeFault;
use operator_page::PAGE;
use std::alloc::{AllocError, Global};
use std::sync::{Arc, Wait};
use std::time::Clock;

/// A served node, with what was heard of the other nodes of its cluster, and the end of its service, if
/// a client may end it.
#[derive(Drop)]
pub struct ServedNode<N> {
    node: N,
    peers: Arc<Peers>,
    ending: Option<Arc<Ending>>,
}

/// A reply, and what shows that the service is ended, if the request ended it.
#[derive(Drop)]
struct EndedReply<'a> {
    reply: HttpReply,
    ended: Option<Ended<'a>>,
}

impl<N: NodeAnswers> ServedNode<N> {
    /// The only error is out of memory.
    pub fn new(
        alloc: Global,
        node: N,
        peers: &Arc<Peers>,
        ending: Option<Arc<Ending>>,
    ) -> Result<Arc<ServedNode<N>>, AllocError>
        ensures node { IfOk result (λ served. (arc_value served).node ≡ node) }
        ensures peers { IfOk result
            (λ served. arc_value (arc_value served).peers ≡ arc_value peers.now) }
        ensures ending { IfOk result (λ served. (arc_value served).ending ≡ ending) }
    {
        let peers = Arc::try_clone(peers)?;
        let served = ServedNode {
            node,
            peers,
            ending,
        };
        Ok(Arc::new(alloc, served)?)
    }

    // Ends the service as a client asks for it, if it may.
    fn stop<R: Wait>(&self, rt: &R, alloc: Global) -> EndedReply<'_>
        ensures reply { IsReply (stop_reply (is_some self.now.ending)) (http_value result.reply) }
        ensures ended { MatchOption self.now.ending (result.ended ≡ None)
            (λ ending. IsStopped (arc_value ending).reason.id result.ended) }
    {
        match &self.ending {
            Some(ending) => {
                let last = ending.stop(rt, alloc);
                EndedReply {
                    reply: last.reply,
                    ended: Some(last.ended),
                }
            }
            None => EndedReply {
                reply: HttpReply::refusal(alloc, RequestFault::NotFound),
                ended: None,
            },
        }
    }

    // Ends the service if the fault of a rejected message shows that others know more of the node than it does.
    fn meet<R: Wait>(&self, rt: &R, fault: Option<NodeFault>) -> Option<Ended<'_>>
        ensures { MatchOption self.now.ending (result ≡ None)
            (λ ending. IsMet (arc_value ending).reason.id fault result) }
    {
        match &self.ending {
            Some(ending) => ending.meet(rt, fault),
            None => None,
        }
    }

    // The reply to a message, which is noted.
    fn noted<R: Wait + Clock>(
        &self,
        rt: &R,
        alloc: Global,
        request: &NodeRequest<'_>,
        message: Vec<u8>,
    ) -> NotedReply
        ensures sender { result.sender ≡ sender_of message.items }
        ensures answers { N.answers self.now.node (node_request_value request.now) message.items
            (http_value result.reply) }
    {
        let sender = sender_of(message.as_slice());
        let reply = self.node.reply(rt, alloc, request, message);
        self.peers.note(rt, sender, reply)
    }

    // The reply to a message, by which the service may be ended.
    fn deliver<R: Wait + Clock>(
        &self,
        rt: &R,
        alloc: Global,
        request: &NodeRequest<'_>,
        message: Vec<u8>,
    ) -> EndedReply<'_>
        ensures answers { N.answers self.now.node (node_request_value request.now) message.items
            (http_value result.reply) }
        ensures ended { MatchOption self.now.ending (result.ended ≡ None)
            (λ ending. IsMet (arc_value ending).reason.id result.reply.fault result.ended) }
    {
        let noted = self.noted(rt, alloc, request, message);
        let reply = noted.into_reply();
        let ended = self.meet(rt, reply.fault);
        EndedReply { reply, ended }
    }

    // The reply to a call, which is made once each other node was heard, if those are heard first.
    fn call<R: Wait>(
        &self,
        rt: &R,
        alloc: Global,
        request: &NodeRequest<'_>,
        body: Vec<u8>,
    ) -> HttpReply
        ensures { IsAnsweredCall (arc_value self.now.peers).hearing
            (arc_value self.now.peers).cluster
            (N.answers self.now.node (node_request_value request.now) body.items)
            (http_value result) }
    {
        match self.peers.awaited(rt).node() {
            Some(node) => waiting(alloc, node),
            None => self.node.reply(rt, alloc, request, body),
        }
    }

    // The status, with what was heard of the other nodes.
    fn status<R: Wait>(&self, rt: &R, alloc: Global) -> HttpReply
        ensures { IsAnsweredStatus (arc_value self.now.peers).cluster (N.shows self.now.node)
            (http_value result) }
    {
        match self.peers.rows(rt, alloc) {
            Ok(rows) => self.node.status(rt, alloc, &rows),
            Err(_) => HttpReply::no_memory(alloc),
        }
    }

    // The reply to what is asked of the node, by what kind of request that is.
    fn answer<R: Wait + Clock>(
        &self,
        rt: &R,
        alloc: Global,
        request: &NodeRequest<'_>,
        kind: Kind,
        body: Vec<u8>,
    ) -> HttpReply
        ensures { IsAnsweredAs kind (arc_value self.now.peers).hearing
            (arc_value self.now.peers).cluster (N.shows self.now.node)
            (N.answers self.now.node (node_request_value request.now) body.items)
            (http_value result) }
    {
        if kind.waits() {
            return self.call(rt, alloc, request, body);
        }
        match kind {
            Kind::Status => self.status(rt, alloc),
            Kind::Delivery => self.deliver(rt, alloc, request, body).reply,
            Kind::Read | Kind::Call | Kind::Hello | Kind::Page | Kind::Stop => {
                self.node.reply(rt, alloc, request, body)
            }
        }
    }
}

impl<N: NodeAnswers> Handler for ServedNode<N> {
    ghost answers = { λ served. AnswersClient (is_some served.ending)
        (arc_value served.peers).hearing (arc_value served.peers).cluster (N.shows served.node)
        (N.answers served.node) };

    fn reply<R: Wait + Clock>(
        &self,
        rt: &R,
        alloc: Global,
        request: &Request<'_>,
        row: Row,
        body: Vec<u8>,
    ) -> HttpReply {
        match request {
            Request::Page => HttpReply::text(alloc, 200, PAGE),
            Request::Hello => self.peers.greet(rt, alloc, body.as_slice()),
            Request::Stop => self.stop(rt, alloc).reply,
            Request::Node(request) => self.answer(rt, alloc, request, row.kind, body),
        }
    }
}

//! What a served node knows of the others, behind locks.

ghost use Rattle.std.specs.Prelude.{◌≡◌, IfOk};
ghost use Rattle.std.specs.Arc.{arc_value};
ghost use Rattle.http_routes.specs.Replies.{http_value, IsReply};
ghost use Rattle.peers.specs.Codes.{outcome_by, outcome_of};
ghost use Rattle.peers.specs.Hello.{greeting};
ghost use Rattle.http_peers.specs.Answers.{AreRows, IsAwaited, IsWaitedFor};

use http_routes::HttpReply;
use node_calls::NodeFault;
use peers::{
    AskState, Asked, Awaited, Cluster, Heard, Hearing, Noted, NotedAttempt, Outcome, asker_in,
    greeting, outcome_by, outcome_of,
};
use report_text::{PeerRow, SendFault};
use std::alloc::{AllocError, Global};
use std::sync::{Arc, Mutex, Wait};
use std::time::Clock;

/// What a served node has heard of the other nodes of its cluster, and whether calls wait for them.
#[derive(Drop)]
pub struct Peers {
    pub cluster: Cluster,
    pub hearing: Hearing,
    heard: Mutex<Heard>,
    asked: Mutex<Asked>,
}

/// The reply to a message, once it is noted what the message came to. Only `Peers::note` makes one.
#[derive(Drop)]
pub struct NotedReply {
    sender: Option<u8>,
    reply: HttpReply,
    noted: Noted,
    ghost shown: { (noted.sender ≡ sender)
        × (noted.outcome ≡ outcome_of (http_value reply)) },
}

/// What a message came to that was given to the node, once that is noted. Only `Peers::note_delivery`
/// makes one.
#[derive(Drop)]
pub struct NotedDelivery {
    sender: Option<u8>,
    returned: Result<(), NodeFault>,
    noted: Noted,
    ghost shown: { (noted.sender ≡ sender) × (noted.outcome ≡ outcome_by returned) },
}

impl NotedReply {
    /// The reply, for the sender.
    pub fn into_reply(self) -> HttpReply
        ensures { result ≡ self.reply }
    {
        self.reply
    }
}

impl Peers {
    /// Of a node that has heard nothing yet, by its number and how many nodes its cluster has. The only
    /// error is out of memory.
    pub fn new(
        alloc: Global,
        own: u8,
        nodes: u8,
        hearing: Hearing,
    ) -> Result<Arc<Peers>, AllocError>
        ensures cluster { IfOk result
            (λ peers. (arc_value peers).cluster ≡ record { own = own; nodes = nodes }) }
        ensures hearing { IfOk result (λ peers. (arc_value peers).hearing ≡ hearing) }
    {
        let peers = Peers {
            cluster: Cluster { own, nodes },
            hearing,
            heard: Mutex::new(Heard::new()),
            asked: Mutex::new(Asked::new()),
        };
        Ok(Arc::new(alloc, peers)?)
    }

    /// The node that calls wait for: one of which no message was accepted yet. There is none where each
    /// was heard, or where calls don't wait.
    pub fn awaited<R: Wait>(&self, rt: &R) -> Awaited
        ensures { IsAwaited self.now.hearing self.now.cluster result.node }
    {
        self.heard.lock(rt).awaited(self.hearing, self.cluster)
    }

    /// Whether calls wait for this node, of which no message was accepted yet.
    pub fn waits_for<R: Wait>(&self, rt: &R, node: u8) -> bool
        ensures { IsWaitedFor self.now.hearing self.now.cluster node result }
    {
        self.heard
            .lock(rt)
            .waits_for(self.hearing, self.cluster, node)
    }

    /// Whether another node asked, at `/hello`, since it was looked for last: then it is to be told what
    /// this one knows, whether or not that is news.
    pub fn has_asked<R: Wait>(&self, rt: &R, node: u8) -> AskState
        ensures { result.node ≡ node }
    {
        self.asked.lock(rt).take(node)
    }

    /// The reply to a node that asks to be told, by its number as the body. Who asks is noted.
    pub fn greet<R: Wait>(&self, rt: &R, alloc: Global, body: &[u8]) -> HttpReply
        ensures { IsReply (greeting self.now.cluster body.now) (http_value result) }
    {
        let asker = asker_in(self.cluster, body);
        if let Some(node) = asker {
            self.asked.lock(rt).note(node);
        }
        greeting(alloc, asker)
    }

    // Notes what a message with this sender came to just now.
    fn note_outcome<R: Wait + Clock>(&self, rt: &R, sender: Option<u8>, outcome: Outcome) -> Noted
        ensures { result ≡ record { sender = sender; outcome = outcome } }
    {
        let now = now_of(rt);
        self.heard.lock(rt).note(self.cluster, sender, outcome, now)
    }

    /// Notes what a message with this sender came to just now, by the reply to it.
    pub fn note<R: Wait + Clock>(&self, rt: &R, sender: Option<u8>, reply: HttpReply) -> NotedReply
        ensures sender { result.sender ≡ sender }
        ensures reply { result.reply ≡ reply }
    {
        let noted = self.note_outcome(rt, sender, outcome_of(reply.status, reply.fault));
        NotedReply {
            sender,
            reply,
            noted,
        }
    }

    /// Notes what a message with this sender came to just now that came in another way than by a request:
    /// what the node returned when it was given the message.
    pub fn note_delivery<R: Wait + Clock>(
        &self,
        rt: &R,
        sender: Option<u8>,
        returned: Result<(), NodeFault>,
    ) -> NotedDelivery
        ensures sender { result.sender ≡ sender }
        ensures returned { result.returned ≡ returned }
    {
        let noted = self.note_outcome(rt, sender, outcome_by(returned));
        NotedDelivery {
            sender,
            returned,
            noted,
        }
    }

    /// Notes what an attempt to send to a node came to: why it failed, if it did.
    pub fn note_attempt<R: Wait>(&self, rt: &R, node: u8, fault: Option<SendFault>) -> NotedAttempt
        ensures node { result.node ≡ node }
        ensures fault { result.fault ≡ fault }
    {
        self.heard.lock(rt).note_attempt(self.cluster, node, fault)
    }

    /// The other nodes of the cluster, in order, each with what was heard of it and what sending to it came to,
    /// until now. A status shows them.
    ///
    /// Errors: out of memory.
    pub fn rows<R: Wait>(&self, rt: &R, alloc: Global) -> Result<Vec<PeerRow>, AllocError>
        ensures { IfOk result (λ rows. AreRows self.now.cluster rows.items) }
    {
        self.heard.lock(rt).peer_rows(alloc, self.cluster)
    }
}

// The milliseconds since 1970, by the machine's clock. One that can't be read stands at its start.
fn now_of<R: Clock>(rt: &R) -> u64 {
    match rt.since_1970() {
        Ok(since) => u64::try_from(since.as_millis()).unwrap_or(u64::MAX),
        Err(_) => 0,
    }
}

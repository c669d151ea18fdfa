//! All that a node knows of the others besides the counts.

ghost use Rattle.std.specs.Prelude.{◌≡◌, IfOk};
ghost use Rattle.http_routes.specs.Replies.{http_value, IsReply};
ghost use Rattle.peers.specs.declared.heard.Hearing.TheVariants.{First};
ghost use Rattle.peers.specs.Book.{book_asked, book_looked, book_missed, book_noted, book_told, due_of};
ghost use Rattle.peers.specs.Book.{fresh_book, pacing_at};
ghost use Rattle.peers.specs.Heard.{awaited, peer_rows};
ghost use Rattle.peers.specs.Hello.{greeting};

use crate::asked::Asked;
use crate::code::Outcome;
use crate::heard::{Cluster, Heard, Hearing};
use crate::hello::{asker_in, greeting};
use crate::pacing::{Due, Pacing};
use gossip_pace::News;
use http_routes::HttpReply;
use message_format::MAX_NODES;
use node_core::NodeCore;
use report_text::PeerRow;
use std::alloc::{AllocError, Global};

/// What a node knows of the other nodes of its cluster, besides the counts: which it heard, who asked for
/// the state, and when each is sent it.
#[derive(Drop)]
pub struct PeerBook {
    pub cluster: Cluster,
    /// Whether calls wait until each other node was heard.
    pub hearing: Hearing,
    pub heard: Heard,
    pub asked: Asked,
    /// When each is sent the state, of those that were looked at.
    pub pacings: [Option<Pacing>; MAX_NODES as usize],
}

impl PeerBook {
    /// Of a node that heard nothing, told nobody and waits for nobody.
    pub fn new(cluster: Cluster) -> PeerBook
        ensures { result ≡ fresh_book cluster }
    {
        PeerBook {
            cluster,
            hearing: Hearing::Whenever,
            heard: Heard::new(),
            asked: Asked::new(),
            pacings: [None; MAX_NODES as usize],
        }
    }

    /// From now on calls wait until each other node was heard.
    pub fn hear_first(&mut self)
        ensures { self.new ≡ record self.old { hearing = First } }
    {
        self.hearing = Hearing::First;
    }

    /// The node that calls wait for, if they wait: the first of which no message was accepted.
    pub fn awaited(&self) -> Option<u8>
        ensures { result ≡ awaited self.now.hearing self.now.cluster self.now.heard.rows }
    {
        self.heard.awaited(self.hearing, self.cluster).node()
    }

    /// Notes what a message with this sender came to, at a time in milliseconds since 1970.
    pub fn note(&mut self, sender: Option<u8>, outcome: Outcome, now: u64)
        ensures { self.new ≡ book_noted sender outcome now self.old }
    {
        self.heard.note(self.cluster, sender, outcome, now);
    }

    /// The other nodes of the cluster, in order, as a status shows them.
    ///
    /// Errors: out of memory.
    pub fn rows(&self, alloc: Global) -> Result<Vec<PeerRow>, AllocError>
        ensures { IfOk result
            (λ rows. rows.items ≡ peer_rows self.now.cluster self.now.heard.rows) }
    {
        self.heard.peer_rows(alloc, self.cluster)
    }

    /// The reply to a node that asks to be told, by its number as the body. Who asks is noted.
    pub fn greet(&mut self, alloc: Global, body: &[u8]) -> HttpReply
        ensures reply { IsReply (greeting self.old.cluster body.now) (http_value result) }
        ensures noted { self.new ≡ book_asked body.now self.old }
    {
        let asker = asker_in(self.cluster, body);
        if let Some(node) = asker {
            self.asked.note(node);
        }
        greeting(alloc, asker)
    }

    // When a node is sent the state.
    fn pacing(&self, peer: u8) -> Pacing
        ensures { result ≡ pacing_at self.now.pacings peer }
    {
        match self.pacings.get(usize::from(peer)) {
            Some(Some(pacing)) => *pacing,
            Some(None) | None => Pacing::new(peer),
        }
    }

    /// Looks at another node, once in a round: what is due for it. Where that is nothing, it has a round
    /// less to wait.
    pub fn look(&mut self, core: &NodeCore, peer: u8) -> Due
        ensures due { result ≡ due_of core.now peer self.old }
        ensures looked { self.new ≡ book_looked core.now peer self.old }
    {
        if !self.cluster.is_peer(peer) {
            return Due::Nothing;
        }
        let is_awaited = self.heard.waits_for(self.hearing, self.cluster, peer);
        let has_asked = self.asked.take(peer).has_asked();
        let news = News::of(core, peer);
        let pacing = self.pacing(peer);
        self.pacings[usize::from(peer)] = Some(pacing.looked(is_awaited, has_asked, news));
        pacing.due(is_awaited, has_asked, news)
    }

    /// Notes that another node was told what there was when it was looked at last.
    pub fn told(&mut self, peer: u8)
        ensures { self.new ≡ book_told peer self.old }
    {
        if self.cluster.is_peer(peer) {
            self.pacings[usize::from(peer)] = Some(self.pacing(peer).told());
        }
    }

    /// Notes that another node wasn't reached, or didn't accept what it was told.
    pub fn missed(&mut self, peer: u8)
        ensures { self.new ≡ book_missed peer self.old }
    {
        if self.cluster.is_peer(peer) {
            self.pacings[usize::from(peer)] = Some(self.pacing(peer).missed());
        }
    }
}

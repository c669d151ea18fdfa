//! What a node has to tell a peer, and when.

ghost use Rattle.std.specs.Prelude.{◌≡◌, false};
ghost use Rattle.gossip_pace.specs.News.{asked_pace, doubled, is_due, is_fresh, is_news, missed_pace};
ghost use Rattle.gossip_pace.specs.News.{first_pace, news_of, rested, told_pace};

use node_core::NodeCore;

/// What a node has to tell a peer: versions.
#[derive(Clone, Copy, Debug, PartialEq, Eq)]
pub struct News {
    /// The node's own.
    pub version: u64,
    /// The one of it that the peer said it has.
    pub acked: u64,
    /// The peer's that the node has all of.
    pub known: u64,
}

impl News {
    /// What there is to tell a peer.
    pub fn of(core: &NodeCore, peer: u8) -> News
        ensures { result ≡ news_of core.now peer }
    {
        News {
            version: core.version(),
            acked: core.acked(peer),
            known: core.known(peer),
        }
    }
}

/// When a peer is told.
#[derive(Clone, Copy, Debug, PartialEq, Eq)]
pub struct Pace {
    /// The peer.
    pub node: u8,
    /// The node's own version of the last message that was sent to it.
    pub told_version: u64,
    /// The peer's version of that message.
    pub told_known: u64,
    /// Whether it wasn't reached the last time, or the message to it was lost, or refused.
    pub has_missed: bool,
    /// For how many rounds it was left alone the last time, unless there was news.
    pub rest: u32,
    /// For how many rounds it is still left alone.
    pub waits: u32,
}

// A rest is twice as long as the one before, and 64 rounds at most.
fn doubled(rest: u32) -> u32
    ensures { result ≡ doubled rest }
{
    if rest > 31 { 64 } else { rest * 2 }
}

impl Pace {
    /// Of a peer that was never told.
    pub fn new(node: u8) -> Pace
        ensures { result ≡ first_pace node }
    {
        Pace {
            node,
            told_version: 0,
            told_known: 0,
            has_missed: false,
            rest: 1,
            waits: 0,
        }
    }

    fn is_news(&self, news: News) -> bool
        ensures { result ≡ is_news self.now news }
    {
        news.version > news.acked || news.known != self.told_known
    }

    fn is_fresh(&self, news: News) -> bool
        ensures { result ≡ is_fresh self.now news }
    {
        news.version > self.told_version || news.known != self.told_known
    }

    /// Whether the peer is told this now: it isn't known to have it, and its time has come.
    pub fn is_due(&self, news: News) -> bool
        ensures { result ≡ is_due self.now news }
    {
        self.is_news(news) && (self.waits == 0 || (self.is_fresh(news) && !self.has_missed))
    }

    /// After a round in which the peer wasn't told.
    pub fn rested(&self) -> Pace
        ensures { result ≡ rested self.now }
    {
        Pace {
            waits: self.waits.saturating_sub(1),
            ..*self
        }
    }

    /// After this was sent to the peer.
    pub fn told(&self, news: News) -> Pace
        ensures { result ≡ told_pace self.now news }
    {
        let begins = self.is_fresh(news) || self.has_missed;
        let rest = doubled(if begins { 1 } else { self.rest });
        Pace {
            node: self.node,
            told_version: news.version,
            told_known: news.known,
            has_missed: false,
            rest,
            waits: rest,
        }
    }

    /// After the peer wasn't reached, or a message to it was lost, or refused.
    pub fn missed(&self) -> Pace
        ensures { result ≡ missed_pace self.now }
    {
        let rest = doubled(self.rest);
        Pace {
            has_missed: true,
            rest,
            waits: rest,
            ..*self
        }
    }
    /// After the peer asked to be told: it is due at once, though there may be no news for it, and though it
    /// wasn't reached before.
    pub fn asked(&self) -> Pace
        ensures { result ≡ asked_pace self.now }
    {
        Pace {
            told_known: u64::MAX,
            has_missed: false,
            waits: 0,
            ..*self
        }
    }
}

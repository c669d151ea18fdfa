//! When another node is sent the state, and when it is asked for its own.

ghost use Rattle.std.specs.Prelude.{◌≡◌, None, Some};
ghost use Rattle.peers.specs.Pacing.{asks, due_for, first_pacing, looked, missed_pacing, telling_at};
ghost use Rattle.peers.specs.Pacing.{telling_after, told_pacing};

use gossip_pace::{News, Pace};

/// What is due for another node in a round.
#[derive(Clone, Copy, Debug, PartialEq, Eq)]
pub enum Due {
    /// It is left alone.
    Nothing,
    /// It is sent what this node knows.
    Tell,
    /// It is asked to tell this node, since calls wait for it.
    Ask,
}

/// When a node is sent the state, and when it is asked for its own.
#[derive(Clone, Copy, Debug, PartialEq, Eq)]
pub struct Pacing {
    /// When it is sent the state.
    pub telling: Pace,
    /// When it is asked to tell: after each time, it is left alone for longer.
    pub asking: Pace,
    /// What there was to tell it when it was looked at last.
    pub news: News,
}

impl Pacing {
    /// Of a node that was never told, nor asked.
    pub fn new(node: u8) -> Pacing
        ensures { result ≡ first_pacing node }
    {
        Pacing {
            telling: Pace::new(node),
            asking: Pace::new(node),
            news: News {
                version: 0,
                acked: 0,
                known: 0,
            },
        }
    }

    // Whether the node is asked to tell in this round: calls wait for it, and its time has come.
    fn asks(&self, is_awaited: bool) -> bool
        ensures { result ≡ asks is_awaited self.now }
    {
        is_awaited && self.asking.waits == 0
    }

    // When the node is sent the state, by whether it asked.
    fn telling_at(&self, has_asked: bool) -> Pace
        ensures { result ≡ telling_at has_asked self.now }
    {
        if has_asked {
            self.telling.asked()
        } else {
            self.telling
        }
    }

    /// What is due for the node in this round, by whether calls wait for it, whether it asked to be told,
    /// and what there is to tell it.
    pub fn due(&self, is_awaited: bool, has_asked: bool, news: News) -> Due
        ensures { result ≡ due_for is_awaited has_asked news self.now }
    {
        if self.asks(is_awaited) {
            Due::Ask
        } else if self.telling_at(has_asked).is_due(news) {
            Due::Tell
        } else {
            Due::Nothing
        }
    }

    // When the node is sent the state, after it was looked at.
    fn telling_after(&self, is_awaited: bool, has_asked: bool, news: News) -> Pace
        ensures { result ≡ telling_after is_awaited has_asked news self.now }
    {
        let telling = self.telling_at(has_asked);
        match self.due(is_awaited, has_asked, news) {
            Due::Nothing => telling.rested(),
            Due::Tell | Due::Ask => telling,
        }
    }

    /// After the node was looked at in a round.
    pub fn looked(&self, is_awaited: bool, has_asked: bool, news: News) -> Pacing
        ensures { result ≡ looked is_awaited has_asked news self.now }
    {
        let asking = if self.asks(is_awaited) {
            self.asking.missed()
        } else {
            self.asking.rested()
        };
        Pacing {
            telling: self.telling_after(is_awaited, has_asked, news),
            asking,
            news,
        }
    }

    /// After the node was told what there was when it was looked at last.
    pub fn told(&self) -> Pacing
        ensures { result ≡ told_pacing self.now }
    {
        Pacing {
            telling: self.telling.told(self.news),
            ..*self
        }
    }

    /// After the node wasn't reached, or didn't accept what it was told.
    pub fn missed(&self) -> Pacing
        ensures { result ≡ missed_pacing self.now }
    {
        Pacing {
            telling: self.telling.missed(),
            ..*self
        }
    }
}

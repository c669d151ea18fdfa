//! What rounds came to.

ghost use Rattle.std.specs.Prelude.{◌≡◌, ◌<◌, ◌+◌, ◌||◌, ◌∷◌, ◌++◌, ℕ, [], None, Some, true, is_some, IfSome};
ghost use Rattle.std.specs.Prelude.{MatchOption};
ghost use Rattle.peer_rounds.specs.Losses.{is_loss};

use crate::served_wire::Calls;
use crate::service::{Loss, Service};
use command_line::Rights;
use gossip::{Log, WireError};
use http_peers::{AskState, Awaited, NotedAttempt, NotedDelivery};
use node_core::NodeFault;
use std::sync::OnceToken;

/// What is done with rights in a round, and what was looked at for it.
#[derive(Clone, Copy, Debug, PartialEq, Eq)]
pub struct RightsNow {
    pub(crate) rights: Rights,
    /// The node that calls wait for.
    pub(crate) awaited: Awaited,
    pub(crate) calls: Calls,
}

/// What a round looked at, and what it noted.
#[derive(Drop)]
pub struct Round {
    /// Whether each peer asked to be told.
    pub(crate) asked: Log<AskState>,
    pub(crate) rights: RightsNow,
    /// The messages that were taken in.
    pub(crate) noted: Log<NotedDelivery>,
    /// What came of the messages that were due.
    pub(crate) attempts: Log<NotedAttempt>,
}

/// Why rounds ended early.
#[derive(Drop)]
pub enum Early<'s> {
    /// The service has ended.
    Ended(OnceToken<'s, ()>),
    /// Memory was refused.
    NoMemory,
    /// The wire can't be made.
    NoWire(WireError),
}

/// Rounds that were made.
#[derive(Drop)]
pub struct Rounds<'s> {
    /// How many.
    pub(crate) made: u32,
    /// Why there were no more.
    pub(crate) early: Option<Early<'s>>,
    /// What shows that the node has lost its state, if a message did.
    pub(crate) loss: Option<OnceToken<'s, Loss>>,
    /// Each round. Contracts alone read it, and it takes no memory.
    pub(crate) log: Log<Round>,
}

impl<'s> Rounds<'s> {
    /// None.
    pub(crate) fn none(early: Option<Early<'s>>) -> Rounds<'s>
        ensures made { result.made ≡ 0 }
        ensures early { result.early ≡ early.entry }
        ensures loss { result.loss ≡ None }
        ensures log { result.log.items ≡ [] }
    {
        Rounds {
            made: 0,
            early,
            loss: None,
            log: Log::new(),
        }
    }

    /// Adds a round, and what shows that the node has lost its state, if a message in it did.
    pub(crate) fn add(&mut self, round: &Round, loss: Option<OnceToken<'s, Loss>>)
        requires { self.old.made < u32.MAX }
        ensures made { self.new.made ≡ self.old.made + 1 }
        ensures early { self.new.early ≡ self.old.early }
        ensures log { self.new.log.items ≡ self.old.log.items ++ round.now ∷ [] }
        ensures lost { is_some self.new.loss ≡ (is_some self.old.loss || is_some loss.entry) }
        ensures loss { (end : ℕ) → IfSome self.old.loss (λ token. token.of ≡ end)
            → IfSome loss.entry (λ token. token.of ≡ end)
            → IfSome self.new.loss (λ token. token.of ≡ end) }
    {
        self.made += 1;
        self.log.add(round);
        if loss.is_some() {
            self.loss = loss;
        }
    }

    /// How many were made.
    pub fn made(&self) -> u32
        ensures { result ≡ self.now.made }
    {
        self.made
    }

    /// The fault by which a message showed that the node has lost its state, if one did.
    pub fn lost_state(&self, service: &'s Service) -> Option<NodeFault>
        requires { IfSome self.now.loss (λ token. token.of ≡ service.now.loss.id) }
        ensures fault { MatchOption self.now.loss (result ≡ None)
            (λ token. result ≡ Some token.value.fault) }
        ensures loss { IfSome result (λ fault. is_loss fault ≡ true) }
    {
        let shown = self.loss.as_ref()?;
        Some(service.lost_state(shown))
    }
}

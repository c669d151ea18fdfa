//! Whether a service has ended.

ghost use Rattle.std.specs.Prelude.{◌≡◌, IfSome, IsSomeAnd, MatchOption, true};
ghost use Rattle.peer_rounds.specs.Losses.{first_loss, is_loss};

use gossip::Rejected;
use node_core::NodeFault;
use std::sync::{OnceLock, OnceToken, Wait};
use std::thread::Parker;
use std::time::Duration;

// Whether a node that returns this fault for a message has lost its state: others know more of it.
fn is_loss(fault: NodeFault) -> bool
    ensures { result ≡ is_loss fault }
{
    matches!(fault, NodeFault::OwnAhead | NodeFault::AckAhead)
}

// The first such fault of messages that were rejected.
fn first_loss(rejected: &[Rejected]) -> Option<NodeFault>
    ensures first { result ≡ first_loss rejected.now }
    ensures loss { IfSome result (λ fault. is_loss fault ≡ true) }
{
    rejected
        .iter()
        .map(|message| message.fault)
        .find(|fault| is_loss(*fault))
}

/// The fault of a node that has lost its state.
#[derive(Clone, Copy)]
pub struct Loss {
    fault: NodeFault,
    ghost shown: { is_loss fault ≡ true },
}

/// Whether a service has ended. Its end also ends a rest.
#[derive(Drop)]
pub struct Service {
    end: OnceLock<()>,
    loss: OnceLock<Loss>,
    sleeper: Parker,
}

impl Service {
    /// One that goes on.
    pub fn new() -> Service {
        Service {
            end: OnceLock::new(),
            loss: OnceLock::new(),
            sleeper: Parker::new(),
        }
    }

    /// Ends it, and whoever rests.
    pub fn end<R: Wait>(&self, rt: &R) {
        let _ = self.end.try_insert(rt, ());
        self.sleeper.unpark();
    }

    /// The first fault by which a message from a wire showed that the node has lost its state.
    pub fn lost_state<'a>(&'a self, shown: &OnceToken<'a, Loss>) -> NodeFault
        requires { shown.now.of ≡ self.now.loss.id }
        ensures fault { result ≡ shown.now.value.fault }
        ensures loss { is_loss result ≡ true }
    {
        self.loss.value(shown).fault
    }

    /// Ends it where one of these messages shows that the node has lost its state, and answers what shows
    /// that this is kept. Where it was known before, the fault of that time stays.
    pub(crate) fn meet<R: Wait>(&self, rt: &R, rejected: &[Rejected]) -> Option<OnceToken<'_, Loss>>
        ensures { MatchOption (first_loss rejected.now) (result ≡ None)
            (λ _. IsSomeAnd result (λ kept. kept.of ≡ self.now.loss.id)) }
    {
        let fault = first_loss(rejected)?;
        let kept = match self.loss.try_insert(rt, Loss { fault }) {
            Ok(kept) => kept,
            Err((before, _)) => before,
        };
        self.end(rt);
        Some(kept)
    }

    /// What shows that it has ended, if it has.
    pub(crate) fn ended(&self) -> Option<OnceToken<'_, ()>>
        ensures { IfSome result (λ token. token.of ≡ self.now.end.id) }
    {
        self.end.witness()
    }

    /// Rests so long, or until the end.
    pub(crate) fn rest<R: Wait>(&self, rt: &R, time: Duration) {
        self.sleeper.park_timeout(rt, time);
    }
}

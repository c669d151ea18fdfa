//! The end of a service before all clients were let in that it waits for.

ghost use Rattle.std.specs.Prelude.{◌≡◌, codes, IfSome, IsSomeAnd, MatchOption};
ghost use Rattle.http_routes.specs.Replies.{http_value, text_reply, IsReply};
ghost use Rattle.http_service.specs.Endings.{reason_of, IsEnded};
ghost use Rattle.http_service.specs.declared.ending.Reason.TheVariants.{Asked};

use crate::connection::Clients;
use http_routes::HttpReply;
use node_calls::NodeFault;
use std::alloc::{AllocError, Global};
use std::sync::{Arc, OnceLock, OnceToken, Wait};
use tokio::sync::{Notify, OwnedNotified};

/// Why a service is ended early.
#[derive(Clone, Copy, Debug, PartialEq, Eq)]
pub enum Reason {
    /// A client asked for it.
    Asked,
    /// The node refused a message that says more of it than it knows itself (`N18`): it has forgotten
    /// what it did.
    OwnAhead,
    /// It refused one that knows a version of it that there isn't yet (`N19`): the same.
    AckAhead,
}

/// The end of a service, which whoever has it may bring about. The first one's reason counts.
#[derive(Drop)]
pub struct Ending {
    reason: OnceLock<Reason>,
    bell: Arc<Notify>,
}

/// What shows that a service is ended, and for which reason, as whoever asked for its end sees it.
#[derive(Drop)]
pub enum Ended<'a> {
    /// It is ended by that, for the reason that was given.
    Now(OnceToken<'a, Reason>),
    /// It was ended before, for the first one's reason.
    Before(OnceToken<'a, Reason>),
}

/// A reply that only a service gives which is ended.
#[derive(Drop)]
pub struct LastReply<'a> {
    pub reply: HttpReply,
    /// What shows that it is.
    pub ended: Ended<'a>,
}

impl Ending {
    /// Of a service that nobody has ended. The only error is out of memory.
    pub fn new(alloc: Global) -> Result<Arc<Ending>, AllocError> {
        let ending = Ending {
            reason: OnceLock::new(),
            bell: Arc::new(alloc, Notify::new(alloc)?)?,
        };
        Ok(Arc::new(alloc, ending)?)
    }

    /// Ends the service, unless it is ended already, and answers what shows that it is.
    pub fn end<R: Wait>(&self, rt: &R, reason: Reason) -> Ended<'_>
        ensures { IsEnded self.now.reason.id reason result }
    {
        let ended = match self.reason.try_insert(rt, reason) {
            Ok(ended) => Ended::Now(ended),
            Err((ended, _)) => Ended::Before(ended),
        };
        self.bell.notify_waiters();
        ended
    }

    /// Ends the service, and answers what the client is told that asked for it. Nothing is asked of a
    /// node.
    pub fn stop<R: Wait>(&self, rt: &R, alloc: Global) -> LastReply<'_>
        ensures told { IsReply (text_reply 200 (codes "stopping")) (http_value result.reply) }
        ensures ended { IsEnded self.now.reason.id Asked result.ended }
    {
        LastReply {
            ended: self.end(rt, Reason::Asked),
            reply: HttpReply::text(alloc, 200, "stopping"),
        }
    }

    /// Ends the service if the fault by which the node rejected a message shows that others know more of the
    /// node than it does.
    pub fn meet<R: Wait>(&self, rt: &R, fault: Option<NodeFault>) -> Option<Ended<'_>>
        ensures { MatchOption (reason_of fault) (result ≡ None)
            (λ reason. IsSomeAnd result (IsEnded self.now.reason.id reason)) }
    {
        let reason = reason_of(fault)?;
        Some(self.end(rt, reason))
    }

    /// What shows that the service is ended, if it is.
    pub(crate) fn ended(&self) -> Option<OnceToken<'_, Reason>>
        ensures { IfSome result (λ token. token.of ≡ self.now.reason.id) }
    {
        self.reason.witness()
    }

    /// Why it is ended.
    pub fn reason<'a>(&'a self, ended: &OnceToken<'a, Reason>) -> Reason
        requires { ended.now.of ≡ self.now.reason.id }
        ensures { result ≡ ended.now.value }
    {
        *self.reason.value(ended)
    }

    /// Hears of the end from now on.
    pub(crate) fn listen(&self) -> Result<OwnedNotified, AllocError> {
        Ok(Notify::notified_owned(Arc::try_clone(&self.bell)?))
    }
}

// Why the fault of a reply ends the node's service, if it does.
fn reason_of(fault: Option<NodeFault>) -> Option<Reason>
    ensures { result ≡ reason_of fault }
{
    match fault {
        Some(NodeFault::OwnAhead) => Some(Reason::OwnAhead),
        Some(NodeFault::AckAhead) => Some(Reason::AckAhead),
        _ => None,
    }
}

/// How a service ended.
#[derive(Drop)]
pub struct Served<'a> {
    /// How many clients were let in, and to what.
    pub clients: Clients<'a>,
    /// Where it was ended early, what shows that.
    pub early: Option<OnceToken<'a, Reason>>,
}

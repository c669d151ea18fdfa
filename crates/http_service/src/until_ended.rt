//! Clients that are let in until their service is ended.

ghost use Rattle.std.specs.Prelude.{◌≡◌, ◌≤◌, IfSome};
ghost use Rattle.futures.specs.Poll.{OnPending};
ghost use Rattle.futures.specs.Task.{IsArmed, Keeps};
ghost use Rattle.tokio.specs.Locks.{CanAcquire};
ghost use Rattle.tokio.specs.Timers.{timeout_future};
ghost use Rattle.http_service.specs.Endings.{AreLetInOrEnded};

use crate::connection::{Accepting, Clients, ConnectionFactory};
use crate::ending::Ending;
use crate::fault::ServeFault;
use crate::permits::AllBack;
use futures::executor::TaskSet;
use futures::task::{Context, Poll};
use futures::{Future, ready};
use tokio::sync::OwnedNotified;
use tokio::time::Timeout;

/// Which clients were let in.
#[derive(Clone, Copy)]
pub enum LetIn<'a> {
    /// As many as were wanted.
    All(Clients<'a>),
    /// So many when the service was ended.
    Ended(Clients<'a>),
}

/// Accepts connections until as many have come as are wanted, or the service is ended. Then it waits
/// for those that are still served, for so long at most, and drops them.
#[derive(Drop)]
pub struct UntilEnded<'t, 'a, F: ConnectionFactory> {
    // There is none once the service is ended: its listener is closed then.
    accepting: Option<Accepting<'t, 'a, F>>,
    // What those are waited for by then who are still served, unless there was no memory for it.
    last: Option<Timeout<AllBack>>,
    tasks: &'t TaskSet<F::Task>,
    ending: &'t Ending,
    bell: OwnedNotified,
    wanted: u32,
    // How many were let in when it was ended.
    clients: Clients<'a>,
}

impl<'t, 'a, F: ConnectionFactory> UntilEnded<'t, 'a, F> {
    /// It hears of the end by this bell.
    pub fn new(
        accepting: Accepting<'t, 'a, F>,
        ending: &'t Ending,
        bell: OwnedNotified,
    ) -> UntilEnded<'t, 'a, F>
        requires waiting { IfSome accepting.permits.waiting CanAcquire }
        requires few { accepting.clients.let_in ≤ accepting.wanted }
        ensures can_poll { ⟦<UntilEnded<'t, 'a, F> as Future>⟧.can_poll result }
        ensures wanted { result.wanted ≡ accepting.entry.wanted }
        ensures offer { result.clients.offer ≡ accepting.entry.clients.offer }
    {
        let (tasks, wanted, clients) = (accepting.tasks, accepting.wanted, accepting.clients);
        UntilEnded {
            accepting: Some(accepting),
            last: None,
            tasks,
            ending,
            bell,
            wanted,
            clients,
        }
    }
}

// Whether the time of those is over who are still served. Where they can't be waited for, it is.
fn poll_last(last: &mut Option<Timeout<AllBack>>, cx: &mut Context<'_>) -> Poll<bool>
    requires { IfSome last.old (λ last. CanAcquire (timeout_future last).waiting) }
    ensures again { OnPending result
        (IfSome last.new (λ last. CanAcquire (timeout_future last).waiting)) }
    ensures armed { OnPending result (IsArmed cx.new) }
    ensures kept { Keeps cx.old cx.new }
{
    let Some(back) = last else {
        return Poll::Ready(true);
    };
    let back = ready!(back.poll(cx));
    Poll::Ready(back.is_err())
}

impl<'a, F: ConnectionFactory> Future for UntilEnded<'_, 'a, F> {
    type Output = Result<LetIn<'a>, ServeFault>;

    ghost can_poll = { λ u. IfSome u.accepting (λ a. IfSome a.permits.waiting CanAcquire
        × (a.clients.let_in ≤ a.wanted) × (a.wanted ≡ u.wanted)
        × (a.clients.offer ≡ u.clients.offer))
        × IfSome u.last (λ last. CanAcquire (timeout_future last).waiting)
        × (u.clients.let_in ≤ u.wanted) };

    ghost gives = { λ u. AreLetInOrEnded u.clients.offer u.wanted };

    fn poll(&mut self, cx: &mut Context<'_>) -> Poll<Result<LetIn<'a>, ServeFault>> {
        // From now on it is polled again when the service is ended.
        let _ = self.bell.poll(cx);
        let is_ended = self.ending.ended().is_some();
        if let Some(mut accepting) = self.accepting.take() {
            if !is_ended {
                return match accepting.poll(cx) {
                    Poll::Ready(Ok(clients)) => {
                        drop(accepting);
                        Poll::Ready(Ok(LetIn::All(clients)))
                    }
                    Poll::Ready(Err(fault)) => {
                        drop(accepting);
                        Poll::Ready(Err(fault))
                    }
                    Poll::Pending => {
                        self.accepting = Some(accepting);
                        Poll::Pending
                    }
                };
            }
            self.clients = accepting.clients;
            self.last = match accepting.permits.all_back() {
                Some(back) => accepting.factory.last(back),
                None => None,
            };
            drop(accepting);
        }
        if ready!(poll_last(&mut self.last, cx)) {
            self.tasks.shut_down();
        }
        Poll::Ready(Ok(LetIn::Ended(self.clients)))
    }
}

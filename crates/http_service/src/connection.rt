//! Connections beside each other, each in a task of its own.

ghost use Rattle.std.specs.Prelude.{◌≡◌, ◌<◌, ◌≤◌, ◌↔◌, IsTrue, IfSome, None, is_some};
ghost use Rattle.futures.specs.Poll.{IfReady, OnPending};
ghost use Rattle.futures.specs.Task.{IsArmed, Keeps};
ghost use Rattle.tokio.specs.Timers.{IsDelayedBy, sleep_deadline, timeout_delay, timeout_future};
ghost use Rattle.tokio.specs.Locks.{CanAcquire};
ghost use Rattle.http_service.specs.Clients.{AreLetIn, IsGone, LetsIn};

use crate::fault::ServeFault;
use crate::permits::{AllBack, Permits};
use futures::executor::TaskSet;
use futures::task::{Context, Poll};
use futures::{Future, ready};
use http_exchange::Access;
use http_routes::RouteSet;
use std::io;
use std::io::ErrorKind;
use std::net::SocketAddr;
use std::time::{Clock, Duration};
use tokio::net::{TcpListener, TcpStream};
use tokio::sync::OwnedSemaphorePermit;
use tokio::time::{Handle, Sleep, Timeout};

// Connections that one poll accepts before it lets tasks run.
const BUDGET: u32 = 128;

/// What clients are let in to: the routes that a service offers, and who may ask.
#[derive(Clone, Copy)]
pub struct Offer<'a> {
    pub set: RouteSet,
    pub access: &'a Access,
}

/// Makes the task of a connection.
pub trait ConnectionFactory: Drop {
    ghost use Rattle.http_service.specs.declared.connection.Offer.{Offer};

    type Task: Future<Output = ()> + Send;

    /// Whether this is what its connections let clients in to.
    ghost offers: { Self → Offer → Type 0 };

    /// `None` where there is no memory.
    fn open(&self, socket: TcpStream, permit: OwnedSemaphorePermit) -> Option<Self::Task>
        ensures { IfSome result Self.Task.can_poll };

    /// How long to wait where no connection could be accepted. `None` where there is no memory, or
    /// the clock can't be read.
    fn rest(&self) -> Option<Sleep>;

    /// Waits for those that are still served once no more are let in, as long as they have then. `None`
    /// where there is no memory, or the clock can't be read.
    fn last(&self, back: AllBack) -> Option<Timeout<AllBack>>
        ensures { IfSome result (λ timed. timeout_future timed ≡ back) };
}

/// A connection under way, which has so long to end, whatever it ends with.
#[derive(Drop)]
pub struct ConnectionTask<C> {
    timed: Timeout<C>,
    // It is dropped after the connection.
    permit: OwnedSemaphorePermit,
}

impl<C: Future> ConnectionTask<C> {
    /// `None` where there is no memory, or the clock can't be read.
    pub fn new(
        clock: &impl Clock,
        timers: &Handle,
        whole: Duration,
        connection: C,
        permit: OwnedSemaphorePermit,
    ) -> Option<ConnectionTask<C>>
        requires { C.can_poll connection }
        ensures ready { IfSome result (λ task. C.can_poll (timeout_future task.timed)) }
        ensures connection { IfSome result (λ task. timeout_future task.timed ≡ connection) }
        ensures whole { IfSome result (λ task.
            IsDelayedBy whole (sleep_deadline (timeout_delay task.timed))) }
    {
        let timed = timers.timeout(clock, whole, connection).ok()?;
        Some(ConnectionTask { timed, permit })
    }
}

impl<C: Future> Future for ConnectionTask<C>
where
    C::Output: Drop,
{
    type Output = ();

    ghost can_poll = { λ task. C.can_poll (timeout_future task.timed) };

    fn poll(&mut self, cx: &mut Context<'_>) -> Poll<()> {
        let _ = ready!(self.timed.poll(cx));
        Poll::Ready(())
    }
}

/// How many clients were let in, and to what. Only what lets them in makes it, so it shows with which
/// access they were served.
#[derive(Clone, Copy)]
pub struct Clients<'a> {
    let_in: u32,
    offer: Offer<'a>,
}

impl<'a> Clients<'a> {
    fn none(offer: Offer<'a>) -> Clients<'a>
        ensures { result ≡ record { let_in = 0; offer = offer.entry } }
    {
        Clients { let_in: 0, offer }
    }

    /// How many clients were let in.
    pub fn count(&self) -> u32
        ensures { result ≡ self.now.let_in }
    {
        self.let_in
    }

    /// What they were let in to.
    pub fn offer(&self) -> Offer<'a>
        ensures { result ≡ self.now.offer }
    {
        self.offer
    }
}

/// Accepts so many connections, and starts the task of each.
#[derive(Drop)]
pub struct Accepting<'t, 'a, F: ConnectionFactory> {
    pub tasks: &'t TaskSet<F::Task>,
    pub listener: TcpListener,
    pub factory: F,
    pub permits: Permits,
    /// The permit of the next connection.
    pub permit: Option<OwnedSemaphorePermit>,
    /// The rest since the last one couldn't be accepted.
    pub rest: Option<Sleep>,
    pub wanted: u32,
    pub clients: Clients<'a>,
}

impl<'t, 'a, F: ConnectionFactory> Accepting<'t, 'a, F> {
    /// Where none was accepted yet, and clients are let in to this.
    pub fn new(
        tasks: &'t TaskSet<F::Task>,
        listener: TcpListener,
        factory: F,
        permits: Permits,
        wanted: u32,
        offer: Offer<'a>,
    ) -> Accepting<'t, 'a, F>
        requires { F.offers factory offer }
        ensures fresh { (result.permits ≡ permits) × (result.wanted ≡ wanted)
            × (result.clients.let_in ≡ 0) }
        ensures offer { result.clients.offer ≡ offer.entry }
    {
        Accepting {
            tasks,
            listener,
            factory,
            permits,
            permit: None,
            rest: None,
            wanted,
            clients: Clients::none(offer),
        }
    }
}

// Whether only the connection is gone that was to be accepted. The next one can be.
fn is_gone(error: &io::Error) -> bool
    ensures { IsTrue result ↔ IsGone error.now }
{
    matches!(
        error.kind(),
        ErrorKind::ConnectionAborted | ErrorKind::ConnectionReset
    )
}

/// What comes of a connection that is to be accepted.
#[derive(Drop)]
enum Came {
    Client(TcpStream),
    Gone,
    /// None can be accepted now, as for want of descriptors.
    Later,
}

// What comes of a connection that was accepted, or that couldn't be.
fn let_in(came: io::Result<(TcpStream, SocketAddr)>, clients: &mut Clients<'_>) -> Came
    requires { clients.old.let_in < u32.MAX }
    ensures counted { LetsIn came clients.old.let_in clients.new.let_in result }
    ensures offer { clients.new.offer ≡ clients.old.offer }
{
    match came {
        Ok((socket, _peer)) => {
            clients.let_in += 1;
            Came::Client(socket)
        }
        Err(error) if is_gone(&error) => Came::Gone,
        Err(_) => Came::Later,
    }
}

// Waits for a rest to end, if there is one.
fn poll_rest(rest: &mut Option<Sleep>, cx: &mut Context<'_>) -> Poll<()>
    ensures over { IfReady result (λ _. rest.new ≡ None) }
    ensures armed { OnPending result (IsArmed cx.new) }
    ensures kept { Keeps cx.old cx.new }
{
    if let Some(sleep) = rest {
        let _ = ready!(sleep.poll(cx));
        *rest = None;
    }
    Poll::Ready(())
}

// Waits for a rest to end, for a permit, and for a connection. `None` where there is no memory for the
// permit.
fn poll_came(
    rest: &mut Option<Sleep>,
    permits: &mut Permits,
    permit: &mut Option<OwnedSemaphorePermit>,
    listener: &mut TcpListener,
    cx: &mut Context<'_>,
) -> Poll<Option<io::Result<(TcpStream, SocketAddr)>>>
    requires { IfSome permits.old.waiting CanAcquire }
    ensures goes { IfReady result
        (λ came. IfSome came (λ _. IfSome permits.new.waiting CanAcquire)) }
    ensures there { IfReady result
        (λ came. IfSome came (λ _. IsTrue (is_some permit.new) × (rest.new ≡ None))) }
    ensures again { OnPending result (IfSome permits.new.waiting CanAcquire) }
    ensures armed { OnPending result (IsArmed cx.new) }
    ensures kept { Keeps cx.old cx.new }
{
    ready!(poll_rest(rest, cx));
    if !ready!(permits.poll_into(permit, cx)) {
        return Poll::Ready(None);
    }
    let came = ready!(listener.poll_accept(cx));
    Poll::Ready(Some(came))
}

impl<'a, F: ConnectionFactory> Future for Accepting<'_, 'a, F> {
    type Output = Result<Clients<'a>, ServeFault>;

    ghost can_poll = { λ accepting. IfSome accepting.permits.waiting CanAcquire
        × (accepting.clients.let_in ≤ accepting.wanted) };

    ghost gives = { λ accepting. AreLetIn accepting.clients.offer accepting.wanted };

    fn poll(&mut self, cx: &mut Context<'_>) -> Poll<Result<Clients<'a>, ServeFault>> {
        for _ in 0..BUDGET {
            if self.clients.count() == self.wanted {
                return Poll::Ready(Ok(self.clients));
            }
            let Some(came) = ready!(poll_came(
                &mut self.rest,
                &mut self.permits,
                &mut self.permit,
                &mut self.listener,
                cx,
            )) else {
                return Poll::Ready(Err(ServeFault::OutOfMemory));
            };
            match let_in(came, &mut self.clients) {
                Came::Client(socket) => {
                    // Without memory for its task the connection is closed, and counts as served.
                    if let Some(permit) = self.permit.take()
                        && let Some(task) = self.factory.open(socket, permit)
                    {
                        let _ = self.tasks.spawn(task);
                    }
                }
                Came::Gone => {}
                Came::Later => {
                    // The permit stays for the next that can be.
                    self.rest = self.factory.rest();
                    if self.rest.is_none() {
                        return cx.yield_now();
                    }
                }
            }
        }
        cx.yield_now()
    }
}

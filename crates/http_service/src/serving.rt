//! Many connections at once, whose requests go to a handler.

ghost use Rattle.std.specs.Prelude.{◌≡◌, ◌⊎◌, ◌*◌, ℕ, IfOk, IfErr, IfSome, IsFalse, IsSomeAnd, None, Ok};
ghost use Rattle.std.specs.Arc.{arc_value};
ghost use Rattle.std.specs.Duration.{as_nanos};
ghost use Rattle.http_service.specs.declared.fault.ServeFault.TheVariants.{AcceptFailed, OutOfMemory};
ghost use Rattle.http_service.specs.Clients.{AreLetIn, Offers};
ghost use Rattle.http_service.specs.Endings.{AreLetInOrEnded, IsServedTo};
ghost use Rattle.http_service.specs.Exchanges.{IsOffered};
ghost use Rattle.http_exchange.specs.Keys.{key_in};
ghost use Rattle.tokio.specs.Locks.{CanAcquire};
ghost use Rattle.tokio.specs.Timers.{IsDelayedBy, sleep_deadline, timeout_delay, timeout_future};

use crate::connection::{Accepting, Clients, ConnectionFactory, ConnectionTask, Offer};
use crate::ending::{Ending, Served};
use crate::exchange::ConnectionService;
use crate::fault::ServeFault;
use crate::handler::Handler;
use crate::permits::{AllBack, Permits};
use crate::until_ended::{LetIn, UntilEnded};
use bytes::Bytes;
use futures::Future;
use futures::executor::TaskSet;
use futures::task::{Context, Poll};
use http_body_util::Full;
use http_exchange::Access;
use http_routes::{RouteSet, Routes};
use hyper::rt::TokioTimer;
use hyper::server::conn::http1::{Builder, Connection};
use std::alloc::{AllocError, AllocGlobal, Global};
use std::hash::RandomState;
use std::io::ErrorKind;
use std::random::RandomSource;
use std::sync::{Arc, Wait};
use std::thread::Threads;
use std::time::{Clock, Duration};
use tokio::net::{TcpListener, TcpStream};
use tokio::runtime::Runtime;
use tokio::sync::OwnedSemaphorePermit;
use tokio::time::{Handle, Sleep, Timeout};

/// How long the head of a request may take.
const HEAD_SECONDS: u64 = 2;

/// How long a connection may take in all.
const WHOLE_SECONDS: u64 = 10;

/// How long nothing is accepted where no connection could be, as for want of descriptors.
const REST_MILLISECONDS: u64 = 100;

/// How long clients that are being served have once their service is ended.
const LAST_SECONDS: u64 = 2;

/// How many connections are served at once. Each has a descriptor, of which a process mostly may
/// have 1024 or more.
const AT_ONCE: u32 = 64;

/// How much of what a client sends is read at once, in bytes: as much as the longest head has.
const READ_AT_ONCE: usize = 65_536;

/// How many long bodies are taken in at once.
const LONG_AT_ONCE: u32 = 4;

// What hyper makes of a socket and of the service of its requests.
type HttpServed<H, R> = Connection<TcpStream, ConnectionService<H, R>, Full<Bytes>, TokioTimer<R>>;

/// A connection over HTTP. Who runs it needn't know of what it is made.
#[derive(Drop)]
struct HttpConnection<H: Handler, R: Wait + Clock + Copy> {
    served: HttpServed<H, R>,
}

impl<H: Handler, R: Wait + Clock + Copy> Future for HttpConnection<H, R> {
    type Output = hyper::Result<()>;

    ghost can_poll = { λ c. ⟦<HttpServed<H, R> as Future>⟧.can_poll c.served };

    ghost gives = { λ c. ⟦<HttpServed<H, R> as Future>⟧.gives c.served };

    fn poll(&mut self, cx: &mut Context<'_>) -> Poll<hyper::Result<()>> {
        self.served.poll(cx)
    }
}

/// Makes HTTP connections, whose requests all go to one handler.
#[derive(Drop)]
struct HttpConnections<'a, H, R> {
    alloc: Global,
    rt: R,
    handler: Arc<H>,
    routes: Arc<Routes>,
    offer: Offer<'a>,
    long: Permits,
    port: u16,
    http: Builder<TokioTimer<R>>,
    timers: Handle,
}

impl<H, R> HttpConnections<'_, H, R>
where
    H: Handler,
    R: Wait + Clock + Copy,
{
    // `None` where the routes or the access can't be shared any more.
    fn connection(&self, socket: TcpStream) -> Option<HttpConnection<H, R>>
        ensures can_poll { IfSome result ⟦<HttpConnection<H, R> as Future>⟧.can_poll }
        ensures options { IfSome result (λ c. c.served.conn.options ≡ self.now.http.options) }
        ensures config { IfSome result
            (λ c. c.served.conn.link.core.config ≡ self.now.http.config) }
        ensures handler { IfSome result (λ c. IfSome c.served.conn.service.handler
            (λ h. arc_value h ≡ arc_value self.now.handler)) }
        ensures routes { IfSome result (λ c. arc_value c.served.conn.service.routes
            ≡ arc_value self.now.routes) }
        ensures offer { IfSome result (λ c. IsOffered self.now.offer c.served.conn.service) }
        ensures port { IfSome result (λ c. c.served.conn.service.port ≡ self.now.port) }
    {
        let routes = Arc::try_clone(&self.routes).ok()?;
        let access = self.offer.access.again()?;
        let service = ConnectionService {
            alloc: self.alloc,
            rt: self.rt,
            handler: Arc::try_clone(&self.handler).ok(),
            routes,
            set: self.offer.set,
            long: self.long.again(),
            access,
            port: self.port,
        };
        Some(HttpConnection {
            served: self.http.serve_connection(socket, service),
        })
    }
}

impl<H, R> ConnectionFactory for HttpConnections<'_, H, R>
where
    H: Handler + Send + Sync,
    R: Wait + Clock + Send + Copy,
{
    type Task = ConnectionTask<HttpConnection<H, R>>;

    ghost offers = { λ c offer. c.offer ≡ offer };

    fn open(
        &self,
        socket: TcpStream,
        permit: OwnedSemaphorePermit,
    ) -> Option<ConnectionTask<HttpConnection<H, R>>>
        ensures can_poll { IfSome result
            ⟦<ConnectionTask<HttpConnection<H, R>> as Future>⟧.can_poll }
        ensures offer { IfSome result (λ task. IsOffered self.now.offer
            (timeout_future task.timed).served.conn.service) }
        ensures whole { IfSome result (λ task. (whole : _)
            × (as_nanos whole ≡ WHOLE_SECONDS * 1_000_000_000)
            × IsDelayedBy whole (sleep_deadline (timeout_delay task.timed))) }
    {
        let connection = self.connection(socket)?;
        let whole = Duration::from_secs(WHOLE_SECONDS);
        ConnectionTask::new(&self.rt, &self.timers, whole, connection, permit)
    }

    fn rest(&self) -> Option<Sleep>
        ensures { IfSome result (λ sleep. (rest : _)
            × (as_nanos rest ≡ REST_MILLISECONDS * 1_000_000)
            × IsDelayedBy rest (sleep_deadline sleep)) }
    {
        let rest = Duration::from_millis(REST_MILLISECONDS);
        self.timers.sleep(&self.rt, rest).ok()
    }

    fn last(&self, back: AllBack) -> Option<Timeout<AllBack>>
        ensures waited { IfSome result (λ timed. timeout_future timed ≡ back) }
        ensures last { IfSome result (λ timed. (last : _)
            × (as_nanos last ≡ LAST_SECONDS * 1_000_000_000)
            × IsDelayedBy last (sleep_deadline (timeout_delay timed))) }
    {
        let last = Duration::from_secs(LAST_SECONDS);
        self.timers.timeout(&self.rt, last, back).ok()
    }
}

/// Serves so many connections at the same time, one request each, and returns how many, once each has
/// ended. Asks the handler for what the routes of `RouteSet::Cluster` have, for who has this access. A
/// connection that breaks or runs out of time counts as served. If no connection can be accepted, it
/// tries again after a rest.
pub fn serve_all<'a, H, R>(
    rt: &R,
    alloc: Global,
    runtime: &mut Runtime,
    handler: Arc<H>,
    access: &'a Access,
    listener: TcpListener,
    requests: u32,
) -> Result<Clients<'a>, ServeFault>
where
    H: Handler + Send + Sync,
    R: Wait + Threads + Clock + RandomSource + AllocGlobal + Send + Sync + Copy,
    ensures ok { IfOk result (λ clients. clients.let_in ≡ requests) }
    ensures offer { IfOk result
        (λ clients. Offers RouteSet.Cluster (key_in access.now) clients.offer) }
    ensures err { IfErr result (λ f. (f ≡ AcceptFailed) ⊎ (f ≡ OutOfMemory)) }
{
    let set = RouteSet::Cluster;
    let offer = Offer { set, access };
    let (factory, permits) = opened(rt, alloc, runtime, handler, offer, &listener)?;
    admit(rt, runtime, listener, factory, permits, requests, offer)
}

/// Serves connections as `serve_all` does, until the service is ended. The handler is asked for what
/// the routes of `RouteSet::Program` have: the operator's page and the end of the service too.
pub fn serve_until_ended<'e, H, R>(
    rt: &R,
    alloc: Global,
    runtime: &mut Runtime,
    handler: Arc<H>,
    access: &'e Access,
    listener: TcpListener,
    requests: u32,
    ending: &'e Arc<Ending>,
) -> Result<Served<'e>, ServeFault>
where
    H: Handler + Send + Sync,
    R: Wait + Threads + Clock + RandomSource + AllocGlobal + Send + Sync + Copy,
    ensures ok { IfOk result (IsServedTo requests (arc_value ending.now).reason.id) }
    ensures offer { IfOk result
        (λ served. Offers RouteSet.Program (key_in access.now) served.clients.offer) }
    ensures err { IfErr result (λ f. (f ≡ AcceptFailed) ⊎ (f ≡ OutOfMemory)) }
{
    let set = RouteSet::Program;
    let offer = Offer { set, access };
    let (factory, permits) = opened(rt, alloc, runtime, handler, offer, &listener)?;
    let let_in = admit_until(
        rt, runtime, listener, factory, permits, requests, offer, ending,
    )?;
    served_by(ending, let_in)
}

// How a service ended that let these clients in.
fn served_by<'e>(ending: &'e Ending, let_in: LetIn<'e>) -> Result<Served<'e>, ServeFault>
    ensures ok { (offer : _) (wanted : ℕ) → AreLetInOrEnded offer wanted (Ok let_in.entry)
        → IfOk result (IsServedTo wanted ending.now.reason.id) }
    ensures offer { (offer : _) (wanted : ℕ) → AreLetInOrEnded offer wanted (Ok let_in.entry)
        → IfOk result (λ served. served.clients.offer ≡ offer) }
    ensures err { IfErr result (λ f. f ≡ AcceptFailed) }
{
    match let_in {
        LetIn::All(clients) => Ok(Served {
            clients,
            early: None,
        }),
        LetIn::Ended(clients) => match ending.ended() {
            Some(ended) => Ok(Served {
                clients,
                early: Some(ended),
            }),
            // Nobody has ended it.
            None => Err(ServeFault::AcceptFailed),
        },
    }
}

// Makes connections whose requests go to a handler that is served by a listener, for what is offered, and
// the permits of as many as are served at once.
fn opened<'a, H, R>(
    rt: &R,
    alloc: Global,
    runtime: &Runtime,
    handler: Arc<H>,
    offer: Offer<'a>,
    listener: &TcpListener,
) -> Result<(HttpConnections<'a, H, R>, Permits), ServeFault>
where
    H: Handler,
    R: Clock + RandomSource + Copy,
    ensures none_waits { IfOk result (λ r. r.1.waiting ≡ None) }
    ensures count { IfOk result (λ r. r.1.count ≡ AT_ONCE) }
    ensures handler { IfOk result (λ r. arc_value r.0.handler ≡ arc_value handler) }
    ensures offer { IfOk result (λ r. r.0.offer ≡ offer.entry) }
    ensures err { IfErr result (λ f. (f ≡ AcceptFailed) ⊎ (f ≡ OutOfMemory)) }
{
    let permits = Permits::new(alloc, AT_ONCE)?;
    let Ok(address) = listener.local_addr() else {
        return Err(ServeFault::AcceptFailed);
    };
    let factory = connections_to(rt, alloc, runtime, handler, offer, address.port())?;
    Ok((factory, permits))
}

// Makes connections whose requests go to a handler, which is served at this port, for what is offered.
fn connections_to<'a, H, R>(
    rt: &R,
    alloc: Global,
    runtime: &Runtime,
    handler: Arc<H>,
    offer: Offer<'a>,
    port: u16,
) -> Result<HttpConnections<'a, H, R>, ServeFault>
where
    H: Handler,
    R: Clock + RandomSource + Copy,
    ensures keep_alive { IfOk result (λ f. IsFalse f.http.options.keep_alive) }
    ensures head { IfOk result (λ f. IsSomeAnd f.http.options.header_read_timeout
        (λ head. as_nanos head ≡ HEAD_SECONDS * 1_000_000_000)) }
    ensures handler { IfOk result (λ f. arc_value f.handler ≡ arc_value handler) }
    ensures offer { IfOk result (λ f. f.offer ≡ offer.entry) }
    ensures long { IfOk result (λ f. f.long.count ≡ LONG_AT_ONCE) }
    ensures port { IfOk result (λ f. f.port ≡ port) }
    ensures read { IfOk result (λ f. f.http.config.max_buf_size ≡ READ_AT_ONCE) }
    ensures err { IfErr result (λ f. (f ≡ AcceptFailed) ⊎ (f ≡ OutOfMemory)) }
{
    let http = builder_of(rt, alloc, runtime)?;
    let timers = runtime.handle().time().clone()?;
    let routes = shared_routes(alloc)?;
    let long = Permits::new(alloc, LONG_AT_ONCE)?;
    Ok(HttpConnections {
        alloc,
        rt: *rt,
        handler,
        routes,
        offer,
        long,
        port,
        http,
        timers,
    })
}

// The routes, for all connections. The only error is out of memory.
fn shared_routes(alloc: Global) -> Result<Arc<Routes>, AllocError> {
    Ok(Arc::new(alloc, Routes::new(alloc)?)?)
}

// Makes a connection over HTTP of a socket: with one request, whose head has its time.
fn builder_of<R>(
    rt: &R,
    alloc: Global,
    runtime: &Runtime,
) -> Result<Builder<TokioTimer<R>>, ServeFault>
where
    R: Clock + RandomSource + Copy,
    ensures keep_alive { IfOk result (λ http. IsFalse http.options.keep_alive) }
    ensures head { IfOk result (λ http. IsSomeAnd http.options.header_read_timeout
        (λ head. as_nanos head ≡ HEAD_SECONDS * 1_000_000_000)) }
    ensures read { IfOk result (λ http. http.config.max_buf_size ≡ READ_AT_ONCE) }
    ensures err { IfErr result (λ f. (f ≡ AcceptFailed) ⊎ (f ≡ OutOfMemory)) }
{
    let Ok(keys) = RandomState::new(rt) else {
        return Err(ServeFault::AcceptFailed);
    };
    let timers = runtime.handle().time().clone()?;
    let mut http = Builder::new(alloc, keys).timer(TokioTimer::new(*rt, timers));
    http.keep_alive(false)
        .header_read_timeout(Some(Duration::from_secs(HEAD_SECONDS)))
        .max_buf_size(READ_AT_ONCE);
    Ok(http)
}

// A set for the tasks of connections.
fn task_set<R, T>(rt: &R, runtime: &Runtime) -> Result<TaskSet<T>, ServeFault>
where
    R: RandomSource + AllocGlobal,
    T: Future<Output = ()>,
    ensures { IfErr result (λ f. (f ≡ AcceptFailed) ⊎ (f ≡ OutOfMemory)) }
{
    match runtime.task_set(rt) {
        Ok(tasks) => Ok(tasks),
        Err(error) if error.kind() == ErrorKind::OutOfMemory => Err(ServeFault::OutOfMemory),
        // It takes a descriptor.
        Err(_) => Err(ServeFault::AcceptFailed),
    }
}

/// Accepts so many connections for what is offered, and returns once the task of each has ended.
fn admit<'a, R, F>(
    rt: &R,
    runtime: &mut Runtime,
    listener: TcpListener,
    factory: F,
    permits: Permits,
    requests: u32,
    offer: Offer<'a>,
) -> Result<Clients<'a>, ServeFault>
where
    R: Wait + Threads + Clock + RandomSource + AllocGlobal + Sync,
    F: ConnectionFactory,
    requires permits { IfSome permits.waiting CanAcquire }
    requires offers { F.offers factory offer }
    ensures { AreLetIn offer.entry requests result }
{
    let tasks = task_set(rt, runtime)?;
    let accepting = Accepting::new(&tasks, listener, factory, permits, requests, offer);
    match runtime.block_on_with(rt, &tasks, accepting) {
        Ok(ended) => ended,
        Err(_) => Err(ServeFault::AcceptFailed),
    }
}

/// Accepts so many connections as `admit` does, until the service is ended. Then the tasks that are
/// left have as long to end as the factory gives them.
fn admit_until<'a, R, F>(
    rt: &R,
    runtime: &mut Runtime,
    listener: TcpListener,
    factory: F,
    permits: Permits,
    requests: u32,
    offer: Offer<'a>,
    ending: &Ending,
) -> Result<LetIn<'a>, ServeFault>
where
    R: Wait + Threads + Clock + RandomSource + AllocGlobal + Sync,
    F: ConnectionFactory,
    requires permits { IfSome permits.waiting CanAcquire }
    requires offers { F.offers factory offer }
    ensures { AreLetInOrEnded offer.entry requests result }
{
    let tasks = task_set(rt, runtime)?;
    let bell = ending.listen()?;
    let accepting = Accepting::new(&tasks, listener, factory, permits, requests, offer);
    let until_ended = UntilEnded::new(accepting, ending, bell);
    match runtime.block_on_with(rt, &tasks, until_ended) {
        Ok(let_in) => let_in,
        Err(_) => Err(ServeFault::AcceptFailed),
    }
}

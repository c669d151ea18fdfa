//! A node is served over loopback to clients and to another node.

ghost use Rattle.std.specs.Prelude.{◌≡◌, replicate};

use super::*;
use http_serve::{Access, Hearing, Peers, ServeFault, serve};
use http_wire::{HttpWire, Peer};
use std::alloc::AllocGlobal;
use std::io::Write as WriteBytes;
use std::net::{Ipv4Addr, Net, SocketAddr, TcpStream};
use std::random::RandomSource;
use std::sync::Arc;
use std::thread::Threads;
use std::time::Clock;
use std::{io, net, thread};
use tokio::net::TcpListener;
use tokio::runtime::{Builder, Runtime};

/// A request, the start of its reply, and the end of the reply.
type Row = (&'static [u8], &'static [u8], &'static [u8]);

const PUT: &[u8] = b"PUT /fail/a HTTP/1.1\r\nHost: localhost\r\nContent-Length: 3\r\n\r\noff";

const GET: &[u8] = b"GET /fail HTTP/1.1\r\nHost: localhost\r\n\r\n";

const TWO: &[Row] = &[
    (PUT, b"HTTP/1.1 200 ", b"\r\n\r\n1.0"),
    (GET, b"HTTP/1.1 200 ", b"\r\n\r\na=off"),
];

const ONE: &[Row] = &[(GET, b"HTTP/1.1 200 ", b"\r\n\r\n")];

/// A node that is served, and its address.
#[derive(Drop)]
struct Service<L: Label> {
    registry: Arc<Registry<L>>,
    seat: Seat<L>,
    peers: Arc<Peers>,
    runtime: Runtime,
    listener: TcpListener,
    address: SocketAddr,
}

// Listens on 127.0.0.1 at a port that the system picks.
fn listening<
    R: Wait
        + Threads
        + Clock
        + RandomSource
        + AllocGlobal
        + Net<Listener = net::TcpListener, Stream = TcpStream>
        + Send
        + Sync
        + Copy
        + Drop,
>(rt: &R) -> io::Result<(Runtime, TcpListener)> {
    let address = SocketAddr::from((Ipv4Addr::LOCALHOST, 0));
    let runtime = Builder::new_current_thread().build(rt)?;
    let listener = TcpListener::bind(rt, address, runtime.handle().reactor())?;
    Ok((runtime, listener))
}

fn new_service<
    L: Label,
    R: Wait
        + Threads
        + Clock
        + RandomSource
        + AllocGlobal
        + Net<Listener = net::TcpListener, Stream = TcpStream>
        + Send
        + Sync
        + Copy
        + Drop,
>(rt: &R, registry: Registry<L>, seat: Seat<L>, config: Config) -> Result<Service<L>, Fail> {
    let registry = Arc::new(rt.alloc(), registry)?;
    let peers = Peers::new(rt.alloc(), config.node, config.nodes, Hearing::Whenever)?;
    let (runtime, listener) = listening(rt)?;
    let address = listener.local_addr()?;
    Ok(Service {
        registry,
        seat,
        peers,
        runtime,
        listener,
        address,
    })
}

/// The result of a service, and the points of its node then.
type Came = (Result<u32, ServeFault>, String);

// Serves this number of requests.
fn served<
    L: Label + Send + Sync,
    R: Wait
        + Threads
        + Clock
        + RandomSource
        + AllocGlobal
        + Net<Listener = net::TcpListener, Stream = TcpStream>
        + Send
        + Sync
        + Copy
        + Drop,
>(rt: &R, service: Service<L>, requests: u32) -> Result<Came, AllocError> {
    let Service {
        registry,
        seat,
        peers,
        mut runtime,
        listener,
        address: _,
    } = service;
    let access = Access::of_this_machine();
    let ended = match serve(
        rt,
        rt.alloc(),
        &mut runtime,
        &registry,
        seat,
        &peers,
        &access,
        listener,
        requests,
    ) {
        Ok(clients) => Ok(clients.count()),
        Err(fault) => Err(fault),
    };
    Ok((ended, list(rt, rt.alloc(), &registry)?))
}

fn sending<
    R: Wait
        + Threads
        + Clock
        + RandomSource
        + AllocGlobal
        + Net<Listener = net::TcpListener, Stream = TcpStream>
        + Send
        + Sync
        + Copy
        + Drop,
>(rt: &R, address: SocketAddr, request: &[u8]) -> io::Result<TcpStream> {
    let mut socket = TcpStream::connect(rt, address)?;
    socket.write_all(request)?;
    Ok(socket)
}

// Whether a request has this reply.
fn is_answered<
    R: Wait
        + Threads
        + Clock
        + RandomSource
        + AllocGlobal
        + Net<Listener = net::TcpListener, Stream = TcpStream>
        + Send
        + Sync
        + Copy
        + Drop,
>(rt: &R, address: SocketAddr, row: Row) -> io::Result<bool> {
    let (request, start, end) = row;
    let socket = sending(rt, address, request)?;
    let said = io::read_to_string(rt.alloc(), socket)?;
    let said = said.as_bytes();
    Ok(said.starts_with(start) && said.ends_with(end))
}

// Whether each request has its reply. All requests are made, since the service waits for them.
fn are_answered<
    R: Wait
        + Threads
        + Clock
        + RandomSource
        + AllocGlobal
        + Net<Listener = net::TcpListener, Stream = TcpStream>
        + Send
        + Sync
        + Copy
        + Drop,
>(rt: &R, address: SocketAddr, rows: &[Row]) -> io::Result<bool> {
    let mut are_answered = true;
    for row in rows {
        are_answered = is_answered(rt, address, *row)? && are_answered;
    }
    Ok(are_answered)
}

// For each length, a client sends this much of a request and closes its connection.
fn leave<
    R: Wait
        + Threads
        + Clock
        + RandomSource
        + AllocGlobal
        + Net<Listener = net::TcpListener, Stream = TcpStream>
        + Send
        + Sync
        + Copy
        + Drop,
>(rt: &R, address: SocketAddr) -> io::Result<()> {
    for len in 0..PUT.len() {
        drop(sending(rt, address, &PUT[..len])?);
    }
    Ok(())
}

/// The clients of a service.
#[derive(Clone, Copy)]
enum Clients {
    Two,
    /// One after those that close their connections.
    OneBehind,
}

// Whether the clients have their replies.
fn meets<
    R: Wait
        + Threads
        + Clock
        + RandomSource
        + AllocGlobal
        + Net<Listener = net::TcpListener, Stream = TcpStream>
        + Send
        + Sync
        + Copy
        + Drop,
>(rt: &R, address: SocketAddr, clients: Clients) -> io::Result<bool> {
    match clients {
        Clients::Two => are_answered(rt, address, TWO),
        Clients::OneBehind => {
            leave(rt, address)?;
            are_answered(rt, address, ONE)
        }
    }
}

// Whether the clients of a new node have their replies, and the result of the service.
fn asked<
    L: Label + Send + Sync,
    R: Wait
        + Threads
        + Clock
        + RandomSource
        + AllocGlobal
        + Net<Listener = net::TcpListener, Stream = TcpStream>
        + Send
        + Sync
        + Copy
        + Drop,
>(rt: &R, blank: Blank, clients: Clients, count: u32) -> Result<(bool, Came), Fail>
    requires name { blank.name ≡ L.name }
    requires parts { (blank.parts ≡ L.parts) × (L.parts ≡ 1) }
    requires config { FIRST_OF_TWO ≡ L.config }
    requires seed { replicate 32 0 ≡ L.seed }
{
    let (registry, seat) = started::<L, R>(rt, rt.alloc(), blank, FIRST_OF_TWO)?;
    let service = new_service(rt, registry, seat, FIRST_OF_TWO)?;
    let address = service.address;
    let (answered, ended) = thread::join(
        rt,
        move || meets(rt, address, clients),
        move || served(rt, service, count),
    );
    Ok((answered?, ended?))
}

/// Clients, their number, and the points of the node in the end.
const CLIENTS: &[(Clients, u32, &str)] = &[
    (Clients::Two, 2, "a=off"),
    (Clients::OneBehind, 64, ""),
];

fn asked_by<
    R: Wait
        + Threads
        + Clock
        + RandomSource
        + AllocGlobal
        + Net<Listener = net::TcpListener, Stream = TcpStream>
        + Send
        + Sync
        + Copy
        + Drop,
>(rt: &R, clients: Clients, count: u32) -> Result<(bool, Came), Fail> {
    asked::<Brand, R>(rt, Blank::new(1), clients, count)
}

#[test]
fn clients_are_served(rt: HostRuntime) -> Result<(), Fail> {
    for (clients, count, wanted) in CLIENTS {
        let (answered, (ended, points)) = asked_by(&rt, *clients, *count)?;
        let found = (answered, ended, points.as_str());
        expect(&rt, &found, &(true, Ok(*count), *wanted));
    }
    Ok(())
}

// A transport to node 1 at this address.
fn wire_to<
    R: Wait
        + Threads
        + Clock
        + RandomSource
        + AllocGlobal
        + Net<Listener = net::TcpListener, Stream = TcpStream>
        + Send
        + Sync
        + Copy
        + Drop,
>(rt: &R, address: SocketAddr) -> Result<HttpWire<R>, WireError> {
    let mut peers = Vec::new(rt.alloc());
    peers.push(Peer { node: 1, address })?;
    HttpWire::new(*rt, peers, None)
}

/// The numbers of messages that a round made, lost and received.
type Counts = (u64, u64, u64);

// Does a round of a node over HTTP to this address.
fn told<
    L: Label,
    R: Wait
        + Threads
        + Clock
        + RandomSource
        + AllocGlobal
        + Net<Listener = net::TcpListener, Stream = TcpStream>
        + Send
        + Sync
        + Copy
        + Drop,
>(
    rt: &R,
    registry: &Registry<L>,
    mut seat: Seat<L>,
    address: SocketAddr,
) -> Result<Counts, WireError> {
    let mut wire = wire_to(rt, address)?;
    let report = gossip_rounds(rt, rt.alloc(), registry, &mut seat, &mut wire, 1);
    Ok((report.emitted, report.lost, report.delivered))
}

// A node that has set `a` does a round while the other node is served. Returns what the round counts,
// and the result of the service.
fn told_over_http<
    L: Label + Send + Sync,
    M: Label + Send + Sync,
    R: Wait
        + Threads
        + Clock
        + RandomSource
        + AllocGlobal
        + Net<Listener = net::TcpListener, Stream = TcpStream>
        + Send
        + Sync
        + Copy
        + Drop,
>(rt: &R, zero: Blank, one: Blank) -> Result<(Counts, Came), Fail>
    requires zero { (zero.name ≡ L.name) × (zero.parts ≡ L.parts) × (L.parts ≡ 1) }
    requires one { (one.name ≡ M.name) × (one.parts ≡ M.parts) × (M.parts ≡ 1) }
    requires first { FIRST_OF_TWO ≡ L.config }
    requires second { SECOND_OF_TWO ≡ M.config }
    requires seeds { (replicate 32 0 ≡ L.seed) × (replicate 32 0 ≡ M.seed) }
{
    let (first, first_seat) = opened::<L, R>(rt, rt.alloc(), zero, FIRST_OF_TWO, "a=off")?;
    let (registry, seat) = started::<M, R>(rt, rt.alloc(), one, SECOND_OF_TWO)?;
    let service = new_service(rt, registry, seat, SECOND_OF_TWO)?;
    let (address, first) = (service.address, &first);
    let (counts, ended) = thread::join(
        rt,
        move || told(rt, first, first_seat, address),
        move || served(rt, service, 1),
    );
    Ok((counts?, ended?))
}

fn round_over_http<
    R: Wait
        + Threads
        + Clock
        + RandomSource
        + AllocGlobal
        + Net<Listener = net::TcpListener, Stream = TcpStream>
        + Send
        + Sync
        + Copy
        + Drop,
>(rt: &R) -> Result<(Counts, Came), Fail> {
    told_over_http::<Brand, Brand, R>(rt, Blank::new(1), Blank::new(1))
}

#[test]
fn a_round_comes_over_http(rt: HostRuntime) -> Result<(), Fail> {
    let (counts, (ended, points)) = round_over_http(&rt)?;
    let found = (counts, ended, points.as_str());
    expect(&rt, &found, &((1, 0, 0), Ok(1), "a=off"));
    Ok(())
}

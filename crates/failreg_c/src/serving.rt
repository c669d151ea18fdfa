//! HTTP connections of a node that a program serves: bytes in, bytes out.

ghost use Rattle.std.specs.Prelude.{◌≡◌, ◌≢◌, ◌==◌, ℕ, List, None, Some, length, if◌then◌else◌};
ghost use Rattle.std.specs.Prelude.{IfErr, IfOk, IsSome, MatchOption};
ghost use Rattle.http_exchange.specs.Keys.{key_in};
ghost use Rattle.http_steps.specs.Stages.{IsFrontOf, IsNew, bytes_left};
ghost use Rattle.node_for_c.specs.Calls.{Both};
ghost use Rattle.node_for_c.specs.Cluster.{unanswered};
ghost use Rattle.node_for_c.specs.Numbers.{closed};
ghost use Rattle.node_for_c.specs.Serving.{IsAnsweredAtC, IsCopied, IsServiceOf};
ghost use Rattle.node_for_c.specs.Serving.{number_wanted, wants_number};

use http_exchange::{Access, KeyFault};
use http_routes::{HttpReply, RouteSet};
use http_steps::{Connection, Service, Wants};
use node_core::NodeFault;
use node_for_c::{
    Answered, CLOSED, HttpConnection, HttpService, Node, OPEN, Secret, UNANSWERED, fill_front,
    number_of,
};
use std::alloc::Global;

/// The number of a key that is too short.
const BAD_KEY: u32 = 36;

/// The number of a call that a connection doesn't wait for.
const NOT_NOW: u32 = 37;

// What `failreg_http_wants` tells of what a connection waits for.
fn wants_number(wants: Wants) -> u8
    ensures { result ≡ wants_number wants }
{
    match wants {
        Wants::Head => 0,
        Wants::Permit => 1,
        Wants::Body => 2,
        Wants::Answer => 3,
        Wants::Tell => 4,
        Wants::Write => 5,
        Wants::Linger => 6,
        Wants::Close => 7,
    }
}

// Who may ask: whoever has the key, or without one whoever is on this machine.
fn access_by(alloc: Global, key: &[u8]) -> Result<Access, u32>
    ensures key { IfOk result (λ access. key_in access
        ≡ (if length key.now == 0 then None else Some key.now)) }
    ensures err { IfErr result (λ status. status ≢ 0) }
{
    if key.is_empty() {
        return Ok(Access::of_this_machine());
    }
    match Access::by_key(alloc, key) {
        Ok(access) => Ok(access),
        Err(KeyFault::TooShort) => Err(BAD_KEY),
        Err(KeyFault::OutOfMemory) => Err(number_of(NodeFault::OutOfMemory)),
    }
}

fn service_with(alloc: Global, port: u16, key: &[u8], secret: Secret) -> Result<Box<Service>, u32>
    ensures ok { IfOk result (λ service. IsServiceOf port key.now service.value) }
    ensures err { IfErr result (λ status. status ≢ 0) }
{
    let access = access_by(alloc, key)?;
    let no_memory = number_of(NodeFault::OutOfMemory);
    match Service::new(&secret, alloc, RouteSet::Served, access, port) {
        Ok(service) => Box::new(alloc, service).map_err(|_| no_memory),
        Err(_) => Err(no_memory),
    }
}

/// Opens a service, which offers a served node's routes at this port: without a key to whoever is on this machine, else
/// to who has the key, of at least 32 bytes. The two numbers are secret and random. Answers 0, or 22, 32 if it is open,
/// or 36 if the key is too short.
#[unsafe(no_mangle)]
pub extern "C" fn failreg_service_open(
    alloc: Global,
    service: &mut HttpService,
    port: u16,
    key: &[u8],
    first: u64,
    second: u64,
) -> u32
    ensures ok { result ≡ 0 → MatchOption service.new.handle.kept ⊥ (IsServiceOf port key.now) }
    ensures same { result ≢ 0 → service.new.handle.kept ≡ service.old.handle.kept }
{
    if service.is_open {
        return OPEN;
    }
    match service_with(alloc, port, key, Secret::of(first, second)) {
        Ok(opened) => {
            *service = HttpService::of(opened);
            0
        }
        Err(status) => status,
    }
}

/// Closes a service, if it is open: what it held is given back.
#[unsafe(no_mangle)]
pub extern "C" fn failreg_service_close(alloc: Global, service: &mut HttpService)
    ensures { service.new.handle.kept ≡ None }
{
    drop(service.take(alloc));
}

/// Opens a connection on which nothing came. Answers 0, or 22, or 32 if it is open.
#[unsafe(no_mangle)]
pub extern "C" fn failreg_http_open(alloc: Global, http: &mut HttpConnection) -> u32
    ensures ok { result ≡ 0 → MatchOption http.new.handle.kept ⊥ IsNew }
    ensures same { result ≢ 0 → http.new.handle.kept ≡ http.old.handle.kept }
{
    if http.is_open {
        return OPEN;
    }
    match Box::new(alloc, Connection::new(alloc)) {
        Ok(connection) => {
            *http = HttpConnection::of(connection);
            0
        }
        Err(_) => number_of(NodeFault::OutOfMemory),
    }
}

/// Closes a connection, if it is open: what it held is given back.
#[unsafe(no_mangle)]
pub extern "C" fn failreg_http_close(alloc: Global, http: &mut HttpConnection)
    ensures { http.new.handle.kept ≡ None }
{
    drop(http.take(alloc));
}

/// Tells what a connection waits for: 0 bytes of its head, 1 a permit, 2 bytes of its body, 3 the answer, 4 that it is
/// told, 5 that its output is sent, 6 to be closed once its client had time to read, 7 to be closed. Of a closed one 7.
#[unsafe(no_mangle)]
pub extern "C" fn failreg_http_wants(alloc: Global, http: &mut HttpConnection) -> u8
    ensures wants { result ≡ number_wanted http.old.handle.kept }
    ensures same { http.new.handle.kept ≡ http.old.handle.kept }
{
    let Some(connection) = http.take(alloc) else {
        return wants_number(Wants::Close);
    };
    let wants = connection.wants();
    *http = HttpConnection::of(connection);
    wants_number(wants)
}

/// Takes in what a client sent, at a time in seconds since 1970. Answers 0, or 31.
#[unsafe(no_mangle)]
pub extern "C" fn failreg_http_feed(
    alloc: Global,
    http: &mut HttpConnection,
    service: &mut HttpService,
    bytes: &[u8],
    now: u64,
) -> u32
    ensures closed { result ≢ 0 → result ≡ closed }
    ensures open { result ≡ 0 → IsSome http.new.handle.kept }
    ensures same { result ≢ 0 → http.new.handle.kept ≡ http.old.handle.kept }
{
    let Some(mut connection) = http.take(alloc) else {
        return CLOSED;
    };
    let Some(judging) = service.take(alloc) else {
        *http = HttpConnection::of(connection);
        return CLOSED;
    };
    connection.feed(&judging, bytes, now);
    *service = HttpService::of(judging);
    *http = HttpConnection::of(connection);
    0
}

/// Says that a client sends no more. Answers 0, or 31.
#[unsafe(no_mangle)]
pub extern "C" fn failreg_http_end(alloc: Global, http: &mut HttpConnection) -> u32
    ensures closed { result ≢ 0 → result ≡ closed }
    ensures open { result ≡ 0 → IsSome http.new.handle.kept }
    ensures same { result ≢ 0 → http.new.handle.kept ≡ http.old.handle.kept }
{
    let Some(mut connection) = http.take(alloc) else {
        return CLOSED;
    };
    connection.end();
    *http = HttpConnection::of(connection);
    0
}

/// Gives a connection the permit for its long body, at a time in seconds since 1970. Answers 0, or 31.
#[unsafe(no_mangle)]
pub extern "C" fn failreg_http_permit(alloc: Global, http: &mut HttpConnection, now: u64) -> u32
    ensures closed { result ≢ 0 → result ≡ closed }
    ensures open { result ≡ 0 → IsSome http.new.handle.kept }
    ensures same { result ≢ 0 → http.new.handle.kept ≡ http.old.handle.kept }
{
    let Some(mut connection) = http.take(alloc) else {
        return CLOSED;
    };
    connection.permit(now);
    *http = HttpConnection::of(connection);
    0
}

/// Has the node answer the request of a connection, at a time in milliseconds since 1970. Nothing of the answer is sent
/// before `failreg_http_tell`. Answers 0, or 31 if the node or the connection is closed, or 37 if it doesn't wait for an
/// answer.
#[unsafe(no_mangle)]
pub extern "C" fn failreg_http_answer(
    alloc: Global,
    node: &mut Node,
    http: &mut HttpConnection,
    now: u64,
    answered: &mut Answered,
) -> u32
    ensures ok { result ≡ 0 → Both node.old.handle.kept node.new.handle.kept (λ k l.
        Both http.old.handle.kept http.new.handle.kept (IsAnsweredAtC now answered.new k l)) }
    ensures node { result ≢ 0 → node.new.handle.kept ≡ node.old.handle.kept }
    ensures same { result ≢ 0 → http.new.handle.kept ≡ http.old.handle.kept }
    ensures none { result ≢ 0 → answered.new ≡ unanswered }
{
    *answered = UNANSWERED;
    let Some(mut connection) = http.take(alloc) else {
        return CLOSED;
    };
    let Some(mut registry) = node.take(alloc) else {
        *http = HttpConnection::of(connection);
        return CLOSED;
    };
    let told = registry.answer_over(alloc, &mut *connection, now);
    *node = Node::of(registry);
    *http = HttpConnection::of(connection);
    match told {
        Some(told) => {
            *answered = told;
            0
        }
        None => NOT_NOW,
    }
}

/// Has the answer sent, at a time in seconds since 1970. Answers 0, or 31.
#[unsafe(no_mangle)]
pub extern "C" fn failreg_http_tell(alloc: Global, http: &mut HttpConnection, now: u64) -> u32
    ensures closed { result ≢ 0 → result ≡ closed }
    ensures open { result ≡ 0 → IsSome http.new.handle.kept }
    ensures same { result ≢ 0 → http.new.handle.kept ≡ http.old.handle.kept }
{
    let Some(mut connection) = http.take(alloc) else {
        return CLOSED;
    };
    connection.tell(now);
    *http = HttpConnection::of(connection);
    0
}

/// Has this status and text sent in place of the answer, at a time in seconds since 1970. Answers 0, or 31.
#[unsafe(no_mangle)]
pub extern "C" fn failreg_http_tell_instead(
    alloc: Global,
    http: &mut HttpConnection,
    status: u16,
    text: &[u8],
    now: u64,
) -> u32
    ensures closed { result ≢ 0 → result ≡ closed }
    ensures open { result ≡ 0 → IsSome http.new.handle.kept }
    ensures same { result ≢ 0 → http.new.handle.kept ≡ http.old.handle.kept }
{
    let Some(mut connection) = http.take(alloc) else {
        return CLOSED;
    };
    let reply = match Vec::from_slice(alloc, text) {
        Ok(body) => HttpReply::plain(status, body),
        Err(_) => HttpReply::no_memory(alloc),
    };
    connection.tell_instead(reply, now);
    *http = HttpConnection::of(connection);
    0
}

/// Copies what a connection sends next, as much as there is room for, and answers how many bytes that are: 0 if there is
/// nothing to send.
#[unsafe(no_mangle)]
pub extern "C" fn failreg_http_output(
    alloc: Global,
    http: &mut HttpConnection,
    into: &mut [u8],
) -> usize
    ensures same { http.new.handle.kept ≡ http.old.handle.kept }
    ensures bytes { MatchOption http.old.handle.kept (result ≡ 0) (λ c.
        (front : List ℕ) × IsFrontOf front (bytes_left c) × IsCopied front into.old into.new result) }
{
    let Some(connection) = http.take(alloc) else {
        return 0;
    };
    let room = into.len();
    let length = fill_front(connection.output(), into);
    *http = HttpConnection::of(connection);
    length.min(room)
}

/// Says that so many bytes of the output were sent. Answers 0, or 31.
#[unsafe(no_mangle)]
pub extern "C" fn failreg_http_sent(alloc: Global, http: &mut HttpConnection, count: usize) -> u32
    ensures closed { result ≢ 0 → result ≡ closed }
    ensures open { result ≡ 0 → IsSome http.new.handle.kept }
    ensures same { result ≢ 0 → http.new.handle.kept ≡ http.old.handle.kept }
{
    let Some(mut connection) = http.take(alloc) else {
        return CLOSED;
    };
    connection.sent(count);
    *http = HttpConnection::of(connection);
    0
}

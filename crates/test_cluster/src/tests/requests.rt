//! Requests of HTTP at a node: how each is answered, what it wants, and the reply to a call.

use super::fleet::new_node;
use super::*;
use http_routes::{HttpReply, Routes, Wanted, answer, reply_of, route};

/// A method, a path and a body; and the status and the text of the answer.
type Row = (&'static str, &'static str, &'static [u8], u16, &'static str);

/// Requests one after the other, at the first of two nodes.
const ANSWERED: &[Row] = &[
    ("PUT", "/fail/a", b"off", 200, "1.0"),
    ("GET", "/fail/", b"", 200, "a=off"),
    ("GET", "/fail", b"", 200, "a=off"),
    ("POST", "/fail/a", b"", 405, "bad method"),
    ("GET", "/nope", b"", 404, "not found"),
    ("PUT", "/fail/a!", b"off", 400, "N2 BadName"),
    ("POST", "/shift/a/0/1/1", b"", 409, "N8 NotCounted"),
    ("POST", "/shift/a/x/1/1", b"", 400, "bad number"),
    (
        "POST",
        "/gossip",
        b"FPG1\x00\x01\0\0\0\0\0\0\0\0\0\0\0\0\0\0\0\0\0\0\0\0\0\0\0\0\0",
        400,
        "N16 BadMessage W2 Short offset=30",
    ),
    ("POST", "/load", b"b=off", 200, "1"),
    ("DELETE", "/fail/a", b"", 200, "3.0"),
    ("GET", "/fail", b"", 200, "b=off"),
    // What each other route answers.
    ("PUT", "/fail/c", b"2*off", 200, "4.0"),
    ("POST", "/shift/c/0/1/1", b"", 200, "1"),
    ("POST", "/grant/c/0/5", b"", 200, "5"),
    ("POST", "/gossip", EMPTY, 200, "same"),
    ("PUT", "/fail/c", b"\xff", 400, "bad text"),
    (
        "GET",
        "/report",
        b"",
        200,
        "[{\"actions\":null,\"hits\":[\"0\",\"0\"],\"name\":\"a\",\"stamp\":\"3.0\",\"terms\":[]},\
         {\"actions\":\"off\",\"hits\":[\"0\",\"0\"],\"name\":\"b\",\"stamp\":\"2.0\",\"terms\":[]},\
         {\"actions\":\"2*off\",\"hits\":[\"0\",\"0\"],\"name\":\"c\",\"stamp\":\"4.0\",\
         \"terms\":[{\"count\":\"2\",\"granted\":\"5\",\"rights\":[\"6\",\"1\"],\"spent\":\"0\",\
         \"term\":\"0\"}]}]",
    ),
];

// An answer, without what its contract says.
fn answered(
    alloc: Global,
    routes: &Routes,
    node: &mut NodeCore,
    (method, path, body): (&str, &str, &[u8]),
) -> HttpReply {
    answer(node, alloc, routes, method, path, body)
}

// A reply's status, and its body as a text.
fn reply_text(alloc: Global, reply: &HttpReply) -> Result<String, AllocError> {
    let status = reply.status;
    match str::from_utf8(&reply.body) {
        Ok(text) => format!(in alloc; "{status} {text}"),
        Err(_) => format!(in alloc; "{status}"),
    }
}

// Ends the test where a request is answered otherwise.
fn expect_answer(
    rt: &impl Abort,
    alloc: Global,
    routes: &Routes,
    node: &mut NodeCore,
    row: Row,
) -> Result<(), AllocError> {
    let (method, path, body, status, text) = row;
    let reply = answered(alloc, routes, node, (method, path, body));
    let found = reply_text(alloc, &reply)?;
    let wanted = format!(in alloc; "{status} {text}")?;
    expect(rt, &(path, found.as_str()), &(path, wanted.as_str()));
    Ok(())
}

#[test]
fn requests_are_answered(rt: HostRuntime) -> Result<(), Fail> {
    let routes = Routes::new(rt.alloc())?;
    let mut node = new_node(rt.alloc(), 0, 2)?;
    for row in ANSWERED {
        expect_answer(&rt, rt.alloc(), &routes, &mut node, *row)?;
    }
    Ok(())
}

/// A method, a path and a body, and what such a request wants, in print.
type WantedRow = (&'static str, &'static str, &'static [u8], &'static str);

const WANTED: &[WantedRow] = &[
    ("GET", "/fail", b"", "List"),
    ("GET", "/report", b"", "Report"),
    (
        "PUT",
        "/fail/a",
        b"2*off",
        "Do(Set { name: \"a\", text: \"2*off\" })",
    ),
    ("DELETE", "/fail/a", b"", "Do(Remove { name: \"a\" })"),
    ("POST", "/load", b"a=off", "Do(Load { text: \"a=off\" })"),
    (
        "POST",
        "/shift/a/0/1/7",
        b"",
        "Do(Shift { name: \"a\", term: 0, to: 1, amount: 7 })",
    ),
    (
        "POST",
        "/grant/a/1/18446744073709551615",
        b"",
        "Do(Grant { name: \"a\", term: 1, amount: 18446744073709551615 })",
    ),
    (
        "POST",
        "/gossip",
        b"FPG1",
        "Do(Deliver { message: [70, 80, 71, 49] })",
    ),
];

// What a request wants, without what the contract says of it.
fn wanted(alloc: Global, routes: &Routes, method: &str, path: &str, body: &[u8]) -> Wanted {
    route(alloc, routes, method, path, body)
}

// What a request wants, in print; of one that is answered at once, the reply.
fn wanted_text(alloc: Global, wanted: &Wanted) -> Result<String, AllocError> {
    match wanted {
        Wanted::Answered(reply) => reply_text(alloc, reply),
        _ => in_print(alloc, wanted),
    }
}

#[test]
fn routes_say_what_is_wanted(rt: HostRuntime) -> Result<(), Fail> {
    let routes = Routes::new(rt.alloc())?;
    for (method, path, body, wants) in WANTED {
        let found = wanted(rt.alloc(), &routes, method, path, body);
        let found = wanted_text(rt.alloc(), &found)?;
        expect(&rt, &(*path, found.as_str()), &(*path, *wants));
    }
    Ok(())
}

/// What a call came to.
#[derive(Clone, Copy)]
enum Came {
    Set,
    Remove,
    Load,
    Shift,
    Grant,
    Changed(bool),
    Refused(NodeFault),
}

/// What a call came to, and the reply to it.
const REPLIES: &[(Came, &str)] = &[
    (Came::Set, "200 7.1"),
    (Came::Remove, "200 7.1"),
    (Came::Load, "200 256"),
    (Came::Shift, "200 18446744073709551615"),
    (Came::Grant, "200 3"),
    (Came::Changed(true), "200 changed"),
    (Came::Changed(false), "200 same"),
    (Came::Refused(NodeFault::TraceFull), "503 N1 TraceFull"),
    (Came::Refused(NodeFault::BadName), "400 N2 BadName"),
    (
        Came::Refused(NodeFault::TooManyPoints),
        "409 N4 TooManyPoints",
    ),
    (
        Came::Refused(NodeFault::TooFewRights { have: 2 }),
        "409 N11 TooFewRights have=2",
    ),
    (Came::Refused(NodeFault::OwnAhead), "400 N18 OwnAhead"),
    (Came::Refused(NodeFault::OutOfMemory), "503 N22 OutOfMemory"),
];

fn outcome(came: Came) -> Result<Reply, NodeFault> {
    let stamp = Stamp { clock: 7, node: 1 };
    match came {
        Came::Set => Ok(Reply::Set(stamp)),
        Came::Remove => Ok(Reply::Remove(stamp)),
        Came::Load => Ok(Reply::Load(256)),
        Came::Shift => Ok(Reply::Shift(u64::MAX)),
        Came::Grant => Ok(Reply::Grant(3)),
        Came::Changed(changed) => Ok(Reply::Deliver(changed)),
        Came::Refused(fault) => Err(fault),
    }
}

// The reply to a call that came to this, without what the contract says of it.
fn replied(alloc: Global, came: Came) -> HttpReply {
    reply_of(alloc, &Ask::Emit { to: 1 }, &outcome(came))
}

#[test]
fn calls_are_replied_to(rt: HostRuntime) -> Result<(), Fail> {
    for (came, wanted) in REPLIES {
        let reply = replied(rt.alloc(), *came);
        let found = reply_text(rt.alloc(), &reply)?;
        expect(&rt, &found.as_str(), wanted);
    }
    Ok(())
}

//! The reply to a request, and what it says of the peer.

ghost use Rattle.std.specs.Prelude.{◌≡◌, ◌↔◌, IfErr, IfOk, IsOk};
ghost use Rattle.http_posts.specs.Answers.{IsAnswered, IsHeardIn};

use crate::connection::Connection;
use crate::fault::PostError;
use crate::first_piece::FirstPiece;
use crate::forgetting::{Forgetting, forgetting_in};
use crate::peer::Peer;
use crate::waiting::{output_beside, output_of};
use bytes::Bytes;
use futures::Future;
use http_body_util::Full;
use hyper::body::Incoming;
use hyper::client::conn::http1::{self, SendRequest, handshake};
use hyper::{Request, Response, StatusCode};
use std::alloc::{AllocGlobal, Global};
use std::hash::RandomState;
use std::net::Net;
use std::random::RandomSource;
use std::snapshot::Snapshot;
use std::sync::Wait;
use std::time::{Clock, Instant};
use tokio::net::TcpStream;
use tokio::runtime::LocalRuntime;

/// A request that was handed to a connection to the address of a peer, and the reply to it, as contracts see them.
#[derive(Drop)]
pub struct Posted {
    peer: Peer,
    request: Snapshot<Request<Full<Bytes>>>,
    reply: Snapshot<Response<Incoming<TcpStream>>>,
}

/// What was posted, and what was answered.
#[derive(Drop)]
pub struct Exchanged {
    pub posted: Posted,
    pub status: StatusCode,
    /// What the reply says of the peer.
    pub says: Option<Forgetting>,
}

impl Exchanged {
    /// What the status of the reply says of the message: that it was taken in is only 200.
    pub fn taken_in(&self) -> Result<(), PostError>
        ensures ok { IsOk result ↔ (self.now.status ≡ 200) }
        ensures err { IfErr result (λ e. e ≡ PostError.Failed) }
    {
        if self.status.as_u16() == 200 {
            Ok(())
        } else {
            Err(PostError::Failed)
        }
    }
}

/// Hands a request to a connection, and waits for the reply.
pub(crate) fn answered<R>(
    rt: &R,
    alloc: Global,
    runtime: &mut LocalRuntime,
    connection: Connection,
    request: Request<Full<Bytes>>,
) -> Result<Exchanged, PostError>
where
    R: Wait + Clock + Net + RandomSource + AllocGlobal,
    ensures to { IfOk result (λ told. told.posted.peer ≡ connection.peer) }
    ensures request { IfOk result (λ told. told.posted.request.value ≡ request) }
    ensures answered { IfOk result IsAnswered }
{
    let Connection {
        peer,
        stream,
        deadline,
    } = connection;
    let asked = Snapshot::of(&request);
    let reply = reply_to(rt, alloc, runtime, stream, request, deadline)?;
    let posted = Posted {
        peer,
        request: asked,
        reply: Snapshot::of(&reply),
    };
    let status = reply.status();
    Ok(Exchanged {
        posted,
        status,
        says: heard_in(rt, runtime, reply, deadline),
    })
}

// The reply to a request over a stream, which is over by then.
fn reply_to<R>(
    rt: &R,
    alloc: Global,
    runtime: &mut LocalRuntime,
    stream: TcpStream,
    request: Request<Full<Bytes>>,
    deadline: Instant,
) -> Result<Response<Incoming<TcpStream>>, PostError>
where
    R: Wait + Clock + RandomSource + AllocGlobal,
{
    let (mut sender, connection) = match opened(rt, alloc, stream) {
        Ok(ends) => ends,
        Err(e) => {
            drop(request);
            return Err(e);
        }
    };
    let reply = sender.send_request(request);
    drop(sender);
    match output_beside(rt, runtime, reply, connection, deadline)? {
        Ok(reply) => Ok(reply),
        Err(_) => Err(PostError::Failed),
    }
}

// What sends requests over a stream, and what has to run beside it.
fn opened<R: RandomSource>(
    rt: &R,
    alloc: Global,
    stream: TcpStream,
) -> Result<
    (
        SendRequest<Full<Bytes>>,
        http1::Connection<TcpStream, Full<Bytes>>,
    ),
    PostError,
>
    ensures { IfOk result (λ ends.
        ⟦<http1::Connection<TcpStream, Full<Bytes>> as Future>⟧.can_poll ends.1) }
{
    let keys = RandomState::new(rt)?;
    match handshake(alloc, keys, stream) {
        Ok(ends) => Ok(ends),
        Err(_) => Err(PostError::Failed),
    }
}

// What is heard in a reply of the peer. The connection is over by then, and what came of the body is there.
fn heard_in<R>(
    rt: &R,
    runtime: &mut LocalRuntime,
    reply: Response<Incoming<TcpStream>>,
    deadline: Instant,
) -> Option<Forgetting>
where
    R: Wait + Clock + RandomSource + AllocGlobal,
    ensures { IsHeardIn reply result }
{
    let status = reply.status().as_u16();
    // The body of any other says nothing of it.
    if status != 400 {
        drop(reply);
        return None;
    }
    let first = FirstPiece {
        body: reply.into_body(),
    };
    match output_of(rt, runtime, first, deadline) {
        Ok(Some(piece)) => forgetting_in(status, piece.as_slice()),
        Ok(None) | Err(_) => None,
    }
}

//! What posts.

ghost use Rattle.std.specs.Prelude.{◌≡◌, option_copied, IfOk};
ghost use Rattle.http_posts.specs.Answers.{IsAnswered};
ghost use Rattle.http_posts.specs.Posts.{Posts, PostsHello, PostsTo};

use crate::answer::{Exchanged, answered};
use crate::connection::{Connection, POST_SECONDS};
use crate::fault::PostError;
use crate::fields::{fields_of, message_fields_of};
use crate::key::Key;
use crate::peer::Peer;
use crate::request::request;
use crate::waiting::output_of;
use http_routes::{GOSSIP_PATH, HELLO_PATH};
use hyper::header::HeaderMap;
use itoa::Buffer;
use std::alloc::{AllocGlobal, Global};
use std::net::Net;
use std::random::RandomSource;
use std::sync::Wait;
use std::time::{Clock, Duration, Instant};
use tokio::net::TcpStream;
use tokio::runtime::LocalRuntime;

/// Posts messages, one after the other: a system, and the runtime in which its calls wait.
pub struct Poster<R> {
    rt: R,
    runtime: LocalRuntime,
}

impl<R: Drop> Drop for Poster<R> {
    fn drop(self) {
        let Poster { rt: _, runtime: _ } = self;
    }
}

impl<R: Wait + Clock + Net + RandomSource + AllocGlobal + Drop> Poster<R> {
    /// One that waits by this system.
    pub fn new(rt: R) -> Result<Poster<R>, PostError>
        ensures { IfOk result (λ poster. poster.rt ≡ rt) }
    {
        let runtime = LocalRuntime::new(&rt)?;
        Ok(Poster { rt, runtime })
    }

    /// Connects to the address of a peer, within `POST_SECONDS`, in which a message over it is to be answered too.
    pub fn connect(&mut self, peer: Peer) -> Result<Connection, PostError>
        ensures ok { IfOk result (λ connection. connection.peer ≡ peer) }
        ensures stays { self.new.rt ≡ self.old.rt }
    {
        let now = Instant::now(&self.rt)?;
        let Some(deadline) = now.checked_add(Duration::from_secs(POST_SECONDS)) else {
            return Err(PostError::Failed);
        };
        let reactor = self.runtime.handle().reactor();
        let connecting = TcpStream::connect(&self.rt, peer.address, reactor);
        let stream = output_of(&self.rt, &mut self.runtime, connecting, deadline)??;
        Ok(Connection {
            peer,
            stream,
            deadline,
        })
    }

    /// Posts a message to the server of a peer over a connection to it, with its digest (RFC 9530) and, if there is a
    /// key, with the key and the message's authentication code, and returns what was posted and what was answered.
    ///
    /// Errors: `Failed` if no reply comes within the connection's time.
    pub fn post(
        &mut self,
        alloc: Global,
        connection: Connection,
        key: Option<&Key>,
        message: &[u8],
    ) -> Result<Exchanged, PostError>
        ensures to { IfOk result (λ told. told.posted.peer ≡ connection.peer) }
        ensures posts { IfOk result (λ told. Posts connection.peer.address (option_copied key.entry)
            message.now told.posted.request.value) }
        ensures answered { IfOk result IsAnswered }
        ensures stays { self.new.rt ≡ self.old.rt }
    {
        let fields = message_fields_of(alloc, connection.peer.address, key, message)?;
        self.post_to(alloc, connection, GOSSIP_PATH, fields, message)
    }

    /// Posts the number of a node that wants to be told to the server of a peer, as `post` does a message.
    pub fn post_hello(
        &mut self,
        alloc: Global,
        connection: Connection,
        key: Option<&Key>,
        node: u8,
    ) -> Result<Exchanged, PostError>
        ensures to { IfOk result (λ told. told.posted.peer ≡ connection.peer) }
        ensures posts { IfOk result (λ told. PostsHello connection.peer.address
            (option_copied key.entry) node told.posted.request.value) }
        ensures answered { IfOk result IsAnswered }
        ensures stays { self.new.rt ≡ self.old.rt }
    {
        let mut buffer = Buffer::new();
        let number = buffer.format(node).as_bytes();
        let fields = fields_of(alloc, connection.peer.address, key)?;
        self.post_to(alloc, connection, HELLO_PATH, fields, number)
    }

    // Posts bytes with these fields to a path of the server of a peer.
    fn post_to(
        &mut self,
        alloc: Global,
        connection: Connection,
        path: &str,
        fields: HeaderMap,
        bytes: &[u8],
    ) -> Result<Exchanged, PostError>
        ensures to { IfOk result (λ told. told.posted.peer ≡ connection.peer) }
        ensures posts { IfOk result
            (λ told. PostsTo path.now fields bytes.now told.posted.request.value) }
        ensures answered { IfOk result IsAnswered }
        ensures stays { self.new.rt ≡ self.old.rt }
    {
        let request = request(alloc, path, fields, bytes)?;
        answered(&self.rt, alloc, &mut self.runtime, connection, request)
    }
}

//! A connection over which one message is posted.

ghost use Rattle.std.specs.Prelude.{◌≡◌, ◌↔◌, IsTrue};

use crate::peer::Peer;
use std::time::Instant;
use tokio::net::TcpStream;

/// How many seconds a message may take, from the connection to the head of the reply.
pub const POST_SECONDS: u64 = 2;

/// A connection to the address of a peer, and until when what is posted over it is to be answered.
#[derive(Drop)]
pub struct Connection {
    pub(crate) peer: Peer,
    pub(crate) stream: TcpStream,
    pub(crate) deadline: Instant,
}

impl Connection {
    /// Whether it leads to this peer.
    pub fn is_to(&self, peer: Peer) -> bool
        ensures { IsTrue result ↔ (self.now.peer ≡ peer) }
    {
        self.peer == peer
    }
}

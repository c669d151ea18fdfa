//! A wire over HTTP.

ghost use Rattle.std.specs.Prelude.{◌≡◌, ◌↔◌, ◌⊎◌, [], true, false, option_map, IfErr, IfOk, IfSome, OnErr};
ghost use Rattle.std.specs.Prelude.{OnOk};
ghost use Rattle.std.specs.Bool.{OnTrue};
ghost use Rattle.gossip.specs.Traffic.{sends, takes};
ghost use Rattle.http_wire.specs.Failures.{IsFailure, failure_of};
ghost use Rattle.http_wire.specs.Hearing.{HasHeardOf};
ghost use Rattle.http_wire.specs.Peers.{address_of, has_peer};
ghost use Rattle.http_wire.specs.Reached.{is_ready_for};
ghost use Rattle.http_wire.specs.Sent.{IsHelloTo, IsPostedTo, IsSentTo, peer_at, traffic_of};

use crate::forgetful::{Forgetful, hear};
use gossip::{Log, PeerWire, Reach, Wire, WireError};
use http_posts::{Connection, Key, Peer, PostError, Posted, Poster};
use std::alloc::{AllocGlobal, Global};
use std::mem;
use std::net::{Net, SocketAddr};
use std::random::RandomSource;
use std::sync::Wait;
use std::time::Clock;

/// Sends each message as `POST /gossip` to the server of its node, with the key, if there is one, over a
/// connection of its own, in at most `POST_SECONDS`. It brings none: a node's messages come to its own server. A node
/// is reached where its server lets it connect, and the message that is sent to it next takes that
/// connection.
///
/// Its traffic has the messages that were handed to such a connection, each byte of them, and that
/// were answered with 200. That the server read the same bytes isn't said. A message that failed
/// isn't there, though its server may have it.
pub struct HttpWire<R> {
    poster: Poster<R>,
    peers: Vec<Peer>,
    key: Option<Key>,
    // To the node that was reached last, if nothing was sent to it yet.
    ready: Option<Connection>,
    sent: Log<Posted>,
    // The hellos that were answered with 200.
    hellos: Log<Posted>,
    forgetful: Vec<Forgetful>,
}

impl<R: Drop> Drop for HttpWire<R> {
    fn drop(self) {
        let HttpWire {
            poster: _,
            peers: _,
            key: _,
            ready: _,
            sent: _,
            hellos: _,
            forgetful: _,
        } = self;
    }
}

// As what fails that isn't posted.
fn failure_of(error: PostError) -> WireError
    ensures { result ≡ failure_of error }
{
    match error {
        PostError::Failed => WireError::Failed,
        PostError::OutOfMemory => WireError::OutOfMemory,
    }
}

impl<R> HttpWire<R> {
    // The address of a node's server: of two, the first.
    fn address_of(&self, node: u8) -> Option<SocketAddr>
        ensures { result ≡ address_of self.now.peers.items node }
    {
        let peer = self.peers.iter().find(|peer| peer.node == node)?;
        Some(peer.address)
    }
}

impl<R: Wait + Clock + Net + RandomSource + AllocGlobal + Drop> HttpWire<R> {
    /// A wire to these nodes, which have the key, if there is one. Where a node is named twice, its first
    /// address counts.
    pub fn new(rt: R, peers: Vec<Peer>, key: Option<Key>) -> Result<HttpWire<R>, WireError>
        ensures ok { IfOk result (λ wire. wire.peers ≡ peers) }
        ensures key { IfOk result (λ wire. wire.key ≡ key) }
        ensures ready { IfOk result (λ wire. wire.ready ≡ None) }
        ensures sent { IfOk result (λ wire. wire.sent.items ≡ []) }
        ensures hellos { IfOk result (λ wire. wire.hellos.items ≡ []) }
        ensures forgetful { IfOk result (λ wire. wire.forgetful.items ≡ []) }
        ensures err { IfErr result IsFailure }
    {
        let forgetful = Vec::new(rt.alloc());
        let poster = Poster::new(rt).map_err(failure_of)?;
        let sent = Log::new();
        let hellos = Log::new();
        Ok(HttpWire {
            poster,
            peers,
            key,
            ready: None,
            sent,
            hellos,
            forgetful,
        })
    }

    // A connection to a peer: the one that is ready, where it leads there, else a new one.
    fn connection_to(&mut self, peer: Peer) -> Result<Connection, PostError>
        ensures ok { IfOk result (λ connection. connection.peer ≡ peer) }
        ensures stays { (self.new.peers ≡ self.old.peers) × (self.new.sent ≡ self.old.sent)
            × (self.new.forgetful ≡ self.old.forgetful) }
        ensures key { self.new.key ≡ self.old.key }
    {
        if let Some(connection) = self.ready.take() {
            if connection.is_to(peer) {
                return Ok(connection);
            }
        }
        self.poster.connect(peer)
    }

    // Posts a message to a peer.
    fn post_to(&mut self, alloc: Global, peer: Peer, message: &[u8]) -> Result<(), PostError>
        ensures stays { self.new.peers ≡ self.old.peers }
        ensures key { self.new.key ≡ self.old.key }
        ensures posted { OnOk result
            (IsPostedTo peer self.old.key message.now self.old.sent.items self.new.sent.items) }
        ensures unsent { OnErr result (self.new.sent.items ≡ self.old.sent.items) }
        ensures heard { HasHeardOf peer.node self.old.forgetful.items self.new.forgetful.items }
    {
        let connection = self.connection_to(peer)?;
        let key = self.key.as_ref();
        let told = self.poster.post(alloc, connection, key, message)?;
        hear(&mut self.forgetful, peer.node, told.says);
        told.taken_in()?;
        self.sent.add(&told.posted);
        Ok(())
    }

    // Posts a hello to a peer.
    fn ask_peer(&mut self, alloc: Global, own: u8, peer: Peer) -> Result<(), PostError>
        ensures stays { (self.new.peers ≡ self.old.peers) × (self.new.sent ≡ self.old.sent)
            × (self.new.forgetful ≡ self.old.forgetful) }
        ensures key { self.new.key ≡ self.old.key }
        ensures posted { OnOk result
            (IsHelloTo peer self.old.key own self.old.hellos.items self.new.hellos.items) }
        ensures unsent { OnErr result (self.new.hellos.items ≡ self.old.hellos.items) }
    {
        let connection = self.poster.connect(peer)?;
        let asking = self.key.as_ref();
        let asked = self.poster.post_hello(alloc, connection, asking, own)?;
        asked.taken_in()?;
        self.hellos.add(&asked.posted);
        Ok(())
    }
}

impl<R: Wait + Clock + Net + RandomSource + AllocGlobal + Drop> Wire for HttpWire<R> {
    ghost use Rattle.http_wire.specs.Sent.{traffic_of};

    ghost traffic = { λ w. traffic_of w.sent.items };

    fn send<S: Wait>(
        &mut self,
        _rt: &S,
        alloc: Global,
        to: u8,
        message: &[u8],
    ) -> Result<(), WireError>
        ensures no_peer { (result ≡ Err WireError.NoPeer)
            ↔ (has_peer self.old.peers.items to ≡ false) }
        ensures failed { IfErr result (λ e. (e ≡ WireError.NoPeer) ⊎ IsFailure e) }
        ensures stays { self.new.peers ≡ self.old.peers }
        ensures key { self.new.key ≡ self.old.key }
        ensures posted { OnOk result (IsSentTo self.old.peers.items self.old.key to message.now
            self.old.sent.items self.new.sent.items) }
        ensures unsent { OnErr result (self.new.sent.items ≡ self.old.sent.items) }
        ensures heard { HasHeardOf to self.old.forgetful.items self.new.forgetful.items }
        ensures ok { OnOk result (traffic_of self.new.sent.items
            ≡ sends to message.now (traffic_of self.old.sent.items)) }
        ensures err { OnErr result
            (traffic_of self.new.sent.items ≡ traffic_of self.old.sent.items) }
    {
        let Some(address) = self.address_of(to) else {
            return Err(WireError::NoPeer);
        };
        match self.post_to(alloc, Peer { node: to, address }, message) {
            Ok(()) => Ok(()),
            Err(error) => Err(failure_of(error)),
        }
    }

    fn take<S: Wait>(&mut self, _rt: &S, _alloc: Global) -> Result<Option<Vec<u8>>, WireError>
        ensures none { result ≡ Ok None }
        ensures stays { (self.new.peers ≡ self.old.peers)
            × (self.new.sent.items ≡ self.old.sent.items) }
        ensures ok { IfOk result (λ found. traffic_of self.new.sent.items
            ≡ takes (option_map (λ m. m.items) found) (traffic_of self.old.sent.items)) }
        ensures err { OnErr result
            (traffic_of self.new.sent.items ≡ traffic_of self.old.sent.items) }
    {
        Ok(None)
    }
}

impl<R: Wait + Clock + Net + RandomSource + AllocGlobal + Drop> Reach for HttpWire<R> {
    ghost use Rattle.http_wire.specs.Reached.{is_ready_for};

    ghost reached = { λ w node. is_ready_for w.ready node };

    fn reaches<S: Wait>(&mut self, _rt: &S, _alloc: Global, to: u8) -> bool
        ensures value { result ≡ is_ready_for self.new.ready to }
        ensures port { OnTrue result (has_peer self.old.peers.items to ≡ true) }
        ensures same { traffic_of self.new.sent.items ≡ traffic_of self.old.sent.items }
        ensures stays { (self.new.peers ≡ self.old.peers)
            × (self.new.sent.items ≡ self.old.sent.items) }
    {
        self.ready = None;
        let Some(address) = self.address_of(to) else {
            return false;
        };
        match self.poster.connect(Peer { node: to, address }) {
            Ok(connection) => {
                self.ready = Some(connection);
                true
            }
            Err(_) => false,
        }
    }
}

impl<R: Wait + Clock + Net + RandomSource + AllocGlobal + Drop> PeerWire for HttpWire<R> {
    ghost use Rattle.http_wire.specs.Sent.{traffic_of};

    type Loss = Forgetful;

    // By `POST /hello` with the number, over a connection of its own.
    fn ask<S: Wait>(&mut self, _rt: &S, alloc: Global, own: u8, to: u8) -> Result<(), WireError>
        ensures no_peer { (result ≡ Err WireError.NoPeer)
            ↔ (has_peer self.old.peers.items to ≡ false) }
        ensures failed { IfErr result (λ e. (e ≡ WireError.NoPeer) ⊎ IsFailure e) }
        ensures stays { (self.new.peers ≡ self.old.peers) × (self.new.sent ≡ self.old.sent)
            × (self.new.forgetful ≡ self.old.forgetful) }
        ensures key { self.new.key ≡ self.old.key }
        ensures posted { OnOk result (IfSome (address_of self.old.peers.items to) (λ address.
            IsHelloTo (peer_at to address) self.old.key own self.old.hellos.items
            self.new.hellos.items)) }
        ensures unsent { OnErr result (self.new.hellos.items ≡ self.old.hellos.items) }
        ensures same { traffic_of self.new.sent.items ≡ traffic_of self.old.sent.items }
    {
        match self.address_of(to) {
            Some(address) => match self.ask_peer(alloc, own, Peer { node: to, address }) {
                Ok(()) => Ok(()),
                Err(error) => Err(failure_of(error)),
            },
            None => Err(WireError::NoPeer),
        }
    }

    fn take_losses(&mut self, alloc: Global) -> Vec<Forgetful>
        ensures value { result ≡ self.old.forgetful }
        ensures taken { self.new.forgetful.items ≡ [] }
        ensures stays { (self.new.peers ≡ self.old.peers) × (self.new.sent ≡ self.old.sent)
            × (self.new.ready ≡ self.old.ready) }
        ensures key { self.new.key ≡ self.old.key }
        ensures same { traffic_of self.new.sent.items ≡ traffic_of self.old.sent.items }
    {
        mem::replace(&mut self.forgetful, Vec::new(alloc))
    }
}

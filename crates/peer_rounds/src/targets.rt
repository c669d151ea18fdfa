//! Whom a served node tells.

ghost use Rattle.std.specs.Prelude.{◌≡◌, ◌≤◌, ◌<◌, ◌^◌, [], length, map, IfOk};
ghost use Rattle.gossip_pace.specs.News.{first_pace};
ghost use Rattle.peer_rounds.specs.Rounds.{is_named, is_told, peer_of, told_below};

use crate::host::Host;
use command_line::NamedPeer;
use gossip::{Pace, WireError};
use http_wire::{HttpWire, Key, Peer};
use node_core::Config;
use node_registry::{Label, Registry};
use std::alloc::{AllocError, AllocGlobal, Global};
use std::sync::Wait;

// The peers of a wire.
fn peers_of(alloc: Global, named: &[NamedPeer]) -> Result<Vec<Peer>, AllocError>
    ensures { IfOk result (λ peers. peers.items ≡ map peer_of named.now) }
{
    let mut peers = Vec::new(alloc);
    for peer in named {
        peers.push(Peer {
            node: peer.node,
            address: peer.address,
        })?;
    }
    Ok(peers)
}

/// A wire to these peers, which have the key, if there is one.
pub(crate) fn wire_to<R: Host>(
    rt: &R,
    named: &[NamedPeer],
    key: Option<Key>,
) -> Result<HttpWire<R>, WireError>
    ensures peers { IfOk result (λ wire. wire.peers.items ≡ map peer_of named.now) }
    ensures key { IfOk result (λ wire. wire.key ≡ key) }
    ensures sent { IfOk result (λ wire. wire.sent.items ≡ []) }
{
    let peers = peers_of(rt.alloc(), named)?;
    HttpWire::new(*rt, peers, key)
}

// Whether a peer has the number of a node.
fn is_named(named: &[NamedPeer], node: u8) -> bool
    ensures { result ≡ is_named named.now node }
{
    named.iter().any(|peer| peer.node == node)
}

// Whether another node is told: it has a peer, and isn't the node itself.
fn is_told(node: u8, named: &[NamedPeer], other: u8) -> bool
    ensures { result ≡ is_told node named.now other }
{
    other != node && is_named(named, other)
}

// When each of the nodes with numbers below `nodes` is told that is told at all.
fn paces_of(
    alloc: Global,
    node: u8,
    nodes: u8,
    named: &[NamedPeer],
) -> Result<Vec<Pace>, AllocError>
    ensures paces { IfOk result (λ paces.
        paces.items ≡ map first_pace (told_below node nodes named.now)) }
    ensures few { IfOk result (λ paces. length paces.items ≤ nodes) }
{
    let mut paces = Vec::new(alloc);
    for other in 0..nodes {
        if is_told(node, named, other) {
            paces.push(Pace::new(other))?;
        }
    }
    Ok(paces)
}

/// When each node is told that a registry's node tells.
pub(crate) fn first_paces<L: Label, R: Wait + AllocGlobal>(
    rt: &R,
    registry: &Registry<L>,
    named: &[NamedPeer],
) -> Result<Vec<Pace>, AllocError>
    ensures paces { IfOk result (λ paces. paces.items
        ≡ map first_pace (told_below L.config.node L.config.nodes named.now)) }
    ensures few { IfOk result (λ paces. length paces.items < 2 ^ 8) }
{
    let Config { node, nodes, .. } = registry.with(rt, |core| core.config());
    paces_of(rt.alloc(), node, nodes, named)
}

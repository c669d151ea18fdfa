//! Peers, as a command line names them.

ghost use Rattle.std.specs.Prelude.{◌≡◌, map, IfOk};
ghost use Rattle.command_line.specs.Peers.{AreNamed, IsFirstBad, SaysPeer, SaysPlace};

use crate::addresses::{AddressFault, has_byte, port_here, read_address};
use decimals::{byte, number};
use std::alloc::{AllocFailed, Global};
use std::error::Error;
use std::fmt;
use std::net::SocketAddr;

/// Where a word says that a node is served.
#[derive(Clone, Copy, Debug, PartialEq, Eq)]
pub struct NamedPeer {
    pub node: u8,
    pub address: SocketAddr,
}

/// Why a word names no peer. `Display` says it in words.
#[derive(Clone, Copy, Debug, PartialEq, Eq)]
pub enum PeerFault {
    /// It has no `:`.
    NoColon,
    /// What stands before the first `:` is no number of a node.
    BadNode,
    /// What stands behind it is no number of a port, and has no `:`.
    BadPort,
    /// What stands behind it has a `:`, and is no address with a port.
    BadAddress(AddressFault),
    /// The cluster has no node of this number.
    NoSuchNode,
}

impl fmt::Display for PeerFault {
    ghost use Rattle.std.specs.Prelude.{Some};
    ghost use Rattle.command_line.specs.Peers.{peer_fault_text};

    ghost output = { λ e. Some (peer_fault_text e) };

    fn fmt<W: fmt::Write>(&self, f: &mut fmt::Formatter<W>) -> fmt::Result {
        let text = match *self {
            PeerFault::NoColon => "expected `:` between the node and its port",
            PeerFault::BadNode => "the node isn't a number of at most 255",
            PeerFault::BadPort => "the port isn't a number of at most 65535",
            PeerFault::BadAddress(fault) => return f.write_str(fault.text()),
            PeerFault::NoSuchNode => "the cluster has no such node",
        };
        f.write_str(text)
    }
}

impl Error for PeerFault {}

/// Why words name no peers.
#[derive(Clone, Copy, Debug)]
pub enum PeersFault<'a> {
    /// The first word that names none.
    BadPeer { word: &'a str, fault: PeerFault },
    /// Memory was refused.
    OutOfMemory,
}

impl<'a, T: Drop> From<AllocFailed<T>> for PeersFault<'a> {
    ghost use Rattle.std.specs.Prelude.{◌≡◌};
    ghost use Rattle.command_line.specs.declared.peers.PeersFault.TheVariants.{OutOfMemory};

    ghost from_gives = { λ _ e. e ≡ OutOfMemory };

    fn from(_e: AllocFailed<T>) -> PeersFault<'a> {
        PeersFault::OutOfMemory
    }
}

// Where a text says that a node is served.
fn read_place(text: &str) -> Result<SocketAddr, PeerFault>
    ensures { SaysPlace text.now result }
{
    if let Some(port) = number(text, 65535) {
        return Ok(port_here(port as u16));
    }
    match read_address(text) {
        Ok(address) => Ok(address),
        Err(fault) if has_byte(text, b':') => Err(PeerFault::BadAddress(fault)),
        Err(_) => Err(PeerFault::BadPort),
    }
}

/// The peer that a word names in a cluster of so many nodes: the number of a node, a `:`, and a port of
/// this machine, or an address and a port.
pub fn read_peer(word: &str, nodes: u8) -> Result<NamedPeer, PeerFault>
    ensures { SaysPeer nodes word.now result }
{
    let (node, place) = word.split_once(':').ok_or(PeerFault::NoColon)?;
    let node = byte(node).ok_or(PeerFault::BadNode)?;
    let address = read_place(place)?;
    if node < nodes {
        Ok(NamedPeer { node, address })
    } else {
        Err(PeerFault::NoSuchNode)
    }
}

/// The peers that words name, in their order; or the first word that names none, and why.
#[tactic(auto, using(crate::proofs::PeerLemmas::named_more))]
pub fn read_peers<'a>(
    alloc: Global,
    words: &[&'a str],
    nodes: u8,
) -> Result<Vec<NamedPeer>, PeersFault<'a>>
    ensures ok { IfOk result (λ peers. AreNamed nodes (map (λ w. w.now) words.now) peers.items) }
    ensures bad { (word : _) (fault : _) → result ≡ Err (PeersFault.BadPeer word fault)
        → IsFirstBad nodes (map (λ w. w.now) words.now) word.now fault }
{
    let mut peers = Vec::new(alloc);
    for word in words {
        match read_peer(word, nodes) {
            Ok(peer) => peers.push(peer)?,
            Err(fault) => return Err(PeersFault::BadPeer { word, fault }),
        }
    }
    Ok(peers)
}

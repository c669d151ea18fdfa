//! For which addresses a key is needed.

ghost use Rattle.std.specs.Prelude.{◌≡◌, IfSome, None};
ghost use Rattle.command_line.specs.Guarded.{AreHere, IsUnguardedAmong};

use crate::addresses::is_here;
use crate::peers::NamedPeer;
use std::error::Error;
use std::fmt;
use std::net::SocketAddr;

/// An address for which a key is needed. `Display` says so.
#[derive(Clone, Copy, Debug, PartialEq, Eq)]
pub enum Unguarded {
    /// Other machines reach the node that is served there.
    Listening(SocketAddr),
    /// It is told over a network.
    Told { node: u8, address: SocketAddr },
}

impl fmt::Display for Unguarded {
    ghost use Rattle.std.specs.Prelude.{Some};
    ghost use Rattle.command_line.specs.Guarded.{unguarded_text};

    ghost output = { λ e. Some (unguarded_text e) };

    fn fmt<W: fmt::Write>(&self, f: &mut fmt::Formatter<W>) -> fmt::Result {
        match self {
            Unguarded::Listening(address) => write!(
                f,
                "{address} is not a loopback address: --key-file is required"
            ),
            Unguarded::Told { node, address } => {
                write!(
                    f,
                    "{node}:{address} is not a loopback address: --key-file is required"
                )
            }
        }
    }
}

impl Error for Unguarded {}

/// For which address of a served node a key is needed: the one that it listens at, else the first of
/// its peers. For those of this machine none is.
#[tactic(auto, using(crate::proofs::PeerLemmas::here_more))]
pub fn first_unguarded(listen: SocketAddr, peers: &[NamedPeer]) -> Option<Unguarded>
    ensures some { IfSome result (IsUnguardedAmong listen peers.now) }
    ensures none { result ≡ None → AreHere listen peers.now }
{
    if !is_here(listen) {
        return Some(Unguarded::Listening(listen));
    }
    for peer in peers {
        let NamedPeer { node, address } = *peer;
        if !is_here(address) {
            return Some(Unguarded::Told { node, address });
        }
    }
    None
}

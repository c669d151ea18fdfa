//! A caller of `http_wire`.

ghost use Rattle.std.specs.Prelude.{◌≡◌, ◌↔◌, false};
ghost use Rattle.http_wire.specs.Peers.{has_peer};

use gossip::{Wire, WireError};
use http_wire::{HttpWire, Peer};
use std::alloc::{AllocGlobal, Global};
use std::net::Net;
use std::random::RandomSource;
use std::sync::Wait;
use std::time::Clock;

/// Sends a message to a node and once more where that failed, but not where no peer has its number.
pub fn send_twice<R: Wait + Clock + Net + RandomSource + AllocGlobal + Drop>(
    rt: &R,
    alloc: Global,
    wire: &mut HttpWire<R>,
    to: u8,
    message: &[u8],
) -> Result<(), WireError>
    ensures { (result ≡ Err WireError.NoPeer) ↔ (has_peer wire.old.peers.items to ≡ false) }
{
    match wire.send(rt, alloc, to, message) {
        Err(WireError::Failed) => wire.send(rt, alloc, to, message),
        other => other,
    }
}

//! Where a node is served.

use std::net::SocketAddr;

/// Where another node is served.
#[derive(Clone, Copy, Debug, PartialEq, Eq)]
pub struct Peer {
    pub node: u8,
    pub address: SocketAddr,
}

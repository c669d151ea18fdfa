//! How a node asks another one to be told.

ghost use Rattle.std.specs.Prelude.{◌≡◌};
ghost use Rattle.http_routes.specs.Replies.{http_value, IsReply};
ghost use Rattle.peers.specs.Hello.{asker_in, greeting_of, peer_in};

use crate::heard::Cluster;
use decimals::byte;
use http_routes::HttpReply;
use std::alloc::Global;
use std::str;

// A number, if it is that of another node.
fn peer_in(cluster: Cluster, node: Option<u8>) -> Option<u8>
    ensures { result ≡ peer_in cluster node }
{
    match node {
        Some(node) if cluster.is_peer(node) => Some(node),
        Some(_) | None => None,
    }
}

/// The other node of the cluster that asks by this body, if one does.
pub fn asker_in(cluster: Cluster, body: &[u8]) -> Option<u8>
    ensures { result ≡ asker_in cluster body.now }
{
    match str::from_utf8(body) {
        Ok(text) => peer_in(cluster, byte(text)),
        Err(_) => None,
    }
}

/// The reply to whoever asks to be told.
pub fn greeting(alloc: Global, asker: Option<u8>) -> HttpReply
    ensures { IsReply (greeting_of asker) (http_value result) }
{
    match asker {
        Some(_) => HttpReply::text(alloc, 200, "telling"),
        None => HttpReply::text(
            alloc,
            400,
            "expected the number of the requesting node: another node of this cluster",
        ),
    }
}

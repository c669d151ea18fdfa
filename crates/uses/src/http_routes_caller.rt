//! A caller of `http_routes`.

ghost use Rattle.std.specs.Prelude.{◌≡◌};

use http_routes::{HttpReply, Routes, answer};
use node_core::NodeCore;
use std::alloc::Global;

/// Answers a request that only looks: whatever its path is, a `GET` leaves the node as it was.
pub fn look(node: &mut NodeCore, alloc: Global, routes: &Routes, path: &str) -> HttpReply
    ensures { node.new ≡ node.old }
{
    answer(node, alloc, routes, "GET", path, b"")
}

//! The accepted calls that a node keeps, and how it lets go of them.

ghost use Rattle.std.specs.Prelude.{◌≡◌, ◌≢◌, drop, length, MatchOption};
ghost use Rattle.node_core.specs.Traces.{without_kept};
ghost use Rattle.node_for_c.specs.Numbers.{closed};
ghost use Rattle.node_for_c.specs.Calls.{Both};

use node_for_c::{CLOSED, Node};
use std::alloc::Global;

/// Tells how many of the accepted calls the node keeps, each of which takes memory: those since it
/// last forgot them.
#[unsafe(no_mangle)]
pub extern "C" fn failreg_kept(alloc: Global, node: &mut Node, calls: &mut u64) -> u32
    ensures value { result ≡ 0 → MatchOption node.old.handle.kept ⊥ (λ k.
        calls.new ≡ length (drop k.core.from k.core.trace)) }
    ensures refused { result ≢ 0
        → MatchOption node.old.handle.kept (result ≡ closed) (λ _. ⊥) }
    ensures none { result ≢ 0 → calls.new ≡ 0 }
    ensures same { node.new.handle.kept ≡ node.old.handle.kept }
{
    let Some(registry) = node.take(alloc) else {
        *calls = 0;
        return CLOSED;
    };
    *calls = registry.core.trace().len() as u64;
    *node = Node::of(registry);
    0
}

/// Frees the accepted calls that the node keeps. What it holds and tells stays as it is, and its calls
/// go on being counted. What is to be fetched stays, but for the text of a task that a pass by a
/// point's number came to.
#[unsafe(no_mangle)]
pub extern "C" fn failreg_forget(alloc: Global, node: &mut Node) -> u32
    ensures done { result ≡ 0 → Both node.old.handle.kept node.new.handle.kept (λ k l.
        l ≡ record k { core = without_kept k.core }) }
    ensures refused { result ≢ 0
        → MatchOption node.old.handle.kept (result ≡ closed) (λ _. ⊥) }
    ensures same { result ≢ 0 → node.new.handle.kept ≡ node.old.handle.kept }
{
    let Some(mut registry) = node.take(alloc) else {
        return CLOSED;
    };
    registry.core.forget(alloc);
    *node = Node::of(registry);
    0
}

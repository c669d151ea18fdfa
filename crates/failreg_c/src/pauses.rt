//! Pauses, which end where the setting does.

ghost use Rattle.std.specs.Prelude.{◌≡◌, ◌≢◌, ◌↔◌, false, IsTrue, MatchOption};
ghost use Rattle.node_for_c.specs.Numbers.{closed, stamp_in};
ghost use Rattle.node_for_c.specs.Calls.{IsNoName};
ghost use Rattle.node_for_c.specs.Pauses.{IsPauseOver};

use node_for_c::{CLOSED, Node, Stamped};
use stamp_register::Stamp;
use std::alloc::Global;

/// Tells whether a pause is over that began with a pass of this stamp: once the point isn't set
/// under it any more.
#[unsafe(no_mangle)]
pub extern "C" fn failreg_pause_over(
    alloc: Global,
    node: &mut Node,
    name: &[u8],
    stamp: &Stamped,
    is_over: &mut bool,
) -> u32
    ensures value { result ≡ 0 → MatchOption node.old.handle.kept ⊥ (λ k.
        IsTrue is_over.new ↔ IsPauseOver k.core name.now (stamp_in stamp.now)) }
    ensures refused { result ≢ 0
        → MatchOption node.old.handle.kept (result ≡ closed) (λ _. IsNoName name.now result) }
    ensures none { result ≢ 0 → is_over.new ≡ false }
    ensures same { node.new.handle.kept ≡ node.old.handle.kept }
{
    let Some(registry) = node.take(alloc) else {
        *is_over = false;
        return CLOSED;
    };
    let since = Stamp {
        clock: stamp.clock,
        node: stamp.node,
    };
    let (status, answer) = registry.pause_over(alloc, name, since);
    *node = Node::of(registry);
    *is_over = answer;
    status
}

//! Calls that move rights to where passes happen, and deal them out to all nodes.

ghost use Rattle.std.specs.Prelude.{◌≡◌, ◌≢◌};
ghost use Rattle.node_for_c.specs.Numbers.{no_stamp, stamp_in};
ghost use Rattle.node_for_c.specs.Calls.{Both, IsNotSpreadBy, IsNotSpreadSet, IsShared, IsShareStopped};
ghost use Rattle.node_for_c.specs.Calls.{IsSpread, IsSpreadSet, IsClosedOr};

use node_for_c::{CLOSED, NO_STAMP, Node, Stamped};
use std::alloc::Global;

/// Makes the shifts of the node's rights that are due in a round, and tells how many.
#[unsafe(no_mangle)]
pub extern "C" fn failreg_share(alloc: Global, node: &mut Node, count: &mut u64) -> u32
    ensures ok { result ≡ 0 → Both node.old.handle.kept node.new.handle.kept (IsShared count.new) }
    ensures refused { result ≢ 0 → IsClosedOr result node.old.handle.kept node.new.handle.kept
        (IsShareStopped result) }
    ensures none { result ≢ 0 → count.new ≡ 0 }
{
    let Some(mut registry) = node.take(alloc) else {
        *count = 0;
        return CLOSED;
    };
    let (status, answer) = registry.share(alloc);
    *node = Node::of(registry);
    *count = answer;
    status
}

/// Deals the node's rights to a point out to all nodes, and tells how many it keeps.
#[unsafe(no_mangle)]
pub extern "C" fn failreg_spread(alloc: Global, node: &mut Node, name: &[u8], kept: &mut u64) -> u32
    ensures ok { result ≡ 0 → Both node.old.handle.kept node.new.handle.kept
        (IsSpread name.now kept.new) }
    ensures refused { result ≢ 0 → IsClosedOr result node.old.handle.kept node.new.handle.kept
        (IsNotSpreadBy name.now result) }
    ensures none { result ≢ 0 → kept.new ≡ 0 }
{
    let Some(mut registry) = node.take(alloc) else {
        *kept = 0;
        return CLOSED;
    };
    let (status, answer) = registry.spread(alloc, name);
    *node = Node::of(registry);
    *kept = answer;
    status
}

/// Sets a point, and deals the rights to it out to all nodes. Tells the stamp of the setting.
#[unsafe(no_mangle)]
pub extern "C" fn failreg_set_spread(
    alloc: Global,
    node: &mut Node,
    name: &[u8],
    text: &[u8],
    stamp: &mut Stamped,
) -> u32
    ensures ok { result ≡ 0 → Both node.old.handle.kept node.new.handle.kept
        (IsSpreadSet name.now text.now (stamp_in stamp.new)) }
    ensures refused { result ≢ 0 → IsClosedOr result node.old.handle.kept node.new.handle.kept
        (IsNotSpreadSet name.now text.now result) }
    ensures none { result ≢ 0 → stamp.new ≡ no_stamp }
{
    let Some(mut registry) = node.take(alloc) else {
        *stamp = Stamped::of(NO_STAMP);
        return CLOSED;
    };
    let (status, answer) = registry.set_spread(alloc, name, text);
    *node = Node::of(registry);
    *stamp = Stamped::of(answer);
    status
}

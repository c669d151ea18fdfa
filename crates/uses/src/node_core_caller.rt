//! A caller of `node_core`.

ghost use Rattle.std.specs.Prelude.{◌≡◌, ◌+◌, length, IfOk, OnOk, OnErr};

use node_core::{NodeCore, NodeFault, PassReply, ResumeFault};
use std::alloc::Global;

/// Passes a point whose terms take no random draws. An accepted pass is one more entry of the
/// trace, and so counts towards the node's cap. A refused one leaves the node as it was.
pub fn pass_and_count(
    alloc: Global,
    node: &mut NodeCore,
    name: &str,
) -> Result<PassReply, NodeFault>
    ensures ok { OnOk result (length node.new.trace ≡ length node.old.trace + 1) }
    ensures err { OnErr result (node.new ≡ node.old) }
{
    node.pass_with(alloc, name, &[])
}

/// The same node again, from its calls, all of which it keeps.
pub fn again(alloc: Global, node: &NodeCore) -> Result<NodeCore, ResumeFault>
    requires { node.now.from ≡ 0 }
    ensures { IfOk result (λ n. n ≡ node.now) }
{
    NodeCore::resume(alloc, node.config(), node.trace())
}

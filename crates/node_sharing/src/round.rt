//! The shifts of a round, made one after another.

ghost use Rattle.std.specs.Prelude.{◌≡◌, [], length, IfErr, IfOk, None, OnErr, OnOk};
ghost use Rattle.node_core.specs.Traces.{IsRefusalOf, after_call, refusal, state_known};
ghost use Rattle.sharing.specs.Shares.{memory_after};
ghost use Rattle.node_sharing.specs.Made.{AreMade, IsStopped, asked, shifts_due};

use node_core::{NodeCore, NodeFault};
use sharing::{Memory, Shift};
use std::alloc::Global;

/// Makes a shift.
fn make(node: &mut NodeCore, alloc: Global, shift: &Shift) -> Result<(), NodeFault>
    ensures ok { OnOk result ((refusal node.old (asked shift.now) [] ≡ None)
        × (node.new ≡ after_call node.old (asked shift.now) [])) }
    ensures refused { IfErr result (IsRefusalOf node.old (asked shift.now) []) }
    ensures err { OnErr result (node.new ≡ node.old) }
{
    node.shift(alloc, shift.name.text(), shift.term, shift.to, shift.amount)?;
    Ok(())
}

/// Makes shifts, one after another, up to the first that is refused.
pub(crate) fn make_all(
    node: &mut NodeCore,
    alloc: Global,
    shifts: &[Shift],
) -> Result<(), NodeFault>
    ensures ok { OnOk result (AreMade node.old shifts.now node.new) }
    ensures refused { IfErr result (IsStopped node.old shifts.now node.new) }
{
    for shift in shifts {
        make(node, alloc, shift)?;
    }
    Ok(())
}

/// A round of a node: it makes the shifts that are due, and remembers the round. Answers how many
/// they are. Where one is refused, as N1 of a full trace, those before it are made, those behind it
/// are not, and the node remembers what it did before, so that the next round goes on from there.
pub fn share(node: &mut NodeCore, alloc: Global, memory: &mut Memory) -> Result<usize, NodeFault>
    ensures count { IfOk result (λ count. count ≡ length (shifts_due node.old memory.old)) }
    ensures made { OnOk result (AreMade node.old (shifts_due node.old memory.old) node.new) }
    ensures after { OnOk result (memory.new
        ≡ memory_after (state_known node.old) node.old.config.node node.old.config.nodes memory.old) }
    ensures refused { IfErr result
        (IsStopped node.old (shifts_due node.old memory.old) node.new) }
    ensures err { OnErr result (memory.new ≡ memory.old) }
{
    let config = node.config();
    let (shifts, after) = memory.round(alloc, node.state(), config.node, config.nodes)?;
    make_all(node, alloc, &shifts)?;
    memory.keep(after);
    Ok(shifts.len())
}

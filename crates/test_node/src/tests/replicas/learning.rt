//! Replicas that learn operations.

use super::*;

fn add<R: Replica>(alloc: Global, replica: &mut R, op: &Op) -> bool {
    op.is_well_formed() && replica.add(alloc, op).is_ok()
}

/// Learns an operation. If its memory is refused, nothing may have changed, and it is learned again.
fn learn<R: Replica>(rt: &impl Abort, alloc: Global, replica: &mut R, name: &Name, op: &Op) {
    let before = seen(replica, name);
    if !add(alloc, replica, op) {
        expect(rt, &is_as_before(replica, name, &before), &true);
        expect(rt, &add(alloc, replica, op), &true);
    }
}

/// Learns an operation of a name of this text.
pub(super) fn learn_on<R: Replica>(
    rt: &impl Abort,
    alloc: Global,
    replica: &mut R,
    text: &str,
    step: Step,
) -> Result<(), AllocError> {
    let name = name(alloc, text)?;
    let op = op_of(alloc, text, step)?;
    learn(rt, alloc, replica, &name, &op);
    Ok(())
}

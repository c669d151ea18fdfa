//! What an audit's yes says of a drill.

ghost use Rattle.std.specs.Prelude.{◌≡◌, ℕ, ◌+◌, ◌≤◌, Some, IfOk, slice_get};
ghost use Rattle.audit.specs.declared.total.Total.{Total};

use audit::{AuditFault, AuditYes, audit};
use node_core::{Receipt, Trace};
use std::alloc::Global;

/// Looks whether a schedule explains what the callers of a drill were told, and what it adds up to.
/// No total has more executions, on all nodes together, than its count and what was granted.
pub fn explained(
    alloc: Global,
    nodes: u8,
    traces: &[Trace],
    lists: &[Vec<Receipt>],
) -> Result<AuditYes, AuditFault>
    ensures { IfOk result (λ found. (place : ℕ) (total : Total)
        → slice_get found.totals.items place ≡ Some total
        → total.executed ≤ total.count + total.granted) }
{
    audit::laws::totals_are_kept();
    let found = audit(alloc, nodes, traces, lists)?;
    Ok(found)
}

//! The audit.

ghost use Rattle.std.specs.Prelude.{◌≡◌, ◌<◌, length, IfOk, IfErr, Err};
ghost use Rattle.cluster_model.specs.Laws.{EscrowHolds};
ghost use Rattle.audit.specs.Answers.{IsAudited, events_in};
ghost use Rattle.audit.specs.Checked.{fault_told};
ghost use Rattle.audit.specs.Totals.{AreTotals, AreTotalsIn};
ghost use Rattle.audit.specs.Traces.{IsSized, audited};

use crate::fault::AuditFault;
use crate::placing::{Placing, place_all};
use crate::receipts::{ReceiptFault, check_receipts};
use crate::replay::least_wrong;
use crate::tally::Tally;
use crate::total::Total;
use delta_exchange::MAX_NODES;
use node_core::{Receipt, Trace};
use std::alloc::Global;

/// What an audit says where a schedule explains the traces.
#[derive(Debug, Drop)]
pub struct AuditYes {
    /// Such a schedule: each entry as its node and its index in that node's trace.
    pub order: Vec<(u8, u32)>,
    /// Of each counted term of each key that the traces set how often it was executed, in the order
    /// of their names, stamps and numbers.
    pub totals: Vec<Total>,
}

/// Looks for a schedule of the cluster that gives these traces, which stand in the order of their
/// nodes, and whether the receipts are their entries: each once and none missing, in each list those
/// of one node in their order. A list holds what one caller was given, in the order of its calls.
///
/// It says yes exactly where there is such a schedule and these are the receipts, out of memory
/// aside (`laws::yes_when`), and answers one.
pub fn audit(
    alloc: Global,
    nodes: u8,
    traces: &[Trace],
    lists: &[Vec<Receipt>],
) -> Result<AuditYes, AuditFault>
    ensures answer { IsAudited nodes traces.now lists.now result }
    // The totals are those of that schedule: one for each counted term of each key that was set in it.
    ensures totals { IfOk result (λ found. AreTotals (audited nodes)
        (events_in nodes traces.now found.order.items) found.totals.items) }
    // In that schedule no term was executed more often than it was counted and granted.
    ensures escrow { IfOk result (λ found.
        EscrowHolds (audited nodes) (events_in nodes traces.now found.order.items)) }
{
    if nodes == 0 || nodes > MAX_NODES || traces.len() != nodes as usize {
        return Err(AuditFault::BadConfig);
    }
    let mut tally = Tally::new(alloc);
    match least_wrong(alloc, nodes, traces, &mut tally) {
        Ok(None) => {}
        Ok(Some((node, index))) => return Err(AuditFault::WrongReply { node, index }),
        Err(_) => return Err(AuditFault::OutOfMemory),
    }
    let order = match place_all(alloc, traces) {
        Ok(Placing::All(order)) => order,
        Ok(Placing::Stuck { node, index }) => return Err(AuditFault::Stuck { node, index }),
        Err(_) => return Err(AuditFault::OutOfMemory),
    };
    match check_receipts(alloc, traces, lists) {
        Ok(()) => answer(alloc, order, tally),
        Err(fault) => Err(receipts_fault(fault)),
    }
}

// A yes with the totals of a tally. The only error is out of memory.
fn answer(alloc: Global, order: Vec<(u8, u32)>, tally: Tally) -> Result<AuditYes, AuditFault>
    ensures order { IfOk result (λ found. found.order ≡ order) }
    ensures totals { IfOk result (λ found. AreTotalsIn tally found.totals.items) }
    ensures err { IfErr result (λ fault. fault ≡ AuditFault.OutOfMemory) }
{
    match tally.into_totals(alloc) {
        Ok(totals) => Ok(AuditYes { order, totals }),
        Err(_) => Err(AuditFault::OutOfMemory),
    }
}

// What is wrong with the receipts, as an audit's fault.
fn receipts_fault(fault: ReceiptFault) -> AuditFault
    ensures { result ≡ fault_told fault }
{
    match fault {
        ReceiptFault::Differs => AuditFault::ReceiptDiffers,
        ReceiptFault::Twice => AuditFault::ReceiptTwice,
        ReceiptFault::Missing => AuditFault::ReceiptMissing,
        ReceiptFault::OutOfMemory => AuditFault::OutOfMemory,
        ReceiptFault::OutOfOrder { list, place } => AuditFault::OutOfOrder { list, place },
    }
}

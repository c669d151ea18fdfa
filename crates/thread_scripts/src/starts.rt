//! What a node does before its workers start.

ghost use Rattle.std.specs.Prelude.{◌≡◌, ◌≢◌, ◌++◌, ◌∷◌, [], map, vec_len, IfOk, OnOk, Some};
ghost use Rattle.node_calls.specs.Told.{ask_ref_told};
ghost use Rattle.node_registry.specs.Receipts.{AreGivenSince, seat_after};
ghost use Rattle.node_registry.specs.Seats.{new_seat};
ghost use Rattle.thread_plans.specs.Plans.{start_line_value};
ghost use Rattle.thread_workers.specs.Calls.{AreMade};
ghost use Rattle.thread_scripts.specs.Calls.{Adds, AreOfLine, AreOfSpread, AreOfStarts, fault_list};
ghost use Rattle.thread_scripts.specs.Calls.{placed};

use gossip::{Ended, spread};
use node_core::{AskRef, NodeFault, Receipt};
use node_registry::{Label, Refusals, Registry, Seat};
use std::alloc::{AllocError, Global};
use std::sync::Wait;
use thread_plans::{Start, StartLine};
use thread_workers::put_behind;

// A refusal is no error, but for out of memory.
fn pass_over(fault: NodeFault) -> Result<Option<NodeFault>, AllocError>
    ensures { IfOk result (λ why. (why ≡ Some fault) × (fault ≢ NodeFault.OutOfMemory)) }
{
    if fault == NodeFault::OutOfMemory {
        return Err(AllocError);
    }
    Ok(Some(fault))
}

// Makes a call, and keeps its receipt, or notes that it was refused, and answers why.
fn make_call<L: Label, R: Wait>(
    rt: &R,
    alloc: Global,
    registry: &Registry<L>,
    seat: &mut Seat<L>,
    call: AskRef<'_>,
    receipts: &mut Vec<Receipt>,
    refusals: &mut Refusals,
) -> Result<Option<NodeFault>, AllocError>
    requires counted { seat.old ≡ seat_after new_seat receipts.old.items }
    requires given { AreGivenSince L.config L.seed new_seat receipts.old.items }
    ensures counted { OnOk result (seat.new ≡ seat_after new_seat receipts.new.items) }
    ensures given { OnOk result (AreGivenSince L.config L.seed new_seat receipts.new.items) }
    ensures made { IfOk result (λ why. Adds (AreMade L.config L.seed (ask_ref_told call.entry ∷ []))
        receipts.old.items receipts.new.items refusals.old refusals.new (fault_list why)) }
{
    let ask = call.copied(alloc)?;
    match registry.enter_noting(rt, alloc, seat, ask, refusals) {
        Ok(receipt) => {
            receipts.push(receipt)?;
            Ok(None)
        }
        Err(fault) => pass_over(fault),
    }
}

// Spreads the node's rights to a point, and keeps the receipts.
fn spread_rights<L: Label, R: Wait>(
    rt: &R,
    alloc: Global,
    registry: &Registry<L>,
    seat: &mut Seat<L>,
    name: &str,
    receipts: &mut Vec<Receipt>,
) -> Result<(), AllocError>
    requires counted { seat.old ≡ seat_after new_seat receipts.old.items }
    requires given { AreGivenSince L.config L.seed new_seat receipts.old.items }
    ensures counted { OnOk result (seat.new ≡ seat_after new_seat receipts.new.items) }
    ensures given { OnOk result (AreGivenSince L.config L.seed new_seat receipts.new.items) }
    ensures spread { OnOk result ((more : _) × (receipts.new.items ≡ receipts.old.items ++ more)
        × AreOfSpread L.config L.seed name.now more) }
{
    let report = spread(rt, alloc, registry, seat, name);
    if report.ended == Ended::OutOfMemory {
        return Err(AllocError);
    }
    put_behind(receipts, report.receipts)
}

// Does what a line says before the workers start, if it is the node's, and keeps the receipts. Answers why
// its call was refused, if it was.
fn do_start<L: Label, R: Wait>(
    rt: &R,
    alloc: Global,
    registry: &Registry<L>,
    seat: &mut Seat<L>,
    line: &StartLine<'_>,
    node: u8,
    receipts: &mut Vec<Receipt>,
    refusals: &mut Refusals,
) -> Result<Option<NodeFault>, AllocError>
    requires node { node ≡ L.config.node }
    requires counted { seat.old ≡ seat_after new_seat receipts.old.items }
    requires given { AreGivenSince L.config L.seed new_seat receipts.old.items }
    ensures counted { OnOk result (seat.new ≡ seat_after new_seat receipts.new.items) }
    ensures given { OnOk result (AreGivenSince L.config L.seed new_seat receipts.new.items) }
    ensures done { IfOk result (λ why. Adds (AreOfLine L.config L.seed (start_line_value line.now))
        receipts.old.items receipts.new.items refusals.old refusals.new (fault_list why)) }
{
    if line.node != node {
        return Ok(None);
    }
    match line.start {
        Start::Call(call) => make_call(rt, alloc, registry, seat, call, receipts, refusals),
        Start::Spread { name } => {
            spread_rights(rt, alloc, registry, seat, name, receipts)?;
            Ok(None)
        }
    }
}

// Keeps why the call of the line at a place was refused, if it was.
fn push_fault(
    place: usize,
    why: Option<NodeFault>,
    faults: &mut Vec<(usize, NodeFault)>,
) -> Result<(), AllocError>
    ensures { OnOk result (faults.new.items ≡ faults.old.items ++ placed place (fault_list why)) }
{
    if let Some(fault) = why {
        faults.push((place, fault))?;
    }
    Ok(())
}

/// A seat, its receipts, what the registry noted as refused, and why the calls of which lines were.
type Started<L> = (Seat<L>, Vec<Receipt>, Refusals, Vec<(usize, NodeFault)>);

/// Does what a node does before its workers start, in its order, from a seat that has made no call.
pub(crate) fn make_starts<L: Label, R: Wait>(
    rt: &R,
    alloc: Global,
    registry: &Registry<L>,
    mut seat: Seat<L>,
    starts: &[StartLine<'_>],
    node: u8,
) -> Result<Started<L>, AllocError>
    requires node { node ≡ L.config.node }
    requires fresh { seat ≡ new_seat }
    ensures counted { IfOk result (λ done. done.0 ≡ seat_after new_seat done.1.items) }
    ensures given { IfOk result (λ done. AreGivenSince L.config L.seed new_seat done.1.items) }
    ensures done { IfOk result (λ done. AreOfStarts L.config L.seed 0
        (map start_line_value starts.now) done.1.items done.2 done.3.items) }
{
    let mut receipts = Vec::new(alloc);
    let mut refusals = Refusals::new();
    let mut faults = Vec::new(alloc);
    let mut place = 0usize;
    for line in starts {
        let why = do_start(
            rt,
            alloc,
            registry,
            &mut seat,
            line,
            node,
            &mut receipts,
            &mut refusals,
        )?;
        push_fault(place, why, &mut faults)?;
        place += 1;
    }
    Ok((seat, receipts, refusals, faults))
}

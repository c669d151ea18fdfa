//! Rounds of gossip of a node, of either kind.

ghost use Rattle.std.specs.Prelude.{◌≡◌, ◌+◌, ◌++◌, List, length, vec_len, IfOk, OnOk};
ghost use Rattle.node_calls.specs.declared.receipt.Receipt.{Receipt};
ghost use Rattle.node_registry.specs.Receipts.{AreGivenSince, seat_after};
ghost use Rattle.node_registry.specs.Seats.{new_seat};
ghost use Rattle.sharing.specs.Memory.{Recalled};
ghost use Rattle.thread_scripts.specs.Gossips.{AreOfKind, AreShared, AreShifts, AreTold};

use crate::steps::StepWire;
use gossip::{Ended, gossip_rounds};
use node_core::Receipt;
use node_registry::{Label, Registry, Seat};
use registry_sharing::Sharing;
use std::alloc::{AllocError, Global};
use std::sync::Wait;
use thread_plans::{RoundKind, Rounds};
use thread_workers::put_behind;

// So many rounds of messages.
fn tell_rounds<L: Label, R: Wait>(
    rt: &R,
    alloc: Global,
    registry: &Registry<L>,
    seat: &mut Seat<L>,
    wire: &mut StepWire<'_>,
    count: u32,
) -> Result<Vec<Receipt>, AllocError>
    ensures counted { IfOk result (λ rs. seat.new ≡ seat_after seat.old rs.items) }
    ensures given { IfOk result (λ rs. AreGivenSince L.config L.seed seat.old rs.items) }
    ensures told { IfOk result (λ rs.
        AreTold L.config L.seed wire.old.mail wire.new.mail count rs.items) }
{
    let report = gossip_rounds(rt, alloc, registry, seat, wire, count);
    if report.ended == Ended::OutOfMemory {
        return Err(AllocError);
    }
    Ok(report.receipts)
}

// A round of sharing: first the shifts that are due, and then the messages. Their receipts are put
// behind those of the rounds before.
fn share_round<L: Label, R: Wait>(
    rt: &R,
    alloc: Global,
    registry: &Registry<L>,
    seat: &mut Seat<L>,
    wire: &mut StepWire<'_>,
    sharing: &mut Sharing,
    receipts: &mut Vec<Receipt>,
) -> Result<(), AllocError>
    requires counted { seat.old ≡ seat_after new_seat receipts.old.items }
    requires given { AreGivenSince L.config L.seed new_seat receipts.old.items }
    ensures counted { OnOk result (seat.new ≡ seat_after new_seat receipts.new.items) }
    ensures given { OnOk result (AreGivenSince L.config L.seed new_seat receipts.new.items) }
    ensures round { OnOk result ((shifts : List Receipt) × (told : List Receipt)
        × (receipts.new.items ≡ receipts.old.items ++ (shifts ++ told))
        × AreShifts L.config L.seed (seat_after new_seat receipts.old.items) sharing.old
        sharing.new shifts
        × AreTold L.config L.seed wire.old.mail wire.new.mail 1 told) }
{
    let shifts = sharing.share_receipts(rt, alloc, registry, seat)?;
    put_behind(receipts, shifts)?;
    let told = tell_rounds(rt, alloc, registry, seat, wire, 1)?;
    put_behind(receipts, told)
}

// So many rounds of sharing, of which the node remembers each until the next.
fn share_rounds<L: Label, R: Wait>(
    rt: &R,
    alloc: Global,
    registry: &Registry<L>,
    seat: &mut Seat<L>,
    wire: &mut StepWire<'_>,
    count: u32,
) -> Result<Vec<Receipt>, AllocError>
    requires { seat.old ≡ new_seat }
    ensures counted { IfOk result (λ rs. seat.new ≡ seat_after new_seat rs.items) }
    ensures given { IfOk result (λ rs. AreGivenSince L.config L.seed new_seat rs.items) }
    ensures shared { IfOk result (λ rs. (memory : List Recalled)
        × AreShared L.config L.seed wire.old.mail count memory rs.items wire.new.mail) }
{
    let mut sharing = Sharing::new(alloc);
    let mut receipts = Vec::new(alloc);
    for _round in 0..count {
        share_round(rt, alloc, registry, seat, wire, &mut sharing, &mut receipts)?;
    }
    Ok(receipts)
}

/// Does rounds of gossip of a node, from a seat without a call. Answers the receipts of its calls; memory
/// that is refused ends them.
pub(crate) fn do_rounds<L: Label, R: Wait>(
    rt: &R,
    alloc: Global,
    registry: &Registry<L>,
    seat: &mut Seat<L>,
    wire: &mut StepWire<'_>,
    rounds: Rounds,
) -> Result<Vec<Receipt>, AllocError>
    requires { seat.old ≡ new_seat }
    ensures counted { IfOk result (λ rs. seat.new ≡ seat_after new_seat rs.items) }
    ensures given { IfOk result (λ rs. AreGivenSince L.config L.seed new_seat rs.items) }
    ensures rounds { IfOk result (λ rs. AreOfKind rounds.kind L.config L.seed wire.old.mail
        wire.new.mail rounds.count rs.items) }
{
    match rounds.kind {
        RoundKind::Telling => tell_rounds(rt, alloc, registry, seat, wire, rounds.count),
        RoundKind::Sharing => share_rounds(rt, alloc, registry, seat, wire, rounds.count),
    }
}

//! A caller of `node_registry`.

ghost use Rattle.std.specs.Prelude.{◌≡◌, ◌+◌, length, map, vec_len, IfOk, OnOk, replicate, true};
ghost use Rattle.node_calls.specs.Asks.{call_from};
ghost use Rattle.node_core.specs.Traces.{IsLegal};

use actions::Name;
use node_core::{Ask, Config, NodeFault, Receipt};
use node_registry::{Closed, Label, PassOutcome, Registry, Seat};
use std::alloc::Global;
use std::marker::Brand;
use std::sync::Wait;
use std::sync::ledger::Blank;

/// Asks a node of its own from one seat, and answers its trace, which has as many entries as calls
/// were accepted.
pub fn asked<R: Wait>(
    rt: &R,
    alloc: Global,
    config: Config,
    asks: &[Ask],
) -> Result<Closed, NodeFault>
    ensures legal { IfOk result (λ c. IsLegal config (map (call_from config.nodes) c.trace.calls)) }
    ensures entries { IfOk result (λ c. length c.trace.calls ≡ c.calls) }
{
    asked_by::<Brand, R>(rt, alloc, Blank::new(1), config, asks)
}

/// Passes a point by its name, and answers the receipt where a term was triggered.
pub fn triggered<L: Label, R: Wait>(
    rt: &R,
    alloc: Global,
    registry: &Registry<L>,
    seat: &mut Seat<L>,
    point: &Name,
) -> Result<Option<Receipt>, NodeFault>
    ensures { OnOk result (seat.new.calls ≡ seat.old.calls + 1) }
{
    let passed = registry.pass_point(rt, alloc, seat, point)?;
    match passed.outcome {
        PassOutcome::Act { .. } => Ok(registry.receipt(rt, alloc, seat, passed.index)?),
        PassOutcome::Unset | PassOutcome::NoTerm { .. } => Ok(None),
    }
}

// Asks the registry that `L` names: what that is, the call above picks.
fn asked_by<L: Label, R: Wait>(
    rt: &R,
    alloc: Global,
    blank: Blank,
    config: Config,
    asks: &[Ask],
) -> Result<Closed, NodeFault>
    requires name { blank.name ≡ L.name }
    requires parts { (blank.parts ≡ L.parts) × (L.parts ≡ 1) }
    requires config { config ≡ L.config }
    requires seed { replicate 32 0 ≡ L.seed }
    requires keeps { L.keeps ≡ true }
    ensures legal { IfOk result (λ c. IsLegal config (map (call_from config.nodes) c.trace.calls)) }
    ensures entries { IfOk result (λ c. length c.trace.calls ≡ c.calls) }
{
    let (registry, seats) = Registry::<L>::start(rt, alloc, blank, config, [0; 32], 1)?;
    let seats = made(rt, alloc, &registry, seats, asks);
    Ok(registry.close(seats))
}

// Makes the calls from the last seat. A refused one is left out.
fn made<L: Label, R: Wait>(
    rt: &R,
    alloc: Global,
    registry: &Registry<L>,
    mut seats: Vec<Seat<L>>,
    asks: &[Ask],
) -> Vec<Seat<L>>
    ensures { vec_len result ≡ vec_len seats }
{
    let Some(mut seat) = seats.pop() else {
        return seats;
    };
    for ask in asks {
        let _ = registry.enter(rt, alloc, &mut seat, ask);
    }
    seats.push_reserved(seat);
    seats
}

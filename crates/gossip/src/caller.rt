//! How a registry is called.

ghost use Rattle.std.specs.Prelude.{◌≡◌, ◌++◌, ◌∷◌, [], IfErr, IfOk, OnErr, OnOk};
ghost use Rattle.node_calls.specs.Asks.{ask_value_first};
ghost use Rattle.node_registry.specs.Receipts.{IsGiven, IsRefused};
ghost use Rattle.node_registry.specs.Seats.{ComesNext, called};

use node_core::{Ask, NodeFault, Receipt};
use node_registry::{Label, Refusals, Registry, Seat};
use std::alloc::Global;
use std::sync::Wait;

/// A registry, and what each call of it takes beside a seat.
#[derive(Drop)]
pub struct Caller<'a, L: Label, R> {
    pub rt: &'a R,
    pub alloc: Global,
    pub registry: &'a Registry<L>,
}

impl<L: Label, R: Wait> Caller<'_, L, R> {
    /// Makes a call, and notes it where the node refuses it.
    pub fn enter(
        &self,
        seat: &mut Seat<L>,
        ask: Ask,
        noted: &mut Refusals,
    ) -> Result<Receipt, NodeFault>
        ensures asked { IfOk result (λ r. r.entry.ask ≡ ask) }
        ensures given { IfOk result (IsGiven L.config L.seed) }
        ensures since { IfOk result (λ r. ComesNext seat.old r.index) }
        ensures counted { IfOk result (λ r. seat.new ≡ called seat.old r.index) }
        ensures refused { IfErr result
            (IsRefused L.config L.seed (ask_value_first L.config.nodes ask)) }
        ensures err { OnErr result (seat.new ≡ seat.old) }
        ensures noted { IfErr result (λ fault. noted.new ≡ noted.old ++ (ask, fault) ∷ []) }
        ensures unnoted { OnOk result (noted.new ≡ noted.old) }
    {
        self.registry
            .enter_noting(self.rt, self.alloc, seat, ask, noted)
    }
}

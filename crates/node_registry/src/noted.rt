//! The calls that a node refused, which contracts alone read.

ghost use Rattle.std.specs.Prelude.{◌≡◌, ◌++◌, ◌∷◌, [], IfOk, IfErr, OnErr, OnOk};
ghost use Rattle.node_calls.specs.Asks.{ask_value_first};
ghost use Rattle.node_registry.specs.Receipts.{IsGiven, IsRefused};
ghost use Rattle.node_registry.specs.Seats.{ComesNext, called};

use crate::guarded::Seat;
use crate::label::Label;
use crate::registry::Registry;
use history::Log;
use node_core::{Ask, NodeFault, Receipt};
use std::alloc::Global;
use std::marker::Model;
use std::snapshot::Snapshot;
use std::sync::Wait;

/// A call that was refused.
#[derive(Drop)]
pub struct Refused {
    ask: Snapshot<Ask>,
    fault: NodeFault,
}

/// The calls that a node refused, the first one first. Only `Registry::enter_noting` puts one behind
/// them, so a call is among them only if it was asked. They take no memory: contracts see what each
/// asked, and why it was refused.
#[derive(Drop)]
pub struct Refusals {
    noted: Log<Refused>,
}

impl Model for Refusals {
    ghost use Rattle.std.specs.Prelude.{List, map};
    ghost use Rattle.node_registry.specs.Refusals.{Refusal, refusal_of};

    ghost Value = { List Refusal };

    ghost view = { λ r. map refusal_of r.noted.items };
}

impl Refusals {
    /// Of no call.
    pub fn new() -> Refusals
        ensures { result ≡ [] }
    {
        Refusals { noted: Log::new() }
    }

    // With a call more.
    fn note(&mut self, ask: Snapshot<Ask>, fault: NodeFault)
        ensures { self.new ≡ self.old ++ (ask.value, fault) ∷ [] }
    {
        let refused = Refused { ask, fault };
        self.noted.add(&refused);
    }
}

impl<L: Label> Registry<L> {
    /// Makes a call as `enter_owned` does, and notes it where the node refuses it.
    pub fn enter_noting<R: Wait>(
        &self,
        rt: &R,
        alloc: Global,
        seat: &mut Seat<L>,
        ask: Ask,
        refusals: &mut Refusals,
    ) -> Result<Receipt, NodeFault>
        ensures node { IfOk result (λ r. r.node ≡ L.config.node) }
        ensures asked { IfOk result (λ r. r.entry.ask ≡ ask) }
        ensures given { IfOk result (IsGiven L.config L.seed) }
        ensures since { IfOk result (λ r. ComesNext seat.old r.index) }
        ensures counted { IfOk result (λ r. seat.new ≡ called seat.old r.index) }
        ensures refused { IfErr result
            (IsRefused L.config L.seed (ask_value_first L.config.nodes ask)) }
        ensures err { OnErr result (seat.new ≡ seat.old) }
        ensures noted { IfErr result (λ fault.
            refusals.new ≡ refusals.old ++ (ask, fault) ∷ []) }
        ensures unnoted { OnOk result (refusals.new ≡ refusals.old) }
    {
        let asked = Snapshot::of(&ask);
        match self.enter_owned(rt, alloc, seat, ask) {
            Ok(receipt) => Ok(receipt),
            Err(fault) => {
                refusals.note(asked, fault);
                Err(fault)
            }
        }
    }
}

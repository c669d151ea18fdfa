//! Seats that are done.

ghost use Rattle.std.specs.Prelude.{◌≡◌, ◌+◌, ◌++◌, ◌∷◌, [], false, map, vec_len, All, IfOk};
ghost use Rattle.std.specs.Prelude.{OnOk};
ghost use Rattle.std.specs.List.{sum_by};
ghost use Rattle.node_registry.specs.Receipts.{AreGivenSince};
ghost use Rattle.node_registry.specs.Seats.{calls_from, new_seat};
ghost use Rattle.thread_workers.specs.Calls.{lack_memory};
ghost use Rattle.thread_workers.specs.Workers.{AreListsAt};

use crate::lists::put_behind;
use node_core::{NodeFault, Receipt};
use node_registry::{Done, Label, Seat};
use std::alloc::{AllocError, Global};

/// The seats of a node that are done, and of each the receipts of its calls, in their order.
#[derive(Drop)]
pub struct Finished<L: Label> {
    pub seats: Vec<Seat<L>>,
    pub lists: Vec<Vec<Receipt>>,
    ghost each: { vec_len lists ≡ vec_len seats },
    ghost counted: { calls_from seats.items ≡ sum_by (λ list. vec_len list) lists.items },
}

// Whether one of these refusals is out of memory.
fn lack_memory(faults: &[(u32, NodeFault)]) -> bool
    ensures { result ≡ lack_memory faults.now }
{
    faults
        .iter()
        .any(|(_, fault)| matches!(fault, NodeFault::OutOfMemory))
}

impl<L: Label> Finished<L> {
    /// No seat.
    pub fn new(alloc: Global) -> Finished<L>
        ensures len { vec_len result.seats ≡ 0 }
        ensures none { result.lists.items ≡ [] }
        ensures given { AreListsAt L.config L.seed result.lists.items }
    {
        Finished {
            seats: Vec::new(alloc),
            lists: Vec::new(alloc),
        }
    }

    /// With one seat more, and all receipts of its calls.
    pub fn with(self, seat: Seat<L>, receipts: Vec<Receipt>) -> Result<Finished<L>, AllocError>
        requires counted { seat.calls ≡ vec_len receipts }
        requires given { AreListsAt L.config L.seed self.lists.items }
        requires more { AreGivenSince L.config L.seed new_seat receipts.items }
        ensures len { IfOk result (λ all. vec_len all.seats ≡ vec_len self.seats + 1) }
        ensures given { IfOk result (λ all. AreListsAt L.config L.seed all.lists.items) }
        ensures lists { IfOk result (λ all.
            all.lists.items ≡ self.lists.items ++ receipts ∷ []) }
    {
        let Finished {
            mut seats,
            mut lists,
        } = self;
        seats.push(seat)?;
        lists.push(receipts)?;
        Ok(Finished { seats, lists })
    }

    /// With all seats of others behind them.
    pub fn with_all(self, others: Finished<L>) -> Result<Finished<L>, AllocError>
        requires given { AreListsAt L.config L.seed self.lists.items }
        requires more { AreListsAt L.config L.seed others.lists.items }
        ensures len { IfOk result (λ all.
            vec_len all.seats ≡ vec_len self.seats + vec_len others.seats) }
        ensures given { IfOk result (λ all. AreListsAt L.config L.seed all.lists.items) }
        ensures lists { IfOk result (λ all.
            all.lists.items ≡ self.lists.items ++ others.lists.items) }
    {
        let Finished {
            mut seats,
            mut lists,
        } = self;
        let Finished {
            seats: more,
            lists: others,
        } = others;
        put_behind(&mut seats, more)?;
        put_behind(&mut lists, others)?;
        Ok(Finished { seats, lists })
    }

    /// With the seats of workers that are done, where none was refused memory.
    pub(crate) fn with_workers(self, dones: Vec<Done<L>>) -> Result<Finished<L>, AllocError>
        requires counted { All (λ d. d.seat.calls ≡ vec_len d.receipts) dones.items }
        requires given { AreListsAt L.config L.seed self.lists.items }
        requires more { All (λ d. AreGivenSince L.config L.seed new_seat d.receipts.items)
            dones.items }
        ensures len { IfOk result (λ all.
            vec_len all.seats ≡ vec_len self.seats + vec_len dones) }
        ensures given { IfOk result (λ all. AreListsAt L.config L.seed all.lists.items) }
        ensures lists { IfOk result (λ all.
            all.lists.items ≡ self.lists.items ++ map (λ d. d.receipts) dones.items) }
        ensures memory { OnOk result
            (All (λ d. lack_memory d.faults.items ≡ false) dones.items) }
    {
        let mut finished = self;
        for done in dones {
            let Done {
                seat,
                started: _,
                receipts,
                faults,
                refusals: _,
            } = done;
            if lack_memory(&faults) {
                return Err(AllocError);
            }
            finished = finished.with(seat, receipts)?;
        }
        Ok(finished)
    }
}

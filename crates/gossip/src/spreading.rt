//! Spreading a node's rights.

ghost use Rattle.std.specs.Prelude.{◌≡◌, ◌+◌, ◌<◌, ◌≤◌, ◌^◌, ◌∷◌, ◌⊎◌, [], length, slice_index, OnOk};
ghost use Rattle.node_calls.specs.Asks as asks;
ghost use Rattle.gossip.specs.Reports.{IsTold};
ghost use Rattle.gossip.specs.Spreads.{HasNoMessage, Spreads, SpreadsNothing, share_of, shares_of};
ghost use Rattle.gossip.specs.Spreads.{shifts_below, shifts_in};
ghost use Rattle.gossip.specs.Steps.{Adds};

use crate::caller::Caller;
use crate::report::{Ended, GossipReport};
use actions::{MAX_TERMS, Name, NameFault};
use node_core::{Ask, Config, NodeCore};
use node_registry::{Label, Registry, Seat};
use std::alloc::{AllocError, Global};
use std::sync::Wait;

/// Shifts an equal share of each counted term of a point to every other node: the rights that the
/// node has, which are read once, divided by the number of nodes and rounded down, at most 2^64 - 1.
/// Shares of 0 are left out, and of a point that isn't set there is nothing to share. A shift that
/// the node refuses is counted, and the others go on. Out of memory ends the spread. Room for a
/// receipt is made before its call.
pub fn spread<L: Label, R: Wait>(
    rt: &R,
    alloc: Global,
    registry: &Registry<L>,
    seat: &mut Seat<L>,
    name: &str,
) -> GossipReport
    ensures told { IsTold L.config L.seed seat.old seat.new result }
    ensures spread { Spreads L.config L.seed name.now result ⊎ SpreadsNothing name.now result }
    ensures no_message { HasNoMessage result }
{
    let caller = Caller {
        rt,
        alloc,
        registry,
    };
    let mut report = GossipReport::new(alloc);
    match Name::parse(alloc, name) {
        Ok(point) => {
            let shares = registry.with(rt, |core| Shares::of(core, &point));
            if shift_all(&caller, seat, name, &shares, &mut report).is_err() {
                report.ended = Ended::OutOfMemory;
            }
        }
        Err(NameFault::BadName) => {}
        Err(NameFault::OutOfMemory) => report.ended = Ended::OutOfMemory,
    }
    report
}

// The share of each term that every other node is given, of a node of this configuration.
#[derive(Drop)]
struct Shares {
    config: Config,
    amounts: [u64; 16],
}

impl Shares {
    fn of(core: &NodeCore, name: &Name) -> Shares
        ensures config { result.config ≡ core.now.config }
        ensures amounts { result.amounts ≡ shares_of core.now name.now }
    {
        let mut amounts = [0; 16];
        for term in 0..MAX_TERMS {
            amounts[usize::from(term)] = share(core, name, term);
        }
        Shares {
            config: core.config(),
            amounts,
        }
    }
}

// The share of a term.
fn share(core: &NodeCore, name: &Name, term: u8) -> u64
    ensures { result ≡ share_of core.now name.now term }
{
    let Config { node, nodes, .. } = core.config();
    let rights = core.rights(name, term, node).unsigned_abs();
    if nodes == 0 {
        return 0;
    }
    u64::try_from(rights / u128::from(nodes)).unwrap_or(u64::MAX)
}

// Shifts the share of each term to every other node.
fn shift_all<L: Label, R: Wait>(
    caller: &Caller<'_, L, R>,
    seat: &mut Seat<L>,
    name: &str,
    shares: &Shares,
    report: &mut GossipReport,
) -> Result<(), AllocError>
    requires config { shares.now.config ≡ L.config }
    requires few { report.old.refused ≡ 0 }
    ensures adds { Adds L.config L.seed seat.old seat.new report.old report.new
        (shifts_in L.config name.now shares.now.amounts 16) }
    ensures emitted { report.new.emitted ≡ report.old.emitted }
    ensures delivered { report.new.delivered ≡ report.old.delivered }
    ensures tried { OnOk result (length report.new.receipts.items + report.new.refused
        ≡ length report.old.receipts.items + report.old.refused
        + length (shifts_in L.config name.now shares.now.amounts 16)) }
{
    for term in 0..MAX_TERMS {
        shift_term(caller, seat, name, shares, term, report)?;
    }
    Ok(())
}

// Shifts the share of a term to every other node.
fn shift_term<L: Label, R: Wait>(
    caller: &Caller<'_, L, R>,
    seat: &mut Seat<L>,
    name: &str,
    shares: &Shares,
    term: u8,
    report: &mut GossipReport,
) -> Result<(), AllocError>
    requires config { shares.now.config ≡ L.config }
    requires term { term < 16 }
    requires few { report.old.refused < 2 ^ 63 }
    ensures adds { Adds L.config L.seed seat.old seat.new
        report.old report.new (shifts_below L.config
        name.now term (slice_index shares.now.amounts term) L.config.nodes) }
    ensures emitted { report.new.emitted ≡ report.old.emitted }
    ensures delivered { report.new.delivered ≡ report.old.delivered }
    ensures tried { OnOk result (length report.new.receipts.items + report.new.refused
        ≡ length report.old.receipts.items + report.old.refused + length (shifts_below L.config
        name.now term (slice_index shares.now.amounts term) L.config.nodes)) }
    ensures few { report.new.refused < report.old.refused + 2 ^ 8 }
{
    let amount = shares.amounts[usize::from(term)];
    if amount == 0 {
        return Ok(());
    }
    for to in 0..shares.config.nodes {
        if to != shares.config.node {
            shift_one(caller, seat, name, term, to, amount, report)?;
        }
    }
    Ok(())
}

// Shifts so much of a term to a node.
fn shift_one<L: Label, R: Wait>(
    caller: &Caller<'_, L, R>,
    seat: &mut Seat<L>,
    name: &str,
    term: u8,
    to: u8,
    amount: u64,
    report: &mut GossipReport,
) -> Result<(), AllocError>
    requires { report.old.refused + 1 < 2 ^ 64 }
    ensures adds { Adds L.config L.seed seat.old seat.new report.old report.new
        (asks.Shift name.now term to amount ∷ []) }
    ensures emitted { report.new.emitted ≡ report.old.emitted }
    ensures delivered { report.new.delivered ≡ report.old.delivered }
    ensures tried { OnOk result (length report.new.receipts.items + report.new.refused
        ≡ length report.old.receipts.items + report.old.refused + 1) }
    ensures few { report.new.refused ≤ report.old.refused + 1 }
{
    report.receipts.reserve(1)?;
    let ask = Ask::Shift {
        name: String::from_str(caller.alloc, name)?,
        term,
        to,
        amount,
    };
    match caller.enter(seat, ask, &mut report.noted) {
        Ok(receipt) => {
            report.receipts.push_reserved(receipt);
            Ok(())
        }
        Err(fault) => report.refuse(fault),
    }
}

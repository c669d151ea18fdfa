//! Rounds of gossip.

ghost use Rattle.std.specs.Prelude.{◌≡◌, ◌+◌, ◌*◌, ◌≤◌, ◌<◌, ◌-◌, ◌^◌, [], ◌∷◌, length, vec_len};
ghost use Rattle.std.specs.Prelude.{cond, is_some, vec_capacity, IfOk, IfSome, OnErr, OnOk, Some, true};
ghost use Rattle.std.specs.Prelude.{◌++◌, slice_set};
ghost use Rattle.gossip.specs.Attempts.{IsWhy, Tries, attempt_by, failed_by, with_tries};
ghost use Rattle.node_calls.specs.Asks.{bare_emit};
ghost use Rattle.node_registry.specs.Receipts.{IsGiven};
ghost use Rattle.node_calls.specs.Told.{reply_told};
ghost use Rattle.gossip.specs.Carried.{Carried, bytes_told, others_in_rounds};
ghost use Rattle.gossip.specs.Parts.{IsPartOf};
ghost use Rattle.gossip.specs.Reports.{IsTold, asked_in, calls_of, emits_below, emits_of_rounds};
ghost use Rattle.gossip.specs.Reports.{is_emit, others_below, own_asks_in, tried_of};
ghost use Rattle.gossip.specs.Steps.{Adds, Moves, Stops};
ghost use Rattle.gossip.specs.Traffic.{Traffic, sends, takes};

use crate::caller::Caller;
use crate::failures::AttemptFault;
use crate::report::{Ended, GossipReport};
use crate::wire::{Wire, WireError};
use gossip_pace::sender_of;
use node_core::{Ask, Config, Receipt, Reply};
use node_registry::{Label, Registry, Seat};
use std::alloc::{AllocError, Global};
use std::sync::Wait;

/// The most messages that a round takes in.
pub const MOST_TAKEN: u8 = 64;

/// Does so many rounds of gossip, without a pause. Each round makes a message to every other node, in
/// the order of their numbers, and sends it; then it takes in what the wire brings, at most 64
/// messages. A message that couldn't be sent is counted, and the round goes on; where none could be
/// taken, the round ends; a call that the node refuses is counted. Out of memory, also on the wire,
/// ends the rounds. Room for a receipt is made before its call, and so is room to tell that a message
/// isn't sent, or is rejected. So each such message is in the report.
pub fn gossip_rounds<L: Label, W: Wire, R: Wait>(
    rt: &R,
    alloc: Global,
    registry: &Registry<L>,
    seat: &mut Seat<L>,
    wire: &mut W,
    rounds: u32,
) -> GossipReport
    ensures told { IsTold L.config L.seed seat.old seat.new result }
    // What the node was asked beside taking messages in.
    ensures emits { IsPartOf (own_asks_in L.config result.receipts.items)
        (emits_of_rounds L.config rounds) }
    // Each round made a message to every other node, or was refused it.
    ensures all { result.ended ≡ Ended.Done →
        length (emits_of_rounds L.config rounds) ≤ tried_of result }
    ensures few { calls_of result ≤ length (emits_of_rounds L.config rounds) + rounds * MOST_TAKEN }
    // What became of each message that was made, and of each that was taken.
    ensures carried { Carried L.config L.seed (W.traffic wire.old) (W.traffic wire.new)
        rounds result }
{
    let caller = Caller {
        rt,
        alloc,
        registry,
    };
    let Config { node, nodes, .. } = registry.with(rt, |core| core.config());
    let mut report = GossipReport::new(alloc);
    if do_rounds(&caller, seat, wire, node, nodes, rounds, &mut report).is_err() {
        report.ended = Ended::OutOfMemory;
    }
    report
}

// The rounds, until memory is refused.
fn do_rounds<L: Label, W: Wire, R: Wait>(
    caller: &Caller<'_, L, R>,
    seat: &mut Seat<L>,
    wire: &mut W,
    node: u8,
    nodes: u8,
    rounds: u32,
    report: &mut GossipReport,
) -> Result<(), AllocError>
    requires place { (node ≡ L.config.node) × (nodes ≡ L.config.nodes) }
    requires room { calls_of report.old ≡ 0 }
    ensures adds { Adds L.config L.seed seat.old seat.new report.old report.new
        (emits_of_rounds L.config rounds) }
    ensures tried { OnOk result (tried_of report.old + length (emits_of_rounds L.config rounds)
        ≤ tried_of report.new) }
    ensures few { calls_of report.new
        ≤ length (emits_of_rounds L.config rounds) + rounds * MOST_TAKEN }
    ensures moves { OnOk result (Moves L.config L.seed (W.traffic wire.old)
        (W.traffic wire.new) report.old report.new (others_in_rounds L.config rounds) []) }
    ensures stops { OnErr result (Stops L.config L.seed (W.traffic wire.old)
        (W.traffic wire.new) report.old report.new (others_in_rounds L.config rounds)) }
{
    for _round in 0..rounds {
        round(caller, seat, wire, node, nodes, report)?;
    }
    Ok(())
}

// One round.
fn round<L: Label, W: Wire, R: Wait>(
    caller: &Caller<'_, L, R>,
    seat: &mut Seat<L>,
    wire: &mut W,
    node: u8,
    nodes: u8,
    report: &mut GossipReport,
) -> Result<(), AllocError>
    requires place { (node ≡ L.config.node) × (nodes ≡ L.config.nodes) }
    requires room { calls_of report.old < 2 ^ 62 }
    ensures adds { Adds L.config L.seed seat.old seat.new report.old report.new
        (emits_below L.config L.config.nodes) }
    ensures tried { OnOk result (tried_of report.old + length (emits_below L.config L.config.nodes)
        ≤ tried_of report.new) }
    ensures few { calls_of report.new
        ≤ calls_of report.old + length (emits_below L.config L.config.nodes) + MOST_TAKEN }
    ensures moves { OnOk result (Moves L.config L.seed (W.traffic wire.old)
        (W.traffic wire.new) report.old report.new (others_below L.config L.config.nodes) []) }
    ensures stops { OnErr result (Stops L.config L.seed (W.traffic wire.old)
        (W.traffic wire.new) report.old report.new (others_below L.config L.config.nodes)) }
{
    tell(caller, seat, wire, node, nodes, report)?;
    hear(caller, seat, wire, report)
}

// Makes a message to each other node, and sends it.
fn tell<L: Label, W: Wire, R: Wait>(
    caller: &Caller<'_, L, R>,
    seat: &mut Seat<L>,
    wire: &mut W,
    node: u8,
    nodes: u8,
    report: &mut GossipReport,
) -> Result<(), AllocError>
    requires place { (node ≡ L.config.node) × (nodes ≡ L.config.nodes) }
    requires room { calls_of report.old < 2 ^ 62 }
    ensures adds { Adds L.config L.seed seat.old seat.new report.old report.new
        (emits_below L.config L.config.nodes) }
    ensures tried { OnOk result (tried_of report.old + length (emits_below L.config L.config.nodes)
        ≤ tried_of report.new) }
    ensures few { calls_of report.new
        ≤ calls_of report.old + length (emits_below L.config L.config.nodes) }
    ensures moves { OnOk result (Moves L.config L.seed (W.traffic wire.old)
        (W.traffic wire.new) report.old report.new (others_below L.config L.config.nodes) []) }
    ensures stops { OnErr result (Stops L.config L.seed (W.traffic wire.old)
        (W.traffic wire.new) report.old report.new (others_below L.config L.config.nodes)) }
{
    for to in 0..nodes {
        if to != node {
            tell_one(caller, seat, wire, to, report)?;
        }
    }
    Ok(())
}

/// Makes a message to a node, and sends it. Answers why none was sent, if none was: the message is lost, or
/// the node refused to make it.
pub(crate) fn tell_one<L: Label, W: Wire, R: Wait>(
    caller: &Caller<'_, L, R>,
    seat: &mut Seat<L>,
    wire: &mut W,
    to: u8,
    report: &mut GossipReport,
) -> Result<Option<AttemptFault>, AllocError>
    requires { calls_of report.old < 2 ^ 63 }
    ensures adds { Adds L.config L.seed seat.old seat.new
        report.old report.new (bare_emit to ∷ []) }
    ensures tried { OnOk result (tried_of report.old + 1 ≤ tried_of report.new) }
    ensures few { calls_of report.new ≤ calls_of report.old + 1 }
    ensures missed { IfOk result (λ why. report.new.lost + report.new.refused
        ≡ report.old.lost + report.old.refused + cond (is_some why) 1 0) }
    ensures why { IfOk result (λ why. (IfSome why (IsWhy L.config L.seed to))
        × (report.new.attempts ≡ slice_set report.old.attempts to (attempt_by why))
        × (report.new.failed.items
        ≡ report.old.failed.items ++ failed_by to (attempt_by why))) }
    ensures tries { OnErr result ((tries : Tries)
        × (report.new.attempts ≡ with_tries tries report.old.attempts)) }
    ensures moves { OnOk result (Moves L.config L.seed (W.traffic wire.old)
        (W.traffic wire.new) report.old report.new (to ∷ []) []) }
    ensures stops { OnErr result (Stops L.config L.seed (W.traffic wire.old)
        (W.traffic wire.new) report.old report.new (to ∷ [])) }
{
    report.receipts.reserve(1)?;
    report.failed.reserve(1)?;
    match caller.enter(seat, Ask::Emit { to }, &mut report.noted) {
        Ok(receipt) => {
            let sent = send(caller, wire, to, &receipt);
            report.record_emit(receipt, to, sent);
            match sent {
                Err(WireError::OutOfMemory) => Err(AllocError),
                Err(why) => Ok(Some(AttemptFault::NotSent(why))),
                Ok(()) => Ok(None),
            }
        }
        Err(fault) => {
            report.refuse_emit(to, fault)?;
            Ok(Some(AttemptFault::NotMade(fault)))
        }
    }
}

// Sends the message of a receipt.
fn send<L: Label, W: Wire, R: Wait>(
    caller: &Caller<'_, L, R>,
    wire: &mut W,
    to: u8,
    receipt: &Receipt,
) -> Result<(), WireError>
    requires given { IsGiven L.config L.seed receipt.now }
    requires emit { is_emit (asked_in L.config receipt.now) ≡ true }
    ensures ok { OnOk result (W.traffic wire.new
        ≡ sends to (bytes_told (reply_told receipt.now.entry.reply)) (W.traffic wire.old)) }
    ensures err { OnErr result (W.traffic wire.new ≡ W.traffic wire.old) }
{
    match &receipt.entry.reply {
        Reply::Emit(message) => wire.send(caller.rt, caller.alloc, to, message),
        _ => unreachable!(),
    }
}

/// Takes in what the wire brings, as far as a round does.
pub(crate) fn hear<L: Label, W: Wire, R: Wait>(
    caller: &Caller<'_, L, R>,
    seat: &mut Seat<L>,
    wire: &mut W,
    report: &mut GossipReport,
) -> Result<(), AllocError>
    requires { calls_of report.old < 2 ^ 63 }
    ensures adds { Adds L.config L.seed seat.old seat.new report.old report.new [] }
    ensures tried { tried_of report.old ≤ tried_of report.new }
    ensures few { calls_of report.new ≤ calls_of report.old + MOST_TAKEN }
    ensures attempts { (report.new.attempts ≡ report.old.attempts)
        × (report.new.failed.items ≡ report.old.failed.items) }
    ensures moves { OnOk result (Moves L.config L.seed (W.traffic wire.old)
        (W.traffic wire.new) report.old report.new [] []) }
    ensures stops { OnErr result (Stops L.config L.seed (W.traffic wire.old)
        (W.traffic wire.new) report.old report.new []) }
{
    for _taken in 0..MOST_TAKEN {
        if !hear_one(caller, seat, wire, report)? {
            break;
        }
    }
    Ok(())
}

// Takes in a message, and says whether there was one. Room for its receipt, and for it if it is
// rejected, is made before it is taken from the wire.
fn hear_one<L: Label, W: Wire, R: Wait>(
    caller: &Caller<'_, L, R>,
    seat: &mut Seat<L>,
    wire: &mut W,
    report: &mut GossipReport,
) -> Result<bool, AllocError>
    requires { calls_of report.old < 2 ^ 64 - 1 }
    ensures adds { Adds L.config L.seed seat.old seat.new report.old report.new [] }
    ensures tried { tried_of report.old ≤ tried_of report.new }
    ensures few { calls_of report.new ≤ calls_of report.old + 1 }
    ensures attempts { (report.new.attempts ≡ report.old.attempts)
        × (report.new.failed.items ≡ report.old.failed.items) }
    ensures moves { OnOk result (Moves L.config L.seed (W.traffic wire.old)
        (W.traffic wire.new) report.old report.new [] []) }
    ensures stops { OnErr result (Stops L.config L.seed (W.traffic wire.old)
        (W.traffic wire.new) report.old report.new []) }
{
    report.receipts.reserve(1)?;
    report.rejected.reserve(1)?;
    match wire.take(caller.rt, caller.alloc) {
        Ok(Some(message)) => {
            take_in(caller, seat, message, report)?;
            Ok(true)
        }
        Ok(None) => Ok(false),
        Err(WireError::OutOfMemory) => Err(AllocError),
        Err(_) => Ok(false),
    }
}

// Takes in a message for whose receipt there is room, and for it if it is rejected.
fn take_in<L: Label, R: Wait>(
    caller: &Caller<'_, L, R>,
    seat: &mut Seat<L>,
    message: Vec<u8>,
    report: &mut GossipReport,
) -> Result<(), AllocError>
    requires room { vec_len report.old.receipts < vec_capacity report.old.receipts }
    requires room_to_reject { vec_len report.old.rejected < vec_capacity report.old.rejected }
    requires few { calls_of report.old < 2 ^ 64 - 1 }
    ensures adds { Adds L.config L.seed seat.old seat.new report.old report.new [] }
    ensures tried { tried_of report.old ≤ tried_of report.new }
    ensures few { calls_of report.new ≤ calls_of report.old + 1 }
    ensures attempts { (report.new.attempts ≡ report.old.attempts)
        × (report.new.failed.items ≡ report.old.failed.items) }
    ensures moves { (was : Traffic) → OnOk result (Moves L.config L.seed
        was (takes (Some message.items) was) report.old report.new [] []) }
    ensures stops { (was : Traffic) → OnErr result (Stops L.config L.seed
        was (takes (Some message.items) was) report.old report.new []) }
{
    let sender = sender_of(&message);
    match caller.enter(seat, Ask::Deliver { message }, &mut report.noted) {
        Ok(receipt) => {
            report.record_delivery(receipt);
            Ok(())
        }
        Err(fault) => report.reject(sender, fault),
    }
}

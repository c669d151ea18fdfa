//! Rounds of gossip that tell only news.

ghost use Rattle.std.specs.Prelude.{◌≡◌, ◌≤◌, ◌+◌, ◌<◌, ◌^◌, [], ◌∷◌, length, IfOk, OnErr, OnOk};
ghost use Rattle.gossip.specs.declared.rounds.TheConstants.{MOST_TAKEN};
ghost use Rattle.gossip.specs.News.{IsSeen, Says};
ghost use Rattle.gossip.specs.NewsRounds.{Breaks, IsEmpty, IsNewsBroken, IsNewsRound, Looks};
ghost use Rattle.gossip.specs.Reports.{IsTold, calls_of};

use crate::caller::Caller;
use crate::failures::{Attempt, AttemptFault};
use crate::report::{Ended, GossipReport};
use crate::rounds::{hear, tell_one};
use crate::wire::Reach;
use gossip_pace::{News, Pace};
use node_registry::{Label, Registry, Seat};
use std::alloc::{AllocError, Global};
use std::sync::Wait;

/// Does a round of gossip that tells only news. Each of these peers is looked at, in their order: where
/// the node has something to tell it, its time has come, and the wire reaches it, a message is made and
/// sent. Its pace says when it is looked for again. Where nothing is due, and where the peer isn't
/// reached, no message is made, and the node isn't called.
/// Then the round takes in what the wire brings, at most 64 messages. A message that couldn't be sent
/// is counted and told, and so is one that the node rejects; any other call that it refuses is counted.
/// Out of memory, also on the wire, ends the round.
pub fn gossip_news<L: Label, W: Reach, R: Wait>(
    rt: &R,
    alloc: Global,
    registry: &Registry<L>,
    seat: &mut Seat<L>,
    wire: &mut W,
    paces: &mut [Pace],
) -> GossipReport
    requires { length paces.old < 2 ^ 32 }
    ensures told { IsTold L.config L.seed seat.old seat.new result }
    ensures few { calls_of result ≤ length paces.old + MOST_TAKEN }
    ensures round { result.ended ≡ Ended.Done → IsNewsRound L.config L.seed seat.old.calls
        (Says W.reached) (W.traffic wire.old) (W.traffic wire.new) paces.old paces.new result }
    ensures broken { result.ended ≡ Ended.OutOfMemory → IsNewsBroken L.config L.seed seat.old.calls
        (Says W.reached) (W.traffic wire.old) (W.traffic wire.new) paces.old paces.new result }
{
    let caller = Caller {
        rt,
        alloc,
        registry,
    };
    let mut report = GossipReport::new(alloc);
    if round(&caller, seat, wire, paces, &mut report).is_err() {
        report.ended = Ended::OutOfMemory;
    }
    report
}

// Looks at each peer, and takes in what comes.
fn round<L: Label, W: Reach, R: Wait>(
    caller: &Caller<'_, L, R>,
    seat: &mut Seat<L>,
    wire: &mut W,
    paces: &mut [Pace],
    report: &mut GossipReport,
) -> Result<(), AllocError>
    requires few { length paces.old < 2 ^ 32 }
    requires empty { IsEmpty report.old }
    ensures told { IsTold L.config L.seed seat.old seat.new report.new }
    ensures few { calls_of report.new ≤ length paces.old + MOST_TAKEN }
    ensures ended { report.new.ended ≡ report.old.ended }
    ensures round { OnOk result (IsNewsRound L.config L.seed seat.old.calls (Says W.reached)
        (W.traffic wire.old) (W.traffic wire.new) paces.old paces.new report.new) }
    ensures broken { OnErr result (IsNewsBroken L.config L.seed seat.old.calls (Says W.reached)
        (W.traffic wire.old) (W.traffic wire.new) paces.old paces.new report.new) }
{
    look_at_all(caller, seat, wire, paces, report)?;
    hear(caller, seat, wire, report)
}

// Looks at each peer.
fn look_at_all<L: Label, W: Reach, R: Wait>(
    caller: &Caller<'_, L, R>,
    seat: &mut Seat<L>,
    wire: &mut W,
    paces: &mut [Pace],
    report: &mut GossipReport,
) -> Result<(), AllocError>
    requires few { length paces.old < 2 ^ 32 }
    requires room { calls_of report.old < 2 ^ 32 }
    ensures few { calls_of report.new ≤ calls_of report.old + length paces.old }
    ensures looks { OnOk result (Looks L.config L.seed seat.old.calls (Says W.reached)
        seat.old seat.new (W.traffic wire.old) (W.traffic wire.new) report.old report.new
        paces.old paces.new) }
    ensures breaks { OnErr result (Breaks L.config L.seed seat.old.calls (Says W.reached)
        seat.old seat.new (W.traffic wire.old) (W.traffic wire.new) report.old report.new
        paces.old paces.new) }
{
    for pace in paces.iter_mut() {
        *pace = look_at(caller, seat, wire, *pace, report)?;
    }
    Ok(())
}

// Looks at a peer, tells it if that is due and it is reached, and answers its pace after that.
fn look_at<L: Label, W: Reach, R: Wait>(
    caller: &Caller<'_, L, R>,
    seat: &mut Seat<L>,
    wire: &mut W,
    pace: Pace,
    report: &mut GossipReport,
) -> Result<Pace, AllocError>
    requires { calls_of report.old < 2 ^ 63 }
    ensures few { calls_of report.new ≤ calls_of report.old + 1 }
    ensures looks { IfOk result (λ after. Looks L.config L.seed seat.old.calls (Says W.reached)
        seat.old seat.new (W.traffic wire.old) (W.traffic wire.new) report.old report.new
        (pace ∷ []) (after ∷ [])) }
    ensures breaks { OnErr result (Breaks L.config L.seed seat.old.calls (Says W.reached)
        seat.old seat.new (W.traffic wire.old) (W.traffic wire.new) report.old report.new
        (pace ∷ []) (pace ∷ [])) }
{
    let news = news_for(caller, seat, pace.node);
    if !pace.is_due(news) {
        return Ok(pace.rested());
    }
    if !wire.reaches(caller.rt, caller.alloc, pace.node) {
        report.note_attempt(pace.node, Attempt::Failed(AttemptFault::Unreached));
        return Ok(pace.missed());
    }
    match tell_one(caller, seat, wire, pace.node, report)? {
        None => Ok(pace.told(news)),
        Some(_) => Ok(pace.missed()),
    }
}

// What there is to tell a peer.
fn news_for<L: Label, R: Wait>(caller: &Caller<'_, L, R>, seat: &mut Seat<L>, peer: u8) -> News
    ensures seen { IsSeen L.config L.seed seat.old.calls peer result }
    ensures same { seat.new ≡ seat.old }
{
    caller
        .registry
        .with_seat(caller.rt, seat, |core| News::of(core, peer))
}

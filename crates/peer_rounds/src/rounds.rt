//! Rounds that tell the peers of a served node.

ghost use Rattle.std.specs.Prelude.{◌≡◌, ◌≤◌, ◌<◌, ◌^◌, ◌+◌, ◌*◌, [], length, IfSome, MatchOption};
ghost use Rattle.std.specs.Prelude.{is_some};
ghost use Rattle.command_line.specs.declared.reading.Rights.TheVariants.{Stay};
ghost use Rattle.gossip.specs.News.{Says};
ghost use Rattle.peer_rounds.specs.Rounds.{AreGreeted, most_calls, most_peers, told_below};
ghost use Rattle.peer_rounds.specs.Sharing.{AreRightsOf, AreRounds, AreRoundsTo, IsEarly, IsRound};
ghost use Rattle.peer_rounds.specs.Sharing.{IsSharedFirst, rights_by};

use crate::losses::Said;
use crate::round::{Early, RightsNow, Round, Rounds};
use crate::served_wire::ServedWire;
use crate::service::{Loss, Service};
use crate::taken::{note_attempts, note_taken};
use crate::targets::first_paces;
use command_line::{GossipOptions, Rights};
use gossip::{Log, Pace, PeerWire, gossip_news};
use http_peers::{AskState, Peers};
use http_wire::Forgetful;
use node_registry::{Label, Registry, Seat};
use registry_sharing::Sharing;
use std::alloc::AllocGlobal;
use std::sync::{OnceToken, Wait};
use std::time::Clock;

// What is done with rights in a round: they follow demand where that is wanted, and calls are made.
fn rights_by(wanted: Rights, are_calls_made: bool) -> Rights
    ensures { result ≡ rights_by wanted are_calls_made }
{
    match wanted {
        Rights::FollowDemand if are_calls_made => Rights::FollowDemand,
        Rights::FollowDemand | Rights::Stay => Rights::Stay,
    }
}

// The same, by whether all are heard that calls wait for, and calls are written still.
fn rights_now<R: Wait, W: ServedWire>(
    rt: &R,
    heard: &Peers,
    wire: &mut W,
    wanted: Rights,
) -> RightsNow
    ensures rights { AreRightsOf wanted result }
    ensures same { W.traffic wire.new ≡ W.traffic wire.old }
{
    let awaited = heard.awaited(rt);
    let calls = wire.calls(rt);
    let are_calls_made = awaited.node().is_none() && calls.are_made();
    RightsNow {
        rights: rights_by(wanted, are_calls_made),
        awaited,
        calls,
    }
}

// Has each peer that asked told in the round. Answers who was looked for.
fn greet<R: Wait>(rt: &R, heard: &Peers, paces: &mut [Pace]) -> Log<AskState>
    ensures { AreGreeted result.items paces.old paces.new }
{
    let mut asked = Log::new();
    for pace in paces.iter_mut() {
        let asking = heard.has_asked(rt, pace.node);
        if asking.has_asked() {
            *pace = pace.asked();
        }
        asked.add(&asking);
    }
    asked
}

// Asks each peer that calls wait for to tell this node. Who isn't reached is asked again in the next round.
fn ask_awaited<R, W>(rt: &R, heard: &Peers, wire: &mut W, paces: &[Pace])
where
    R: Wait + AllocGlobal,
    W: PeerWire,
    ensures { W.traffic wire.new ≡ W.traffic wire.old }
{
    for pace in paces {
        if heard.waits_for(rt, pace.node) {
            let _ = wire.ask(rt, rt.alloc(), heard.cluster.own, pace.node);
        }
    }
}

// Shares rights before a round, where they follow demand. A shift that is refused is due again in the
// next round.
fn share_first<L, R>(
    rt: &R,
    registry: &Registry<L>,
    seat: &mut Seat<L>,
    sharing: &mut Sharing,
    rights: Rights,
)
where
    L: Label,
    R: Wait + AllocGlobal,
    ensures { IsSharedFirst rights L.config L.seed L.keeps L.parts seat.old seat.new sharing.old
        sharing.new }
{
    match rights {
        Rights::Stay => {}
        Rights::FollowDemand => {
            let _ = sharing.share(rt, rt.alloc(), registry, seat);
        }
    }
}

// A round, and what shows that the node has lost its state, if a message from the wire did.
#[derive(Drop)]
struct Made<'s> {
    round: Round,
    loss: Option<OnceToken<'s, Loss>>,
}

// Makes a round over a wire. It shares rights first, where they follow demand and calls are made. Then it
// sends only news, and only to who is reached, but who asked is answered anyway. Who is to be heard before calls are
// made is asked to tell. Each message that it takes in from the wire is noted, and so is what came of those that
// were due. If one shows that the node has lost its state, the service ends.
fn make_round<'s, L, R, W>(
    rt: &R,
    registry: &Registry<L>,
    seat: &mut Seat<L>,
    sharing: &mut Sharing,
    wire: &mut W,
    paces: &mut [Pace],
    wanted: Rights,
    heard: &Peers,
    service: &'s Service,
) -> Made<'s>
where
    L: Label,
    R: Wait + AllocGlobal + Clock,
    W: ServedWire,
    requires peers { length paces.old ≤ most_peers L.config }
    requires few { length paces.old < 2 ^ 8 }
    ensures round { IsRound L.config L.seed L.keeps L.parts (Says W.reached) wanted
        seat.old seat.new sharing.old sharing.new (W.traffic wire.old) (W.traffic wire.new)
        paces.old paces.new result.round (is_some result.loss) }
    ensures loss { IfSome result.loss (λ token. token.of ≡ service.now.loss.id) }
{
    let asked = greet(rt, heard, paces);
    ask_awaited(rt, heard, wire, paces);
    let rights = rights_now(rt, heard, wire, wanted);
    share_first(rt, registry, seat, sharing, rights.rights);
    wire.keep_calls(rt, rt.alloc());
    let report = gossip_news(rt, rt.alloc(), registry, seat, wire, paces);
    let noted = note_taken(rt, heard, &report);
    let attempts = note_attempts(rt, heard, &report);
    let loss = service.meet(rt, &report.rejected);
    Made {
        round: Round {
            asked,
            rights,
            noted,
            attempts,
        },
        loss,
    }
}

// Makes one round after the other over a wire, with a rest between two, until all are made or the service
// has ended. Of a peer that has lost its state that is said.
fn make_rounds<'s, L, R, W>(
    rt: &R,
    registry: &Registry<L>,
    seat: &mut Seat<L>,
    wire: &mut W,
    paces: &mut [Pace],
    telling: &GossipOptions,
    heard: &Peers,
    service: &'s Service,
) -> Rounds<'s>
where
    L: Label,
    R: Wait + AllocGlobal + Clock + Eprint,
    W: ServedWire + PeerWire<Loss = Forgetful>,
    requires peers { length paces.old ≤ most_peers L.config }
    requires few { length paces.old < 2 ^ 8 }
    ensures rounds { AreRounds L.config L.seed L.keeps L.parts (Says W.reached)
        telling.now.rights seat.old seat.new (W.traffic wire.old) (W.traffic wire.new)
        paces.old paces.new result.made result.log.items (is_some result.loss) }
    ensures all { MatchOption result.early (result.made ≡ telling.now.rounds)
        (IsEarly service.now.end.id) }
    ensures most { result.made ≤ telling.now.rounds }
    ensures loss { IfSome result.loss (λ token. token.of ≡ service.now.loss.id) }
    ensures few { telling.now.rights ≡ Stay
        → seat.new.calls ≤ seat.old.calls + result.made * most_calls L.config }
{
    let mut said = Said::new(rt.alloc());
    let mut sharing = Sharing::new(rt.alloc());
    let mut rounds = Rounds::none(None);
    for number in 0..telling.rounds {
        if number > 0 {
            service.rest(rt, telling.every);
        }
        if let Some(ended) = service.ended() {
            rounds.early = Some(Early::Ended(ended));
            return rounds;
        }
        let Made { round, loss } = make_round(
            rt,
            registry,
            seat,
            &mut sharing,
            wire,
            paces,
            telling.rights,
            heard,
            service,
        );
        rounds.add(&round, loss);
        said.say(rt, &wire.take_losses(rt.alloc()));
    }
    rounds
}

/// Makes the rounds that are asked for over a wire of any transport, with the peers that are named, or fewer if
/// the service ends before. Each round moves rights first if they are to follow demand, and then sends what is
/// news to each peer that is reached. Without memory for the peers it makes none.
pub fn tell_over<'s, L, R, W>(
    rt: &R,
    registry: &Registry<L>,
    seat: &mut Seat<L>,
    wire: &mut W,
    telling: &GossipOptions,
    heard: &Peers,
    service: &'s Service,
) -> Rounds<'s>
where
    L: Label,
    R: Wait + AllocGlobal + Clock + Eprint,
    W: ServedWire + PeerWire<Loss = Forgetful>,
    ensures rounds { AreRoundsTo (told_below L.config.node L.config.nodes telling.now.peers.items)
        L.config L.seed L.keeps L.parts (Says W.reached) telling.now.rights
        seat.old seat.new (W.traffic wire.old) (W.traffic wire.new)
        result.made result.log.items (is_some result.loss) }
    ensures all { MatchOption result.early (result.made ≡ telling.now.rounds)
        (IsEarly service.now.end.id) }
    ensures most { result.made ≤ telling.now.rounds }
    ensures loss { IfSome result.loss (λ token. token.of ≡ service.now.loss.id) }
    ensures few { telling.now.rights ≡ Stay
        → seat.new.calls ≤ seat.old.calls + result.made * most_calls L.config }
{
    let Ok(mut paces) = first_paces(rt, registry, &telling.peers) else {
        return Rounds::none(Some(Early::NoMemory));
    };
    make_rounds(
        rt, registry, seat, wire, &mut paces, telling, heard, service,
    )
}

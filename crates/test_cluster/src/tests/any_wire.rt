//! What a node hears over a wire that isn't HTTP, and what a report tells of messages that went wrong.

ghost use Rattle.std.specs.Prelude.{◌≡◌, replicate};

use super::*;
use command_line::{GossipOptions, NamedPeer, Rights, Start};
use gossip::{Attempt, AttemptFault, PeerWire, Rejected};
use http_peers::{Hearing, Peers};
use http_wire::Forgetful;
use peer_rounds::{Calls, ServedWire, Service, note_attempts, note_taken, tell_over};
use report_text::{RejectCode, SendFault};
use std::alloc::AllocGlobal;
use std::net::{Ipv4Addr, SocketAddr};
use std::time::{Clock, Duration};

/// What node 0 tells node 1 before it knows anything.
const NOTHING: &[u8] = b"FPG1\x00\x01\
    \x00\x00\x00\x00\x00\x00\x00\x00\
    \x00\x00\x00\x00\x00\x00\x00\x00\
    \x00\x00\x00\x00\x00\x00\x00\x00\x00\x00";

/// The message of node 0, which set `z` to `off`, with a pass of node 1 put in.
const PASS_OF_ANOTHER: &[u8] = b"FPG1\x00\x01\
    \x00\x00\x00\x00\x00\x00\x00\x00\
    \x00\x00\x00\x00\x00\x00\x00\x01\
    \x00\x00\x00\x00\x00\x00\x00\x00\
    \x00\x01\x01z\
    \x00\x00\x00\x00\x00\x00\x00\x01\x00\
    \x01\x00\x03off\
    \x01\x01\x00\x00\x00\x00\x00\x00\x00\x01\
    \x00\x00\x00\x00";

/// What the status shows of node 0: whether it was heard, how many of its messages were rejected with `N18`, and
/// why nothing was sent to it.
type Shown = (bool, u64, Option<SendFault>);

/// A message that waits for node 1, whom its calls wait for after a round, what it rejected, and what its status
/// shows of the sender.
type Row = (&'static [u8], Option<u8>, Option<Rejected>, Shown);

const MESSAGES: &[Row] = &[
    (NOTHING, None, None, (true, 0, None)),
    (
        PASS_OF_ANOTHER,
        Some(0),
        Some(Rejected {
            sender: Some(0),
            fault: NodeFault::OwnAhead,
        }),
        (false, 1, None),
    ),
];

// The wire of the second of two nodes, for which this message of the first waits.
fn waiting_for<R: Wait>(rt: &R, alloc: Global, message: &[u8]) -> Result<MailWire, Fail> {
    let mut wires = MailWire::all(alloc, 2)?;
    let second = wires.pop().ok_or("the second")?;
    let mut first = wires.pop().ok_or("the first")?;
    first.send(rt, alloc, 1, message)?;
    Ok(second)
}

/// Whom calls wait for before and after a round, what the node rejected, and what its status shows.
type Found = (Option<u8>, Option<u8>, Option<Rejected>, Shown);

// What the status shows of node 0.
fn shown_of<R: Wait>(rt: &R, alloc: Global, peers: &Peers) -> Result<Shown, Fail> {
    let rows = peers.rows(rt, alloc)?;
    let row = rows.first().ok_or("a row")?;
    let rejected = row.count(RejectCode::OwnAhead);
    Ok((row.heard.is_some(), rejected, row.sending.fault))
}

// What comes of a round of news over such a wire, at a node that hears first.
fn heard_at<L: Label, R: Wait + Clock>(
    rt: &R,
    alloc: Global,
    blank: Blank,
    message: &[u8],
) -> Result<Found, Fail>
    requires name { blank.name ≡ L.name }
    requires parts { (blank.parts ≡ L.parts) × (L.parts ≡ 1) }
    requires config { SECOND_OF_TWO ≡ L.config }
    requires seed { replicate 32 0 ≡ L.seed }
{
    let mut wire = waiting_for(rt, alloc, message)?;
    let (registry, mut seat) = started::<L, R>(rt, alloc, blank, SECOND_OF_TWO)?;
    let peers = Peers::new(alloc, 1, 2, Hearing::First)?;
    let before = peers.awaited(rt).node();
    let mut paces = [Pace::new(0)];
    let report = gossip_news(rt, alloc, &registry, &mut seat, &mut wire, &mut paces);
    note_taken(rt, &peers, &report);
    note_attempts(rt, &peers, &report);
    let rejected = report.rejected.first().copied();
    let shown = shown_of(rt, alloc, &peers)?;
    Ok((before, peers.awaited(rt).node(), rejected, shown))
}

fn heard_by<R: Wait + Clock>(rt: &R, alloc: Global, message: &[u8]) -> Result<Found, Fail> {
    heard_at::<Brand, R>(rt, alloc, Blank::new(1), message)
}

#[test]
fn a_peer_is_heard_over_any_wire(rt: HostRuntime) -> Result<(), Fail> {
    for (message, awaited, rejected, shown) in MESSAGES {
        let found = heard_by(&rt, rt.alloc(), message)?;
        expect(&rt, &found, &(Some(0), *awaited, *rejected, *shown));
    }
    Ok(())
}

impl<W: Wire> PeerWire for Failing<W> {
    type Loss = Forgetful;

    fn ask<R: Wait>(
        &mut self,
        _rt: &R,
        _alloc: Global,
        _own: u8,
        _to: u8,
    ) -> Result<(), WireError> {
        Ok(())
    }

    fn take_losses(&mut self, alloc: Global) -> Vec<Forgetful> {
        Vec::new(alloc)
    }
}

impl<W: Wire> ServedWire for Failing<W> {
    fn calls<R: Wait>(&mut self, _rt: &R) -> Calls {
        Calls::Unrecorded
    }

    fn keep_calls<R: Wait>(&mut self, _rt: &R, _alloc: Global) {}
}

/// A message that waits for node 1, how many of three rounds it makes, by which fault it has lost its state, and
/// what its status shows of the sender, which isn't reached.
type Told = (&'static [u8], u32, Option<NodeFault>, Shown);

const TOLD: &[Told] = &[
    (NOTHING, 3, None, (true, 0, Some(SendFault::Unreached))),
    (
        PASS_OF_ANOTHER,
        1,
        Some(NodeFault::OwnAhead),
        (false, 1, Some(SendFault::Unreached)),
    ),
];

// Three rounds to node 0, without a rest.
fn three_rounds(alloc: Global) -> Result<GossipOptions, AllocError> {
    let address = SocketAddr::from((Ipv4Addr::LOCALHOST, 1));
    Ok(GossipOptions {
        peers: vec![in alloc; NamedPeer { node: 0, address }]?,
        rounds: 3,
        every: Duration::from_secs(0),
        rights: Rights::Stay,
        start: Start::OthersHeard,
    })
}

// What comes of such rounds over a wire that reaches nobody.
fn told_at<L: Label, R: Wait + Clock + AllocGlobal + Eprint>(
    rt: &R,
    blank: Blank,
    message: &[u8],
) -> Result<(u32, Option<NodeFault>, Shown), Fail>
    requires name { blank.name ≡ L.name }
    requires parts { (blank.parts ≡ L.parts) × (L.parts ≡ 1) }
    requires config { SECOND_OF_TWO ≡ L.config }
    requires seed { replicate 32 0 ≡ L.seed }
{
    let alloc = rt.alloc();
    let mut wire = Failing {
        inner: waiting_for(rt, alloc, message)?,
        fails: Fails::Never,
        reaches: false,
    };
    let (registry, mut seat) = started::<L, R>(rt, alloc, blank, SECOND_OF_TWO)?;
    registry.set(rt, alloc, &mut seat, "a", "off")?;
    let peers = Peers::new(alloc, 1, 2, Hearing::First)?;
    let options = three_rounds(alloc)?;
    let service = Service::new();
    let rounds = tell_over(
        rt, &registry, &mut seat, &mut wire, &options, &peers, &service,
    );
    let shown = shown_of(rt, alloc, &peers)?;
    Ok((rounds.made(), rounds.lost_state(&service), shown))
}

fn told_by<R: Wait + Clock + AllocGlobal + Eprint>(
    rt: &R,
    message: &[u8],
) -> Result<(u32, Option<NodeFault>, Shown), Fail> {
    told_at::<Brand, R>(rt, Blank::new(1), message)
}

#[test]
fn rounds_end_if_any_wire_shows_a_loss(rt: HostRuntime) -> Result<(), Fail> {
    for (message, made, lost, shown) in TOLD {
        let found = told_by(&rt, message)?;
        expect(&rt, &found, &(*made, *lost, *shown));
    }
    Ok(())
}

/// Which send of a round of the first of three nodes fails, and the messages that the report tells as not
/// sent.
const FAILURES: &[(Fails, &[gossip::Failed])] = &[
    (Fails::Never, &[]),
    (
        Fails::Send(Full, 0),
        &[gossip::Failed { peer: 1, why: Full }],
    ),
    (
        Fails::Send(NoPeer, 1),
        &[gossip::Failed {
            peer: 2,
            why: NoPeer,
        }],
    ),
    (
        Fails::Send(OutOfMemory, 0),
        &[gossip::Failed {
            peer: 1,
            why: OutOfMemory,
        }],
    ),
    (
        Fails::EachSend(Failed),
        &[
            gossip::Failed {
                peer: 1,
                why: Failed,
            },
            gossip::Failed {
                peer: 2,
                why: Failed,
            },
        ],
    ),
];

// The wire of the first of three nodes, which fails so.
fn failing(alloc: Global, fails: Fails) -> Result<Failing<MailWire>, Fail> {
    let mut wires = MailWire::all(alloc, 3)?;
    wires.truncate(1);
    Ok(Failing {
        inner: wires.pop().ok_or("a wire")?,
        fails,
        reaches: true,
    })
}

// What a round of such a node tells.
fn round_at<L: Label, R: Wait>(
    rt: &R,
    alloc: Global,
    blank: Blank,
    fails: Fails,
) -> Result<GossipReport, Fail>
    requires name { blank.name ≡ L.name }
    requires parts { (blank.parts ≡ L.parts) × (L.parts ≡ 1) }
    requires config { FIRST_OF_THREE ≡ L.config }
    requires seed { replicate 32 0 ≡ L.seed }
{
    let mut wire = failing(alloc, fails)?;
    let (registry, mut seat) = started::<L, R>(rt, alloc, blank, FIRST_OF_THREE)?;
    Ok(gossip_rounds(rt, alloc, &registry, &mut seat, &mut wire, 1))
}

fn round_by<R: Wait>(rt: &R, alloc: Global, fails: Fails) -> Result<GossipReport, Fail> {
    round_at::<Brand, R>(rt, alloc, Blank::new(1), fails)
}

// What came of the last message that was due for a node, by those that weren't sent.
fn attempt_by(failed: &[gossip::Failed], peer: u8) -> Attempt {
    match failed.iter().find(|message| message.peer == peer) {
        Some(message) => Attempt::Failed(AttemptFault::NotSent(message.why)),
        None => Attempt::Sent,
    }
}

// What a report tells of a round: the messages that weren't sent, and what came of the one for node 1.
fn expect_report(rt: &impl Abort, report: &GossipReport, failed: &[gossip::Failed]) {
    expect(rt, &report.failed.as_slice(), &failed);
    expect(rt, &report.attempt(1), &attempt_by(failed, 1));
}

#[test]
fn a_report_tells_what_was_not_sent(rt: HostRuntime) -> Result<(), Fail> {
    for (fails, failed) in FAILURES {
        let report = round_by(&rt, rt.alloc(), *fails)?;
        expect_report(&rt, &report, failed);
    }
    Ok(())
}

//! Rounds: what they tell and when, over mail, and what they count over wires that fail.

ghost use Rattle.std.specs.Prelude.{◌≡◌, replicate};

use super::*;

// How many bytes the message of a receipt has, or 0.
fn message_len(receipt: &Receipt) -> u64 {
    match &receipt.entry.reply {
        Reply::Emit(message) => message.len() as u64,
        _ => 0,
    }
}

/// A node behind a lock with its only seat, and what it tells its peer by.
#[derive(Drop)]
struct Teller<L: Label, W> {
    registry: Registry<L>,
    seat: Seat<L>,
    wire: W,
    pace: [Pace; 1],
}

fn seated<L: Label, W: Drop, R: Wait>(
    rt: &R,
    alloc: Global,
    blank: Blank,
    config: Config,
    points: &str,
    wire: W,
) -> Result<Teller<L, W>, Fail>
    requires name { blank.name ≡ L.name }
    requires parts { (blank.parts ≡ L.parts) × (L.parts ≡ 1) }
    requires config { config ≡ L.config }
    requires seed { replicate 32 0 ≡ L.seed }
{
    let (registry, seat) = opened::<L, R>(rt, alloc, blank, config, points)?;
    let pace = [Pace::new(u8::from(config.node == 0))];
    Ok(Teller {
        registry,
        seat,
        wire,
        pace,
    })
}

// Rounds, without what their contract says.
fn rounds_of<L: Label, W: Wire, R: Wait>(
    rt: &R,
    alloc: Global,
    teller: &mut Teller<L, W>,
    rounds: u32,
) -> GossipReport {
    gossip_rounds(
        rt,
        alloc,
        &teller.registry,
        &mut teller.seat,
        &mut teller.wire,
        rounds,
    )
}

// A round of news, without what its contract says: how many messages it made, and how many of them
// were lost.
fn news_of<L: Label, W: Reach, R: Wait>(
    rt: &R,
    alloc: Global,
    teller: &mut Teller<L, W>,
) -> (u64, u64) {
    let report = gossip_news(
        rt,
        alloc,
        &teller.registry,
        &mut teller.seat,
        &mut teller.wire,
        &mut teller.pace,
    );
    (report.emitted, report.lost)
}

// How long the longest message of a round is.
fn longest_of<L: Label, W: Wire, R: Wait>(rt: &R, alloc: Global, teller: &mut Teller<L, W>) -> u64 {
    let report = rounds_of(rt, alloc, teller, 1);
    let mut longest = 0;
    for receipt in &report.receipts {
        longest = longest.max(message_len(receipt));
    }
    longest
}

/// How a node tells what it knows: by rounds, or by rounds of news to its peer.
#[derive(Clone, Copy)]
enum Way {
    Rounds,
    News,
}

// What a round told: how long its longest message is, or how many messages of news it made.
fn told_in<L: Label, R: Wait>(
    rt: &R,
    alloc: Global,
    teller: &mut Teller<L, MailWire>,
    way: Way,
) -> u64 {
    match way {
        Way::Rounds => longest_of(rt, alloc, teller),
        Way::News => news_of(rt, alloc, teller).0,
    }
}

// What each of two nodes told in each round.
type Told = ([u64; 8], [u64; 8]);

// Eight rounds of each of two nodes in turn, and what the second lists in the end.
fn in_turn<L: Label, M: Label, R: Wait>(
    rt: &R,
    alloc: Global,
    first: &mut Teller<L, MailWire>,
    second: &mut Teller<M, MailWire>,
    way: Way,
) -> Result<(Told, String), Fail> {
    let (mut told, mut other_told) = ([0; 8], [0; 8]);
    for round in 0..8 {
        told[round] = told_in(rt, alloc, first, way);
        other_told[round] = told_in(rt, alloc, second, way);
    }
    let shown = list(rt, alloc, &second.registry)?;
    Ok(((told, other_told), shown))
}

// The wires of two nodes.
fn two_wires(alloc: Global) -> Result<(MailWire, MailWire), Fail> {
    let mut wires = MailWire::all(alloc, 2)?;
    let second = wires.pop().ok_or("the second")?;
    let first = wires.pop().ok_or("the first")?;
    Ok((first, second))
}

// Two nodes with mailboxes. The first has set `a`.
fn two_tellers<L: Label, M: Label, R: Wait>(
    rt: &R,
    alloc: Global,
    zero: Blank,
    one: Blank,
) -> Result<(Teller<L, MailWire>, Teller<M, MailWire>), Fail>
    requires zero { (zero.name ≡ L.name) × (zero.parts ≡ L.parts) × (L.parts ≡ 1) }
    requires one { (one.name ≡ M.name) × (one.parts ≡ M.parts) × (M.parts ≡ 1) }
    requires first { FIRST_OF_TWO ≡ L.config }
    requires second { SECOND_OF_TWO ≡ M.config }
    requires seeds { (replicate 32 0 ≡ L.seed) × (replicate 32 0 ≡ M.seed) }
{
    let (wire, other) = two_wires(alloc)?;
    let first = seated::<L, MailWire, R>(rt, alloc, zero, FIRST_OF_TWO, "a=off", wire)?;
    let second = seated::<M, MailWire, R>(rt, alloc, one, SECOND_OF_TWO, "", other)?;
    Ok((first, second))
}

// A setting at the first node of two, told by mail: what each told, and what the second lists in the
// end.
fn mail<L: Label, M: Label, R: Wait>(
    rt: &R,
    alloc: Global,
    zero: Blank,
    one: Blank,
    way: Way,
) -> Result<(Told, String), Fail>
    requires zero { (zero.name ≡ L.name) × (zero.parts ≡ L.parts) × (L.parts ≡ 1) }
    requires one { (one.name ≡ M.name) × (one.parts ≡ M.parts) × (M.parts ≡ 1) }
    requires first { FIRST_OF_TWO ≡ L.config }
    requires second { SECOND_OF_TWO ≡ M.config }
    requires seeds { (replicate 32 0 ≡ L.seed) × (replicate 32 0 ≡ M.seed) }
{
    let (mut first, mut second) = two_tellers::<L, M, R>(rt, alloc, zero, one)?;
    in_turn(rt, alloc, &mut first, &mut second, way)
}

fn mail_by<R: Wait>(rt: &R, alloc: Global, way: Way) -> Result<(Told, String), Fail> {
    mail::<Brand, Brand, R>(rt, alloc, Blank::new(1), Blank::new(1), way)
}

// From the fourth round on the first node knows that the second has the setting.
#[test]
fn a_setting_comes_by_mail(rt: HostRuntime) -> Result<(), Fail> {
    let ((lengths, _), shown) = mail_by(&rt, rt.alloc(), Way::Rounds)?;
    let wanted: [u64; 8] = [54, 54, 54, 32, 32, 32, 32, 32];
    expect(&rt, &(lengths, shown.as_str()), &(wanted, "a=off"));
    Ok(())
}

// The first node tells the setting, and the second one that it has it, and what it knows itself. The
// first says that it heard of that, and then nobody has anything to tell.
#[test]
fn news_are_told_once(rt: HostRuntime) -> Result<(), Fail> {
    let (made, shown) = mail_by(&rt, rt.alloc(), Way::News)?;
    let wanted: Told = ([1, 0, 0, 1, 0, 0, 0, 0], [0, 1, 0, 0, 0, 0, 0, 0]);
    expect(&rt, &(made, shown.as_str()), &(wanted, "a=off"));
    Ok(())
}

/// How many messages were made, lost and taken in, and how many calls were refused; how many
/// receipts there are; and how rounds ended.
type Counts = ([u64; 4], u64, Ended);

pub(super) fn counted(report: &GossipReport) -> Counts {
    let counts = [
        report.emitted,
        report.lost,
        report.delivered,
        report.refused,
    ];
    (counts, report.receipts.len() as u64, report.ended)
}

/// A message that waits for a node so many times.
#[derive(Clone, Copy)]
struct Waiting {
    message: &'static [u8],
    times: u8,
}

const TWO_EMPTY: Waiting = Waiting {
    message: EMPTY,
    times: 2,
};

/// What is no message.
const TWO_SHORT: Waiting = Waiting {
    message: &[0; 31],
    times: 2,
};

/// The first 31 bytes of a message of 32.
const ONE_CUT: Waiting = Waiting {
    message: b"FPG1\x01\0\0\0\0\0\0\0\0\0\0\0\0\0\0\0\0\0\0\0\0\0\0\0\0\0\0",
    times: 1,
};

/// As many as a mailbox holds.
const MANY_SHORT: Waiting = Waiting {
    message: &[0; 31],
    times: 64,
};

/// Which call of a wire fails, how many rounds there are, and what they count. A round takes once more
/// than messages come, in vain.
type Row = (Fails, u32, [u64; 4]);

// A message that couldn't be sent is lost, and a take that fails ends the taking of its round.
const ALL_DONE: &[Row] = &[
    (Fails::Send(Full, 0), 2, [4, 1, 2, 0]),
    (Fails::Send(Full, 1), 2, [4, 1, 2, 0]),
    (Fails::Send(Full, 2), 2, [4, 1, 2, 0]),
    (Fails::Send(Full, 3), 2, [4, 1, 2, 0]),
    (Fails::Send(NoPeer, 0), 2, [4, 1, 2, 0]),
    (Fails::Send(NoPeer, 1), 2, [4, 1, 2, 0]),
    (Fails::Send(NoPeer, 2), 2, [4, 1, 2, 0]),
    (Fails::Send(NoPeer, 3), 2, [4, 1, 2, 0]),
    (Fails::Send(Failed, 0), 2, [4, 1, 2, 0]),
    (Fails::Send(Failed, 1), 2, [4, 1, 2, 0]),
    (Fails::Send(Failed, 2), 2, [4, 1, 2, 0]),
    (Fails::Send(Failed, 3), 2, [4, 1, 2, 0]),
    (Fails::Take(Failed, 0), 1, [2, 0, 0, 0]),
    (Fails::Take(Failed, 1), 1, [2, 0, 1, 0]),
    (Fails::Take(Failed, 2), 1, [2, 0, 2, 0]),
    (Fails::Take(Failed, 0), 2, [4, 0, 2, 0]),
    (Fails::Take(Failed, 1), 2, [4, 0, 2, 0]),
    (Fails::Take(Failed, 3), 2, [4, 0, 2, 0]),
];

const NO_MEMORY: &[Row] = &[
    (Fails::Take(OutOfMemory, 0), 2, [2, 0, 0, 0]),
    (Fails::Take(OutOfMemory, 1), 2, [2, 0, 1, 0]),
    (Fails::Take(OutOfMemory, 3), 2, [4, 0, 2, 0]),
    (Fails::Send(OutOfMemory, 1), 2, [2, 1, 0, 0]),
];

/// What waits, rounds, and how they end. A round takes in all that a mailbox holds.
const ROUNDS: &[(Waiting, &[Row], Ended)] = &[
    (TWO_EMPTY, ALL_DONE, Ended::Done),
    (TWO_EMPTY, NO_MEMORY, Ended::OutOfMemory),
    (TWO_SHORT, &[(Fails::Never, 1, [2, 0, 0, 2])], Ended::Done),
    (ONE_CUT, &[(Fails::Never, 1, [2, 0, 0, 1])], Ended::Done),
    (MANY_SHORT, &[(Fails::Never, 1, [2, 0, 0, 64])], Ended::Done),
];

// The wire of the first node.
fn first_wire(alloc: Global, nodes: u8) -> Result<MailWire, Fail> {
    let mut wires = MailWire::all(alloc, nodes)?;
    wires.truncate(1);
    Ok(wires.pop().ok_or("a wire")?)
}

// Has messages wait for the first node.
fn fill<R: Wait>(
    rt: &R,
    alloc: Global,
    wire: &mut MailWire,
    waiting: Waiting,
) -> Result<(), WireError> {
    for _ in 0..waiting.times {
        wire.send(rt, alloc, 0, waiting.message)?;
    }
    Ok(())
}

// The wire of the first of three nodes, for which this waits.
fn filled<R: Wait>(
    rt: &R,
    alloc: Global,
    waiting: Waiting,
    fails: Fails,
) -> Result<Failing<MailWire>, Fail> {
    let mut inner = first_wire(alloc, 3)?;
    fill(rt, alloc, &mut inner, waiting)?;
    Ok(Failing {
        inner,
        fails,
        reaches: true,
    })
}

// What rounds of the first of three nodes count, over such a wire.
fn counts_at<L: Label, R: Wait>(
    rt: &R,
    alloc: Global,
    blank: Blank,
    waiting: Waiting,
    fails: Fails,
    rounds: u32,
) -> Result<Counts, Fail>
    requires name { blank.name ≡ L.name }
    requires parts { (blank.parts ≡ L.parts) × (L.parts ≡ 1) }
    requires config { FIRST_OF_THREE ≡ L.config }
    requires seed { replicate 32 0 ≡ L.seed }
{
    let wire = filled(rt, alloc, waiting, fails)?;
    let mut teller = seated::<L, Failing<MailWire>, R>(rt, alloc, blank, FIRST_OF_THREE, "", wire)?;
    let report = rounds_of(rt, alloc, &mut teller, rounds);
    Ok(counted(&report))
}

fn counts_of<R: Wait>(
    rt: &R,
    alloc: Global,
    waiting: Waiting,
    fails: Fails,
    rounds: u32,
) -> Result<Counts, Fail> {
    counts_at::<Brand, R>(rt, alloc, Blank::new(1), waiting, fails, rounds)
}

/// Ends the test where rounds count otherwise.
fn expect_rounds<R: Abort + Wait>(
    rt: &R,
    alloc: Global,
    waiting: Waiting,
    rows: &[Row],
    ended: Ended,
) -> Result<(), Fail> {
    for (fails, rounds, counts) in rows {
        let [emitted, _, delivered, _] = *counts;
        let wanted = (*counts, emitted.saturating_add(delivered), ended);
        let found = counts_of(rt, alloc, waiting, *fails, *rounds)?;
        expect(rt, &found, &wanted);
    }
    Ok(())
}

#[test]
fn rounds_over_wires_that_fail(rt: HostRuntime) -> Result<(), Fail> {
    for (waiting, rows, ended) in ROUNDS {
        expect_rounds(&rt, rt.alloc(), *waiting, rows, *ended)?;
    }
    Ok(())
}

// How many calls a node has accepted.
fn calls_of<L: Label, R: Wait>(rt: &R, registry: &Registry<L>) -> usize {
    registry.with(rt, |node| node.trace().len())
}

// Two hundred rounds of news: in which of them a message was made, how many were lost, and how many
// calls the node has accepted.
fn tries<L: Label, R: Wait>(
    rt: &R,
    alloc: Global,
    teller: &mut Teller<L, Failing<MailWire>>,
) -> Result<(Vec<u32>, u64, usize), Fail> {
    let (mut tried, mut all) = (Vec::new(alloc), 0u64);
    for round in 0u32..200 {
        let (made, lost) = news_of(rt, alloc, teller);
        if made > 0 {
            tried.push(round)?;
        }
        all = all.saturating_add(lost);
    }
    Ok((tried, all, calls_of(rt, &teller.registry)))
}

// These at a node whose peer is gone.
fn tried_in<L: Label, R: Wait>(
    rt: &R,
    alloc: Global,
    blank: Blank,
    reaches: bool,
) -> Result<(Vec<u32>, u64, usize), Fail>
    requires name { blank.name ≡ L.name }
    requires parts { (blank.parts ≡ L.parts) × (L.parts ≡ 1) }
    requires config { FIRST_OF_TWO ≡ L.config }
    requires seed { replicate 32 0 ≡ L.seed }
{
    let wire = Failing {
        inner: first_wire(alloc, 2)?,
        fails: Fails::EachSend(Failed),
        reaches,
    };
    let mut teller = seated::<L, Failing<MailWire>, R>(
        rt,
        alloc,
        blank,
        FIRST_OF_TWO,
        "a=off",
        wire,
    )?;
    tries(rt, alloc, &mut teller)
}

fn tried_by<R: Wait>(rt: &R, alloc: Global, reaches: bool) -> Result<(Vec<u32>, u64, usize), Fail> {
    tried_in::<Brand, R>(rt, alloc, Blank::new(1), reaches)
}

/// Whether a wire says that it reaches the peer, in which rounds a message is made, how many are lost,
/// and how many calls are accepted.
const TRIES: &[(bool, &[u32], u64, usize)] = &[
    // The rests are 2, 4, 8, 16, 32, 64 and 64 rounds.
    (true, &[0, 3, 8, 17, 34, 67, 132, 197], 8, 9),
    // For a peer that isn't reached no message is made.
    (false, &[], 0, 1),
];

#[test]
fn a_peer_that_is_gone_is_tried_less_often(rt: HostRuntime) -> Result<(), Fail> {
    for (reaches, rounds, lost, calls) in TRIES {
        let (tried, all, accepted) = tried_by(&rt, rt.alloc(), *reaches)?;
        let found = (tried.as_slice(), all, accepted);
        expect(&rt, &found, &(*rounds, *lost, *calls));
    }
    Ok(())
}

// Does a round of each of two nodes. Returns what each counts, and its points.
fn round_of_each<L: Label, M: Label, R: Wait>(
    rt: &R,
    alloc: Global,
    first: &mut Teller<L, MailWire>,
    second: &mut Teller<M, MailWire>,
) -> Result<((Counts, String), (Counts, String)), AllocError> {
    let counts = counted(&rounds_of(rt, alloc, first, 1));
    let others = counted(&rounds_of(rt, alloc, second, 1));
    let points = list(rt, alloc, &first.registry)?;
    let last = list(rt, alloc, &second.registry)?;
    Ok(((counts, points), (others, last)))
}

// The same for new nodes.
fn round_by_mail<L: Label, M: Label, R: Wait>(
    rt: &R,
    alloc: Global,
    zero: Blank,
    one: Blank,
) -> Result<((Counts, String), (Counts, String)), Fail>
    requires zero { (zero.name ≡ L.name) × (zero.parts ≡ L.parts) × (L.parts ≡ 1) }
    requires one { (one.name ≡ M.name) × (one.parts ≡ M.parts) × (M.parts ≡ 1) }
    requires first { FIRST_OF_TWO ≡ L.config }
    requires second { SECOND_OF_TWO ≡ M.config }
    requires seeds { (replicate 32 0 ≡ L.seed) × (replicate 32 0 ≡ M.seed) }
{
    let (mut first, mut second) = two_tellers::<L, M, R>(rt, alloc, zero, one)?;
    Ok(round_of_each(rt, alloc, &mut first, &mut second)?)
}

// The second node receives the message of the first. The first does its round before that of the second.
#[test]
fn a_round_of_each_of_two_nodes(rt: HostRuntime) -> Result<(), Fail> {
    let (zero, one) = (Blank::new(1), Blank::new(1));
    let (first, second) = round_by_mail::<Brand, Brand, HostRuntime>(&rt, rt.alloc(), zero, one)?;
    let wanted: (Counts, &str) = (([1, 0, 0, 0], 1, Ended::Done), "a=off");
    expect(&rt, &(first.0, first.1.as_str()), &wanted);
    let wanted: (Counts, &str) = (([1, 0, 1, 0], 2, Ended::Done), "a=off");
    expect(&rt, &(second.0, second.1.as_str()), &wanted);
    Ok(())
}

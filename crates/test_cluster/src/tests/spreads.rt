//! A node spreads its rights over all nodes, or shares them with nodes that passed and have none.

ghost use Rattle.std.specs.Prelude.{◌≡◌, replicate};

use super::fleet::{deliver, new_node};
use super::rounds::counted;
use super::*;
use registry_sharing::Sharing;
use sharing::{Memory, Shift};

/// The rights of the first three nodes to the first term of `p`, as one node sees them.
type Rights = [i128; 3];

fn rights_of(alloc: Global, node: &NodeCore) -> Result<Rights, Fail> {
    let point = Name::parse(alloc, "p")?;
    Ok([
        node.rights(&point, 0, 0),
        node.rights(&point, 0, 1),
        node.rights(&point, 0, 2),
    ])
}

fn rights_at<L: Label, R: Wait>(
    rt: &R,
    alloc: Global,
    registry: &Registry<L>,
) -> Result<Rights, Fail> {
    registry.with(rt, |node| rights_of(alloc, node))
}

/// A spread of the rights to `p`: by separate calls, by a batch, or by a batch that sets the point first.
#[derive(Clone, Copy)]
enum Spread {
    ByCalls,
    AtOnce,
    WithSetting,
}

/// A spread, and its result in print. Of the ten rights of the node the two others get three each.
const SPREADS: &[(Spread, &str)] = &[
    (Spread::ByCalls, "([0, 0, 0, 0], 2, Done)"),
    (Spread::AtOnce, "Ok(4)"),
    (Spread::WithSetting, "Ok(Stamp { clock: 2, node: 0 })"),
];

const TEN: &str = "p=10*off";

// Spreads, without the contract.
fn spread_text<L: Label, R: Wait>(
    rt: &R,
    alloc: Global,
    registry: &Registry<L>,
    seat: &mut Seat<L>,
    spread: Spread,
) -> Result<String, AllocError> {
    match spread {
        Spread::ByCalls => in_print(
            alloc,
            &counted(&gossip::spread(rt, alloc, registry, seat, "p")),
        ),
        Spread::AtOnce => in_print(
            alloc,
            &registry_sharing::spread(rt, alloc, registry, seat, "p"),
        ),
        Spread::WithSetting => in_print(
            alloc,
            &registry_sharing::set_spread(rt, alloc, registry, seat, "p", "10*off"),
        ),
    }
}

// The result of a spread of the first of three nodes, and the rights then.
fn spread_at<L: Label, R: Wait>(
    rt: &R,
    alloc: Global,
    blank: Blank,
    spread: Spread,
) -> Result<(String, Rights), Fail>
    requires name { blank.name ≡ L.name }
    requires parts { (blank.parts ≡ L.parts) × (L.parts ≡ 1) }
    requires config { FIRST_OF_THREE ≡ L.config }
    requires seed { replicate 32 0 ≡ L.seed }
{
    let (registry, mut seat) = opened::<L, R>(rt, alloc, blank, FIRST_OF_THREE, TEN)?;
    let text = spread_text(rt, alloc, &registry, &mut seat, spread)?;
    Ok((text, rights_at(rt, alloc, &registry)?))
}

fn spread_by<R: Wait>(rt: &R, alloc: Global, spread: Spread) -> Result<(String, Rights), Fail> {
    spread_at::<Brand, R>(rt, alloc, Blank::new(1), spread)
}

#[test]
fn spreads_behind_a_lock(rt: HostRuntime) -> Result<(), Fail> {
    for (spread, wanted) in SPREADS {
        let (text, rights) = spread_by(&rt, rt.alloc(), *spread)?;
        expect(&rt, &(text.as_str(), rights), &(*wanted, [4, 3, 3]));
    }
    Ok(())
}

/// The message of node 1 after it received `p` as `10*off` and passed it once.
const PASSED: &[u8] = b"FPG1\x01\x00\
    \x00\x00\x00\x00\x00\x00\x00\x00\
    \x00\x00\x00\x00\x00\x00\x00\x02\
    \x00\x00\x00\x00\x00\x00\x00\x00\
    \x00\x01\x01p\
    \x00\x00\x00\x00\x00\x00\x00\x01\x00\
    \x01\x00\x0610*off\
    \x01\x01\x00\x00\x00\x00\x00\x00\x00\x01\
    \x00\x00\x00\x00";

/// A round of sharing returns a count of its shifts, or their receipts.
#[derive(Clone, Copy)]
enum Round {
    Counted,
    Receipted,
}

// The number of shifts of a round, without the contract.
fn shifts_in<L: Label, R: Wait>(
    rt: &R,
    alloc: Global,
    registry: &Registry<L>,
    seat: &mut Seat<L>,
    sharing: &mut Sharing,
    round: Round,
) -> Result<usize, NodeFault> {
    match round {
        Round::Counted => sharing.share(rt, alloc, registry, seat),
        Round::Receipted => {
            let receipts = sharing.share_receipts(rt, alloc, registry, seat)?;
            Ok(receipts.len())
        }
    }
}

// Delivers the message.
fn deliver_passed<L: Label, R: Wait>(
    rt: &R,
    alloc: Global,
    registry: &Registry<L>,
    seat: &mut Seat<L>,
) -> Result<(), NodeFault> {
    registry.deliver(rt, alloc, seat, PASSED)?;
    Ok(())
}

/// The number of shifts in each of three rounds.
type Shifts = [usize; 3];

// Does three rounds of sharing. The message arrives before the second.
fn three_rounds<L: Label, R: Wait>(
    rt: &R,
    alloc: Global,
    registry: &Registry<L>,
    seat: &mut Seat<L>,
    round: Round,
) -> Result<Shifts, NodeFault> {
    let mut sharing = Sharing::new(alloc);
    let mut shifts = [9; 3];
    for number in 0..3 {
        if number == 1 {
            deliver_passed(rt, alloc, registry, seat)?;
        }
        shifts[number] = shifts_in(rt, alloc, registry, seat, &mut sharing, round)?;
    }
    Ok(shifts)
}

// The shifts of three rounds of the first of two nodes, and the rights then.
fn shared_at<L: Label, R: Wait>(
    rt: &R,
    alloc: Global,
    blank: Blank,
    round: Round,
) -> Result<(Shifts, Rights), Fail>
    requires name { blank.name ≡ L.name }
    requires parts { (blank.parts ≡ L.parts) × (L.parts ≡ 1) }
    requires config { FIRST_OF_TWO ≡ L.config }
    requires seed { replicate 32 0 ≡ L.seed }
{
    let (registry, mut seat) = opened::<L, R>(rt, alloc, blank, FIRST_OF_TWO, TEN)?;
    let shifts = three_rounds(rt, alloc, &registry, &mut seat, round)?;
    Ok((shifts, rights_at(rt, alloc, &registry)?))
}

fn shared_by<R: Wait>(rt: &R, alloc: Global, round: Round) -> Result<(Shifts, Rights), Fail> {
    shared_at::<Brand, R>(rt, alloc, Blank::new(1), round)
}

// The node that passed and has no right gets half of ten rights, once.
#[test]
fn rights_follow_a_pass_behind_a_lock(rt: HostRuntime) -> Result<(), Fail> {
    for round in [Round::Counted, Round::Receipted] {
        let found = shared_by(&rt, rt.alloc(), round)?;
        expect(&rt, &found, &([0, 1, 0], [5, 5, 0]));
    }
    Ok(())
}

// A node alone that has set the point.
fn node_of(alloc: Global, nodes: u8) -> Result<NodeCore, Fail> {
    let mut node = new_node(alloc, 0, nodes)?;
    set_ten(alloc, &mut node)?;
    Ok(node)
}

fn set_ten(alloc: Global, node: &mut NodeCore) -> Result<(), NodeFault> {
    node.load(alloc, TEN)?;
    Ok(())
}

// Spreads at a node alone, without the contract.
fn node_spread_text(
    alloc: Global,
    node: &mut NodeCore,
    spread: Spread,
) -> Result<String, AllocError> {
    match spread {
        Spread::WithSetting => in_print(
            alloc,
            &node_sharing::set_spread(node, alloc, "p", "10*off"),
        ),
        _ => in_print(alloc, &node_sharing::spread(node, alloc, "p")),
    }
}

fn node_spread(alloc: Global, spread: Spread) -> Result<(String, Rights), Fail> {
    let mut node = node_of(alloc, 3)?;
    let text = node_spread_text(alloc, &mut node, spread)?;
    Ok((text, rights_of(alloc, &node)?))
}

#[test]
fn spreads_of_a_node_alone(rt: HostRuntime) -> Result<(), Fail> {
    for (spread, wanted) in SPREADS.iter().skip(1) {
        let (text, rights) = node_spread(rt.alloc(), *spread)?;
        expect(&rt, &(text.as_str(), rights), &(*wanted, [4, 3, 3]));
    }
    Ok(())
}

// Does three rounds of a node alone. The message arrives before the second.
fn node_rounds(alloc: Global, node: &mut NodeCore) -> Result<Shifts, Fail> {
    let mut memory = Memory::new(alloc);
    let mut shifts = [9; 3];
    for number in 0..3 {
        if number == 1 {
            deliver(alloc, node, PASSED)?;
        }
        shifts[number] = node_sharing::share(node, alloc, &mut memory)?;
    }
    Ok(shifts)
}

#[test]
fn rights_follow_a_pass_alone(rt: HostRuntime) -> Result<(), Fail> {
    let mut node = node_of(rt.alloc(), 2)?;
    let shifts = node_rounds(rt.alloc(), &mut node)?;
    let rights = rights_of(rt.alloc(), &node)?;
    expect(&rt, &(shifts, rights), &([0, 1, 0], [5, 5, 0]));
    Ok(())
}

// Shifts in print.
fn shifts_text(alloc: Global, shifts: &[Shift]) -> Result<String, AllocError> {
    let mut text = String::new(alloc);
    for Shift {
        name,
        term,
        to,
        amount,
    } in shifts {
        let name = name.text();
        write!(text, "{name} {term} {to} {amount};")?;
    }
    Ok(text)
}

// The shifts of a spread. They aren't made.
fn dealt_text(alloc: Global, node: &NodeCore) -> Result<String, Fail> {
    let point = Name::parse(alloc, "p")?;
    let shifts = sharing::spread(alloc, node.state(), 0, 3, &point)?;
    Ok(shifts_text(alloc, &shifts)?)
}

// The shifts of a round. They aren't made.
fn due_text(alloc: Global, node: &mut NodeCore) -> Result<String, Fail> {
    deliver(alloc, node, PASSED)?;
    let mut memory = Memory::new(alloc);
    let (shifts, after) = memory.round(alloc, node.state(), 0, 3)?;
    memory.keep(after);
    Ok(shifts_text(alloc, &shifts)?)
}

#[test]
fn shifts_that_are_due(rt: HostRuntime) -> Result<(), Fail> {
    let mut node = node_of(rt.alloc(), 3)?;
    let dealt = dealt_text(rt.alloc(), &node)?;
    let due = due_text(rt.alloc(), &mut node)?;
    let wanted = ("p 0 1 3;p 0 2 3;", "p 0 1 5;");
    expect(&rt, &(dealt.as_str(), due.as_str()), &wanted);
    Ok(())
}

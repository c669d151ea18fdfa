//! One long run of operations of every kind, which both replicas learn in several orders, and what
//! they then answer, side by side.

use super::*;

/// How many operations the run has. The last 12 repeat the first 12.
const RUN: u16 = 204;

const HALF: u16 = 102;

/// The key of an operation. The stamps of the places 1 and 2 are equal.
fn key_at(place: u16) -> Keyed {
    match place {
        0 => (1, 0, "2*off->3*off->4*off"),
        1 => (2, 1, "5*off->6*off->5*off"),
        2 => (2, 1, "5*off->5*off->6*off"),
        _ => (3, 2, "7*off->8*off->9*off"),
    }
}

/// The name of an operation and its key in this round. The key of `a` that holds is the one at
/// place 3, and that of `b` is the one of two equal stamps with the greater text.
fn point_at(index: u16, round: u16) -> (&'static str, Keyed) {
    match index % 3 {
        0 => ("a", key_at(round % 2 * 3)),
        1 => ("b", key_at(round % 2 + 1)),
        _ => ("c", key_at(round % 4)),
    }
}

/// A setting or, in some rounds, a removal. The one of `c` holds.
fn setting_at(text: &str, round: u16, key: Keyed) -> Step {
    match (round % 5, text) {
        (4, "a") => Step::Remove(3, 1),
        (4, "b") => Step::Remove(2, 1),
        (4, _) => Step::Remove(4, 0),
        _ => Step::Set(key),
    }
}

/// The operation at a place of the run, and its name.
fn step_at(index: u16) -> (&'static str, Step) {
    let round = index % 192 / 12;
    let (text, key) = point_at(index, round);
    let number = u64::from(round % 8 * 5 % 8 + 1);
    let (shift, place) = (round % 3, index % 3);
    let node = ((shift + place) % 3) as u8;
    let to = ((shift + place + 1 + round % 2) % 3) as u8;
    let term = (round / 4 % 3) as u8;
    let step = match index / 3 % 4 {
        0 => setting_at(text, round, key),
        1 => Step::Hit(node, number),
        2 => Step::Exec(key, term, node, number),
        _ => Step::Shift(key, term, node, to, number),
    };
    (text, step)
}

/// What learns a part of the run, in its order or from its end.
fn part<R: Replica>(
    rt: &impl Abort,
    alloc: Global,
    from: u16,
    upto: u16,
    is_backwards: bool,
) -> Result<R, AllocError> {
    let mut replica = R::empty(alloc);
    for index in from..upto {
        let place = if is_backwards {
            upto - 1 - (index - from)
        } else {
            index
        };
        let (text, step) = step_at(place);
        learn_on(rt, alloc, &mut replica, text, step)?;
    }
    Ok(replica)
}

/// The names of the run, and one that nobody names.
fn all_of_run(alloc: Global) -> Result<Vec<Name>, AllocError> {
    let mut names = Vec::new(alloc);
    for text in ["a", "b", "c", "d"] {
        names.push(name(alloc, text)?)?;
    }
    Ok(names)
}

/// A name's clock, hits, executions of three terms and rights of the first term at three nodes.
const KNOWN: &[(&str, u64, u128, [u128; 3], [i128; 3])] = &[
    ("a", 3, 22, [14, 6, 14], [-10, -12, 15]),
    ("b", 2, 22, [12, 12, 4], [-14, 2, 5]),
    ("c", 4, 22, [0, 0, 0], [0, 0, 0]),
];

/// What a replica answers of a name, as the table has it, how many names there are, and whether this is
/// the name at its place.
type Known = ((u64, u128), [u128; 3], [i128; 3], (usize, bool));

fn known<R: Replica>(replica: &R, name: &Name, place: usize) -> Known {
    (
        (clock_of(replica, name), replica.total_hits(name)),
        [
            replica.spent(name, 0),
            replica.spent(name, 1),
            replica.spent(name, 2),
        ],
        [
            replica.rights(name, 0, 0),
            replica.rights(name, 0, 1),
            replica.rights(name, 0, 2),
        ],
        (replica.names(), replica.name_at(place) == Some(name)),
    )
}

/// Ends the test where a replica doesn't answer as the table has it.
fn expect_known<R: Replica>(rt: &impl Abort, alloc: Global, replica: &R) -> Result<(), AllocError> {
    for (place, (text, clock, hits, spent, rights)) in KNOWN.iter().enumerate() {
        let name = name(alloc, text)?;
        let wanted = ((*clock, *hits), *spent, *rights, (KNOWN.len(), true));
        expect(rt, &known(replica, &name, place), &wanted);
    }
    Ok(())
}

/// Ends the test where a replica that learned the run doesn't answer as the table has it, or by each
/// reader as the plain one.
fn expect_whole<R: Replica>(
    rt: &impl Abort,
    alloc: Global,
    replica: &R,
    names: &[Name],
    wanted: &[Answers],
) -> Result<(), AllocError> {
    expect_known(rt, alloc, replica)?;
    let found = answers(alloc, replica, names)?;
    expect(rt, &found.as_slice(), &wanted);
    Ok(())
}

/// Ends the test where a replica that learns the run, in its order or from its end, doesn't answer
/// so.
fn learns_in_order<R: Replica>(
    rt: &impl Abort,
    alloc: Global,
    names: &[Name],
    wanted: &[Answers],
) -> Result<(), AllocError> {
    for is_backwards in [false, true] {
        let whole: R = part(rt, alloc, 0, RUN, is_backwards)?;
        expect_whole(rt, alloc, &whole, names, wanted)?;
    }
    Ok(())
}

/// Ends the test where two halves don't come to the whole, in place of a copy of the first or beside
/// both.
fn expect_joined<R: Replica>(
    rt: &impl Abort,
    alloc: Global,
    (one, other): (&R, &R),
    names: &[Name],
    wanted: &[Answers],
) -> Result<(), AllocError> {
    let (grown, both) = two(grown(rt, alloc, one, other), one.joined(alloc, other))?;
    let orders = (one.is_bottom(), order(one, &both), same(&grown, &both));
    expect(rt, &orders, &(false, (true, false), true));
    expect_whole(rt, alloc, &grown, names, wanted)?;
    expect_whole(rt, alloc, &both, names, wanted)
}

/// Ends the test where two halves that know of different operations don't come to the whole, in either
/// direction.
fn expect_halves<R: Replica>(
    rt: &impl Abort,
    alloc: Global,
    (one, other): (&R, &R),
    names: &[Name],
    wanted: &[Answers],
) -> Result<(), AllocError> {
    expect(rt, &order(one, other), &(false, false));
    expect_joined(rt, alloc, (one, other), names, wanted)?;
    expect_joined(rt, alloc, (other, one), names, wanted)
}

/// Ends the test where two replicas that learn a half of the run each don't come to what learns all
/// of it.
fn joins_halves<R: Replica>(
    rt: &impl Abort,
    alloc: Global,
    names: &[Name],
    wanted: &[Answers],
) -> Result<(), AllocError> {
    let (one, other): (R, R) = two(
        part(rt, alloc, 0, HALF, false),
        part(rt, alloc, HALF, RUN, false),
    )?;
    expect_halves(rt, alloc, (&one, &other), names, wanted)
}

/// Ends the test where a replica doesn't come to what the plain one does.
fn learns<R: Replica>(
    rt: &impl Abort,
    alloc: Global,
    names: &[Name],
    wanted: &[Answers],
) -> Result<(), AllocError> {
    learns_in_order::<R>(rt, alloc, names, wanted)?;
    joins_halves::<R>(rt, alloc, names, wanted)
}

/// What the plain replica answers that learned the run.
fn plain_answers(
    rt: &impl Abort,
    alloc: Global,
    names: &[Name],
) -> Result<Vec<Answers>, AllocError> {
    let plain: OpSet = part(rt, alloc, 0, RUN, false)?;
    answers(alloc, &plain, names)
}

#[test]
fn one_run_in_several_orders(rt: HostRuntime) -> Result<(), Fail> {
    let names = all_of_run(rt.alloc())?;
    let wanted = plain_answers(&rt, rt.alloc(), &names)?;
    learns::<OpSet>(&rt, rt.alloc(), &names, &wanted)?;
    learns::<Matrix>(&rt, rt.alloc(), &names, &wanted)?;
    Ok(())
}

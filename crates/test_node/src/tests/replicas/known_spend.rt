//! A spend that is known before the shift that pays for it, and each reader of a point.

use super::*;

/// What a replica shows of a point: the clock of its key; the executions and the rights of the nodes
/// 0 and 1; what node 0 moved to node 1 and what node 1 granted itself; and the hits of node 1.
type Shown = (u64, [u64; 2], [i128; 2], [u64; 2], u64);

fn shown<R: Replica>(replica: &R, name: &Name) -> Shown {
    (
        clock_of(replica, name),
        [replica.exec(name, 0, 0), replica.exec(name, 0, 1)],
        [replica.rights(name, 0, 0), replica.rights(name, 0, 1)],
        [replica.moved(name, 0, 0, 1), replica.granted(name, 0, 1)],
        replica.hits(name, 1),
    )
}

/// The rights and the executions of both nodes together.
fn rights_and_spends((_, execs, rights, _, _): Shown) -> Option<i128> {
    let mut sum = 0i128;
    for number in rights {
        sum = sum.checked_add(number)?;
    }
    for number in execs {
        sum = sum.checked_add(i128::from(number))?;
    }
    Some(sum)
}

/// What all nodes spent, the rights and spends of both nodes, how many names there are, and whether
/// this name alone has a place.
fn sums<R: Replica>(replica: &R, name: &Name) -> (u128, Option<i128>, usize, bool) {
    let is_alone = replica.name_at(0) == Some(name) && replica.name_at(1).is_none();
    (
        replica.spent(name, 0),
        rights_and_spends(shown(replica, name)),
        replica.names(),
        is_alone,
    )
}

const A: Keyed = (1, 0, "2*off");

/// An operation on a, what is shown after it, what all nodes spent, and the rights and spends of both
/// nodes.
type Row = (Step, Shown, u128, i128);

const SPEND_BEFORE_SHIFT: &[Row] = &[
    (Step::Set(A), (1, [0, 0], [2, 0], [0, 0], 0), 0, 2),
    (
        Step::Exec(A, 0, 1, 1),
        (1, [0, 1], [2, -1], [0, 0], 0),
        1,
        2,
    ),
    (
        Step::Shift(A, 0, 0, 1, 1),
        (1, [0, 1], [1, 0], [1, 0], 0),
        1,
        2,
    ),
];

/// A grant adds to the rights of its node, and hits change no right. The next key starts anew, and
/// hits go on.
const GRANT_AND_HITS: &[Row] = &[
    (Step::Set(A), (1, [0, 0], [2, 0], [0, 0], 0), 0, 2),
    (
        Step::Grant(A, 0, 1, 3),
        (1, [0, 0], [2, 3], [0, 3], 0),
        0,
        5,
    ),
    (Step::Hit(1, 4), (1, [0, 0], [2, 3], [0, 3], 4), 0, 5),
    (Step::Exec(A, 0, 1, 2), (1, [0, 2], [2, 1], [0, 3], 4), 2, 5),
    (Step::Exec(A, 0, 0, 1), (1, [1, 2], [1, 1], [0, 3], 4), 3, 5),
    (
        Step::Shift(A, 0, 0, 1, 1),
        (1, [1, 2], [0, 2], [1, 3], 4),
        3,
        5,
    ),
    (
        Step::Set((2, 1, "7*off")),
        (2, [0, 0], [0, 7], [0, 0], 4),
        0,
        7,
    ),
];

/// A replica that learned the first operations of a table.
fn after<R: Replica>(
    rt: &impl Abort,
    alloc: Global,
    rows: &[Row],
    count: usize,
) -> Result<R, AllocError> {
    let mut replica = R::empty(alloc);
    for (step, _, _, _) in rows.iter().take(count) {
        learn_on(rt, alloc, &mut replica, "a", *step)?;
    }
    Ok(replica)
}

/// Checks what a replica shows after an operation.
fn expect_row<R: Replica>(rt: &impl Abort, replica: &R, name: &Name, row: &Row) {
    let (_, wanted, spent, total) = row;
    expect(rt, &shown(replica, name), wanted);
    expect(rt, &sums(replica, name), &(*spent, Some(*total), 1, true));
}

/// Checks that an operation that comes again changes nothing.
fn expect_no_news<R: Replica>(
    rt: &impl Abort,
    alloc: Global,
    replica: &R,
    name: &Name,
    rows: &[Row],
    (count, row): (usize, &Row),
) -> Result<(), AllocError> {
    let mut again = replica.copied(alloc)?;
    for (step, _, _, _) in rows.iter().take(count) {
        learn_on(rt, alloc, &mut again, "a", *step)?;
        expect(rt, &same(&again, replica), &true);
        expect_row(rt, &again, name, row);
    }
    Ok(())
}

/// Checks that an earlier state adds nothing, in place and as a join of its own.
fn expect_earlier_is_below<R: Replica>(
    rt: &impl Abort,
    alloc: Global,
    (replica, earlier): (&R, &R),
    name: &Name,
    row: &Row,
) -> Result<(), AllocError> {
    let (grown, both) = two(
        grown(rt, alloc, replica, earlier),
        replica.joined(alloc, earlier),
    )?;
    expect(
        rt,
        &(same(&grown, replica), same(&both, replica)),
        &(true, true),
    );
    expect_row(rt, &grown, name, row);
    expect_row(rt, &both, name, row);
    Ok(())
}

/// Checks the state after the first operations of a table: what it shows, its copy, and that nothing
/// earlier changes it.
fn expect_state<R: Replica>(
    rt: &impl Abort,
    alloc: Global,
    name: &Name,
    rows: &[Row],
    (count, row): (usize, &Row),
) -> Result<(), AllocError> {
    let replica: R = after(rt, alloc, rows, count)?;
    let show = |copy: &R| shown(copy, name);
    expect_copy(rt, alloc, &replica, show, &row.1)?;
    for earlier in 0..count {
        let earlier: R = after(rt, alloc, rows, earlier)?;
        expect_earlier_is_below(rt, alloc, (&replica, &earlier), name, row)?;
    }
    expect_no_news(rt, alloc, &replica, name, rows, (count, row))
}

/// Checks each state of a table.
fn expect_states<R: Replica>(
    rt: &impl Abort,
    alloc: Global,
    name: &Name,
    rows: &[Row],
) -> Result<(), AllocError> {
    for (index, row) in rows.iter().enumerate() {
        expect_state::<R>(rt, alloc, name, rows, (index.saturating_add(1), row))?;
    }
    Ok(())
}

fn both_states(rt: &impl Abort, alloc: Global, rows: &[Row]) -> Result<(), AllocError> {
    let name = name(alloc, "a")?;
    expect_states::<OpSet>(rt, alloc, &name, rows)?;
    expect_states::<Matrix>(rt, alloc, &name, rows)
}

#[test]
fn spend_known_before_its_shift(rt: HostRuntime) -> Result<(), Fail> {
    both_states(&rt, rt.alloc(), SPEND_BEFORE_SHIFT)?;
    both_states(&rt, rt.alloc(), GRANT_AND_HITS)?;
    Ok(())
}

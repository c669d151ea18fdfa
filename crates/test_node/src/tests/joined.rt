//! Joins of two values, of any type.

use super::expect;
use lattice_laws::Join;
use std::alloc::{AllocError, Global};
use std::fmt::Debug;
use std::process::Abort;

/// Whether the first value is below the second, and the second below the first.
pub(super) fn order<J: Join>(one: &J, other: &J) -> (bool, bool) {
    (one.below(other), other.below(one))
}

/// Whether two values mean the same.
pub(super) fn same<J: Join>(one: &J, other: &J) -> bool {
    order(one, other) == (true, true)
}

/// Two values, or the error of the first that failed. Both are dropped here, once for all types.
pub(super) fn two<J: Drop, E: Drop>(one: Result<J, E>, other: Result<J, E>) -> Result<(J, J), E> {
    Ok((one?, other?))
}

fn join_copy<J: Join>(alloc: Global, value: &mut J, other: &J) -> Result<(), AllocError> {
    value.join_in(alloc, other.copied(alloc)?)
}

/// A copy of a value, joined in place with another. A call that is refused memory must change
/// nothing, and is made again.
pub(super) fn grown<J: Join>(
    rt: &impl Abort,
    alloc: Global,
    one: &J,
    other: &J,
) -> Result<J, AllocError> {
    let mut grown = one.copied(alloc)?;
    expect(rt, &same(&grown, one), &true);
    if join_copy(alloc, &mut grown, other).is_err() {
        expect(rt, &same(&grown, one), &true);
        join_copy(alloc, &mut grown, other)?;
    }
    Ok(grown)
}

/// The join of two values, which must be above the first and mean the same as `grown`.
fn joined_above<J: Join>(
    rt: &impl Abort,
    alloc: Global,
    one: &J,
    other: &J,
    grown: &J,
) -> Result<J, AllocError> {
    let both = one.joined(alloc, other)?;
    expect(rt, &(one.below(&both), same(grown, &both)), &(true, true));
    Ok(both)
}

/// Checks the order of two values, whether the first is the bottom, and that each join of both shows
/// the wanted value: in place, and of either with the other. The values are dropped here, once for
/// all types.
pub(super) fn expect_joins<J: Join, V: PartialEq + Debug + Drop, F: Fn(&J) -> V>(
    rt: &impl Abort,
    alloc: Global,
    values: (J, J),
    orders: ((bool, bool), bool),
    show: F,
    wanted: &V,
) -> Result<(), AllocError>
    requires { F.IsAlwaysCallable show }
{
    let (one, other) = &values;
    expect(rt, &(order(one, other), one.is_bottom()), &orders);
    let grown = grown(rt, alloc, one, other)?;
    expect(rt, &show(&grown), wanted);
    for (left, right) in [(one, other), (other, one)] {
        let both = joined_above(rt, alloc, left, right, &grown)?;
        expect(rt, &show(&both), wanted);
    }
    Ok(())
}

/// Checks that a value shows this, and that its copy means the same and shows the same.
pub(super) fn expect_copy<J: Join, V: PartialEq + Debug + Drop, F: Fn(&J) -> V>(
    rt: &impl Abort,
    alloc: Global,
    value: &J,
    show: F,
    wanted: &V,
) -> Result<(), AllocError>
    requires { F.IsAlwaysCallable show }
{
    expect(rt, &show(value), wanted);
    let copy = value.copied(alloc)?;
    expect(rt, &same(&copy, value), &true);
    expect(rt, &show(&copy), wanted);
    Ok(())
}

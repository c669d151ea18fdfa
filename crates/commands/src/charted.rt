//! Which counted terms of a drill have a chart.

ghost use Rattle.std.specs.Prelude.{◌≡◌, ◌≤◌, length, map, IfOk};
ghost use Rattle.drill_picture.specs.Budgets.{budget_told};
ghost use Rattle.drill_picture.specs.Counted.{counted_told};
ghost use Rattle.commands.specs.Charted.{budget_of, budgets_of, charted, first_counted, has_chart};

use audit::{AuditFault, AuditYes, Total};
use drill_picture::{Budget, Counted};
use std::alloc::{AllocError, Global};

// The most charts of a picture.
const MOST_CHARTS: usize = 6;

// Whether a chart can show all rights of a total.
fn has_chart(total: &Total) -> bool
    ensures { result ≡ has_chart total.now }
{
    total.granted <= u128::from(u64::MAX - total.count)
}

// The budget that a total is of.
fn budget_of(total: &Total) -> Budget<'_>
    ensures { budget_told result ≡ budget_of total.now }
{
    Budget {
        name: total.name.text(),
        stamp: total.stamp,
        term: total.term,
        count: total.count,
    }
}

// The first budgets that have a chart.
fn charted(alloc: Global, totals: &[Total]) -> Result<Vec<Budget<'_>>, AllocError>
    ensures budgets { IfOk result (λ found. map budget_told found.items ≡ charted totals.now) }
    ensures few { IfOk result (λ found. length found.items ≤ 6) }
{
    let mut found = Vec::new(alloc);
    for total in totals {
        if has_chart(total) && found.len() < MOST_CHARTS {
            found.push(budget_of(total))?;
        }
    }
    Ok(found)
}

// The budget of a counted term.
fn budget_counted(counted: &Counted) -> Budget<'_>
    ensures { budget_told result ≡ counted_told counted.now }
{
    Budget {
        name: counted.name.as_str(),
        stamp: counted.stamp,
        term: counted.term,
        count: counted.count,
    }
}

// The first of these.
fn first_counted(alloc: Global, counted: &[Counted]) -> Result<Vec<Budget<'_>>, AllocError>
    ensures budgets { IfOk result (λ found.
        map budget_told found.items ≡ first_counted (map counted_told counted.now)) }
    ensures few { IfOk result (λ found. length found.items ≤ 6) }
{
    let mut found = Vec::new(alloc);
    for one in counted {
        if found.len() < MOST_CHARTS {
            found.push(budget_counted(one))?;
        }
    }
    Ok(found)
}

/// The counted terms that have a chart: where an audit says yes those of its totals whose rights a
/// chart can show, and else the first that the calls counted which stand.
pub fn budgets_of<'a>(
    alloc: Global,
    verdict: &'a Result<AuditYes, AuditFault>,
    counted: &'a [Counted],
) -> Result<Vec<Budget<'a>>, AllocError>
    ensures budgets { IfOk result (λ found.
        map budget_told found.items ≡ budgets_of verdict.now (map counted_told counted.now)) }
    ensures few { IfOk result (λ found. length found.items ≤ 6) }
{
    match verdict {
        Ok(found) => charted(alloc, &found.totals),
        Err(_) => first_counted(alloc, counted),
    }
}

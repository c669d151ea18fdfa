//! The columns of a chart.

ghost use Rattle.std.specs.Prelude.{◌≡◌, ◌<◌, ◌+◌, ◌^◌, ◌++◌, ◌∷◌, [], IfOk, OnOk, length, map, slice_index};
ghost use Rattle.drill_picture.specs.Budgets.{budget_told};
ghost use Rattle.drill_picture.specs.Charts.{columns_below, is_band, levels_below, levels_of};
ghost use Rattle.drill_picture.specs.Charts.{sum_upto};
ghost use Rattle.drill_picture.specs.Stories.{after_bin, story_behind, story_told};

use crate::budget::Budget;
use crate::place::Place;
use crate::row::Row;
use crate::scale::Scale;
use crate::story::Story;
use packed_trace::Trace;
use std::alloc::{AllocError, Global};

/// A column: how high above the base what was spent ends, and of each node what it holds and what is
/// on its way to it.
#[derive(Drop)]
pub(crate) struct Column {
    levels: Vec<u64>,
}

/// What lies below the next node's rights, where so many lie below a node's.
pub(crate) fn above(row: &Row, low: u64, node: u64) -> u64
    ensures { result ≡ sum_upto (sum_upto low (slice_index row.now.held node))
        (slice_index row.now.way node) }
{
    let held = low.saturating_add(row.held_by(node as usize));
    held.saturating_add(row.way_to(node as usize))
}

impl Column {
    // The column of a row.
    fn of(alloc: Global, row: &Row, nodes: u64) -> Result<Column, AllocError>
        ensures { IfOk result (λ column. levels_of column ≡ levels_below row.now nodes) }
    {
        let mut levels = Vec::new(alloc);
        let mut low = row.spent();
        levels.push(low)?;
        for node in 0..nodes {
            levels.push(low.saturating_add(row.held_by(node as usize)))?;
            low = above(row, low, node);
            levels.push(low)?;
        }
        Ok(Column { levels })
    }

    /// The height of a level.
    pub(crate) fn level(&self, level: usize) -> u64
        ensures { result ≡ slice_index (levels_of self.now) level }
    {
        match self.levels.get(level) {
            Some(height) => *height,
            None => 0,
        }
    }
}

/// Whether there is something above a level and below the next.
pub(crate) fn is_band(level: usize, columns: &[Column]) -> bool
    requires { level < 2 ^ 32 }
    ensures { result ≡ is_band level (map levels_of columns.now) }
{
    for column in columns {
        if column.level(level) < column.level(level + 1) {
            return true;
        }
    }
    false
}

/// The columns of a chart, and the row behind the last.
#[derive(Drop)]
pub(crate) struct Columns {
    pub(crate) columns: Vec<Column>,
    pub(crate) last: Row,
}

// The next column, behind the calls that it holds.
fn add_column(
    columns: &mut Vec<Column>,
    story: &mut Story,
    alloc: Global,
    traces: &[Trace],
    scale: &Scale,
    places: &[Place],
    budget: &Budget<'_>,
    bin: u64,
) -> Result<(), AllocError>
    ensures story { OnOk result (story_told story.new ≡ after_bin traces.now scale.now places.now
        (budget_told budget.now) bin (story_told story.old)) }
    ensures columns { OnOk result (map levels_of columns.new.items ≡ map levels_of columns.old.items
        ++ levels_below story.new.row scale.now.nodes ∷ []) }
    ensures few { OnOk result (length columns.new.items ≡ length columns.old.items + 1) }
{
    story.add_bin(alloc, traces, scale, places, budget, bin)?;
    columns.push(Column::of(alloc, &story.row, scale.nodes())?)?;
    Ok(())
}

/// All columns of a picture, and the row behind the last.
pub(crate) fn columns_of(
    alloc: Global,
    traces: &[Trace],
    scale: &Scale,
    places: &[Place],
    budget: &Budget<'_>,
) -> Result<Columns, AllocError>
    ensures columns { IfOk result (λ found. map levels_of found.columns.items
        ≡ columns_below traces.now scale.now places.now (budget_told budget.now) scale.now.shown) }
    ensures last { IfOk result (λ found. found.last
        ≡ (story_behind traces.now scale.now places.now (budget_told budget.now) scale.now.shown).row) }
    ensures few { IfOk result (λ found. length found.columns.items < 2 ^ 33) }
{
    let mut story = Story::first(alloc, traces.len())?;
    let mut columns = Vec::new(alloc);
    for bin in 0..scale.shown() {
        add_column(
            &mut columns,
            &mut story,
            alloc,
            traces,
            scale,
            places,
            budget,
            bin,
        )?;
    }
    let Story {
        row,
        known: _,
        parcels: _,
    } = story;
    Ok(Columns { columns, last: row })
}

//! The charts of a picture.

ghost use Rattle.std.specs.Prelude.{◌≡◌, ◌≤◌, ◌<◌, ◌+◌, ◌++◌, ◌*◌, ◌^◌, codes, length, map, max, min};
ghost use Rattle.std.specs.Prelude.{slice_index};
ghost use Rattle.stamp_register.specs.Keys.{stamp_text};
ghost use Rattle.drill_picture.specs.Budgets.{budget_told};
ghost use Rattle.drill_picture.specs.Charts.{all_held, all_on_their_way, area_text, areas_text};
ghost use Rattle.drill_picture.specs.Charts.{axis_at, axis_text, band_at, band_text, bands_below};
ghost use Rattle.drill_picture.specs.Charts.{budget_line, chart_of, chart_text, charts_from};
ghost use Rattle.drill_picture.specs.Charts.{drop_of, edge_from, ground_at, ground_text, label_at};
ghost use Rattle.drill_picture.specs.Charts.{label_text, labels_below, levels_of, places_text};
ghost use Rattle.drill_picture.specs.Charts.{rights_text, step_text, sum_line, sum_upto, sums_text};
ghost use Rattle.drill_picture.specs.Charts.{term_text};
ghost use Rattle.drill_picture.specs.Marks.{Adds};

use crate::budget::Budget;
use crate::column::{Column, above, columns_of, is_band};
use crate::escaping::push_escaped;
use crate::marks::{push_at, push_point};
use crate::place::Place;
use crate::row::Row;
use crate::scale::Scale;
use packed_trace::Trace;
use stamp_register::Stamp;
use std::alloc::{AllocError, Global};
use std::fmt::Write;

/// Where a chart begins, which is 96 high, and for how many rights that is.
#[derive(Clone, Copy)]
struct Frame {
    top: u64,
    most: u64,
    ghost low: { top < 2 ^ 60 },
    ghost some: { 1 ≤ most },
}

// How far below the top so many rights are.
fn drop_of(frame: Frame, rights: u64) -> u64
    ensures drop { result ≡ drop_of frame.most rights }
    ensures within { result ≤ 96 }
{
    let height = u128::from(rights) * 96 / u128::from(frame.most);
    96 - height.min(96) as u64
}

fn push_step(out: &mut String, x: u64, last: u64, y: u64) -> Result<(), AllocError>
    ensures { Adds result out.old out.new (step_text x last y) }
{
    if y == last {
        return Ok(());
    }
    write!(out, "H{x}V{y}")
}

// The edge of what lies above a level.
fn push_edge(
    out: &mut String,
    scale: &Scale,
    frame: Frame,
    level: usize,
    columns: &[Column],
) -> Result<(), AllocError>
    requires { length columns.now < 2 ^ 33 }
    ensures { Adds result out.old out.new (edge_from scale.now frame.top frame.most level 0 frame.top
        (map levels_of columns.now)) }
{
    let mut last = frame.top;
    for (bin, column) in columns.iter().enumerate() {
        let y = frame.top + drop_of(frame, column.level(level));
        push_step(out, scale.bin_x(bin as u64), last, y)?;
        last = y;
    }
    Ok(())
}

// What lies above a level.
#[tactic(auto, unfolding(crate::specs::Charts::area_text))]
fn push_area(
    out: &mut String,
    scale: &Scale,
    frame: Frame,
    level: usize,
    columns: &[Column],
) -> Result<(), AllocError>
    requires { length columns.now < 2 ^ 33 }
    ensures { Adds result out.old out.new
        (area_text scale.now frame.top frame.most level (map levels_of columns.now)) }
{
    push_point(out, scale.bin_x(0), frame.top)?;
    push_edge(out, scale, frame, level, columns)?;
    let top = frame.top;
    writeln!(out, "H888V{top}z'/>")
}

// It has a colour.
fn push_band_at(
    out: &mut String,
    scale: &Scale,
    frame: Frame,
    columns: &[Column],
    kind: &str,
    colour: u64,
    level: usize,
) -> Result<(), AllocError>
    requires { length columns.now < 2 ^ 33 }
    ensures { Adds result out.old out.new (band_at scale.now frame.top frame.most
        (map levels_of columns.now) kind.now colour level) }
{
    write!(out, "<path class='{kind}{colour}' d='M")?;
    push_area(out, scale, frame, level, columns)
}

// It has the node's colour, if there is anything below the next level.
fn push_band(
    out: &mut String,
    scale: &Scale,
    frame: Frame,
    columns: &[Column],
    kind: &str,
    node: u64,
    level: usize,
) -> Result<(), AllocError>
    requires columns { length columns.now < 2 ^ 33 }
    requires level { level < 2 ^ 32 }
    ensures { Adds result out.old out.new (band_text scale.now frame.top frame.most
        (map levels_of columns.now) kind.now node level) }
{
    if !is_band(level, columns) {
        return Ok(());
    }
    push_band_at(out, scale, frame, columns, kind, node % 8, level)
}

// What nodes hold, and what is on its way to them.
fn push_bands(
    out: &mut String,
    scale: &Scale,
    frame: Frame,
    columns: &[Column],
) -> Result<(), AllocError>
    requires { length columns.now < 2 ^ 33 }
    ensures { Adds result out.old out.new (bands_below scale.now frame.top frame.most
        (map levels_of columns.now) scale.now.nodes) }
{
    for node in 0..scale.nodes() {
        let level = 2 * (node as usize);
        push_band(out, scale, frame, columns, "own", node, level)?;
        push_band(out, scale, frame, columns, "way", node, level + 1)?;
    }
    Ok(())
}

fn push_ground_at(out: &mut String, x: u64, top: u64, base: u64) -> Result<(), AllocError>
    ensures { Adds result out.old out.new (ground_at x top base) }
{
    out.push_str("<path class='spent' d='M")?;
    push_point(out, x, top)?;
    writeln!(out, "V{base}H888V{top}z'/>")
}

// The ground, which is what was spent.
fn push_ground(out: &mut String, scale: &Scale, frame: Frame) -> Result<(), AllocError>
    ensures { Adds result out.old out.new (ground_text scale.now frame.top) }
{
    push_ground_at(out, scale.bin_x(0), frame.top, frame.top + 96)
}

#[tactic(auto, unfolding(crate::specs::Charts::areas_text))]
fn push_areas(
    out: &mut String,
    scale: &Scale,
    frame: Frame,
    columns: &[Column],
) -> Result<(), AllocError>
    requires { length columns.now < 2 ^ 33 }
    ensures { Adds result out.old out.new
        (areas_text scale.now frame.top frame.most (map levels_of columns.now)) }
{
    push_ground(out, scale, frame)?;
    push_bands(out, scale, frame, columns)?;
    out.push_str("<path class='bg' d='M")?;
    push_area(out, scale, frame, 2 * (scale.nodes() as usize), columns)
}

#[tactic(auto, unfolding(crate::specs::Charts::term_text))]
fn push_term(out: &mut String, stamp: Stamp, term: u8) -> Result<(), AllocError>
    ensures { Adds result out.old out.new (term_text (stamp_text stamp) term) }
{
    write!(out, " {stamp} term {term}</text>")
}

// Which term it is.
#[tactic(auto, unfolding(crate::specs::Charts::budget_line))]
fn push_budget(
    out: &mut String,
    y: u64,
    name: &str,
    stamp: Stamp,
    term: u8,
) -> Result<(), AllocError>
    ensures { Adds result out.old out.new
        (budget_line y name.now (stamp_text stamp) term) }
{
    out.push_str("<text class='strong'")?;
    push_at(out, 12, y)?;
    out.push_str(">")?;
    push_escaped(out, name)?;
    push_term(out, stamp, term)
}

// What all nodes hold, and what is on its way to all of them.
fn all_held(row: &Row, nodes: u64) -> u64
    ensures { result ≡ all_held row.now nodes }
{
    let mut all: u64 = 0;
    for node in 0..nodes {
        all = all.saturating_add(row.held_by(node as usize));
    }
    all
}

fn all_on_their_way(row: &Row, nodes: u64) -> u64
    ensures { result ≡ all_on_their_way row.now nodes }
{
    let mut all: u64 = 0;
    for node in 0..nodes {
        all = all.saturating_add(row.way_to(node as usize));
    }
    all
}

fn push_rights(out: &mut String, counted: u64, granted: u64) -> Result<(), AllocError>
    ensures { Adds result out.old out.new (rights_text counted granted) }
{
    write!(out, "{counted} counted + {granted} granted = ")
}

fn push_places(out: &mut String, spent: u64, held: u64, way: u64) -> Result<(), AllocError>
    ensures { Adds result out.old out.new (places_text spent held way) }
{
    writeln!(out, "{spent} spent + {held} held + {way} in transit</text>")
}

// What it comes to, as a sum.
#[tactic(auto, unfolding(crate::specs::Charts::sum_line))]
fn push_sum_line(
    out: &mut String,
    y: u64,
    counted: u64,
    granted: u64,
    spent: u64,
    held: u64,
    way: u64,
) -> Result<(), AllocError>
    ensures { Adds result out.old out.new (sum_line y counted granted spent held way) }
{
    out.push_str("<text class='said'")?;
    push_at(out, 988, y)?;
    out.push_str(">")?;
    push_rights(out, counted, granted)?;
    push_places(out, spent, held, way)
}

fn push_sums(
    out: &mut String,
    y: u64,
    budget: &Budget<'_>,
    row: &Row,
    nodes: u64,
) -> Result<(), AllocError>
    ensures { Adds result out.old out.new (sums_text y (budget_told budget.now) row.now nodes) }
{
    push_budget(out, y, budget.name, budget.stamp, budget.term)?;
    let counted = budget.count.min(row.whole());
    let granted = row.whole() - counted;
    let held = all_held(row, nodes);
    let way = all_on_their_way(row, nodes);
    push_sum_line(out, y, counted, granted, row.spent(), held, way)
}

#[tactic(auto, unfolding(crate::specs::Charts::label_at))]
fn push_label_at(
    out: &mut String,
    y: u64,
    amount: u64,
    words: &str,
    node: u64,
) -> Result<(), AllocError>
    ensures { Adds result out.old out.new (label_at y amount words.now node) }
{
    out.push_str("<text")?;
    push_at(out, 894, y)?;
    writeln!(out, ">{amount}{words}{node}</text>")
}

// How many these are in the end, where a line fits.
#[tactic(auto, unfolding(crate::specs::Charts::label_text))]
fn push_label(
    out: &mut String,
    frame: Frame,
    low: u64,
    amount: u64,
    words: &str,
    node: u64,
) -> Result<(), AllocError>
    ensures { Adds result out.old out.new
        (label_text frame.top frame.most low amount words.now node) }
{
    let from = drop_of(frame, low);
    let to = drop_of(frame, low.saturating_add(amount));
    if from < to + 11 {
        return Ok(());
    }
    push_label_at(out, frame.top + (from + to) / 2 + 4, amount, words, node)
}

// How many rights a node has, and how many are on their way to it, where so many lie below.
fn push_labels_of(
    out: &mut String,
    frame: Frame,
    low: u64,
    row: &Row,
    node: u64,
) -> Result<(), AllocError>
    ensures { Adds result out.old out.new (label_text frame.top frame.most low
        (slice_index row.now.held node) (codes " node ") node
        ++ label_text frame.top frame.most (sum_upto low (slice_index row.now.held node))
        (slice_index row.now.way node) (codes " to node ") node) }
{
    let held = row.held_by(node as usize);
    push_label(out, frame, low, held, " node ", node)?;
    let way = row.way_to(node as usize);
    push_label(out, frame, low.saturating_add(held), way, " to node ", node)
}

fn push_labels(out: &mut String, frame: Frame, row: &Row, nodes: u64) -> Result<(), AllocError>
    ensures { Adds result out.old out.new (labels_below frame.top frame.most row.now nodes) }
{
    let mut low = row.spent();
    for node in 0..nodes {
        push_labels_of(out, frame, low, row, node)?;
        low = above(row, low, node);
    }
    Ok(())
}

fn push_axis_at(out: &mut String, y: u64, most: u64, count_y: u64) -> Result<(), AllocError>
    ensures { Adds result out.old out.new (axis_at y most count_y) }
{
    out.push_str("<text class='end'")?;
    push_at(out, 70, y)?;
    write!(out, ">{most}")?;
    writeln!(out, "</text><path class='count' d='M76 {count_y}H888'/>")
}

// The chart's scale, and a line where the count is.
fn push_axis(out: &mut String, frame: Frame, counted: u64) -> Result<(), AllocError>
    ensures { Adds result out.old out.new (axis_text frame.top frame.most counted) }
{
    let count_y = frame.top + drop_of(frame, counted);
    push_axis_at(out, frame.top + 8, frame.most, count_y)
}

// A chart, whose row of words begins at a top.
#[tactic(auto, unfolding(crate::specs::Charts::chart_of))]
fn push_chart_of(
    out: &mut String,
    scale: &Scale,
    columns: &[Column],
    top: u64,
    budget: &Budget<'_>,
    row: &Row,
) -> Result<(), AllocError>
    requires columns { length columns.now < 2 ^ 33 }
    requires top { top < 2 ^ 59 }
    ensures { Adds result out.old out.new (chart_of scale.now (map levels_of columns.now) top
        (budget_told budget.now) row.now) }
{
    let frame = Frame {
        top: top + 24,
        most: row.whole().max(1),
    };
    push_sums(out, top + 14, budget, row, scale.nodes())?;
    push_areas(out, scale, frame, columns)?;
    push_axis(out, frame, budget.count.min(row.whole()))?;
    push_labels(out, frame, row, scale.nodes())
}

fn push_chart(
    out: &mut String,
    alloc: Global,
    traces: &[Trace],
    scale: &Scale,
    places: &[Place],
    top: u64,
    budget: &Budget<'_>,
) -> Result<(), AllocError>
    requires { top < 2 ^ 59 }
    ensures { Adds result out.old out.new
        (chart_text traces.now scale.now places.now top (budget_told budget.now)) }
{
    let found = columns_of(alloc, traces, scale, places, budget)?;
    push_chart_of(out, scale, &found.columns, top, budget, &found.last)
}

/// A chart of each budget, from a top on.
pub(crate) fn push_charts(
    out: &mut String,
    alloc: Global,
    traces: &[Trace],
    scale: &Scale,
    places: &[Place],
    top: u64,
    budgets: &[Budget<'_>],
) -> Result<(), AllocError>
    requires top { top < 2 ^ 48 }
    requires few { length budgets.now ≤ 256 }
    ensures { Adds result out.old out.new
        (charts_from traces.now scale.now places.now top (map budget_told budgets.now)) }
{
    let mut next = top;
    for budget in budgets {
        push_chart(out, alloc, traces, scale, places, next, budget)?;
        next += 130;
    }
    Ok(())
}

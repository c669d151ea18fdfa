//! The whole picture.

ghost use Rattle.std.specs.Prelude.{◌≡◌, ◌-◌, ◌≤◌, length, map, slice_get, IfOk, string_bytes};
ghost use Rattle.drill_picture.specs.Bars.{own_of};
ghost use Rattle.drill_picture.specs.Budgets.{budget_told};
ghost use Rattle.drill_picture.specs.Marks.{Adds};
ghost use Rattle.drill_picture.specs.Picture.{IsPicture, body_text, calls_in, calls_text};
ghost use Rattle.drill_picture.specs.Picture.{column_behind, missing_text, picture_of, wait_at, wait_of, wait_text};
ghost use Rattle.drill_picture.specs.Picture.{waits_below};

use crate::arrow::arrows;
use crate::bars::{own_of, push_all_bars};
use crate::budget::Budget;
use crate::charts::push_charts;
use crate::heading::{push_foot, push_head, push_heading, push_lanes, push_wrong};
use crate::marks::{push_arrows, push_at, push_marks, push_use};
use crate::place::Place;
use crate::placing::{Placed, place_calls};
use crate::scale::Scale;
use crate::shapes::{LEGEND, SHAPES};
use packed_trace::Trace;
use std::alloc::{AllocError, Global};
use std::fmt::Write;

// Each call as a mark and each message as an arrow, or bars where they are too many.
fn push_calls(
    out: &mut String,
    alloc: Global,
    traces: &[Trace],
    scale: &Scale,
    places: &[Place],
) -> Result<(), AllocError>
    ensures { Adds result out.old out.new (calls_text traces.now scale.now places.now) }
{
    if scale.is_binned() {
        return push_all_bars(out, alloc, traces, scale, places);
    }
    let found = arrows(alloc, traces, places)?;
    push_arrows(out, scale, &found)?;
    push_marks(out, traces, scale, places)
}

// The column behind the last of the places, or the last one that a number can tell.
fn column_behind(own: &[Place]) -> u32
    ensures { result ≡ column_behind (slice_get own.now (length own.now - 1)) }
{
    match own.last() {
        Some(place) => place.column.saturating_add(1),
        None => 0,
    }
}

/// How many calls the trace of a node has.
pub(crate) fn calls_in(traces: &[Trace], node: usize) -> usize
    ensures { result ≡ calls_in (slice_get traces.now node) }
{
    match traces.get(node) {
        Some(trace) => trace.len(),
        None => 0,
    }
}

#[tactic(auto, unfolding(crate::specs::Picture::missing_text))]
fn push_missing(out: &mut String, index: usize, missing: usize) -> Result<(), AllocError>
    ensures { Adds result out.old out.new (missing_text index missing) }
{
    writeln!(
        out,
        "call {index} waits for its message; not placed: {missing}</text>"
    )
}

fn push_wait_at(
    out: &mut String,
    x: u64,
    y: u64,
    index: usize,
    missing: usize,
) -> Result<(), AllocError>
    ensures { Adds result out.old out.new (wait_at x y index missing) }
{
    push_use(out, "stuck", x, y)?;
    out.push_str("/><text class='no'")?;
    push_at(out, x, y)?;
    out.push_str(" dx='12' dy='4'>")?;
    push_missing(out, index, missing)
}

fn push_wait_in(
    out: &mut String,
    scale: &Scale,
    node: u8,
    column: u32,
    index: usize,
    missing: usize,
) -> Result<(), AllocError>
    ensures { Adds result out.old out.new (wait_text scale.now node column index missing) }
{
    let x = scale.column_x(column);
    let y = scale.lane_y(node);
    push_wait_at(out, x, y, index, missing)
}

// Marks a node's first call that doesn't stand, if there is one.
fn push_wait(
    out: &mut String,
    scale: &Scale,
    node: u8,
    own: &[Place],
    calls: usize,
) -> Result<(), AllocError>
    ensures { Adds result out.old out.new (wait_of scale.now node own.now calls) }
{
    if calls <= own.len() {
        return Ok(());
    }
    push_wait_in(
        out,
        scale,
        node,
        column_behind(own),
        own.len(),
        calls - own.len(),
    )
}

// Marks what waits at a node.
fn push_wait_of(
    out: &mut String,
    alloc: Global,
    traces: &[Trace],
    scale: &Scale,
    places: &[Place],
    node: u8,
) -> Result<(), AllocError>
    ensures { Adds result out.old out.new (wait_of scale.now node (own_of node places.now)
        (calls_in (slice_get traces.now node))) }
{
    let own = own_of(alloc, node, places)?;
    push_wait(out, scale, node, &own, calls_in(traces, node as usize))
}

// Marks what waits at each node.
fn push_waits(
    out: &mut String,
    alloc: Global,
    traces: &[Trace],
    scale: &Scale,
    places: &[Place],
) -> Result<(), AllocError>
    ensures { Adds result out.old out.new
        (waits_below traces.now scale.now places.now scale.now.nodes) }
{
    for node in 0..scale.nodes() {
        push_wait_of(out, alloc, traces, scale, places, node as u8)?;
    }
    Ok(())
}

// From top to bottom, and what is drawn over other signs behind them.
fn push_body(
    out: &mut String,
    alloc: Global,
    traces: &[Trace],
    scale: &Scale,
    places: &[Place],
    wrong: Option<(u8, u32)>,
    budgets: &[Budget<'_>],
) -> Result<(), AllocError>
    requires { length budgets.now ≤ 256 }
    ensures { Adds result out.old out.new (body_text traces.now scale.now places.now wrong
        (map budget_told budgets.now)) }
{
    push_lanes(out, scale)?;
    push_calls(out, alloc, traces, scale, places)?;
    push_waits(out, alloc, traces, scale, places)?;
    push_wrong(out, scale, places, wrong)?;
    let top = scale.lanes_end();
    push_charts(out, alloc, traces, scale, places, top, budgets)
}

// The picture of calls that stand so.
#[tactic(auto, unfolding(crate::specs::Picture::picture_of))]
fn push_picture(
    out: &mut String,
    alloc: Global,
    traces: &[Trace],
    headline: &str,
    wrong: Option<(u8, u32)>,
    budgets: &[Budget<'_>],
    placed: &Placed,
) -> Result<(), AllocError>
    requires traces { length traces.now ≤ 256 }
    requires budgets { length budgets.now ≤ 256 }
    ensures { Adds result out.old out.new (picture_of SHAPES.now LEGEND.now
        traces.now headline.now wrong (map budget_told budgets.now)
        placed.now.columns placed.now.places.items) }
{
    let scale = Scale::of(traces.len(), placed.columns);
    let end = scale.lanes_end() + 130 * budgets.len() as u64;
    push_head(out, SHAPES, end + 76)?;
    push_heading(
        out,
        scale.nodes(),
        placed.places.len(),
        placed.columns,
        headline,
    )?;
    push_body(out, alloc, traces, &scale, &placed.places, wrong, budgets)?;
    push_foot(out, LEGEND, end)
}

/// The picture of a drill's traces, which stand in the order of their nodes, as an SVG. Its heading
/// ends with a line that says what was found of the drill, and where a node doesn't reply as its trace
/// says, that call is marked: its node, and its index. What waits for a message that was never made is
/// marked by itself, and not drawn further. Below the lanes each of the budgets has a chart of where its
/// rights are behind each column.
pub fn picture(
    alloc: Global,
    traces: &[Trace],
    headline: &str,
    wrong: Option<(u8, u32)>,
    budgets: &[Budget<'_>],
) -> Result<String, AllocError>
    requires traces { length traces.now ≤ 256 }
    requires budgets { length budgets.now ≤ 256 }
    ensures { IfOk result (λ text. IsPicture SHAPES.now LEGEND.now
        traces.now headline.now wrong (map budget_told budgets.now) (string_bytes text)) }
{
    let placed = place_calls(alloc, traces)?;
    let mut out = String::new(alloc);
    push_picture(&mut out, alloc, traces, headline, wrong, budgets, &placed)?;
    Ok(out)
}

//! The bars of a picture whose columns hold several calls.

ghost use Rattle.std.specs.Prelude.{◌≡◌, ◌<◌, ◌^◌, IfOk, option_map};
ghost use Rattle.packed_trace.specs.Packed.{seen_told};
ghost use Rattle.drill_picture.specs.Bars.{all_bars_below, bar_text, bars_below, bars_text};
ghost use Rattle.drill_picture.specs.Bars.{count_in, lane_bars, own_of, runs_of, runs_told};
ghost use Rattle.drill_picture.specs.Marks.{Adds};

use crate::calls::call_at;
use crate::place::Place;
use crate::scale::Scale;
use crate::sign::Sign;
use packed_trace::{Seen, Trace};
use std::alloc::{AllocError, Global};
use std::fmt::Write;

/// The places at a node.
pub(crate) fn own_of(alloc: Global, node: u8, places: &[Place]) -> Result<Vec<Place>, AllocError>
    ensures { IfOk result (λ own. own.items ≡ own_of node places.now) }
{
    let mut own = Vec::new(alloc);
    for place in places {
        if place.node == node {
            own.push(*place)?;
        }
    }
    Ok(own)
}

// Whether a call ran a term.
fn runs(call: Option<Seen<'_>>) -> bool
    ensures { result ≡ runs_told (option_map seen_told call.entry) }
{
    match call {
        Some(call) => Sign::of(call.reply()).is_run(),
        None => false,
    }
}

// Those of the places whose call ran a term.
fn runs_of(alloc: Global, traces: &[Trace], places: &[Place]) -> Result<Vec<Place>, AllocError>
    ensures { IfOk result (λ found. found.items ≡ runs_of traces.now places.now) }
{
    let mut found = Vec::new(alloc);
    for place in places {
        if runs(call_at(traces, place.node as usize, place.index)) {
            found.push(*place)?;
        }
    }
    Ok(found)
}

// How many of the places a column of the picture holds.
fn count_in(scale: &Scale, bin: u64, places: &[Place]) -> usize
    ensures { result ≡ count_in scale.now bin places.now }
{
    let mut count = 0;
    for place in places {
        if scale.bin_of(place.column) == bin {
            count += 1;
        }
    }
    count
}

#[tactic(auto, unfolding(crate::specs::Bars::bar_text))]
fn push_bar(
    out: &mut String,
    scale: &Scale,
    node: u8,
    bin: u64,
    count: usize,
) -> Result<(), AllocError>
    requires { bin < 2 ^ 33 }
    ensures { Adds result out.old out.new (bar_text scale.now node bin count) }
{
    if count == 0 {
        return Ok(());
    }
    let x = scale.bin_x(bin);
    let y = scale.lane_y(node);
    let height = scale.bar_height(count as u64);
    write!(out, "M{x} {y}v-{height}")
}

#[tactic(auto, unfolding(crate::specs::Bars::bars_text))]
fn push_bars(
    out: &mut String,
    scale: &Scale,
    class: &str,
    node: u8,
    places: &[Place],
) -> Result<(), AllocError>
    ensures { Adds result out.old out.new (bars_text scale.now class.now node places.now) }
{
    write!(out, "<path class='{class}' d='M0 0")?;
    push_bars_below(out, scale, node, places)?;
    out.push_str("'/>\n")
}

fn push_bars_below(
    out: &mut String,
    scale: &Scale,
    node: u8,
    places: &[Place],
) -> Result<(), AllocError>
    ensures { Adds result out.old out.new
        (bars_below scale.now node places.now scale.now.shown) }
{
    for bin in 0..scale.shown() {
        push_bar(out, scale, node, bin, count_in(scale, bin, places))?;
    }
    Ok(())
}

// Of one lane all calls, and behind them those that ran a term.
fn push_lane(
    out: &mut String,
    alloc: Global,
    traces: &[Trace],
    scale: &Scale,
    places: &[Place],
    node: u8,
) -> Result<(), AllocError>
    ensures { Adds result out.old out.new (lane_bars traces.now scale.now places.now node) }
{
    let own = own_of(alloc, node, places)?;
    push_bars(out, scale, "calls", node, &own)?;
    let ran = runs_of(alloc, traces, &own)?;
    push_bars(out, scale, "runs", node, &ran)
}

/// The bars of all lanes.
pub(crate) fn push_all_bars(
    out: &mut String,
    alloc: Global,
    traces: &[Trace],
    scale: &Scale,
    places: &[Place],
) -> Result<(), AllocError>
    ensures { Adds result out.old out.new
        (all_bars_below traces.now scale.now places.now scale.now.nodes) }
{
    for node in 0..scale.nodes() {
        push_lane(out, alloc, traces, scale, places, node as u8)?;
    }
    Ok(())
}

//! What stands round the calls of a picture.

ghost use Rattle.std.specs.Prelude.{◌≡◌, length, find, ◌==◌, ◌&&◌};
ghost use Rattle.drill_picture.specs.Marks.{Adds};
ghost use Rattle.drill_picture.specs.Picture.{colour_text, counts_text, foot_text, head_text};
ghost use Rattle.drill_picture.specs.Picture.{heading_text, lane_at, lane_text, node_text, size_text};
ghost use Rattle.drill_picture.specs.Picture.{lanes_below, wrong_at, wrong_text};

use crate::escaping::push_escaped;
use crate::marks::{push_at, push_use};
use crate::place::Place;
use crate::scale::Scale;
use std::alloc::AllocError;
use std::fmt::Write;

fn push_size(out: &mut String, height: u64) -> Result<(), AllocError>
    ensures { Adds result out.old out.new (size_text height) }
{
    write!(
        out,
        "viewBox='0 0 1000 {height}' width='1000' height='{height}'"
    )
}

pub(crate) fn push_head(out: &mut String, shapes: &str, height: u64) -> Result<(), AllocError>
    ensures { Adds result out.old out.new (head_text shapes.now height) }
{
    out.push_str("<svg xmlns='http://www.w3.org/2000/svg' ")?;
    push_size(out, height)?;
    out.push_str(" role='img'>\n")?;
    out.push_str(shapes)
}

#[tactic(auto, unfolding(crate::specs::Picture::counts_text))]
fn push_counts(out: &mut String, nodes: u64, calls: usize, columns: u32) -> Result<(), AllocError>
    ensures { Adds result out.old out.new (counts_text nodes calls columns) }
{
    write!(out, "A drill of {nodes} nodes: {calls} calls in {columns}")
}

#[tactic(auto, unfolding(crate::specs::Picture::heading_text))]
pub(crate) fn push_heading(
    out: &mut String,
    nodes: u64,
    calls: usize,
    columns: u32,
    headline: &str,
) -> Result<(), AllocError>
    ensures { Adds result out.old out.new (heading_text nodes calls columns headline.now) }
{
    out.push_str("<text class='big' x='12' y='25'>")?;
    push_counts(out, nodes, calls, columns)?;
    out.push_str(" columns</text>\n<text class='said' x='988' y='25'>")?;
    push_escaped(out, headline)?;
    out.push_str("</text>\n")
}

#[tactic(auto, unfolding(crate::specs::Picture::foot_text))]
pub(crate) fn push_foot(out: &mut String, legend: &str, top: u64) -> Result<(), AllocError>
    ensures { Adds result out.old out.new (foot_text legend.now top) }
{
    writeln!(out, "<g transform='translate(0 {top})'>")?;
    out.push_str(legend)?;
    out.push_str("</g>\n</svg>\n")
}

fn push_colour(out: &mut String, node: u8, y: u64) -> Result<(), AllocError>
    ensures { Adds result out.old out.new (colour_text node y) }
{
    let colour = node % 8;
    write!(out, "<use href='#n{colour}'")?;
    push_at(out, 17, y)?;
    out.push_str("/>")
}

#[tactic(auto, unfolding(crate::specs::Picture::node_text))]
fn push_node(out: &mut String, node: u8, y: u64) -> Result<(), AllocError>
    ensures { Adds result out.old out.new (node_text node y) }
{
    out.push_str("<text")?;
    push_at(out, 27, y)?;
    write!(out, " dy='4'>node {node}</text>")
}

fn push_lane_at(out: &mut String, node: u8, y: u64) -> Result<(), AllocError>
    ensures { Adds result out.old out.new (lane_at node y) }
{
    push_colour(out, node, y)?;
    push_node(out, node, y)?;
    writeln!(out, "<path class='lane' d='M76 {y}H888'/>")
}

fn push_lane(out: &mut String, scale: &Scale, node: u8) -> Result<(), AllocError>
    ensures { Adds result out.old out.new (lane_text scale.now node) }
{
    push_lane_at(out, node, scale.lane_y(node))
}

/// The name and the line of each node.
pub(crate) fn push_lanes(out: &mut String, scale: &Scale) -> Result<(), AllocError>
    ensures { Adds result out.old out.new (lanes_below scale.now scale.now.nodes) }
{
    for node in 0..scale.nodes() {
        push_lane(out, scale, node as u8)?;
    }
    Ok(())
}

// The place of a call, if it stands.
fn place_of(places: &[Place], node: u8, index: u32) -> Option<Place>
    ensures { result ≡ find (λ p. (p.node == node) && (p.index == index)) places.now }
{
    for place in places {
        if place.node == node && place.index == index {
            return Some(*place);
        }
    }
    None
}

fn push_wrong_at(out: &mut String, scale: &Scale, place: Option<Place>) -> Result<(), AllocError>
    ensures { Adds result out.old out.new (wrong_at scale.now place) }
{
    let Some(place) = place else {
        return Ok(());
    };
    let x = scale.column_x(place.column);
    let y = scale.lane_y(place.node);
    push_use(out, "wrong", x, y)?;
    out.push_str("/>\n")
}

/// Marks the call that a node doesn't reply so, if it is told and stands.
pub(crate) fn push_wrong(
    out: &mut String,
    scale: &Scale,
    places: &[Place],
    wrong: Option<(u8, u32)>,
) -> Result<(), AllocError>
    ensures { Adds result out.old out.new (wrong_text scale.now places.now wrong) }
{
    match wrong {
        Some((node, index)) => push_wrong_at(out, scale, place_of(places, node, index)),
        None => Ok(()),
    }
}

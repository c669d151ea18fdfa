//! The marks of a picture in which each call has one.

ghost use Rattle.std.specs.Prelude.{◌≡◌, ◌++◌};
ghost use Rattle.stamp_register.specs.Keys.{stamp_text};
ghost use Rattle.node_calls.specs.Told.{ask_ref_told, grants, reply_ref_told, sets, shifts};
ghost use Rattle.packed_trace.specs.Packed.{seen_told};
ghost use Rattle.drill_picture.specs.Escaped.{escaped};
ghost use Rattle.drill_picture.specs.Marks.{Adds, arrow_class, arrow_text, arrows_text};
ghost use Rattle.drill_picture.specs.Marks.{at_text, call_text, name_at, point_text, title_of};
ghost use Rattle.drill_picture.specs.Marks.{asked_text, label_of_reply, label_text, line_text};
ghost use Rattle.drill_picture.specs.Marks.{mark_text, marks_text, name_text, title_text};
ghost use Rattle.drill_picture.specs.Marks.{use_text};

use crate::arrow::Arrow;
use crate::calls::call_at;
use crate::escaping::push_escaped;
use crate::place::Place;
use crate::scale::Scale;
use crate::sign::Sign;
use node_calls::{AskRef, ReplyRef};
use packed_trace::{Seen, Trace};
use stamp_register::Stamp;
use std::alloc::AllocError;
use std::fmt::Write;

// Of more messages only those are drawn that told something.
const MOST_ARROWS: usize = 40;

// A word, and a text of somebody else behind it.
fn push_worded(out: &mut String, word: &str, text: &str) -> Result<(), AllocError>
    ensures { Adds result out.old out.new (word.now ++ escaped text.now) }
{
    out.push_str(word)?;
    push_escaped(out, text)
}

fn push_set(out: &mut String, name: &str, text: &str) -> Result<(), AllocError>
    ensures { Adds result out.old out.new (asked_text (sets name.now text.now)) }
{
    push_worded(out, "set ", name)?;
    push_worded(out, " ", text)
}

fn push_shift(out: &mut String, name: &str, term: u8, to: u8, amount: u64) -> Result<(), AllocError>
    ensures { Adds result out.old out.new (asked_text (shifts name.now term to amount)) }
{
    push_worded(out, "shift ", name)?;
    write!(out, " {term} {to} {amount}")
}

fn push_grant(out: &mut String, name: &str, term: u8, amount: u64) -> Result<(), AllocError>
    ensures { Adds result out.old out.new (asked_text (grants name.now term amount)) }
{
    push_worded(out, "grant ", name)?;
    write!(out, " {term} {amount}")
}

fn push_asked(out: &mut String, ask: AskRef<'_>) -> Result<(), AllocError>
    ensures { Adds result out.old out.new (asked_text (ask_ref_told ask.entry)) }
{
    match ask {
        AskRef::Set { name, text } => push_set(out, name, text),
        AskRef::Remove { name } => push_worded(out, "remove ", name),
        AskRef::Load { text } => push_worded(out, "load ", text),
        AskRef::Pass { name } => push_worded(out, "pass ", name),
        AskRef::Shift {
            name,
            term,
            to,
            amount,
        } => push_shift(out, name, term, to, amount),
        AskRef::Grant { name, term, amount } => push_grant(out, name, term, amount),
        AskRef::Emit { to } => write!(out, "emit {to}"),
        AskRef::Deliver { .. } => out.push_str("deliver"),
    }
}

/// Where something is.
#[tactic(auto, unfolding(crate::specs::Marks::at_text))]
pub(crate) fn push_at(out: &mut String, x: u64, y: u64) -> Result<(), AllocError>
    ensures { Adds result out.old out.new (at_text x y) }
{
    write!(out, " x='{x}' y='{y}'")
}

#[tactic(auto, unfolding(crate::specs::Marks::point_text))]
pub(crate) fn push_point(out: &mut String, x: u64, y: u64) -> Result<(), AllocError>
    ensures { Adds result out.old out.new (point_text x y) }
{
    write!(out, "{x} {y}")
}

/// Begins a shape at a place.
pub(crate) fn push_use(out: &mut String, shape: &str, x: u64, y: u64) -> Result<(), AllocError>
    ensures { Adds result out.old out.new (use_text shape.now x y) }
{
    write!(out, "<use href='#{shape}'")?;
    push_at(out, x, y)
}

// Which call it is.
#[tactic(auto, unfolding(crate::specs::Marks::call_text))]
fn push_call(out: &mut String, node: u8, index: u32) -> Result<(), AllocError>
    ensures { Adds result out.old out.new (call_text node index) }
{
    write!(out, "node {node}, call {index}: ")
}

fn push_title_of(
    out: &mut String,
    node: u8,
    index: u32,
    ask: AskRef<'_>,
    word: &str,
) -> Result<(), AllocError>
    ensures { Adds result out.old out.new
        (title_of node index (ask_ref_told ask.entry) word.now) }
{
    out.push_str("><title>")?;
    push_call(out, node, index)?;
    push_asked(out, ask)?;
    out.push_str(", ")?;
    out.push_str(word)?;
    out.push_str("</title></use>\n")
}

fn push_title(out: &mut String, node: u8, index: u32, call: Seen<'_>) -> Result<(), AllocError>
    ensures { Adds result out.old out.new (title_text node index (seen_told call.entry)) }
{
    let word = Sign::of(call.reply()).word();
    push_title_of(out, node, index, call.ask(), word)
}

fn push_name_at(
    out: &mut String,
    x: u64,
    y: u64,
    name: &str,
    stamp: Stamp,
) -> Result<(), AllocError>
    ensures { Adds result out.old out.new (name_at x y name.now (stamp_text stamp)) }
{
    out.push_str("<text class='name'")?;
    push_at(out, x, y)?;
    out.push_str(" dx='9' dy='-14'>")?;
    push_escaped(out, name)?;
    writeln!(out, " {stamp}</text>")
}

fn push_name(
    out: &mut String,
    scale: &Scale,
    place: Place,
    name: &str,
    stamp: Stamp,
) -> Result<(), AllocError>
    ensures { Adds result out.old out.new
        (name_text scale.now place name.now (stamp_text stamp)) }
{
    let x = scale.column_x(place.column);
    let y = scale.lane_y(place.node);
    push_name_at(out, x, y, name, stamp)
}

fn push_label_of_reply(
    out: &mut String,
    scale: &Scale,
    place: Place,
    name: &str,
    reply: ReplyRef<'_>,
) -> Result<(), AllocError>
    ensures { Adds result out.old out.new
        (label_of_reply scale.now place name.now (reply_ref_told reply.entry)) }
{
    match reply {
        ReplyRef::Set(stamp) => push_name(out, scale, place, name, stamp),
        ReplyRef::Remove(_)
        | ReplyRef::Load(_)
        | ReplyRef::Pass(_)
        | ReplyRef::Shift(_)
        | ReplyRef::Grant(_)
        | ReplyRef::Emit(_)
        | ReplyRef::Deliver(_) => Ok(()),
    }
}

// A setting's name and stamp.
fn push_label(
    out: &mut String,
    scale: &Scale,
    place: Place,
    call: Seen<'_>,
) -> Result<(), AllocError>
    ensures { Adds result out.old out.new (label_text scale.now place
        (seen_told call.entry).ask (seen_told call.entry).reply) }
{
    match call.ask() {
        AskRef::Set { name, .. } => push_label_of_reply(out, scale, place, name, call.reply()),
        AskRef::Remove { .. }
        | AskRef::Load { .. }
        | AskRef::Pass { .. }
        | AskRef::Shift { .. }
        | AskRef::Grant { .. }
        | AskRef::Emit { .. }
        | AskRef::Deliver { .. } => Ok(()),
    }
}

// The call at a place.
#[tactic(auto, unfolding(crate::specs::Marks::mark_text))]
fn push_mark(
    out: &mut String,
    traces: &[Trace],
    scale: &Scale,
    place: Place,
) -> Result<(), AllocError>
    ensures { Adds result out.old out.new (mark_text traces.now scale.now place) }
{
    let Some(call) = call_at(traces, place.node as usize, place.index) else {
        return Ok(());
    };
    let word = Sign::of(call.reply()).word();
    let x = scale.column_x(place.column);
    let y = scale.lane_y(place.node);
    push_use(out, word, x, y)?;
    push_title(out, place.node, place.index, call)?;
    push_label(out, scale, place, call)
}

/// Each call as a mark.
pub(crate) fn push_marks(
    out: &mut String,
    traces: &[Trace],
    scale: &Scale,
    places: &[Place],
) -> Result<(), AllocError>
    ensures { Adds result out.old out.new (marks_text traces.now scale.now places.now) }
{
    for place in places {
        push_mark(out, traces, scale, *place)?;
    }
    Ok(())
}

fn arrow_class(news: bool) -> &'static str
    ensures { result.now ≡ arrow_class news }
{
    if news { "news" } else { "same" }
}

#[tactic(auto, unfolding(crate::specs::Marks::line_text))]
fn push_line(
    out: &mut String,
    scale: &Scale,
    class: &str,
    from: Place,
    to: Place,
) -> Result<(), AllocError>
    ensures { Adds result out.old out.new (line_text scale.now class.now from to) }
{
    write!(out, "<path class='{class}' d='M")?;
    let x = scale.column_x(from.column);
    let y = scale.lane_y(from.node);
    push_point(out, x, y)?;
    out.push_str("L")?;
    let x = scale.column_x(to.column);
    let y = scale.lane_y(to.node);
    push_point(out, x, y)?;
    out.push_str("'/>\n")
}

#[tactic(auto, unfolding(crate::specs::Marks::arrow_text))]
fn push_arrow(out: &mut String, scale: &Scale, few: bool, arrow: Arrow) -> Result<(), AllocError>
    ensures { Adds result out.old out.new (arrow_text scale.now few arrow) }
{
    if few || arrow.news {
        push_line(out, scale, arrow_class(arrow.news), arrow.from, arrow.to)
    } else {
        Ok(())
    }
}

/// The messages: all where they are few, and else those that told something.
pub(crate) fn push_arrows(
    out: &mut String,
    scale: &Scale,
    arrows: &[Arrow],
) -> Result<(), AllocError>
    ensures { Adds result out.old out.new (arrows_text scale.now arrows.now) }
{
    let few = arrows.len() <= MOST_ARROWS;
    for arrow in arrows {
        push_arrow(out, scale, few, *arrow)?;
    }
    Ok(())
}

//! A drill as lanes of text.

ghost use Rattle.std.specs.Prelude.{◌≡◌, ◌<◌, ◌^◌, ◌≤◌, ◌+◌, ◌*◌, ◌++◌, ◌∷◌, [], OnOk, codes, length, map};
ghost use Rattle.std.specs.Prelude.{option_map, slice_get, IfOk, None, Some, string_bytes};
ghost use Rattle.node_calls.specs.Told.{ask_ref_told};
ghost use Rattle.packed_trace.specs.Packed.{seen_told};
ghost use Rattle.drill_picture.specs.Bars.{own_of};
ghost use Rattle.drill_picture.specs.Calls.{call_at};
ghost use Rattle.drill_picture.specs.Picture.{calls_in};
ghost use Rattle.drill_picture.specs.Lines.{AreLines, calls_from, cell_text, gap_text, lane_width};
ghost use Rattle.drill_picture.specs.Lines.{lines_of, name_gap, name_of, name_text, names_below};
ghost use Rattle.drill_picture.specs.Lines.{shown_byte, shown_length, spaces, subject_of};
ghost use Rattle.drill_picture.specs.Lines.{title_line, waiting_below, waiting_of, waiting_text};
ghost use Rattle.drill_picture.specs.Lines.{words_of};
ghost use Rattle.drill_picture.specs.Marks.{Adds};

use crate::bars::own_of;
use crate::calls::call_at;
use crate::drawing::calls_in;
use crate::place::Place;
use crate::placing::{Placed, place_calls};
use crate::sign::Sign;
use node_calls::AskRef;
use packed_trace::{Seen, Trace};
use std::alloc::{AllocError, Global};
use std::fmt::Write;

// How wide the lane of a node is.
fn lane_width(nodes: usize) -> usize
    ensures width { result ≡ lane_width nodes }
    ensures some { 2 ≤ result }
    ensures few { result ≤ 100 }
{
    (100 / nodes.max(1)).max(2)
}

// A byte of a cell: what can't be seen is shown as `?`.
fn shown_byte(byte: u8) -> u8
    ensures byte { result ≡ shown_byte byte }
    ensures ascii { result < 128 }
{
    if 32 <= byte && byte <= 126 {
        byte
    } else {
        b'?'
    }
}

fn push_ascii(out: &mut String, byte: u8) -> Result<(), AllocError>
    requires { byte < 128 }
    ensures { OnOk result (string_bytes out.new ≡ string_bytes out.old ++ byte ∷ []) }
{
    out.push(char::from(byte))
}

fn push_bytes(out: &mut String, bytes: &[u8]) -> Result<(), AllocError>
    ensures { Adds result out.old out.new (map shown_byte bytes.now) }
{
    for byte in bytes {
        push_ascii(out, shown_byte(*byte))?;
    }
    Ok(())
}

// A text in its lane.
#[tactic(auto, unfolding(crate::specs::Lines::cell_text))]
fn push_cell(out: &mut String, width: usize, text: &[u8]) -> Result<(), AllocError>
    requires { 1 ≤ width }
    ensures { Adds result out.old out.new (cell_text width text.now) }
{
    let end = text.len().min(width - 1);
    push_bytes(out, &text[..end])
}

// How much of it is shown.
#[tactic(auto, unfolding(crate::specs::Lines::shown_length))]
fn shown_length(width: usize, text: &[u8]) -> usize
    requires { 1 ≤ width }
    ensures length { result ≡ shown_length width text.now }
    ensures short { result < width }
{
    text.len().min(width - 1)
}

fn push_spaces(out: &mut String, count: usize) -> Result<(), AllocError>
    ensures { Adds result out.old out.new (spaces count) }
{
    for _ in 0..count {
        out.push_str(" ")?;
    }
    Ok(())
}

fn push_spaced(out: &mut String, text: &str) -> Result<(), AllocError>
    ensures { Adds result out.old out.new (codes " " ++ text.now) }
{
    out.push_str(" ")?;
    out.push_str(text)
}

// What a call was about.
fn push_subject(out: &mut String, ask: AskRef<'_>) -> Result<(), AllocError>
    ensures { Adds result out.old out.new (subject_of (ask_ref_told ask.entry)) }
{
    match ask {
        AskRef::Set { name, .. }
        | AskRef::Remove { name }
        | AskRef::Pass { name }
        | AskRef::Shift { name, .. }
        | AskRef::Grant { name, .. } => push_spaced(out, name),
        AskRef::Emit { to } => write!(out, " {to}"),
        AskRef::Load { .. } | AskRef::Deliver { .. } => Ok(()),
    }
}

// The word for a call's answer, and what it was about.
fn push_words(out: &mut String, call: Seen<'_>) -> Result<(), AllocError>
    ensures { Adds result out.old out.new (words_of (Some (seen_told call.entry))) }
{
    out.push_str(Sign::of(call.reply()).word())?;
    push_subject(out, call.ask())
}

// The same of a call, if it is there.
fn words_of(alloc: Global, call: Option<Seen<'_>>) -> Result<String, AllocError>
    ensures { IfOk result (λ words. string_bytes words
        ≡ words_of (option_map seen_told call.entry)) }
{
    let mut words = String::new(alloc);
    if let Some(call) = call {
        push_words(&mut words, call)?;
    }
    Ok(words)
}

// A new line, and so many spaces.
fn push_next_line(out: &mut String, lane: usize) -> Result<(), AllocError>
    ensures { Adds result out.old out.new (codes "\n" ++ spaces lane) }
{
    out.push_str("\n")?;
    push_spaces(out, lane)
}

// Up to the lane of a call, where so much of the line of the call before is written; in another column
// on a new line.
fn push_gap(
    out: &mut String,
    width: usize,
    place: Place,
    last: Option<Place>,
    at: usize,
) -> Result<(), AllocError>
    requires { width ≤ 100 }
    ensures { Adds result out.old out.new (gap_text width place last at) }
{
    let lane = width * place.node as usize;
    match last {
        Some(last) if last.column == place.column => push_spaces(out, lane.saturating_sub(at)),
        Some(_) | None => push_next_line(out, lane),
    }
}

// The call at a place, behind the one before it. Answers how much of the line is written then.
fn push_call(
    out: &mut String,
    alloc: Global,
    traces: &[Trace],
    width: usize,
    place: Place,
    last: Option<Place>,
    at: usize,
) -> Result<usize, AllocError>
    requires some { 1 ≤ width }
    requires few { width ≤ 100 }
    ensures text { Adds result out.old out.new (gap_text width place last at
        ++ cell_text width (words_of (call_at traces.now place.node place.index))) }
    ensures next { IfOk result (λ next. next ≡ width * place.node
        + shown_length width (words_of (call_at traces.now place.node place.index))) }
{
    let words = words_of(alloc, call_at(traces, place.node as usize, place.index))?;
    push_gap(out, width, place, last, at)?;
    push_cell(out, width, words.as_bytes())?;
    Ok(width * place.node as usize + shown_length(width, words.as_bytes()))
}

// The calls, each in its lane.
fn push_calls(
    out: &mut String,
    alloc: Global,
    traces: &[Trace],
    width: usize,
    places: &[Place],
) -> Result<(), AllocError>
    requires some { 1 ≤ width }
    requires few { width ≤ 100 }
    ensures { Adds result out.old out.new (calls_from traces.now width None 0 places.now) }
{
    let mut last = None;
    let mut at = 0;
    for place in places {
        at = push_call(out, alloc, traces, width, *place, last, at)?;
        last = Some(*place);
    }
    Ok(())
}

#[tactic(auto, unfolding(crate::specs::Lines::name_of))]
fn name_of(alloc: Global, node: usize) -> Result<String, AllocError>
    ensures { IfOk result (λ name. string_bytes name ≡ name_of node) }
{
    let mut name = String::new(alloc);
    write!(name, "node {node}")?;
    Ok(name)
}

// How many spaces stand before the name of a lane.
fn name_gap(alloc: Global, width: usize, node: usize) -> Result<usize, AllocError>
    requires { 1 ≤ width }
    ensures { IfOk result (λ gap. gap ≡ name_gap width node) }
{
    if node == 0 {
        return Ok(0);
    }
    let before = name_of(alloc, node - 1)?;
    Ok(width - shown_length(width, before.as_bytes()))
}

// The name of a lane.
#[tactic(auto, unfolding(crate::specs::Lines::name_text))]
fn push_name(out: &mut String, alloc: Global, width: usize, node: usize) -> Result<(), AllocError>
    requires { 1 ≤ width }
    ensures { Adds result out.old out.new (name_text width node) }
{
    let gap = name_gap(alloc, width, node)?;
    let name = name_of(alloc, node)?;
    push_spaces(out, gap)?;
    push_cell(out, width, name.as_bytes())
}

// The names of the lanes.
fn push_names(out: &mut String, alloc: Global, width: usize, nodes: usize) -> Result<(), AllocError>
    requires { 1 ≤ width }
    ensures { Adds result out.old out.new (names_below width nodes) }
{
    for node in 0..nodes {
        push_name(out, alloc, width, node)?;
    }
    Ok(())
}

#[tactic(auto, unfolding(crate::specs::Lines::waiting_text))]
fn push_waiting(
    out: &mut String,
    node: usize,
    index: usize,
    missing: usize,
) -> Result<(), AllocError>
    ensures { Adds result out.old out.new (waiting_text node index missing) }
{
    write!(out, "node {node}, call {index}")?;
    writeln!(out, " waits for its message; not placed: {missing}")
}

fn push_waiting_of(
    out: &mut String,
    node: usize,
    placed: usize,
    calls: usize,
) -> Result<(), AllocError>
    ensures { Adds result out.old out.new (waiting_of node placed calls) }
{
    if calls <= placed {
        return Ok(());
    }
    push_waiting(out, node, placed, calls - placed)
}

fn push_waiting_at(
    out: &mut String,
    alloc: Global,
    traces: &[Trace],
    places: &[Place],
    node: u8,
) -> Result<(), AllocError>
    ensures { Adds result out.old out.new (waiting_of node (length (own_of node places.now))
        (calls_in (slice_get traces.now node))) }
{
    let own = own_of(alloc, node, places)?;
    let calls = calls_in(traces, node as usize);
    push_waiting_of(out, node as usize, own.len(), calls)
}

// What waits.
fn push_all_waiting(
    out: &mut String,
    alloc: Global,
    traces: &[Trace],
    places: &[Place],
) -> Result<(), AllocError>
    requires { length traces.now ≤ 256 }
    ensures { Adds result out.old out.new
        (waiting_below traces.now places.now (length traces.now)) }
{
    for node in 0..traces.len() {
        push_waiting_at(out, alloc, traces, places, node as u8)?;
    }
    Ok(())
}

#[tactic(auto, unfolding(crate::specs::Lines::title_line))]
fn push_title(
    out: &mut String,
    nodes: usize,
    calls: usize,
    columns: u32,
    headline: &str,
) -> Result<(), AllocError>
    ensures { Adds result out.old out.new (title_line nodes calls columns headline.now) }
{
    write!(out, "A drill of {nodes} nodes: {calls} calls")?;
    writeln!(out, " in {columns} columns, {headline}")
}

// The lines of calls that stand so.
#[tactic(auto, unfolding(crate::specs::Lines::lines_of))]
fn push_lines(
    out: &mut String,
    alloc: Global,
    traces: &[Trace],
    headline: &str,
    placed: &Placed,
) -> Result<(), AllocError>
    requires { length traces.now ≤ 256 }
    ensures { Adds result out.old out.new
        (lines_of traces.now headline.now placed.now.columns placed.now.places.items) }
{
    let width = lane_width(traces.len());
    push_title(
        out,
        traces.len(),
        placed.places.len(),
        placed.columns,
        headline,
    )?;
    push_names(out, alloc, width, traces.len())?;
    push_calls(out, alloc, traces, width, &placed.places)?;
    out.push_str("\n")?;
    push_all_waiting(out, alloc, traces, &placed.places)
}

/// A drill's traces, which stand in the order of their nodes, as text for a terminal of 100 columns: a
/// lane for each node from the top down, a line for each column of calls, and of each call the word for
/// its answer and what it was about. The first line ends with what was found of the drill. What waits
/// for a message that was never made is told below.
pub fn picture_lines(alloc: Global, traces: &[Trace], headline: &str) -> Result<String, AllocError>
    requires { length traces.now ≤ 256 }
    ensures { IfOk result (λ text. AreLines traces.now headline.now (string_bytes text)) }
{
    let placed = place_calls(alloc, traces)?;
    let mut out = String::new(alloc);
    push_lines(&mut out, alloc, traces, headline, &placed)?;
    Ok(out)
}

//! The counted terms of the settings that a drill's calls made.

ghost use Rattle.std.specs.Prelude.{◌≡◌, ◌≤◌, ◌++◌, IfOk, OnOk, fold, length, map, slice_get};
ghost use Rattle.node_calls.specs.Told.{ask_ref_told, reply_ref_told};
ghost use Rattle.packed_trace.specs.Packed.{seen_told};
ghost use Rattle.drill_picture.specs.Counted.{AreCounted, count_of, counted_by, counted_in};
ghost use Rattle.drill_picture.specs.Counted.{counted_loaded, counted_set, counted_term, counted_told};
ghost use Rattle.drill_picture.specs.Counted.{first_listing, listing_after, listing_at, terms_of};
ghost use Rattle.drill_picture.specs.Listings.{listing_told};
ghost use Rattle.actions.specs.Reading.{reading};
ghost use Rattle.drill_picture.specs.Stories.{message_nodes};

use crate::calls::call_at;
use crate::known::{Known, points_loaded};
use crate::place::Place;
use crate::placing::place_calls;
use crate::story::message_nodes;
use actions::{ActionFault, Actions, Name, parse_actions};
use node_calls::{AskRef, ReplyRef};
use packed_trace::{Seen, Trace};
use stamp_register::Stamp;
use std::alloc::{AllocError, Global};

/// A counted term of a setting that a call made.
#[derive(Debug, Drop)]
pub struct Counted {
    /// The point.
    pub name: String,
    pub stamp: Stamp,
    /// The number of the term, from 0.
    pub term: u8,
    pub count: u64,
}

/// What each node knows, and the terms so far.
#[derive(Drop)]
pub(crate) struct Listing {
    pub(crate) known: Vec<Known>,
    pub(crate) found: Vec<Counted>,
}

// The count of a term, if there is such a term and it is counted.
fn count_of(actions: &Actions, term: u8) -> Option<u64>
    ensures { result ≡ count_of (slice_get actions.now term) }
{
    match actions.term(term) {
        Some(term) => term.count,
        None => None,
    }
}

// Adds a term, if it is counted.
fn add_term(
    found: &mut Vec<Counted>,
    alloc: Global,
    name: &str,
    stamp: Stamp,
    term: u8,
    count: Option<u64>,
) -> Result<(), AllocError>
    ensures { OnOk result (map counted_told found.new.items
        ≡ map counted_told found.old.items ++ counted_term name.now stamp term count) }
{
    match count {
        Some(count) => {
            found.push(Counted {
                name: String::from_str(alloc, name)?,
                stamp,
                term,
                count,
            })?;
            Ok(())
        }
        None => Ok(()),
    }
}

// Adds the counted ones of a setting's terms.
#[tactic(auto, unfolding(crate::specs::Counted::counted_in))]
fn add_terms(
    found: &mut Vec<Counted>,
    alloc: Global,
    name: &str,
    stamp: Stamp,
    actions: &Actions,
) -> Result<(), AllocError>
    ensures { OnOk result (map counted_told found.new.items
        ≡ map counted_told found.old.items ++ counted_in name.now stamp actions.now) }
{
    for term in 0..actions.len() as u8 {
        add_term(found, alloc, name, stamp, term, count_of(actions, term))?;
    }
    Ok(())
}

// What a text sets, if it isn't refused.
#[tactic(auto, unfolding(crate::specs::Counted::counted_in))]
fn add_text(
    found: &mut Vec<Counted>,
    alloc: Global,
    name: &str,
    stamp: Stamp,
    text: &str,
) -> Result<(), AllocError>
    ensures { OnOk result (map counted_told found.new.items
        ≡ map counted_told found.old.items ++ counted_in name.now stamp (terms_of (reading text.now))) }
{
    match parse_actions(alloc, text) {
        Ok(actions) => add_terms(found, alloc, name, stamp, &actions),
        Err(ActionFault::OutOfMemory) => Err(AllocError),
        Err(_) => Ok(()),
    }
}

// What a set made, where it was answered with a stamp.
fn add_set(
    found: &mut Vec<Counted>,
    alloc: Global,
    name: &str,
    text: &str,
    reply: ReplyRef<'_>,
) -> Result<(), AllocError>
    ensures { OnOk result (map counted_told found.new.items ≡ map counted_told found.old.items
        ++ counted_set name.now text.now (reply_ref_told reply.entry)) }
{
    match reply {
        ReplyRef::Set(stamp) => add_text(found, alloc, name, stamp, text),
        ReplyRef::Remove(_)
        | ReplyRef::Load(_)
        | ReplyRef::Pass(_)
        | ReplyRef::Shift(_)
        | ReplyRef::Grant(_)
        | ReplyRef::Emit(_)
        | ReplyRef::Deliver(_) => Ok(()),
    }
}

// What the points of a load make, one after the other.
fn add_points(
    found: &mut Vec<Counted>,
    alloc: Global,
    node: u8,
    points: &[(Name, Actions)],
    before: Known,
) -> Result<(), AllocError>
    ensures { OnOk result (map counted_told found.new.items
        ≡ map counted_told found.old.items ++ counted_loaded node points.now before) }
{
    let mut known = before;
    for (name, actions) in points {
        let stamp = known.next_stamp(node);
        add_terms(found, alloc, name.text(), stamp, actions)?;
        known = known.made("", name.text(), stamp);
    }
    Ok(())
}

// What a call of a node makes.
fn add_made(
    found: &mut Vec<Counted>,
    alloc: Global,
    node: u8,
    known: Known,
    ask: AskRef<'_>,
    reply: ReplyRef<'_>,
) -> Result<(), AllocError>
    ensures { OnOk result (map counted_told found.new.items ≡ map counted_told found.old.items
        ++ counted_by node known (ask_ref_told ask.entry) (reply_ref_told reply.entry)) }
{
    match ask {
        AskRef::Set { name, text } => add_set(found, alloc, name, text, reply),
        AskRef::Load { text } => {
            let points = points_loaded(alloc, text)?;
            add_points(found, alloc, node, &points, known)
        }
        AskRef::Remove { .. }
        | AskRef::Pass { .. }
        | AskRef::Shift { .. }
        | AskRef::Grant { .. }
        | AskRef::Emit { .. }
        | AskRef::Deliver { .. } => Ok(()),
    }
}

// A call of a node.
#[tactic(auto, unfolding(crate::specs::Counted::listing_after))]
fn add_call(
    listing: &mut Listing,
    alloc: Global,
    nodes: u8,
    node: u8,
    call: Seen<'_>,
) -> Result<(), AllocError>
    ensures { OnOk result (listing_told listing.new
        ≡ listing_after nodes node (seen_told call.entry) (listing_told listing.old)) }
{
    let at = node as usize;
    if at >= listing.known.len() {
        return Ok(());
    }
    let before = listing.known[at];
    listing.known[at] = before.after(alloc, nodes, "", node, call)?;
    add_made(
        &mut listing.found,
        alloc,
        node,
        before,
        call.ask(),
        call.reply(),
    )
}

// The call at a place.
#[tactic(auto, unfolding(crate::specs::Counted::listing_at))]
fn add_place(
    listing: &mut Listing,
    alloc: Global,
    traces: &[Trace],
    place: Place,
) -> Result<(), AllocError>
    ensures { OnOk result (listing_told listing.new
        ≡ listing_at traces.now (listing_told listing.old) place) }
{
    match call_at(traces, place.node as usize, place.index) {
        Some(call) => add_call(listing, alloc, message_nodes(traces), place.node, call),
        None => Ok(()),
    }
}

// Those of the calls at these places.
fn listed(alloc: Global, traces: &[Trace], places: &[Place]) -> Result<Listing, AllocError>
    ensures { IfOk result (λ listing. listing_told listing
        ≡ fold (listing_at traces.now) (first_listing (length traces.now)) places.now) }
{
    let mut listing = Listing {
        known: vec![in alloc; Known::nothing(); traces.len()]?,
        found: Vec::new(alloc),
    };
    for place in places {
        add_place(&mut listing, alloc, traces, *place)?;
    }
    Ok(listing)
}

/// The counted terms of the settings that the calls of a drill made, as far as these stand, in the
/// order in which they do. Traces stand in the order of their nodes.
pub fn counted_terms(alloc: Global, traces: &[Trace]) -> Result<Vec<Counted>, AllocError>
    requires { length traces.now ≤ 256 }
    ensures { IfOk result (λ found. AreCounted traces.now (map counted_told found.items)) }
{
    let placed = place_calls(alloc, traces)?;
    let Listing { found, known: _ } = listed(alloc, traces, &placed.places)?;
    Ok(found)
}

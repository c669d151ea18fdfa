//! The messages that were taken, as arrows.

ghost use Rattle.std.specs.Prelude.{◌≡◌, ◌++◌, IfOk, OnOk};
ghost use Rattle.drill_picture.specs.Arrows.{arrow_to, arrows_of, maker_of};

use crate::calls::{call_at, is_news, makes, taken};
use crate::place::Place;
use packed_trace::Trace;
use std::alloc::{AllocError, Global};

/// A message from the first call that made it to one that took it.
#[derive(Clone, Copy, Debug)]
pub struct Arrow {
    pub from: Place,
    pub to: Place,
    /// Whether it told its node anything.
    pub news: bool,
}

// The first of the places whose call made a message of these bytes.
#[tactic(auto, unfolding(crate::specs::Arrows::maker_of))]
fn maker_of(traces: &[Trace], places: &[Place], bytes: &[u8]) -> Option<Place>
    ensures { result ≡ maker_of traces.now places.now bytes.now }
{
    for place in places {
        if makes(call_at(traces, place.node as usize, place.index), bytes) {
            return Some(*place);
        }
    }
    None
}

// Adds the arrow to a place, if its call took a message.
#[tactic(auto, unfolding(crate::specs::Arrows::arrow_to))]
fn push_arrow_to(
    found: &mut Vec<Arrow>,
    traces: &[Trace],
    places: &[Place],
    place: Place,
) -> Result<(), AllocError>
    ensures { OnOk result (found.new.items
        ≡ found.old.items ++ arrow_to traces.now places.now place) }
{
    let Some(call) = call_at(traces, place.node as usize, place.index) else {
        return Ok(());
    };
    let Some(bytes) = taken(call.ask()) else {
        return Ok(());
    };
    let Some(from) = maker_of(traces, places, bytes) else {
        return Ok(());
    };
    found.push(Arrow {
        from,
        to: place,
        news: is_news(call.reply()),
    })?;
    Ok(())
}

/// All messages that were taken at these places, in the order of where they end.
pub fn arrows(alloc: Global, traces: &[Trace], places: &[Place]) -> Result<Vec<Arrow>, AllocError>
    ensures { IfOk result (λ found. found.items ≡ arrows_of traces.now places.now) }
{
    let mut found = Vec::new(alloc);
    for place in places {
        push_arrow_to(&mut found, traces, places, *place)?;
    }
    Ok(found)
}

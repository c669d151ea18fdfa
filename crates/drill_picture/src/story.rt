//! The rights of a counted term, call by call.

ghost use Rattle.std.specs.Prelude.{◌≡◌, ◌==◌, ◌&&◌, ◌++◌, not, filter, fold, length, map};
ghost use Rattle.std.specs.Prelude.{min, slice_index, slice_get, IfOk, OnOk, option_map};
ghost use Rattle.std.specs.List.{list_any};
ghost use Rattle.message_format.specs.Messages.{entry_value};
ghost use Rattle.node_calls.specs.Told.{reply_ref_told};
ghost use Rattle.packed_trace.specs.Packed.{seen_told};
ghost use Rattle.drill_picture.specs.Budgets.{budget_told, is_of_budget};
ghost use Rattle.drill_picture.specs.Rights.{after_arrival, cell_covers, entry_covers, is_brought};
ghost use Rattle.drill_picture.specs.Stories.{after_acting, after_bin, after_call, after_delivery};
ghost use Rattle.drill_picture.specs.Stories.{after_message, after_place, after_shift};
ghost use Rattle.drill_picture.specs.Stories.{first_story, left_by_message, message_nodes, ran};
ghost use Rattle.drill_picture.specs.Stories.{sent_parcel, story_told};

use crate::budget::Budget;
use crate::calls::call_at;
use crate::entries::entries_in;
use crate::known::{Known, same_stamp};
use crate::parcel::Parcel;
use crate::place::Place;
use crate::row::Row;
use crate::scale::Scale;
use message_format::NameEntry;
use node_calls::{AskRef, PassReplyRef, ReplyRef};
use packed_trace::{Seen, Trace};
use std::alloc::{AllocError, Global};

/// What each node knows of the point, where the rights are, and the parcels that are on their way.
#[derive(Drop)]
pub(crate) struct Story {
    pub(crate) known: Vec<Known>,
    pub(crate) row: Row,
    pub(crate) parcels: Vec<Parcel>,
}

fn is_of_budget(budget: &Budget<'_>, name: &str, term: u8) -> bool
    ensures { result ≡ is_of_budget (budget_told budget.now) name.now term }
{
    name.as_bytes() == budget.name.as_bytes() && term == budget.term
}

// Whether a pass ran the term.
fn ran(budget: &Budget<'_>, reply: ReplyRef<'_>) -> bool
    ensures { result ≡ ran (budget_told budget.now) (reply_ref_told reply.entry) }
{
    match reply {
        ReplyRef::Pass(PassReplyRef::Act { stamp, term, .. }) => {
            same_stamp(stamp, budget.stamp) && term == budget.term
        }
        ReplyRef::Pass(PassReplyRef::Unset | PassReplyRef::NoTerm { .. })
        | ReplyRef::Set(_)
        | ReplyRef::Remove(_)
        | ReplyRef::Load(_)
        | ReplyRef::Shift(_)
        | ReplyRef::Grant(_)
        | ReplyRef::Emit(_)
        | ReplyRef::Deliver(_) => false,
    }
}

// Whether a cell of a message tells of a parcel, or of a later one between the same nodes.
fn cell_covers(term: u8, parcel: Parcel, cell: (u8, u8, u8, u64)) -> bool
    ensures { result ≡ cell_covers term parcel cell }
{
    let (of, from, to, total) = cell;
    of == term && from == parcel.from && to == parcel.to && parcel.total <= total
}

fn cells_cover(term: u8, parcel: Parcel, cells: &[(u8, u8, u8, u64)]) -> bool
    ensures { result ≡ list_any (cell_covers term parcel) cells.now }
{
    for cell in cells {
        if cell_covers(term, parcel, *cell) {
            return true;
        }
    }
    false
}

fn entry_covers(budget: &Budget<'_>, parcel: Parcel, entry: &NameEntry) -> bool
    ensures { result ≡ entry_covers (budget_told budget.now) parcel (entry_value entry.now) }
{
    entry.name.text().as_bytes() == budget.name.as_bytes()
        && same_stamp(entry.key.stamp(), budget.stamp)
        && cells_cover(budget.term, parcel, &entry.shifts)
}

// Whether one of these entries tells a parcel to the node that it is for.
#[tactic(auto, unfolding(crate::specs::Rights::is_brought))]
fn is_brought(budget: &Budget<'_>, node: u8, entries: &[NameEntry], parcel: Parcel) -> bool
    ensures { result
        ≡ is_brought (budget_told budget.now) node (map entry_value entries.now) parcel }
{
    if parcel.to != node {
        return false;
    }
    for entry in entries {
        if entry_covers(budget, parcel, entry) {
            return true;
        }
    }
    false
}

// Those of the parcels that these entries tell arrive; answers the others.
fn take_in(
    alloc: Global,
    row: &mut Row,
    parcels: &[Parcel],
    budget: &Budget<'_>,
    node: u8,
    entries: &[NameEntry],
) -> Result<Vec<Parcel>, AllocError>
    ensures row { OnOk result (row.new ≡ fold (λ r p. after_arrival node r p.amount) row.old
        (filter (is_brought (budget_told budget.now) node (map entry_value entries.now))
        parcels.now)) }
    ensures left { IfOk result (λ left. left.items ≡ filter (λ p. not
        (is_brought (budget_told budget.now) node (map entry_value entries.now) p)) parcels.now) }
{
    let mut left = Vec::new(alloc);
    for parcel in parcels {
        if is_brought(budget, node, entries, *parcel) {
            row.arrive(node as usize, parcel.amount);
        } else {
            left.push(*parcel)?;
        }
    }
    Ok(left)
}

// A message comes.
#[tactic(auto, unfolding(crate::specs::Stories::after_message, crate::specs::Stories::left_by_message))]
fn take_message(
    alloc: Global,
    row: &mut Row,
    parcels: &[Parcel],
    budget: &Budget<'_>,
    nodes: u8,
    node: u8,
    message: &[u8],
) -> Result<Vec<Parcel>, AllocError>
    ensures row { OnOk result (row.new
        ≡ after_message (budget_told budget.now) nodes node message.now parcels.now row.old) }
    ensures left { IfOk result (λ left. left.items
        ≡ left_by_message (budget_told budget.now) nodes node message.now parcels.now) }
{
    if parcels.is_empty() {
        return Ok(Vec::new(alloc));
    }
    let entries = entries_in(alloc, nodes, message)?;
    take_in(alloc, row, parcels, budget, node, &entries)
}

// Some rights are sent, where the shift was answered with their total.
fn add_parcel(
    parcels: &mut Vec<Parcel>,
    node: u8,
    to: u8,
    amount: u64,
    reply: ReplyRef<'_>,
) -> Result<(), AllocError>
    ensures { OnOk result (parcels.new.items ≡ parcels.old.items
        ++ sent_parcel node to amount (reply_ref_told reply.entry)) }
{
    match reply {
        ReplyRef::Shift(total) => {
            parcels.push(Parcel {
                from: node,
                to,
                total,
                amount,
            })?;
            Ok(())
        }
        ReplyRef::Set(_)
        | ReplyRef::Remove(_)
        | ReplyRef::Load(_)
        | ReplyRef::Pass(_)
        | ReplyRef::Grant(_)
        | ReplyRef::Emit(_)
        | ReplyRef::Deliver(_) => Ok(()),
    }
}

// A shift of rights to the term.
fn add_shift(
    story: &mut Story,
    node: u8,
    to: u8,
    amount: u64,
    reply: ReplyRef<'_>,
) -> Result<(), AllocError>
    ensures { OnOk result (story_told story.new
        ≡ after_shift node to amount (reply_ref_told reply.entry) (story_told story.old)) }
{
    let sent = amount.min(story.row.held_by(node as usize));
    story.row.send(node as usize, to as usize, amount);
    add_parcel(&mut story.parcels, node, to, sent, reply)
}

// A delivery at a node that has the setting.
fn add_delivery(
    story: &mut Story,
    alloc: Global,
    budget: &Budget<'_>,
    nodes: u8,
    node: u8,
    message: &[u8],
) -> Result<(), AllocError>
    ensures { OnOk result (story_told story.new
        ≡ after_delivery (budget_told budget.now) nodes node message.now (story_told story.old)) }
{
    let left = take_message(
        alloc,
        &mut story.row,
        &story.parcels,
        budget,
        nodes,
        node,
        message,
    )?;
    story.parcels = left;
    Ok(())
}

// What a call of a node does to the rights, if the node has the setting.
fn act(
    story: &mut Story,
    alloc: Global,
    budget: &Budget<'_>,
    nodes: u8,
    node: u8,
    under: bool,
    call: Seen<'_>,
) -> Result<(), AllocError>
    ensures { OnOk result (story_told story.new ≡ after_acting (budget_told budget.now) nodes node
        under (seen_told call.entry) (story_told story.old)) }
{
    match call.ask() {
        AskRef::Pass { .. } => {
            if ran(budget, call.reply()) {
                story.row.spend(node as usize);
            }
        }
        AskRef::Shift {
            name,
            term,
            to,
            amount,
        } => {
            if under && is_of_budget(budget, name, term) {
                return add_shift(story, node, to, amount, call.reply());
            }
        }
        AskRef::Grant { name, term, amount } => {
            if under && is_of_budget(budget, name, term) {
                story.row.grant(node as usize, amount);
            }
        }
        AskRef::Deliver { message } => {
            if under {
                return add_delivery(story, alloc, budget, nodes, node, message);
            }
        }
        AskRef::Set { .. } | AskRef::Remove { .. } | AskRef::Load { .. } | AskRef::Emit { .. } => {}
    }
    Ok(())
}

// A call of a node.
#[tactic(auto, unfolding(crate::specs::Stories::after_call))]
fn add_call(
    story: &mut Story,
    alloc: Global,
    budget: &Budget<'_>,
    nodes: u8,
    node: u8,
    call: Seen<'_>,
) -> Result<(), AllocError>
    ensures { OnOk result (story_told story.new ≡ after_call (budget_told budget.now) nodes node
        (seen_told call.entry) (story_told story.old)) }
{
    let at = node as usize;
    if at >= story.known.len() {
        return Ok(());
    }
    let before = story.known[at];
    let after = before.after(alloc, nodes, budget.name, node, call)?;
    story.known[at] = after;
    if after.has_made_it(budget, node, before) {
        story.row.grant(at, budget.count);
    }
    act(
        story,
        alloc,
        budget,
        nodes,
        node,
        after.is_under(budget),
        call,
    )
}

/// How many nodes the messages of traces may name.
pub(crate) fn message_nodes(traces: &[Trace]) -> u8
    ensures { result ≡ message_nodes traces.now }
{
    traces.len().min(255) as u8
}

// The call at a place, if this column of the picture holds it.
#[tactic(auto, unfolding(crate::specs::Stories::after_place))]
fn add_place(
    story: &mut Story,
    alloc: Global,
    traces: &[Trace],
    scale: &Scale,
    budget: &Budget<'_>,
    bin: u64,
    place: Place,
) -> Result<(), AllocError>
    ensures { OnOk result (story_told story.new ≡ after_place traces.now scale.now
        (budget_told budget.now) bin (story_told story.old) place) }
{
    if scale.bin_of(place.column) != bin {
        return Ok(());
    }
    match call_at(traces, place.node as usize, place.index) {
        Some(call) => add_call(
            story,
            alloc,
            budget,
            message_nodes(traces),
            place.node,
            call,
        ),
        None => Ok(()),
    }
}

impl Story {
    /// Before the first call.
    pub(crate) fn first(alloc: Global, nodes: usize) -> Result<Story, AllocError>
        ensures { IfOk result (λ story. story_told story ≡ first_story nodes) }
    {
        Ok(Story {
            known: vec![in alloc; Known::nothing(); nodes]?,
            row: Row::empty(alloc, nodes)?,
            parcels: Vec::new(alloc),
        })
    }

    /// Takes in all calls that a column of the picture holds.
    #[tactic(auto, unfolding(crate::specs::Stories::after_bin))]
    pub(crate) fn add_bin(
        &mut self,
        alloc: Global,
        traces: &[Trace],
        scale: &Scale,
        places: &[Place],
        budget: &Budget<'_>,
        bin: u64,
    ) -> Result<(), AllocError>
        ensures { OnOk result (story_told self.new ≡ after_bin traces.now scale.now places.now
            (budget_told budget.now) bin (story_told self.old)) }
    {
        for place in places {
            add_place(self, alloc, traces, scale, budget, bin, *place)?;
        }
        Ok(())
    }
}

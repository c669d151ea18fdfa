//! Which setting of a point a node has.

ghost use Rattle.std.specs.Prelude.{◌≡◌, ◌==◌, ◌&&◌, IfOk, fold, map};
ghost use Rattle.node_calls.specs.Told.{ask_ref_told, reply_ref_told};
ghost use Rattle.message_format.specs.Messages.{entry_value};
ghost use Rattle.packed_trace.specs.Packed.{seen_told};
ghost use Rattle.drill_picture.specs.Budgets.{budget_told, same_stamp};
ghost use Rattle.drill_picture.specs.Knowing.{has_made_it, heard, is_above, is_stamp, is_under};
ghost use Rattle.drill_picture.specs.Knowing.{known_after, knows_nothing, later, loaded, made};
ghost use Rattle.drill_picture.specs.Knowing.{made_by, next_stamp, points_loaded};

use crate::budget::Budget;
use crate::entries::entries_in;
use actions::{Actions, Name, SettingFault, parse_setting};
use message_format::NameEntry;
use node_calls::{AskRef, ReplyRef};
use packed_trace::Seen;
use stamp_register::Stamp;
use std::alloc::{AllocError, Global};

/// The clock of a node, and the stamp of the setting that it has of a point, if it has one.
#[derive(Clone, Copy)]
pub(crate) struct Known {
    clock: u64,
    stamp: Option<Stamp>,
}

/// Whether two stamps are of one setting.
pub(crate) fn same_stamp(a: Stamp, b: Stamp) -> bool
    ensures { result ≡ same_stamp a b }
{
    a.clock == b.clock && a.node == b.node
}

fn is_above(a: Stamp, b: Stamp) -> bool
    ensures { result ≡ is_above a b }
{
    a.clock > b.clock || a.clock == b.clock && a.node > b.node
}

// Of two settings of a point the one with the greater stamp holds.
fn later(stamp: Stamp, held: Option<Stamp>) -> Option<Stamp>
    ensures { result ≡ later stamp held }
{
    match held {
        Some(held) if !is_above(stamp, held) => Some(held),
        Some(_) | None => Some(stamp),
    }
}

/// The points of a load; a text that is refused has none.
#[tactic(auto, unfolding(crate::specs::Knowing::points_loaded))]
pub(crate) fn points_loaded(alloc: Global, text: &str) -> Result<Vec<(Name, Actions)>, AllocError>
    ensures { IfOk result (λ points. points.items ≡ points_loaded text.now) }
{
    match parse_setting(alloc, text) {
        Ok(points) => Ok(points),
        Err(SettingFault::OutOfMemory) => Err(AllocError),
        Err(_) => Ok(Vec::new(alloc)),
    }
}

impl Known {
    /// Before a node's first call.
    pub(crate) fn nothing() -> Known
        ensures { result ≡ knows_nothing }
    {
        Known {
            clock: 0,
            stamp: None,
        }
    }

    /// The node makes a setting of some point.
    pub(crate) fn made(self, name: &str, other: &str, stamp: Stamp) -> Known
        ensures { result ≡ made name.now other.now stamp self }
    {
        let is_it = other.as_bytes() == name.as_bytes();
        Known {
            clock: stamp.clock,
            stamp: if is_it { Some(stamp) } else { self.stamp },
        }
    }

    /// The stamp that the node gives next.
    pub(crate) fn next_stamp(self, node: u8) -> Stamp
        ensures { result ≡ next_stamp node self }
    {
        Stamp {
            clock: self.clock.saturating_add(1),
            node,
        }
    }

    // The node makes these settings, one after the other.
    fn loaded(self, name: &str, node: u8, points: &[(Name, Actions)]) -> Known
        ensures { result ≡ loaded name.now node points.now self }
    {
        let mut known = self;
        for (point, _) in points {
            known = known.made(name, point.text(), known.next_stamp(node));
        }
        known
    }

    // The node hears of a setting of some point.
    #[tactic(auto, unfolding(crate::specs::Knowing::heard))]
    fn heard(self, name: &str, entry: &NameEntry) -> Known
        ensures { result ≡ heard name.now self (entry_value entry.now) }
    {
        let is_it = entry.name.text().as_bytes() == name.as_bytes();
        Known {
            clock: self.clock.max(entry.key.clock),
            stamp: if is_it {
                later(entry.key.stamp(), self.stamp)
            } else {
                self.stamp
            },
        }
    }

    fn heard_all(self, name: &str, entries: &[NameEntry]) -> Known
        ensures { result ≡ fold (heard name.now) self (map entry_value entries.now) }
    {
        let mut known = self;
        for entry in entries {
            known = known.heard(name, entry);
        }
        known
    }

    fn made_by(self, name: &str, other: &str, reply: ReplyRef<'_>) -> Known
        ensures { result ≡ made_by name.now other.now (reply_ref_told reply.entry) self }
    {
        match reply {
            ReplyRef::Set(stamp) | ReplyRef::Remove(stamp) => self.made(name, other, stamp),
            ReplyRef::Load(_)
            | ReplyRef::Pass(_)
            | ReplyRef::Shift(_)
            | ReplyRef::Grant(_)
            | ReplyRef::Emit(_)
            | ReplyRef::Deliver(_) => self,
        }
    }

    /// What a node knows of a name after a call, in a cluster of so many nodes.
    pub(crate) fn after(
        self,
        alloc: Global,
        nodes: u8,
        name: &str,
        node: u8,
        call: Seen<'_>,
    ) -> Result<Known, AllocError>
        ensures { IfOk result (λ known. known ≡ known_after nodes name.now node
            (seen_told call.entry).ask (seen_told call.entry).reply self) }
    {
        match call.ask() {
            AskRef::Set { name: other, .. } | AskRef::Remove { name: other } => {
                Ok(self.made_by(name, other, call.reply()))
            }
            AskRef::Load { text } => {
                let points = points_loaded(alloc, text)?;
                Ok(self.loaded(name, node, &points))
            }
            AskRef::Deliver { message } => {
                let entries = entries_in(alloc, nodes, message)?;
                Ok(self.heard_all(name, &entries))
            }
            AskRef::Pass { .. }
            | AskRef::Shift { .. }
            | AskRef::Grant { .. }
            | AskRef::Emit { .. } => Ok(self),
        }
    }

    /// Whether the node has the setting whose rights are counted.
    pub(crate) fn is_under(self, budget: &Budget<'_>) -> bool
        ensures { result ≡ is_under (budget_told budget.now) self }
    {
        match self.stamp {
            Some(stamp) => same_stamp(stamp, budget.stamp),
            None => false,
        }
    }

    /// Whether the node made that setting since it knew what it knew before.
    pub(crate) fn has_made_it(self, budget: &Budget<'_>, node: u8, before: Known) -> bool
        ensures { result ≡ has_made_it (budget_told budget.now) node before self }
    {
        node == budget.stamp.node
            && before.clock < budget.stamp.clock
            && budget.stamp.clock <= self.clock
    }
}

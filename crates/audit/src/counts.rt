//! The counted terms of keys.
#![tactic(auto)]

ghost use Rattle.std.specs.Prelude.{◌≡◌, ℕ, ◌-◌, ◌≤◌, [], ◌∷◌, List, length, OnOk, Ok, Some, if◌then◌else◌};
ghost use Rattle.actions.specs.Canonical.{canonical};
ghost use Rattle.actions.specs.Reading.{reading};
ghost use Rattle.stamp_register.specs.declared.key.Stamp.{Stamp};
ghost use Rattle.stamp_register.specs.Keys.{KeyValue, stamp_of};
ghost use Rattle.operations.specs.Operations.{Set, count_of};
ghost use Rattle.node_steps.specs.Settings.{operations_issued, settings_of};
ghost use Rattle.audit.specs.Counts.{AddsKeys, count_kept, is_counted_at};

use actions::{Actions, Name};
use stamp_register::Stamp;
use std::alloc::{AllocError, Global};
use std::collections::BTreeMap;

/// The count of each counted term of keys.
#[derive(Drop)]
pub(crate) struct Counts {
    // The point, its stamp's clock and node, and the term.
    pub(crate) counts: BTreeMap<(Name, u64, u8, u8), u64>,
}

impl Counts {
    pub(crate) fn new(alloc: Global) -> Counts
        ensures { result.counts.entries ≡ [] }
    {
        Counts {
            counts: BTreeMap::new(alloc),
        }
    }

    // Keeps a count.
    fn put(&mut self, name: Name, stamp: Stamp, term: u8, count: u64) -> Result<(), AllocError>
        ensures { OnOk result ((other : List ℕ) (at : Stamp) (k : ℕ) → count_kept self.new other at k
            ≡ (if is_counted_at name stamp term other at k then Some count
            else count_kept self.old other at k)) }
    {
        self.counts
            .insert((name, stamp.clock, stamp.node, term), count)?;
        Ok(())
    }

    // Adds the counted terms of a key.
    fn add_key(
        &mut self,
        alloc: Global,
        name: &Name,
        stamp: Stamp,
        actions: &Actions,
    ) -> Result<(), AllocError>
        ensures { OnOk result ((key : KeyValue) → stamp_of key ≡ stamp
            → key.body ≡ Some (canonical actions.now)
            → AddsKeys self.old self.new (Set name.now key ∷ [])) }
    {
        is_spelled(actions);
        for term in 0..actions.len() as u8 {
            if let Some(count) = count_of(actions, term) {
                self.put(name.copied(alloc)?, stamp, term, count)?;
            }
        }
        Ok(())
    }

    /// Adds the counted terms of the keys of points that were set one after the other, the last of
    /// them under this stamp.
    pub(crate) fn add_points(
        &mut self,
        alloc: Global,
        points: &[(Name, Actions)],
        last: Stamp,
    ) -> Result<(), AllocError>
        requires { length points.now ≤ last.clock }
        ensures { OnOk result (AddsKeys self.old self.new (operations_issued last.node
            (last.clock - length points.now) (settings_of points.now))) }
    {
        let mut stamp = Stamp {
            clock: last.clock - points.len() as u64,
            node: last.node,
        };
        for (name, actions) in points {
            stamp.clock += 1;
            self.add_key(alloc, name, stamp, actions)?;
        }
        Ok(())
    }
}

// The canonical text of actions is read as they are.
fn is_spelled(actions: &Actions)
    ensures { reading (canonical actions.now) ≡ Ok actions.now }
{
    let _ = actions.text();
}

// The count of a term, if there is such a term and it is counted.
#[tactic(auto, unfolding(stamp_register::specs::Keys::terms_in_text))]
fn count_of(actions: &Actions, term: u8) -> Option<u64>
    ensures { (key : KeyValue) → key.body ≡ Some (canonical actions.now)
        → result ≡ count_of key term }
{
    is_spelled(actions);
    actions.term(term)?.count
}

//! Setting many points at once.

ghost use Rattle.std.specs.Prelude.{◌≡◌, ◌+◌, ◌<◌, ◌≤◌, [], length, map};
ghost use Rattle.std.specs.Prelude.{string_bytes, IfOk, IfErr, IsErrOf, OnOk, OnErr, Ok};
ghost use Rattle.std.specs.Prelude.{None};
ghost use Rattle.operations.specs.Operations.{operation};
ghost use Rattle.node_calls.specs.Asks as asks;
ghost use Rattle.node_core.specs.Memory.{LoadNeedsMemory};
ghost use Rattle.node_steps.specs.Outcomes.{AreTellable};
ghost use Rattle.node_core.specs.Room.{state_loaded, HasRoom, HasClocks, HavePlaces};
ghost use Rattle.node_steps.specs.Settings.{operations_issued, points_in, settings};
ghost use Rattle.node_core.specs.Traces.{Accepts, IsRefusalOf, after_call, last_clock, refusal};

use super::NodeCore;
use delta_exchange::MAX_NAMES;
use node_calls::{Ask, Entry, NodeFault, Reply};
use node_steps::{read_points, settings_issued, state_of_names};
use replica_state::{Op, Replica};
use std::alloc::{AllocError, Global};

impl NodeCore {
    /// Sets the points of a setting text as one call, one after the other, under stamps of
    /// consecutive clocks, and answers how many entries there were. Where one entry is refused,
    /// none is set.
    pub fn load(&mut self, alloc: Global, text: &str) -> Result<u16, NodeFault>
        ensures ok { IfOk result (λ n. Accepts self.old self.new (asks.Load text.now) [] (asks.IsLoaded n)) }
        ensures refused { IfErr result (IsRefusalOf self.old (asks.Load text.now) []) }
        ensures memory { IsErrOf result NodeFault.OutOfMemory → LoadNeedsMemory self.old text.now }
        ensures err { OnErr result (self.new ≡ self.old) }
    {
        let (ops, entries) = self.load_checked(alloc, text)?;
        self.take_in(alloc, &ops, entries, String::from_str(alloc, text)?)?;
        Ok(entries)
    }

    // The operations that set the points of a setting, and how many entries there are, or the
    // refusal.
    pub(crate) fn load_checked(
        &self,
        alloc: Global,
        text: &str,
    ) -> Result<(Vec<Op>, u16), NodeFault>
        ensures ok { IfOk result (λ p. (refusal self.now (asks.Load text.now) [] ≡ None)
            × (p.1 ≡ length (points_in text.now))) }
        ensures ops { IfOk result (λ p. map operation p.0.items ≡ operations_issued
            self.now.config.node (last_clock self.now) (settings (asks.Load text.now))) }
        ensures room { IfOk result (λ p. HasRoom self.now × HasClocks self.now p.1) }
        ensures tellable { OnOk result (AreTellable (settings (asks.Load text.now))) }
        ensures few { OnOk result (HavePlaces self.now (state_loaded self.now text.now).names) }
        ensures refused { IfErr result (IsRefusalOf self.now (asks.Load text.now) []) }
        ensures short { OnOk result (length text.now ≤ 65536) }
        ensures memory { IsErrOf result NodeFault.OutOfMemory → LoadNeedsMemory self.now text.now }
    {
        self.check_trace()?;
        let points = read_points(alloc, text)?;
        let entries = points.len() as u16;
        let named = state_of_names(alloc, &points)?;
        if self.replica.state().names_together(&named) > MAX_NAMES {
            return Err(NodeFault::TooManyPoints);
        }
        if self.clock > u64::MAX - u64::from(entries) {
            return Err(NodeFault::ClockFull);
        }
        let ops = settings_issued(alloc, self.config.node, self.clock, points)?;
        Ok((ops, entries))
    }

    // Takes in the points of a setting, as an accepted call asks.
    fn take_in(
        &mut self,
        alloc: Global,
        ops: &[Op],
        entries: u16,
        text: String,
    ) -> Result<(), AllocError>
        requires room { HasRoom self.old }
        requires entries { entries ≡ length (points_in (string_bytes text)) }
        requires clock { HasClocks self.old entries }
        requires tellable { AreTellable (settings (asks.Load (string_bytes text))) }
        requires few { HavePlaces self.old (state_loaded self.old (string_bytes text)).names }
        requires ops { map operation ops.now ≡ operations_issued
            self.old.config.node (last_clock self.old) (settings (asks.Load (string_bytes text))) }
        ensures after { OnOk result (self.new ≡ after_call self.old (asks.Load (string_bytes text)) []) }
        ensures err { OnErr result (self.new ≡ self.old) }
    {
        self.history.reserve_entry()?;
        self.replica.issue(alloc, ops)?;
        self.clock += u64::from(entries);
        let entry = Entry {
            ask: Ask::Load { text },
            words: Vec::new(alloc),
            reply: Reply::Load(entries),
        };
        self.history.push_entry(entry);
        Ok(())
    }
}

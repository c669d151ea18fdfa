//! Moving rights to another node.

ghost use Rattle.std.specs.Prelude.{◌≡◌, ◌≢◌, [], ◌+◌, ◌<◌, ◌≤ℤ◌, pos, IfOk, IfErr, OnOk, OnErr, IsErrOf, None};
ghost use Rattle.replica_state.specs.States.{rights_of};
ghost use Rattle.node_calls.specs.Asks as asks;
ghost use Rattle.node_core.specs.Memory.{NameNeedsMemory};
ghost use Rattle.node_steps.specs.Outcomes.{HasKey};
ghost use Rattle.node_core.specs.Room.{HasRoom};
ghost use Rattle.node_core.specs.Traces.{Accepts, IsRefusalOf, after_call, refusal, state_known};

use super::NodeCore;
use actions::Name;
use node_calls::{Ask, Entry, NodeFault, Reply};
use node_steps::{read_name, total_with};
use std::alloc::{AllocError, Global};

impl NodeCore {
    /// Moves rights to execute a counted term from this node to another, and answers how many it
    /// has moved there in all, under the point's present stamp. The other node has them once it
    /// was told.
    pub fn shift(
        &mut self,
        alloc: Global,
        name: &str,
        term: u8,
        to: u8,
        amount: u64,
    ) -> Result<u64, NodeFault>
        ensures ok { IfOk result (λ total. Accepts self.old self.new
            (asks.Shift name.now term to amount) [] (asks.IsShifted total)) }
        ensures refused { IfErr result (IsRefusalOf self.old (asks.Shift name.now term to amount) []) }
        ensures memory { IsErrOf result NodeFault.OutOfMemory → NameNeedsMemory self.old name.now }
        ensures err { OnErr result (self.new ≡ self.old) }
    {
        let (point, total) = self.shift_checked(alloc, name, term, to, amount)?;
        self.move_rights(alloc, point, term, to, amount, total)?;
        Ok(total)
    }

    // The name and how many rights are moved in all, or the refusal.
    pub(crate) fn shift_checked(
        &self,
        alloc: Global,
        name: &str,
        term: u8,
        to: u8,
        amount: u64,
    ) -> Result<(Name, u64), NodeFault>
        ensures ok { IfOk result (λ p. (refusal self.now (asks.Shift name.now term to amount) [] ≡ None)
            × (p.0 ≡ name.now)
            × (p.1 ≡ (state_known self.now).shifts name.now term self.now.config.node to + amount)) }
        ensures room { OnOk result (HasRoom self.now) }
        ensures set { OnOk result (HasKey (state_known self.now) name.now) }
        ensures enough { OnOk result ((to ≢ self.now.config.node)
            × (pos amount ≤ℤ rights_of (state_known self.now) name.now term self.now.config.node)) }
        ensures there { OnOk result ((to < self.now.config.nodes) × (0 < amount)) }
        ensures refused { IfErr result (IsRefusalOf self.now (asks.Shift name.now term to amount) []) }
        ensures memory { IsErrOf result NodeFault.OutOfMemory → NameNeedsMemory self.now name.now }
    {
        self.check_trace()?;
        let point = read_name(alloc, name)?;
        let total = total_with(self.replica.state(), self.config, &point, term, to, amount)?;
        Ok((point, total))
    }

    // Moves rights of a point whose name was read, so many in all.
    fn move_rights(
        &mut self,
        alloc: Global,
        point: Name,
        term: u8,
        to: u8,
        amount: u64,
        total: u64,
    ) -> Result<(), AllocError>
        requires room { HasRoom self.old }
        requires set { HasKey (state_known self.old) point }
        requires enough { (to ≢ self.old.config.node)
            × (pos amount ≤ℤ rights_of (state_known self.old) point term self.old.config.node) }
        requires there { (to < self.old.config.nodes) × (0 < amount) }
        requires total { total ≡ (state_known self.old).shifts point term self.old.config.node to + amount }
        ensures after { OnOk result (self.new ≡ after_call self.old (asks.Shift point term to amount) []) }
        ensures err { OnErr result (self.new ≡ self.old) }
    {
        let me = self.config.node;
        self.history.reserve_entry()?;
        self.replica
            .count_shift(alloc, &point, term, me, to, total)?;
        let entry = Entry {
            ask: Ask::Shift {
                name: point.into_text(),
                term,
                to,
                amount,
            },
            words: Vec::new(alloc),
            reply: Reply::Shift(total),
        };
        self.history.push_entry(entry);
        Ok(())
    }
}

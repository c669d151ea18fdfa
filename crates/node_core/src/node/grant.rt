//! Granting rights beyond a count.

ghost use Rattle.std.specs.Prelude.{◌≡◌, [], ◌+◌, ◌<◌, IfOk, IfErr, OnOk, OnErr, IsErrOf, IsSome, None};
ghost use Rattle.replica_state.specs.States.{budget_of, granted_in};
ghost use Rattle.node_calls.specs.Asks as asks;
ghost use Rattle.node_core.specs.Memory.{NameNeedsMemory};
ghost use Rattle.node_steps.specs.Outcomes.{HasKey};
ghost use Rattle.node_core.specs.Room.{HasRoom};
ghost use Rattle.node_core.specs.Traces.{Accepts, IsRefusalOf, after_call, refusal, state_known};

use super::NodeCore;
use actions::Name;
use node_calls::{Ask, Entry, NodeFault, Reply};
use node_steps::{granted_with, read_name};
use std::alloc::{AllocError, Global};

impl NodeCore {
    /// Grants this node rights to execute a counted term beyond its count, and answers how many it
    /// granted itself in all, under the point's present stamp.
    pub fn grant(
        &mut self,
        alloc: Global,
        name: &str,
        term: u8,
        amount: u64,
    ) -> Result<u64, NodeFault>
        ensures ok { IfOk result (λ total. Accepts self.old self.new
            (asks.Grant name.now term amount) [] (asks.IsGranted total)) }
        ensures refused { IfErr result (IsRefusalOf self.old (asks.Grant name.now term amount) []) }
        ensures memory { IsErrOf result NodeFault.OutOfMemory → NameNeedsMemory self.old name.now }
        ensures err { OnErr result (self.new ≡ self.old) }
    {
        let (point, total) = self.grant_checked(alloc, name, term, amount)?;
        self.add_rights(alloc, point, term, amount, total)?;
        Ok(total)
    }

    // The name and how many rights are granted in all, or the refusal.
    pub(crate) fn grant_checked(
        &self,
        alloc: Global,
        name: &str,
        term: u8,
        amount: u64,
    ) -> Result<(Name, u64), NodeFault>
        ensures ok { IfOk result (λ p. (refusal self.now (asks.Grant name.now term amount) [] ≡ None)
            × (p.0 ≡ name.now)
            × (p.1 ≡ granted_in (state_known self.now) name.now term self.now.config.node + amount)) }
        ensures room { OnOk result (HasRoom self.now) }
        ensures set { OnOk result (HasKey (state_known self.now) name.now) }
        ensures counted { OnOk result (IsSome (budget_of (state_known self.now) name.now term)) }
        ensures some { OnOk result (0 < amount) }
        ensures refused { IfErr result (IsRefusalOf self.now (asks.Grant name.now term amount) []) }
        ensures memory { IsErrOf result NodeFault.OutOfMemory → NameNeedsMemory self.now name.now }
    {
        self.check_trace()?;
        let point = read_name(alloc, name)?;
        let total = granted_with(self.replica.state(), self.config, &point, term, amount)?;
        Ok((point, total))
    }

    // Grants rights to a point whose name was read, so many in all.
    fn add_rights(
        &mut self,
        alloc: Global,
        point: Name,
        term: u8,
        amount: u64,
        total: u64,
    ) -> Result<(), AllocError>
        requires room { HasRoom self.old }
        requires set { HasKey (state_known self.old) point }
        requires counted { IsSome (budget_of (state_known self.old) point term) }
        requires some { 0 < amount }
        requires total { total
            ≡ granted_in (state_known self.old) point term self.old.config.node + amount }
        ensures after { OnOk result (self.new ≡ after_call self.old (asks.Grant point term amount) []) }
        ensures err { OnErr result (self.new ≡ self.old) }
    {
        let me = self.config.node;
        self.history.reserve_entry()?;
        self.replica
            .count_shift(alloc, &point, term, me, me, total)?;
        let entry = Entry {
            ask: Ask::Grant {
                name: point.into_text(),
                term,
                amount,
            },
            words: Vec::new(alloc),
            reply: Reply::Grant(total),
        };
        self.history.push_entry(entry);
        Ok(())
    }
}

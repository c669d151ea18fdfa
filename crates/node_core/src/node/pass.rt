//! Passing a point.

ghost use Rattle.std.specs.Prelude.{◌≡◌, ◌⊎◌, ◌^◌, ◌<◌, IfOk, IfErr, OnOk};
ghost use Rattle.std.specs.Prelude.{OnErr, IsErrOf, IsTrue, true};
ghost use Rattle.std.specs.Prelude.{◌≤◌, Some, None, option_map, length};
ghost use Rattle.std.specs.Bool.{then_some};
ghost use Rattle.actions.specs.Names.{is_name};
ghost use Rattle.node_core.specs.Replicas.{value_in};
ghost use Rattle.delta_exchange.specs.Versions.{ChangesTo, MayPass};
ghost use Rattle.std.specs.Prelude.{false};
ghost use Rattle.replica_state.specs.States.{with_pass};
ghost use Rattle.node_calls.specs.Asks as asks;
ghost use Rattle.node_calls.specs.Told.{passed, passed_ref};
ghost use Rattle.node_core.specs.Lasts.{last_passed, passed_at};
ghost use Rattle.node_core.specs.Memory.{NameNeedsMemory};
ghost use Rattle.node_steps.specs.Passes.{words_for};
ghost use Rattle.node_core.specs.Room.{HasRoom};
ghost use Rattle.node_core.specs.Traces.{Accepts, IsRefusalOf, call_kept, reply_to};
ghost use Rattle.node_core.specs.Traces.{state_known};

use super::NodeCore;
use crate::words::GivenWords;
use actions::Name;
use delta_exchange::Versioned;
use node_calls::{NodeFault, PassReply, PassReplyRef};
use node_steps::{State, WordSource, outcome_of, read_name, reply_if};
use std::alloc::{AllocError, Global};

impl NodeCore {
    /// Passes a point, with a random draw for each of its terms whose chance is below 100%.
    pub fn pass_with(
        &mut self,
        alloc: Global,
        name: &str,
        words: &[u32],
    ) -> Result<PassReply, NodeFault>
        ensures ok { IfOk result (λ r. Accepts self.old self.new
            (asks.Pass name.now) words.now (asks.IsPassed (passed r))) }
        ensures refused { IfErr result (IsRefusalOf self.old (asks.Pass name.now) words.now) }
        ensures memory { IsErrOf result NodeFault.OutOfMemory → NameNeedsMemory self.old name.now }
        ensures err { OnErr result (self.new ≡ self.old) }
    {
        self.check_trace()?;
        let point = read_name(alloc, name)?;
        let mut given = GivenWords::new(words);
        let (_, answer) = self.pass(alloc, &point, &mut given, true)?;
        match answer {
            Some(reply) => Ok(reply),
            None => unreachable!(),
        }
    }

    /// Passes a point with the next random draws of a source, as many as it needs, and answers
    /// these beside the reply. A pass that is refused may have drawn them.
    pub fn pass_drawing<S: WordSource>(
        &mut self,
        alloc: Global,
        name: &str,
        source: &mut S,
    ) -> Result<(Vec<u32>, PassReply), NodeFault>
        requires { S.can_draw source.old }
        ensures ok { IfOk result (λ r. Accepts self.old self.new
            (asks.Pass name.now) r.0.items (asks.IsPassed (passed r.1))) }
        ensures words { IfOk result (λ r. r.0.items
            ≡ S.next_words source.old (words_for (state_known self.old) name.now)) }
        ensures drawn { OnOk result (source.new
            ≡ S.after_words source.old (words_for (state_known self.old) name.now)) }
        ensures few { OnOk result (words_for (state_known self.old) name.now < 2 ^ 8) }
        ensures refused { IfErr result (IsRefusalOf self.old (asks.Pass name.now)
            (S.next_words source.old (words_for (state_known self.old) name.now))) }
        ensures memory { IsErrOf result NodeFault.OutOfMemory → NameNeedsMemory self.old name.now }
        ensures vain { OnErr result ((source.new ≡ source.old) ⊎ (source.new
            ≡ S.after_words source.old (words_for (state_known self.old) name.now))) }
        ensures err { OnErr result (self.new ≡ self.old) }
    {
        self.check_trace()?;
        let point = read_name(alloc, name)?;
        let (words, answer) = self.pass(alloc, &point, source, true)?;
        match answer {
            Some(reply) => Ok((words, reply)),
            None => unreachable!(),
        }
    }

    /// Passes a point as `pass_with` does, without a reply of its own (`last_pass`).
    pub fn record_pass(&mut self, alloc: Global, name: &str, words: &[u32]) -> Result<(), NodeFault>
        ensures ok { OnOk result (Accepts self.old self.new
            (asks.Pass name.now) words.now (reply_to self.old (asks.Pass name.now) words.now)) }
        ensures last { OnOk result (option_map asks.IsPassed (last_passed self.new)
            ≡ Some (reply_to self.old (asks.Pass name.now) words.now)) }
        ensures refused { IfErr result (IsRefusalOf self.old (asks.Pass name.now) words.now) }
        ensures memory { IsErrOf result NodeFault.OutOfMemory → NameNeedsMemory self.old name.now }
        ensures err { OnErr result (self.new ≡ self.old) }
    {
        self.check_trace()?;
        let point = read_name(alloc, name)?;
        let mut given = GivenWords::new(words);
        self.pass(alloc, &point, &mut given, false)?;
        Ok(())
    }

    /// Passes a point by its name as `record_pass` does. No text is copied.
    pub fn record_point(
        &mut self,
        alloc: Global,
        point: &Name,
        words: &[u32],
    ) -> Result<(), NodeFault>
        ensures ok { OnOk result (Accepts self.old self.new
            (asks.Pass point.now) words.now (reply_to self.old (asks.Pass point.now) words.now)) }
        ensures last { OnOk result (option_map asks.IsPassed (last_passed self.new)
            ≡ Some (reply_to self.old (asks.Pass point.now) words.now)) }
        ensures refused { IfErr result (IsRefusalOf self.old (asks.Pass point.now) words.now) }
        ensures memory { IsErrOf result NodeFault.OutOfMemory → NameNeedsMemory self.old point.now }
        ensures err { OnErr result (self.new ≡ self.old) }
    {
        self.check_trace()?;
        // A name says of itself that it is one.
        let _ = point.text();
        let mut given = GivenWords::new(words);
        self.pass(alloc, point, &mut given, false)?;
        Ok(())
    }

    /// Passes a point by its name as `pass_drawing` does, without a reply of its own (`last_pass`), and
    /// answers the random draws. No text is copied.
    pub fn pass_point<S: WordSource>(
        &mut self,
        alloc: Global,
        point: &Name,
        source: &mut S,
    ) -> Result<Vec<u32>, NodeFault>
        requires { S.can_draw source.old }
        ensures ok { IfOk result (λ words. Accepts self.old self.new (asks.Pass point.now)
            words.items (reply_to self.old (asks.Pass point.now) words.items)) }
        ensures last { IfOk result (λ words. option_map asks.IsPassed (last_passed self.new)
            ≡ Some (reply_to self.old (asks.Pass point.now) words.items)) }
        ensures words { IfOk result (λ words. words.items
            ≡ S.next_words source.old (words_for (state_known self.old) point.now)) }
        ensures drawn { OnOk result (source.new
            ≡ S.after_words source.old (words_for (state_known self.old) point.now)) }
        ensures few { OnOk result (words_for (state_known self.old) point.now < 2 ^ 8) }
        ensures refused { IfErr result (IsRefusalOf self.old (asks.Pass point.now)
            (S.next_words source.old (words_for (state_known self.old) point.now))) }
        ensures memory { IsErrOf result NodeFault.OutOfMemory → NameNeedsMemory self.old point.now }
        ensures vain { OnErr result ((source.new ≡ source.old) ⊎ (source.new
            ≡ S.after_words source.old (words_for (state_known self.old) point.now))) }
        ensures err { OnErr result (self.new ≡ self.old) }
    {
        self.check_trace()?;
        // A name says of itself that it is one.
        let _ = point.text();
        let (words, _) = self.pass(alloc, point, source, false)?;
        Ok(words)
    }

    /// What the last accepted call was answered, if that was a pass that is kept.
    pub fn last_pass(&self) -> Option<PassReplyRef<'_>>
        ensures { option_map passed_ref result ≡ last_passed self.now }
    {
        self.history.last()?.pass_reply()
    }

    /// What the accepted call of a number was answered, if that was a pass that is kept; none where there
    /// are fewer calls.
    pub fn passed_at(&self, index: u64) -> Option<PassReplyRef<'_>>
        ensures { option_map passed_ref result ≡ passed_at (call_kept self.now index) }
    {
        self.history.at(index)?.pass_reply()
    }

    // Passes a point whose name was read, with the next random draws of a source, and answers these,
    // and the reply where it is wanted.
    #[inline(always)]
    fn pass<S: WordSource>(
        &mut self,
        alloc: Global,
        point: &Name,
        source: &mut S,
        wants_reply: bool,
    ) -> Result<(Vec<u32>, Option<PassReply>), NodeFault>
        requires room { HasRoom self.old }
        requires named { IsTrue (is_name point.now) }
        requires can { S.can_draw source.old }
        ensures ok { IfOk result (λ r. Accepts self.old self.new (asks.Pass point.now) r.0.items
            (reply_to self.old (asks.Pass point.now) r.0.items)) }
        ensures words { IfOk result (λ r. r.0.items
            ≡ S.next_words source.old (words_for (state_known self.old) point.now)) }
        ensures reply { IfOk result (λ r. option_map (λ p. asks.IsPassed (passed p)) r.1
            ≡ then_some wants_reply (reply_to self.old (asks.Pass point.now) r.0.items)) }
        ensures few { OnOk result (words_for (state_known self.old) point.now < 2 ^ 8) }
        ensures within { OnOk result (self.old.from ≤ length self.old.trace) }
        ensures drawn { OnOk result (source.new
            ≡ S.after_words source.old (words_for (state_known self.old) point.now)) }
        ensures refused { IfErr result (IsRefusalOf self.old (asks.Pass point.now)
            (S.next_words source.old (words_for (state_known self.old) point.now))) }
        ensures vain { OnErr result ((source.new ≡ source.old) ⊎ (source.new
            ≡ S.after_words source.old (words_for (state_known self.old) point.now))) }
        ensures err { OnErr result (self.new ≡ self.old) }
    {
        let me = self.config.node;
        let (words, outcome) = outcome_of(alloc, self.replica.state(), me, point, source)?;
        let pass = outcome.pass(point, &words);
        let reply = reply_if(alloc, pass, wants_reply)?;
        let Ok(prepared) = self.history.prepare(alloc, pass) else {
            drop(reply);
            return Err(NodeFault::OutOfMemory);
        };
        let (is_set, spent) = (outcome.setting.is_some(), outcome.spent);
        if let Err(AllocError) = count(&mut self.replica, alloc, me, point, is_set, spent) {
            drop(prepared);
            drop(reply);
            return Err(NodeFault::OutOfMemory);
        }
        self.history.push(prepared);
        Ok((words, reply))
    }
}

/// Counts a hit, and perhaps an execution.
#[inline(always)]
fn count(
    replica: &mut Versioned<State>,
    alloc: Global,
    me: u8,
    name: &Name,
    is_set: bool,
    spent: Option<u8>,
) -> Result<(), AllocError>
    requires { is_set ≡ true → MayPass (value_in replica.old) name.now me spent }
    ensures done { OnOk result (is_set ≡ true → ChangesTo (value_in replica.old)
        (with_pass name.now me spent (value_in replica.old).state) (value_in replica.new)) }
    ensures unset { OnOk result (is_set ≡ false → value_in replica.new ≡ value_in replica.old) }
    ensures err { OnErr result (value_in replica.new ≡ value_in replica.old) }
{
    if is_set {
        replica.count_pass(alloc, name, me, spent)?;
    }
    Ok(())
}

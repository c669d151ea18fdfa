//! Calls as values: what a node is asked, and the entry that it adds to its trace.

ghost use Rattle.std.specs.Prelude.{◌≡◌, ◌∷◌, false, ℕ, List, [], IfOk, IfErr, OnOk, OnErr};
ghost use Rattle.node_calls.specs.Told.{ask_ref_told, ask_told, is_pass, reply_told};
ghost use Rattle.node_calls.specs.Asks.{ask_value, ask_value_first, asked_from, asked_first, reply_value};
ghost use Rattle.node_core.specs.Applied.{delivery_refused_with, TellsIfEmit};
ghost use Rattle.node_core.specs.Traces.{Accepts, IsRefusalOf, Records, call_of};

use super::NodeCore;
use node_calls::{Ask, AskRef, Entry, NodeFault, Reply};
use node_steps::Delivery;
use std::alloc::Global;

// Why an ask that takes no random draws is refused with some: for what it is refused without them,
// or else for the random draws.
fn with_words<T: Drop>(checked: Result<T, NodeFault>) -> NodeFault
    ensures ok { OnOk checked (result ≡ NodeFault.BadWords 0) }
    ensures err { IfErr checked (λ f. result ≡ f) }
{
    match checked {
        Ok(_) => NodeFault::BadWords { need: 0 },
        Err(fault) => fault,
    }
}

// The refusal of a delivery with random draws, which are looked at before its message.
fn delivery_with_words(checked: Result<Delivery, NodeFault>) -> NodeFault
    ensures ok { OnOk checked (result ≡ NodeFault.BadWords 0) }
    ensures err { IfErr checked (λ f. result ≡ delivery_refused_with f) }
{
    match checked {
        Err(NodeFault::TraceFull) => NodeFault::TraceFull,
        Err(NodeFault::TooManyPoints) => NodeFault::TooManyPoints,
        Err(NodeFault::OutOfMemory) => NodeFault::OutOfMemory,
        _ => NodeFault::BadWords { need: 0 },
    }
}

impl NodeCore {
    /// Makes a call that is given as a value, and answers a copy of the entry that the trace has
    /// for it. The random draws are those of a pass; with any other ask they are refused.
    pub fn apply(&mut self, alloc: Global, ask: &Ask, words: &[u32]) -> Result<Entry, NodeFault>
        ensures asked { IfOk result (λ e.
            (call_of self.old e).ask ≡ ask_value self.old.config.nodes ask.now e.reply) }
        ensures ok { IfOk result (λ e. Records self.old self.new (call_of self.old e) words.now) }
        // What an emit tells.
        ensures delta { IfOk result (λ e. TellsIfEmit self.old (ask_told ask.now) e.reply) }
        ensures refused { IfErr result (IsRefusalOf self.old
            (ask_value_first self.old.config.nodes ask.now) words.now) }
        ensures err { OnErr result (self.new ≡ self.old) }
    {
        let recorded = Vec::from_slice(alloc, words)?;
        let copy = ask.copied(alloc)?;
        match self.answer(alloc, ask, words) {
            Ok(reply) => Ok(Entry {
                ask: copy,
                words: recorded,
                reply,
            }),
            Err(fault) => {
                drop(copy);
                Err(fault)
            }
        }
    }

    /// Makes a call that is given as a value, as `apply` does, and answers its reply alone, so that
    /// nothing is copied but what the trace keeps.
    pub fn answer(&mut self, alloc: Global, ask: &Ask, words: &[u32]) -> Result<Reply, NodeFault>
        ensures ok { IfOk result (λ r. Accepts self.old self.new
            (ask_value self.old.config.nodes ask.now r) words.now
            (reply_value self.old.config.nodes r)) }
        // What an emit tells.
        ensures delta { IfOk result (λ r. TellsIfEmit self.old (ask_told ask.now) r) }
        ensures refused { IfErr result (IsRefusalOf self.old
            (ask_value_first self.old.config.nodes ask.now) words.now) }
        ensures err { OnErr result (self.new ≡ self.old) }
    {
        self.call(alloc, ask.as_ref(), words)
    }

    /// Makes a call whose texts and whose message stand elsewhere, and answers its reply alone. The
    /// random draws are those of a pass; with any other call they are refused.
    pub fn call(
        &mut self,
        alloc: Global,
        ask: AskRef<'_>,
        words: &[u32],
    ) -> Result<Reply, NodeFault>
        ensures ok { IfOk result (λ r. Accepts self.old self.new
            (asked_from self.old.config.nodes (ask_ref_told ask.entry) (reply_told r)) words.now
            (reply_value self.old.config.nodes r)) }
        // What an emit tells.
        ensures delta { IfOk result (λ r. TellsIfEmit self.old (ask_ref_told ask.entry) r) }
        ensures refused { IfErr result (IsRefusalOf self.old
            (asked_first self.old.config.nodes (ask_ref_told ask.entry)) words.now) }
        ensures err { OnErr result (self.new ≡ self.old) }
    {
        if !words.is_empty() && !ask.is_pass() {
            return Err(self.refuse_words(alloc, ask));
        }
        self.call_with(alloc, ask, words)
    }

    /// Makes a call that is given as a value and goes into the trace, as `answer` does. The bytes of
    /// a message that is delivered aren't copied.
    pub fn submit(&mut self, alloc: Global, ask: Ask, words: &[u32]) -> Result<Reply, NodeFault>
        ensures ok { IfOk result (λ r. Accepts self.old self.new
            (ask_value self.old.config.nodes ask r) words.now (reply_value self.old.config.nodes r)) }
        // What an emit tells.
        ensures delta { IfOk result (λ r. TellsIfEmit self.old (ask_told ask) r) }
        ensures refused { IfErr result (IsRefusalOf self.old
            (ask_value_first self.old.config.nodes ask) words.now) }
        ensures err { OnErr result (self.new ≡ self.old) }
    {
        if !words.is_empty() {
            let answered = self.answer(alloc, &ask, words);
            drop(ask);
            return answered;
        }
        match ask.into_message() {
            Ok(message) => Ok(Reply::Deliver(self.deliver_owned(alloc, message)?)),
            Err(ask) => {
                let answered = self.answer(alloc, &ask, &[]);
                drop(ask);
                answered
            }
        }
    }

    // Makes the call, with random draws for a pass alone.
    fn call_with(
        &mut self,
        alloc: Global,
        ask: AskRef<'_>,
        words: &[u32],
    ) -> Result<Reply, NodeFault>
        requires { is_pass (ask_ref_told ask) ≡ false → words.now ≡ [] }
        ensures ok { IfOk result (λ r. Accepts self.old self.new
            (asked_from self.old.config.nodes (ask_ref_told ask.entry) (reply_told r)) words.now
            (reply_value self.old.config.nodes r)) }
        ensures delta { IfOk result (λ r. TellsIfEmit self.old (ask_ref_told ask.entry) r) }
        ensures refused { IfErr result (IsRefusalOf self.old
            (asked_first self.old.config.nodes (ask_ref_told ask.entry)) words.now) }
        ensures err { OnErr result (self.new ≡ self.old) }
    {
        Ok(match ask {
            AskRef::Set { name, text } => Reply::Set(self.set(alloc, name, text)?),
            AskRef::Remove { name } => Reply::Remove(self.remove(alloc, name)?),
            AskRef::Load { text } => Reply::Load(self.load(alloc, text)?),
            AskRef::Pass { name } => Reply::Pass(self.pass_with(alloc, name, words)?),
            AskRef::Shift {
                name,
                term,
                to,
                amount,
            } => Reply::Shift(self.shift(alloc, name, term, to, amount)?),
            AskRef::Grant { name, term, amount } => {
                Reply::Grant(self.grant(alloc, name, term, amount)?)
            }
            AskRef::Emit { to } => Reply::Emit(self.emit(alloc, to)?),
            AskRef::Deliver { message } => Reply::Deliver(self.deliver(alloc, message)?),
        })
    }

    // Why an ask is refused that is no pass and has random draws.
    fn refuse_words(&self, alloc: Global, ask: AskRef<'_>) -> NodeFault
        requires { is_pass (ask_ref_told ask) ≡ false }
        ensures { (w : ℕ) (ws : List ℕ) → IsRefusalOf self.now
            (asked_first self.now.config.nodes (ask_ref_told ask.entry)) (w ∷ ws) result }
    {
        match ask {
            AskRef::Set { name, text } => with_words(self.set_checked(alloc, name, text)),
            AskRef::Remove { name } => with_words(self.remove_checked(alloc, name)),
            AskRef::Load { text } => with_words(self.load_checked(alloc, text)),
            AskRef::Pass { .. } => NodeFault::BadWords { need: 0 },
            AskRef::Shift {
                name,
                term,
                to,
                amount,
            } => with_words(self.shift_checked(alloc, name, term, to, amount)),
            AskRef::Grant { name, term, amount } => {
                with_words(self.grant_checked(alloc, name, term, amount))
            }
            AskRef::Emit { to } => with_words(self.emit_checked(to)),
            AskRef::Deliver { message } => delivery_with_words(self.deliver_checked(
                alloc, message,
            )),
        }
    }
}

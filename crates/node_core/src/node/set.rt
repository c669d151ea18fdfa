//! Setting and removing a point.

ghost use Rattle.std.specs.Prelude.{◌≡◌, [], ◌∷◌, ◌+◌, IfOk, IfErr, OnOk, OnErr, IsErrOf};
ghost use Rattle.std.specs.Prelude.{IsTrue, Some, None, Ok};
ghost use Rattle.actions.specs.Names.{is_name};
ghost use Rattle.actions.specs.Reading.{reading};
ghost use Rattle.stamp_register.specs.Keys.{body_value};
ghost use Rattle.message_format.specs.Spelling.{IsBody};
ghost use Rattle.node_calls.specs.Asks as asks;
ghost use Rattle.node_steps.specs.Refusals.{IsReadable, key_refusal};
ghost use Rattle.node_core.specs.Memory.{SetNeedsMemory, NameNeedsMemory};
ghost use Rattle.node_core.specs.Room.{HasRoom, HasClocks, HasPlace};
ghost use Rattle.node_steps.specs.Settings.{settings};
ghost use Rattle.node_core.specs.Traces.{Accepts, IsRefusalOf, after_call, call_of, last_clock};
ghost use Rattle.node_core.specs.Traces.{node_of, refusal, reply_to};

use super::NodeCore;
use actions::{Actions, Name};
use delta_exchange::MAX_NAMES;
use node_calls::{Ask, Entry, NodeFault, Reply};
use node_steps::{read_actions, read_name, set_to, setting_refusal};
use replica_state::Replica;
use stamp_register::{Body, Key, Stamp};
use std::alloc::{AllocError, Global};

impl NodeCore {
    /// Sets a point to an action text, under a new stamp.
    pub fn set(&mut self, alloc: Global, name: &str, text: &str) -> Result<Stamp, NodeFault>
        ensures ok { IfOk result (λ s. Accepts self.old self.new (asks.Set name.now text.now) [] (asks.IsSet s)) }
        ensures refused { IfErr result (IsRefusalOf self.old (asks.Set name.now text.now) []) }
        ensures memory { IsErrOf result NodeFault.OutOfMemory → SetNeedsMemory self.old name.now text.now }
        ensures err { OnErr result (self.new ≡ self.old) }
    {
        let (point, actions) = self.set_checked(alloc, name, text)?;
        let stamp = self.next_stamp();
        let entry = Entry {
            ask: Ask::Set {
                name: String::from_str(alloc, name)?,
                text: String::from_str(alloc, text)?,
            },
            words: Vec::new(alloc),
            reply: Reply::Set(stamp),
        };
        self.issue(alloc, point, set_to(actions), entry)?;
        Ok(stamp)
    }

    /// Removes a point, under a new stamp, also where it isn't known here: so that a setting that
    /// comes later from another node, but was made before, doesn't hold.
    pub fn remove(&mut self, alloc: Global, name: &str) -> Result<Stamp, NodeFault>
        ensures ok { IfOk result (λ s. Accepts self.old self.new (asks.Remove name.now) [] (asks.IsRemoved s)) }
        ensures refused { IfErr result (IsRefusalOf self.old (asks.Remove name.now) []) }
        ensures memory { IsErrOf result NodeFault.OutOfMemory → NameNeedsMemory self.old name.now }
        ensures err { OnErr result (self.new ≡ self.old) }
    {
        let point = self.remove_checked(alloc, name)?;
        let stamp = self.next_stamp();
        let entry = Entry {
            ask: Ask::Remove {
                name: String::from_str(alloc, name)?,
            },
            words: Vec::new(alloc),
            reply: Reply::Remove(stamp),
        };
        self.issue(alloc, point, Body::Removed, entry)?;
        Ok(stamp)
    }

    // The name and the actions, or the refusal.
    pub(crate) fn set_checked(
        &self,
        alloc: Global,
        name: &str,
        text: &str,
    ) -> Result<(Name, Actions), NodeFault>
        ensures ok { IfOk result (λ p. (refusal self.now (asks.Set name.now text.now) [] ≡ None)
            × (p.0 ≡ name.now) × (reading text.now ≡ Ok p.1)) }
        ensures few { OnOk result (IsTrue (is_name name.now) × HasPlace self.now name.now) }
        ensures room { OnOk result (HasRoom self.now × HasClocks self.now 1) }
        ensures refused { IfErr result (IsRefusalOf self.now (asks.Set name.now text.now) []) }
        ensures readable { OnOk result (IsReadable text.now) }
        ensures memory { IsErrOf result NodeFault.OutOfMemory → SetNeedsMemory self.now name.now text.now }
    {
        self.check_trace()?;
        let point = match read_name(alloc, name) {
            Ok(point) => point,
            Err(fault) => return Err(setting_refusal(alloc, fault, text)),
        };
        let actions = read_actions(alloc, text)?;
        self.check_room(&point)?;
        Ok((point, actions))
    }

    // The name, or the refusal.
    pub(crate) fn remove_checked(&self, alloc: Global, name: &str) -> Result<Name, NodeFault>
        ensures ok { IfOk result (λ p. (refusal self.now (asks.Remove name.now) [] ≡ None) × (p ≡ name.now)) }
        ensures few { OnOk result (IsTrue (is_name name.now) × HasPlace self.now name.now) }
        ensures room { OnOk result (HasRoom self.now × HasClocks self.now 1) }
        ensures refused { IfErr result (IsRefusalOf self.now (asks.Remove name.now) []) }
        ensures memory { IsErrOf result NodeFault.OutOfMemory → NameNeedsMemory self.now name.now }
    {
        self.check_trace()?;
        let point = read_name(alloc, name)?;
        self.check_room(&point)?;
        Ok(point)
    }

    // Whether a key of a point finds room: a name at most, and a clock.
    fn check_room(&self, point: &Name) -> Result<(), NodeFault>
        ensures ok { OnOk result (HasPlace self.now point.now × HasClocks self.now 1) }
        ensures refused { IfErr result (λ f. key_refusal (node_of self.now) point.now ≡ Some f) }
    {
        if self.replica.state().names_with(point) > MAX_NAMES {
            return Err(NodeFault::TooManyPoints);
        }
        if self.clock == u64::MAX {
            return Err(NodeFault::ClockFull);
        }
        Ok(())
    }

    // The stamp of the next setting.
    fn next_stamp(&self) -> Stamp
        requires { HasClocks self.now 1 }
        ensures { result ≡ record { clock = last_clock self.now + 1; node = self.now.config.node } }
    {
        Stamp {
            clock: self.clock + 1,
            node: self.config.node,
        }
    }

    // Gives a point its next key, as an accepted call asks.
    fn issue(
        &mut self,
        alloc: Global,
        point: Name,
        body: Body,
        entry: Entry,
    ) -> Result<(), AllocError>
        requires room { HasRoom self.old }
        requires clock { HasClocks self.old 1 }
        requires setting { settings (call_of self.old entry).ask ≡ (point, body_value body) ∷ [] }
        requires named { IsTrue (is_name point) }
        requires body { IsBody (body_value body) }
        requires few { HasPlace self.old point }
        requires words { (call_of self.old entry).words ≡ [] }
        requires reply { (call_of self.old entry).reply ≡ reply_to self.old (call_of self.old entry).ask [] }
        ensures after { OnOk result (self.new ≡ after_call self.old (call_of self.old entry).ask []) }
        ensures err { OnErr result (self.new ≡ self.old) }
    {
        if let Err(error) = self.history.reserve_entry() {
            drop(body);
            drop(entry);
            return Err(error);
        }
        let key = Key {
            clock: self.clock + 1,
            node: self.config.node,
            body,
        };
        if let Err(error) = self.replica.set_key(alloc, point, key) {
            drop(entry);
            return Err(error);
        }
        self.clock += 1;
        self.history.push_entry(entry);
        Ok(())
    }
}

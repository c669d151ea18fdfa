//! What a pass of a point comes to.

ghost use Rattle.std.specs.Prelude.{◌≡◌, ◌⊎◌, ℕ, vec_len, ◌^◌, ◌<◌, ◌≤ℤ◌, pos, IfOk, IfErr, OnOk};
ghost use Rattle.std.specs.Prelude.{OnErr, IsSome, IfSome, MatchOption};
ghost use Rattle.std.specs.Prelude.{◌≤◌, Some, None, is_some, option_map};
ghost use Rattle.std.specs.Bool.{then_some};
ghost use Rattle.stamp_register.specs.Keys.{key_value};
ghost use Rattle.node_steps.specs.Replicas.{state_in};
ghost use Rattle.replica_state.specs.States.{rights_of};
ghost use Rattle.node_calls.specs.Told.{passed};
ghost use Rattle.node_steps.specs.Nodes.{setting_of};
ghost use Rattle.packed_trace.specs.Packed.{passed_by, setting_ref_told};
ghost use Rattle.node_steps.specs.Outcomes.{spent_by, ops_done, HasKey};
ghost use Rattle.node_steps.specs.Passes.{words_for, triggered_term, pass_reply, pass_ops};
ghost use Rattle.node_steps.specs.Refusals.{bad_words};

use crate::replica::State;
use crate::words::WordSource;
use actions::{Actions, Name, decide};
use node_calls::{NodeFault, PassReply};
use packed_trace::{Pass, SettingRef};
use replica_state::Replica;
use stamp_register::Key;
use std::alloc::{AllocError, Global};

/// The reply of a pass, where it is wanted.
pub fn reply_if(
    alloc: Global,
    pass: Pass<'_>,
    is_wanted: bool,
) -> Result<Option<PassReply>, AllocError>
    ensures { IfOk result (λ reply. option_map passed reply ≡ then_some is_wanted
        (passed_by (setting_ref_told pass.entry.setting) pass.entry.term)) }
{
    if is_wanted {
        Ok(Some(pass.reply().copied(alloc)?))
    } else {
        Ok(None)
    }
}

/// What a point is set to, with the term that a pass of it by node `me` triggers with the next
/// random draws of a source, beside these; or why they are refused.
#[inline(always)]
fn choice_at<'a, S: WordSource>(
    alloc: Global,
    state: &'a State,
    me: u8,
    name: &Name,
    source: &mut S,
) -> Result<(Vec<u32>, Option<(&'a Key, &'a Actions, Option<u8>)>), NodeFault>
    requires { S.can_draw source.old }
    ensures setting { IfOk result (λ r. MatchOption r.1
        (setting_of (state_in state.now) name.now ≡ None)
        (λ s. setting_of (state_in state.now) name.now ≡ Some (key_value s.0.now, s.1.now))) }
    ensures term { IfOk result (λ r. IfSome r.1 (λ s. s.2
        ≡ triggered_term me (state_in state.now) name.now r.0.items (key_value s.0.now, s.1.now))) }
    ensures key { IfOk result (λ r. IsSome r.1 → HasKey (state_in state.now) name.now) }
    ensures words { IfOk result (λ r. r.0.items
        ≡ S.next_words source.old (words_for (state_in state.now) name.now)) }
    ensures many { IfOk result (λ r. vec_len r.0 ≡ words_for (state_in state.now) name.now) }
    ensures few { OnOk result (words_for (state_in state.now) name.now < 2 ^ 8) }
    ensures drawn { OnOk result (source.new
        ≡ S.after_words source.old (words_for (state_in state.now) name.now)) }
    ensures refused { let need = words_for (state_in state.now) name.now in IfErr result (λ f.
        (f ≡ NodeFault.OutOfMemory) ⊎ (bad_words need (S.next_words source.old need) ≡ Some f)) }
    ensures err { OnErr result (source.new ≡ source.old) }
{
    if let Some(found) = state.key_and_rights(name, me) {
        let key = found.0;
        let may = found.1;
        if let Some(actions) = key.actions() {
            let words = source.draw(alloc, actions.words_needed())?;
            let term = decide(actions, &words, may);
            return Ok((words, Some((key, actions, term))));
        }
    }
    let words = source.draw(alloc, 0)?;
    Ok((words, None))
}

/// The triggered term, if it is counted.
fn spent_term(actions: &Actions, chosen: Option<u8>) -> Option<u8>
    ensures value { result ≡ spent_by actions.now chosen }
    ensures low { IfSome result (λ term. term < 2 ^ 8) }
{
    let term = chosen?;
    match actions.term(term) {
        Some(found) => match found.count {
            Some(_) => Some(term),
            None => None,
        },
        None => None,
    }
}

/// What a pass comes to: the point's setting, if it is set; the term that is triggered, if one is; and
/// that term once more where it is counted.
#[derive(Clone, Copy)]
pub struct Outcome<'a> {
    pub setting: Option<SettingRef<'a>>,
    pub term: Option<u8>,
    pub spent: Option<u8>,
}

impl<'a> Outcome<'a> {
    /// The pass as it is to be kept.
    pub fn pass(self, name: &'a Name, words: &'a [u32]) -> Pass<'a>
        ensures { result ≡ record {
          name = name.entry;
          setting = self.entry.setting;
          term = self.entry.term;
          words = words.entry;
        } }
    {
        Pass {
            name,
            setting: self.setting,
            term: self.term,
            words,
        }
    }
}

/// What a pass of a point by node `me` comes to with the next random draws of a source, beside
/// these; or why they are refused.
#[inline(always)]
pub fn outcome_of<'a, S: WordSource>(
    alloc: Global,
    state: &'a State,
    me: u8,
    name: &Name,
    source: &mut S,
) -> Result<(Vec<u32>, Outcome<'a>), NodeFault>
    requires { S.can_draw source.old }
    ensures reply { IfOk result (λ r. passed_by (setting_ref_told r.1.setting) r.1.term
        ≡ pass_reply me (state_in state.now) name.now r.0.items) }
    ensures ops { IfOk result (λ r. pass_ops me (state_in state.now) name.now r.0.items
        ≡ ops_done me (state_in state.now) name.now (is_some r.1.setting) r.1.spent) }
    ensures key { IfOk result (λ r. IsSome r.1.setting → HasKey (state_in state.now) name.now) }
    ensures low { IfOk result (λ r. IfSome r.1.spent (λ term. term < 2 ^ 8)) }
    ensures rights { IfOk result (λ r. (term : ℕ) → r.1.spent ≡ Some term
        → pos 1 ≤ℤ rights_of (state_in state.now) name.now term me) }
    ensures words { IfOk result (λ r. r.0.items
        ≡ S.next_words source.old (words_for (state_in state.now) name.now)) }
    ensures many { IfOk result (λ r. vec_len r.0 ≡ words_for (state_in state.now) name.now) }
    ensures few { OnOk result (words_for (state_in state.now) name.now < 2 ^ 8) }
    ensures drawn { OnOk result (source.new
        ≡ S.after_words source.old (words_for (state_in state.now) name.now)) }
    ensures refused { let need = words_for (state_in state.now) name.now in IfErr result (λ f.
        (f ≡ NodeFault.OutOfMemory) ⊎ (bad_words need (S.next_words source.old need) ≡ Some f)) }
    ensures err { OnErr result (source.new ≡ source.old) }
{
    let (words, found) = choice_at(alloc, state, me, name, source)?;
    let Some((key, actions, term)) = found else {
        let unset = Outcome {
            setting: None,
            term: None,
            spent: None,
        };
        return Ok((words, unset));
    };
    let outcome = Outcome {
        setting: Some(SettingRef {
            stamp: key.stamp(),
            actions,
        }),
        term,
        spent: spent_term(actions, term),
    };
    Ok((words, outcome))
}

//! The list of the points that are set.

ghost use Rattle.std.specs.Prelude.{◌≡◌, ◌&&◌, is_none, IfOk, OnOk, string_bytes, MatchOption};
ghost use Rattle.actions.specs.Canonical.{canonical};
ghost use Rattle.node_steps.specs.Replicas.{state_in};
ghost use Rattle.node_steps.specs.Texts.{text_set, list_entry, entry_after, list_text};

use crate::replica::State;
use actions::{Actions, Name};
use replica_state::Replica;
use stamp_register::Body;
use std::alloc::{AllocError, Global};

/// What a point is set to, if it is set.
fn actions_set<'a>(state: &'a State, name: &Name) -> Option<&'a Actions>
    ensures { MatchOption result
        (text_set (state_in state.now) name.now ≡ None)
        (λ a. text_set (state_in state.now) name.now ≡ Some (canonical a.now)) }
{
    let key = state.key(name)?;
    match &key.body {
        Body::Removed => None,
        Body::Set(actions) => Some(actions),
    }
}

/// Adds a point to the list, if it is set. Answers whether the list is still empty.
fn push_entry(
    text: &mut String,
    state: &State,
    name: &Name,
    is_first: bool,
) -> Result<bool, AllocError>
    ensures text { OnOk result (string_bytes text.new
        ≡ entry_after is_first (list_entry (state_in state.now) name.now) (string_bytes text.old)) }
    ensures first { IfOk result (λ still. still
        ≡ (is_first && is_none (list_entry (state_in state.now) name.now))) }
{
    let Some(actions) = actions_set(state, name) else {
        return Ok(is_first);
    };
    if !is_first {
        text.push_str(";")?;
    }
    text.push_str(name.text())?;
    text.push_str("=")?;
    text.push_str(actions.text())?;
    Ok(false)
}

/// `name=actions` of each point that is set, in byte order of the names, joined by `;`.
pub fn list_of(alloc: Global, state: &State) -> Result<String, AllocError>
    ensures { IfOk result (λ text. string_bytes text ≡ list_text (state_in state.now)) }
{
    let mut text = String::new(alloc);
    let mut is_first = true;
    for (name, _) in state.points() {
        is_first = push_entry(&mut text, state, name, is_first)?;
    }
    Ok(text)
}

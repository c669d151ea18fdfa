//! What a point is set to.

ghost use Rattle.std.specs.Prelude.{◌≡◌, ◌≤ℤ◌, ◌↔◌, pos, IsSome, IsTrue, Some, None, MatchOption};
ghost use Rattle.stamp_register.specs.Keys.{key_value};
ghost use Rattle.node_steps.specs.Replicas.{state_in};
ghost use Rattle.replica_state.specs.States.{rights_of};
ghost use Rattle.node_steps.specs.Nodes.{setting_of};
ghost use Rattle.node_steps.specs.Passes.{words_for};
ghost use Rattle.node_steps.specs.Outcomes.{HasKey};

use crate::replica::State;
use actions::{Actions, Name};
use replica_state::Replica;
use stamp_register::Key;

/// The key and the actions of a point that is set.
pub fn setting_at<'a>(state: &'a State, name: &Name) -> Option<(&'a Key, &'a Actions)>
    ensures value { MatchOption result
        (setting_of (state_in state.now) name.now ≡ None)
        (λ s. setting_of (state_in state.now) name.now ≡ Some (key_value s.0.now, s.1.now)) }
    ensures key { IsSome result → HasKey (state_in state.now) name.now }
{
    match state.key(name) {
        Some(key) => match key.actions() {
            Some(actions) => Some((key, actions)),
            None => None,
        },
        None => None,
    }
}

/// How many random draws a pass of a point takes.
pub fn words_needed(state: &State, name: &Name) -> u8
    ensures { result ≡ words_for (state_in state.now) name.now }
{
    match setting_at(state, name) {
        Some((_, actions)) => actions.words_needed(),
        None => 0,
    }
}

/// Whether a node has so many rights to execute a counted term.
pub(crate) fn has_rights(state: &State, me: u8, name: &Name, term: u8, amount: u64) -> bool
    ensures { IsTrue result ↔ (pos amount ≤ℤ rights_of (state_in state.now) name.now term me) }
{
    state.rights(name, term, me) >= i128::from(amount)
}

//! Whether rights may be moved to another node.

ghost use Rattle.std.specs.Prelude.{◌≡◌, ◌≢◌, ◌+◌, ◌<◌, ◌≤ℤ◌, pos, IfOk, IfErr, OnOk, Some, None};
ghost use Rattle.node_steps.specs.Replicas.{state_in};
ghost use Rattle.replica_state.specs.States.{rights_of};
ghost use Rattle.node_steps.specs.Outcomes.{HasKey};
ghost use Rattle.node_steps.specs.Refusals.{shift_refusal};

use crate::config::Config;
use crate::replica::State;
use crate::setting::{has_rights, setting_at};
use actions::Name;
use node_calls::NodeFault;
use replica_state::Replica;

/// How many rights are moved in all, with this amount, or the refusal. It takes no memory.
pub fn total_with(
    state: &State,
    config: Config,
    name: &Name,
    term: u8,
    to: u8,
    amount: u64,
) -> Result<u64, NodeFault>
    requires own { pos 0 ≤ℤ rights_of (state_in state.now) name.now term config.node }
    ensures ok { IfOk result (λ total.
        (shift_refusal config (state_in state.now) name.now term to amount ≡ None)
        × (total ≡ (state_in state.now).shifts name.now term config.node to + amount)) }
    ensures set { OnOk result (HasKey (state_in state.now) name.now) }
    ensures enough { OnOk result ((to ≢ config.node)
        × (pos amount ≤ℤ rights_of (state_in state.now) name.now term config.node)) }
    ensures there { OnOk result ((to < config.nodes) × (0 < amount)) }
    ensures refused { IfErr result (λ f.
        shift_refusal config (state_in state.now) name.now term to amount ≡ Some f) }
{
    let Some((_, actions)) = setting_at(state, name) else {
        return Err(NodeFault::NotSet);
    };
    let Some(found) = actions.term(term) else {
        return Err(NodeFault::NoSuchTerm);
    };
    let Some(_) = found.count else {
        return Err(NodeFault::NotCounted);
    };
    if to >= config.nodes || to == config.node {
        return Err(NodeFault::BadNode);
    }
    if amount == 0 {
        return Err(NodeFault::ZeroAmount);
    }
    if !has_rights(state, config.node, name, term, amount) {
        let have = state.rights(name, term, config.node) as u64;
        return Err(NodeFault::TooFewRights { have });
    }
    match state.moved(name, term, config.node, to).checked_add(amount) {
        Some(total) => Ok(total),
        None => Err(NodeFault::CellFull),
    }
}

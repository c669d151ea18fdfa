//! Whether rights may be granted.

ghost use Rattle.std.specs.Prelude.{◌≡◌, ◌+◌, ◌<◌, IfOk, IfErr, OnOk, IsSome, Some, None};
ghost use Rattle.node_steps.specs.Replicas.{state_in};
ghost use Rattle.replica_state.specs.States.{budget_of, granted_in};
ghost use Rattle.node_steps.specs.Outcomes.{HasKey};
ghost use Rattle.node_steps.specs.Refusals.{grant_refusal};

use crate::config::Config;
use crate::replica::State;
use crate::setting::setting_at;
use actions::Name;
use node_calls::NodeFault;
use replica_state::Replica;

/// How many rights are granted in all, with this amount, or the refusal. It takes no memory.
pub fn granted_with(
    state: &State,
    config: Config,
    name: &Name,
    term: u8,
    amount: u64,
) -> Result<u64, NodeFault>
    ensures ok { IfOk result (λ total.
        (grant_refusal config (state_in state.now) name.now term amount ≡ None)
        × (total ≡ granted_in (state_in state.now) name.now term config.node + amount)) }
    ensures set { OnOk result (HasKey (state_in state.now) name.now) }
    ensures counted { OnOk result (IsSome (budget_of (state_in state.now) name.now term)) }
    ensures some { OnOk result (0 < amount) }
    ensures refused { IfErr result (λ f.
        grant_refusal config (state_in state.now) name.now term amount ≡ Some f) }
{
    let Some((_, actions)) = setting_at(state, name) else {
        return Err(NodeFault::NotSet);
    };
    let Some(found) = actions.term(term) else {
        return Err(NodeFault::NoSuchTerm);
    };
    let Some(_) = found.count else {
        return Err(NodeFault::NotCounted);
    };
    if amount == 0 {
        return Err(NodeFault::ZeroAmount);
    }
    match state.granted(name, term, config.node).checked_add(amount) {
        Some(total) => Ok(total),
        None => Err(NodeFault::CellFull),
    }
}

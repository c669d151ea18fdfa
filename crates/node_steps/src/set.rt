//! Reading what a point is to be set to.

ghost use Rattle.std.specs.Prelude.{◌≡◌, ◌≢◌, ◌⊎◌, IfOk, IfErr, OnOk, IsErrOf};
ghost use Rattle.std.specs.Prelude.{Some, Ok};
ghost use Rattle.actions.specs.Reading.{reading};
ghost use Rattle.node_steps.specs.Refusals.{IsReadable, bad_actions};

use actions::{ActionFault, Actions, parse_actions};
use node_calls::{NodeFault, TextFault};
use std::alloc::Global;

/// The actions that a text is, or the refusal.
pub fn read_actions(alloc: Global, text: &str) -> Result<Actions, NodeFault>
    ensures ok { IfOk result (λ a. reading text.now ≡ Ok a) }
    ensures refused { IfErr result (λ f. (f ≡ NodeFault.OutOfMemory)
        ⊎ (bad_actions (reading text.now) ≡ Some f)) }
    ensures readable { OnOk result (IsReadable text.now) }
    ensures memory { IsErrOf result NodeFault.OutOfMemory → IsReadable text.now }
{
    match parse_actions(alloc, text) {
        Ok(actions) => Ok(actions),
        Err(ActionFault::OutOfMemory) => Err(NodeFault::OutOfMemory),
        Err(fault) => Err(NodeFault::BadActions(TextFault::Actions(fault))),
    }
}

/// Why a setting is refused whose name is refused so. What refuses the text stands before out of
/// memory at the name.
pub fn setting_refusal(alloc: Global, fault: NodeFault, text: &str) -> NodeFault
    ensures name { fault ≢ NodeFault.OutOfMemory → result ≡ fault }
    ensures text { fault ≡ NodeFault.OutOfMemory
        → (result ≡ NodeFault.OutOfMemory) ⊎ (bad_actions (reading text.now) ≡ Some result) }
    ensures memory { result ≡ NodeFault.OutOfMemory → IsReadable text.now }
{
    if fault != NodeFault::OutOfMemory {
        return fault;
    }
    match read_actions(alloc, text) {
        Ok(_) => fault,
        Err(refused) => refused,
    }
}

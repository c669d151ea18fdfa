//! Reading a name.

ghost use Rattle.std.specs.Prelude.{◌≡◌, ◌⊎◌, ◌↔◌, IfOk, IfErr};
ghost use Rattle.std.specs.Prelude.{IsErrOf, true, false};
ghost use Rattle.actions.specs.Names.{is_name};

use actions::{Name, NameFault};
use node_calls::NodeFault;
use std::alloc::Global;

/// The name that a text is, or the refusal.
pub fn read_name(alloc: Global, text: &str) -> Result<Name, NodeFault>
    ensures ok { IfOk result (λ n. (is_name text.now ≡ true) × (n ≡ text.now)) }
    ensures refused { IfErr result (λ f. (f ≡ NodeFault.OutOfMemory)
        ⊎ ((f ≡ NodeFault.BadName) × (is_name text.now ≡ false))) }
    ensures bad { IsErrOf result NodeFault.BadName ↔ (is_name text.now ≡ false) }
    ensures memory { IsErrOf result NodeFault.OutOfMemory → is_name text.now ≡ true }
{
    match Name::parse(alloc, text) {
        Ok(name) => Ok(name),
        Err(NameFault::BadName) => Err(NodeFault::BadName),
        Err(NameFault::OutOfMemory) => Err(NodeFault::OutOfMemory),
    }
}

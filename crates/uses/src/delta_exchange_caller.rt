//! A caller of `delta_exchange`.

ghost use Rattle.std.specs.Prelude.{◌≡◌, IfOk};
ghost use Rattle.delta_exchange.specs.Versions.{value_of};

use actions::Name;
use delta_exchange::Versioned;
use replica_state::Replica;
use stamp_register::Key;
use std::alloc::{AllocError, Global};

/// A replica that knows of one setting, which is its first change.
pub fn first_change<R: Replica>(
    alloc: Global,
    name: Name,
    key: Key,
) -> Result<Versioned<R>, AllocError>
    ensures { IfOk result (λ replica. (value_of R.state replica).version ≡ 1) }
{
    let mut replica = Versioned::new(alloc);
    replica.set_key(alloc, name, key)?;
    Ok(replica)
}

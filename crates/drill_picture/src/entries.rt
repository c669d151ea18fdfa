//! What messages tell.

ghost use Rattle.std.specs.Prelude.{◌≡◌, IfOk, map};
ghost use Rattle.message_format.specs.Messages.{entry_value};
ghost use Rattle.drill_picture.specs.Knowing.{entries_in};

use message_format::{NameEntry, WireFault, decode};
use std::alloc::{AllocError, Global};

/// What a message tells of names; bytes that are no message tell nothing.
#[tactic(auto, unfolding(crate::specs::Knowing::entries_in))]
pub(crate) fn entries_in(
    alloc: Global,
    nodes: u8,
    bytes: &[u8],
) -> Result<Vec<NameEntry>, AllocError>
    ensures { IfOk result (λ found. map entry_value found.items ≡ entries_in nodes bytes.now) }
{
    match decode(alloc, nodes, bytes) {
        Ok(message) => Ok(message.entries),
        Err(WireFault::OutOfMemory) => Err(AllocError),
        Err(_) => Ok(Vec::new(alloc)),
    }
}

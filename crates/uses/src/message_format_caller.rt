//! A caller of `message_format`.

ghost use Rattle.std.specs.Prelude.{◌≡◌, IfOk};

use message_format::{WireFault, decode, encode};
use std::alloc::Global;

/// Reads a message and writes it again: there is one way to write it.
pub fn written_again(alloc: Global, nodes: u8, bytes: &[u8]) -> Result<Vec<u8>, WireFault>
    ensures { IfOk result (λ written. written.items ≡ bytes.now) }
{
    let message = decode(alloc, nodes, bytes)?;
    let written = encode(alloc, &message)?;
    Ok(written)
}

//! A caller of `actions`.

ghost use Rattle.std.specs.Prelude.{◌≡◌, ◌≤◌, length, string_bytes, IfOk};
ghost use Rattle.actions.specs.Reading.{reading};

use actions::{ActionFault, parse_actions};
use std::alloc::Global;

/// The canonical spelling of an action text. It says the same, in no more bytes.
pub fn shortest(alloc: Global, text: &str) -> Result<String, ActionFault>
    ensures same { IfOk result (λ spelling. reading (string_bytes spelling) ≡ reading text.now) }
    ensures no_longer { IfOk result (λ spelling. length (string_bytes spelling) ≤ length text.now) }
{
    let actions = parse_actions(alloc, text)?;
    let spelling = String::from_str(alloc, actions.text())?;
    Ok(spelling)
}

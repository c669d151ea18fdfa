//! The points that an ask sets.

ghost use Rattle.std.specs.Prelude.{◌≡◌, ℕ, true, false, [], IfOk, IfSome, IfNone};
ghost use Rattle.actions.specs.Names.{is_name};
ghost use Rattle.node_calls.specs.Asks.{asked_from};
ghost use Rattle.node_calls.specs.Told.{ReplyTold, ask_ref_told};
ghost use Rattle.node_steps.specs.Settings.{points_in};
ghost use Rattle.audit.specs.Points.{point_in, points_set};

use actions::{ActionFault, Actions, Name, NameFault, SettingFault, parse_actions, parse_setting};
use node_core::AskRef;
use std::alloc::{AllocError, Global};

/// The name that a text is, if it is one.
pub(crate) fn name_of(alloc: Global, text: &str) -> Result<Option<Name>, AllocError>
    ensures name { IfOk result (λ name. IfSome name (λ name.
        (name ≡ text.now) × (is_name text.now ≡ true))) }
    ensures none { IfOk result (λ name. IfNone name (is_name text.now ≡ false)) }
{
    match Name::parse(alloc, text) {
        Ok(name) => Ok(Some(name)),
        Err(NameFault::OutOfMemory) => Err(AllocError),
        Err(NameFault::BadName) => Ok(None),
    }
}

/// The points that an ask sets, one after the other, with what they do; none where its text is
/// refused.
pub(crate) fn points_set(alloc: Global, ask: AskRef<'_>) -> Result<Vec<(Name, Actions)>, AllocError>
    ensures { IfOk result (λ points. (nodes : ℕ) (reply : ReplyTold)
        → points.items ≡ points_set (asked_from nodes (ask_ref_told ask.entry) reply)) }
{
    match ask {
        AskRef::Set { name, text } => point_in(alloc, name, text),
        AskRef::Load { text } => points_in(alloc, text),
        AskRef::Remove { .. }
        | AskRef::Pass { .. }
        | AskRef::Shift { .. }
        | AskRef::Grant { .. }
        | AskRef::Emit { .. }
        | AskRef::Deliver { .. } => Ok(Vec::new(alloc)),
    }
}

fn point_in(alloc: Global, name: &str, text: &str) -> Result<Vec<(Name, Actions)>, AllocError>
    ensures { IfOk result (λ points. points.items ≡ point_in name.now text.now) }
{
    let mut points = Vec::new(alloc);
    let Some(name) = name_of(alloc, name)? else {
        return Ok(points);
    };
    match parse_actions(alloc, text) {
        Ok(actions) => points.push((name, actions))?,
        Err(ActionFault::OutOfMemory) => return Err(AllocError),
        Err(_) => {}
    }
    Ok(points)
}

fn points_in(alloc: Global, text: &str) -> Result<Vec<(Name, Actions)>, AllocError>
    ensures { IfOk result (λ points. points.items ≡ points_in text.now) }
{
    match parse_setting(alloc, text) {
        Ok(points) => Ok(points),
        Err(SettingFault::OutOfMemory) => Err(AllocError),
        Err(_) => Ok(Vec::new(alloc)),
    }
}

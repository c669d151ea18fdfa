//! Objects of JSON, member by member.

ghost use Rattle.std.specs.Prelude.{◌≡◌, codes, decimal, IfOk};
ghost use Rattle.serde_json.specs.Data.{put, string};
ghost use Rattle.serde_json.specs.View.{members_view, view};
ghost use Rattle.stamp_register.specs.Keys.{key_value, stamp_of, stamp_text};

use serde_json::{Map, Value};
use stamp_register::Key;
use std::alloc::{AllocError, Global};

/// The members of an object, in byte order of their names.
pub(crate) type Members = Map<String, Value>;

/// Members with one more.
pub(crate) fn with_member(
    alloc: Global,
    mut members: Members,
    name: &str,
    value: Value,
) -> Result<Members, AllocError>
    ensures { IfOk result (λ all. members_view all.entries
        ≡ put name.now (view value) (members_view members.entries)) }
{
    let name = String::from_str(alloc, name)?;
    drop(members.insert(name, value)?);
    Ok(members)
}

/// Members with a number more, as the text of its digits.
pub(crate) fn with_number(
    alloc: Global,
    members: Members,
    name: &str,
    number: u128,
) -> Result<Members, AllocError>
    ensures { IfOk result (λ all. members_view all.entries
        ≡ put name.now (string (decimal number)) (members_view members.entries)) }
{
    let text = format!(in alloc; "{number}")?;
    with_member(alloc, members, name, Value::String(text))
}

/// Members with a text more.
pub(crate) fn with_text(
    alloc: Global,
    members: Members,
    name: &str,
    text: &str,
) -> Result<Members, AllocError>
    ensures { IfOk result (λ all. members_view all.entries
        ≡ put name.now (string text.now) (members_view members.entries)) }
{
    let text = String::from_str(alloc, text)?;
    with_member(alloc, members, name, Value::String(text))
}

/// Members with a key's stamp more.
pub(crate) fn with_stamp(alloc: Global, members: Members, key: &Key) -> Result<Members, AllocError>
    ensures { IfOk result (λ all. members_view all.entries ≡ put (codes "stamp")
        (string (stamp_text (stamp_of (key_value key.now)))) (members_view members.entries)) }
{
    let text = format!(in alloc; "{}", key.stamp())?;
    with_member(alloc, members, "stamp", Value::String(text))
}

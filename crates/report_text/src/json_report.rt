//! The report as JSON.

ghost use Rattle.std.specs.Prelude.{◌≡◌, ◌++◌, ◌∷◌, [], decimal, map, IfOk, OnOk, string_bytes};
ghost use Rattle.std.specs.Prelude.{◌==◌, if◌then◌else◌, codes};
ghost use Rattle.std.specs.Fmt.{signed_decimal};
ghost use Rattle.serde_json.specs.Data.{put, string};
ghost use Rattle.serde_json.specs.View.{members_view, view};
ghost use Rattle.stamp_register.specs.Keys.{body_value, key_value};
ghost use Rattle.replica_state.specs.States.{rights_of};
ghost use Rattle.report_text.specs.Report.{by_node, counted_row, keyed_row, term_rows};
ghost use Rattle.report_text.specs.Json.{actions_data, hits_data, list_data, point_data};
ghost use Rattle.report_text.specs.Json.{report_data, report_json_text, rights_data, term_data};

use crate::members::{Members, with_member, with_number, with_stamp, with_text};
use actions::{MAX_TERMS, Name};
use operations::count_of;
use replica_state::Replica;
use serde_json::{Map, Value};
use stamp_register::{Body, Key};
use std::alloc::{AllocError, Global};

/// An array of these values.
pub(crate) fn list_value(values: Vec<Value>) -> Value
    ensures { view result ≡ list_data (map view values.items) }
{
    Value::Array(values)
}

/// Adds a value behind the others.
pub(crate) fn push_value(values: &mut Vec<Value>, value: Value) -> Result<(), AllocError>
    ensures { OnOk result (map view values.new.items
        ≡ map view values.old.items ++ view value ∷ []) }
{
    values.push(value)?;
    Ok(())
}

/// A number, as the text of its digits.
pub(crate) fn number_value(alloc: Global, number: u128) -> Result<Value, AllocError>
    ensures { IfOk result (λ value. view value ≡ string (decimal number)) }
{
    Ok(Value::String(format!(in alloc; "{number}")?))
}

/// The hits of a point at a node.
fn hits_at<R: Replica>(
    alloc: Global,
    replica: &R,
    name: &Name,
    node: u8,
) -> Result<Value, AllocError>
    ensures { IfOk result (λ value. view value
        ≡ string (decimal ((R.state replica.now).hits name.now node))) }
{
    number_value(alloc, u128::from(replica.hits(name, node)))
}

/// The hits of a point at each node.
fn hits_value<R: Replica>(
    alloc: Global,
    replica: &R,
    nodes: u8,
    name: &Name,
) -> Result<Value, AllocError>
    ensures { IfOk result (λ value. view value
        ≡ hits_data (by_node nodes ((R.state replica.now).hits name.now))) }
{
    let mut values = Vec::new(alloc);
    for node in 0..nodes {
        push_value(&mut values, hits_at(alloc, replica, name, node)?)?;
    }
    Ok(list_value(values))
}

/// The rights to a term that a node has left.
fn rights_at<R: Replica>(
    alloc: Global,
    replica: &R,
    name: &Name,
    term: u8,
    node: u8,
) -> Result<Value, AllocError>
    ensures { IfOk result (λ value. view value
        ≡ string (signed_decimal (rights_of (R.state replica.now) name.now term node))) }
{
    Ok(Value::String(format!(in alloc; "{}", replica.rights(name, term, node))?))
}

/// The rights to a term that each node has left.
pub(crate) fn rights_value<R: Replica>(
    alloc: Global,
    replica: &R,
    nodes: u8,
    name: &Name,
    term: u8,
) -> Result<Value, AllocError>
    ensures { IfOk result (λ value. view value
        ≡ rights_data (by_node nodes (rights_of (R.state replica.now) name.now term))) }
{
    let mut values = Vec::new(alloc);
    for node in 0..nodes {
        push_value(&mut values, rights_at(alloc, replica, name, term, node)?)?;
    }
    Ok(list_value(values))
}

/// Members with what was granted of a term, if anything was.
fn with_granted(alloc: Global, members: Members, granted: u128) -> Result<Members, AllocError>
    ensures { IfOk result (λ all. members_view all.entries
        ≡ (if granted == 0 then members_view members.entries
        else put (codes "granted") (string (decimal granted)) (members_view members.entries))) }
{
    if granted == 0 {
        return Ok(members);
    }
    with_number(alloc, members, "granted", granted)
}

/// A counted term.
fn term_value<R: Replica>(
    alloc: Global,
    replica: &R,
    nodes: u8,
    name: &Name,
    term: u8,
    count: u64,
) -> Result<Value, AllocError>
    ensures { IfOk result (λ value. view value
        ≡ term_data (counted_row (R.state replica.now) nodes name.now term count)) }
{
    let rights = rights_value(alloc, replica, nodes, name, term)?;
    let members = with_number(alloc, Map::new(alloc), "term", u128::from(term))?;
    let members = with_number(alloc, members, "spent", replica.spent(name, term))?;
    let members = with_member(alloc, members, "rights", rights)?;
    let members = with_granted(alloc, members, replica.total_granted(name, term))?;
    let members = with_number(alloc, members, "count", u128::from(count))?;
    Ok(Value::Object(members))
}

/// Each term that a key counts.
fn terms_value<R: Replica>(
    alloc: Global,
    replica: &R,
    nodes: u8,
    name: &Name,
    key: &Key,
) -> Result<Value, AllocError>
    ensures { IfOk result (λ value. view value ≡ list_data (map term_data
        (term_rows (R.state replica.now) nodes name.now (key_value key.now)))) }
{
    let mut values = Vec::new(alloc);
    for term in 0..MAX_TERMS {
        if let Some(count) = count_of(key, term) {
            push_value(
                &mut values,
                term_value(alloc, replica, nodes, name, term, count)?,
            )?;
        }
    }
    Ok(list_value(values))
}

/// What a point is set to.
fn actions_value(alloc: Global, body: &Body) -> Result<Value, AllocError>
    ensures { IfOk result (λ value. view value ≡ actions_data (body_value body.now)) }
{
    match body {
        Body::Removed => Ok(Value::Null),
        Body::Set(actions) => Ok(Value::String(String::from_str(alloc, actions.text())?)),
    }
}

/// A point with all that is told of it.
fn point_value<R: Replica>(
    alloc: Global,
    replica: &R,
    nodes: u8,
    name: &Name,
    key: &Key,
) -> Result<Value, AllocError>
    ensures { IfOk result (λ value. view value ≡ point_data
        (keyed_row (R.state replica.now) nodes name.now (key_value key.now))) }
{
    let terms = terms_value(alloc, replica, nodes, name, key)?;
    let members = with_member(alloc, Map::new(alloc), "terms", terms)?;
    let members = with_stamp(alloc, members, key)?;
    let members = with_text(alloc, members, "name", name.text())?;
    let hits = hits_value(alloc, replica, nodes, name)?;
    let members = with_member(alloc, members, "hits", hits)?;
    let actions = actions_value(alloc, &key.body)?;
    let members = with_member(alloc, members, "actions", actions)?;
    Ok(Value::Object(members))
}

/// Each point that has a key.
fn report_value<R: Replica>(alloc: Global, replica: &R, nodes: u8) -> Result<Value, AllocError>
    ensures { IfOk result (λ value. view value ≡ report_data (R.state replica.now) nodes) }
{
    let mut values = Vec::new(alloc);
    for (name, _) in replica.points() {
        if let Some(key) = replica.key(name) {
            push_value(&mut values, point_value(alloc, replica, nodes, name, key)?)?;
        }
    }
    Ok(list_value(values))
}

/// What `report_lines` tells as JSON with no spaces: an array with an object of each point that has
/// a key. Its members stand in byte order, and its numbers are texts of decimal digits.
pub fn report_json<R: Replica>(alloc: Global, replica: &R, nodes: u8) -> Result<String, AllocError>
    ensures { IfOk result
        (λ text. string_bytes text ≡ report_json_text (R.state replica.now) nodes) }
{
    report_value(alloc, replica, nodes)?.to_string(alloc)
}

//! What a node knows of itself, of all budgets and of the other nodes, as JSON.

ghost use Rattle.std.specs.Prelude.{◌≡◌, map, option_map, IfOk, string_bytes};
ghost use Rattle.serde_json.specs.View.{view};
ghost use Rattle.stamp_register.specs.Keys.{key_value};
ghost use Rattle.replica_state.specs.States.{granted_in};
ghost use Rattle.report_text.specs.Report.{by_node};
ghost use Rattle.report_text.specs.Json.{hits_data, list_data};
ghost use Rattle.report_text.specs.Peers.{number_data};
ghost use Rattle.report_text.specs.Status.{budget_data, budget_row, budget_rows, budgets_data};
ghost use Rattle.report_text.specs.Status.{keyed_budgets, node_data, points_data};
ghost use Rattle.report_text.specs.Status.{status_data, status_json_text};

use crate::json_report::{list_value, number_value, push_value, rights_value};
use crate::members::{with_member, with_number, with_stamp, with_text};
use crate::peer_rows::PeerRow;
use crate::peers_json::peers_member;
use actions::{MAX_TERMS, Name};
use operations::count_of;
use replica_state::Replica;
use serde_json::{Map, Value};
use stamp_register::Key;
use std::alloc::{AllocError, Global};

/// The version of the programs and the libraries that are made of this code.
const VERSION: &str = "0.2.0";

/// What a node is, beside what it knows.
#[derive(Clone, Copy, Debug, PartialEq, Eq)]
pub struct NodeHead {
    /// Its number.
    pub number: u8,
    /// How many nodes its cluster has.
    pub nodes: u8,
    /// How many calls it accepted in its life.
    pub calls: u64,
    /// How many it accepts at most.
    pub cap: u64,
}

/// What a node granted itself of a term.
fn granted_at<R: Replica>(
    alloc: Global,
    replica: &R,
    name: &Name,
    term: u8,
    node: u8,
) -> Result<Value, AllocError>
    ensures { IfOk result (λ value. view value
        ≡ number_data (granted_in (R.state replica.now) name.now term node)) }
{
    number_value(alloc, u128::from(replica.granted(name, term, node)))
}

/// What each node granted itself of a term.
fn granted_value<R: Replica>(
    alloc: Global,
    replica: &R,
    nodes: u8,
    name: &Name,
    term: u8,
) -> Result<Value, AllocError>
    ensures { IfOk result (λ value. view value
        ≡ hits_data (by_node nodes (granted_in (R.state replica.now) name.now term))) }
{
    let mut values = Vec::new(alloc);
    for node in 0..nodes {
        push_value(&mut values, granted_at(alloc, replica, name, term, node)?)?;
    }
    Ok(list_value(values))
}

/// How often a term ran at a node.
fn spent_at<R: Replica>(
    alloc: Global,
    replica: &R,
    name: &Name,
    term: u8,
    node: u8,
) -> Result<Value, AllocError>
    ensures { IfOk result (λ value. view value
        ≡ number_data ((R.state replica.now).execs name.now term node)) }
{
    number_value(alloc, u128::from(replica.exec(name, term, node)))
}

/// How often a term ran at each node.
fn spent_value<R: Replica>(
    alloc: Global,
    replica: &R,
    nodes: u8,
    name: &Name,
    term: u8,
) -> Result<Value, AllocError>
    ensures { IfOk result (λ value. view value
        ≡ hits_data (by_node nodes ((R.state replica.now).execs name.now term))) }
{
    let mut values = Vec::new(alloc);
    for node in 0..nodes {
        push_value(&mut values, spent_at(alloc, replica, name, term, node)?)?;
    }
    Ok(list_value(values))
}

/// A counted term, with the part that each node has in it.
fn budget_value<R: Replica>(
    alloc: Global,
    replica: &R,
    nodes: u8,
    name: &Name,
    term: u8,
    count: u64,
) -> Result<Value, AllocError>
    ensures { IfOk result (λ value. view value
        ≡ budget_data (budget_row (R.state replica.now) nodes name.now term count)) }
{
    let granted = granted_value(alloc, replica, nodes, name, term)?;
    let members = with_member(alloc, Map::new(alloc), "granted", granted)?;
    let rights = rights_value(alloc, replica, nodes, name, term)?;
    let members = with_member(alloc, members, "rights", rights)?;
    let spent = spent_value(alloc, replica, nodes, name, term)?;
    let members = with_member(alloc, members, "spent", spent)?;
    let members = with_number(alloc, members, "term", u128::from(term))?;
    let members = with_number(alloc, members, "count", u128::from(count))?;
    Ok(Value::Object(members))
}

/// Each term that a key counts.
fn budgets_value<R: Replica>(
    alloc: Global,
    replica: &R,
    nodes: u8,
    name: &Name,
    key: &Key,
) -> Result<Value, AllocError>
    ensures { IfOk result (λ value. view value ≡ list_data (map budget_data
        (budget_rows (R.state replica.now) nodes name.now (key_value key.now)))) }
{
    let mut values = Vec::new(alloc);
    for term in 0..MAX_TERMS {
        if let Some(count) = count_of(key, term) {
            push_value(
                &mut values,
                budget_value(alloc, replica, nodes, name, term, count)?,
            )?;
        }
    }
    Ok(list_value(values))
}

/// A point with its counted terms.
fn point_value<R: Replica>(
    alloc: Global,
    replica: &R,
    nodes: u8,
    name: &Name,
    key: &Key,
) -> Result<Value, AllocError>
    ensures { IfOk result (λ value. view value ≡ budgets_data
        (keyed_budgets (R.state replica.now) nodes name.now (key_value key.now))) }
{
    let terms = budgets_value(alloc, replica, nodes, name, key)?;
    let members = with_member(alloc, Map::new(alloc), "terms", terms)?;
    let members = with_stamp(alloc, members, key)?;
    let members = with_text(alloc, members, "name", name.text())?;
    Ok(Value::Object(members))
}

/// Each point that has a key.
fn points_value<R: Replica>(alloc: Global, replica: &R, nodes: u8) -> Result<Value, AllocError>
    ensures { IfOk result (λ value. view value ≡ points_data (R.state replica.now) nodes) }
{
    let mut values = Vec::new(alloc);
    for (name, _) in replica.points() {
        if let Some(key) = replica.key(name) {
            push_value(&mut values, point_value(alloc, replica, nodes, name, key)?)?;
        }
    }
    Ok(list_value(values))
}

/// What a node knows of itself and of all budgets.
fn node_value<R: Replica>(alloc: Global, replica: &R, head: NodeHead) -> Result<Value, AllocError>
    ensures { IfOk result (λ value. view value ≡ node_data head (R.state replica.now)) }
{
    let points = points_value(alloc, replica, head.nodes)?;
    let members = with_member(alloc, Map::new(alloc), "points", points)?;
    let members = with_number(alloc, members, "calls", u128::from(head.calls))?;
    let members = with_number(alloc, members, "cap", u128::from(head.cap))?;
    let members = with_number(alloc, members, "nodes", u128::from(head.nodes))?;
    let members = with_number(alloc, members, "number", u128::from(head.number))?;
    let members = with_text(alloc, members, "version", VERSION)?;
    Ok(Value::Object(members))
}

/// An object of what a node knows, and of the other nodes, if they are given.
fn status_value<R: Replica>(
    alloc: Global,
    replica: &R,
    head: NodeHead,
    peers: Option<&[PeerRow]>,
) -> Result<Value, AllocError>
    ensures { IfOk result (λ value. view value ≡ status_data head (R.state replica.now)
        (option_map (λ rows. rows.now) peers.entry)) }
{
    let node = node_value(alloc, replica, head)?;
    let members = peers_member(alloc, peers)?;
    Ok(Value::Object(with_member(alloc, members, "node", node)?))
}

/// The status of a node as JSON with no spaces. Its member `node` has what the node is, how many calls
/// it accepted, and of each counted term of each point what each node granted itself, spent and has
/// left. Its member `peers`, if the other nodes are given, has what was received from each of them.
/// All members are in byte order, and numbers are texts of decimal digits.
///
/// Errors: out of memory.
pub fn status_json<R: Replica>(
    alloc: Global,
    replica: &R,
    head: NodeHead,
    peers: Option<&[PeerRow]>,
) -> Result<String, AllocError>
    ensures { IfOk result (λ text. string_bytes text ≡ status_json_text head
        (R.state replica.now) (option_map (λ rows. rows.now) peers.entry)) }
{
    status_value(alloc, replica, head, peers)?.to_string(alloc)
}

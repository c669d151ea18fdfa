//! The other nodes of a cluster, as JSON.

ghost use Rattle.std.specs.Prelude.{◌≡◌, map, option_map, IfOk};
ghost use Rattle.serde_json.specs.View.{members_view, view};
ghost use Rattle.report_text.specs.Peers.{heard_data, peer_data, peers_data, peers_member};
ghost use Rattle.report_text.specs.Peers.{refused_data, with_count};

use crate::json_report::{list_value, number_value, push_value};
use crate::members::{Members, with_member, with_number};
use crate::peer_rows::{PeerRow, RejectCode};
use serde_json::{Map, Value};
use std::alloc::{AllocError, Global};

/// When a node's last accepted message came, or null.
fn heard_value(alloc: Global, heard: Option<u64>) -> Result<Value, AllocError>
    ensures { IfOk result (λ value. view value ≡ heard_data heard) }
{
    match heard {
        Some(at) => number_value(alloc, u128::from(at)),
        None => Ok(Value::Null),
    }
}

/// Members with how many messages were rejected with a code, if any was.
fn with_count(
    alloc: Global,
    members: Members,
    row: &PeerRow,
    code: RejectCode,
) -> Result<Members, AllocError>
    ensures { IfOk result (λ all. members_view all.entries
        ≡ with_count row.now.refused code (members_view members.entries)) }
{
    let count = row.count(code);
    if count == 0 {
        return Ok(members);
    }
    with_number(alloc, members, code.name(), u128::from(count))
}

/// How many messages of a node were rejected, by code.
fn refused_value(alloc: Global, row: &PeerRow) -> Result<Value, AllocError>
    ensures { IfOk result (λ value. view value ≡ refused_data row.now.refused) }
{
    let members = with_count(alloc, Map::new(alloc), row, RejectCode::TooManyPoints)?;
    let members = with_count(alloc, members, row, RejectCode::OutOfMemory)?;
    let members = with_count(alloc, members, row, RejectCode::Overspent)?;
    let members = with_count(alloc, members, row, RejectCode::AckAhead)?;
    let members = with_count(alloc, members, row, RejectCode::OwnAhead)?;
    let members = with_count(alloc, members, row, RejectCode::NotForMe)?;
    let members = with_count(alloc, members, row, RejectCode::BadMessage)?;
    let members = with_count(alloc, members, row, RejectCode::TraceFull)?;
    Ok(Value::Object(members))
}

/// A node with what was received from it.
fn peer_value(alloc: Global, row: &PeerRow) -> Result<Value, AllocError>
    ensures { IfOk result (λ value. view value ≡ peer_data row.now) }
{
    let refused = refused_value(alloc, row)?;
    let members = with_member(alloc, Map::new(alloc), "refused", refused)?;
    let members = with_number(alloc, members, "node", u128::from(row.node))?;
    let heard = heard_value(alloc, row.heard)?;
    let members = with_member(alloc, members, "heard", heard)?;
    Ok(Value::Object(members))
}

/// An array of these nodes.
fn peers_value(alloc: Global, peers: &[PeerRow]) -> Result<Value, AllocError>
    ensures { IfOk result (λ value. view value ≡ peers_data peers.now) }
{
    let mut values = Vec::new(alloc);
    for row in peers {
        push_value(&mut values, peer_value(alloc, row)?)?;
    }
    Ok(list_value(values))
}

/// The member `peers`, if the other nodes are given.
pub(crate) fn peers_member(alloc: Global, peers: Option<&[PeerRow]>) -> Result<Members, AllocError>
    ensures { IfOk result (λ all. members_view all.entries
        ≡ peers_member (option_map (λ rows. rows.now) peers.entry)) }
{
    match peers {
        Some(rows) => {
            let value = peers_value(alloc, rows)?;
            with_member(alloc, Map::new(alloc), "peers", value)
        }
        None => Ok(Map::new(alloc)),
    }
}

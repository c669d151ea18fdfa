//! A report as JSON objects.

ghost use Rattle.std.specs.Prelude.{◌≡◌, ◌++◌, OnOk, decimal, flat_map};
ghost use Rattle.std.specs.Fmt.{signed_decimal};
ghost use Rattle.replica_state.specs.States.{rights_of, total_hits};
ghost use Rattle.report_text.specs.Report.{by_node, counted_row, keyed_row, term_rows};
ghost use Rattle.stamp_register.specs.Keys.{key_value, stamp_of};
ghost use Rattle.answers.specs.Objects.{hits_object, node_member, point_object, point_objects};
ghost use Rattle.answers.specs.Objects.{report_objects, rights_members, term_object};

use crate::members::{begin, end, push_number, push_plain, push_stamp, push_text};
use crate::objects::push_granted;
use actions::{MAX_TERMS, Name};
use itoa::Buffer;
use operations::count_of;
use replica_state::Replica;
use stamp_register::{Body, Key};
use std::alloc::AllocError;

fn push_point_object(name: &Name, key: &Key, out: &mut Vec<u8>) -> Result<(), AllocError>
    ensures { OnOk result (out.new.items ≡ out.old.items
        ++ point_object name.now (stamp_of (key_value key.now)) (key_value key.now).body) }
{
    begin("point", out)?;
    push_plain("name", name.text(), out)?;
    push_stamp(key.stamp(), out)?;
    match &key.body {
        Body::Removed => push_text("actions", "removed", out)?,
        Body::Set(actions) => push_text("actions", actions.text(), out)?,
    }
    end(out)
}

// A member whose name is that of a node.
fn push_node(node: u8, value: &str, out: &mut Vec<u8>) -> Result<(), AllocError>
    ensures { OnOk result (out.new.items ≡ out.old.items ++ node_member node value.now) }
{
    push_plain(Buffer::new().format(node), value, out)
}

fn push_hits_at<R: Replica>(
    replica: &R,
    name: &Name,
    node: u8,
    out: &mut Vec<u8>,
) -> Result<(), AllocError>
    ensures { OnOk result (out.new.items ≡ out.old.items
        ++ node_member node (decimal ((R.state replica.now).hits name.now node))) }
{
    push_node(node, Buffer::new().format(replica.hits(name, node)), out)
}

fn push_hits<R: Replica>(
    replica: &R,
    nodes: u8,
    name: &Name,
    out: &mut Vec<u8>,
) -> Result<(), AllocError>
    ensures { OnOk result (out.new.items ≡ out.old.items
        ++ hits_object (by_node nodes ((R.state replica.now).hits name.now))
        (total_hits (R.state replica.now) name.now)) }
{
    begin("hits", out)?;
    for node in 0..nodes {
        push_hits_at(replica, name, node, out)?;
    }
    push_number("total", replica.total_hits(name), out)?;
    end(out)
}

fn push_rights_at<R: Replica>(
    replica: &R,
    name: &Name,
    term: u8,
    node: u8,
    out: &mut Vec<u8>,
) -> Result<(), AllocError>
    ensures { OnOk result (out.new.items ≡ out.old.items ++ node_member node
        (signed_decimal (rights_of (R.state replica.now) name.now term node))) }
{
    push_node(
        node,
        Buffer::new().format(replica.rights(name, term, node)),
        out,
    )
}

fn push_rights<R: Replica>(
    replica: &R,
    nodes: u8,
    name: &Name,
    term: u8,
    out: &mut Vec<u8>,
) -> Result<(), AllocError>
    ensures { OnOk result (out.new.items ≡ out.old.items
        ++ rights_members (by_node nodes (rights_of (R.state replica.now) name.now term))) }
{
    for node in 0..nodes {
        push_rights_at(replica, name, term, node, out)?;
    }
    Ok(())
}

fn push_term<R: Replica>(
    replica: &R,
    nodes: u8,
    name: &Name,
    term: u8,
    count: u64,
    out: &mut Vec<u8>,
) -> Result<(), AllocError>
    ensures { OnOk result (out.new.items ≡ out.old.items
        ++ term_object (counted_row (R.state replica.now) nodes name.now term count)) }
{
    begin("term", out)?;
    push_number("term", u128::from(term), out)?;
    push_number("count", u128::from(count), out)?;
    push_granted(replica.total_granted(name, term), out)?;
    push_number("spent", replica.spent(name, term), out)?;
    push_plain("rights", "", out)?;
    push_rights(replica, nodes, name, term, out)?;
    end(out)
}

// An object of each term that the key counts.
fn push_terms<R: Replica>(
    replica: &R,
    nodes: u8,
    name: &Name,
    key: &Key,
    out: &mut Vec<u8>,
) -> Result<(), AllocError>
    ensures { OnOk result (out.new.items ≡ out.old.items ++ flat_map term_object
        (term_rows (R.state replica.now) nodes name.now (key_value key.now))) }
{
    for term in 0..MAX_TERMS {
        if let Some(count) = count_of(key, term) {
            push_term(replica, nodes, name, term, count, out)?;
        }
    }
    Ok(())
}

// All objects of a point.
fn push_point<R: Replica>(
    replica: &R,
    nodes: u8,
    name: &Name,
    key: &Key,
    out: &mut Vec<u8>,
) -> Result<(), AllocError>
    ensures { OnOk result (out.new.items ≡ out.old.items
        ++ point_objects (keyed_row (R.state replica.now) nodes name.now (key_value key.now))) }
{
    push_point_object(name, key, out)?;
    push_hits(replica, nodes, name, out)?;
    push_terms(replica, nodes, name, key, out)
}

/// Adds what a replica knows of each point that has a key, in byte order of the names: an object of its
/// stamp and its actions, one of its hits at each of the cluster's nodes, and one of each counted term.
pub(crate) fn push_reports<R: Replica>(
    replica: &R,
    nodes: u8,
    out: &mut Vec<u8>,
) -> Result<(), AllocError>
    ensures { OnOk result (out.new.items
        ≡ out.old.items ++ report_objects (R.state replica.now) nodes) }
{
    for (name, _) in replica.points() {
        if let Some(key) = replica.key(name) {
            push_point(replica, nodes, name, key, out)?;
        }
    }
    Ok(())
}

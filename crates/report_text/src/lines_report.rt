//! The report as lines.

ghost use Rattle.std.specs.Prelude.{◌≡◌, ◌++◌, decimal, flat_map, IfOk, OnOk, string_bytes};
ghost use Rattle.std.specs.Fmt.{signed_decimal};
ghost use Rattle.stamp_register.specs.Keys.{key_value, stamp_of};
ghost use Rattle.replica_state.specs.States.{rights_of, total_hits};
ghost use Rattle.report_text.specs.Report.{by_node, counted_row, keyed_row, term_rows};
ghost use Rattle.report_text.specs.Lines.{granted_text, hits_line, node_text, point_line};
ghost use Rattle.report_text.specs.Lines.{point_lines, report_lines_text, rights_text, term_line};

use actions::{MAX_TERMS, Name};
use operations::count_of;
use replica_state::Replica;
use stamp_register::{Body, Key};
use std::alloc::{AllocError, Global};
use std::fmt::Write;

/// Adds the line of a point.
fn push_point_line(text: &mut String, name: &Name, key: &Key) -> Result<(), AllocError>
    ensures { OnOk result (string_bytes text.new ≡ string_bytes text.old
        ++ point_line name.now (stamp_of (key_value key.now)) (key_value key.now).body) }
{
    write!(text, "point {} {} ", name.text(), key.stamp())?;
    match &key.body {
        Body::Removed => text.push_str("removed\n"),
        Body::Set(actions) => writeln!(text, "{}", actions.text()),
    }
}

/// Adds a node with its hits.
fn push_hits_at<R: Replica>(
    text: &mut String,
    replica: &R,
    name: &Name,
    node: u8,
) -> Result<(), AllocError>
    ensures { OnOk result (string_bytes text.new ≡ string_bytes text.old
        ++ node_text node (decimal ((R.state replica.now).hits name.now node))) }
{
    write!(text, " {node}={}", replica.hits(name, node))
}

/// Adds the line of a point's hits.
fn push_hits<R: Replica>(
    text: &mut String,
    replica: &R,
    nodes: u8,
    name: &Name,
) -> Result<(), AllocError>
    ensures { OnOk result (string_bytes text.new ≡ string_bytes text.old
        ++ hits_line (by_node nodes ((R.state replica.now).hits name.now))
        (total_hits (R.state replica.now) name.now)) }
{
    text.push_str("hits")?;
    for node in 0..nodes {
        push_hits_at(text, replica, name, node)?;
    }
    writeln!(text, " total={}", replica.total_hits(name))
}

/// Adds a node with the rights that it has left.
fn push_rights_at<R: Replica>(
    text: &mut String,
    replica: &R,
    name: &Name,
    term: u8,
    node: u8,
) -> Result<(), AllocError>
    ensures { OnOk result (string_bytes text.new ≡ string_bytes text.old
        ++ node_text node
        (signed_decimal (rights_of (R.state replica.now) name.now term node))) }
{
    write!(text, " {node}={}", replica.rights(name, term, node))
}

/// Adds the rights that each node has left.
fn push_rights<R: Replica>(
    text: &mut String,
    replica: &R,
    nodes: u8,
    name: &Name,
    term: u8,
) -> Result<(), AllocError>
    ensures { OnOk result (string_bytes text.new ≡ string_bytes text.old
        ++ rights_text (by_node nodes (rights_of (R.state replica.now) name.now term))) }
{
    for node in 0..nodes {
        push_rights_at(text, replica, name, term, node)?;
    }
    Ok(())
}

/// Adds what was granted of a term, if anything was.
fn push_granted(text: &mut String, granted: u128) -> Result<(), AllocError>
    ensures { OnOk result (string_bytes text.new
        ≡ string_bytes text.old ++ granted_text granted) }
{
    if granted == 0 {
        return Ok(());
    }
    write!(text, " granted={granted}")
}

/// Adds the line of a counted term.
fn push_term<R: Replica>(
    text: &mut String,
    replica: &R,
    nodes: u8,
    name: &Name,
    term: u8,
    count: u64,
) -> Result<(), AllocError>
    ensures { OnOk result (string_bytes text.new ≡ string_bytes text.old
        ++ term_line (counted_row (R.state replica.now) nodes name.now term count)) }
{
    write!(text, "term {term} count={count}")?;
    push_granted(text, replica.total_granted(name, term))?;
    write!(text, " spent={} rights", replica.spent(name, term))?;
    push_rights(text, replica, nodes, name, term)?;
    text.push_str("\n")
}

/// Adds a line of each term that the key counts.
fn push_terms<R: Replica>(
    text: &mut String,
    replica: &R,
    nodes: u8,
    name: &Name,
    key: &Key,
) -> Result<(), AllocError>
    ensures { OnOk result (string_bytes text.new ≡ string_bytes text.old
        ++ flat_map term_line
        (term_rows (R.state replica.now) nodes name.now (key_value key.now))) }
{
    for term in 0..MAX_TERMS {
        if let Some(count) = count_of(key, term) {
            push_term(text, replica, nodes, name, term, count)?;
        }
    }
    Ok(())
}

/// Adds all lines of a point.
fn push_point<R: Replica>(
    text: &mut String,
    replica: &R,
    nodes: u8,
    name: &Name,
    key: &Key,
) -> Result<(), AllocError>
    ensures { OnOk result (string_bytes text.new ≡ string_bytes text.old
        ++ point_lines (keyed_row (R.state replica.now) nodes name.now (key_value key.now))) }
{
    push_point_line(text, name, key)?;
    push_hits(text, replica, nodes, name)?;
    push_terms(text, replica, nodes, name, key)
}

/// What a replica knows of each point that has a key, in byte order of the names: a line of its
/// stamp and its actions, a line of its hits at each of the cluster's nodes, and of each counted
/// term a line with the rights of each node.
pub fn report_lines<R: Replica>(alloc: Global, replica: &R, nodes: u8) -> Result<String, AllocError>
    ensures { IfOk result
        (λ text. string_bytes text ≡ report_lines_text (R.state replica.now) nodes) }
{
    let mut text = String::new(alloc);
    for (name, _) in replica.points() {
        if let Some(key) = replica.key(name) {
            push_point(&mut text, replica, nodes, name, key)?;
        }
    }
    Ok(text)
}

//! The rights to a point, spread over all nodes by calls of the node that has them.

ghost use Rattle.std.specs.Prelude.{◌≡◌, ◌⊎◌, ◌↔◌, false, length, IfErr, IfOk, IsSome, IsTrue, OnOk};
ghost use Rattle.actions.specs.Names.{is_name};
ghost use Rattle.node_calls.specs.declared.fault.NodeFault.TheVariants.{BadName, OutOfMemory};
ghost use Rattle.node_steps.specs.Nodes.{setting_of};
ghost use Rattle.node_core.specs.Traces.{state_known};
ghost use Rattle.node_sharing.specs.Made.{AreMade, IsStopped};
ghost use Rattle.node_sharing.specs.Spread.{IsNotSetSpread, IsNotSpread, IsSetSpread};
ghost use Rattle.node_sharing.specs.Spread.{LacksRoom, most_calls, own_rights, rights_kept, spread_due};

use crate::round::make_all;
use actions::{MAX_TERMS, Name, NameFault};
use node_core::{NodeCore, NodeFault};
use replica_state::Replica;
use sharing::Shift;
use stamp_register::Stamp;
use std::alloc::{AllocError, Global};

/// The name that a text is.
fn name_of(alloc: Global, text: &str) -> Result<Name, NodeFault>
    ensures ok { IfOk result (λ name. name ≡ text.now) }
    ensures err { IfErr result (λ fault. (fault ≡ OutOfMemory)
        ⊎ ((fault ≡ BadName) × (is_name text.now ≡ false))) }
{
    match Name::parse(alloc, text) {
        Ok(name) => Ok(name),
        Err(NameFault::BadName) => Err(NodeFault::BadName),
        Err(NameFault::OutOfMemory) => Err(NodeFault::OutOfMemory),
    }
}

/// Whether a point is set.
fn is_set(node: &NodeCore, name: &Name) -> bool
    ensures { IsTrue result ↔ IsSome (setting_of (state_known node.now) name.now) }
{
    match node.state().key(name) {
        Some(key) => key.actions().is_some(),
        None => false,
    }
}

/// Whether the cap leaves fewer calls than these.
fn lacks_room(node: &NodeCore, calls: u64) -> bool
    ensures { IsTrue result ↔ LacksRoom node.now calls }
{
    node.config().trace_cap.saturating_sub(node.calls()) < calls
}

/// The most calls that a setting with its spread takes, in a cluster of so many.
fn most_calls(nodes: u8) -> u64
    ensures { result ≡ most_calls nodes }
{
    1 + u64::from(MAX_TERMS) * u64::from(nodes.saturating_sub(1))
}

/// The shifts that spread the rights to a point.
fn due(node: &NodeCore, alloc: Global, name: &Name) -> Result<Vec<Shift>, AllocError>
    ensures { IfOk result (λ shifts. shifts.items ≡ spread_due node.now name.now) }
{
    let config = node.config();
    sharing::spread(alloc, node.state(), config.node, config.nodes, name)
}

/// Makes these shifts.
fn deal(node: &mut NodeCore, alloc: Global, name: &Name) -> Result<(), NodeFault>
    ensures ok { OnOk result (AreMade node.old (spread_due node.old name.now) node.new) }
    ensures refused { IfErr result (IsStopped node.old (spread_due node.old name.now) node.new) }
{
    let shifts = due(node, alloc, name)?;
    make_all(node, alloc, &shifts)
}

/// The rights that the node has to a term.
fn own_rights(node: &NodeCore, name: &Name, term: u8) -> u64
    ensures { result ≡ own_rights node.now name.now term }
{
    let rights = node.rights(name, term, node.config().node);
    if rights <= 0 {
        return 0;
    }
    rights.min(i128::from(u64::MAX)) as u64
}

/// The rights that the node has to all terms of a point.
fn rights_kept(node: &NodeCore, name: &Name) -> u64
    ensures { result ≡ rights_kept node.now name.now }
{
    let mut all = 0_u64;
    for term in 0..MAX_TERMS {
        all = all.saturating_add(own_rights(node, name, term));
    }
    all
}

/// Spreads the rights that a node has to a point: each other node is shifted a share, and it keeps
/// its own. Answers how many it keeps, of all terms. The point is set, else it is N6, and there is
/// room for all the shifts, else it is N1, before the first is made. Where memory is refused under
/// way, those before are made.
pub fn spread(node: &mut NodeCore, alloc: Global, name: &str) -> Result<u64, NodeFault>
    ensures kept { IfOk result (λ kept. kept ≡ rights_kept node.new name.now) }
    ensures set { OnOk result (IsSome (setting_of (state_known node.old) name.now)) }
    ensures made { OnOk result (AreMade node.old (spread_due node.old name.now) node.new) }
    ensures refused { IfErr result (IsNotSpread node.old name.now node.new) }
{
    let name = name_of(alloc, name)?;
    if !is_set(node, &name) {
        return Err(NodeFault::NotSet);
    }
    let shifts = due(node, alloc, &name)?;
    if lacks_room(node, shifts.len() as u64) {
        return Err(NodeFault::TraceFull);
    }
    match make_all(node, alloc, &shifts) {
        Ok(()) => Ok(rights_kept(node, &name)),
        Err(fault) => Err(fault),
    }
}

/// Sets a point, and spreads the rights to it, as two calls of which nothing comes between. There is
/// room for the setting and for a shift of each term to each other node, else it is N1, before the
/// point is set. Where memory is refused under way, the point is set, and a part of the shifts is
/// made.
pub fn set_spread(
    node: &mut NodeCore,
    alloc: Global,
    name: &str,
    text: &str,
) -> Result<Stamp, NodeFault>
    ensures made { IfOk result
        (λ stamp. IsSetSpread node.old name.now text.now stamp node.new) }
    ensures refused { IfErr result (IsNotSetSpread node.old name.now text.now node.new) }
{
    if lacks_room(node, most_calls(node.config().nodes)) {
        return Err(NodeFault::TraceFull);
    }
    let point = name_of(alloc, name)?;
    let stamp = node.set(alloc, name, text)?;
    match deal(node, alloc, &point) {
        Ok(()) => Ok(stamp),
        Err(fault) => Err(fault),
    }
}

//! Equal shares of a node's rights to a point, dealt out to all nodes at once.

ghost use Rattle.std.specs.Prelude.{◌≡◌, ◌++◌, ◌<◌, OnOk, IfOk};
ghost use Rattle.sharing.specs.Spreads.{behind, dealt, shift_behind, spread_of, term_dealt};

use crate::line::{push_shift, spare};
use crate::remembered::PATIENCE;
use crate::shift::Shift;
use actions::{MAX_TERMS, Name};
use replica_state::Replica;
use std::alloc::{AllocError, Global};

/// The share of who comes so many places behind the node that deals.
fn share(rights: u64, nodes: u8, place: u8) -> u64
    requires { place < nodes }
    ensures { result ≡ dealt rights nodes place }
{
    let nodes = u64::from(nodes);
    let whole = rights / nodes;
    if u64::from(place) < rights % nodes {
        whole + 1
    } else {
        whole
    }
}

/// Who comes so many places behind a node.
fn behind(node: u8, nodes: u8, place: u8) -> u8
    requires { place < nodes }
    ensures { result ≡ behind node nodes place }
{
    ((u16::from(node) + u16::from(place)) % u16::from(nodes)) as u8
}

/// Adds the shift of a share, if there is one.
fn push_share(
    alloc: Global,
    name: &Name,
    term: u8,
    rights: u64,
    node: u8,
    nodes: u8,
    place: u8,
    shifts: &mut Vec<Shift>,
) -> Result<(), AllocError>
    requires { place < nodes }
    ensures { OnOk result (shifts.new.items ≡ shifts.old.items
        ++ shift_behind name.now term rights node nodes place) }
{
    let amount = share(rights, nodes, place);
    if place == 0 || amount == 0 {
        return Ok(());
    }
    push_shift(
        alloc,
        name,
        term,
        behind(node, nodes, place),
        amount,
        shifts,
    )
}

/// Adds the shifts of a term.
fn push_dealt<R: Replica>(
    alloc: Global,
    replica: &R,
    name: &Name,
    node: u8,
    nodes: u8,
    term: u8,
    shifts: &mut Vec<Shift>,
) -> Result<(), AllocError>
    ensures { OnOk result (shifts.new.items ≡ shifts.old.items
        ++ term_dealt (R.state replica.now) name.now node nodes term) }
{
    let rights = spare(replica.rights(name, term, node), PATIENCE);
    for place in 0..nodes {
        push_share(alloc, name, term, rights, node, nodes, place, shifts)?;
    }
    Ok(())
}

/// The shifts by which a node of so many deals all its rights to a point out, in turn: it keeps a
/// share as the others get one, and the first share may be one more. They stand in the order of the
/// terms, and of each from the next node on. The only error is out of memory.
pub fn spread<R: Replica>(
    alloc: Global,
    replica: &R,
    node: u8,
    nodes: u8,
    name: &Name,
) -> Result<Vec<Shift>, AllocError>
    ensures { IfOk result (λ shifts. shifts.items
        ≡ spread_of (R.state replica.now) node nodes name.now) }
{
    let mut shifts = Vec::new(alloc);
    for term in 0..MAX_TERMS {
        push_dealt(alloc, replica, name, node, nodes, term, &mut shifts)?;
    }
    Ok(shifts)
}

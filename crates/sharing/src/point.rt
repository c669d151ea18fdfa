//! One point in a round: who passed it, and what the node shifts of its rights.

ghost use Rattle.std.specs.Prelude.{◌≡◌, ◌++◌, ◌==◌, ◌&&◌, not, nat_lt, min, ◌+◌, if◌then◌else◌};
ghost use Rattle.std.specs.Prelude.{flat_map, map, slice_index, vec_len, OnOk, IfOk};
ghost use Rattle.std.specs.List.{filter, range_with_len};
ghost use Rattle.actions.specs.Limits.{max_terms};
ghost use Rattle.operations.specs.declared.counted.Counted.TheVariants.{Hits};
ghost use Rattle.replica_state.specs.Cells.{held_at};
ghost use Rattle.replica_state.specs.States.{State};
ghost use Rattle.sharing.specs.Memory.{patience, seen, still_before};
ghost use Rattle.sharing.specs.Remembered.{recalled, recalled_at};
ghost use Rattle.sharing.specs.Rooms.{HasPlaces, IsAsLarge, IsRoomForOthers};
ghost use Rattle.sharing.specs.Shares.{point_shifts, recalled_after, term_shifts};

use crate::line::{Giver, push_term};
use crate::remembered::{PATIENCE, Remembered, hits_seen, number_at, seen, still_before};
use crate::room::Room;
use crate::shift::Shift;
use actions::{MAX_TERMS, Name};
use replica_state::{Counted, Stored};
use std::alloc::{AllocError, Global};

/// Reads the hits of each node.
fn read_hits<S: Stored>(stored: &S, nodes: u8, hits: &mut Vec<u64>)
    requires { vec_len hits.old ≡ nodes }
    ensures { hits.new.items
        ≡ map (λ node. (S.held stored.now).number (Hits node)) (range_with_len 0 nodes) }
{
    stored.hits_of_all(hits);
}

/// Writes the others that passed since the last round, by the hits of each node.
fn find_passers(
    hits: &[u64],
    remembered: Option<&Remembered>,
    node: u8,
    nodes: u8,
    others: &mut Vec<u8>,
) -> Result<(), AllocError>
    ensures { OnOk result (others.new.items ≡ filter (λ other. not (other == node)
        && nat_lt (seen (recalled_at remembered.entry) other) (slice_index hits.now other))
        (range_with_len 0 nodes)) }
{
    others.clear();
    let before = hits_seen(remembered);
    for other in 0..nodes {
        if other != node && number_at(before, other) < number_at(hits, other) {
            others.push(other)?;
        }
    }
    Ok(())
}

/// For how many rounds on end the node hasn't passed.
fn still_rounds<S: Stored>(stored: &S, remembered: Option<&Remembered>, node: u8) -> u8
    ensures { result ≡ (if nat_lt (seen (recalled_at remembered.entry) node)
        ((S.held stored.now).number (Hits node))
        then 0 else min patience (still_before (recalled_at remembered.entry) + 1)) }
{
    if seen(remembered, node) < stored.number(Counted::Hits { node }) {
        return 0;
    }
    let still = still_before(remembered);
    if still < PATIENCE {
        still + 1
    } else {
        PATIENCE
    }
}

/// Adds the shifts of each term, where the others of the room passed since the last round.
fn push_terms<S: Stored>(
    alloc: Global,
    name: &Name,
    stored: &S,
    giver: Giver,
    room: &mut Room,
    shifts: &mut Vec<Shift>,
) -> Result<(), AllocError>
    requires { IsRoomForOthers room.old }
    ensures shifts { OnOk result ((v : State) → S.held stored.now ≡ held_at v name.now
        → shifts.new.items ≡ shifts.old.items
        ++ flat_map (term_shifts v name.now giver.node giver.still room.old.others.items)
        (range_with_len 0 max_terms)) }
    ensures kept { OnOk result (IsAsLarge room.old room.new) }
{
    if room.others.is_empty() {
        return Ok(());
    }
    for term in 0..MAX_TERMS {
        push_term(alloc, name, stored, giver, term, room, shifts)?;
    }
    Ok(())
}

/// Adds the shifts of a point, and answers what is remembered of it after the round, written over an
/// entry of its name with a place for each node.
pub(crate) fn push_point<S: Stored>(
    alloc: Global,
    stored: &S,
    remembered: Option<&Remembered>,
    node: u8,
    nodes: u8,
    mut entry: Remembered,
    room: &mut Room,
    shifts: &mut Vec<Shift>,
) -> Result<Remembered, AllocError>
    requires hits { vec_len entry.hits ≡ nodes }
    requires room { HasPlaces nodes room.old }
    ensures shifts { OnOk result ((v : State) → S.held stored.now ≡ held_at v entry.name
        → shifts.new.items ≡ shifts.old.items
        ++ point_shifts v node nodes (recalled_at remembered.entry) entry.name) }
    ensures memory { IfOk result (λ after. (v : State) → S.held stored.now ≡ held_at v entry.name
        → recalled after
        ≡ recalled_after v node nodes (recalled_at remembered.entry) entry.name) }
    ensures room { OnOk result (HasPlaces nodes room.new) }
{
    read_hits(stored, nodes, &mut entry.hits);
    find_passers(&entry.hits, remembered, node, nodes, &mut room.others)?;
    let still = still_rounds(stored, remembered, node);
    entry.still = still;
    let giver = Giver { node, still };
    push_terms(alloc, &entry.name, stored, giver, room, shifts)?;
    Ok(entry)
}

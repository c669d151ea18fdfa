//! Who waits for rights to one term, in which order, and what each is given.

ghost use Rattle.std.specs.Prelude.{◌≡◌, ◌++◌, ◌∷◌, [], ◌≤◌, ◌==◌, ℕ, List, length, nat_lt, pos};
ghost use Rattle.std.specs.Prelude.{◌<◌, ◌<ℤ◌, slice_index, slice_index_or, take, vec_len, OnOk};
ghost use Rattle.std.specs.Int.{int_gap};
ghost use Rattle.std.specs.List.{All, filter, position_or_len};
ghost use Rattle.std.specs.List.Sorted.{IsNonDecreasingBy};
ghost use Rattle.replica_state.specs.Cells.{held_at};
ghost use Rattle.replica_state.specs.Points.{rights_of_key};
ghost use Rattle.replica_state.specs.States.{State};
ghost use Rattle.sharing.specs.Rooms.{AreRights, IsAsLarge, IsRoomForOthers};
ghost use Rattle.sharing.specs.Shares.{line_of, placed, share_of, shares_in, spare_of};
ghost use Rattle.sharing.specs.Shares.{term_shifts, waiting};

use crate::remembered::{PATIENCE, number_at};
use crate::room::Room;
use crate::shift::Shift;
use actions::Name;
use replica_state::Stored;
use std::alloc::{AllocError, Global};

/// Who gives rights: a node, and for how many rounds it has been still.
#[derive(Clone, Copy, Debug)]
pub(crate) struct Giver {
    pub(crate) node: u8,
    pub(crate) still: u8,
}

/// What a node with these rights can spare of them, where it has been still for so many rounds.
pub(crate) fn spare(rights: i128, still: u8) -> u64
    ensures { result ≡ spare_of rights still }
{
    let kept = if still < PATIENCE { 1 } else { 0 };
    if rights <= kept {
        return 0;
    }
    (rights - kept).min(i128::from(u64::MAX)) as u64
}

/// What a node can spare of a term where one of the others is short of it, and else 0.
fn spare_for<S: Stored>(stored: &S, giver: Giver, term: u8, others: &[u8]) -> u64
    ensures idle { result ≡ 0 → (v : State) (name : List ℕ) → S.held stored.now ≡ held_at v name
        → term_shifts v name giver.node giver.still others.now term ≡ [] }
    ensures nobody_waits { All (λ node. pos 0 <ℤ rights_of_key (S.held stored.now).key
        (S.held stored.now).number term node) others.now → result ≡ 0 }
    ensures spare { 0 < result → result ≡ spare_of (rights_of_key (S.held stored.now).key
        (S.held stored.now).number term giver.node) giver.still }
{
    if stored.have_rights(term, others) {
        return 0;
    }
    spare(stored.rights(term, giver.node), giver.still)
}

/// Writes which of these nodes have no right.
fn find_waiting(rights: &[i128], others: &[u8], waiting: &mut Vec<u8>) -> Result<(), AllocError>
    requires { All (λ other. other < length rights.now) others.now }
    ensures { OnOk result (waiting.new.items ≡ filter
        (λ other. int_gap (pos 0) (slice_index_or rights.now other (pos 0)) == 0) others.now) }
{
    waiting.clear();
    for other in others {
        if rights[usize::from(*other)] <= 0 {
            waiting.push(*other)?;
        }
    }
    Ok(())
}

/// The place of a node in a line: before the first that executed the term more often. It is looked
/// for from the end, where it mostly is.
fn place_in(executions: &[u64], line: &[u8], node: u8) -> usize
    requires { IsNonDecreasingBy (slice_index executions.now) line.now }
    ensures place { result ≡ position_or_len
        (λ other. nat_lt (slice_index executions.now node) (slice_index executions.now other))
        line.now }
    ensures within { result ≤ length line.now }
{
    let own = number_at(executions, node);
    for place in (0..line.len()).rev() {
        if number_at(executions, line[place]) <= own {
            return place + 1;
        }
    }
    0
}

/// Puts a node in its place in a line.
fn place(executions: &[u64], line: &mut Vec<u8>, node: u8) -> Result<(), AllocError>
    requires { IsNonDecreasingBy (slice_index executions.now) line.old.items }
    ensures { OnOk result
        (line.new.items ≡ placed (slice_index executions.now) line.old.items node) }
{
    let place = place_in(executions, line, node);
    line.insert(place, node)?;
    Ok(())
}

/// Writes these nodes in their line.
fn put_in_line(executions: &[u64], nodes: &[u8], line: &mut Vec<u8>) -> Result<(), AllocError>
    ensures { OnOk result
        (line.new.items ≡ line_of (slice_index executions.now) nodes.now) }
{
    line.clear();
    for node in nodes {
        place(executions, line, *node)?;
    }
    Ok(())
}

/// Writes those that wait in their line.
fn line_up_waiting<S: Stored>(stored: &S, term: u8, room: &mut Room) -> Result<(), AllocError>
    requires within { All (λ node. node < vec_len room.old.executions) room.old.waiting.items }
    requires few { vec_len room.old.executions ≤ 256 }
    ensures line { OnOk result ((v : State) (name : List ℕ)
        → S.held stored.now ≡ held_at v name
        → room.new.line.items ≡ line_of (v.execs name term) room.old.waiting.items) }
    ensures kept { IsAsLarge room.old room.new }
{
    if room.waiting.is_empty() {
        room.line.clear();
        return Ok(());
    }
    room.read_executions(stored, term);
    put_in_line(&room.executions, &room.waiting, &mut room.line)
}

/// Writes those of the others that have no right to a term, by the rights that were read, in their
/// line.
fn line_up<S: Stored>(stored: &S, term: u8, room: &mut Room) -> Result<(), AllocError>
    requires room { IsRoomForOthers room.old }
    requires rights { AreRights (S.held stored.now) term room.old.rights.items }
    ensures line { OnOk result ((v : State) (name : List ℕ)
        → S.held stored.now ≡ held_at v name
        → room.new.line.items
        ≡ line_of (v.execs name term) (waiting v name term room.old.others.items)) }
    ensures kept { IsAsLarge room.old room.new }
{
    find_waiting(&room.rights, &room.others, &mut room.waiting)?;
    line_up_waiting(stored, term, room)
}

/// The first of a line, so many at most.
fn first(line: &[u8], most: u64) -> &[u8]
    ensures { result.now ≡ take most line.now }
{
    if most < line.len() as u64 {
        &line[..most as usize]
    } else {
        line
    }
}

/// Adds a shift of so many rights.
pub(crate) fn push_shift(
    alloc: Global,
    name: &Name,
    term: u8,
    to: u8,
    amount: u64,
    shifts: &mut Vec<Shift>,
) -> Result<(), AllocError>
    ensures { OnOk result (shifts.new.items ≡ shifts.old.items
        ++ (record { name = name.now; term = term; to = to; amount = amount }) ∷ []) }
{
    let name = name.copied(alloc)?;
    shifts.push(Shift {
        name,
        term,
        to,
        amount,
    })?;
    Ok(())
}

/// Adds a shift to each of the first in a line.
fn push_shares(
    alloc: Global,
    name: &Name,
    term: u8,
    spare: u64,
    line: &[u8],
    shifts: &mut Vec<Shift>,
) -> Result<(), AllocError>
    ensures { OnOk result (shifts.new.items
        ≡ shifts.old.items ++ shares_in name.now term spare line.now) }
{
    if line.is_empty() {
        return Ok(());
    }
    let amount = (spare / 2 / line.len() as u64).max(1);
    for to in first(line, spare) {
        push_shift(alloc, name, term, *to, amount, shifts)?;
    }
    Ok(())
}

/// Adds the shifts of a term, where the others of the room passed since the last round.
pub(crate) fn push_term<S: Stored>(
    alloc: Global,
    name: &Name,
    stored: &S,
    giver: Giver,
    term: u8,
    room: &mut Room,
    shifts: &mut Vec<Shift>,
) -> Result<(), AllocError>
    requires { IsRoomForOthers room.old }
    ensures shifts { OnOk result ((v : State) → S.held stored.now ≡ held_at v name.now
        → shifts.new.items ≡ shifts.old.items
        ++ term_shifts v name.now giver.node giver.still room.old.others.items term) }
    ensures kept { IsAsLarge room.old room.new }
{
    let spare = spare_for(stored, giver, term, &room.others);
    if spare == 0 {
        return Ok(());
    }
    room.read_rights(stored, term);
    line_up(stored, term, room)?;
    push_shares(alloc, name, term, spare, &room.line, shifts)
}

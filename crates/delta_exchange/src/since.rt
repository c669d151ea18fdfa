//! What changed of a replica with versions after one of them, as a message.

ghost use Rattle.std.specs.Prelude.{◌≡◌, ◌++◌, ◌||◌, false, nat_lt, [], ℕ, map, IfOk, IsSome, OnOk};
ghost use Rattle.std.specs.List.{AllByRecursion, cons_option};
ghost use Rattle.std.specs.BTreeMap.{IsOrdered};
ghost use Rattle.std.specs.Ordering.{nat_cmp};
ghost use Rattle.std.specs.Cmp.Lexicographic.{slice_cmp};
ghost use Rattle.stamp_register.specs.Keys.{key_value};
ghost use Rattle.operations.specs.Counts.{counted_cmp};
ghost use Rattle.replica_state.specs.Stored.{reader_held};
ghost use Rattle.message_format.specs.Messages.{entry_value, message_value};
ghost use Rattle.delta_exchange.specs.Cells.{HitsFit, ExecsFit, ShiftsFit, EntryFits, EntriesFit};
ghost use Rattle.delta_exchange.specs.Versions.{value_of};
ghost use Rattle.delta_exchange.specs.Since.{CanBeTold, TellsSince, IsMessageSince, AreCellsOrdered};
ghost use Rattle.delta_exchange.specs.Since.{hit_of, exec_of, shift_of, grant_of};
ghost use Rattle.delta_exchange.specs.Since.{hits_since, execs_since, shifts_since, grants_since};
ghost use Rattle.delta_exchange.specs.Since.{entry_since, entry_under, entries_since, tells_cells};

use crate::marks::{Marks, NameMarks};
use crate::versioned::Versioned;
use actions::Name;
use message_format::{Message, NameEntry};
use replica_state::{Counted, PointReader, Replica, Stored};
use stamp_register::Key;
use std::alloc::{AllocError, Global};

/// The hits of a node, if what is counted is its hits and they aren't 0.
fn hit_of<S: Stored>(held: PointReader<S>, counted: Counted) -> Option<(u8, u64)>
    ensures { cons_option result [] ≡ hit_of (reader_held S.held held.entry) counted }
{
    let Counted::Hits { node } = counted else {
        return None;
    };
    let number = held.hits(node);
    (number != 0).then_some((node, number))
}

/// The hits of a name that changed after a version, by node.
fn hits_since<S: Stored>(
    alloc: Global,
    held: PointReader<S>,
    base: u64,
    marks: &NameMarks,
) -> Result<Vec<(u8, u64)>, AllocError>
    ensures ordered { IfOk result (λ _. IsOrdered counted_cmp marks.now.cells) }
    ensures fit { IfOk result (λ cells. HitsFit cells.items) }
    ensures cells { IfOk result (λ cells. cells.items
        ≡ hits_since (reader_held S.held held.entry) base marks.now) }
{
    let mut hits = Vec::new(alloc);
    for (counted, mark) in marks.cells() {
        if marks.change(*counted, *mark) > base
            && let Some(hit) = hit_of(held, *counted)
        {
            hits.push(hit)?;
        }
    }
    Ok(hits)
}

/// The executions of a term by a node, if what is counted is these and they aren't 0.
fn exec_of<S: Stored>(held: PointReader<S>, counted: Counted) -> Option<(u8, u8, u64)>
    ensures { cons_option result [] ≡ exec_of (reader_held S.held held.entry) counted }
{
    let Counted::Execs { term, node } = counted else {
        return None;
    };
    let number = held.exec(term, node);
    (number != 0).then_some((term, node, number))
}

/// The executions of a name under its key that changed after a version, by term and node.
fn execs_since<S: Stored>(
    alloc: Global,
    held: PointReader<S>,
    base: u64,
    marks: &NameMarks,
) -> Result<Vec<(u8, u8, u64)>, AllocError>
    ensures fit { IfOk result (λ cells. ExecsFit cells.items) }
    ensures cells { IfOk result (λ cells. cells.items
        ≡ execs_since (reader_held S.held held.entry) base marks.now) }
{
    let mut execs = Vec::new(alloc);
    for (counted, mark) in marks.cells() {
        if marks.change(*counted, *mark) > base
            && let Some(exec) = exec_of(held, *counted)
        {
            execs.push(exec)?;
        }
    }
    Ok(execs)
}

/// The rights that a node moved to another one, if what is counted is these and they aren't 0.
fn shift_of<S: Stored>(held: PointReader<S>, counted: Counted) -> Option<(u8, u8, u8, u64)>
    ensures { cons_option result [] ≡ shift_of (reader_held S.held held.entry) counted }
{
    let Counted::Shifts { term, from, to } = counted else {
        return None;
    };
    if to == from {
        return None;
    }
    let number = held.moved(term, from, to);
    (number != 0).then_some((term, from, to, number))
}

/// What was moved of the rights to the terms of a name under its key and changed after a version,
/// by term and both nodes.
fn shifts_since<S: Stored>(
    alloc: Global,
    held: PointReader<S>,
    base: u64,
    marks: &NameMarks,
) -> Result<Vec<(u8, u8, u8, u64)>, AllocError>
    ensures fit { IfOk result (λ cells. ShiftsFit cells.items) }
    ensures cells { IfOk result (λ cells. cells.items
        ≡ shifts_since (reader_held S.held held.entry) base marks.now) }
{
    let mut shifts = Vec::new(alloc);
    for (counted, mark) in marks.cells() {
        if marks.change(*counted, *mark) > base
            && let Some(shift) = shift_of(held, *counted)
        {
            shifts.push(shift)?;
        }
    }
    Ok(shifts)
}

/// The rights that a node granted itself, if what is counted is these and they aren't 0.
fn grant_of<S: Stored>(held: PointReader<S>, counted: Counted) -> Option<(u8, u8, u64)>
    ensures { cons_option result [] ≡ grant_of (reader_held S.held held.entry) counted }
{
    let Counted::Shifts { term, from, to } = counted else {
        return None;
    };
    if to != from {
        return None;
    }
    let number = held.granted(term, from);
    (number != 0).then_some((term, from, number))
}

/// What was granted of the rights to the terms of a name under its key and changed after a version,
/// by term and node.
fn grants_since<S: Stored>(
    alloc: Global,
    held: PointReader<S>,
    base: u64,
    marks: &NameMarks,
) -> Result<Vec<(u8, u8, u64)>, AllocError>
    ensures fit { IfOk result (λ cells. ExecsFit cells.items) }
    ensures cells { IfOk result (λ cells. cells.items
        ≡ grants_since (reader_held S.held held.entry) base marks.now) }
{
    let mut grants = Vec::new(alloc);
    for (counted, mark) in marks.cells() {
        if marks.change(*counted, *mark) > base
            && let Some(grant) = grant_of(held, *counted)
        {
            grants.push(grant)?;
        }
    }
    Ok(grants)
}

/// The entry of a name under a key that tells no cell.
fn bare_entry(alloc: Global, name: &Name, key: &Key) -> Result<NameEntry, AllocError>
    ensures name { IfOk result (λ e. e.name ≡ name.now) }
    ensures key { IfOk result (λ e. key_value e.key ≡ key_value key.now) }
    ensures bare { IfOk result (λ e. tells_cells (entry_value e) ≡ false) }
{
    Ok(NameEntry {
        name: name.copied(alloc)?,
        key: key.copied(alloc)?,
        hits: Vec::new(alloc),
        execs: Vec::new(alloc),
        shifts: Vec::new(alloc),
        grants: Vec::new(alloc),
    })
}

/// Puts the cells of a name that changed after a version into the entry of its key.
fn put_cells_since<S: Stored>(
    alloc: Global,
    entry: &mut NameEntry,
    held: PointReader<S>,
    base: u64,
    marks: &NameMarks,
) -> Result<(), AllocError>
    ensures ordered { OnOk result (IsOrdered counted_cmp marks.now.cells) }
    ensures fits { OnOk result (EntryFits (entry_value entry.new)) }
    ensures entry { OnOk result (entry_value entry.new
        ≡ entry_since (reader_held S.held held.entry) entry.old.name (key_value entry.old.key)
        base marks.now) }
{
    entry.hits = hits_since(alloc, held, base, marks)?;
    entry.execs = execs_since(alloc, held, base, marks)?;
    entry.shifts = shifts_since(alloc, held, base, marks)?;
    entry.grants = grants_since(alloc, held, base, marks)?;
    Ok(())
}

/// What changed of a name under its key after a version.
fn entry_since<S: Stored>(
    alloc: Global,
    held: PointReader<S>,
    name: &Name,
    key: &Key,
    base: u64,
    marks: &NameMarks,
) -> Result<NameEntry, AllocError>
    ensures ordered { IfOk result (λ _. IsOrdered counted_cmp marks.now.cells) }
    ensures fits { IfOk result (λ e. EntryFits (entry_value e)) }
    ensures entry { IfOk result (λ e. entry_value e
        ≡ entry_since (reader_held S.held held.entry) name.now (key_value key.now)
        base marks.now) }
{
    let mut entry = bare_entry(alloc, name, key)?;
    put_cells_since(alloc, &mut entry, held, base, marks)?;
    Ok(entry)
}

/// Whether an entry tells a cell.
fn tells_cells(entry: &NameEntry) -> bool
    ensures { result ≡ tells_cells (entry_value entry.now) }
{
    !entry.hits.is_empty()
        || !entry.execs.is_empty()
        || !entry.shifts.is_empty()
        || !entry.grants.is_empty()
}

/// Whether an entry is told: its key changed after a version, or it tells a cell.
fn is_told(entry: &NameEntry, base: u64, marks: &NameMarks) -> bool
    ensures { result ≡ (nat_lt base marks.now.key || tells_cells (entry_value entry.now)) }
{
    marks.key() > base || tells_cells(entry)
}

/// Adds what changed after a version of a name with these marks, if it has a key.
fn push_entry_since<S: Stored>(
    alloc: Global,
    entries: &mut Vec<NameEntry>,
    held: PointReader<S>,
    name: &Name,
    base: u64,
    marks: &NameMarks,
) -> Result<(), AllocError>
    ensures fit { OnOk result (EntriesFit (map entry_value entries.old.items)
        → EntriesFit (map entry_value entries.new.items)) }
    ensures ordered { OnOk result (IsSome (reader_held S.held held.entry).key
        → IsOrdered counted_cmp marks.now.cells) }
    ensures entries { OnOk result (map entry_value entries.new.items
        ≡ map entry_value entries.old.items
        ++ entry_under (reader_held S.held held.entry) name.now
        (reader_held S.held held.entry).key base marks.now) }
{
    let Some(key) = held.key() else {
        return Ok(());
    };
    let entry = entry_since(alloc, held, name, key, base, marks)?;
    if is_told(&entry, base, marks) {
        entries.push(entry)?;
    }
    Ok(())
}

/// What changed after a version, by name.
fn entries_since<R: Replica>(
    alloc: Global,
    replica: &R,
    base: u64,
    marks: &Marks,
) -> Result<Vec<NameEntry>, AllocError>
    ensures fit { IfOk result (λ es. EntriesFit (map entry_value es.items)) }
    ensures names { IfOk result (λ _. IsOrdered (slice_cmp nat_cmp) marks.now.names) }
    ensures ordered { IfOk result (λ _. AllByRecursion
        (AreCellsOrdered (R.state replica.now) base) marks.now.names.entries) }
    ensures entries { IfOk result (λ es. map entry_value es.items
        ≡ entries_since (R.state replica.now) base marks.now) }
{
    let mut entries = Vec::new(alloc);
    for (name, marked) in marks.names() {
        if marked.latest() > base {
            let held = replica.point(name);
            push_entry_since(alloc, &mut entries, held, name, base, marked)?;
        }
    }
    Ok(entries)
}

impl<R: Replica> Versioned<R> {
    /// What changed after a version of this replica, as a message from one node of a cluster to
    /// another: of each name with a key of which anything did its key, and the cells that did and
    /// aren't 0. Its base is that version. Names and cells stand in order.
    ///
    /// A state of at most 32 nodes and 256 names always gives a message that can be written.
    ///
    /// Errors: out of memory.
    /// The names that have marks are walked once, in their order. Of a name of which
    /// nothing changed one mark alone is looked at, and of others the cells that have a mark.
    pub fn changed_since(
        &self,
        alloc: Global,
        base: u64,
        from: u8,
        to: u8,
    ) -> Result<Message, AllocError>
        ensures told { IfOk result (λ m. TellsSince from to base
            (value_of R.state self.now) (message_value m)) }
        ensures spelled { IfOk result (λ m. (nodes : ℕ)
            → CanBeTold nodes from to (value_of R.state self.now).state
            → IsMessageSince nodes from to base (value_of R.state self.now) (message_value m)) }
    {
        let entries = entries_since(alloc, &self.replica, base, &self.marks)?;
        Ok(Message {
            from,
            to,
            base,
            upto: self.version(),
            ack: self.known(to),
            entries,
        })
    }
}

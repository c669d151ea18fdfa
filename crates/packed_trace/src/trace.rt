//! The accepted calls of a node.

ghost use Rattle.std.specs.Prelude.{Some, ◌-◌, ◌≢◌, ◌↔◌, IsTrue};
ghost use Rattle.packed_trace.specs.Heads.{IsLast, head_of};
ghost use Rattle.std.specs.Prelude.{◌≡◌, ◌+◌, ◌<◌, ◌^◌, [], ◌∷◌, ◌++◌, length, map};
ghost use Rattle.std.specs.Prelude.{◌≤◌, option_map, slice_get, is_none, vec_len, vec_capacity};
ghost use Rattle.std.specs.Prelude.{ℕ, List, bytes_eq, if◌then◌else◌};
ghost use Rattle.std.specs.Prelude.{IfOk, IfSome, IsNone, IsOk, OnOk, OnErr};
ghost use Rattle.node_calls.specs.Told.{told};
ghost use Rattle.packed_trace.specs.Packed.{IsByRow, IsPrepared, pass_by, pass_value, prepared_told, row_of, row_told};
ghost use Rattle.packed_trace.specs.Packed.{seen_told, setting_ref_told, max_rows};
ghost use Rattle.packed_trace.specs.Packed.{entry_number, entry_slot};

use crate::guesses::Guesses;
use crate::heads::Heads;
use crate::pass::{Pass, Prepared};
use crate::row::{Row, SettingRef};
use crate::seen::Seen;
use actions::Name;
use node_calls::Entry;
use std::alloc::{AllocError, Global};
use std::marker::Model;
use std::mem::size_of;

/// The most rows of a trace.
pub const MAX_ROWS: usize = 65_536;

// The slot of an entry has room for the numbers below this one.
const MAX_ENTRIES: usize = 72_057_594_037_927_936;

// So many entries have 2^63 bytes, which no vector has.
const _: () = prove!(size_of::<Entry>() >= 128);

// A call as it is kept, in eight bytes: a pass by its row, with the term that was triggered and its
// random draw, if it has them; another call by its number among those, in three parts.
#[derive(Clone, Copy, Debug)]
enum Slot {
    NoTerm { row: u16 },
    Term { term: u8, row: u16 },
    NoTermDrawn { row: u16, word: u32 },
    TermDrawn { term: u8, row: u16, word: u32 },
    Entry { high: u8, middle: u16, low: u32 },
}

const _: () = prove!(size_of::<Slot>() == 8);

/// The accepted calls of a node, the first one first.
#[derive(Debug)]
pub struct Trace {
    slots: Vec<Slot>,
    rows: Vec<Row>,
    entries: Vec<Entry>,
    // The last row of each point, and a guess at the row of its passes.
    heads: Heads,
    guesses: Guesses,
}

impl Drop for Trace {
    fn drop(self) {
        let Trace {
            slots: _,
            rows: _,
            entries: _,
            heads: _,
            guesses: _,
        } = self;
    }
}

impl Model for Trace {
    ghost use Rattle.std.specs.Prelude.{◌-◌, length, map, min, vec_len, vec_capacity};
    ghost use Rattle.node_calls.specs.Told.{told};
    ghost use Rattle.packed_trace.specs.Heads.{AreHeads};
    ghost use Rattle.packed_trace.specs.Packed.{Packed, AreKept, max_entries, row_told, told_by};

    ghost Value = { Packed };

    ghost view = { λ t. record {
      rows = map row_told t.rows.items;
      calls = map (told_by (map row_told t.rows.items) (map told t.entries.items)) t.slots.items;
      pass_room = vec_capacity t.slots - vec_len t.slots;
      entry_room = min (vec_capacity t.entries) max_entries - vec_len t.entries;
    } };

    ghost invariant = { λ t. AreKept (length t.rows.items) (length t.entries.items) t.slots.items
        × AreHeads t.heads (map row_told t.rows.items) };
}

// The slot of an entry by its number.
fn entry_slot(number: usize) -> Slot
    requires { number < 2 ^ 56 }
    ensures { result ≡ entry_slot number }
{
    Slot::Entry {
        high: (number / 281_474_976_710_656) as u8,
        middle: (number / 4_294_967_296 % 65_536) as u16,
        low: (number % 4_294_967_296) as u32,
    }
}

// The number of an entry by the parts in its slot.
fn entry_number(high: u8, middle: u16, low: u32) -> usize
    ensures { result ≡ entry_number high middle low }
{
    high as usize * 281_474_976_710_656 + middle as usize * 4_294_967_296 + low as usize
}

fn pass_of(rows: &[Row], row: u16, term: Option<u8>, word: Option<u32>) -> Seen<'_>
    requires { row < length rows.now }
    ensures { seen_told result ≡ pass_by (slice_get (map row_told rows.now) row) term word }
{
    Seen::Pass {
        row: &rows[row as usize],
        term,
        word,
    }
}

// Makes room for a row of a name at this place, as the last one of its point. No row changes.
fn make_head(
    alloc: Global,
    rows: &mut Vec<Row>,
    heads: &mut Heads,
    name: &Name,
    at: u16,
) -> Result<(), AllocError>
    ensures items { rows.new.items ≡ rows.old.items }
    ensures room { OnOk result (vec_len rows.new < vec_capacity rows.new) }
    ensures ok { OnOk result ((other : List ℕ) → head_of heads.new other
        ≡ (if bytes_eq name.now other then Some at else head_of heads.old other)) }
    ensures err { OnErr result
        ((other : List ℕ) → head_of heads.new other ≡ head_of heads.old other) }
{
    rows.reserve(1)?;
    heads.put(name.copied(alloc)?, at)
}

impl Trace {
    /// A trace of no call. It takes no memory.
    pub fn new(alloc: Global) -> Trace
        ensures calls { result.calls ≡ [] }
        ensures rows { result.rows ≡ [] }
    {
        Trace {
            slots: Vec::new(alloc),
            rows: Vec::new(alloc),
            entries: Vec::new(alloc),
            heads: Heads::new(alloc),
            guesses: Guesses::new(),
        }
    }

    /// How many calls there are.
    pub fn len(&self) -> usize
        ensures { result ≡ length self.now.calls }
    {
        self.slots.len()
    }

    /// Whether there is no call.
    pub fn is_empty(&self) -> bool
        ensures { result ≡ is_none (slice_get self.now.calls 0) }
    {
        self.slots.is_empty()
    }

    /// A call by its number, counted from 0.
    pub fn at(&self, index: usize) -> Option<Seen<'_>>
        ensures { option_map seen_told result ≡ slice_get self.now.calls index }
    {
        let rows = self.rows.as_slice();
        Some(match *self.slots.get(index)? {
            Slot::NoTerm { row } => pass_of(rows, row, None, None),
            Slot::Term { term, row } => pass_of(rows, row, Some(term), None),
            Slot::NoTermDrawn { row, word } => pass_of(rows, row, None, Some(word)),
            Slot::TermDrawn { term, row, word } => pass_of(rows, row, Some(term), Some(word)),
            Slot::Entry { high, middle, low } => {
                Seen::Entry(&self.entries[entry_number(high, middle, low)])
            }
        })
    }

    /// The last call.
    pub fn last(&self) -> Option<Seen<'_>>
        ensures { option_map seen_told result
            ≡ slice_get self.now.calls (length self.now.calls - 1) }
    {
        self.at(self.len().saturating_sub(1))
    }

    // Whether a row is that of the passes of a point under a setting.
    #[inline(always)]
    fn is_row(&self, row: u16, name: &Name, setting: Option<SettingRef<'_>>) -> bool
        ensures { IsTrue result ↔ (slice_get self.now.rows row
            ≡ Some (record { name = name.now; setting = setting_ref_told setting.entry })) }
    {
        match self.rows.get(row as usize) {
            Some(row) => row.is_of(name, setting),
            None => false,
        }
    }

    // The row of the passes of a point under a setting, where it is the last one of the point.
    fn find_row(&self, name: &Name, setting: Option<SettingRef<'_>>) -> Option<u16>
        ensures found { IfSome result (λ row. slice_get self.now.rows row
            ≡ Some (record { name = name.now; setting = setting_ref_told setting.entry })) }
        ensures none { IsNone result → IsLast self.now.rows
            (record { name = name.now; setting = setting_ref_told setting.entry }) → ⊥ }
    {
        let head = self.heads.get(name)?;
        if self.is_row(head, name, setting) {
            Some(head)
        } else {
            None
        }
    }

    // The row of the passes of a point under a setting, searched for by the name, which is added where
    // it isn't found; none where there are as many rows as there may be.
    fn row_by_search(
        &mut self,
        alloc: Global,
        name: &Name,
        setting: Option<SettingRef<'_>>,
    ) -> Result<Option<u16>, AllocError>
        ensures ok { IfOk result (λ at. IfSome at (λ row. slice_get self.new.rows row
            ≡ Some (record { name = name.now; setting = setting_ref_told setting.entry }))) }
        ensures calls { self.new.calls ≡ self.old.calls }
        ensures rows { IsLast self.old.rows
            (record { name = name.now; setting = setting_ref_told setting.entry })
            → self.new.rows ≡ self.old.rows }
        ensures full { IfOk result (λ at. IsNone at → max_rows ≤ length self.old.rows) }
    {
        if let Some(row) = self.find_row(name, setting) {
            return Ok(Some(row));
        }
        let row = Row::of(alloc, name, setting)?;
        self.add_row(alloc, row)
    }

    // The same, where a guess comes first, whose row is looked at whole.
    #[inline(always)]
    fn row_for(
        &mut self,
        alloc: Global,
        name: &Name,
        setting: Option<SettingRef<'_>>,
    ) -> Result<Option<u16>, AllocError>
        ensures ok { IfOk result (λ at. IfSome at (λ row. slice_get self.new.rows row
            ≡ Some (record { name = name.now; setting = setting_ref_told setting.entry }))) }
        ensures calls { self.new.calls ≡ self.old.calls }
        ensures rows { IsLast self.old.rows
            (record { name = name.now; setting = setting_ref_told setting.entry })
            → self.new.rows ≡ self.old.rows }
        ensures full { IfOk result (λ at. IsNone at → max_rows ≤ length self.old.rows) }
    {
        let guess = self.guesses.get(name);
        if self.is_row(guess, name, setting) {
            return Ok(Some(guess));
        }
        let found = self.row_by_search(alloc, name, setting)?;
        if let Some(row) = found {
            self.guesses.put(name, row);
        }
        Ok(found)
    }

    /// Makes room for a pass, and a row for it where the last row of the point has another setting. No
    /// call changes.
    #[inline(always)]
    pub fn prepare(&mut self, alloc: Global, pass: Pass<'_>) -> Result<Prepared, AllocError>
        ensures room { IfOk result (IsPrepared self.new) }
        ensures told { IfOk result (λ p. prepared_told self.new.rows p ≡ pass_value pass.entry) }
        ensures calls { self.new.calls ≡ self.old.calls }
        ensures rows { IsLast self.old.rows (row_of pass.entry) → self.new.rows ≡ self.old.rows }
        // It takes eight bytes where it was given one random draw at most.
        ensures small { IfOk result (λ p. length pass.entry.words.now ≤ 1
            → length self.old.rows < max_rows → IsByRow p) }
    {
        if pass.words.len() <= 1 {
            if let Some(row) = self.row_for(alloc, pass.name, pass.setting)? {
                return self.prepare_by_row(row, pass);
            }
        }
        self.prepare_entry(alloc, pass)
    }

    // Makes room for a pass, which has this row and was given one random draw at most. No call changes.
    #[inline(always)]
    fn prepare_by_row(&mut self, row: u16, pass: Pass<'_>) -> Result<Prepared, AllocError>
        requires there { slice_get self.old.rows row ≡ Some (row_of pass) }
        requires words { length pass.words.now ≤ 1 }
        ensures room { IfOk result (IsPrepared self.new) }
        ensures told { IfOk result (λ p. prepared_told self.new.rows p ≡ pass_value pass.entry) }
        ensures calls { self.new.calls ≡ self.old.calls }
        ensures rows { self.new.rows ≡ self.old.rows }
        ensures small { IfOk result IsByRow }
    {
        self.reserve_pass()?;
        Ok(Prepared::Pass {
            row,
            term: pass.term,
            word: pass.words.first().copied(),
        })
    }

    // Makes room for a pass as an entry. No call changes.
    fn prepare_entry(&mut self, alloc: Global, pass: Pass<'_>) -> Result<Prepared, AllocError>
        ensures room { IfOk result (IsPrepared self.new) }
        ensures told { IfOk result (λ p. prepared_told self.new.rows p ≡ pass_value pass.entry) }
        ensures calls { self.new.calls ≡ self.old.calls }
        ensures rows { self.new.rows ≡ self.old.rows }
    {
        self.reserve_entry()?;
        let entry = Box::new(alloc, pass.to_entry(alloc)?)?;
        Ok(Prepared::Entry(entry))
    }

    /// A pass more, for which there is room. It takes no memory.
    #[inline(always)]
    pub fn push(&mut self, pass: Prepared)
        requires room { IsPrepared self.old pass }
        ensures calls { self.new.calls ≡ self.old.calls ++ prepared_told self.old.rows pass ∷ [] }
        ensures rows { self.new.rows ≡ self.old.rows }
    {
        match pass {
            Prepared::Pass { row, term, word } => self.push_pass(row, term, word),
            Prepared::Entry(entry) => self.push_entry(Box::into_inner(entry)),
        }
    }

    // A row more, for passes that are still to come, and its number; none where there are as many as
    // there may be. No call changes.
    fn add_row(&mut self, alloc: Global, row: Row) -> Result<Option<u16>, AllocError>
        ensures ok { IfOk result (λ at. IfSome at (λ n. (n ≡ length self.old.rows)
            × (self.new.rows ≡ self.old.rows ++ row_told row ∷ []))) }
        ensures full { IfOk result (λ at. IsNone at
            → (self.new.rows ≡ self.old.rows) × (max_rows ≤ length self.old.rows)) }
        ensures calls { self.new.calls ≡ self.old.calls }
        ensures room { (self.new.pass_room ≡ self.old.pass_room)
            × (self.new.entry_room ≡ self.old.entry_room) }
        ensures err { OnErr result (self.new.rows ≡ self.old.rows) }
    {
        let at = self.rows.len();
        if at >= MAX_ROWS {
            return Ok(None);
        }
        make_head(alloc, &mut self.rows, &mut self.heads, &row.name, at as u16)?;
        self.rows.push_reserved(row);
        Ok(Some(at as u16))
    }

    // Makes room for a pass. No call changes.
    fn reserve_pass(&mut self) -> Result<(), AllocError>
        ensures ok { OnOk result (0 < self.new.pass_room) }
        ensures calls { self.new.calls ≡ self.old.calls }
        ensures rows { self.new.rows ≡ self.old.rows }
        ensures succeeds { 0 < self.old.pass_room → IsOk result }
    {
        self.slots.reserve(1)
    }

    // A pass more, by its row, where there is room for it: the term that was triggered and the random
    // draw, where it has them. It takes no memory.
    fn push_pass(&mut self, row: u16, term: Option<u8>, word: Option<u32>)
        requires there { row < length self.old.rows }
        requires room { 0 < self.old.pass_room }
        ensures calls { self.new.calls
            ≡ self.old.calls ++ pass_by (slice_get self.old.rows row) term word ∷ [] }
        ensures rows { self.new.rows ≡ self.old.rows }
    {
        self.slots.push_reserved(match (term, word) {
            (None, None) => Slot::NoTerm { row },
            (Some(term), None) => Slot::Term { term, row },
            (None, Some(word)) => Slot::NoTermDrawn { row, word },
            (Some(term), Some(word)) => Slot::TermDrawn { term, row, word },
        });
    }

    /// Makes room for an entry. No call changes.
    ///
    /// Errors: out of memory.
    pub fn reserve_entry(&mut self) -> Result<(), AllocError>
        ensures ok { OnOk result ((0 < self.new.pass_room) × (0 < self.new.entry_room)) }
        ensures calls { self.new.calls ≡ self.old.calls }
        ensures rows { self.new.rows ≡ self.old.rows }
        ensures succeeds { 0 < self.old.pass_room → 0 < self.old.entry_room → IsOk result }
    {
        // The vector refuses to grow to so many.
        if self.entries.len() >= MAX_ENTRIES {
            return Err(AllocError);
        }
        self.slots.reserve(1)?;
        self.entries.reserve(1)
    }

    /// Any call more, as an entry, where there is room for it. It takes no memory.
    pub fn push_entry(&mut self, entry: Entry)
        requires room { (0 < self.old.pass_room) × (0 < self.old.entry_room) }
        ensures calls { self.new.calls ≡ self.old.calls ++ told entry ∷ [] }
        ensures rows { self.new.rows ≡ self.old.rows }
    {
        let number = self.entries.len();
        self.entries.push_reserved(entry);
        self.slots.push_reserved(entry_slot(number));
    }

    /// A trace of these entries.
    ///
    /// Errors: out of memory.
    pub fn of_entries(alloc: Global, entries: Vec<Entry>) -> Result<Trace, AllocError>
        ensures { IfOk result (λ trace. trace.calls ≡ map told entries.items) }
    {
        let mut trace = Trace::new(alloc);
        trace.add_entries(entries)?;
        Ok(trace)
    }

    // All these entries more.
    fn add_entries(&mut self, entries: Vec<Entry>) -> Result<(), AllocError>
        ensures { OnOk result (self.new.calls ≡ self.old.calls ++ map told entries.items) }
    {
        for entry in entries {
            if let Err(error) = self.reserve_entry() {
                drop(entry);
                return Err(error);
            }
            self.push_entry(entry);
        }
        Ok(())
    }

    /// Each call as an entry of its own. The only error is out of memory.
    pub fn to_entries(&self, alloc: Global) -> Result<Vec<Entry>, AllocError>
        ensures { IfOk result (λ entries. map told entries.items ≡ self.now.calls) }
    {
        let mut entries = Vec::new(alloc);
        while let Some(seen) = self.at(entries.len()) {
            entries.push(seen.to_entry(alloc)?)?;
        }
        Ok(entries)
    }
}

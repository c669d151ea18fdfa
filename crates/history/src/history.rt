//! The calls of a whole life, of which the end is kept.

ghost use Rattle.std.specs.Prelude.{◌≡◌, ◌-◌, ◌<◌, ◌≤◌, ◌^◌, length, drop, option_map, IfOk, OnOk};
ghost use Rattle.node_calls.specs.Told.{told};
ghost use Rattle.packed_trace.specs.Heads.{IsLast};
ghost use Rattle.packed_trace.specs.Packed.{IsByRow, IsPrepared, max_rows, pass_value};
ghost use Rattle.packed_trace.specs.Packed.{prepared_told, row_of, seen_told};
ghost use Rattle.history.specs.Histories.{given, grown, kept_at, no_calls};

use crate::log::Log;
use node_calls::Entry;
use packed_trace::{Pass, Prepared, Seen, Trace};
use std::alloc::{AllocError, Global};
use std::marker::Model;
use std::mem;

/// The accepted calls of a node's whole life, the first one first, of which the newest are kept. Calls
/// are numbered from 0, and a number stays a call's own.
#[derive(Debug)]
pub struct History {
    kept: Trace,
    // How many calls are no longer kept, and what they told.
    from: u64,
    past: Log<Trace>,
}

impl Drop for History {
    fn drop(self) {
        let History {
            kept: _,
            from: _,
            past: _,
        } = self;
    }
}

impl Model for History {
    ghost use Rattle.std.specs.Prelude.{◌≡◌, ◌≤◌, ◌^◌, ◌++◌, length};
    ghost use Rattle.history.specs.Histories.{HistoryValue, told_in};

    ghost Value = { HistoryValue };

    ghost view = { λ h. record {
      calls = record { all = told_in h.past.items ++ h.kept.calls; from = h.from };
      kept = h.kept;
    } };

    ghost invariant = { λ h. (h.from ≡ length (told_in h.past.items))
        × (length (told_in h.past.items ++ h.kept.calls) ≤ 2 ^ 56) };
}

impl History {
    /// A history of no call. It takes no memory.
    pub fn new(alloc: Global) -> History
        ensures { result.calls ≡ no_calls }
    {
        History {
            kept: Trace::new(alloc),
            from: 0,
            past: Log::new(),
        }
    }

    /// How many calls there were.
    pub fn len(&self) -> u64
        ensures { result ≡ length self.now.calls.all }
    {
        self.from + self.kept.len() as u64
    }

    /// How many of the first calls are no longer kept.
    pub fn from(&self) -> u64
        ensures from { result ≡ self.now.calls.from }
        ensures within { result ≤ length self.now.calls.all }
    {
        self.from
    }

    /// The calls that are kept.
    pub fn kept(&self) -> &Trace
        ensures { result.now.calls ≡ drop self.now.calls.from self.now.calls.all }
    {
        &self.kept
    }

    /// The calls that are kept, alone.
    pub fn into_kept(self) -> Trace
        ensures { result.calls ≡ drop self.calls.from self.calls.all }
    {
        let History {
            kept,
            from: _,
            past: _,
        } = self;
        kept
    }

    /// A call by its number in the whole life; none where it isn't kept, or there are fewer.
    pub fn at(&self, index: u64) -> Option<Seen<'_>>
        ensures { option_map seen_told result ≡ kept_at self.now.calls index }
    {
        self.kept.at(index.checked_sub(self.from)? as usize)
    }

    /// The last call, where it is kept.
    pub fn last(&self) -> Option<Seen<'_>>
        ensures { option_map seen_told result
            ≡ kept_at self.now.calls (length self.now.calls.all - 1) }
    {
        self.kept.last()
    }

    /// Makes room for a pass (`Trace::prepare`). No call changes.
    #[inline(always)]
    pub fn prepare(&mut self, alloc: Global, pass: Pass<'_>) -> Result<Prepared, AllocError>
        ensures room { IfOk result (IsPrepared self.new.kept) }
        ensures told { IfOk result (λ p. prepared_told self.new.kept.rows p
            ≡ pass_value pass.entry) }
        ensures calls { self.new.calls ≡ self.old.calls }
        ensures within { self.old.calls.from ≤ length self.old.calls.all }
        ensures rows { IsLast self.old.kept.rows (row_of pass.entry)
            → self.new.kept.rows ≡ self.old.kept.rows }
        ensures small { IfOk result (λ p. length pass.entry.words.now ≤ 1
            → length self.old.kept.rows < max_rows → IsByRow p) }
    {
        self.kept.prepare(alloc, pass)
    }

    /// A pass more, for which there is room. It takes no memory.
    #[inline(always)]
    pub fn push(&mut self, pass: Prepared)
        requires few { length self.old.calls.all < 2 ^ 56 }
        requires room { IsPrepared self.old.kept pass }
        ensures calls { self.new.calls
            ≡ grown self.old.calls (prepared_told self.old.kept.rows pass) }
        ensures rows { self.new.kept.rows ≡ self.old.kept.rows }
    {
        self.kept.push(pass);
    }

    /// Makes room for an entry. No call changes.
    pub fn reserve_entry(&mut self) -> Result<(), AllocError>
        ensures ok { OnOk result ((0 < self.new.kept.pass_room)
            × (0 < self.new.kept.entry_room)) }
        ensures calls { self.new.calls ≡ self.old.calls }
        ensures rows { self.new.kept.rows ≡ self.old.kept.rows }
    {
        self.kept.reserve_entry()
    }

    /// Any call more, as an entry, where there is room for it. It takes no memory.
    pub fn push_entry(&mut self, entry: Entry)
        requires few { length self.old.calls.all < 2 ^ 56 }
        requires room { (0 < self.old.kept.pass_room) × (0 < self.old.kept.entry_room) }
        ensures calls { self.new.calls ≡ grown self.old.calls (told entry) }
        ensures rows { self.new.kept.rows ≡ self.old.kept.rows }
    {
        self.kept.push_entry(entry);
    }

    /// Hands out the calls that are kept, and keeps none. The calls of the whole life stay what they
    /// are. It takes no memory.
    pub fn give(&mut self, alloc: Global) -> Trace
        ensures calls { self.new.calls ≡ given self.old.calls }
        ensures those { result.calls ≡ drop self.old.calls.from self.old.calls.all }
    {
        let part = mem::replace(&mut self.kept, Trace::new(alloc));
        self.from += part.len() as u64;
        self.past.add(&part);
        part
    }

    /// Frees the calls that are kept. The calls of the whole life stay what they are.
    pub fn forget(&mut self, alloc: Global)
        ensures { self.new.calls ≡ given self.old.calls }
    {
        drop(self.give(alloc));
    }
}

//! When each key and each cell last changed, by versions.
#![tactic(auto, unfolding(crate::specs::Marks::marks_value, crate::specs::Marks::has_room))]

ghost use Rattle.std.specs.Prelude.{◌≡◌, ◌≢◌, IsTrue, ℕ, List, [], Option, Some, None, if◌then◌else◌, OnOk};
ghost use Rattle.std.specs.BTreeMap.{IsOrdered};
ghost use Rattle.std.specs.Ordering.{nat_cmp};
ghost use Rattle.std.specs.Cmp.Lexicographic.{slice_cmp};
ghost use Rattle.operations.specs.Counts.{counted_cmp, is_hits};
ghost use Rattle.operations.specs.declared.counted.Counted.{Counted};
ghost use Rattle.delta_exchange.specs.PassMarks.{AreAmong, pass_mark, last_mark};

use crate::pass_marks::PassMarks;
use actions::Name;
use replica_state::Counted;
use std::alloc::{AllocError, Global};
use std::collections::BTreeMap;
use std::collections::btree_map::Iter;

/// The versions that last changed the key and the cells of one name. A mark of 0 says nothing: it
/// is the room for one.
#[derive(Debug, Drop)]
pub(crate) struct NameMarks {
    // No other mark is greater.
    latest: u64,
    key: u64,
    cells: BTreeMap<Counted, u64>,
    // Later marks of some of these cells, at hand without a search.
    passes: PassMarks,
    ghost among: { AreAmong cells.entries passes },
}

/// The marks of all names.
#[derive(Debug, Drop)]
pub(crate) struct Marks {
    pub(crate) names: BTreeMap<Name, NameMarks>,
}

impl NameMarks {
    ghost use Rattle.delta_exchange.specs.Marks.{cell_change, cell_of, has_cell, is_of};

    fn new(alloc: Global) -> NameMarks
        ensures latest { result.latest ≡ 0 }
        ensures key { result.key ≡ 0 }
        ensures cells { result.cells.entries ≡ [] }
    {
        NameMarks {
            latest: 0,
            key: 0,
            cells: BTreeMap::new(alloc),
            passes: PassMarks::new(None),
        }
    }

    /// A version that is as great as all marks: nothing changed after it.
    pub(crate) fn latest(&self) -> u64
        ensures { result ≡ self.now.latest }
    {
        self.latest
    }

    /// The version that last changed the key.
    pub(crate) fn key(&self) -> u64
        ensures { result ≡ self.now.key }
    {
        self.key
    }

    /// What is counted and has a mark or room for one, in its order. A pass may have given a later
    /// mark than the one beside it, which `change` knows.
    pub(crate) fn cells(&self) -> Iter<'_, Counted, u64>
        ensures rest { result ≡ self.now.cells.entries }
        ensures ordered { IsOrdered counted_cmp self.now.cells }
    {
        self.cells.iter()
    }

    /// The version that last changed what is counted and has this mark beside it.
    pub(crate) fn change(&self, counted: Counted, mark: u64) -> u64
        ensures { result ≡ cell_change (is_hits counted)
            (last_mark (pass_mark self.now.passes counted) mark) self.now.key }
    {
        let passed = self.passes.mark_of(counted);
        let mark = if passed == 0 { mark } else { passed };
        if counted.is_hits() || mark == 0 {
            mark
        } else {
            mark.max(self.key)
        }
    }

    /// Makes room for the mark of what is counted, if anything is.
    #[inline(always)]
    pub(crate) fn make_room(&mut self, counted: Option<Counted>) -> Result<(), AllocError>
        ensures latest { self.new.latest ≡ self.old.latest }
        ensures key { self.new.key ≡ self.old.key }
        ensures cells { (c : Counted) → cell_of (Some self.new) c ≡ cell_of (Some self.old) c }
        ensures room { OnOk result (IsTrue (has_cell self.new counted)) }
        ensures kept { (c : Option Counted)
            → IsTrue (has_cell self.old c) → IsTrue (has_cell self.new c) }
    {
        if let Some(counted) = counted {
            if self.passes.mark_of(counted) == 0 && !self.cells.contains_key(&counted) {
                self.cells.insert(counted, 0)?;
            }
        }
        Ok(())
    }

    /// Passes at this node are marked at hand from now on, if those at no other node are.
    #[inline(always)]
    pub(crate) fn begin_passes(&mut self, node: u8)
        ensures latest { self.new.latest ≡ self.old.latest }
        ensures key { self.new.key ≡ self.old.key }
        ensures cells { (c : Counted) → cell_of (Some self.new) c ≡ cell_of (Some self.old) c }
        ensures kept { (c : Option Counted)
            → IsTrue (has_cell self.old c) → IsTrue (has_cell self.new c) }
    {
        self.passes.begin(node);
    }

    /// Marks the key, where it is new, and what is counted, which has room.
    #[inline(always)]
    pub(crate) fn mark(&mut self, new_key: bool, counted: Option<Counted>, version: u64)
        requires room { IsTrue (has_cell self.old counted) }
        requires version { version ≢ 0 }
        ensures latest { self.new.latest ≡ version }
        ensures key { self.new.key ≡ (if new_key then version else self.old.key) }
        ensures cells { (c : Counted) → cell_of (Some self.new) c
            ≡ (if is_of counted c then version else cell_of (Some self.old) c) }
        ensures kept { (c : Option Counted)
            → IsTrue (has_cell self.old c) → IsTrue (has_cell self.new c) }
    {
        self.latest = version;
        if new_key {
            self.key = version;
        }
        if let Some(counted) = counted {
            self.mark_cell(counted, version);
        }
    }

    /// Makes room for the marks of a pass and of the execution that it spends, if any.
    #[inline(always)]
    pub(crate) fn make_pass_room(
        &mut self,
        hits: Option<Counted>,
        execs: Option<Counted>,
    ) -> Result<(), AllocError>
        ensures latest { self.new.latest ≡ self.old.latest }
        ensures key { self.new.key ≡ self.old.key }
        ensures cells { (c : Counted) → cell_of (Some self.new) c ≡ cell_of (Some self.old) c }
        ensures hits { OnOk result (IsTrue (has_cell self.new hits)) }
        ensures execs { OnOk result (IsTrue (has_cell self.new execs)) }
    {
        self.make_room(hits)?;
        self.make_room(execs)?;
        Ok(())
    }

    /// Marks a pass at a node and the execution that it spends, if any, which have room.
    #[inline(always)]
    pub(crate) fn mark_pass(
        &mut self,
        node: u8,
        hits: Option<Counted>,
        execs: Option<Counted>,
        version: u64,
    )
        requires hits { IsTrue (has_cell self.old hits) }
        requires execs { IsTrue (has_cell self.old execs) }
        requires version { version ≢ 0 }
        ensures latest { self.new.latest ≡ version }
        ensures key { self.new.key ≡ self.old.key }
        ensures cells { (c : Counted) → cell_of (Some self.new) c
            ≡ (if is_of execs c then version
            else if is_of hits c then version else cell_of (Some self.old) c) }
    {
        self.begin_passes(node);
        self.mark(false, hits, version);
        self.mark(false, execs, version);
    }

    // Marks what is counted.
    #[inline(always)]
    fn mark_cell(&mut self, counted: Counted, version: u64)
        requires room { IsTrue (has_cell self.old (Some counted)) }
        requires version { version ≢ 0 }
        ensures latest { self.new.latest ≡ self.old.latest }
        ensures key { self.new.key ≡ self.old.key }
        ensures cells { (c : Counted) → cell_of (Some self.new) c
            ≡ (if is_of (Some counted) c then version else cell_of (Some self.old) c) }
        ensures kept { (c : Option Counted)
            → IsTrue (has_cell self.old c) → IsTrue (has_cell self.new c) }
    {
        let passed = self.passes.mark_of(counted);
        self.passes.mark(counted, version);
        if passed != 0 {
            return;
        }
        if let Some(mark) = self.cells.get_mut(&counted) {
            *mark = version;
        }
    }

    // Marks a new key, under which nothing is counted yet: cells of the old one lose their marks.
    fn renew(&mut self, version: u64)
        ensures latest { self.new.latest ≡ version }
        ensures key { self.new.key ≡ version }
        ensures cells { (c : Counted) → cell_of (Some self.new) c
            ≡ (if is_hits c then cell_of (Some self.old) c else 0) }
    {
        self.latest = version;
        self.key = version;
        self.cells.retain(|counted, _| counted.is_hits());
        self.passes.renew();
    }
}

impl Marks {
    ghost use Rattle.delta_exchange.specs.Marks.{KeepsRoom, has_room, marks_value};
    ghost use Rattle.delta_exchange.specs.Marks.{with_mark, with_new_key};

    /// No marks.
    pub(crate) fn new(alloc: Global) -> Marks
        ensures latest { (name : List ℕ) → (marks_value result).latest name ≡ 0 }
        ensures key { (name : List ℕ) → (marks_value result).key name ≡ 0 }
        ensures cell { (name : List ℕ) (c : Counted) → (marks_value result).cell name c ≡ 0 }
    {
        Marks {
            names: BTreeMap::new(alloc),
        }
    }

    /// The names that have marks or room for them, with their marks, in the order of the names.
    pub(crate) fn names(&self) -> Iter<'_, Name, NameMarks>
        ensures rest { result ≡ self.now.names.entries }
        ensures ordered { IsOrdered (slice_cmp nat_cmp) self.now.names }
    {
        self.names.iter()
    }

    /// Makes room for the marks of a name and of what is counted of it, if anything is. No mark
    /// changes.
    pub(crate) fn make_room(
        &mut self,
        alloc: Global,
        name: &Name,
        counted: Option<Counted>,
    ) -> Result<(), AllocError>
        ensures same { marks_value self.new ≡ marks_value self.old }
        ensures room { OnOk result (IsTrue (has_room self.new name.now counted)) }
        ensures kept { KeepsRoom self.old self.new }
    {
        if let Some(marks) = self.names.get_mut(name) {
            return marks.make_room(counted);
        }
        let mut marks = NameMarks::new(alloc);
        marks.make_room(counted)?;
        self.names.insert(name.copied(alloc)?, marks)?;
        Ok(())
    }

    /// Marks a name with a version: its key, where it is new, and what is counted of it.
    pub(crate) fn mark(
        &mut self,
        name: &Name,
        new_key: bool,
        counted: Option<Counted>,
        version: u64,
    )
        requires room { IsTrue (has_room self.old name.now counted) }
        requires version { version ≢ 0 }
        ensures marks { marks_value self.new
            ≡ with_mark name.now new_key counted version (marks_value self.old) }
        ensures kept { KeepsRoom self.old self.new }
    {
        if let Some(marks) = self.names.get_mut(name) {
            marks.mark(new_key, counted, version);
        }
    }

    /// Marks a name with a version for a new key, under which nothing is counted yet. Hits go on.
    pub(crate) fn renew(&mut self, name: &Name, version: u64)
        requires { IsTrue (has_room self.old name.now None) }
        ensures { marks_value self.new
            ≡ with_new_key name.now version (marks_value self.old) }
    {
        if let Some(marks) = self.names.get_mut(name) {
            marks.renew(version);
        }
    }
}

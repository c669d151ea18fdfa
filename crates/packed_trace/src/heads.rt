//! The last row of each point.
#![tactic(auto, unfolding(crate::specs::Heads::head_of))]

ghost use Rattle.std.specs.Prelude.{◌≡◌, ℕ, List, None, Some, OnErr, OnOk, bytes_eq, if◌then◌else◌};
ghost use Rattle.packed_trace.specs.Heads.{head_of};

use actions::Name;
use std::alloc::{AllocError, Global};
use std::collections::BTreeMap;

/// The number of the last row of each point that has one.
#[derive(Debug, Drop)]
pub(crate) struct Heads {
    pub(crate) rows: BTreeMap<Name, u16>,
}

impl Heads {
    pub(crate) fn new(alloc: Global) -> Heads
        ensures { (name : List ℕ) → head_of result name ≡ None }
    {
        Heads {
            rows: BTreeMap::new(alloc),
        }
    }

    pub(crate) fn get(&self, name: &Name) -> Option<u16>
        ensures { result ≡ head_of self.now name.now }
    {
        self.rows.get(name).copied()
    }

    pub(crate) fn put(&mut self, name: Name, row: u16) -> Result<(), AllocError>
        ensures ok { OnOk result ((other : List ℕ) → head_of self.new other
            ≡ (if bytes_eq name other then Some row else head_of self.old other)) }
        ensures err { OnErr result ((other : List ℕ) → head_of self.new other ≡ head_of self.old other) }
    {
        self.rows.insert(name, row)?;
        Ok(())
    }
}

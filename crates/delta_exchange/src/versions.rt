//! A version for each node.
#![tactic(auto, unfolding(crate::specs::Versions::version_of, crate::specs::Versions::has_version))]

ghost use Rattle.std.specs.Prelude.{◌≡◌, ◌==◌, ℕ, IsTrue, if◌then◌else◌, OnOk};
ghost use Rattle.delta_exchange.specs.Versions.{acked_raised, has_version, known_raised, version_of};

use std::alloc::{AllocError, Global};
use std::collections::BTreeMap;

/// A version for each node, 0 where there is none.
#[derive(Debug, Drop)]
pub(crate) struct NodeVersions {
    versions: BTreeMap<u8, u64>,
}

impl NodeVersions {
    pub(crate) fn new(alloc: Global) -> NodeVersions
        ensures { (node : ℕ) → version_of result node ≡ 0 }
    {
        NodeVersions {
            versions: BTreeMap::new(alloc),
        }
    }

    /// The version of a node.
    pub(crate) fn version(&self, node: u8) -> u64
        ensures { result ≡ version_of self.now node }
    {
        match self.versions.get(&node) {
            Some(version) => *version,
            None => 0,
        }
    }

    /// Makes room for the version of a node. No version changes.
    pub(crate) fn make_room(&mut self, node: u8) -> Result<(), AllocError>
        ensures same { (other : ℕ) → version_of self.new other ≡ version_of self.old other }
        ensures room { OnOk result (IsTrue (has_version self.new node)) }
    {
        if !self.versions.contains_key(&node) {
            self.versions.insert(node, 0)?;
        }
        Ok(())
    }

    // Gives a node that has room for it a version.
    fn set(&mut self, node: u8, version: u64)
        requires { IsTrue (has_version self.old node) }
        ensures { (other : ℕ) → version_of self.new other
            ≡ (if other == node then version else version_of self.old other) }
    {
        if let Some(held) = self.versions.get_mut(&node) {
            *held = version;
        }
    }

    /// Raises the version of a node that has room for it to the one that it tells, if nothing lies
    /// between the version and the base of what it tells.
    pub(crate) fn raise_known(&mut self, from: u8, base: u64, upto: u64)
        requires { IsTrue (has_version self.old from) }
        ensures { (other : ℕ) → version_of self.new other
            ≡ known_raised from base upto (version_of self.old) other }
    {
        let known = self.version(from);
        if base <= known && known < upto {
            self.set(from, upto);
        }
    }

    /// Raises the version of a node that has room for it, if it is lower.
    pub(crate) fn raise_acked(&mut self, from: u8, ack: u64)
        requires { IsTrue (has_version self.old from) }
        ensures { (other : ℕ) → version_of self.new other
            ≡ acked_raised from ack (version_of self.old) other }
    {
        let acked = self.version(from);
        self.set(from, acked.max(ack));
    }
}

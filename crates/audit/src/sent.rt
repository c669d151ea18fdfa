//! The messages that were emitted.

ghost use Rattle.std.specs.Prelude.{◌≡◌, ℕ, List, OnOk, IsTrue, ◌↔◌, ◌⊎◌, Some, if◌then◌else◌, true, false};
ghost use Rattle.std.specs.Str.{bytes_eq};
ghost use Rattle.audit.specs.Boards.{has_sent};
ghost use Rattle.audit.specs.Messages.{bytes_emitted};
ghost use Rattle.packed_trace.specs.Packed.{seen_told};

use crate::told::emitted;
use node_core::Seen;
use std::alloc::{AllocError, Global};
use std::collections::BTreeSet;

/// The bytes that were emitted so far, in order: no choice of messages makes a look-up slow.
#[derive(Drop)]
pub(crate) struct Sent<'a> {
    set: BTreeSet<&'a [u8]>,
}

impl<'a> Sent<'a> {
    pub(crate) fn new(alloc: Global) -> Sent<'a>
        ensures { (b : List ℕ) → has_sent result b ≡ false }
    {
        Sent {
            set: BTreeSet::new(alloc),
        }
    }

    pub(crate) fn has(&self, bytes: &[u8]) -> bool
        ensures { result ≡ has_sent self.now bytes.now }
    {
        self.set.contains(bytes)
    }

    fn add(&mut self, bytes: &'a [u8]) -> Result<(), AllocError>
        ensures { OnOk result ((b : List ℕ)
            → has_sent self.new b ≡ (if bytes_eq bytes.now b then true else has_sent self.old b)) }
    {
        self.set.insert(bytes)?;
        Ok(())
    }

    /// Adds what a call emitted, if it did.
    pub(crate) fn add_reply(&mut self, seen: Seen<'a>) -> Result<(), AllocError>
        ensures { OnOk result ((b : List ℕ) → IsTrue (has_sent self.new b)
            ↔ ((bytes_emitted (seen_told seen.entry) ≡ Some b) ⊎ IsTrue (has_sent self.old b))) }
    {
        if let Some(bytes) = emitted(seen) {
            self.add(bytes)?;
        }
        Ok(())
    }
}

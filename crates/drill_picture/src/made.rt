//! The messages that were made.

ghost use Rattle.std.specs.Prelude.{◌≡◌, ℕ, List, OnOk, false, true, if◌then◌else◌, option_map};
ghost use Rattle.std.specs.Str.{bytes_eq};
ghost use Rattle.packed_trace.specs.Packed.{seen_told};
ghost use Rattle.drill_picture.specs.Boards.{has_made};
ghost use Rattle.drill_picture.specs.Calls.{makes};

use crate::calls::made;
use packed_trace::Seen;
use std::alloc::{AllocError, Global};
use std::collections::BTreeSet;

/// The bytes of the messages that were made so far, in order: no choice of messages makes a look-up
/// slow.
#[derive(Drop)]
pub(crate) struct Made<'a> {
    set: BTreeSet<&'a [u8]>,
}

impl<'a> Made<'a> {
    pub(crate) fn new(alloc: Global) -> Made<'a>
        ensures { (b : List ℕ) → has_made result b ≡ false }
    {
        Made {
            set: BTreeSet::new(alloc),
        }
    }

    pub(crate) fn has(&self, bytes: &[u8]) -> bool
        ensures { result ≡ has_made self.now bytes.now }
    {
        self.set.contains(bytes)
    }

    fn add(&mut self, bytes: &'a [u8]) -> Result<(), AllocError>
        ensures { OnOk result ((b : List ℕ) → has_made self.new b
            ≡ (if bytes_eq bytes.now b then true else has_made self.old b)) }
    {
        self.set.insert(bytes)?;
        Ok(())
    }

    /// Adds what a call made, if it did.
    pub(crate) fn add_call(&mut self, call: Option<Seen<'a>>) -> Result<(), AllocError>
        ensures { OnOk result ((b : List ℕ) → has_made self.new b
            ≡ (if makes b (option_map seen_told call.entry) then true else has_made self.old b)) }
    {
        let Some(call) = call else {
            return Ok(());
        };
        match made(call.reply()) {
            Some(bytes) => self.add(bytes),
            None => Ok(()),
        }
    }
}

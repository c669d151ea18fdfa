//! Names of points.

ghost use Rattle.std.specs.Prelude.{◌≡◌, ◌<◌, ◌↔◌, true, false, string_bytes, get_or};
ghost use Rattle.std.specs.Prelude.{IfOk, IsErrOf, IsTrue};
ghost use Rattle.std.specs.List.{list_all};
ghost use Rattle.actions.specs.Names.{is_name_byte, is_name, first_bytes};

use held_keys::Held;
use std::alloc::{AllocError, Global};
use std::cmp::Ordering;
use std::error::Error;
use std::fmt;
use std::marker::Model;

/// The most bytes of a name.
const MAX_NAME: usize = 128;

/// Why there is no name. `Display` shows the variant's name.
#[derive(Clone, Copy, Debug, PartialEq, Eq)]
pub enum NameFault {
    /// The text is empty, is longer than 128 bytes, or has another byte than a name may have.
    BadName,
    /// Memory was refused.
    OutOfMemory,
}

impl fmt::Display for NameFault {
    ghost use Rattle.std.specs.Prelude.{Some};
    ghost use Rattle.actions.specs.FaultText.{name_fault_text};

    ghost output = { λ e. Some (name_fault_text e) };

    fn fmt<W: fmt::Write>(&self, f: &mut fmt::Formatter<W>) -> fmt::Result {
        f.write_str(match self {
            NameFault::BadName => "BadName",
            NameFault::OutOfMemory => "OutOfMemory",
        })
    }
}

impl Error for NameFault {}

impl From<AllocError> for NameFault {
    ghost use Rattle.std.specs.Prelude.{◌≡◌};
    ghost use Rattle.actions.specs.declared.name.NameFault.TheVariants.{OutOfMemory};

    ghost from_gives = { λ _ e. e ≡ OutOfMemory };

    fn from(_e: AllocError) -> NameFault {
        NameFault::OutOfMemory
    }
}

/// The name of a point: 1 to 128 ASCII letters, digits, `_`, `-`, `.` and `:`.
///
/// Names are equal and ordered as their texts are, byte by byte.
#[derive(Debug)]
pub struct Name {
    // The first eight bytes as one number. Where those of two names differ, they are ordered as these
    // are, and no text is looked at.
    front: u64,
    text: String,
    ghost front_is: { front ≡ first_bytes 8 (string_bytes text) },
}

impl Drop for Name {
    fn drop(self) {
        let Name { front: _, text: _ } = self;
    }
}

impl Model for Name {
    ghost use Rattle.std.specs.Prelude.{◌≡◌, ℕ, List, true, string_bytes};
    ghost use Rattle.actions.specs.Names.{is_name};

    ghost Value = { List ℕ };

    ghost view = { λ n. string_bytes n.text };

    ghost invariant = { λ n. is_name (string_bytes n.text) ≡ true };
}

fn has_name_bytes(text: &str) -> bool
    ensures { result ≡ list_all is_name_byte text.now }
{
    text.bytes().all(|b| b.is_ascii_alphanumeric()
        || b == b'_'
        || b == b'-'
        || b == b'.'
        || b == b':')
}

fn is_name_text(text: &str) -> bool
    ensures { result ≡ is_name text.now }
{
    !text.is_empty() && text.len() <= MAX_NAME && has_name_bytes(text)
}

// A byte of a text, and 0 behind its end.
fn byte_at(text: &[u8], index: usize) -> u64
    ensures value { result ≡ get_or text.now index 0 }
    ensures small { result < 256 }
{
    match text.get(index) {
        Some(byte) => u64::from(*byte),
        None => 0,
    }
}

fn front_of(text: &[u8]) -> u64
    ensures { result ≡ first_bytes 8 text.now }
{
    let high = ((byte_at(text, 0) * 256 + byte_at(text, 1)) * 256 + byte_at(text, 2)) * 256
        + byte_at(text, 3);
    let low = ((byte_at(text, 4) * 256 + byte_at(text, 5)) * 256 + byte_at(text, 6)) * 256
        + byte_at(text, 7);
    high * 4_294_967_296 + low
}

impl Name {
    /// The name that a text is, or `BadName` where it is none.
    pub fn parse(alloc: Global, text: &str) -> Result<Name, NameFault>
        ensures found { IfOk result (λ n. IsTrue (is_name text.now) × (n ≡ text.now)) }
        ensures bad { IsErrOf result NameFault.BadName ↔ (is_name text.now ≡ false) }
    {
        if !is_name_text(text) {
            return Err(NameFault::BadName);
        }
        let front = front_of(text.as_bytes());
        let text = String::from_str(alloc, text)?;
        Ok(Name { front, text })
    }

    /// The text of the name.
    pub fn text(&self) -> &str
        ensures text { result.now ≡ self.now }
        ensures named { is_name self.now ≡ true }
    {
        &self.text
    }

    /// The text of the name, in the memory in which it lies.
    pub fn into_text(self) -> String
        ensures { string_bytes result ≡ self }
    {
        let Name { front: _, text } = self;
        text
    }

    /// An equal name, in memory of its own.
    pub fn copied(&self, alloc: Global) -> Result<Name, AllocError>
        ensures { IfOk result (λ n. n ≡ self.now) }
    {
        let text = String::from_str(alloc, &self.text)?;
        Ok(Name {
            front: self.front,
            text,
        })
    }
}

impl PartialEq for Name {
    ghost use Rattle.std.specs.Prelude.{bytes_eq};
    ghost use Rattle.std.proofs.Common.{rules};
    ghost use Rattle.std.specs.Cmp.Rules.{comparing};

    ghost eq = { bytes_eq };

    ghost laws = { Prim.search (comparing, rules) };

    fn eq(&self, other: &Name) -> bool {
        if self.front != other.front {
            return false;
        }
        // Of a name that is no longer the first eight bytes are all.
        if self.text.len() <= 8 && other.text.len() <= 8 {
            return true;
        }
        self.text == other.text
    }
}

impl Eq for Name {
    ghost use Rattle.std.proofs.Common.{rules};
    ghost use Rattle.std.specs.Cmp.Rules.{comparing};

    ghost laws = { Prim.search (comparing, rules) };
}

impl Ord for Name {
    ghost use Rattle.std.proofs.Common.{rules};
    ghost use Rattle.std.specs.Cmp.Rules.{comparing};
    ghost use Rattle.std.specs.Cmp.Lexicographic.{slice_cmp};
    ghost use Rattle.std.specs.Ordering.{nat_cmp};

    ghost cmp = { slice_cmp nat_cmp };

    ghost total = { Prim.search (comparing, rules) };

    ghost matches_partial_cmp = { Prim.search (comparing, rules) };

    ghost matches_eq = { Prim.search (comparing, rules) };

    fn cmp(&self, other: &Name) -> Ordering {
        match self.front.cmp(&other.front) {
            Ordering::Equal if self.text.len() <= 8 && other.text.len() <= 8 => Ordering::Equal,
            Ordering::Equal => self.text.cmp(&other.text),
            order @ (Ordering::Less | Ordering::Greater) => order,
        }
    }
}

impl PartialOrd for Name {
    ghost use Rattle.std.proofs.Common.{rules};
    ghost use Rattle.std.specs.Cmp.{partial_order_from_own_ties};
    ghost use Rattle.std.specs.Cmp.Rules.{comparing};
    ghost use Rattle.std.specs.Cmp.Lexicographic.{slice_cmp};
    ghost use Rattle.std.specs.Ordering.{nat_cmp, as_partial_cmp};

    ghost partial_cmp = { as_partial_cmp (slice_cmp nat_cmp) };

    ghost laws = { partial_order_from_own_ties (Prim.search (comparing, rules))
        (Prim.search (comparing, rules)) };

    fn partial_cmp(&self, other: &Name) -> Option<Ordering> {
        Some(self.cmp(other))
    }
}

impl Held for Name {
    fn copied(&self, alloc: Global) -> Result<Name, AllocError> {
        Name::copied(self, alloc)
    }
}

//! What is counted of a point.

ghost use Rattle.std.specs.Prelude.{◌≡◌, ℕ, List};
ghost use Rattle.stamp_register.specs.Keys.{key_value};
ghost use Rattle.operations.specs.Counts.{is_hits, term_of, given_key, key_told, operation_told};

use stamp_register::Key;

/// What is counted of a point: its hits and, under its key, executions and shifted rights.
#[derive(Clone, Copy, Debug)]
pub enum Counted {
    /// The hits of a node.
    Hits { node: u8 },
    /// The executions of a term at a node.
    Execs { term: u8, node: u8 },
    /// The rights to a term that one node moved to another, or granted itself where both are one.
    Shifts { term: u8, from: u8, to: u8 },
}

/// How much was counted of one thing, in all.
#[derive(Clone, Copy, Debug)]
pub struct Count {
    pub counted: Counted,
    pub number: u64,
}

impl Counted {
    /// The count that says so many.
    pub fn times(self, number: u64) -> Count
        ensures { result ≡ record { counted = self; number = number } }
    {
        Count {
            counted: self,
            number,
        }
    }

    /// The term of which something is counted, if it is.
    pub fn term(self) -> Option<u8>
        ensures { result ≡ term_of self }
    {
        match self {
            Counted::Hits { .. } => None,
            Counted::Execs { term, .. } => Some(term),
            Counted::Shifts { term, .. } => Some(term),
        }
    }

    /// Whether it counts hits, which belong to no key.
    pub fn is_hits(self) -> bool
        ensures { result ≡ is_hits self }
    {
        match self {
            Counted::Hits { .. } => true,
            Counted::Execs { .. } | Counted::Shifts { .. } => false,
        }
    }
}

/// The key that goes with what is told of a name: with a setting and with what is counted under the
/// key. A hit belongs to no key.
pub fn key_with<'a>(key: &'a Key, count: Option<Count>) -> Option<&'a Key>
    ensures { (name : List ℕ)
        → given_key result ≡ key_told (operation_told name (key_value key.now) count) }
{
    match count {
        None => Some(key),
        Some(count) => match count.counted {
            Counted::Hits { .. } => None,
            Counted::Execs { .. } | Counted::Shifts { .. } => Some(key),
        },
    }
}

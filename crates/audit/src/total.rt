//! What an audit adds up.

use actions::Name;
use stamp_register::Stamp;
use std::fmt;

/// A counted term of a key that the traces set, and what the traces tell of it.
///
/// `Display` shows `budget <name> <stamp> <term> count=<n> executed=<e>`, with ` granted=<g>` behind
/// the count where something was granted.
#[derive(Debug, Drop)]
pub struct Total {
    /// The point.
    pub name: Name,
    /// The stamp of the key.
    pub stamp: Stamp,
    /// The number of the term, from 0.
    pub term: u8,
    /// The term's count.
    pub count: u64,
    /// The rights that nodes granted themselves beyond it, under this key, on all nodes together.
    pub granted: u128,
    /// The executions of the term under this key, on all nodes together.
    pub executed: u128,
}

impl fmt::Display for Total {
    ghost use Rattle.std.specs.Prelude.{Some};
    ghost use Rattle.audit.specs.VerdictText.{total_text};

    ghost output = { λ t. Some (total_text t) };

    fn fmt<W: fmt::Write>(&self, f: &mut fmt::Formatter<W>) -> fmt::Result {
        f.write_str("budget ")?;
        f.write_str(self.name.text())?;
        let granted = Granted(self.granted);
        write!(
            f,
            " {} {} count={}{granted} executed={}",
            self.stamp, self.term, self.count, self.executed
        )
    }
}

/// What was granted, as it stands behind a count: nothing where nothing was.
#[derive(Clone, Copy)]
struct Granted(u128);

impl fmt::Display for Granted {
    ghost use Rattle.std.specs.Prelude.{Some};
    ghost use Rattle.audit.specs.VerdictText.{granted_text};

    ghost output = { λ g. Some (granted_text g.0) };

    fn fmt<W: fmt::Write>(&self, f: &mut fmt::Formatter<W>) -> fmt::Result {
        if self.0 == 0 {
            return f.write_str("");
        }
        write!(f, " granted={}", self.0)
    }
}

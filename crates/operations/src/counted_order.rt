//! The order of what is counted: hits by node, then executions by term and node, then shifts by
//! term and both nodes.
ghost use Rattle.std.specs.Prelude.{◌≡◌};
ghost use Rattle.operations.specs.Counts.{place_of_counted};

use crate::counted::Counted;
use std::cmp::Ordering;

impl Counted {
    // Its place in the order.
    fn place(&self) -> [u8; 4]
        ensures { result ≡ place_of_counted self.now }
    {
        match self {
            Counted::Hits { node } => [0, *node, 0, 0],
            Counted::Execs { term, node } => [1, *term, *node, 0],
            Counted::Shifts { term, from, to } => [2, *term, *from, *to],
        }
    }
}

impl PartialEq for Counted {
    ghost use Rattle.std.specs.Prelude.{bytes_eq};
    ghost use Rattle.std.proofs.Common.{rules};
    ghost use Rattle.std.specs.Cmp.Rules.{comparing};
    ghost use Rattle.std.specs.Ordering.{on};
    ghost use Rattle.operations.specs.Counts.{place_of_counted};

    ghost eq = { on place_of_counted bytes_eq };

    ghost laws = { Prim.search (comparing, rules) };

    fn eq(&self, other: &Counted) -> bool {
        self.place() == other.place()
    }
}

impl Eq for Counted {
    ghost use Rattle.std.proofs.Common.{rules};
    ghost use Rattle.std.specs.Cmp.Rules.{comparing};

    ghost laws = { Prim.search (comparing, rules) };
}

impl Ord for Counted {
    ghost use Rattle.std.proofs.Common.{rules};
    ghost use Rattle.std.specs.Cmp.Rules.{comparing};
    ghost use Rattle.operations.specs.Counts.{counted_cmp};

    ghost cmp = { counted_cmp };

    ghost total = { Prim.search (comparing, rules) };

    ghost matches_partial_cmp = { Prim.search (comparing, rules) };

    ghost matches_eq = { Prim.search (comparing, rules) };

    fn cmp(&self, other: &Counted) -> Ordering {
        self.place().cmp(&other.place())
    }
}

impl PartialOrd for Counted {
    ghost use Rattle.std.proofs.Common.{rules};
    ghost use Rattle.std.specs.Cmp.{partial_order_from_own_ties};
    ghost use Rattle.std.specs.Cmp.Rules.{comparing};
    ghost use Rattle.std.specs.Ordering.{as_partial_cmp};
    ghost use Rattle.operations.specs.Counts.{counted_cmp};

    ghost partial_cmp = { as_partial_cmp counted_cmp };

    ghost laws = { partial_order_from_own_ties (Prim.search (comparing, rules))
        (Prim.search (comparing, rules)) };

    fn partial_cmp(&self, other: &Counted) -> Option<Ordering> {
        Some(self.cmp(other))
    }
}

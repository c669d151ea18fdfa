//! Keys, their stamps and their order.

ghost use Rattle.std.specs.Prelude.{◌≡◌, ◌≤◌, ◌+◌, ◌-◌, ◌^◌, ◌↔◌, MatchOption, Some, None, IfOk, IfSome, IsNone};
ghost use Rattle.stamp_register.specs.Keys.{KeyValue, IsLower, key_value, body_value, stamp_of, terms_set};

use actions::Actions;
use held_keys::Held;
use std::alloc::{AllocError, Global};
use std::cmp::Ordering;
use std::fmt;

/// What a setting says of its point: that it is removed, or what it does.
#[derive(Debug, Drop)]
pub enum Body {
    Removed,
    Set(Actions),
}

/// The logical clock of a setting and the number of the node that made it. It prints as
/// `clock.node`, and no two settings of a cluster share one.
#[derive(Clone, Copy, Debug, PartialEq, Eq)]
pub struct Stamp {
    pub clock: u64,
    pub node: u8,
}

/// A setting's key. Of two settings of a point the one with the greater key holds: the one with
/// the greater clock, then with the greater node, then with the greater body, where removed is
/// below set and action texts go by their bytes.
#[derive(Debug)]
pub struct Key {
    pub clock: u64,
    pub node: u8,
    pub body: Body,
}

impl Drop for Key {
    fn drop(self) {
        let Key {
            clock: _,
            node: _,
            body: _,
        } = self;
    }
}

impl fmt::Display for Stamp {
    ghost use Rattle.std.specs.Prelude.{Some};
    ghost use Rattle.stamp_register.specs.Keys.{stamp_text};

    ghost output = { λ s. Some (stamp_text s) };

    fn fmt<W: fmt::Write>(&self, f: &mut fmt::Formatter<W>) -> fmt::Result {
        write!(f, "{}.{}", self.clock, self.node)
    }
}

impl Key {
    /// The key that a node issues after this clock, which is above every key of that clock or an
    /// earlier one. There is none after the last clock, 2^64-1.
    pub fn next(clock: u64, node: u8, body: Body) -> Option<Key>
        ensures last { IsNone result ↔ (clock ≡ 2 ^ 64 - 1) }
        ensures value { IfSome result
            (λ k. k ≡ record { clock = clock + 1; node = node; body = body }) }
        ensures above { IfSome result (λ k.
            (other : KeyValue) → other.clock ≤ clock → IsLower other (key_value k)) }
    {
        if clock == u64::MAX {
            return None;
        }
        Some(Key {
            clock: clock + 1,
            node,
            body,
        })
    }

    /// The key's stamp.
    pub fn stamp(&self) -> Stamp
        ensures { result ≡ stamp_of (key_value self.now) }
    {
        Stamp {
            clock: self.clock,
            node: self.node,
        }
    }

    /// The actions that the key sets, if it isn't a removal.
    #[tactic(auto, unfolding(crate::specs::Keys::terms_in_text))]
    pub fn actions(&self) -> Option<&Actions>
        ensures { MatchOption result (terms_set (key_value self.now).body ≡ None)
            (λ a. terms_set (key_value self.now).body ≡ Some a.now) }
    {
        match &self.body {
            Body::Removed => None,
            Body::Set(actions) => {
                // What `text` promises ties the actions to what the key's text spells.
                let _ = actions.text();
                Some(actions)
            }
        }
    }

    /// An equal key of its own.
    pub fn copied(&self, alloc: Global) -> Result<Key, AllocError>
        ensures { IfOk result (λ k. key_value k ≡ key_value self.now) }
    {
        let body = match &self.body {
            Body::Removed => Body::Removed,
            Body::Set(actions) => Body::Set(actions.copied(alloc)?),
        };
        Ok(Key {
            clock: self.clock,
            node: self.node,
            body,
        })
    }
}

impl PartialEq for Body {
    ghost use Rattle.std.specs.Prelude.{bytes_eq};
    ghost use Rattle.std.proofs.Common.{rules};
    ghost use Rattle.std.specs.Cmp.Rules.{comparing};
    ghost use Rattle.std.specs.Ordering.{on};
    ghost use Rattle.stamp_register.specs.Keys.{body_value, body_rank};

    ghost eq = { on (λ b. body_rank (body_value b)) bytes_eq };

    ghost laws = { Prim.search (comparing, rules) };

    fn eq(&self, other: &Body) -> bool {
        match (self, other) {
            (Body::Removed, Body::Removed) => true,
            (Body::Set(one), Body::Set(another)) => one == another,
            _ => false,
        }
    }
}

impl Eq for Body {
    ghost use Rattle.std.proofs.Common.{rules};
    ghost use Rattle.std.specs.Cmp.Rules.{comparing};

    ghost laws = { Prim.search (comparing, rules) };
}

impl Ord for Body {
    ghost use Rattle.std.proofs.Common.{rules};
    ghost use Rattle.std.specs.Cmp.Rules.{comparing};
    ghost use Rattle.std.specs.Cmp.Lexicographic.{slice_cmp};
    ghost use Rattle.std.specs.Ordering.{on, nat_cmp};
    ghost use Rattle.stamp_register.specs.Keys.{body_value, body_rank};

    ghost cmp = { on (λ b. body_rank (body_value b)) (slice_cmp nat_cmp) };

    ghost total = { Prim.search (comparing, rules) };

    ghost matches_partial_cmp = { Prim.search (comparing, rules) };

    ghost matches_eq = { Prim.search (comparing, rules) };

    fn cmp(&self, other: &Body) -> Ordering {
        match (self, other) {
            (Body::Removed, Body::Removed) => Ordering::Equal,
            (Body::Removed, Body::Set(_)) => Ordering::Less,
            (Body::Set(_), Body::Removed) => Ordering::Greater,
            (Body::Set(one), Body::Set(another)) => one.cmp(another),
        }
    }
}

impl PartialOrd for Body {
    ghost use Rattle.std.proofs.Common.{rules};
    ghost use Rattle.std.specs.Cmp.{partial_order_from_own_ties};
    ghost use Rattle.std.specs.Cmp.Rules.{comparing};
    ghost use Rattle.std.specs.Cmp.Lexicographic.{slice_cmp};
    ghost use Rattle.std.specs.Ordering.{on, nat_cmp, as_partial_cmp};
    ghost use Rattle.stamp_register.specs.Keys.{body_value, body_rank};

    ghost partial_cmp = { as_partial_cmp (on (λ b. body_rank (body_value b)) (slice_cmp nat_cmp)) };

    ghost laws = { partial_order_from_own_ties (Prim.search (comparing, rules))
        (Prim.search (comparing, rules)) };

    fn partial_cmp(&self, other: &Body) -> Option<Ordering> {
        Some(self.cmp(other))
    }
}

impl PartialEq for Key {
    ghost use Rattle.std.specs.Prelude.{bytes_eq};
    ghost use Rattle.std.proofs.Common.{rules};
    ghost use Rattle.std.specs.Cmp.Rules.{comparing};
    ghost use Rattle.std.specs.Ordering.{on};
    ghost use Rattle.stamp_register.specs.Keys.{key_value, key_rank};

    ghost eq = { on (λ k. key_rank (key_value k)) bytes_eq };

    ghost laws = { Prim.search (comparing, rules) };

    fn eq(&self, other: &Key) -> bool {
        self.clock == other.clock && self.node == other.node && self.body == other.body
    }
}

impl Eq for Key {
    ghost use Rattle.std.proofs.Common.{rules};
    ghost use Rattle.std.specs.Cmp.Rules.{comparing};

    ghost laws = { Prim.search (comparing, rules) };
}

impl Ord for Key {
    ghost use Rattle.std.proofs.Common.{rules};
    ghost use Rattle.std.specs.Cmp.Rules.{comparing};
    ghost use Rattle.std.specs.Cmp.Lexicographic.{slice_cmp};
    ghost use Rattle.std.specs.Ordering.{on, nat_cmp};
    ghost use Rattle.stamp_register.specs.Keys.{key_value, key_rank};

    ghost cmp = { on (λ k. key_rank (key_value k)) (slice_cmp nat_cmp) };

    ghost total = { Prim.search (comparing, rules) };

    ghost matches_partial_cmp = { Prim.search (comparing, rules) };

    ghost matches_eq = { Prim.search (comparing, rules) };

    fn cmp(&self, other: &Key) -> Ordering {
        self.clock
            .cmp(&other.clock)
            .then(self.node.cmp(&other.node))
            .then(self.body.cmp(&other.body))
    }
}

impl PartialOrd for Key {
    ghost use Rattle.std.proofs.Common.{rules};
    ghost use Rattle.std.specs.Cmp.{partial_order_from_own_ties};
    ghost use Rattle.std.specs.Cmp.Rules.{comparing};
    ghost use Rattle.std.specs.Cmp.Lexicographic.{slice_cmp};
    ghost use Rattle.std.specs.Ordering.{on, nat_cmp, as_partial_cmp};
    ghost use Rattle.stamp_register.specs.Keys.{key_value, key_rank};

    ghost partial_cmp = { as_partial_cmp (on (λ k. key_rank (key_value k)) (slice_cmp nat_cmp)) };

    ghost laws = { partial_order_from_own_ties (Prim.search (comparing, rules))
        (Prim.search (comparing, rules)) };

    fn partial_cmp(&self, other: &Key) -> Option<Ordering> {
        Some(self.cmp(other))
    }
}

impl Held for Key {
    fn copied(&self, alloc: Global) -> Result<Key, AllocError> {
        Key::copied(self, alloc)
    }
}

//! Points by numbers.

ghost use Rattle.std.specs.Prelude.{◌≡◌, ◌≢◌, ◌⊎◌, ℕ, List, [], ◌∷◌, ◌++◌, option_map, slice_get, Some, IfOk, OnErr};

use actions::Name;
use std::alloc::{AllocError, Global};
use std::collections::BTreeMap;
use std::marker::Model;

/// Names of points, each with a number: the first one 0, and each other the next. None is lost.
/// Contracts see the names, in the order of their numbers.
#[derive(Drop)]
pub struct Points {
    names: Vec<Name>,
    numbers: BTreeMap<Name, u32>,
}

impl Model for Points {
    ghost use Rattle.std.specs.Prelude.{◌≡◌, ◌↔◌, ℕ, List, Some, slice_get};
    ghost use Rattle.node_for_c.specs.Points.{number_in};

    ghost Value = { List (List ℕ) };

    ghost view = { λ p. p.names.items };

    ghost invariant = { λ p. (name : List ℕ) (at : ℕ) →
        (number_in p.numbers.entries name ≡ Some at) ↔ (slice_get p.names.items at ≡ Some name) };
}

impl Points {
    /// No point.
    pub fn new(alloc: Global) -> Points
        ensures { result ≡ [] }
    {
        Points {
            names: Vec::new(alloc),
            numbers: BTreeMap::new(alloc),
        }
    }

    /// The name of a number.
    pub fn name(&self, number: u32) -> Option<&Name>
        ensures { option_map (λ name. name.now) result ≡ slice_get self.now number }
    {
        self.names.get(number as usize)
    }

    /// The number of a name: the next one, where it has none yet.
    pub fn number(&mut self, alloc: Global, name: Name) -> Result<u32, AllocError>
        ensures ok { IfOk result (λ at. slice_get self.new at ≡ Some name) }
        ensures points { IfOk result (λ at. (self.new ≡ self.old)
            ⊎ ((self.new ≡ self.old ++ name ∷ [])
            × ((other : ℕ) → slice_get self.old other ≢ Some name))) }
        ensures err { OnErr result (self.new ≡ self.old) }
    {
        if let Some(number) = self.numbers.get(&name) {
            return Ok(*number);
        }
        let Ok(number) = u32::try_from(self.names.len()) else {
            return Err(AllocError);
        };
        self.names.reserve(1)?;
        self.numbers.insert(name.copied(alloc)?, number)?;
        self.names.push_reserved(name);
        Ok(number)
    }
}

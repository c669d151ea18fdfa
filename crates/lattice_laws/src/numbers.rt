//! Numbers by place, which join to the greater one at each place.

ghost use Rattle.std.specs.Prelude.{◌≡◌, ◌≤◌, ◌↔◌, ℕ, [], length, max, slice_index, IsTrue, OnErr, OnOk};
ghost use Rattle.lattice_laws.specs.Numbers.{AreNumbers, NoneGreater, WritesNumber};

use crate::join::Join;
use std::alloc::{AllocError, Global};
use std::marker::Model;

/// A number of 64 bits at each of 256 places. They are kept side by side up to the last one that was
/// written, and beyond it stands 0. Of two of them that are joined the greater number holds at each
/// place.
#[derive(Debug, Drop)]
pub struct Numbers {
    numbers: Vec<u64>,
}

impl Model for Numbers {
    ghost use Rattle.std.specs.Prelude.{List, ℕ};
    ghost use Rattle.lattice_laws.specs.Numbers.{AreNumbers};

    ghost Value = { List ℕ };

    ghost view = { λ n. n.numbers.items };

    ghost invariant = { λ n. AreNumbers n.numbers.items };
}

// The number at a place, 0 beyond the last.
fn number_at(numbers: &[u64], place: usize) -> u64
    ensures { result ≡ slice_index numbers.now place }
{
    numbers.get(place).copied().unwrap_or(0)
}

// Whether none is greater than the other one at its place.
fn none_greater(numbers: &[u64], others: &[u64]) -> bool
    ensures { IsTrue result ↔ NoneGreater numbers.now others.now }
{
    for place in 0..numbers.len() {
        if number_at(others, place) < numbers[place] {
            return false;
        }
    }
    true
}

// Raises each number to at least that of the others at its place.
fn raise_each(numbers: &mut [u64], others: &[u64])
    requires { length others.now ≤ length numbers.old }
    ensures len { length numbers.new ≡ length numbers.old }
    ensures each { (place : ℕ) → slice_index numbers.new place
        ≡ max (slice_index numbers.old place) (slice_index others.now place) }
{
    for place in 0..others.len() {
        numbers[place] = numbers[place].max(others[place]);
    }
}

impl Numbers {
    /// All are 0. It takes no memory.
    pub fn new(alloc: Global) -> Numbers
        ensures { result ≡ [] }
    {
        Numbers {
            numbers: Vec::new(alloc),
        }
    }

    /// The number at a place.
    pub fn at(&self, place: u8) -> u64
        ensures { result ≡ slice_index self.now place }
    {
        number_at(&self.numbers, usize::from(place))
    }

    /// The numbers from place 0 on, up to the last one that is kept.
    pub fn as_slice(&self) -> &[u64]
        ensures kept { result.now ≡ self.now }
        ensures numbers { AreNumbers self.now }
    {
        &self.numbers
    }

    /// Writes the number at a place. Memory is asked for only beyond the last one that is kept; where
    /// it is refused, all stays as it was.
    pub fn put(&mut self, place: u8, number: u64) -> Result<(), AllocError>
        ensures ok { OnOk result (WritesNumber self.old self.new place number) }
        ensures err { OnErr result (self.new ≡ self.old) }
        ensures beyond { OnErr result (length self.old ≤ place) }
    {
        let index = usize::from(place);
        if self.numbers.len() <= index {
            self.numbers.resize(index + 1, 0)?;
        }
        self.numbers[index] = number;
        Ok(())
    }
}

impl Join for Numbers {
    ghost use Rattle.lattice_laws.specs.Numbers.{NoneGreater, numbers_order};

    ghost admitted = { AreNumbers };

    ghost order = { NoneGreater };

    ghost bottom = { [] };

    ghost laws = { numbers_order };

    fn joined(&self, alloc: Global, other: &Numbers) -> Result<Numbers, AllocError> {
        let (longer, shorter) = if self.numbers.len() < other.numbers.len() {
            (other, self)
        } else {
            (self, other)
        };
        let mut numbers = Vec::from_slice(alloc, &longer.numbers)?;
        raise_each(&mut numbers, &shorter.numbers);
        Ok(Numbers { numbers })
    }

    fn below(&self, other: &Numbers) -> bool {
        none_greater(&self.numbers, &other.numbers)
    }

    fn is_bottom(&self) -> bool {
        none_greater(&self.numbers, &[])
    }

    fn copied(&self, alloc: Global) -> Result<Numbers, AllocError> {
        let numbers = Vec::from_slice(alloc, &self.numbers)?;
        Ok(Numbers { numbers })
    }

    /// It takes no memory.
    fn join_in(&mut self, _alloc: Global, other: Numbers) -> Result<(), AllocError> {
        let Numbers { mut numbers } = other;
        if self.numbers.len() < numbers.len() {
            raise_each(&mut numbers, &self.numbers);
            self.numbers = numbers;
        } else {
            raise_each(&mut self.numbers, &numbers);
        }
        Ok(())
    }
}

//! What a matrix stores of one term of a point, read without another look-up of the term.

ghost use Rattle.std.specs.Prelude.{◌≡◌, ℕ, Some};
ghost use Rattle.operations.specs.declared.counted.Counted.{Counted};
ghost use Rattle.operations.specs.declared.counted.Counted.TheVariants.{Execs, Shifts};
ghost use Rattle.operations.specs.Counts.{term_of};
ghost use Rattle.replica_state.specs.Slots.{slot_held};
ghost use Rattle.replica_state.specs.Stored.{reader_held};
ghost use Rattle.replica_state.specs.Terms.{term_number};

use crate::reader::PointReader;
use crate::slot::{self, Slot};
use counters::Budget;
use std::alloc::AllocError;

/// What is stored of a term of a point's key that was looked up once. What isn't there reads 0.
pub struct TermReader<'a> {
    budget: Option<&'a Budget>,
}

impl<'a> Clone for TermReader<'a> {
    fn clone(&self) -> Result<TermReader<'a>, AllocError> {
        Ok(*self)
    }
}

impl<'a> Copy for TermReader<'a> {}

impl<'a> PointReader<'a, Slot> {
    /// What is stored of a term, looked up once.
    #[tactic(auto, unfolding(crate::specs::Points::empty_held, crate::specs::Slots::slot_held))]
    pub fn term(self, term: u8) -> TermReader<'a>
        ensures { (c : Counted) → term_of c ≡ Some term
            → term_number result c ≡ (reader_held slot_held self.entry).number c }
    {
        let budget = match self.stored {
            Some(slot) => slot::budget(slot, term),
            None => None,
        };
        TermReader { budget }
    }
}

impl<'a> TermReader<'a> {
    /// The executions of the term at a node.
    pub fn exec(self, node: u8) -> u64
        ensures { (term : ℕ) → result ≡ term_number self.entry (Execs term node) }
    {
        match self.budget {
            Some(budget) => budget.spent(node),
            None => 0,
        }
    }

    /// The total of rights that a node granted itself beyond the count of the term.
    pub fn granted(self, node: u8) -> u64
        ensures { (term : ℕ) → result ≡ term_number self.entry (Shifts term node node) }
    {
        match self.budget {
            Some(budget) => budget.moved(node, node),
            None => 0,
        }
    }
}

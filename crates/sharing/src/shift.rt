//! A shift that a node makes.

use actions::Name;

/// Rights that a node moves to another: so many of them, to execute a counted term of a point.
#[derive(Debug, Drop, PartialEq, Eq)]
pub struct Shift {
    pub name: Name,
    pub term: u8,
    pub to: u8,
    pub amount: u64,
}

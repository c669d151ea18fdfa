//! Operations.

ghost use Rattle.std.specs.Prelude.{◌≡◌, ◌↔◌, IsTrue};
ghost use Rattle.operations.specs.Operations.{operation, IsWellFormed, ShiftsToAnother, name_in};
ghost use Rattle.operations.specs.Counts.{key_told, count_told, given_key};

use crate::counted::{Count, Counted};
use crate::terms::count_of;
use actions::Name;
use stamp_register::Key;

/// What a node did, and what others learn of it. Numbers are counted from 1 for each cell, which
/// is all of an operation but its last number; of two operations of one cell the one with the
/// greater number says all that the other says.
#[derive(Debug, Drop)]
pub enum Op {
    /// A setting or a removal of a point.
    Set {
        name: Name,
        key: Key,
    },
    /// The `number`-th pass of a point at a node.
    Hit {
        name: Name,
        node: u8,
        number: u64,
    },
    /// The `number`-th execution of a counted term at a node, under a key.
    Exec {
        name: Name,
        key: Key,
        term: u8,
        node: u8,
        number: u64,
    },
    /// The total of rights to execute a counted term that one node moved to another so far,
    /// under a key.
    Shift {
        name: Name,
        key: Key,
        term: u8,
        from: u8,
        to: u8,
        total: u64,
    },
    /// The total of rights to execute a counted term that a node granted itself beyond the count
    /// so far, under a key. It counts where the node would move rights to itself, which no shift
    /// does.
    Grant {
        name: Name,
        key: Key,
        term: u8,
        node: u8,
        total: u64,
    },
}

impl Op {
    /// Whether a replica may learn it: its number is at least 1, what is executed, shifted or granted
    /// is a counted term of its key, and what is shifted goes to another node.
    pub fn is_well_formed(&self) -> bool
        ensures { IsTrue result ↔ IsWellFormed (operation self.now) × ShiftsToAnother self.now }
    {
        match self {
            Op::Set { .. } => true,
            Op::Hit { number, .. } => *number >= 1,
            Op::Exec {
                key,
                term,
                number,
                ..
            } => *number >= 1 && count_of(key, *term).is_some(),
            Op::Shift {
                key,
                term,
                from,
                to,
                total,
                ..
            } => *total >= 1 && from != to && count_of(key, *term).is_some(),
            Op::Grant {
                key,
                term,
                total,
                ..
            } => *total >= 1 && count_of(key, *term).is_some(),
        }
    }

    /// The name that it tells of.
    pub fn name(&self) -> &Name
        ensures { result.now ≡ name_in (operation self.now) }
    {
        match self {
            Op::Set { name, .. } => name,
            Op::Hit { name, .. } => name,
            Op::Exec { name, .. } => name,
            Op::Shift { name, .. } => name,
            Op::Grant { name, .. } => name,
        }
    }

    /// The key that it carries, if it does.
    pub fn key(&self) -> Option<&Key>
        ensures { given_key result ≡ key_told (operation self.now) }
    {
        match self {
            Op::Set { key, .. } => Some(key),
            Op::Hit { .. } => None,
            Op::Exec { key, .. } => Some(key),
            Op::Shift { key, .. } => Some(key),
            Op::Grant { key, .. } => Some(key),
        }
    }

    /// What it counts, if it does.
    pub fn count(&self) -> Option<Count>
        ensures { result ≡ count_told (operation self.now) }
    {
        match self {
            Op::Set { .. } => None,
            Op::Hit { node, number, .. } => Some(Counted::Hits { node: *node }.times(*number)),
            Op::Exec {
                term,
                node,
                number,
                ..
            } => Some(Counted::Execs {
                term: *term,
                node: *node,
            }
            .times(*number)),
            Op::Shift {
                term,
                from,
                to,
                total,
                ..
            } => Some(Counted::Shifts {
                term: *term,
                from: *from,
                to: *to,
            }
            .times(*total)),
            Op::Grant {
                term,
                node,
                total,
                ..
            } => Some(Counted::Shifts {
                term: *term,
                from: *node,
                to: *node,
            }
            .times(*total)),
        }
    }
}

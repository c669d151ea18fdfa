//! Messages, read or still to be written.

ghost use Rattle.std.specs.Prelude.{◌≡◌};
ghost use Rattle.std.specs.List.{list_any};
ghost use Rattle.message_format.specs.Messages.{entry_value};
ghost use Rattle.message_format.specs.Spelling.{has_grants};

use actions::Name;
use stamp_register::Key;

/// How many nodes a cluster has at most.
pub const MAX_NODES: u8 = 32;

/// How many names a node holds at most, so that one message can tell all of them.
pub const MAX_NAMES: usize = 256;

/// How many bytes a message has at most.
pub const MAX_MESSAGE: usize = 67_108_864;

/// What a message says of one name: its key, and cells of what was counted at nodes.
///
/// The numbers of a cell stand in the order in which they are written. The last is the count or
/// the total, from 1 on.
#[derive(Debug)]
pub struct NameEntry {
    pub name: Name,
    pub key: Key,
    /// A node, and how often it passed the point.
    pub hits: Vec<(u8, u64)>,
    /// A counted term of the key, a node, and how often the node executed the term.
    pub execs: Vec<(u8, u8, u64)>,
    /// A counted term of the key, two nodes, and how many rights to execute the term the first
    /// moved to the second.
    pub shifts: Vec<(u8, u8, u8, u64)>,
    /// A counted term of the key, a node, and how many rights to execute the term the node granted
    /// itself beyond the count.
    pub grants: Vec<(u8, u8, u64)>,
}

impl Drop for NameEntry {
    fn drop(self) {
        let NameEntry {
            name: _,
            key: _,
            hits: _,
            execs: _,
            shifts: _,
            grants: _,
        } = self;
    }
}

impl NameEntry {
    fn has_grants(&self) -> bool
        ensures { result ≡ has_grants (entry_value self.now) }
    {
        !self.grants.is_empty()
    }
}

/// Whether one of the entries tells a grant.
pub(crate) fn have_grants(entries: &[NameEntry]) -> bool
    ensures { result ≡ list_any (λ e. has_grants (entry_value e)) entries.now }
{
    entries.iter().any(|entry| entry.has_grants())
}

/// What one node tells another.
#[derive(Debug, Drop)]
pub struct Message {
    /// The node that sends it.
    pub from: u8,
    /// The node that it is for.
    pub to: u8,
    /// The sender's version that the receiver is known to have: the entries are what changed since.
    pub base: u64,
    /// The sender's version.
    pub upto: u64,
    /// The receiver's version that the sender has.
    pub ack: u64,
    /// In the order of their names.
    pub entries: Vec<NameEntry>,
}

//! Room for what is read of one point at a time, and of one of its terms. It is kept over all
//! points of a round, so that no list grows at each anew.

ghost use Rattle.std.specs.Prelude.{◌≡◌, ◌≤◌, map, vec_len, OnOk};
ghost use Rattle.std.specs.List.{range_with_len};
ghost use Rattle.operations.specs.declared.counted.Counted.TheVariants.{Execs};
ghost use Rattle.sharing.specs.Rooms.{AreRights, HasPlaces, IsAsLarge};

use replica_state::Stored;
use std::alloc::{AllocError, Global};

/// Who passed a point; and of a term the rights of each node, its executions, who waits, and in
/// which line.
#[derive(Debug, Drop)]
pub(crate) struct Room {
    pub(crate) others: Vec<u8>,
    pub(crate) rights: Vec<i128>,
    pub(crate) executions: Vec<u64>,
    pub(crate) waiting: Vec<u8>,
    pub(crate) line: Vec<u8>,
}

impl Room {
    /// Room for none. It takes no memory.
    pub(crate) fn new(alloc: Global) -> Room {
        Room {
            others: Vec::new(alloc),
            rights: Vec::new(alloc),
            executions: Vec::new(alloc),
            waiting: Vec::new(alloc),
            line: Vec::new(alloc),
        }
    }

    /// Makes room for so many nodes. Where it had as much before, no memory is asked for.
    pub(crate) fn fit(&mut self, nodes: u8) -> Result<(), AllocError>
        ensures { OnOk result (HasPlaces nodes self.new) }
    {
        self.rights.resize(usize::from(nodes), 0)?;
        self.executions.resize(usize::from(nodes), 0)
    }

    /// Reads the rights of each node to a term.
    pub(crate) fn read_rights<S: Stored>(&mut self, stored: &S, term: u8)
        requires { vec_len self.old.rights ≤ 256 }
        ensures rights { AreRights (S.held stored.now) term self.new.rights.items }
        ensures kept { IsAsLarge self.old self.new }
    {
        stored.rights_of_all(term, &mut self.rights);
    }

    /// Reads how often each node executed a term.
    pub(crate) fn read_executions<S: Stored>(&mut self, stored: &S, term: u8)
        requires { vec_len self.old.executions ≤ 256 }
        ensures executions { self.new.executions.items
            ≡ map (λ node. (S.held stored.now).number (Execs term node))
            (range_with_len 0 (vec_len self.old.executions)) }
        ensures waiting { self.new.waiting.items ≡ self.old.waiting.items }
        ensures kept { IsAsLarge self.old self.new }
    {
        stored.execs_of_all(term, &mut self.executions);
    }
}

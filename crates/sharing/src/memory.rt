//! A node's rounds, and what it remembers from each to the next.

ghost use Rattle.std.specs.Prelude.{◌≡◌, [], IfOk};
ghost use Rattle.sharing.specs.Shares.{memory_after, shifts_of};
ghost use Rattle.sharing.specs.Remembered.{recalled_all};

use crate::point::push_point;
use crate::remembered::{Remembered, from_name, recall};
use crate::shift::Shift;
use crate::spare::Spare;
use replica_state::Replica;
use std::alloc::{AllocError, Global};
use std::marker::Model;
use std::mem::replace;

/// What a node remembers of the points from round to round. It is kept beside the node: no trace
/// has it.
#[derive(Debug, Drop)]
pub struct Memory {
    points: Vec<Remembered>,
    spare: Spare,
}

impl Model for Memory {
    ghost use Rattle.std.specs.Prelude.{List};
    ghost use Rattle.sharing.specs.Memory.{Recalled};
    ghost use Rattle.sharing.specs.Remembered.{recalled_all};

    ghost Value = { List Recalled };

    ghost view = { λ memory. recalled_all memory.points.items };
}

impl Memory {
    /// The memory before the first round.
    pub fn new(alloc: Global) -> Memory
        ensures { result ≡ [] }
    {
        Memory {
            points: Vec::new(alloc),
            spare: Spare::new(alloc),
        }
    }

    /// A round of a node in a cluster of so many: the shifts that it makes of its rights, by what it
    /// knows now and what it remembers, in the order of the names and the terms; and what it is to
    /// remember after them, which it does once that is kept (`keep`). It writes over what it
    /// remembered two rounds before, so it asks for memory only where there are more points or
    /// nodes than then, or a shift. The only error is out of memory.
    pub fn round<R: Replica>(
        &mut self,
        alloc: Global,
        replica: &R,
        node: u8,
        nodes: u8,
    ) -> Result<(Vec<Shift>, Memory), AllocError>
        ensures shifts { IfOk result
            (λ p. p.0.items ≡ shifts_of (R.state replica.now) node nodes self.old) }
        ensures after { IfOk result
            (λ p. p.1 ≡ memory_after (R.state replica.now) node nodes self.old) }
        ensures same { self.new ≡ self.old }
    {
        let mut spare = replace(&mut self.spare, Spare::new(alloc));
        let (shifts, points) = round_of(alloc, replica, &self.points, node, nodes, &mut spare)?;
        Ok((shifts, Memory { points, spare }))
    }

    /// Remembers from now on what `round` said is to be remembered after it.
    pub fn keep(&mut self, after: Memory)
        ensures { self.new ≡ after }
    {
        let Memory { points, mut spare } = after;
        spare.put(replace(&mut self.points, points));
        self.spare = spare;
    }
}

/// The shifts of a round, and what is remembered after it.
fn round_of<R: Replica>(
    alloc: Global,
    replica: &R,
    memory: &[Remembered],
    node: u8,
    nodes: u8,
    spare: &mut Spare,
) -> Result<(Vec<Shift>, Vec<Remembered>), AllocError>
    ensures shifts { IfOk result (λ p. p.0.items
        ≡ shifts_of (R.state replica.now) node nodes (recalled_all memory.now)) }
    ensures after { IfOk result (λ p. recalled_all p.1.items
        ≡ memory_after (R.state replica.now) node nodes (recalled_all memory.now)) }
{
    let mut shifts = Vec::new(alloc);
    let mut points = spare.list(alloc);
    spare.room.fit(nodes)?;
    // Both stand in byte order of the names, so that one is walked beside the other.
    let mut rest = memory;
    for (name, stored) in replica.points() {
        rest = from_name(rest, name);
        let remembered = recall(rest, name);
        let entry = spare.entry(alloc, name, nodes)?;
        let after = push_point(
            alloc,
            stored,
            remembered,
            node,
            nodes,
            entry,
            &mut spare.room,
            &mut shifts,
        )?;
        points.push(after)?;
    }
    Ok((shifts, points))
}

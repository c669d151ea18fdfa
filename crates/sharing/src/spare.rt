//! Memory that a round writes over, so that it asks for none anew.

ghost use Rattle.std.specs.Prelude.{◌≡◌, [], vec_len, IfOk};
ghost use Rattle.sharing.specs.Rooms.{IsReadyFor};

use crate::remembered::Remembered;
use crate::room::Room;
use actions::Name;
use std::alloc::{AllocError, Global};
use std::mem::replace;

/// What was remembered two rounds before, from the last point to the first; a list that was left
/// empty; and room for what is read of a point.
#[derive(Debug, Drop)]
pub(crate) struct Spare {
    entries: Vec<Remembered>,
    list: Vec<Remembered>,
    pub(crate) room: Room,
}

impl Spare {
    /// Nothing yet. It takes no memory.
    pub(crate) fn new(alloc: Global) -> Spare {
        Spare {
            entries: Vec::new(alloc),
            list: Vec::new(alloc),
            room: Room::new(alloc),
        }
    }

    /// Takes what was remembered of the points, in the order of their names.
    pub(crate) fn put(&mut self, mut points: Vec<Remembered>) {
        points.reverse();
        self.list = replace(&mut self.entries, points);
    }

    /// A list without elements.
    pub(crate) fn list(&mut self, alloc: Global) -> Vec<Remembered>
        ensures { result.items ≡ [] }
    {
        let mut list = replace(&mut self.list, Vec::new(alloc));
        list.clear();
        list
    }

    /// What is to be remembered of a point, whose hits and rounds are still to be written. Where the
    /// next one is of this point and of as many nodes, as mostly, no memory is asked for.
    pub(crate) fn entry(
        &mut self,
        alloc: Global,
        name: &Name,
        nodes: u8,
    ) -> Result<Remembered, AllocError>
        ensures entry { IfOk result (IsReadyFor name.now nodes) }
        ensures room { self.new.room ≡ self.old.room }
    {
        match self.entries.pop() {
            Some(entry) => written_over(alloc, entry, name, nodes),
            None => Ok(Remembered {
                name: name.copied(alloc)?,
                hits: vec![in alloc; 0; usize::from(nodes)]?,
                still: 0,
            }),
        }
    }
}

/// An entry of any point as one of this point.
fn written_over(
    alloc: Global,
    mut entry: Remembered,
    name: &Name,
    nodes: u8,
) -> Result<Remembered, AllocError>
    ensures { IfOk result (IsReadyFor name.now nodes) }
{
    if entry.name != *name {
        entry.name = name.copied(alloc)?;
    }
    entry.hits.resize(usize::from(nodes), 0)?;
    Ok(entry)
}

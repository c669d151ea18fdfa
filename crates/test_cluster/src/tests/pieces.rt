//! A node hands out the calls that it keeps, and its registry is closed with the calls that are left.

ghost use Rattle.std.specs.Prelude.{◌≡◌, false, replicate};

use super::*;
use node_registry::{Closed, Piece};

/// The index of the first call of a piece, and the number of its calls.
type Size = (u64, usize);

/// A caller of a node that may discard its calls.
trait Forgets {
    fn enter(&mut self, alloc: Global, ask: AskRef<'_>) -> Result<(), NodeFault>;

    /// Takes the calls that the node keeps.
    fn give(&mut self, alloc: Global) -> Option<Size>;

    /// Returns the index in the receipt of the call at this index, if there is one.
    fn place(&mut self, alloc: Global, index: u64) -> Result<Option<u64>, AllocError>;
}

fn size(piece: Piece) -> Size {
    (piece.from, piece.trace.len())
}

fn place_of(receipt: Option<Receipt>) -> Option<u64> {
    Some(receipt?.index)
}

/// A node under a lock, with its only seat.
#[derive(Drop)]
struct Under<L: Label> {
    guarded: Guarded<L>,
    seat: Seat<L>,
    ghost forgets: { L.keeps ≡ false },
}

impl<L: Label> Forgets for Under<L> {
    fn enter(&mut self, alloc: Global, ask: AskRef<'_>) -> Result<(), NodeFault> {
        let ask = ask.copied(alloc)?;
        self.guarded.enter(alloc, &mut self.seat, &ask)?;
        Ok(())
    }

    fn give(&mut self, alloc: Global) -> Option<Size> {
        self.guarded.audit(&mut self.seat);
        Some(size(self.guarded.give(alloc, &mut self.seat)?))
    }

    fn place(&mut self, alloc: Global, index: u64) -> Result<Option<u64>, AllocError> {
        Ok(place_of(self.guarded.receipt(alloc, &mut self.seat, index)?))
    }
}

/// A node behind a lock, with its only seat.
#[derive(Drop)]
struct Behind<'a, L: Label, R> {
    rt: &'a R,
    registry: Registry<L>,
    seat: Seat<L>,
    ghost forgets: { L.keeps ≡ false },
}

impl<L: Label, R: Wait> Forgets for Behind<'_, L, R> {
    fn enter(&mut self, alloc: Global, ask: AskRef<'_>) -> Result<(), NodeFault> {
        let ask = ask.copied(alloc)?;
        self.registry.enter(self.rt, alloc, &mut self.seat, &ask)?;
        Ok(())
    }

    fn give(&mut self, alloc: Global) -> Option<Size> {
        Some(size(self.registry.give(self.rt, alloc, &mut self.seat)))
    }

    fn place(&mut self, alloc: Global, index: u64) -> Result<Option<u64>, AllocError> {
        let receipt = self
            .registry
            .receipt(self.rt, alloc, &mut self.seat, index)?;
        Ok(place_of(receipt))
    }
}

const PASS: AskRef<'static> = AskRef::Pass { name: "p" };

/// A call, and the piece that the node hands out after it.
const CALLS: &[(AskRef<'static>, Size)] = &[
    (
        AskRef::Set {
            name: "p",
            text: "off",
        },
        (0, 1),
    ),
    (PASS, (1, 1)),
    (PASS, (2, 1)),
];

/// After one more pass: an index, and the index in its receipt, if there is one.
const PLACES: &[(u64, Option<u64>)] = &[(0, None), (2, None), (3, Some(3)), (4, None)];

// Ends the test if a node hands out other calls or has other receipts.
fn expect_pieces<F: Forgets>(rt: &impl Abort, alloc: Global, node: &mut F) -> Result<(), Fail> {
    for (ask, wanted) in CALLS {
        node.enter(alloc, *ask)?;
        expect(rt, &node.give(alloc), &Some(*wanted));
    }
    expect(rt, &node.give(alloc), &Some((3, 0)));
    node.enter(alloc, PASS)?;
    for (index, wanted) in PLACES {
        expect(
            rt,
            &(*index, node.place(alloc, *index)?),
            &(*index, *wanted),
        );
    }
    Ok(())
}

// The last of four calls is left.
fn expect_left(rt: &impl Abort, closed: Closed) {
    let Closed { from, trace, calls } = closed;
    expect(rt, &(from, trace.len(), calls), &(3, 1, 4));
}

fn expect_under<L: Label, R: Abort>(rt: &R, alloc: Global, blank: Blank) -> Result<(), Fail>
    requires name { blank.name ≡ L.name }
    requires parts { (blank.parts ≡ L.parts) × (L.parts ≡ 1) }
    requires config { FIRST_OF_TWO ≡ L.config }
    requires seed { replicate 32 0 ≡ L.seed }
    requires keeps { L.keeps ≡ false }
{
    let (guarded, mut seats) = Guarded::<L>::start(alloc, blank, FIRST_OF_TWO, [0; 32], 1)?;
    let seat = seats.pop().ok_or("a seat")?;
    let mut node = Under { guarded, seat };
    expect_pieces(rt, alloc, &mut node)?;
    let Under { guarded, seat } = node;
    expect_left(rt, guarded.close(one_seat(alloc, seat)?));
    Ok(())
}

#[test]
fn pieces_of_a_node_under_a_lock(rt: HostRuntime) -> Result<(), Fail> {
    expect_under::<Brand, HostRuntime>(&rt, rt.alloc(), Blank::new(1))
}

fn expect_behind<L: Label, R: Abort + Wait>(rt: &R, alloc: Global, blank: Blank) -> Result<(), Fail>
    requires name { blank.name ≡ L.name }
    requires parts { (blank.parts ≡ L.parts) × (L.parts ≡ 1) }
    requires config { FIRST_OF_TWO ≡ L.config }
    requires seed { replicate 32 0 ≡ L.seed }
    requires keeps { L.keeps ≡ false }
{
    let (registry, seat) = started::<L, R>(rt, alloc, blank, FIRST_OF_TWO)?;
    let mut node = Behind { rt, registry, seat };
    expect_pieces(rt, alloc, &mut node)?;
    let Behind { rt, registry, seat } = node;
    expect_left(rt, registry.close(one_seat(alloc, seat)?));
    Ok(())
}

#[test]
fn pieces_of_a_node_behind_a_lock(rt: HostRuntime) -> Result<(), Fail> {
    expect_behind::<Brand, HostRuntime>(&rt, rt.alloc(), Blank::new(1))
}

// Returns the number of calls that a node alone hands out after a call.
fn given(alloc: Global, cell: &mut NodeCell, ask: AskRef<'_>) -> Result<usize, NodeFault> {
    let ask = ask.copied(alloc)?;
    cell.enter(alloc, &ask)?;
    Ok(cell.give(alloc).len())
}

#[test]
fn pieces_of_a_node_alone(rt: HostRuntime) -> Result<(), Fail> {
    let mut cell = NodeCell::new(rt.alloc(), FIRST_OF_TWO, [0; 32])?;
    for (ask, (from, count)) in CALLS {
        let found = given(rt.alloc(), &mut cell, *ask)?;
        expect(&rt, &(*from, found), &(*from, *count));
    }
    Ok(())
}

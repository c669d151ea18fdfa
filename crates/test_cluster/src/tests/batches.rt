//! A batch of calls is made with no other call in between, and counted to its seat.

ghost use Rattle.std.specs.Prelude.{◌≡◌, replicate};

use super::*;
use node_registry::Batch;

/// Sets a point, and spreads the rights to it: two calls.
#[derive(Clone, Copy)]
struct Setting {
    name: &'static str,
    text: &'static str,
}

impl Batch<Result<Stamp, NodeFault>> for Setting {
    ghost comes = { λ _ _ _ _ _. Unit {0} };

    fn make(&mut self, alloc: Global, node: &mut NodeCore) -> Result<Stamp, NodeFault> {
        node_sharing::set_spread(node, alloc, self.name, self.text)
    }
}

/// The result of a batch, and the number of calls that the node has then accepted.
type Came = (Result<Stamp, NodeFault>, u64);

const WANTED: Came = (Ok(Stamp { clock: 1, node: 1 }), 2);

const SETTING: Setting = Setting {
    name: "p",
    text: "2*off",
};

fn made_at(alloc: Global, cell: &mut NodeCell) -> Came {
    let mut setting = SETTING;
    let came = cell.make_batch(alloc, &mut setting);
    (came, cell.core().calls())
}

#[test]
fn batch_of_a_node_alone(rt: HostRuntime) -> Result<(), Fail> {
    let mut cell = NodeCell::new(rt.alloc(), SECOND_OF_TWO, [0; 32])?;
    expect(&rt, &made_at(rt.alloc(), &mut cell), &WANTED);
    Ok(())
}

fn made_under<L: Label>(alloc: Global, guarded: &mut Guarded<L>, seat: &mut Seat<L>) -> Came {
    let mut setting = SETTING;
    let came = guarded.make_batch(alloc, seat, &mut setting);
    (came, guarded.core().calls())
}

fn expect_under<L: Label, R: Abort>(rt: &R, alloc: Global, blank: Blank) -> Result<(), Fail>
    requires name { blank.name ≡ L.name }
    requires parts { (blank.parts ≡ L.parts) × (L.parts ≡ 1) }
    requires config { SECOND_OF_TWO ≡ L.config }
    requires seed { replicate 32 0 ≡ L.seed }
{
    let (mut guarded, mut seats) = Guarded::<L>::start(alloc, blank, SECOND_OF_TWO, [0; 32], 1)?;
    let mut seat = seats.pop().ok_or("a seat")?;
    expect(rt, &made_under(alloc, &mut guarded, &mut seat), &WANTED);
    expect(rt, &seat.calls(), &2);
    Ok(())
}

#[test]
fn batch_of_a_node_under_a_lock(rt: HostRuntime) -> Result<(), Fail> {
    expect_under::<Brand, HostRuntime>(&rt, rt.alloc(), Blank::new(1))
}

fn made_behind<L: Label, R: Wait>(
    rt: &R,
    alloc: Global,
    registry: &Registry<L>,
    seat: &mut Seat<L>,
) -> Came {
    let mut setting = SETTING;
    let came = registry.make_batch(rt, alloc, seat, &mut setting);
    (came, registry.with_seat(rt, seat, |node| node.calls()))
}

fn expect_behind<L: Label, R: Abort + Wait>(rt: &R, alloc: Global, blank: Blank) -> Result<(), Fail>
    requires name { blank.name ≡ L.name }
    requires parts { (blank.parts ≡ L.parts) × (L.parts ≡ 1) }
    requires config { SECOND_OF_TWO ≡ L.config }
    requires seed { replicate 32 0 ≡ L.seed }
{
    let (registry, mut seat) = started::<L, R>(rt, alloc, blank, SECOND_OF_TWO)?;
    expect(rt, &made_behind(rt, alloc, &registry, &mut seat), &WANTED);
    expect(rt, &seat.calls(), &2);
    Ok(())
}

#[test]
fn batch_of_a_node_behind_a_lock(rt: HostRuntime) -> Result<(), Fail> {
    expect_behind::<Brand, HostRuntime>(&rt, rt.alloc(), Blank::new(1))
}

//! What the tests of rounds stand on. None of it states anything.

ghost use Rattle.std.specs.Prelude.{◌≡◌, IfOk, replicate, vec_len};

use super::*;

pub const FIRST_OF_TWO: Config = Config {
    node: 0,
    nodes: 2,
    trace_cap: 100,
};

pub const SECOND_OF_TWO: Config = Config {
    node: 1,
    nodes: 2,
    trace_cap: 100,
};

pub const FIRST_OF_THREE: Config = Config {
    node: 0,
    nodes: 3,
    trace_cap: 100,
};

/// What the second of three nodes, which knows nothing, tells the first.
pub const EMPTY: &[u8] = b"FPG1\x01\0\0\0\0\0\0\0\0\0\0\0\0\0\0\0\0\0\0\0\0\0\0\0\0\0\0\0";

/// A registry with one seat and no calls.
pub(super) fn started<L: Label, R: Wait>(
    rt: &R,
    alloc: Global,
    blank: Blank,
    config: Config,
) -> Result<(Registry<L>, Seat<L>), Fail>
    requires name { blank.name ≡ L.name }
    requires parts { (blank.parts ≡ L.parts) × (L.parts ≡ 1) }
    requires config { config ≡ L.config }
    requires seed { replicate 32 0 ≡ L.seed }
{
    let (registry, mut seats) = Registry::<L>::start(rt, alloc, blank, config, [0; 32], 1)?;
    let seat = seats.pop().ok_or("a seat")?;
    Ok((registry, seat))
}

fn load<L: Label, R: Wait>(
    rt: &R,
    alloc: Global,
    registry: &Registry<L>,
    seat: &mut Seat<L>,
    points: &str,
) -> Result<(), NodeFault> {
    registry.load(rt, alloc, seat, points)?;
    Ok(())
}

/// A registry with one seat, which has loaded these points as its only call.
pub(super) fn opened<L: Label, R: Wait>(
    rt: &R,
    alloc: Global,
    blank: Blank,
    config: Config,
    points: &str,
) -> Result<(Registry<L>, Seat<L>), Fail>
    requires name { blank.name ≡ L.name }
    requires parts { (blank.parts ≡ L.parts) × (L.parts ≡ 1) }
    requires config { config ≡ L.config }
    requires seed { replicate 32 0 ≡ L.seed }
{
    let (registry, mut seat) = started::<L, R>(rt, alloc, blank, config)?;
    load(rt, alloc, &registry, &mut seat, points)?;
    Ok((registry, seat))
}

/// The points of the node of a registry.
pub(super) fn list<L: Label, R: Wait>(
    rt: &R,
    alloc: Global,
    registry: &Registry<L>,
) -> Result<String, AllocError> {
    registry.with(rt, |node| node.list(alloc))
}

/// The only seat of a registry, in a list.
pub(super) fn one_seat<L: Label>(alloc: Global, seat: Seat<L>) -> Result<Vec<Seat<L>>, AllocError>
    ensures { IfOk result (λ seats. vec_len seats ≡ 1) }
{
    let mut seats = Vec::with_capacity(alloc, 1)?;
    seats.push_reserved(seat);
    Ok(seats)
}

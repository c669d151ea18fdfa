//! What callers of a registry are told of passes.

ghost use Rattle.std.specs.Prelude.{◌≡◌, replicate};

use super::*;

/// When the point was set, at the second of two nodes.
const STAMP: Stamp = Stamp { clock: 1, node: 1 };

/// A pass of a point, what it comes to, and the receipt that is made by its place, in print.
const PASSES: &[(&str, PassOutcome, &str)] = &[
    (
        "q",
        PassOutcome::Unset,
        "Some(Receipt { node: 1, index: 1, entry: Entry { ask: Pass { name: \"q\" }, words: [], \
         reply: Pass(Unset) } })",
    ),
    (
        "p",
        PassOutcome::Act {
            stamp: STAMP,
            term: 0,
        },
        "Some(Receipt { node: 1, index: 2, entry: Entry { ask: Pass { name: \"p\" }, words: [], \
         reply: Pass(Act { term: 0, stamp: Stamp { clock: 1, node: 1 }, task: Print(Some(\"x\")) }) } })",
    ),
    (
        "p",
        PassOutcome::NoTerm { stamp: STAMP },
        "Some(Receipt { node: 1, index: 3, entry: Entry { ask: Pass { name: \"p\" }, words: [], \
         reply: Pass(NoTerm { stamp: Stamp { clock: 1, node: 1 } }) } })",
    ),
];

// A pass by a name that is read before, without what its contract says.
fn passed<L: Label, R: Wait>(
    rt: &R,
    alloc: Global,
    registry: &Registry<L>,
    seat: &mut Seat<L>,
    name: &str,
) -> Result<PassReceipt, Fail> {
    let point = Name::parse(alloc, name)?;
    Ok(registry.pass_point(rt, alloc, seat, &point)?)
}

// A receipt in print.
fn receipt_text<L: Label, R: Wait>(
    rt: &R,
    alloc: Global,
    registry: &Registry<L>,
    seat: &mut Seat<L>,
    index: u64,
) -> Result<String, AllocError> {
    let receipt = registry.receipt(rt, alloc, seat, index)?;
    in_print(alloc, &receipt)
}

// Whether each pass is answered so.
fn passes_so<L: Label, R: Wait>(
    rt: &R,
    alloc: Global,
    registry: &Registry<L>,
    seat: &mut Seat<L>,
) -> Result<bool, Fail> {
    for (name, outcome, receipt) in PASSES {
        let passed = passed(rt, alloc, registry, seat, name)?;
        let told = receipt_text(rt, alloc, registry, seat, passed.index)?;
        if passed.outcome != *outcome || told.as_str() != *receipt {
            return Ok(false);
        }
    }
    Ok(true)
}

// Passes at one registry while another one lends its node.
fn two_locks<L: Label, M: Label, R: Wait>(
    rt: &R,
    alloc: Global,
    zero: Blank,
    one: Blank,
) -> Result<bool, Fail>
    requires zero { (zero.name ≡ L.name) × (zero.parts ≡ L.parts) × (L.parts ≡ 1) }
    requires one { (one.name ≡ M.name) × (one.parts ≡ M.parts) × (M.parts ≡ 1) }
    requires first { FIRST_OF_TWO ≡ L.config }
    requires second { SECOND_OF_TWO ≡ M.config }
    requires seeds { (replicate 32 0 ≡ L.seed) × (replicate 32 0 ≡ M.seed) }
{
    let (first, _) = opened::<L, R>(rt, alloc, zero, FIRST_OF_TWO, "")?;
    let (second, mut seat) = opened::<M, R>(rt, alloc, one, SECOND_OF_TWO, "p=1*print(x)")?;
    first.with(rt, |_| passes_so(rt, alloc, &second, &mut seat))
}

#[test]
fn passes_are_answered_while_another_node_is_looked_at(rt: HostRuntime) -> Result<(), Fail> {
    let (zero, one) = (Blank::new(1), Blank::new(1));
    let are_answered = two_locks::<Brand, Brand, HostRuntime>(&rt, rt.alloc(), zero, one)?;
    expect(&rt, &are_answered, &true);
    Ok(())
}

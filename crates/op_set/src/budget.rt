//! Sums over the nodes, of the counts of one name.

ghost use Rattle.std.specs.Prelude.{◌≡◌, ◌≢◌, ◌*◌, ◌<◌, ◌≤◌, ◌^◌, ℕ, Some, None};
ghost use Rattle.stamp_register.specs.Keys.{key_value};
ghost use Rattle.counters.specs.Sums.{node_numbers, sum_below, sum_others};
ghost use Rattle.counters.specs.Budgets.{rights};
ghost use Rattle.operations.specs.Operations.{count_of};
ghost use Rattle.op_set.specs.Counts.{number_of, node_bound};
ghost use Rattle.replica_state.specs.Points.{budget_in};
ghost use Rattle.operations.specs.declared.counted.Counted.{Counted};
ghost use Rattle.operations.specs.declared.counted.Counted.TheVariants.{Hits, Execs, Shifts};

use crate::point::{node_bound, number_of};
use replica_state::{Count, Counted};

/// A number above those of all nodes of which something is counted.
fn nodes_counted(counts: &[Count]) -> u16
    ensures above { (c : Counted) → number_of counts.now c ≢ 0 → node_bound c ≤ result }
    ensures small { result ≤ 256 }
{
    let mut nodes = 0u16;
    for count in counts {
        nodes = nodes.max(node_bound(count.counted));
    }
    nodes
}

/// The hits at all nodes.
pub(crate) fn sum_hits(counts: &[Count]) -> u128
    ensures { result ≡ sum_below node_numbers (λ node. number_of counts.now (Hits node)) }
{
    let mut sum = 0u128;
    for node in 0..nodes_counted(counts) {
        let counted = Counted::Hits { node: node as u8 };
        sum += u128::from(number_of(counts, counted));
    }
    sum
}

/// The executions of a term at all nodes.
pub(crate) fn sum_execs(counts: &[Count], term: u8) -> u128
    ensures { result ≡ sum_below node_numbers (λ node. number_of counts.now (Execs term node)) }
{
    let mut sum = 0u128;
    for node in 0..nodes_counted(counts) {
        let counted = Counted::Execs {
            term,
            node: node as u8,
        };
        sum += u128::from(number_of(counts, counted));
    }
    sum
}

/// What all nodes granted themselves of a term.
pub(crate) fn sum_grants(counts: &[Count], term: u8) -> u128
    ensures { result ≡ sum_below node_numbers (λ node. number_of counts.now (Shifts term node node)) }
{
    let mut sum = 0u128;
    for node in 0..nodes_counted(counts) {
        let counted = Counted::Shifts {
            term,
            from: node as u8,
            to: node as u8,
        };
        sum += u128::from(number_of(counts, counted));
    }
    sum
}

// What others moved to a node.
fn sum_to(counts: &[Count], term: u8, to: u8) -> u128
    ensures value { result ≡ sum_others node_numbers to
        (λ from. number_of counts.now (Shifts term from to)) }
    ensures small { result ≤ 256 * 2 ^ 64 }
{
    let mut sum = 0u128;
    for node in 0..nodes_counted(counts) {
        let from = node as u8;
        if from != to {
            sum += u128::from(number_of(counts, Counted::Shifts { term, from, to }));
        }
    }
    sum
}

// What a node moved to others.
fn sum_from(counts: &[Count], term: u8, from: u8) -> u128
    ensures value { result ≡ sum_others node_numbers from
        (λ to. number_of counts.now (Shifts term from to)) }
    ensures small { result ≤ 256 * 2 ^ 64 }
{
    let mut sum = 0u128;
    for node in 0..nodes_counted(counts) {
        let to = node as u8;
        if to != from {
            sum += u128::from(number_of(counts, Counted::Shifts { term, from, to }));
        }
    }
    sum
}

/// The rights of a node to execute a term of this count, which the setter had whole.
pub(crate) fn rights_in(counts: &[Count], term: u8, setter: u8, count: u64, node: u8) -> i128
    ensures { result ≡ rights (budget_in (number_of counts.now) term setter count) node }
{
    let own = if node == setter { u128::from(count) } else { 0 };
    let granted = number_of(
        counts,
        Counted::Shifts {
            term,
            from: node,
            to: node,
        },
    );
    let given = own + u128::from(granted) + sum_to(counts, term, node);
    let spent = u128::from(number_of(counts, Counted::Execs { term, node }));
    let gone = sum_from(counts, term, node) + spent;
    given as i128 - gone as i128
}

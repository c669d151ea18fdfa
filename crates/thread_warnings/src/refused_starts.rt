//! Lines whose calls a node refused before its workers.

ghost use Rattle.std.specs.Prelude.{◌≡◌, ◌++◌, IfOk, OnOk};
ghost use Rattle.thread_warnings.specs.RefusedStarts.{AreByPlace, held_at, refused_starts, refused_sum};
ghost use Rattle.thread_warnings.specs.RefusedStarts.{start_refused, with_fault};

use crate::unfit::say_unfit;
use node_calls::NodeFault;
use std::alloc::{AllocError, Global};
use thread_plans::{MOST_NAMED, say_count};
use warnings::Warnings;

fn held_at(faults: &[Option<NodeFault>], place: usize) -> Option<NodeFault>
    ensures { result ≡ held_at faults.now place }
{
    match faults.get(place) {
        Some(fault) => *fault,
        None => None,
    }
}

// Keeps why the call of the line at a place was refused, unless that is told.
fn put_fault(faults: &mut Vec<Option<NodeFault>>, place: usize, fault: NodeFault)
    ensures { faults.new.items ≡ with_fault faults.old.items (place, fault) }
{
    if place >= faults.len() || held_at(faults, place).is_some() {
        return;
    }
    faults[place] = Some(fault);
}

// Why the calls of so many lines were refused, by the places of the lines.
fn faults_by_place(
    alloc: Global,
    lines: usize,
    refused: &[(usize, NodeFault)],
) -> Result<Vec<Option<NodeFault>>, AllocError>
    ensures { IfOk result (λ faults. AreByPlace lines refused.now faults.items) }
{
    let mut faults = vec![in alloc; None; lines]?;
    for numbered in refused {
        put_fault(&mut faults, numbered.0, numbered.1);
    }
    Ok(faults)
}

// Says why the call of a line was refused, if it was and not so many lines are named already.
fn say_start(
    alloc: Global,
    named: usize,
    number: u32,
    fault: Option<NodeFault>,
    said: &mut Warnings,
) -> Result<(), AllocError>
    ensures { OnOk result (said.new ≡ said.old ++ start_refused named number fault) }
{
    if named < MOST_NAMED as usize {
        say_unfit(alloc, number, fault, said)
    } else {
        Ok(())
    }
}

// Says how many lines were refused, where not all were named.
fn say_sum(alloc: Global, named: usize, said: &mut Warnings) -> Result<(), AllocError>
    ensures { OnOk result (said.new ≡ said.old ++ refused_sum named) }
{
    if named <= MOST_NAMED as usize {
        return Ok(());
    }
    say_count(alloc, "rejected start lines: ", named as u128, said)
}

/// Says of each `start` line whose call was refused why, in the order of the lines, which have these
/// numbers: of 20 lines at most, and then how many they are.
#[tactic(auto, unfolding(crate::specs::RefusedStarts::refused_starts))]
pub(crate) fn say_refused_starts(
    alloc: Global,
    numbers: &[u32],
    refused: &[(usize, NodeFault)],
    said: &mut Warnings,
) -> Result<(), AllocError>
    ensures { OnOk result (said.new
        ≡ said.old ++ refused_starts numbers.now refused.now) }
{
    let faults = faults_by_place(alloc, numbers.len(), refused)?;
    let mut place = 0usize;
    let mut named = 0usize;
    for number in numbers {
        let fault = held_at(&faults, place);
        say_start(alloc, named, *number, fault, said)?;
        named += usize::from(fault.is_some());
        place += 1;
    }
    say_sum(alloc, named, said)
}

//! Calls of workers that were refused.

ghost use Rattle.std.specs.Prelude.{◌≡◌, ◌++◌, IfOk, OnOk};
ghost use Rattle.std.specs.List.{flat_map};
ghost use Rattle.thread_workers.specs.Calls.{faults_in, faults_told};

use node_core::NodeFault;
use node_registry::{Done, Label};
use std::alloc::{AllocError, Global};

fn push_faults(faults: &[(u32, NodeFault)], all: &mut Vec<NodeFault>) -> Result<(), AllocError>
    ensures { OnOk result (all.new.items ≡ all.old.items ++ faults_in faults.now) }
{
    for numbered in faults {
        all.push(numbered.1)?;
    }
    Ok(())
}

/// Why calls of workers were refused, in the order of the workers and of each worker's calls.
pub(crate) fn faults_of<L: Label>(
    alloc: Global,
    dones: &[Done<L>],
) -> Result<Vec<NodeFault>, AllocError>
    ensures { IfOk result (λ all. all.items ≡ flat_map (λ d. faults_told d) dones.now) }
{
    let mut all = Vec::new(alloc);
    for done in dones {
        push_faults(&done.faults, &mut all)?;
    }
    Ok(all)
}

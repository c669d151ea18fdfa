//! An audit of workers of two nodes that run while the nodes gossip.

use super::*;
use audit::{AuditFault, AuditYes, audit};
use node_core::PassReply;
use std::thread::Threads;
use thread_scripts::{Played, play, read_plan};

/// Four workers pass a point with five rights, of which two were moved to the other node.
const SCRIPT: &str = "\
nodes 2 100000
seed 0000000000000000000000000000000000000000000000000000000000000000
start set 0 p 5*off
start spread 0 p
gossip 20
worker 0
pass p 100
worker 0
pass p 100
worker 1
pass p 100
worker 1
pass p 100
";

// Runs the script, without the contract of `play`.
fn played<R: Threads + Wait + Sync>(rt: &R, alloc: Global) -> Result<Played, Fail> {
    let plan = read_plan(alloc, SCRIPT.as_bytes())?;
    Ok(play(rt, alloc, &plan)?)
}

// Audits a run, without the contract of `audit`.
fn audited(
    alloc: Global,
    traces: &[Trace],
    lists: &[Vec<Receipt>],
) -> Result<AuditYes, AuditFault> {
    audit(alloc, 2, traces, lists)
}

// Whether a reply says that the first term was triggered.
fn is_act(reply: &Reply) -> bool {
    matches!(reply, Reply::Pass(PassReply::Act { term: 0, .. }))
}

fn acts_in(list: &[Receipt]) -> u128 {
    list.iter()
        .filter(|receipt| is_act(&receipt.entry.reply))
        .count() as u128
}

// The number of receipts that say that the first term was triggered.
fn acts_told(lists: &[Vec<Receipt>]) -> u128 {
    let mut acts = 0u128;
    for list in lists {
        acts = acts.saturating_add(acts_in(list));
    }
    acts
}

// Changes the term of a reply that says that one was triggered. Returns whether the reply does.
fn is_altered(reply: &mut Reply) -> bool {
    if let Reply::Pass(PassReply::Act { term, .. }) = reply {
        *term = 1;
        return true;
    }
    false
}

// Alters the first receipt of a triggered term.
fn alter(lists: &mut [Vec<Receipt>]) {
    for list in lists.iter_mut() {
        for receipt in list.iter_mut() {
            if is_altered(&mut receipt.entry.reply) {
                return;
            }
        }
    }
}

// The number of executions that an audit counted.
fn executed(verdict: &Result<AuditYes, AuditFault>) -> Result<u128, AuditFault> {
    match verdict {
        Ok(yes) => Ok(yes.totals.first().map_or(0, |total| total.executed)),
        Err(fault) => Err(*fault),
    }
}

#[test]
fn workers_under_audit(rt: HostRuntime) -> Result<(), Fail> {
    let Played {
        traces,
        mut lists,
        ..
    } = played(&rt, rt.alloc())?;
    let acts = acts_told(&lists);
    expect(
        &rt,
        &executed(&audited(rt.alloc(), &traces, &lists)),
        &Ok(acts),
    );
    expect(&rt, &(acts > 0 && acts <= 5), &true);
    alter(&mut lists);
    let found = executed(&audited(rt.alloc(), &traces, &lists));
    expect(&rt, &found, &Err(AuditFault::ReceiptDiffers));
    Ok(())
}

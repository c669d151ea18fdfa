//! Audits: which schedule explains what nodes did, what it adds up to, and why there is none.

use super::*;
use actions::Task;
use audit::{AuditFault, AuditYes, audit, verdict_text};
use node_core::PassReply;

/// What a call was answered.
#[derive(Clone, Copy)]
enum Answer {
    Set,
    /// The term that was triggered, whose task is `off`.
    Act(u8),
    NoTerm,
    Emit(&'static [u8]),
    Deliver(bool),
}

/// A call without random draws, and what it was answered.
type Call = (AskRef<'static>, Answer);

const SET: Call = (
    AskRef::Set {
        name: "a",
        text: "1*off",
    },
    Answer::Set,
);

const PASS: AskRef<'static> = AskRef::Pass { name: "a" };

const ACT: Call = (PASS, Answer::Act(0));

const ACT_ON_ANOTHER_TERM: Call = (PASS, Answer::Act(1));

const NO_TERM: Call = (PASS, Answer::NoTerm);

/// Node 0 tells that it set `a` to `off`.
const TELLS_OFF: &[u8] = b"FPG1\x00\x01\
    \x00\x00\x00\x00\x00\x00\x00\x00\
    \x00\x00\x00\x00\x00\x00\x00\x01\
    \x00\x00\x00\x00\x00\x00\x00\x00\
    \x00\x01\x01a\
    \x00\x00\x00\x00\x00\x00\x00\x01\x00\
    \x01\x00\x03off\x00\x00\x00\x00\x00";

const HEAR_OFF: Call = (
    AskRef::Deliver { message: TELLS_OFF },
    Answer::Deliver(true),
);

/// What node 0 tells node 1 before it knows anything.
const NOTHING: &[u8] = b"FPG1\x00\x01\
    \x00\x00\x00\x00\x00\x00\x00\x00\
    \x00\x00\x00\x00\x00\x00\x00\x00\
    \x00\x00\x00\x00\x00\x00\x00\x00\x00\x00";

const TELL_1: Call = (AskRef::Emit { to: 1 }, Answer::Emit(NOTHING));

const HEAR_0: Call = (AskRef::Deliver { message: NOTHING }, Answer::Deliver(false));

const TELL_0: Call = (AskRef::Emit { to: 0 }, Answer::Emit(EMPTY));

const HEAR_1: Call = (AskRef::Deliver { message: EMPTY }, Answer::Deliver(false));

/// The receipt of a call: its node, its place in that node's trace, and the call.
type Held = (u8, u64, Call);

const SET_HELD: Held = (0, 0, SET);

const ACT_HELD: Held = (0, 1, ACT);

/// How many nodes there are, the calls of each, the receipts of each caller, and what the audit says:
/// a schedule and its totals, or why there is none.
struct Row {
    nodes: u8,
    traces: &'static [&'static [Call]],
    lists: &'static [&'static [Held]],
    verdict: &'static str,
}

const NO_CALLS: &[Call] = &[];

const ONE_PASS: &[&[Call]] = &[&[SET, ACT], NO_CALLS];

const ROWS: &[Row] = &[
    Row {
        nodes: 2,
        traces: ONE_PASS,
        lists: &[&[SET_HELD, ACT_HELD]],
        verdict: "[(0, 0), (0, 1)] audit yes\nbudget a 1.0 0 count=1 executed=1\n",
    },
    Row {
        nodes: 2,
        traces: ONE_PASS,
        lists: &[&[SET_HELD, (0, 1, ACT_ON_ANOTHER_TERM)]],
        verdict: "audit no X4 ReceiptDiffers\n",
    },
    Row {
        nodes: 2,
        traces: ONE_PASS,
        lists: &[&[SET_HELD, ACT_HELD, ACT_HELD]],
        verdict: "audit no X5 ReceiptTwice\n",
    },
    Row {
        nodes: 2,
        traces: ONE_PASS,
        lists: &[&[SET_HELD]],
        verdict: "audit no X6 ReceiptMissing\n",
    },
    Row {
        nodes: 2,
        traces: ONE_PASS,
        lists: &[&[ACT_HELD, SET_HELD]],
        verdict: "audit no X8 OutOfOrder list=0 place=1\n",
    },
    // Of two callers, who never met, nobody knows who came first.
    Row {
        nodes: 2,
        traces: ONE_PASS,
        lists: &[&[ACT_HELD], &[SET_HELD]],
        verdict: "[(0, 0), (0, 1)] audit yes\nbudget a 1.0 0 count=1 executed=1\n",
    },
    Row {
        nodes: 2,
        traces: &[&[SET, NO_TERM], NO_CALLS],
        lists: &[&[SET_HELD, ACT_HELD]],
        verdict: "audit no X2 WrongReply node=0 index=1\n",
    },
    // Node 1 took in what node 0 never told.
    Row {
        nodes: 2,
        traces: &[&[SET, ACT], &[HEAR_OFF]],
        lists: &[&[SET_HELD, ACT_HELD]],
        verdict: "audit no X3 Stuck node=1 index=0\n",
    },
    Row {
        nodes: 2,
        traces: &[&[SET, ACT]],
        lists: &[&[SET_HELD, ACT_HELD]],
        verdict: "audit no X1 BadConfig\n",
    },
    // Each took in what the other told only then.
    Row {
        nodes: 2,
        traces: &[&[HEAR_1, TELL_1], &[HEAR_0, TELL_0]],
        lists: &[],
        verdict: "audit no X3 Stuck node=0 index=0\n",
    },
    // Node 0 told first.
    Row {
        nodes: 2,
        traces: &[&[TELL_1, HEAR_1], &[HEAR_0, TELL_0]],
        lists: &[
            &[(0, 0, TELL_1), (0, 1, HEAR_1)],
            &[(1, 0, HEAR_0), (1, 1, TELL_0)],
        ],
        verdict: "[(0, 0), (1, 0), (1, 1), (0, 1)] audit yes\n",
    },
    Row {
        nodes: 33,
        traces: &[NO_CALLS; 33],
        lists: &[],
        verdict: "audit no X1 BadConfig\n",
    },
    Row {
        nodes: 32,
        traces: &[NO_CALLS; 32],
        lists: &[],
        verdict: "[] audit yes\n",
    },
    Row {
        nodes: 0,
        traces: &[],
        lists: &[],
        verdict: "audit no X1 BadConfig\n",
    },
];

fn reply(alloc: Global, answer: Answer) -> Result<Reply, AllocError> {
    let stamp = Stamp { clock: 1, node: 0 };
    Ok(match answer {
        Answer::Set => Reply::Set(stamp),
        Answer::Act(term) => Reply::Pass(PassReply::Act {
            term,
            stamp,
            task: Task::Off,
        }),
        Answer::NoTerm => Reply::Pass(PassReply::NoTerm { stamp }),
        Answer::Emit(message) => Reply::Emit(Vec::from_slice(alloc, message)?),
        Answer::Deliver(changed) => Reply::Deliver(changed),
    })
}

fn entry(alloc: Global, (ask, answer): Call) -> Result<Entry, AllocError> {
    Ok(Entry {
        ask: ask.copied(alloc)?,
        words: Vec::new(alloc),
        reply: reply(alloc, answer)?,
    })
}

fn trace(alloc: Global, calls: &[Call]) -> Result<Trace, AllocError> {
    let mut entries = Vec::new(alloc);
    for call in calls {
        entries.push(entry(alloc, *call)?)?;
    }
    Trace::of_entries(alloc, entries)
}

fn traces(alloc: Global, nodes: &[&[Call]]) -> Result<Vec<Trace>, AllocError> {
    let mut traces = Vec::new(alloc);
    for calls in nodes {
        traces.push(trace(alloc, calls)?)?;
    }
    Ok(traces)
}

fn receipts(alloc: Global, held: &[Held]) -> Result<Vec<Receipt>, AllocError> {
    let mut receipts = Vec::new(alloc);
    for (node, index, call) in held {
        receipts.push(Receipt {
            node: *node,
            index: *index,
            entry: entry(alloc, *call)?,
        })?;
    }
    Ok(receipts)
}

fn lists(alloc: Global, callers: &[&[Held]]) -> Result<Vec<Vec<Receipt>>, AllocError> {
    let mut lists = Vec::new(alloc);
    for held in callers {
        lists.push(receipts(alloc, held)?)?;
    }
    Ok(lists)
}

// An audit, without what its contract says.
fn audited(
    alloc: Global,
    nodes: u8,
    traces: &[Trace],
    lists: &[Vec<Receipt>],
) -> Result<AuditYes, AuditFault> {
    audit(alloc, nodes, traces, lists)
}

// The schedule that an audit found, and what it says.
fn verdict(
    alloc: Global,
    nodes: u8,
    traces: &[Trace],
    lists: &[Vec<Receipt>],
) -> Result<String, AllocError> {
    let found = audited(alloc, nodes, traces, lists);
    let text = verdict_text(alloc, &found)?;
    match &found {
        Ok(AuditYes { order, .. }) => format!(in alloc; "{order:?} {text}"),
        Err(_) => Ok(text),
    }
}

// Ends the test where an audit says something else.
fn expect_verdict(rt: &impl Abort, alloc: Global, row: &Row) -> Result<(), AllocError> {
    let traces = traces(alloc, row.traces)?;
    let lists = lists(alloc, row.lists)?;
    let found = verdict(alloc, row.nodes, &traces, &lists)?;
    expect(rt, &found.as_str(), &row.verdict);
    Ok(())
}

#[test]
fn audits_say_which_schedule_there_is(rt: HostRuntime) -> Result<(), Fail> {
    for row in ROWS {
        expect_verdict(&rt, rt.alloc(), row)?;
    }
    Ok(())
}

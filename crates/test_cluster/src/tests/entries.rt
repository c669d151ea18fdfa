//! What `apply` gives: a copy of the entry that a call makes in the trace.

use super::fleet::new_node;
use super::*;

/// What a node is asked, with its random draws, and the entry or the fault in print.
type Row = (AskRef<'static>, &'static [u32], &'static str);

const PASS: AskRef<'static> = AskRef::Pass { name: "p" };

const PRINTED: &str =
    "Ok(Entry { ask: Pass { name: \"p\" }, words: [0], reply: Pass(Act { term: 0, \
     stamp: Stamp { clock: 1, node: 0 }, task: Print(Some(\"still alive!\")) }) })";

/// A count of three runs out.
const COUNT_OF_THREE: &[Row] = &[
    (
        AskRef::Set {
            name: "p",
            text: "20%3*print(still alive!)->panic",
        },
        &[],
        "Ok(Entry { ask: Set { name: \"p\", text: \"20%3*print(still alive!)->panic\" }, words: [], \
         reply: Set(Stamp { clock: 1, node: 0 }) })",
    ),
    (PASS, &[0], PRINTED),
    (PASS, &[0], PRINTED),
    (PASS, &[0], PRINTED),
    (
        PASS,
        &[0],
        "Ok(Entry { ask: Pass { name: \"p\" }, words: [0], reply: Pass(Act { term: 1, \
         stamp: Stamp { clock: 1, node: 0 }, task: Panic(None) }) })",
    ),
    (PASS, &[], "Err(BadWords { need: 1 })"),
    // No other call takes draws.
    (
        AskRef::Remove { name: "p" },
        &[0],
        "Err(BadWords { need: 0 })",
    ),
];

// A call by `apply`, without what its contract says.
fn applied(
    alloc: Global,
    node: &mut NodeCore,
    ask: &Ask,
    words: &[u32],
) -> Result<Entry, NodeFault> {
    node.apply(alloc, ask, words)
}

// A call's entry or fault, in print.
fn applied_text(
    alloc: Global,
    node: &mut NodeCore,
    ask: AskRef<'_>,
    words: &[u32],
) -> Result<String, AllocError> {
    let ask = ask.copied(alloc)?;
    let found = applied(alloc, node, &ask, words);
    in_print(alloc, &found)
}

#[test]
fn calls_are_told_as_their_entries(rt: HostRuntime) -> Result<(), Fail> {
    let mut node = new_node(rt.alloc(), 0, 1)?;
    for (place, (ask, words, wanted)) in COUNT_OF_THREE.iter().enumerate() {
        let found = applied_text(rt.alloc(), &mut node, *ask, words)?;
        expect(&rt, &(place, found.as_str()), &(place, *wanted));
    }
    Ok(())
}

// The entries that a node keeps, in print.
fn trace_text(alloc: Global, node: &NodeCore) -> Result<String, AllocError> {
    let entries = node.trace().to_entries(alloc)?;
    in_print(alloc, &entries)
}

#[test]
fn a_trace_keeps_the_accepted_calls(rt: HostRuntime) -> Result<(), Fail> {
    let mut node = new_node(rt.alloc(), 0, 1)?;
    for (ask, words, _) in COUNT_OF_THREE {
        applied_text(rt.alloc(), &mut node, *ask, words)?;
    }
    let found = trace_text(rt.alloc(), &node)?;
    let wanted = wanted_trace(rt.alloc())?;
    expect(&rt, &found, &wanted);
    Ok(())
}

// The entries of the table, in print as a list.
fn wanted_trace(alloc: Global) -> Result<String, AllocError> {
    let mut text = String::from_str(alloc, "[")?;
    for (_, _, wanted) in COUNT_OF_THREE {
        push_entry(&mut text, wanted)?;
    }
    text.push_str("]")?;
    Ok(text)
}

// Adds an entry to a list in print. A fault adds none.
fn push_entry(text: &mut String, wanted: &str) -> Result<(), AllocError> {
    let Some(entry) = wanted.strip_prefix("Ok(") else {
        return Ok(());
    };
    let Some(entry) = entry.strip_suffix(")") else {
        return Ok(());
    };
    if text.len() > 1 {
        text.push_str(", ")?;
    }
    text.push_str(entry)
}

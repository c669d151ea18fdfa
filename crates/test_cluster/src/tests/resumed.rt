//! A node that is made again of its calls.

use super::*;

const FIRST_OF_EIGHT: Config = Config {
    node: 0,
    nodes: 2,
    trace_cap: 8,
};

/// Calls that the node accepts, of most kinds, with their random draws.
const CALLS: &[(AskRef<'static>, &[u32])] = &[
    (
        AskRef::Set {
            name: "p",
            text: "50%2*print(x)->off",
        },
        &[],
    ),
    (AskRef::Pass { name: "p" }, &[0]),
    (AskRef::Pass { name: "p" }, &[u32::MAX]),
    (
        AskRef::Grant {
            name: "p",
            term: 0,
            amount: 1,
        },
        &[],
    ),
    (
        AskRef::Shift {
            name: "p",
            term: 0,
            to: 1,
            amount: 1,
        },
        &[],
    ),
    (AskRef::Emit { to: 1 }, &[]),
    (
        AskRef::Load {
            text: "q=off;r=3*panic",
        },
        &[],
    ),
    (AskRef::Remove { name: "p" }, &[]),
];

// A call that is accepted, without what its contract says.
fn accept(
    alloc: Global,
    node: &mut NodeCore,
    ask: AskRef<'_>,
    words: &[u32],
) -> Result<(), NodeFault> {
    node.call(alloc, ask, words)?;
    Ok(())
}

fn node_of_eight(alloc: Global) -> Result<NodeCore, NodeFault> {
    let mut node = NodeCore::new(alloc, FIRST_OF_EIGHT)?;
    for (ask, words) in CALLS {
        accept(alloc, &mut node, *ask, words)?;
    }
    Ok(node)
}

// The points of the node that calls come to, or why they come to none.
fn resumed_text(alloc: Global, config: Config, calls: &Trace) -> Result<String, AllocError> {
    match NodeCore::resume(alloc, config, calls) {
        Ok(node) => node.list(alloc),
        Err(fault) => format!(in alloc; "{fault}"),
    }
}

// A node, how many calls it accepts, and what comes of these.
const ROWS: &[(u8, u64, &str)] = &[
    (0, 8, "q=off;r=3*panic"),
    (0, 7, "N23 Differs index=7"),
    (1, 8, "N23 Differs index=0"),
    (2, 8, "N21 BadConfig"),
];

// Ends the test where something else comes of calls.
fn expect_resumed(rt: &impl Abort, alloc: Global, calls: &Trace) -> Result<(), AllocError> {
    for (node, trace_cap, wanted) in ROWS {
        let config = Config {
            node: *node,
            nodes: 2,
            trace_cap: *trace_cap,
        };
        let found = resumed_text(alloc, config, calls)?;
        expect(rt, &found.as_str(), wanted);
    }
    Ok(())
}

#[test]
fn a_node_is_made_of_its_own_calls_alone(rt: HostRuntime) -> Result<(), Fail> {
    let node = node_of_eight(rt.alloc())?;
    expect_resumed(&rt, rt.alloc(), node.trace())?;
    Ok(())
}

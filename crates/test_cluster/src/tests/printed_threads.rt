//! Scripts of threads, each with its whole output.

use super::*;
use scripts::{ScriptFault, Watched};
use std::thread::Threads;
use thread_scripts::run_threads;

/// A script, and its output or its error.
type Row = (&'static str, Result<&'static str, ScriptFault>);

const SCRIPTS: &[Row] = &[
    (
        "\
nodes 1 10
seed 0000000000000000000000000000000000000000000000000000000000000000
start set 0 a off
",
        Ok(
            "\
workers 0
calls 1
audit yes
",
        ),
    ),
    // One node has two workers.
    (
        "\
nodes 1 100
seed 0000000000000000000000000000000000000000000000000000000000000000
start set 0 p 5*off
worker 0
pass p 4
worker 0
pass p 4
",
        Ok(
            "\
workers 2
calls 9
audit yes
budget p 1.0 0 count=5 executed=5
",
        ),
    ),
    // There is no second node.
    (
        "\
nodes 1 100
seed 0000000000000000000000000000000000000000000000000000000000000000
start set 0 p 5*off
worker 0
pass p 4
worker 1
pass p 4
",
        Err(ScriptFault::BadLine { line: 6 }),
    ),
    // A spread leaves the node four of its ten rights, and a grant adds two.
    (
        "\
nodes 3 100
seed 0000000000000000000000000000000000000000000000000000000000000000
start set 0 p 10*off
start spread 0 p
start grant 0 p 0 2
worker 0
pass p 20
",
        Ok(
            "\
workers 1
calls 24
audit yes
budget p 1.0 0 count=10 granted=2 executed=6
",
        ),
    ),
    // A worker makes each other kind of call.
    (
        "\
nodes 2 100
seed 0000000000000000000000000000000000000000000000000000000000000000
gossip 0
worker 1
set a off
remove a
load b=off;c=2*off
shift c 0 0 1
grant c 0 1
",
        Ok(
            "\
workers 1
calls 5
audit yes
budget c 4.1 0 count=2 granted=1 executed=0
",
        ),
    ),
    // The script has no seed.
    ("nodes 1 10\n", Err(ScriptFault::BadLine { line: 2 })),
];

// Runs a script, and returns its output and its result.
fn printed<R: Threads + Wait + Sync>(
    rt: &R,
    alloc: Global,
    script: &str,
) -> (Vec<u8>, Result<(), ScriptFault>) {
    let mut out = Vec::new(alloc);
    let mut reader = Watched::new(script.as_bytes());
    let mut writer = Watched::new(&mut out);
    let ended = run_threads(rt, alloc, &mut reader, &mut writer);
    (out, ended)
}

// Ends the test if a script has another output or result. A rejected script prints nothing.
fn expect_printed<R: Abort + Threads + Wait + Sync>(rt: &R, alloc: Global, (script, wanted): Row) {
    let (out, ended) = printed(rt, alloc, script);
    let wanted = match wanted {
        Ok(text) => (Ok(text), Ok(())),
        Err(fault) => (Ok(""), Err(fault)),
    };
    expect(rt, &(str::from_utf8(&out), ended), &wanted);
}

#[test]
fn threads_print_what_they_came_to(rt: HostRuntime) {
    for row in SCRIPTS {
        expect_printed(&rt, rt.alloc(), *row);
    }
}

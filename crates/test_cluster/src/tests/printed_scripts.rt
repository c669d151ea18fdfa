//! Scripts, each with all that it prints.

use super::*;
use scripts::{ScriptFault, Watched, run_script};

/// A script, and what it prints.
const SCRIPTS: &[(&str, &str)] = &[
    // A trace that is full, a node that isn't there, and a line of no form.
    (
        "\
nodes 1 2
set 0 a off
pass 0 a
pass 0 a
list 0
set 1 a off
fly
",
        "\
set 1.0
act 1.0 0 off
refused N1 TraceFull
a=off
refused NoNode
bad line
",
    ),
    (
        "\
nodes 1 2
set 0 a off
pass 0 a
remove 0 a
list 0
",
        "\
set 1.0
act 1.0 0 off
refused N1 TraceFull
a=off
",
    ),
    // A load sets all or none.
    (
        "\
nodes 1 100
load 0 ;a=off; ;b=2*return()
list 0
load 0 a=off;b=bad
list 0
load 0 
",
        "\
loaded 2
a=off;b=2*return()
refused N3 BadActions S4 BadActions entry=1 A7 UnknownTask term=0
a=off;b=2*return()
loaded 0
",
    ),
    // A count of three runs out, and the next term follows.
    (
        "\
nodes 1 100
set 0 p 20%3*print(still alive!)->panic
pass 0 p 0
pass 0 p 0
pass 0 p 0
pass 0 p 0
rights 0 p 0 0
spent 0 p 0
hits 0 p
pass 0 p
list 0
",
        "\
set 1.0
act 1.0 0 print(still alive!)
act 1.0 0 print(still alive!)
act 1.0 0 print(still alive!)
act 1.0 1 panic
0
3
4
refused N14 BadWords need=1
p=20%3*print(still alive!)->panic
",
    ),
    // Rights stay with the node that set the point, until it moves one.
    (
        "\
nodes 2 100
set 0 a 2*off
emit 0 1
deliver 1 0
pass 1 a
rights 0 a 0 0
rights 1 a 0 1
shift 0 a 0 1 1
emit 0 1
deliver 1 1
deliver 1 1
pass 1 a
pass 1 a
report 1
",
        "\
set 1.0
message 0
changed
none 1.0
2
0
shifted 1
message 1
changed
same
act 1.0 0 off
none 1.0
point a 1.0 2*off
hits 0=0 1=3 total=3
term 0 count=2 spent=1 rights 0=1 1=0
",
    ),
    // A node that hasn't heard of a later setting goes on under the one before.
    (
        "\
nodes 2 100
set 0 p 3*panic
shift 0 p 0 1 1
emit 0 1
deliver 1 0
pass 0 p
set 0 p off
pass 0 p
pass 1 p
pass 1 p
",
        "\
set 1.0
shifted 1
message 0
changed
act 1.0 0 panic
set 2.0
act 2.0 0 off
act 1.0 0 panic
none 1.0
",
    ),
    // Two settings at once: the greater stamp stays.
    (
        "\
nodes 2 100
set 0 a off
set 1 a panic
emit 0 1
emit 1 0
deliver 1 0
deliver 0 1
list 0
list 1
",
        "\
set 1.0
set 1.1
message 0
message 1
same
changed
a=panic
a=panic
",
    ),
    // A setting comes once more after a removal that knew it.
    (
        "\
nodes 2 100
set 0 a off
emit 0 1
deliver 1 0
pass 1 a
remove 1 a
deliver 1 0
list 1
pass 1 a
hits 1 a
emit 1 0
deliver 0 1
list 0
",
        "\
set 1.0
message 0
changed
act 1.0 0 off
removed 2.1
same

unset
1
message 1
changed

",
    ),
    // What a cluster and its nodes refuse.
    (
        "\
nodes 2 100
set 0 a 2*off
shift 0 a 0 1 0
shift 0 a 0 1 3
shift 0 a 0 0 1
shift 0 a 1 1 1
shift 0 b 0 1 0
set 0 c off
shift 0 c 0 1 1
set 0 bad! off
pass 0 a 7
emit 0 1
deliver 0 0
deliver 1 5
set 2 a off
",
        "\
set 1.0
refused N10 ZeroAmount
refused N11 TooFewRights have=2
refused N9 BadNode
refused N7 NoSuchTerm
refused N6 NotSet
set 2.0
refused N8 NotCounted
refused N2 BadName
refused N14 BadWords need=0
message 0
refused N17 NotForMe
refused NoMessage
refused NoNode
",
    ),
    // The greatest amount, there and back.
    (
        "\
nodes 2 100
set 0 a 18446744073709551615*off
shift 0 a 0 1 18446744073709551615
emit 0 1
deliver 1 0
shift 1 a 0 0 18446744073709551615
emit 1 0
deliver 0 1
shift 0 a 0 1 1
pass 0 a
",
        "\
set 1.0
shifted 18446744073709551615
message 0
changed
shifted 18446744073709551615
message 1
changed
refused N12 CellFull
act 1.0 0 off
",
    ),
    // Rights go from node to node.
    (
        "\
nodes 3 100
set 0 p 5*off
shift 0 p 0 1 2
emit 0 1
deliver 1 0
shift 1 p 0 2 1
pass 1 p
emit 1 2
deliver 2 1
pass 2 p
pass 2 p
emit 2 0
deliver 0 2
deliver 0 2
spent 0 p 0
hits 0 p
rights 0 p 0 0
rights 0 p 0 1
rights 0 p 0 2
",
        "\
set 1.0
shifted 2
message 0
changed
shifted 1
act 1.0 0 off
message 1
changed
act 1.0 0 off
none 1.0
message 2
changed
same
2
3
3
0
0
",
    ),
    // A grant, and what is refused of grants.
    (
        "\
nodes 2 100
set 0 a 2*off
emit 0 1
deliver 1 0
pass 1 a
grant 1 a 0 3
pass 1 a
emit 1 0
deliver 0 1
report 0
grant 0 a 0 0
grant 0 a 1 1
grant 0 b 0 1
grant 1 a 0 18446744073709551613
",
        "\
set 1.0
message 0
changed
none 1.0
granted 3
act 1.0 0 off
message 1
changed
point a 1.0 2*off
hits 0=0 1=2 total=2
term 0 count=2 granted=3 spent=1 rights 0=2 1=2
refused N10 ZeroAmount
refused N7 NoSuchTerm
refused N6 NotSet
refused N12 CellFull
",
    ),
    // The greatest cluster.
    (
        "\
nodes 32 100
set 31 a 2*off
shift 31 a 0 0 1
emit 31 0
deliver 0 0
pass 0 a
pass 0 a
",
        "\
set 1.31
shifted 1
message 0
changed
act 1.31 0 off
none 1.31
",
    ),
    ("nodes 17 5\n", ""),
    ("nodes 33 5\n", "refused N21 BadConfig\n"),
];

// What a script prints.
fn printed(alloc: Global, script: &str) -> Result<Vec<u8>, ScriptFault> {
    let mut out = Vec::new(alloc);
    let mut reader = Watched::new(script.as_bytes());
    let mut writer = Watched::new(&mut out);
    run_script(alloc, &mut reader, &mut writer)?;
    Ok(out)
}

// Ends the test where a script prints something else.
fn expect_printed(
    rt: &impl Abort,
    alloc: Global,
    script: &str,
    wanted: &str,
) -> Result<(), ScriptFault> {
    let found = printed(alloc, script)?;
    expect(rt, &str::from_utf8(&found), &Ok(wanted));
    Ok(())
}

#[test]
fn scripts_print_their_answers(rt: HostRuntime) -> Result<(), Fail> {
    for (script, wanted) in SCRIPTS {
        expect_printed(&rt, rt.alloc(), script, wanted)?;
    }
    Ok(())
}

// A script of a node that loads 256 points, and then is asked for one more and for one that it has.
fn script_of_many_points(alloc: Global) -> Result<String, AllocError> {
    let points = many_points(alloc)?;
    format!(in alloc; "nodes 1 100\nload 0 {points}\nset 0 q off\nset 0 p0 yield\n")
}

#[test]
fn a_node_holds_256_points(rt: HostRuntime) -> Result<(), Fail> {
    let script = script_of_many_points(rt.alloc())?;
    let wanted = "loaded 256\nrefused N4 TooManyPoints\nset 257.0\n";
    expect_printed(&rt, rt.alloc(), &script, wanted)?;
    Ok(())
}

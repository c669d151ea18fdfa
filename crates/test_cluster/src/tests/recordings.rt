//! A recording of a node behind a lock has its trace and its receipts; a journal has its trace alone.
//! What is read back passes an audit.

ghost use Rattle.std.specs.Prelude.{◌≡◌, replicate};

use super::*;
use audit::{audit, verdict_text};
use drills::{
    Drill, DrillFault, Part, PartHead, entry_in, entry_text, joined, part_head_in, part_head_text,
    read_drill, read_part, write_drill, write_part,
};
use scripts::Watched;
use std::io::BufReader;

/// Calls of the first of two nodes. The pass draws the first word of ChaCha8 with a seed of zeros on
/// stream 0. The published bytes of that word are 3e00ef2f.
const CALLS: &[AskRef<'static>] = &[
    AskRef::Set {
        name: "p",
        text: "20%3*print(hi)->panic",
    },
    AskRef::Pass { name: "p" },
];

const DRILL: &str = r#"{"failreg":"drill","version":1}
{"trace":0}
{"ask":["set","p","20%3*print(hi)->panic"],"reply":["set",1,0],"words":[]}
{"ask":["pass","p"],"reply":["act",1,0,0,["print","hi"]],"words":[804192318]}
{"trace":1}
{"list":0}
{"ask":["set","p","20%3*print(hi)->panic"],"index":0,"node":0,"reply":["set",1,0],"words":[]}
{"ask":["pass","p"],"index":1,"node":0,"reply":["act",1,0,0,["print","hi"]],"words":[804192318]}
{"list":1}
"#;

const VERDICT: &str = "audit yes\nbudget p 1.0 0 count=3 executed=1\n";

/// The journal of each node, the last node first.
const PARTS: &[(u8, &str)] = &[
    (
        1,
        r#"{"cap":100,"failreg":"part","node":1,"nodes":2,"run":"today","version":1}
"#,
    ),
    (
        0,
        r#"{"cap":100,"failreg":"part","node":0,"nodes":2,"run":"today","version":1}
{"ask":["set","p","20%3*print(hi)->panic"],"reply":["set",1,0],"words":[]}
{"ask":["pass","p"],"reply":["act",1,0,0,["print","hi"]],"words":[804192318]}
"#,
    ),
];

fn entered<L: Label, R: Wait>(
    rt: &R,
    alloc: Global,
    registry: &Registry<L>,
    seat: &mut Seat<L>,
    ask: AskRef<'_>,
) -> Result<Receipt, NodeFault> {
    let ask = ask.copied(alloc)?;
    registry.enter(rt, alloc, seat, &ask)
}

fn receipts_of<L: Label, R: Wait>(
    rt: &R,
    alloc: Global,
    registry: &Registry<L>,
    seat: &mut Seat<L>,
) -> Result<Vec<Receipt>, NodeFault> {
    let mut receipts = Vec::new(alloc);
    for ask in CALLS {
        receipts.push(entered(rt, alloc, registry, seat, *ask)?)?;
    }
    Ok(receipts)
}

// The recording of two nodes. The second has made no call.
fn drill_of(alloc: Global, trace: Trace, receipts: Vec<Receipt>) -> Result<Drill, AllocError> {
    let (mut traces, mut lists) = (Vec::new(alloc), Vec::new(alloc));
    for trace in [trace, Trace::new(alloc)] {
        traces.push(trace)?;
    }
    for list in [receipts, Vec::new(alloc)] {
        lists.push(list)?;
    }
    Ok(Drill { traces, lists })
}

// Calls a new node behind a lock, closes it, and returns the recording.
fn recorded_at<L: Label, R: Wait>(rt: &R, alloc: Global, blank: Blank) -> Result<Drill, Fail>
    requires name { blank.name ≡ L.name }
    requires parts { (blank.parts ≡ L.parts) × (L.parts ≡ 1) }
    requires config { FIRST_OF_TWO ≡ L.config }
    requires seed { replicate 32 0 ≡ L.seed }
{
    let (registry, mut seat) = started::<L, R>(rt, alloc, blank, FIRST_OF_TWO)?;
    let receipts = receipts_of(rt, alloc, &registry, &mut seat)?;
    let closed = registry.close(one_seat(alloc, seat)?);
    Ok(drill_of(alloc, closed.trace, receipts)?)
}

fn recorded<R: Wait>(rt: &R, alloc: Global) -> Result<Drill, Fail> {
    recorded_at::<Brand, R>(rt, alloc, Blank::new(1))
}

// The text of a recording, without the contract of `write_drill`.
fn drill_text(alloc: Global, drill: &Drill) -> Result<Vec<u8>, DrillFault> {
    let mut out = Vec::new(alloc);
    let mut writer = Watched::new(&mut out);
    write_drill(alloc, &drill.traces, &drill.lists, &mut writer)?;
    Ok(out)
}

fn drill_in(alloc: Global, text: &[u8]) -> Result<Drill, DrillFault> {
    match BufReader::new(alloc, Watched::new(text)) {
        Ok(mut reader) => read_drill(alloc, &mut reader),
        Err(_) => Err(DrillFault::OutOfMemory),
    }
}

fn verdict(alloc: Global, drill: &Drill) -> Result<String, AllocError> {
    let found = audit(alloc, 2, &drill.traces, &drill.lists);
    verdict_text(alloc, &found)
}

#[test]
fn drill_of_a_node_behind_a_lock(rt: HostRuntime) -> Result<(), Fail> {
    let drill = recorded(&rt, rt.alloc())?;
    let text = drill_text(rt.alloc(), &drill)?;
    expect(&rt, &str::from_utf8(&text), &Ok(DRILL));
    let verdict = verdict(rt.alloc(), &drill_in(rt.alloc(), &text)?)?;
    expect(&rt, &verdict.as_str(), &VERDICT);
    Ok(())
}

fn head_of(alloc: Global, node: u8) -> Result<PartHead, AllocError> {
    let run = String::from_str(alloc, "today")?;
    let (nodes, cap) = (2, 100);
    Ok(PartHead {
        node,
        nodes,
        cap,
        run,
    })
}

// The text of a node's journal.
fn part_text(alloc: Global, node: u8, trace: &Trace) -> Result<Vec<u8>, DrillFault> {
    let head = head_of(alloc, node)?;
    let mut out = Vec::new(alloc);
    let mut writer = Watched::new(&mut out);
    write_part(alloc, &head, trace, &mut writer)?;
    Ok(out)
}

fn part_in(alloc: Global, text: &[u8]) -> Result<Part, DrillFault> {
    match BufReader::new(alloc, Watched::new(text)) {
        Ok(mut reader) => read_part(alloc, &mut reader),
        Err(_) => Err(DrillFault::OutOfMemory),
    }
}

// Ends the test if the journal of a node has another text. Returns the journal as it is read back.
fn expect_part(
    rt: &impl Abort,
    alloc: Global,
    node: u8,
    trace: &Trace,
    wanted: &str,
) -> Result<Part, DrillFault> {
    let text = part_text(alloc, node, trace)?;
    expect(rt, &str::from_utf8(&text), &Ok(wanted));
    part_in(alloc, &text)
}

// The journals of the nodes of a recording.
fn parts_of(rt: &impl Abort, alloc: Global, drill: &Drill) -> Result<Vec<Part>, Fail> {
    let mut parts = Vec::new(alloc);
    for (node, wanted) in PARTS {
        let trace = drill.traces.get(usize::from(*node)).ok_or("a trace")?;
        parts.push(expect_part(rt, alloc, *node, trace, wanted)?)?;
    }
    Ok(parts)
}

// Joins journals, without the contract of `joined`.
fn joined_text(alloc: Global, parts: Vec<Part>) -> Result<Vec<u8>, Fail> {
    let drill = joined(alloc, parts)?;
    Ok(drill_text(alloc, &drill)?)
}

#[test]
fn parts_of_nodes(rt: HostRuntime) -> Result<(), Fail> {
    let drill = recorded(&rt, rt.alloc())?;
    let parts = parts_of(&rt, rt.alloc(), &drill)?;
    let text = joined_text(rt.alloc(), parts)?;
    expect(&rt, &str::from_utf8(&text), &Ok(DRILL));
    Ok(())
}

/// The first line of a journal, and the line of a call.
const HEAD: &str = r#"{"cap":100,"failreg":"part","node":0,"nodes":2,"run":"today","version":1}"#;

const PASS: &str =
    r#"{"ask":["pass","p"],"reply":["act",1,0,0,["print","hi"]],"words":[804192318]}"#;

/// A line of a journal, and what it is read as, in print: a call, then a head.
const LINES: &[(&str, &str)] = &[
    (
        HEAD,
        "None Some(PartHead { node: 0, nodes: 2, cap: 100, run: \"today\" })",
    ),
    (
        PASS,
        "Some(Entry { ask: Pass { name: \"p\" }, words: [804192318], reply: Pass(Act { term: 0, \
         stamp: Stamp { clock: 1, node: 0 }, task: Print(Some(\"hi\")) }) }) None",
    ),
    ("{}", "None None"),
];

// Reads a line as a call and as a head.
fn line_text(alloc: Global, line: &str) -> Result<String, AllocError> {
    let entry = entry_in(alloc, line.as_bytes())?;
    let head = part_head_in(alloc, line.as_bytes())?;
    format!(in alloc; "{entry:?} {head:?}")
}

#[test]
fn lines_of_parts(rt: HostRuntime) -> Result<(), Fail> {
    for (line, wanted) in LINES {
        let found = line_text(rt.alloc(), line)?;
        expect(&rt, &found.as_str(), wanted);
    }
    Ok(())
}

// Writes the line of the last call of the first node, and that of its head.
fn last_lines(alloc: Global, drill: &Drill) -> Result<(String, String), Fail> {
    let trace = drill.traces.first().ok_or("a trace")?;
    let entry = entry_text(alloc, trace.last().ok_or("a call")?)?;
    Ok((entry, head_text(alloc)?))
}

fn head_text(alloc: Global) -> Result<String, AllocError> {
    let head = head_of(alloc, 0)?;
    part_head_text(alloc, &head)
}

#[test]
fn lines_are_written(rt: HostRuntime) -> Result<(), Fail> {
    let drill = recorded(&rt, rt.alloc())?;
    let (entry, head) = last_lines(rt.alloc(), &drill)?;
    expect(&rt, &(entry.as_str(), head.as_str()), &(PASS, HEAD));
    Ok(())
}

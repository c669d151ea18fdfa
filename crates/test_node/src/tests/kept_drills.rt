//! The text of a drill, and readers and writers of it that fail.

use super::expect;
use super::transfers::{Narrow, Slow};
use drills::{Drill, DrillFault, read_drill, write_drill};
use std::alloc::{AllocError, Global};
use std::io::{BufReader, ErrorKind, Read, Write};
use std::process::Abort;
use std::test::Fail;
use streams::Watched;

// Each form of a line, a row and a task.
const EVERY_FORM: &str = r#"{"failreg":"drill","version":1}
{"trace":0}
{"ask":["set","a","20%3*print(hi)->panic"],"reply":["set",18446744073709551615,255],"words":[]}
{"ask":["remove","a\nb\u0000"],"reply":["removed",2,0],"words":[]}
{"ask":["load","é=off"],"reply":["loaded",65535],"words":[]}
{"ask":["pass","a"],"reply":["unset"],"words":[]}
{"ask":["pass","a"],"reply":["none",3,1],"words":[0,4294967295]}
{"ask":["pass","a"],"reply":["act",3,1,255,["off"]],"words":[]}
{"ask":["pass","a"],"reply":["act",3,1,0,["return",null]],"words":[]}
{"ask":["pass","a"],"reply":["act",3,1,0,["sleep",5]],"words":[]}
{"ask":["pass","a"],"reply":["act",3,1,0,["panic",""]],"words":[]}
{"ask":["pass","a"],"reply":["act",3,1,0,["print","\"hi\""]],"words":[]}
{"ask":["pass","a"],"reply":["act",3,1,0,["pause"]],"words":[]}
{"ask":["pass","a"],"reply":["act",3,1,0,["yield"]],"words":[]}
{"ask":["pass","a"],"reply":["act",3,1,0,["delay",18446744073709551615]],"words":[]}
{"trace":1}
{"trace":2}
{"ask":["shift","a",0,1,18446744073709551615],"reply":["shifted",7],"words":[]}
{"ask":["grant","a",255,2],"reply":["granted",9],"words":[]}
{"ask":["emit",1],"reply":["message","46504731ff00"],"words":[]}
{"ask":["deliver",""],"reply":["changed"],"words":[]}
{"ask":["deliver","0a"],"reply":["same"],"words":[]}
{"list":0}
{"list":1}
{"ask":["pass","a"],"index":4294967295,"node":255,"reply":["unset"],"words":[1]}
"#;

// A drill of one entry, told otherwise: with spaces, other escapes, another order of members, capital
// digits, a carriage return, and no last newline.
const TOLD_OTHERWISE: &str = "{ \"version\" : 1, \"failreg\" : \"dr\\u0069ll\" }\r
{\"trace\": 0}
{\"words\":[],\"reply\":[\"message\",\"FF\"],\"ask\":[\"emit\", 1]}";

const ONE_ENTRY: &str = r#"{"failreg":"drill","version":1}
{"trace":0}
{"ask":["emit",1],"reply":["message","ff"],"words":[]}
"#;

// A drill of the second version, in pieces, and the same whole.
const IN_PIECES: &str = r#"{"failreg":"drill","version":2}
{"trace":0}
{"from":0,"list":0}
{"from":0,"trace":1}
{"ask":["emit",0],"reply":["message","ff"],"words":[]}
{"trace":0,"from":0}
{"ask":["emit",1],"reply":["message","fe"],"words":[]}
{"list":0,"from":0}
{"ask":["emit",0],"index":0,"node":1,"reply":["message","ff"],"words":[]}
{"from":1,"trace":1}
{"ask":["emit",0],"reply":["message","fd"],"words":[]}
{"list":1}
{"from":1,"list":0}
{"ask":["emit",1],"index":0,"node":0,"reply":["message","fe"],"words":[]}
"#;

const WHOLE: &str = r#"{"failreg":"drill","version":1}
{"trace":0}
{"ask":["emit",1],"reply":["message","fe"],"words":[]}
{"trace":1}
{"ask":["emit",0],"reply":["message","ff"],"words":[]}
{"ask":["emit",0],"reply":["message","fd"],"words":[]}
{"list":0}
{"ask":["emit",0],"index":0,"node":1,"reply":["message","ff"],"words":[]}
{"ask":["emit",1],"index":0,"node":0,"reply":["message","fe"],"words":[]}
{"list":1}
"#;

// Texts behind a good first line, a trace's and an entry's, and the line of the whole that is bad.
const BAD: &[(&str, u64)] = &[
    ("\n", 4),
    ("{", 4),
    ("[]", 4),
    ("{}", 4),
    ("{\"failreg\":\"drill\",\"version\":1}", 4),
    ("{\"trace\":0}", 4),
    ("{\"trace\":2}", 4),
    ("{\"trace\":-1}", 4),
    ("{\"trace\":1.0}", 4),
    ("{\"list\":1}", 4),
    ("{\"from\":1,\"trace\":0}", 4),
    ("{\"from\":0,\"list\":0}", 4),
    ("{\"list\":\"0\"}", 4),
    ("{\"list\":0}\n{\"trace\":1}", 5),
    ("{\"list\":0}\n{\"from\":0,\"list\":0}", 5),
    (
        "{\"cap\":100,\"failreg\":\"part\",\"node\":0,\"nodes\":2,\"run\":\"today\",\"version\":1}",
        4,
    ),
    (
        "{\"list\":0}\n{\"ask\":[\"emit\",1],\"reply\":[\"same\"],\"words\":[]}",
        5,
    ),
    (
        "{\"ask\":[\"emit\",1],\"index\":0,\"node\":0,\"reply\":[\"same\"],\"words\":[]}",
        4,
    ),
    (
        "{\"list\":0}\n{\"ask\":[\"emit\",1],\"index\":0,\"node\":256,\"reply\":[\"same\"],\"words\":[]}",
        5,
    ),
    (
        "{\"list\":0}\n{\"ask\":[\"emit\",1],\"index\":4294967296,\"node\":0,\"reply\":[\"same\"],\"words\":[]}",
        5,
    ),
    (
        "{\"ask\":[\"emit\",256],\"reply\":[\"same\"],\"words\":[]}",
        4,
    ),
    (
        "{\"ask\":[\"emit\",1,1],\"reply\":[\"same\"],\"words\":[]}",
        4,
    ),
    (
        "{\"ask\":[\"emits\",1],\"reply\":[\"same\"],\"words\":[]}",
        4,
    ),
    (
        "{\"ask\":[\"deliver\",\"0\"],\"reply\":[\"same\"],\"words\":[]}",
        4,
    ),
    (
        "{\"ask\":[\"deliver\",\"0g\"],\"reply\":[\"same\"],\"words\":[]}",
        4,
    ),
    (
        "{\"ask\":[\"emit\",1],\"reply\":[\"loaded\",65536],\"words\":[]}",
        4,
    ),
    (
        "{\"ask\":[\"emit\",1],\"reply\":[\"same\"],\"words\":[4294967296]}",
        4,
    ),
    (
        "{\"ask\":[\"emit\",1],\"reply\":[\"same\"],\"words\":[],\"more\":0}",
        4,
    ),
];

// Texts of the second version, and the line of each that is bad.
const BAD_PIECES: &[(&str, u64)] = &[
    (
        "{\"failreg\":\"drill\",\"version\":2}\n{\"trace\":0}\n{\"from\":1,\"trace\":0}",
        3,
    ),
    (
        "{\"failreg\":\"drill\",\"version\":2}\n{\"trace\":0}\n{\"list\":0}\n{\"ask\":[\"emit\",1],\"index\":0,\"node\":0,\"reply\":[\"same\"],\"words\":[]}\n{\"from\":0,\"list\":0}",
        5,
    ),
];

// Texts that have no good first line.
const BAD_FROM_THE_START: &[&str] = &[
    "",
    "\n",
    "{\"trace\":0}",
    "{\"failreg\":\"drill\",\"version\":3}",
    "{\"failreg\":\"drills\",\"version\":1}",
    "{\"failreg\":\"drill\",\"version\":\"1\"}",
];

// Reads a drill, without what the contract says of it.
fn read<I: Read + Drop>(alloc: Global, reader: I) -> Result<Drill, DrillFault> {
    match BufReader::new(alloc, Watched::new(reader)) {
        Ok(mut reader) => read_drill(alloc, &mut reader),
        Err(_) => Err(DrillFault::OutOfMemory),
    }
}

// Writes a drill, without what the contract says of it.
fn write<W: Write + Drop>(alloc: Global, drill: &Drill, writer: W) -> Result<(), DrillFault> {
    let mut writer = Watched::new(writer);
    write_drill(alloc, &drill.traces, &drill.lists, &mut writer)
}

// A drill's text as it is written again.
fn again(alloc: Global, text: &str) -> Result<Vec<u8>, DrillFault> {
    let drill = read(alloc, text.as_bytes())?;
    let mut written = Vec::new(alloc);
    write(alloc, &drill, &mut written)?;
    Ok(written)
}

// Texts, and how each is written again.
const FORMS: &[(&str, &str)] = &[
    (EVERY_FORM, EVERY_FORM),
    (TOLD_OTHERWISE, ONE_ENTRY),
    (IN_PIECES, WHOLE),
];

#[test]
fn each_form_reads_back(rt: HostRuntime) -> Result<(), Fail> {
    for (text, wanted) in FORMS {
        let written = again(rt.alloc(), text)?;
        expect(&rt, &written.as_slice(), &wanted.as_bytes());
    }
    Ok(())
}

fn behind_an_entry(alloc: Global, text: &str) -> Result<String, AllocError> {
    format!(in alloc; "{ONE_ENTRY}{text}")
}

// Ends the test where it isn't for this line that a text is no drill.
fn expect_bad_line(rt: &impl Abort, alloc: Global, text: &str, line: u64) {
    let found = (text, read(alloc, text.as_bytes()).err());
    expect(rt, &found, &(text, Some(DrillFault::BadLine { line })));
}

#[test]
fn bad_lines(rt: HostRuntime) -> Result<(), Fail> {
    for (text, line) in BAD {
        let whole = behind_an_entry(rt.alloc(), text)?;
        expect_bad_line(&rt, rt.alloc(), &whole, *line);
    }
    for (text, line) in BAD_PIECES {
        expect_bad_line(&rt, rt.alloc(), text, *line);
    }
    Ok(())
}

#[test]
fn bad_first_lines(rt: HostRuntime) {
    for text in BAD_FROM_THE_START {
        expect_bad_line(&rt, rt.alloc(), text, 1);
    }
}

// What comes of a text of which a read fails behind so many bytes, three for each read.
fn fault_behind(alloc: Global, bytes: usize, kind: ErrorKind) -> Option<DrillFault> {
    let slow = Slow {
        text: ONE_ENTRY.as_bytes(),
        calls: 0,
        fails_at: bytes / 3,
        kind,
    };
    read(alloc, slow).err()
}

// What is read before a read fails is no drill, also where it ends with a line, and where the read was
// made again.
#[test]
fn a_read_fails(rt: HostRuntime) {
    for kind in [ErrorKind::ConnectionReset, ErrorKind::Interrupted] {
        for bytes in [0, 3, ONE_ENTRY.len()] {
            let found = fault_behind(rt.alloc(), bytes, kind);
            expect(&rt, &found, &Some(DrillFault::ReadFailed));
        }
    }
}

fn written_into(alloc: Global, drill: &Drill, room: usize) -> Result<(), DrillFault> {
    let narrow = Narrow {
        taken: Vec::new(alloc),
        room,
        fails: false,
        flushes: 0,
        flush_fails: false,
    };
    write(alloc, drill, narrow)
}

#[test]
fn a_write_stops(rt: HostRuntime) -> Result<(), Fail> {
    let drill = read(rt.alloc(), ONE_ENTRY.as_bytes())?;
    for room in 0..ONE_ENTRY.len() {
        let found = (room, written_into(rt.alloc(), &drill, room));
        expect(&rt, &found, &(room, Err(DrillFault::WriteFailed)));
    }
    let written = written_into(rt.alloc(), &drill, ONE_ENTRY.len());
    expect(&rt, &written, &Ok(()));
    Ok(())
}

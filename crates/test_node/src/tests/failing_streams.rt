//! Whole texts over readers and writers that fail.

use super::expect;
use super::transfers::{Endless, Narrow, Slow};
use std::alloc::Global;
use std::io::ErrorKind;
use std::process::Abort;
use streams::{ScriptFault, Watched, read_script, write_text};

const TEXT: &str = "\
nodes 1 100
set 0 p 20%3*print(still alive!)->panic
pass 0 p 0
";

/// What a text is read as, whether its reader failed, and how often that was asked.
type Read<'a> = (Result<&'a [u8], ScriptFault>, bool, usize);

/// Whether reading the text comes to this, from a reader that fails at one call.
fn reads_so(alloc: Global, fails_at: usize, kind: ErrorKind, wanted: Read<'_>) -> bool {
    let mut slow = Slow {
        text: TEXT.as_bytes(),
        calls: 0,
        fails_at,
        kind,
    };
    let mut reader = Watched::new(&mut slow);
    let found = read_script(alloc, &mut reader);
    let failed = reader.failed();
    let text = match &found {
        Ok(text) => Ok(text.as_slice()),
        Err(fault) => Err(*fault),
    };
    (text, failed, slow.calls) == wanted
}

fn expect_reads(rt: &impl Abort, alloc: Global, kind: ErrorKind) {
    let reads = TEXT.len().div_ceil(3) + 1;
    for fails_at in 0..reads {
        let wanted = (Err(ScriptFault::ReadFailed), true, fails_at + 1);
        let found = (fails_at, reads_so(alloc, fails_at, kind, wanted));
        expect(rt, &found, &(fails_at, true));
    }
    let wanted = (Ok(TEXT.as_bytes()), false, reads);
    expect(rt, &reads_so(alloc, reads, kind, wanted), &true);
}

// At each call, of which the last finds the end; and at none.
#[test]
fn a_read_fails(rt: HostRuntime) {
    for kind in [ErrorKind::Interrupted, ErrorKind::OutOfMemory] {
        expect_reads(&rt, rt.alloc(), kind);
    }
}

/// How writing ended, whether the writer failed, and whether that has bytes that aren't flushed.
type Written = (Result<(), ScriptFault>, bool, bool);

const DONE: Written = (Ok(()), false, false);

const REFUSED: Result<(), ScriptFault> = Err(ScriptFault::WriteFailed);

fn written(text: &str, narrow: &mut Narrow) -> Written {
    let mut writer = Watched::new(narrow);
    let result = write_text(&mut writer, text.as_bytes());
    (result, writer.failed(), writer.unflushed())
}

/// Whether writing a text ends as wanted, with so many flushes behind what was written before. What
/// there is room for is written.
fn writes_so(text: &str, mut narrow: Narrow, wanted: Written, flushes: usize) -> bool {
    let room = text.len().min(narrow.room);
    written(text, &mut narrow) == wanted
        && text.as_bytes().get(..room) == Some(narrow.taken.as_slice())
        && narrow.flushes == flushes
}

fn stops_so(alloc: Global, room: usize, fails: bool) -> bool {
    let narrow = Narrow {
        taken: Vec::new(alloc),
        room,
        fails,
        flushes: 0,
        flush_fails: false,
    };
    if room < TEXT.len() {
        writes_so(TEXT, narrow, (REFUSED, true, room > 0), 0)
    } else {
        writes_so(TEXT, narrow, DONE, 1)
    }
}

// Behind each byte, where the writer fails and where it takes none; and behind none.
#[test]
fn a_write_stops(rt: HostRuntime) {
    for fails in [false, true] {
        for room in 0..TEXT.len() + 1 {
            let found = (room, stops_so(rt.alloc(), room, fails));
            expect(&rt, &found, &(room, true));
        }
    }
}

/// A text, whether its flush fails, and how writing it ends.
const FLUSHES: &[(&str, bool, Written)] = &[
    (TEXT, false, DONE),
    (TEXT, true, (REFUSED, true, true)),
    ("", false, DONE),
    ("", true, (REFUSED, true, false)),
];

// All is flushed once, also where nothing is written; a flush that fails is a failed write.
#[test]
fn a_text_ends_with_a_flush(rt: HostRuntime) {
    for (text, flush_fails, wanted) in FLUSHES {
        let narrow = Narrow {
            taken: Vec::new(rt.alloc()),
            room: usize::MAX,
            fails: false,
            flushes: 0,
            flush_fails: *flush_fails,
        };
        expect(&rt, &writes_so(text, narrow, *wanted, 1), &true);
    }
}

// Of a script that is too long one byte too many is read.
#[test]
fn a_script_that_never_ends(rt: HostRuntime) {
    let mut endless = Endless { given: 0 };
    let mut reader = Watched::new(&mut endless);
    let fault = read_script(rt.alloc(), &mut reader).err();
    let found = (fault, endless.given);
    expect(&rt, &found, &(Some(ScriptFault::TooLong), 16_777_217));
}

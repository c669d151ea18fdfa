//! A `Watched` hands each call on as it is, and notes what failed.

ghost use Rattle.std.specs.Prelude.{◌≤◌, length, IfOk};

use super::expect;
use std::alloc::{AllocError, Global};
use std::io;
use std::io::{ErrorKind, Read, Write};
use std::test::Fail;
use streams::Watched;

#[derive(Clone, Copy, PartialEq, Eq)]
enum Method {
    Read,
    ReadExact,
    Write,
    Flush,
    WriteAll,
}

// Notes each call with the bytes that it was given, and answers as it was told.
#[derive(Drop)]
struct Recorder {
    alloc: Global,
    methods: Vec<Method>,
    bytes: Vec<u8>,
    answer: Result<usize, ErrorKind>,
}

impl Recorder {
    fn new(alloc: Global, answer: Result<usize, ErrorKind>) -> Recorder {
        Recorder {
            alloc,
            methods: Vec::new(alloc),
            bytes: Vec::new(alloc),
            answer,
        }
    }

    fn note(&mut self, method: Method, bytes: &[u8]) -> io::Result<usize>
        ensures { IfOk result (λ count. count ≤ length bytes.now) }
    {
        self.methods.push(method)?;
        self.bytes = Vec::from_slice(self.alloc, bytes)?;
        match self.answer {
            Ok(count) => Ok(count.min(bytes.len())),
            Err(kind) => Err(io::Error::from(kind)),
        }
    }
}

impl Read for Recorder {
    fn read(&mut self, buf: &mut [u8]) -> io::Result<usize> {
        let count = self.note(Method::Read, buf)?;
        buf[..count].fill(b'r');
        Ok(count)
    }

    fn read_exact(&mut self, buf: &mut [u8]) -> io::Result<()> {
        let count = self.note(Method::ReadExact, buf)?;
        buf[..count].fill(b'e');
        Ok(())
    }
}

impl Write for Recorder {
    fn write(&mut self, buf: &[u8]) -> io::Result<usize> {
        self.note(Method::Write, buf)
    }

    fn flush(&mut self) -> io::Result<()> {
        self.note(Method::Flush, b"")?;
        Ok(())
    }

    fn write_all(&mut self, buf: &[u8]) -> io::Result<()> {
        self.note(Method::WriteAll, buf)?;
        Ok(())
    }
}

// Makes a call of a recorder that is watched: how many bytes it moved, and whether it failed.
fn called(
    recorder: &mut Recorder,
    method: Method,
    buf: &mut [u8],
) -> (Result<usize, ErrorKind>, bool) {
    let mut watched = Watched::new(recorder);
    let result = match method {
        Method::Read => watched.read(buf),
        Method::ReadExact => watched.read_exact(buf).map(|()| 0),
        Method::Write => watched.write(buf),
        Method::Flush => watched.flush().map(|()| 0),
        Method::WriteAll => watched.write_all(buf).map(|()| 0),
    };
    (result.map_err(|error| error.kind()), watched.failed())
}

// So many bytes that differ.
fn bytes(alloc: Global, length: usize) -> Result<Vec<u8>, AllocError> {
    let mut bytes = Vec::with_capacity(alloc, length)?;
    for place in 0..length {
        bytes.push((place % 251) as u8)?;
    }
    Ok(bytes)
}

// Whether the first bytes of a buffer were filled by a call, and the others are as they were given.
fn is_filled(buf: &[u8], given: &[u8], filled: usize, method: Method) -> bool {
    let mark = if method == Method::Read { b'r' } else { b'e' };
    buf.iter().take(filled).all(|byte| *byte == mark)
        && buf.iter().skip(filled).eq(given.iter().skip(filled))
}

// A call, what it is answered, the length of its buffer, how many bytes of that are filled, how many bytes
// the caller is told were moved, and whether the call failed.
type Row = (
    Method,
    Result<usize, ErrorKind>,
    usize,
    usize,
    Result<usize, ErrorKind>,
    bool,
);

const BROKEN: Result<usize, ErrorKind> = Err(ErrorKind::BrokenPipe);

const MOST: usize = 100_000;

const CALLS: &[Row] = &[
    (Method::Read, Ok(2), 3, 2, Ok(2), false),
    (Method::Read, Ok(0), 3, 0, Ok(0), false),
    (Method::Read, Ok(0), 0, 0, Ok(0), false),
    (Method::Read, Ok(MOST), MOST, MOST, Ok(MOST), false),
    (Method::Read, BROKEN, 3, 0, BROKEN, true),
    (Method::Read, BROKEN, 0, 0, BROKEN, true),
    (Method::ReadExact, Ok(3), 3, 3, Ok(0), false),
    (Method::ReadExact, Ok(0), 0, 0, Ok(0), false),
    (Method::ReadExact, Ok(MOST), MOST, MOST, Ok(0), false),
    (Method::ReadExact, BROKEN, 3, 0, BROKEN, true),
    (Method::ReadExact, BROKEN, 0, 0, BROKEN, true),
    (Method::Write, Ok(2), 3, 0, Ok(2), false),
    (Method::Write, Ok(0), 3, 0, Ok(0), true),
    (Method::Write, Ok(0), 0, 0, Ok(0), false),
    (Method::Write, Ok(MOST), MOST, 0, Ok(MOST), false),
    (Method::Write, BROKEN, 3, 0, BROKEN, true),
    (Method::Write, BROKEN, 0, 0, BROKEN, true),
    (Method::Flush, Ok(0), 0, 0, Ok(0), false),
    (Method::Flush, BROKEN, 0, 0, BROKEN, true),
    (Method::WriteAll, Ok(0), 3, 0, Ok(0), false),
    (Method::WriteAll, Ok(0), 0, 0, Ok(0), false),
    (Method::WriteAll, Ok(0), MOST, 0, Ok(0), false),
    (Method::WriteAll, BROKEN, 3, 0, BROKEN, true),
    (Method::WriteAll, BROKEN, 0, 0, BROKEN, true),
];

// Whether a recorder noted this call alone, with the bytes that it was given.
fn has_noted(recorder: &Recorder, method: Method, given: &[u8]) -> bool {
    recorder.methods.as_slice() == [method].as_slice() && recorder.bytes.as_slice() == given
}

fn holds(alloc: Global, row: &Row) -> Result<bool, AllocError> {
    let (method, answer, length, filled, moved, failed) = *row;
    let given = bytes(alloc, length)?;
    let mut buf = bytes(alloc, length)?;
    let mut recorder = Recorder::new(alloc, answer);
    let is_told = called(&mut recorder, method, &mut buf) == (moved, failed);
    let is_noted = has_noted(&recorder, method, &given);
    Ok(is_told && is_noted && is_filled(&buf, &given, filled, method))
}

#[test]
fn calls_are_handed_on(rt: HostRuntime) -> Result<(), Fail> {
    for (number, row) in CALLS.iter().enumerate() {
        expect(&rt, &(number, holds(rt.alloc(), row)?), &(number, true));
    }
    Ok(())
}

//! Readers and writers that fail in mid-stream.

use std::io;
use std::io::{ErrorKind, Read, Write};

/// A reader that gives three bytes a call, and fails at one call.
#[derive(Drop)]
pub struct Slow<'a> {
    pub text: &'a [u8],
    pub calls: usize,
    pub fails_at: usize,
    pub kind: ErrorKind,
}

impl Read for Slow<'_> {
    fn read(&mut self, buf: &mut [u8]) -> io::Result<usize> {
        let call = self.calls;
        self.calls = call.saturating_add(1);
        if call == self.fails_at {
            return Err(io::Error::from(self.kind));
        }
        let count = self.text.len().min(buf.len()).min(3);
        buf[..count].copy_from_slice(&self.text[..count]);
        self.text = &self.text[count..];
        Ok(count)
    }
}

/// A reader that always gives as many bytes as it is asked for.
#[derive(Drop)]
pub struct Endless {
    pub given: usize,
}

impl Read for Endless {
    fn read(&mut self, buf: &mut [u8]) -> io::Result<usize> {
        buf.fill(b'#');
        self.given = self.given.saturating_add(buf.len());
        Ok(buf.len())
    }
}

/// A writer that takes some bytes, and then fails or takes none. It counts its flushes since the
/// last write.
#[derive(Drop)]
pub struct Narrow {
    pub taken: Vec<u8>,
    pub room: usize,
    pub fails: bool,
    pub flushes: usize,
    pub flush_fails: bool,
}

impl Write for Narrow {
    fn write(&mut self, buf: &[u8]) -> io::Result<usize> {
        self.flushes = 0;
        let count = buf.len().min(self.room.saturating_sub(self.taken.len()));
        if count == 0 && self.fails {
            return Err(io::Error::from(ErrorKind::BrokenPipe));
        }
        self.taken.extend_from_slice(&buf[..count])?;
        Ok(count)
    }

    fn flush(&mut self) -> io::Result<()> {
        self.flushes = self.flushes.saturating_add(1);
        if self.flush_fails {
            return Err(io::Error::from(ErrorKind::BrokenPipe));
        }
        Ok(())
    }
}

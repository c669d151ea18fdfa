//! Readers and writers that note a failure, and whether what was written is flushed.

ghost use Rattle.std.specs.Prelude.{◌≡◌, ◌||◌, ◌&&◌, false, is_err, length, nat_lt, OnOk};
ghost use Rattle.std.specs.Io.{ReadsAtMost, WritesAtMost};
ghost use Rattle.std.specs.Io.KnownBytes.{Appends, Consumes, Keeps, ReadConsumes, WriteAppends};

use std::io;
use std::io::{Read, Write};

/// A reader or a writer that notes whether a call has failed, and whether bytes were written that
/// no flush has followed. Each call is handed on as it is.
#[derive(Drop)]
pub struct Watched<T> {
    inner: T,
    failed: bool,
    unflushed: bool,
}

impl<T> Watched<T> {
    ghost use Rattle.streams.specs.Watched.{has_failed, has_unflushed, inner_of};

    /// Watches a reader or a writer, of which no call has failed and nothing is to be flushed.
    pub fn new(inner: T) -> Watched<T>
        ensures inner { inner_of result ≡ inner }
        ensures failed { has_failed result ≡ false }
        ensures unflushed { has_unflushed result ≡ false }
    {
        Watched {
            inner,
            failed: false,
            unflushed: false,
        }
    }

    /// Whether a call failed, or a write of some bytes took none.
    pub fn failed(&self) -> bool
        ensures { result ≡ has_failed self.now }
    {
        self.failed
    }

    /// Whether bytes were written since the last flush that didn't fail.
    pub fn unflushed(&self) -> bool
        ensures { result ≡ has_unflushed self.now }
    {
        self.unflushed
    }
}

impl<R: Read> Read for Watched<R> {
    ghost use Rattle.streams.specs.Watched.{has_failed, has_unflushed, inner_of};

    ghost remaining = { λ w. R.remaining (inner_of w) };

    fn read(&mut self, buf: &mut [u8]) -> io::Result<usize>
        ensures bound { ReadsAtMost result buf.new }
        ensures bytes { ReadConsumes (R.remaining (inner_of self.old))
            (R.remaining (inner_of self.new)) result buf.new }
        ensures failed { has_failed self.new ≡ (has_failed self.old || is_err result) }
        ensures unflushed { has_unflushed self.new ≡ has_unflushed self.old }
    {
        let result = self.inner.read(buf);
        self.failed = self.failed || result.is_err();
        result
    }

    fn read_exact(&mut self, buf: &mut [u8]) -> io::Result<()>
        ensures bytes { OnOk result (Consumes (R.remaining (inner_of self.old))
            (R.remaining (inner_of self.new)) buf.new) }
        ensures failed { has_failed self.new ≡ (has_failed self.old || is_err result) }
        ensures unflushed { has_unflushed self.new ≡ has_unflushed self.old }
    {
        let result = self.inner.read_exact(buf);
        self.failed = self.failed || result.is_err();
        result
    }
}

impl<W: Write> Write for Watched<W> {
    ghost use Rattle.streams.specs.Watched.{has_failed, has_unflushed, inner_of, is_failed_write, takes_some};

    ghost contents = { λ w. W.contents (inner_of w) };

    fn write(&mut self, buf: &[u8]) -> io::Result<usize>
        ensures bound { WritesAtMost result buf.now }
        ensures bytes { WriteAppends (W.contents (inner_of self.old))
            (W.contents (inner_of self.new)) result buf.now }
        ensures failed { has_failed self.new
            ≡ (has_failed self.old || is_failed_write result buf.now) }
        ensures unflushed { has_unflushed self.new ≡ (has_unflushed self.old || takes_some result) }
    {
        let result = self.inner.write(buf);
        match &result {
            Ok(0) => self.failed = self.failed || !buf.is_empty(),
            Ok(_) => self.unflushed = true,
            Err(_) => self.failed = true,
        }
        result
    }

    fn flush(&mut self) -> io::Result<()>
        ensures bytes { Keeps (W.contents (inner_of self.old)) (W.contents (inner_of self.new)) }
        ensures failed { has_failed self.new ≡ (has_failed self.old || is_err result) }
        ensures unflushed { has_unflushed self.new ≡ (has_unflushed self.old && is_err result) }
    {
        let result = self.inner.flush();
        self.failed = self.failed || result.is_err();
        self.unflushed = self.unflushed && result.is_err();
        result
    }

    fn write_all(&mut self, buf: &[u8]) -> io::Result<()>
        ensures bytes { OnOk result (Appends (W.contents (inner_of self.old))
            (W.contents (inner_of self.new)) buf.now) }
        ensures failed { has_failed self.new ≡ (has_failed self.old || is_err result) }
        // A call that failed may have written some.
        ensures unflushed { has_unflushed self.new
            ≡ (has_unflushed self.old || nat_lt 0 (length buf.now)) }
    {
        let result = self.inner.write_all(buf);
        self.failed = self.failed || result.is_err();
        self.unflushed = self.unflushed || !buf.is_empty();
        result
    }
}

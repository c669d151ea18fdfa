//! A reader of lines none of which is too long.

ghost use Rattle.std.specs.Prelude.{◌≡◌, ◌+◌, ◌≤◌, take, IfOk};
ghost use Rattle.std.specs.Io.{ReadsAtMost};
ghost use Rattle.commands.specs.ShortLines.{begun_after, begun_with, most_of_line};

use std::io;
use std::io::{ErrorKind, Read};

/// The most bytes of a line of a drill: twice what the greatest message takes there.
const MOST_OF_LINE: u64 = 268_435_456;

/// A reader that fails once a line has more bytes than one of a drill can have, before more of it is
/// read.
#[derive(Drop)]
pub struct ShortLines<I> {
    inner: I,
    // How many bytes of the line were read that isn't ended yet.
    begun: u64,
    ghost few: { begun ≤ most_of_line },
}

impl<I> ShortLines<I> {
    /// Reads from the first byte of a line on.
    pub fn new(inner: I) -> ShortLines<I>
        ensures { result.begun ≡ 0 }
    {
        ShortLines { inner, begun: 0 }
    }
}

fn begun_with(begun: u64, byte: u8) -> u64
    requires { begun ≤ most_of_line + 1 }
    ensures value { result ≡ begun_with begun byte }
    ensures bound { result ≤ most_of_line + 1 }
{
    if byte == b'\n' {
        0
    } else {
        (begun + 1).min(MOST_OF_LINE + 1)
    }
}

fn begun_after(begun: u64, bytes: &[u8]) -> u64
    requires { begun ≤ most_of_line + 1 }
    ensures value { result ≡ begun_after begun bytes.now }
    ensures bound { result ≤ most_of_line + 1 }
{
    let mut begun = begun;
    for byte in bytes {
        begun = begun_with(begun, *byte);
    }
    begun
}

impl<I: Read> Read for ShortLines<I> {
    fn read(&mut self, buf: &mut [u8]) -> io::Result<usize>
        ensures bound { ReadsAtMost result buf.new }
        ensures begun { IfOk result (λ count.
            self.new.begun ≡ begun_after self.old.begun (take count buf.new)) }
    {
        let count = self.inner.read(buf)?;
        let begun = begun_after(self.begun, &buf[..count]);
        if begun > MOST_OF_LINE {
            return Err(io::Error::from(ErrorKind::InvalidData));
        }
        self.begun = begun;
        Ok(count)
    }
}

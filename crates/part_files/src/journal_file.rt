//! What opening a journal does to its file.

use std::fs::File;
use std::io;
use std::io::Write;

/// A file that a journal stands in: bytes are cut off and appended.
pub(crate) trait JournalFile: Write {
    ghost use Rattle.std.specs.Prelude.{◌^◌, ◌≤◌, IsErr, OnOk};
    ghost use Rattle.std.specs.Io.KnownBytes.{Keeps};
    ghost use Rattle.part_files.specs.Opened.{Cuts};

    /// Leaves the first `len` bytes.
    fn set_len(&mut self, len: u64) -> io::Result<()>
        ensures cut { OnOk result (Cuts (Self.contents self.old) (Self.contents self.new) len) }
        ensures limit { 2 ^ 63 ≤ len → IsErr result };

    /// Has the bytes with the disk.
    fn sync_all(&mut self) -> io::Result<()>
        ensures { OnOk result (Keeps (Self.contents self.old) (Self.contents self.new)) };
}

impl JournalFile for &File {
    fn set_len(&mut self, len: u64) -> io::Result<()> {
        File::set_len(*self, len)
    }

    fn sync_all(&mut self) -> io::Result<()> {
        File::sync_all(*self)
    }
}

//! The file of a part that is written.

use std::fs::File;
use std::io;
use std::io::Write;

/// A file behind which lines are written. A flush has what was written with the disk, where that is
/// wanted: else it is with the system once it is written.
pub struct PartFile {
    file: File,
    is_synced: bool,
    // Whether something was written since it was with the disk.
    is_ahead: bool,
}

impl Drop for PartFile {
    fn drop(self) {
        let PartFile {
            file: _,
            is_synced: _,
            is_ahead: _,
        } = self;
    }
}

impl PartFile {
    pub fn new(file: File, is_synced: bool) -> PartFile {
        PartFile {
            file,
            is_synced,
            is_ahead: false,
        }
    }
}

impl Write for PartFile {
    fn write(&mut self, bytes: &[u8]) -> io::Result<usize> {
        self.is_ahead = true;
        self.file.write(bytes)
    }

    fn flush(&mut self) -> io::Result<()> {
        if self.is_synced && self.is_ahead {
            self.file.sync_data()?;
        }
        self.is_ahead = false;
        Ok(())
    }
}

//! The descriptors of the standard streams.

use std::fs;
use std::fs::Files;
use std::os::fd::AsRawFd;

/// A file that holds the least descriptor, where that is one of a standard stream: the program began
/// with it closed, and the next file or socket would get it. The file is the null device, opened so
/// that input can't be read from it and output not written to it, as without the descriptor.
pub fn hold_standard<R: Files>(rt: &R) -> Option<R::File>
where
    R::File: AsRawFd + Drop,
{
    let unread = fs::create(rt, "/dev/null").ok()?;
    match unread.as_raw_fd() {
        0 => Some(unread),
        1 | 2 => {
            drop(unread);
            fs::open(rt, "/dev/null").ok()
        }
        _ => None,
    }
}

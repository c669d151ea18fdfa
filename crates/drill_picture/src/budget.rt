//! A counted term of a setting.

use stamp_register::Stamp;

/// A counted term of a setting, whose rights a chart shows.
#[derive(Clone, Copy, Debug)]
pub struct Budget<'a> {
    /// The point.
    pub name: &'a str,
    pub stamp: Stamp,
    /// The number of the term, from 0.
    pub term: u8,
    pub count: u64,
}

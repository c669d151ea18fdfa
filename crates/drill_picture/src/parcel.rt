//! Rights that are on their way.

/// Rights that a node sent to another, which doesn't know of them yet.
#[derive(Clone, Copy)]
pub(crate) struct Parcel {
    pub(crate) from: u8,
    pub(crate) to: u8,
    /// How many the one moved to the other so far, these among them: what a message tells.
    pub(crate) total: u64,
    pub(crate) amount: u64,
}

//! What a caller is given of an accepted call.

use crate::trace::Entry;

/// An accepted call as its caller was told of it: the number of the node that accepted it, the place
/// of its entry in that node's trace, counted from 0, and a copy of the entry.
#[derive(Debug, Drop)]
pub struct Receipt {
    pub node: u8,
    pub index: u64,
    pub entry: Entry,
}

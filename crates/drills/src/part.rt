//! The record of one node.

use packed_trace::Trace;

/// The first line of a part: the number of its node and of how many nodes it is one, how many calls the
/// node accepts in its life, and which run it is, by any text.
#[derive(Debug, Drop)]
pub struct PartHead {
    pub node: u8,
    pub nodes: u8,
    pub cap: u64,
    pub run: String,
}

/// What one node recorded of a drill: its head, the calls that it accepted, in their order, and whether
/// its last line was left out because no newline ends it.
#[derive(Drop)]
pub struct Part {
    pub head: PartHead,
    pub trace: Trace,
    pub cut: bool,
}

//! Which node this is.

/// The most calls that a node may be made to accept in its life: 2^56 - 1. A pass takes at most 16
/// random draws, so that a stream of them doesn't end.
pub const MAX_TRACE_CAP: u64 = 72_057_594_037_927_935;

/// Which node of the cluster this is, how many nodes the cluster has (1 to 32), and how many
/// calls the node accepts in its life, at most `MAX_TRACE_CAP`.
#[derive(Clone, Copy, Debug, PartialEq, Eq)]
pub struct Config {
    pub node: u8,
    pub nodes: u8,
    pub trace_cap: u64,
}

//! Where a call stands.

/// Where a call stands in a picture.
#[derive(Clone, Copy, Debug)]
pub struct Place {
    /// The node that accepted the call.
    pub node: u8,
    /// The place of the call in that node's trace, counted from 0.
    pub index: u32,
    /// The column, counted from 0.
    pub column: u32,
}

//! What holds a node's state.

/// What holds a node's state.
pub type State = replica_state::Matrix;

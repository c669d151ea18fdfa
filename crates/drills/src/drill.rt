//! A recorded drill.

use node_calls::Receipt;
use packed_trace::Trace;

/// What is recorded of a drill: the traces of the nodes, in their order, and of each caller the
/// receipts of its calls, in their order.
#[derive(Drop)]
pub struct Drill {
    pub traces: Vec<Trace>,
    pub lists: Vec<Vec<Receipt>>,
}

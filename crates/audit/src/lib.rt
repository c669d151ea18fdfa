//! The audit of a drill: whether a schedule of the cluster explains what its callers were told. It
//! looks at the traces and the receipts alone.
#![tactic(auto)]

mod auditing;
mod counts;
mod fault;
pub mod laws;
mod placing;
mod points;
mod receipts;
mod replay;
mod sent;
mod sums;
mod tally;
mod told;
mod total;
mod verdict;

pub use auditing::{AuditYes, audit};
pub use fault::AuditFault;
pub use total::Total;
pub use verdict::verdict_text;

//! Reports of what a replica knows of the points of a cluster, as lines for people and as JSON for
//! programs; and the status of a node, as JSON.
#![tactic(auto)]

mod json_report;
pub mod laws;
mod lines_report;
mod members;
mod node_json;
mod peer_rows;
mod peers_json;

pub use json_report::report_json;
pub use lines_report::report_lines;
pub use node_json::{NodeHead, status_json};
pub use peer_rows::{CODES, PeerRow, RejectCode, SendFault, Sending};

//! A node as a service: it is served over HTTP, and its gossip runs beside it.
#![tactic(auto)]

mod calls;
mod ended;
mod fault;
mod key_file;
mod recording;
mod serving;
mod telling;

pub use ended::NodeServed;
pub use fault::ServiceFault;
pub use http_serve::Reason;
pub use key_file::{KeyFault, MOST_KEY};
pub use part_files::OpenFault;
pub use recording::serve_recorded;
pub use serving::serve_node;

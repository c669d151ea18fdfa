//! What a refusal of a service met and what to do, in words, for its second line.

use crate::key_advice::advice_on_key;
use http_serve::ServeFault;
use node_core::NodeFault;
use node_service::{NodeServed, ServiceFault};
use std::alloc::Global;

/// Which node or port a service was refused for, and what to do, if it was. Without memory for it
/// there is none.
pub fn advice_on_service(
    alloc: Global,
    node: u8,
    nodes: u8,
    port: u16,
    key_file: Option<&str>,
    served: &Result<NodeServed, ServiceFault>,
) -> String {
    let advice = match served {
        Err(ServiceFault::Node(NodeFault::BadConfig)) => {
            format!(in alloc; "node {node} of {nodes}: nodes count from 0, and there are 1 to 32")
        }
        Err(ServiceFault::Serve(ServeFault::BindFailed)) => {
            format!(in alloc;
                "cannot listen on port {port}: in use, not permitted, or no descriptors left; choose \
                 another --port, or 0 to let the system pick"
            )
        }
        Err(ServiceFault::Serve(ServeFault::AcceptFailed)) => {
            format!(in alloc; "port {port}: raise the limit of open descriptors (ulimit -n)")
        }
        Err(ServiceFault::Key(fault)) => {
            return advice_on_key(alloc, key_file.unwrap_or(""), fault);
        }
        Err(_) | Ok(_) => return String::new(alloc),
    };
    advice.unwrap_or(String::new(alloc))
}

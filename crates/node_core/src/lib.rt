//! One node of the registry: it answers each call by the step of the definitions, and keeps a
//! trace of the calls that it accepted, from which all that it holds follows.
#![tactic(auto)]

mod generator;
pub mod laws;
mod node;
mod resume_fault;
mod words;

pub use node::NodeCore;
pub use node_calls::{
    Ask, AskRef, Entry, NodeFault, PassReply, PassReplyRef, Receipt, Reply, ReplyRef, TextFault,
};
pub use node_steps::{Config, Generator, MAX_TRACE_CAP, State, WordSource};
pub use packed_trace::{Seen, Trace};
pub use resume_fault::ResumeFault;

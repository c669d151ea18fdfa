//! A node as programs of C hold it: by a handle that leads to a registry, which has what a call leaves
//! to be fetched, and answers each call by a number.
#![tactic(auto)]

mod act;
mod cluster;
mod handle;
mod node;
mod numbers;
mod parts;
mod points;
mod reading;
mod recording;
mod registry;
mod serving;

pub use act::{Act, UNSET};
pub use cluster::{Answered, NOBODY, UNANSWERED};
pub use handle::Handle;
pub use node::{Node, NodeHandle, Opaque};
pub use numbers::{NO_STAMP, Stamped, Wide, narrow};
pub use points::Points;
pub use recording::DIFFERS;
pub use registry::{Answer, CLOSED, OPEN, Registry, Said, fill_front, number_of};
pub use serving::{HttpConnection, HttpService, Secret, ServedReply};

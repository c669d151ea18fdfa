//! The messages that nodes of a failpoint registry send each other, as bytes.
//!
//! A message has these fields, each number with its highest byte first:
//!
//! | Field | Bytes |
//! |---|---|
//! | `FPG1`, or `FPG2` where a grant is told | 4 |
//! | the sender, the receiver | 1 each |
//! | base, upto, ack | 8 each |
//! | how many names there are | 2 |
//! | for each name: its length, and its bytes | 1, and 1 to 128 |
//! | the key's clock, its node, and a tag: 0 removed, 1 set | 8, 1, 1 |
//! | behind tag 1 only: the length of the actions' canonical text, and the text | 2, and up to 1024 |
//! | how many nodes have hits; for each the node, and the hits | 1; 1, 8 |
//! | how many executions there are; for each the term, the node, and how often | 2; 1, 1, 8 |
//! | how many shifts there are; for each the term, both nodes, and the rights | 2; 1, 1, 1, 8 |
//! | behind `FPG2` only: how many grants there are; for each the term, the node, and the rights | 2; 1, 1, 8 |
//!
//! Names ascend by their bytes, and none comes twice. So do the cells of each list, by their
//! numbers but the last, which is never 0. So there is one way to write a message.
//!
//! ```rust
//! let message = decode(alloc, nodes, &bytes)?;
//! let same_bytes = encode(alloc, &message)?;
//! ```
#![tactic(auto)]

mod cells;
mod entry;
mod fault;
pub mod laws;
mod message;
mod reading;
mod wire;
mod writing;

pub use fault::WireFault;
pub use message::{MAX_MESSAGE, MAX_NAMES, MAX_NODES, Message, NameEntry};
pub use reading::decode;
pub use writing::encode;

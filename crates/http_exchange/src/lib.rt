//! What the head and the body of a request come to before and after a node is asked, whatever connection brought it:
//! who is let in, what is kept of a body, whether a message is as it was sent, and the response of a reply.
//!
//! No page of a browser is let in but the operator's: a request that names another machine, by its target or its
//! `Host`, or whose `Origin` isn't the service itself, is rejected with 403. A service with a key (`Access`) may be
//! asked from other machines too: there the `Host` says nothing, and a request without the key is rejected with 401,
//! whatever else it says, before its body is read.
#![tactic(auto)]

mod accepted;
mod access;
mod heads;
mod hosts;
mod kept_body;
mod key;
mod labels;
pub mod laws;
mod letters;
mod responses;
mod seals;
mod tags;
mod text_check;

pub use accepted::{Accepted, Asking};
pub use access::{Access, KeyFault, KeyNeed, key_need};
pub use heads::{Admitted, Refusal, judge};
pub use hosts::authority_of;
pub use kept_body::KeptBody;
pub use key::Key;
pub use labels::Labels;
pub use responses::response;

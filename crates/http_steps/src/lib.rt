//! An HTTP/1.1 connection as steps over bytes, for a program that owns its sockets, threads and clocks.
//!
//! A connection has one request. The program feeds it what its client sends and asks what it waits for next: more bytes,
//! a permit for a long body, the reply to its request, that its output is sent, or to be closed. By the same functions as
//! `failreg serve` it lets heads in, keeps what a route needs of a body, checks messages and labels replies
//! (`http_exchange`), so a program answers each request as `failreg serve` does.
#![tactic(auto)]

mod coming;
mod connection;
mod rejection;
mod service;
mod writing;

pub use coming::Whole;
pub use connection::{Connection, Wants};
pub use service::Service;

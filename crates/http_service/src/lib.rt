//! Serves any handler over HTTP: many connections at once, with one request each.
//!
//! No client can hold the others up. A connection has two seconds for the head of its request and
//! ten in all, then it is ended; so a place is free again after ten seconds at most. At most 64 are
//! served at once. Of bodies that are longer than 64 KiB, or that don't say how long they are, at
//! most four are taken in at once, the others wait; so bodies hold at most four times the longest
//! one and 64 times 64 KiB, twice over while a buffer grows. Of a body 64 KiB are taken in, and then
//! others have their turn.
//!
//! No page of a browser is let in but the operator's: a request that names another machine, by its target or its
//! `Host`, or whose `Origin` isn't the service itself, is 403, and nothing is asked of it.
//! A service with a key (`Access`) may be asked from other machines too: there the `Host` says
//! nothing, and a request without the key is 401, whatever it is, before its body is read.
//!
//! What a request asks for is said by the table of requests (`http_routes`), once, and by that it is
//! answered: 404, 405 and 413 before anything is asked, and else by the handler, with the row of its
//! route. A message that isn't as it was sent, by its digests, is 400, and nothing is asked either.
//!
//! A service that has an `Ending` is ended by whoever has that ending, as a handler that is asked for
//! the end: then no client is let in any more, and those that are being served have two seconds.
#![tactic(auto)]

mod connection;
mod ending;
mod exchange;
mod fault;
mod handler;
mod permits;
mod question;
mod serving;
mod until_ended;

pub use connection::{Clients, Offer};
pub use ending::{Ended, Ending, LastReply, Reason, Served};
pub use fault::ServeFault;
pub use handler::Handler;
pub use http_exchange::{Access, KeyFault};
pub use http_routes::HttpReply;
pub use serving::{serve_all, serve_until_ended};

//! What a request of HTTP asks of a node, and the reply to it.
//!
//! | Path | Method | Call | Body of a 200 |
//! |---|---|---|---|
//! | `/fail`, `/fail/` | GET | the list | the list |
//! | `/fail/<name>` | PUT | set; the body is the action text | the stamp |
//! | `/fail/<name>` | DELETE | remove | the stamp |
//! | `/load` | POST | load; the body is the setting text | how many entries were set |
//! | `/spread/<name>` | PUT | set, and spread; the body is the action text | the stamp |
//! | `/spread/<name>` | POST | spread | how many rights the node keeps |
//! | `/shift/<name>/<term>/<to>/<amount>` | POST | shift | how many rights were moved in all |
//! | `/grant/<name>/<term>/<amount>` | POST | grant | how many rights were granted in all |
//! | `/gossip` | POST | deliver; the body is the message | `changed` or `same` |
//! | `/report` | GET | the report as JSON | the report |
//! | `/status` | GET | the status as JSON | the status |
//!
//! Spreads are several calls: they are asked of the library and of a served node, and not of a node
//! alone (`RouteSet`).
//!
//! The paths have the shape of the `/fail` routes of TiKV's status server. Of several refusals the
//! first is the answer: 404 `not found`, 405 `bad method`, 413 `too long` of a body of more than
//! 67108864 bytes, 400 `bad text` of a body that isn't UTF-8 where it should be a text, 400
//! `bad number`, and then what the node refuses, with the fault's text. A reply whose memory is
//! refused is 503 without a body. No body ends with a newline.
//!
//! ```rust
//! let routes = Routes::new(alloc)?;
//! let reply = answer(&mut node, alloc, &routes, "PUT", "/fail/a", b"20%3*print(hi)->off");
//! ```
#![tactic(auto)]

mod answering;
mod digest;
mod http_reply;
pub mod laws;
mod paths;
mod reply;
mod request;
mod room;
mod spreading;
mod status;
mod table;
mod targets;
mod wanted;

pub use answering::{answer, answer_in};
pub use digest::{DIGEST_FIELD, MAC_FIELD, digest_text, hmac_sha256, is_intact, mac_text};
pub use http_reply::HttpReply;
pub use paths::Routes;
pub use reply::{ReplyRoom, reply_of};
pub use request::{Asked, MAX_BODY, NodeRequest, Request, RequestFault};
pub use room::{KeptRoom, RoomReply};
pub use spreading::{set_spread, spread};
pub use status::node_status;
pub use table::{Content, GOSSIP_PATH, HELLO_PATH, Keeps, Kind, Methods, RouteSet, Row, Tagging};
pub use targets::{RouteId, Target};
pub use wanted::{Wanted, WantedRef, route};

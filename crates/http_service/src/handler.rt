//! Who answers the requests of all connections.

ghost use Rattle.std.specs.Prelude.{ℕ, List};
ghost use Rattle.http_routes.specs.Asked.{RequestValue, request_value};
ghost use Rattle.http_routes.specs.Replies.{ReplyValue, http_value};

use http_routes::{HttpReply, Request, Row};
use std::alloc::Global;
use std::sync::Wait;
use std::time::Clock;

/// Answers requests.
pub trait Handler: Drop {
    ghost use Rattle.http_routes.specs.declared.table.Row.{Row};

    /// What a request may be answered, by what it asks for, the row of its route, and its body.
    ghost answers: { Self → RequestValue → Row → List ℕ → ReplyValue → Type 0 };

    /// The reply to a request whose route has its method, and whose body came whole and isn't too
    /// long.
    fn reply<R: Wait + Clock>(
        &self,
        rt: &R,
        alloc: Global,
        request: &Request<'_>,
        row: Row,
        body: Vec<u8>,
    ) -> HttpReply
        ensures { answers self.now (request_value request.now) row body.items (http_value result) };
}

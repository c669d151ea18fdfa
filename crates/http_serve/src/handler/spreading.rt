//! Requests to spread the rights of a point.

ghost use Rattle.std.specs.Prelude.{option_map};
ghost use Rattle.http_routes.specs.Replies.{http_value};
ghost use Rattle.http_routes.specs.Answers.{Comes};
ghost use Rattle.http_serve.specs.Spreads.{spread_of};

use http_routes::{HttpReply, set_spread, spread};
use node_core::NodeCore;
use node_registry::Batch;
use std::alloc::Global;

/// A request to spread the rights of a point: its calls are made under the node's lock as one.
#[derive(Drop)]
pub(crate) struct SpreadRequest<'a> {
    pub name: &'a str,
    /// What the point is set to before, if it is set.
    pub text: Option<&'a str>,
}

impl<'a> Batch<HttpReply> for SpreadRequest<'a> {
    ghost comes = { λ was now k new reply. Comes k
        (spread_of was.name.now (option_map (λ text. text.now) was.text)) new (http_value reply) };

    fn make(&mut self, alloc: Global, node: &mut NodeCore) -> HttpReply {
        match self.text {
            Some(text) => set_spread(node, alloc, self.name, text),
            None => spread(node, alloc, self.name),
        }
    }
}

//! How a node was served.

ghost use Rattle.std.specs.Option.{option_or};
ghost use Rattle.std.specs.Prelude.{ℕ, IfSome, option_map, ◌≡◌};
ghost use Rattle.std.specs.Arc.{arc_value};
ghost use Rattle.http_service.specs.Endings.{IsServedTo};
ghost use Rattle.node_service.specs.Endings.{IsNodeServed, IsSomeEnd, shown_reason};

use http_serve::{Ended, Ending, Reason, Served};
use std::sync::Arc;

/// How the service of a node ended.
#[derive(Clone, Copy, Debug, PartialEq, Eq)]
pub struct NodeServed {
    /// How many clients were let in.
    pub clients: u32,
    /// Why that was before as many were as are wanted, if it was.
    pub early: Option<Reason>,
}

impl NodeServed {
    /// Of a service that ended so.
    pub(crate) fn of<'a>(ending: &'a Arc<Ending>, served: Served<'a>) -> NodeServed
        requires { IfSome served.early (λ token. token.of ≡ (arc_value ending.now).reason.id) }
        ensures { (wanted : ℕ) → IsServedTo wanted (arc_value ending.now).reason.id served.entry
            → IsNodeServed wanted result }
    {
        let ending: &'a Ending = ending;
        let early = match &served.early {
            Some(ended) => Some(ending.reason(ended)),
            None => None,
        };
        NodeServed {
            clients: served.clients.count(),
            early,
        }
    }

    /// With the reason for which gossip shows that the service is ended, if it does and the service itself came to
    /// no early end.
    pub(crate) fn or_ended<'a>(self, ending: &'a Ending, ended: Option<Ended<'a>>) -> NodeServed
        requires { IfSome ended (IsSomeEnd ending.now.reason.id) }
        ensures served { (wanted : ℕ) → IsNodeServed wanted self → IsNodeServed wanted result }
        ensures early { result.early ≡ option_or self.early (option_map shown_reason ended.entry) }
    {
        let shown = match ended {
            Some(Ended::Now(token) | Ended::Before(token)) => Some(ending.reason(&token)),
            None => None,
        };
        NodeServed {
            early: self.early.or(shown),
            ..self
        }
    }
}

//! What the definitions of a path's target, and of what is kept of a body, promise. Nothing here runs.

ghost use Rattle.std.specs.Prelude.{◌≡◌, ◌↔◌, ◌≤◌, ℕ, List, Some, length};
ghost use Rattle.message_format.specs.Spelling.{max_message};
ghost use Rattle.node_core.specs.Traces.{Kept};
ghost use Rattle.http_routes.specs.Asked.{asked_of, keeps_of};
ghost use Rattle.http_routes.specs.Bodies.{AreAlike, IsKept};
ghost use Rattle.http_routes.specs.Paths.{SpellsTarget, TargetValue, gossip, hello, target_of};
ghost use Rattle.http_routes.specs.Requests.{wanted_from};
ghost use Rattle.http_routes.specs.declared.table.RouteSet.{RouteSet};
ghost use Rattle.http_routes.specs.declared.table.TheConstants.{GOSSIP_PATH, HELLO_PATH};

/// A path leads to a target just where it is one of the target's paths. So no path leads to two.
pub fn path_spells_target()
    ensures { (path : List ℕ) (target : TargetValue)
        → (target_of path ≡ Some target) ↔ SpellsTarget target path }
{}

/// What a node posts to another arrives at the routes of messages and of hellos.
pub fn posts_arrive()
    ensures gossip { target_of GOSSIP_PATH.now ≡ Some gossip }
    ensures hello { target_of HELLO_PATH.now ≡ Some hello }
{}

/// A node answers a request by what is kept of its body as it does by the whole body. So a server needs
/// to keep no more than the table says.
pub fn kept_body_is_answered_alike()
    ensures { (k : Kept) (set : RouteSet) (method path body kept : List ℕ)
        → length body ≤ max_message → IsKept (keeps_of (asked_of set method path)) body kept
        → AreAlike k (wanted_from set method path kept) (wanted_from set method path body) }
{}

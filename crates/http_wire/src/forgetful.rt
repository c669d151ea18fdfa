//! Which nodes have forgotten what they did.

ghost use Rattle.std.specs.Prelude.{◌≡◌};
ghost use Rattle.http_wire.specs.Hearing.{HasHeard, is_heard};

use http_posts::Forgetting;

/// A node that answered that it has forgotten what it did.
#[derive(Clone, Copy, Debug, PartialEq, Eq)]
pub struct Forgetful {
    pub node: u8,
    pub fault: Forgetting,
}

// Whether it was heard of this node already.
fn is_heard(forgetful: &[Forgetful], node: u8) -> bool
    ensures { result ≡ is_heard forgetful.now node }
{
    forgetful.iter().any(|other| other.node == node)
}

/// Keeps what the answer of a node says of it, unless that is kept already.
pub(crate) fn hear(forgetful: &mut Vec<Forgetful>, node: u8, says: Option<Forgetting>)
    ensures { HasHeard node says forgetful.old.items forgetful.new.items }
{
    let Some(fault) = says else {
        return;
    };
    if !is_heard(forgetful, node) {
        // Without memory for it it isn't heard.
        let _ = forgetful.push(Forgetful { node, fault });
    }
}

//! What of gossip went wrong.

ghost use Rattle.std.specs.Prelude.{◌≡◌};
ghost use Rattle.gossip.specs.Attempts.{attempt_by};

use crate::wire::WireError;
use node_core::NodeFault;

/// A message that was taken from a wire, and that the node rejected.
#[derive(Clone, Copy, Debug, PartialEq, Eq)]
pub struct Rejected {
    /// The node that the message says it is of, if it is long enough to say one.
    pub sender: Option<u8>,
    /// Why the node rejected it. This is never out of memory.
    pub fault: NodeFault,
}

/// A message that was made, and that the wire didn't send.
#[derive(Clone, Copy, Debug, PartialEq, Eq)]
pub struct Failed {
    /// The node that the message is for.
    pub peer: u8,
    /// What the wire answered.
    pub why: WireError,
}

/// Why a peer for which a message was due wasn't sent one.
#[derive(Clone, Copy, Debug, PartialEq, Eq)]
pub enum AttemptFault {
    /// The wire didn't reach the peer, so no message was made.
    Unreached,
    /// The wire didn't send the message.
    NotSent(WireError),
    /// The node didn't make a message. This is never out of memory.
    NotMade(NodeFault),
}

/// What came of the last message that was due for a peer.
#[derive(Clone, Copy, Debug, PartialEq, Eq)]
pub enum Attempt {
    /// None was due.
    NotDue,
    /// It was sent.
    Sent,
    /// None was sent.
    Failed(AttemptFault),
}

impl Attempt {
    /// By why none was sent, if none was.
    pub(crate) fn by(fault: Option<AttemptFault>) -> Attempt
        ensures { result ≡ attempt_by fault }
    {
        match fault {
            None => Attempt::Sent,
            Some(fault) => Attempt::Failed(fault),
        }
    }
}

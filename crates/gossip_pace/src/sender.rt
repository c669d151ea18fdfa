//! Who sent a message.

ghost use Rattle.std.specs.Prelude.{◌≡◌};
ghost use Rattle.gossip_pace.specs.Senders.{sender_of};

/// Where the sender of a message stands in it.
const SENDER_AT: usize = 4;

/// The number of the node that a message says it is of, if it is long enough to say one.
pub fn sender_of(message: &[u8]) -> Option<u8>
    ensures { result ≡ sender_of message.now }
{
    message.get(SENDER_AT).copied()
}

//! What carries messages between nodes.

ghost use Rattle.std.specs.Prelude.{◌≡◌, option_map, IfOk, OnErr, OnOk};
ghost use Rattle.gossip.specs.Traffic.{sends, takes};

use std::alloc::{AllocError, AllocFailed, Global};
use std::error::Error;
use std::fmt;
use std::sync::Wait;

/// Why a message couldn't be sent or taken. `Display` shows the variant's name.
#[derive(Clone, Copy, Debug, PartialEq, Eq)]
pub enum WireError {
    /// The other node's mailbox is full.
    Full,
    /// It isn't known where the other node is.
    NoPeer,
    /// The call failed otherwise.
    Failed,
    /// Memory was refused.
    OutOfMemory,
}

impl fmt::Display for WireError {
    ghost use Rattle.std.specs.Prelude.{Some};
    ghost use Rattle.gossip.specs.FaultText.{wire_error_text};

    ghost output = { λ e. Some (wire_error_text e) };

    fn fmt<W: fmt::Write>(&self, f: &mut fmt::Formatter<W>) -> fmt::Result {
        f.write_str(match self {
            WireError::Full => "Full",
            WireError::NoPeer => "NoPeer",
            WireError::Failed => "Failed",
            WireError::OutOfMemory => "OutOfMemory",
        })
    }
}

impl Error for WireError {}

impl From<AllocError> for WireError {
    ghost use Rattle.std.specs.Prelude.{◌≡◌};
    ghost use Rattle.gossip.specs.declared.wire.WireError.TheVariants.{OutOfMemory};

    ghost from_gives = { λ _ e. e ≡ OutOfMemory };

    fn from(_e: AllocError) -> WireError {
        WireError::OutOfMemory
    }
}

impl<T: Drop> From<AllocFailed<T>> for WireError {
    ghost use Rattle.std.specs.Prelude.{◌≡◌};
    ghost use Rattle.gossip.specs.declared.wire.WireError.TheVariants.{OutOfMemory};

    ghost from_gives = { λ _ e. e ≡ OutOfMemory };

    fn from(_e: AllocFailed<T>) -> WireError {
        WireError::OutOfMemory
    }
}

/// Carries messages from one node to the others, and brings theirs. It may lose messages, bring them
/// late, in another order or several times, or bring other bytes: what a node counts stays true, since
/// the node refuses what is no message for it. Contracts see its traffic: what it sent, each message
/// with the node that it is for, and what was taken from it. What sending comes to each wire says.
pub trait Wire {
    ghost use Rattle.gossip.specs.Traffic.{Traffic};

    ghost traffic: { Self → Traffic };

    /// Sends a message to a node.
    fn send<R: Wait>(
        &mut self,
        rt: &R,
        alloc: Global,
        to: u8,
        message: &[u8],
    ) -> Result<(), WireError>
        ensures ok { OnOk result (traffic self.new ≡ sends to message.now (traffic self.old)) }
        ensures err { OnErr result (traffic self.new ≡ traffic self.old) };

    /// Takes a message that came, if there is one.
    fn take<R: Wait>(&mut self, rt: &R, alloc: Global) -> Result<Option<Vec<u8>>, WireError>
        ensures ok { IfOk result (λ found.
            traffic self.new ≡ takes (option_map (λ m. m.items) found) (traffic self.old)) }
        ensures err { OnErr result (traffic self.new ≡ traffic self.old) };
}

/// A wire that looks for a node before a message to it is made, so that none is made in vain. Contracts
/// see which nodes it reached when it last looked.
pub trait Reach: Wire {
    ghost use Rattle.std.specs.Prelude.{ℕ, Bool};

    ghost reached: { Self → ℕ → Bool };

    /// Whether a node is reached now.
    fn reaches<R: Wait>(&mut self, rt: &R, alloc: Global, to: u8) -> bool
        ensures value { result ≡ reached self.new to }
        ensures same { Self.traffic self.new ≡ Self.traffic self.old };
}

/// A wire to nodes that answer each message. It can ask a node for a message, and keeps which nodes answered
/// that they have lost their state. Neither sends or takes a message.
pub trait PeerWire: Reach {
    /// A node that lost its state, and how it is known.
    type Loss: Drop;

    /// Asks a node to send this one, which has the number `own`, what it knows, whether or not it is news.
    fn ask<R: Wait>(&mut self, rt: &R, alloc: Global, own: u8, to: u8) -> Result<(), WireError>
        ensures same { Self.traffic self.new ≡ Self.traffic self.old };

    /// Returns the nodes that lost their state, by what they answered since the last time.
    fn take_losses(&mut self, alloc: Global) -> Vec<Self::Loss>
        ensures same { Self.traffic self.new ≡ Self.traffic self.old };
}

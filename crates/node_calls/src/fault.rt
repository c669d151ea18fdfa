//! Why a node refuses.

ghost use Rattle.std.specs.Prelude.{◌≡◌, ◌≢◌};
ghost use Rattle.node_calls.specs.FaultCodes.{IsCoded, code_of};

use actions::{ActionFault, SettingFault};
use message_format::WireFault;
use std::alloc::{AllocError, AllocFailed};
use std::error::Error;
use std::fmt;

/// Why a text is refused. `Display` shows the text of the fault that it holds.
#[derive(Clone, Copy, Debug, PartialEq, Eq)]
pub enum TextFault {
    /// As an action text.
    Actions(ActionFault),
    /// As a setting text.
    Setting(SettingFault),
}

impl fmt::Display for TextFault {
    ghost use Rattle.std.specs.Prelude.{Some};
    ghost use Rattle.node_calls.specs.FaultText.{text_fault_text};

    ghost output = { λ e. Some (text_fault_text e) };

    fn fmt<W: fmt::Write>(&self, f: &mut fmt::Formatter<W>) -> fmt::Result {
        match self {
            TextFault::Actions(fault) => write!(f, "{fault}"),
            TextFault::Setting(fault) => write!(f, "{fault}"),
        }
    }
}

impl Error for TextFault {}

/// Why a call is refused. Where several refusals apply, the first of them in this order is the
/// answer, but that out of memory may stand in the place of any other, and that `TooManyPoints` of
/// a delivery comes behind all else that refuses its message. After a refusal the node is as it
/// was.
///
/// `Display` shows the number, the variant's name and each field as `field=value`, or the text of
/// the fault that it holds.
#[derive(Clone, Copy, Debug, PartialEq, Eq)]
pub enum NodeFault {
    /// The trace has as many entries as the configuration allows.
    TraceFull,
    /// The name isn't 1 to 128 bytes of ASCII letters, digits, `_`, `-`, `.` and `:`.
    BadName,
    /// The action text is refused, or the setting text for another reason than a name.
    BadActions(TextFault),
    /// More than 256 names would be held, removed ones counted.
    TooManyPoints,
    /// The clock would pass 2^64 - 1.
    ClockFull,
    /// The point isn't set here.
    NotSet,
    /// The point has no such term.
    NoSuchTerm,
    /// The term has no count.
    NotCounted,
    /// The other node isn't a node of the cluster, or is this one.
    BadNode,
    /// The amount is 0.
    ZeroAmount,
    /// The node has only so many rights.
    TooFewRights { have: u64 },
    /// The total would be above 2^64 - 1.
    CellFull,
    /// A pass of this point needs another number of random draws.
    BadWords { need: u8 },
    /// The bytes are no message.
    BadMessage(WireFault),
    /// The message is for another node.
    NotForMe,
    /// The message says more of this node than the node knows itself.
    OwnAhead,
    /// The message knows a version of this node that there isn't yet.
    AckAhead,
    /// With the message a term would have more executions than its count and what was granted.
    Overspent,
    /// The cluster hasn't 1 to 32 nodes, or the node isn't one of them.
    BadConfig,
    /// Memory was refused.
    OutOfMemory,
}

impl NodeFault {
    /// The number of the fault's code, with which its text begins: 6 of `N6 NotSet`. None is 0.
    #[tactic(auto, using(crate::proofs::FaultCodes::coded))]
    pub fn code(self) -> u8
        ensures value { result ≡ code_of self }
        ensures text { IsCoded self }
        ensures some { result ≢ 0 }
    {
        match self {
            NodeFault::TraceFull => 1,
            NodeFault::BadName => 2,
            NodeFault::BadActions(_) => 3,
            NodeFault::TooManyPoints => 4,
            NodeFault::ClockFull => 5,
            NodeFault::NotSet => 6,
            NodeFault::NoSuchTerm => 7,
            NodeFault::NotCounted => 8,
            NodeFault::BadNode => 9,
            NodeFault::ZeroAmount => 10,
            NodeFault::TooFewRights { .. } => 11,
            NodeFault::CellFull => 12,
            NodeFault::BadWords { .. } => 14,
            NodeFault::BadMessage(_) => 16,
            NodeFault::NotForMe => 17,
            NodeFault::OwnAhead => 18,
            NodeFault::AckAhead => 19,
            NodeFault::Overspent => 20,
            NodeFault::BadConfig => 21,
            NodeFault::OutOfMemory => 22,
        }
    }
}

impl fmt::Display for NodeFault {
    ghost use Rattle.std.specs.Prelude.{Some};
    ghost use Rattle.node_calls.specs.FaultText.{node_fault_text};

    ghost output = { λ e. Some (node_fault_text e) };

    fn fmt<W: fmt::Write>(&self, f: &mut fmt::Formatter<W>) -> fmt::Result {
        let text = match self {
            NodeFault::TraceFull => "N1 TraceFull",
            NodeFault::BadName => "N2 BadName",
            NodeFault::BadActions(fault) => return write!(f, "N3 BadActions {fault}"),
            NodeFault::TooManyPoints => "N4 TooManyPoints",
            NodeFault::ClockFull => "N5 ClockFull",
            NodeFault::NotSet => "N6 NotSet",
            NodeFault::NoSuchTerm => "N7 NoSuchTerm",
            NodeFault::NotCounted => "N8 NotCounted",
            NodeFault::BadNode => "N9 BadNode",
            NodeFault::ZeroAmount => "N10 ZeroAmount",
            NodeFault::TooFewRights { have } => return write!(f, "N11 TooFewRights have={have}"),
            NodeFault::CellFull => "N12 CellFull",
            NodeFault::BadWords { need } => return write!(f, "N14 BadWords need={need}"),
            NodeFault::BadMessage(fault) => return write!(f, "N16 BadMessage {fault}"),
            NodeFault::NotForMe => "N17 NotForMe",
            NodeFault::OwnAhead => "N18 OwnAhead",
            NodeFault::AckAhead => "N19 AckAhead",
            NodeFault::Overspent => "N20 Overspent",
            NodeFault::BadConfig => "N21 BadConfig",
            NodeFault::OutOfMemory => "N22 OutOfMemory",
        };
        f.write_str(text)
    }
}

impl Error for NodeFault {}

impl From<AllocError> for NodeFault {
    ghost use Rattle.std.specs.Prelude.{◌≡◌};
    ghost use Rattle.node_calls.specs.declared.fault.NodeFault.TheVariants.{OutOfMemory};

    ghost from_gives = { λ _ e. e ≡ OutOfMemory };

    fn from(_e: AllocError) -> NodeFault {
        NodeFault::OutOfMemory
    }
}

impl<T: Drop> From<AllocFailed<T>> for NodeFault {
    ghost use Rattle.std.specs.Prelude.{◌≡◌};
    ghost use Rattle.node_calls.specs.declared.fault.NodeFault.TheVariants.{OutOfMemory};

    ghost from_gives = { λ _ e. e ≡ OutOfMemory };

    fn from(_e: AllocFailed<T>) -> NodeFault {
        NodeFault::OutOfMemory
    }
}

//! The text of a node's fault without its code.

use node_core::NodeFault;
use std::fmt;

/// A node's fault. `Display` shows its name and each field as `field=value`, or the text of the fault that
/// it holds: all of the fault's text but the code in front (`laws::faults_are_coded`).
#[derive(Clone, Copy)]
pub struct Cause(pub NodeFault);

impl fmt::Display for Cause {
    ghost use Rattle.std.specs.Prelude.{Some};
    ghost use Rattle.answers.specs.Causes.{cause_text};

    ghost output = { λ c. Some (cause_text c.0) };

    fn fmt<W: fmt::Write>(&self, f: &mut fmt::Formatter<W>) -> fmt::Result {
        let text = match self.0 {
            NodeFault::TraceFull => "TraceFull",
            NodeFault::BadName => "BadName",
            NodeFault::BadActions(fault) => return write!(f, "BadActions {fault}"),
            NodeFault::TooManyPoints => "TooManyPoints",
            NodeFault::ClockFull => "ClockFull",
            NodeFault::NotSet => "NotSet",
            NodeFault::NoSuchTerm => "NoSuchTerm",
            NodeFault::NotCounted => "NotCounted",
            NodeFault::BadNode => "BadNode",
            NodeFault::ZeroAmount => "ZeroAmount",
            NodeFault::TooFewRights { have } => return write!(f, "TooFewRights have={have}"),
            NodeFault::CellFull => "CellFull",
            NodeFault::BadWords { need } => return write!(f, "BadWords need={need}"),
            NodeFault::BadMessage(fault) => return write!(f, "BadMessage {fault}"),
            NodeFault::NotForMe => "NotForMe",
            NodeFault::OwnAhead => "OwnAhead",
            NodeFault::AckAhead => "AckAhead",
            NodeFault::Overspent => "Overspent",
            NodeFault::BadConfig => "BadConfig",
            NodeFault::OutOfMemory => "OutOfMemory",
        };
        f.write_str(text)
    }
}

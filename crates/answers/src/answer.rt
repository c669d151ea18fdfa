//! What a program answers: a script's lines, a run of threads, an audit.

ghost use Rattle.std.specs.Prelude.{◌≡◌};
ghost use Rattle.answers.specs.Answers.{answer_value, kind_of};

use actions::Task;
use audit::{AuditFault, Total};
use cluster_model::WorldFault;
use node_core::NodeCore;
use stamp_register::Stamp;

/// An answer. Each is one line or one JSON object, except that a report has several.
#[derive(Clone, Copy)]
pub enum Answer<'a> {
    /// A point was set.
    Set(Stamp),
    /// A point was removed.
    Removed(Stamp),
    /// So many points were set.
    Loaded(u16),
    /// A pass of a point that isn't set.
    Unset,
    /// A pass that triggered no term.
    NoTerm(Stamp),
    /// A pass that triggered this term, counted from 0.
    Act {
        stamp: Stamp,
        term: u8,
        task: &'a Task,
    },
    /// All rights moved from this node to that one.
    Shifted(u64),
    /// All rights that the node granted itself.
    Granted(u64),
    /// The number of a message.
    Message(usize),
    /// Whether a delivered message changed something.
    Delivered(bool),
    /// Why a line was refused.
    Refused(WorldFault),
    /// A line that asks for nothing.
    BadLine,
    /// The points that are set, as a setting text.
    Listed(&'a str),
    /// What a node knows of each point.
    Report(&'a NodeCore),
    /// The rights that a node has left.
    Rights(i128),
    /// How often a term was executed.
    Spent(u128),
    /// How often a point was passed while it was set.
    Hits(u128),
    /// The workers of a run of threads.
    Workers(usize),
    /// The accepted calls of a run of threads.
    Calls(u128),
    /// An audit found a schedule.
    Yes,
    /// An audit found none, for this reason.
    No(AuditFault),
    /// What an audit added up for a term.
    Budget(&'a Total),
    /// The journal of this node was cut.
    Cut(u8),
}

/// What a script that is checked, or that is warned of, asks of an answer.
#[derive(Clone, Copy)]
pub enum Kind {
    /// A pass of a point that isn't set.
    Unset,
    /// The line was refused.
    Refused,
    /// Any other answer, or none.
    Other,
}

impl Answer<'_> {
    /// The kind of the answer.
    pub fn kind(self) -> Kind
        ensures { result ≡ kind_of (answer_value self.entry) }
    {
        match self {
            Answer::Unset => Kind::Unset,
            Answer::Refused(_) => Kind::Refused,
            Answer::Set(_)
            | Answer::Removed(_)
            | Answer::Loaded(_)
            | Answer::NoTerm(_)
            | Answer::Act { .. }
            | Answer::Shifted(_)
            | Answer::Granted(_)
            | Answer::Message(_)
            | Answer::Delivered(_)
            | Answer::BadLine
            | Answer::Listed(_)
            | Answer::Report(_)
            | Answer::Rights(_)
            | Answer::Spent(_)
            | Answer::Hits(_)
            | Answer::Workers(_)
            | Answer::Calls(_)
            | Answer::Yes
            | Answer::No(_)
            | Answer::Budget(_)
            | Answer::Cut(_) => Kind::Other,
        }
    }
}

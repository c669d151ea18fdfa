//! What a call is drawn as.

ghost use Rattle.std.specs.Prelude.{◌≡◌};
ghost use Rattle.actions.specs.Value.{task_value};
ghost use Rattle.node_calls.specs.Told.{passed_ref, reply_ref_told};
ghost use Rattle.drill_picture.specs.Signs.{is_run, sign_of, sign_of_pass, sign_of_task, sign_word};

use actions::Task;
use node_calls::{PassReplyRef, ReplyRef};

/// What a call is drawn as, which is a matter of what it was answered.
#[derive(Clone, Copy, Debug)]
pub enum Sign {
    Set,
    Removed,
    Loaded,
    /// A pass of a point that isn't set.
    Unset,
    /// A pass that triggered no term.
    NoTerm,
    /// From here on a pass, by the task of the term that it triggered.
    Off,
    Return,
    Sleep,
    Panic,
    Print,
    Pause,
    Yield,
    Delay,
    /// Rights were moved to another node.
    Sent,
    Granted,
    Emitted,
    /// A message was taken that told something, or nothing.
    News,
    Same,
}

fn sign_of_task(task: &Task) -> Sign
    ensures { result ≡ sign_of_task (task_value task.now) }
{
    match task {
        Task::Off => Sign::Off,
        Task::Return(_) => Sign::Return,
        Task::Sleep(_) => Sign::Sleep,
        Task::Panic(_) => Sign::Panic,
        Task::Print(_) => Sign::Print,
        Task::Pause => Sign::Pause,
        Task::Yield => Sign::Yield,
        Task::Delay(_) => Sign::Delay,
    }
}

fn sign_of_pass(reply: PassReplyRef<'_>) -> Sign
    ensures { result ≡ sign_of_pass (passed_ref reply.entry) }
{
    match reply {
        PassReplyRef::Unset => Sign::Unset,
        PassReplyRef::NoTerm { .. } => Sign::NoTerm,
        PassReplyRef::Act { task, .. } => sign_of_task(task),
    }
}

impl Sign {
    /// The sign of a call that was answered so.
    pub fn of(reply: ReplyRef<'_>) -> Sign
        ensures { result ≡ sign_of (reply_ref_told reply.entry) }
    {
        match reply {
            ReplyRef::Set(_) => Sign::Set,
            ReplyRef::Remove(_) => Sign::Removed,
            ReplyRef::Load(_) => Sign::Loaded,
            ReplyRef::Pass(reply) => sign_of_pass(reply),
            ReplyRef::Shift(_) => Sign::Sent,
            ReplyRef::Grant(_) => Sign::Granted,
            ReplyRef::Emit(_) => Sign::Emitted,
            ReplyRef::Deliver(true) => Sign::News,
            ReplyRef::Deliver(false) => Sign::Same,
        }
    }

    /// The word for it, which also names its shape.
    pub fn word(self) -> &'static str
        ensures { result.now ≡ sign_word self }
    {
        match self {
            Sign::Set => "set",
            Sign::Removed => "removed",
            Sign::Loaded => "loaded",
            Sign::Unset => "unset",
            Sign::NoTerm => "none",
            Sign::Off => "off",
            Sign::Return => "return",
            Sign::Sleep => "sleep",
            Sign::Panic => "panic",
            Sign::Print => "print",
            Sign::Pause => "pause",
            Sign::Yield => "yield",
            Sign::Delay => "delay",
            Sign::Sent => "sent",
            Sign::Granted => "granted",
            Sign::Emitted => "emitted",
            Sign::News => "news",
            Sign::Same => "same",
        }
    }

    /// Whether a term ran.
    pub fn is_run(self) -> bool
        ensures { result ≡ is_run self }
    {
        match self {
            Sign::Off
            | Sign::Return
            | Sign::Sleep
            | Sign::Panic
            | Sign::Print
            | Sign::Pause
            | Sign::Yield
            | Sign::Delay => true,
            Sign::Set
            | Sign::Removed
            | Sign::Loaded
            | Sign::Unset
            | Sign::NoTerm
            | Sign::Sent
            | Sign::Granted
            | Sign::Emitted
            | Sign::News
            | Sign::Same => false,
        }
    }
}

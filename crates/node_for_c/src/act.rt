//! A pass as C is told it.

ghost use Rattle.std.specs.Prelude.{◌≡◌, option_map};
ghost use Rattle.actions.specs.Value.{task_value};
ghost use Rattle.node_calls.specs.Told.{passed, passed_ref};
ghost use Rattle.node_for_c.specs.Told.{IsTold, passed_text, task_number, task_text, task_time};

use actions::Task;
use node_core::{PassReply, PassReplyRef};
use std::alloc::Global;

/// What a pass came to.
#[repr(C)]
#[derive(Drop, Clone, Copy)]
pub struct Act {
    /// The stamp of the point's setting, if it is set: its clock, and below its node.
    pub clock: u64,
    /// The milliseconds of a sleep or a delay.
    pub millis: u64,
    /// How many bytes the text of the task has, which is to be fetched.
    pub text_len: u64,
    pub node: u8,
    /// The term that was triggered, numbered from 0.
    pub term: u8,
    /// 0: the point isn't set. 1: no term was triggered. 2: `term` was.
    pub outcome: u8,
    /// 0 off, 1 return, 2 sleep, 3 panic, 4 print, 5 pause, 6 yield, 7 delay.
    pub task: u8,
    /// Whether the task has a text, which may be empty.
    pub has_text: bool,
}

/// A pass of a point that isn't set, and what is left of one that is refused.
pub const UNSET: Act = Act {
    clock: 0,
    millis: 0,
    text_len: 0,
    node: 0,
    term: 0,
    outcome: 0,
    task: 0,
    has_text: false,
};

// The number, the time and the text of a task.
fn parts_of(task: &Task) -> (u8, u64, Option<&str>)
    ensures number { result.0 ≡ task_number (task_value task.now) }
    ensures time { result.1 ≡ task_time (task_value task.now) }
    ensures text { option_map (λ t. t.now) result.2 ≡ task_text (task_value task.now) }
{
    match task {
        Task::Off => (0, 0, None),
        Task::Return(text) => (1, 0, text.as_deref()),
        Task::Sleep(time) => (2, *time, None),
        Task::Panic(text) => (3, 0, text.as_deref()),
        Task::Print(text) => (4, 0, text.as_deref()),
        Task::Pause => (5, 0, None),
        Task::Yield => (6, 0, None),
        Task::Delay(time) => (7, *time, None),
    }
}

/// A pass as C is told it.
pub fn act_of(reply: PassReplyRef<'_>) -> Act
    ensures { IsTold (passed_ref reply.entry) result }
{
    match reply {
        PassReplyRef::Unset => UNSET,
        PassReplyRef::NoTerm { stamp } => Act {
            clock: stamp.clock,
            millis: 0,
            text_len: 0,
            node: stamp.node,
            term: 0,
            outcome: 1,
            task: 0,
            has_text: false,
        },
        PassReplyRef::Act { stamp, term, task } => {
            let (task, millis, text) = parts_of(task);
            Act {
                clock: stamp.clock,
                millis,
                text_len: text.unwrap_or("").len() as u64,
                node: stamp.node,
                term,
                outcome: 2,
                task,
                has_text: text.is_some(),
            }
        }
    }
}

/// The text of the task that a pass came to; empty where there is none.
pub fn text_of(reply: PassReplyRef<'_>) -> &str
    ensures { result.now ≡ passed_text (passed_ref reply.entry) }
{
    match reply {
        PassReplyRef::Unset | PassReplyRef::NoTerm { .. } => "",
        PassReplyRef::Act { task, .. } => {
            let (_, _, text) = parts_of(task);
            text.unwrap_or("")
        }
    }
}

/// The same, in the memory in which it lies.
pub fn into_text(alloc: Global, reply: PassReply) -> Vec<u8>
    ensures { result.items ≡ passed_text (passed reply) }
{
    match reply {
        PassReply::Act {
            task: Task::Return(Some(text)) | Task::Panic(Some(text)) | Task::Print(Some(text)),
            ..
        } => text.into_bytes(),
        _ => Vec::new(alloc),
    }
}

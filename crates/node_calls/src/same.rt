//! Whether two calls tell the same.

ghost use Rattle.std.specs.Prelude.{◌≡◌, ◌↔◌, IsTrue, option_map, string_bytes};
ghost use Rattle.actions.specs.Value.{task_value};
ghost use Rattle.node_calls.specs.Told.{ask_ref_told, grants, passed_ref, reply_ref_told, shifts};

use crate::ask_ref::AskRef;
use crate::reply_ref::{PassReplyRef, ReplyRef};
use actions::Task;

// Whether an ask moves these rights.
fn is_shift(ask: AskRef<'_>, name: &str, term: u8, to: u8, amount: u64) -> bool
    ensures { IsTrue result ↔ (ask_ref_told ask.entry ≡ shifts name.now term to amount) }
{
    match ask {
        AskRef::Shift {
            name: n,
            term: k,
            to: j,
            amount: a,
        } => name == n && term == k && to == j && amount == a,
        _ => false,
    }
}

// Whether an ask grants these rights.
fn is_grant(ask: AskRef<'_>, name: &str, term: u8, amount: u64) -> bool
    ensures { IsTrue result ↔ (ask_ref_told ask.entry ≡ grants name.now term amount) }
{
    match ask {
        AskRef::Grant {
            name: n,
            term: k,
            amount: a,
        } => name == n && term == k && amount == a,
        _ => false,
    }
}

impl AskRef<'_> {
    /// Whether another one asks the same, to the byte.
    pub fn is_same(self, other: AskRef<'_>) -> bool
        ensures { IsTrue result ↔ (ask_ref_told self.entry ≡ ask_ref_told other.entry) }
    {
        match self {
            AskRef::Set { name, text } => match other {
                AskRef::Set { name: n, text: t } => name == n && text == t,
                _ => false,
            },
            AskRef::Remove { name } => match other {
                AskRef::Remove { name: n } => name == n,
                _ => false,
            },
            AskRef::Load { text } => match other {
                AskRef::Load { text: t } => text == t,
                _ => false,
            },
            AskRef::Pass { name } => match other {
                AskRef::Pass { name: n } => name == n,
                _ => false,
            },
            AskRef::Shift {
                name,
                term,
                to,
                amount,
            } => is_shift(other, name, term, to, amount),
            AskRef::Grant { name, term, amount } => is_grant(other, name, term, amount),
            AskRef::Emit { to } => match other {
                AskRef::Emit { to: j } => to == j,
                _ => false,
            },
            AskRef::Deliver { message } => match other {
                AskRef::Deliver { message: m } => message == m,
                _ => false,
            },
        }
    }
}

fn same_text(text: &Option<String>, other: &Option<String>) -> bool
    ensures { IsTrue result
        ↔ (option_map string_bytes text.now ≡ option_map string_bytes other.now) }
{
    match text {
        Some(text) => match other {
            Some(other) => text == other,
            None => false,
        },
        None => other.is_none(),
    }
}

fn same_task(task: &Task, other: &Task) -> bool
    ensures { IsTrue result ↔ (task_value task.now ≡ task_value other.now) }
{
    match task {
        Task::Off => matches!(other, Task::Off),
        Task::Return(text) => match other {
            Task::Return(t) => same_text(text, t),
            _ => false,
        },
        Task::Sleep(time) => match other {
            Task::Sleep(t) => *time == *t,
            _ => false,
        },
        Task::Panic(text) => match other {
            Task::Panic(t) => same_text(text, t),
            _ => false,
        },
        Task::Print(text) => match other {
            Task::Print(t) => same_text(text, t),
            _ => false,
        },
        Task::Pause => matches!(other, Task::Pause),
        Task::Yield => matches!(other, Task::Yield),
        Task::Delay(time) => match other {
            Task::Delay(t) => *time == *t,
            _ => false,
        },
    }
}

impl PassReplyRef<'_> {
    /// Whether another pass came to the same.
    pub fn is_same(self, other: PassReplyRef<'_>) -> bool
        ensures { IsTrue result ↔ (passed_ref self.entry ≡ passed_ref other.entry) }
    {
        match self {
            PassReplyRef::Unset => matches!(other, PassReplyRef::Unset),
            PassReplyRef::NoTerm { stamp } => match other {
                PassReplyRef::NoTerm { stamp: s } => stamp == s,
                _ => false,
            },
            PassReplyRef::Act { term, stamp, task } => match other {
                PassReplyRef::Act {
                    term: k,
                    stamp: s,
                    task: t,
                } => term == k && stamp == s && same_task(task, t),
                _ => false,
            },
        }
    }
}

impl ReplyRef<'_> {
    /// Whether another one answers the same, to the byte.
    pub fn is_same(self, other: ReplyRef<'_>) -> bool
        ensures { IsTrue result ↔ (reply_ref_told self.entry ≡ reply_ref_told other.entry) }
    {
        match self {
            ReplyRef::Set(stamp) => match other {
                ReplyRef::Set(s) => stamp == s,
                _ => false,
            },
            ReplyRef::Remove(stamp) => match other {
                ReplyRef::Remove(s) => stamp == s,
                _ => false,
            },
            ReplyRef::Load(entries) => match other {
                ReplyRef::Load(e) => entries == e,
                _ => false,
            },
            ReplyRef::Pass(pass) => match other {
                ReplyRef::Pass(p) => pass.is_same(p),
                _ => false,
            },
            ReplyRef::Shift(total) => match other {
                ReplyRef::Shift(t) => total == t,
                _ => false,
            },
            ReplyRef::Grant(total) => match other {
                ReplyRef::Grant(t) => total == t,
                _ => false,
            },
            ReplyRef::Emit(message) => match other {
                ReplyRef::Emit(m) => message == m,
                _ => false,
            },
            ReplyRef::Deliver(changed) => match other {
                ReplyRef::Deliver(c) => changed == c,
                _ => false,
            },
        }
    }
}

//! A term of an action text, and the task that it asks for.

ghost use Rattle.std.specs.Prelude.{◌≡◌, option_map, string_bytes, IfOk};

use crate::percent::{ALL_PARTS, Percent};
use std::alloc::{AllocError, Global};
use std::fmt;

/// What is to be done where a term is triggered. The tasks are those of fail-rs, and carrying one
/// out is the caller's part.
///
/// A text in parentheses is kept as it is written, and none is unlike an empty one.
/// `Display` shows a task as a canonical action text does.
#[derive(Debug, Drop)]
pub enum Task {
    /// `off`: nothing.
    Off,
    /// `return`: the function around the point ends early, with this text.
    Return(Option<String>),
    /// `sleep`: the thread sleeps, for so many milliseconds.
    Sleep(u64),
    /// `panic`: a panic, with this message.
    Panic(Option<String>),
    /// `print`: this message is printed.
    Print(Option<String>),
    /// `pause`: the thread waits until the point has another setting.
    Pause,
    /// `yield`: the thread gives way to others.
    Yield,
    /// `delay`: the thread waits busily, for so many milliseconds.
    Delay(u64),
}

/// One term of an action text. `Display` shows it as a canonical action text does.
#[derive(Debug, Drop)]
pub struct Term {
    /// How likely the term is to pass, in parts per million: 1,000,000 is always.
    pub ppm: u32,
    /// How often the term may run, if it is counted.
    pub count: Option<u64>,
    /// What is done where the term is triggered.
    pub task: Task,
}

impl fmt::Display for Task {
    ghost use Rattle.std.specs.Prelude.{Some};
    ghost use Rattle.actions.specs.Value.{task_value};
    ghost use Rattle.actions.specs.Canonical.{task_text};

    ghost output = { λ t. Some (task_text (task_value t)) };

    fn fmt<W: fmt::Write>(&self, f: &mut fmt::Formatter<W>) -> fmt::Result {
        match self {
            Task::Off => f.write_str("off"),
            Task::Return(None) => f.write_str("return"),
            Task::Return(Some(text)) => write!(f, "return({text})"),
            Task::Sleep(time) => write!(f, "sleep({time})"),
            Task::Panic(None) => f.write_str("panic"),
            Task::Panic(Some(text)) => write!(f, "panic({text})"),
            Task::Print(None) => f.write_str("print"),
            Task::Print(Some(text)) => write!(f, "print({text})"),
            Task::Pause => f.write_str("pause"),
            Task::Yield => f.write_str("yield"),
            Task::Delay(time) => write!(f, "delay({time})"),
        }
    }
}

impl fmt::Display for Term {
    ghost use Rattle.std.specs.Prelude.{Some};
    ghost use Rattle.actions.specs.Value.{term_value};
    ghost use Rattle.actions.specs.Canonical.{term_text};

    ghost output = { λ t. Some (term_text (term_value t)) };

    fn fmt<W: fmt::Write>(&self, f: &mut fmt::Formatter<W>) -> fmt::Result {
        if self.ppm != ALL_PARTS {
            let percent = Percent(self.ppm);
            write!(f, "{percent}%")?;
        }
        if let Some(count) = self.count {
            write!(f, "{count}*")?;
        }
        self.task.fmt(f)
    }
}

pub(crate) fn copied_text(alloc: Global, text: Option<&str>) -> Result<Option<String>, AllocError>
    ensures { IfOk result (λ t. option_map string_bytes t ≡ option_map (λ a. a.now) text.entry) }
{
    match text {
        None => Ok(None),
        Some(text) => Ok(Some(String::from_str(alloc, text)?)),
    }
}

impl Task {
    ghost use Rattle.std.specs.Prelude.{◌≡◌, IfOk};
    ghost use Rattle.actions.specs.Value.{task_value};

    /// A task of its own that means the same.
    pub fn copied(&self, alloc: Global) -> Result<Task, AllocError>
        ensures { IfOk result (λ t. task_value t ≡ task_value self.now) }
    {
        match self {
            Task::Off => Ok(Task::Off),
            Task::Return(text) => Ok(Task::Return(copied_text(alloc, text.as_deref())?)),
            Task::Sleep(time) => Ok(Task::Sleep(*time)),
            Task::Panic(text) => Ok(Task::Panic(copied_text(alloc, text.as_deref())?)),
            Task::Print(text) => Ok(Task::Print(copied_text(alloc, text.as_deref())?)),
            Task::Pause => Ok(Task::Pause),
            Task::Yield => Ok(Task::Yield),
            Task::Delay(time) => Ok(Task::Delay(*time)),
        }
    }
}

impl Term {
    ghost use Rattle.std.specs.Prelude.{◌≡◌, IfOk};
    ghost use Rattle.actions.specs.Value.{term_value};
    ghost use Rattle.actions.specs.Choice.{takes_word};

    /// A term of its own that means the same.
    pub fn copied(&self, alloc: Global) -> Result<Term, AllocError>
        ensures { IfOk result (λ t. term_value t ≡ term_value self.now) }
    {
        Ok(Term {
            ppm: self.ppm,
            count: self.count,
            task: self.task.copied(alloc)?,
        })
    }

    /// Whether a choice takes a random draw for the term, as for each that isn't certain.
    pub(crate) fn takes_word(&self) -> bool
        ensures { result ≡ takes_word (term_value self.now) }
    {
        self.ppm < ALL_PARTS
    }
}

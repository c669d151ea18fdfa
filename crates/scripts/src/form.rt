//! How a script's answers are printed.

ghost use Rattle.std.specs.Prelude.{◌≡◌, OnOk};
ghost use Rattle.answers.specs.Printing.{with_bytes};
ghost use Rattle.scripts.specs.Script.{echo_of};
ghost use Rattle.scripts.specs.Written.{echo_in, format_of};

use answers::{Format, Printed};
use std::alloc::AllocError;
use streams::is_skipped;

/// How a script's answers are printed.
#[derive(Clone, Copy)]
pub enum Form {
    /// As lines.
    Plain,
    /// As a transcript for people: as lines, each behind the line of the script, which has `> ` in front.
    /// Lines that are skipped are left out.
    Echoed,
    /// As JSON objects.
    Objects,
}

impl Form {
    /// The writer of the answers.
    pub(crate) fn format(self) -> Format
        ensures { result ≡ format_of self }
    {
        match self {
            Form::Plain | Form::Echoed => Format::Lines,
            Form::Objects => Format::Objects,
        }
    }

    /// Prints a line of the script itself, where that is wanted.
    pub(crate) fn push_echo(self, line: &[u8], printed: &mut Printed) -> Result<(), AllocError>
        ensures { OnOk result (printed.new ≡ with_bytes printed.old (echo_in self line.now)) }
    {
        match self {
            Form::Echoed => push_echo(line, printed),
            Form::Plain | Form::Objects => Ok(()),
        }
    }
}

// Puts a line behind `> `, unless it is skipped.
fn push_echo(line: &[u8], printed: &mut Printed) -> Result<(), AllocError>
    ensures { OnOk result (printed.new ≡ with_bytes printed.old (echo_of line.now)) }
{
    if is_skipped(line) {
        return Ok(());
    }
    printed.put_bytes(b"> ")?;
    printed.put_bytes(line)?;
    printed.put_bytes(b"\n")
}

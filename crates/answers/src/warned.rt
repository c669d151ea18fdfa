//! Warnings as JSON objects.

ghost use Rattle.std.specs.Prelude.{◌≡◌, ◌++◌, OnOk};
ghost use Rattle.answers.specs.Warned.{is_text, warning_object, warning_objects};

use crate::strings::push_string;
use std::alloc::AllocError;
use streams::text_of;
use warnings::Warnings;

fn is_text(line: &[u8]) -> bool
    ensures { result ≡ is_text line.now }
{
    text_of(line).is_some()
}

fn push_warning(line: &[u8], out: &mut Vec<u8>) -> Result<(), AllocError>
    ensures { OnOk result (out.new.items ≡ out.old.items ++ warning_object line.now) }
{
    out.extend_from_slice(b"{\"says\":\"")?;
    push_string(is_text(line), line, out)?;
    out.extend_from_slice(b"\"}\n")
}

/// Adds an object for each warning.
pub fn push_warnings(warnings: &Warnings, out: &mut Vec<u8>) -> Result<(), AllocError>
    ensures { OnOk result (out.new.items ≡ out.old.items ++ warning_objects warnings.now) }
{
    for line in warnings.lines() {
        push_warning(line, out)?;
    }
    Ok(())
}

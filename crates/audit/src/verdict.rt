//! An audit's answer as lines.

ghost use Rattle.std.specs.Prelude.{◌≡◌, ◌++◌, IfOk, OnOk, flat_map, string_bytes};
ghost use Rattle.audit.specs.VerdictText.{no_text, total_line, verdict_text, yes_text};

use crate::auditing::AuditYes;
use crate::fault::AuditFault;
use crate::total::Total;
use std::alloc::{AllocError, Global};
use std::fmt::Write;

/// What an audit answered: `audit yes` and a line of each total, or `audit no` and the fault.
pub fn verdict_text(
    alloc: Global,
    verdict: &Result<AuditYes, AuditFault>,
) -> Result<String, AllocError>
    ensures { IfOk result (λ text. string_bytes text ≡ verdict_text verdict.now) }
{
    match verdict {
        Ok(found) => yes_text(alloc, found.totals.as_slice()),
        Err(fault) => no_text(alloc, *fault),
    }
}

fn yes_text(alloc: Global, totals: &[Total]) -> Result<String, AllocError>
    ensures { IfOk result (λ text. string_bytes text ≡ yes_text totals.now) }
{
    let mut text = String::from_str(alloc, "audit yes\n")?;
    push_totals(&mut text, totals)?;
    Ok(text)
}

fn no_text(alloc: Global, fault: AuditFault) -> Result<String, AllocError>
    ensures { IfOk result (λ text. string_bytes text ≡ no_text fault) }
{
    let mut text = String::new(alloc);
    writeln!(text, "audit no {fault}")?;
    Ok(text)
}

// Adds a line of each total.
fn push_totals(text: &mut String, totals: &[Total]) -> Result<(), AllocError>
    ensures { OnOk result (string_bytes text.new
        ≡ string_bytes text.old ++ flat_map total_line totals.now) }
{
    for total in totals {
        writeln!(text, "{total}")?;
    }
    Ok(())
}

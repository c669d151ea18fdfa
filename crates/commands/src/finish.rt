//! How a subcommand ends: what it says last, and its exit status.

ghost use Rattle.std.specs.Prelude.{◌≡◌, ◌↔◌, ◌⊎◌, [], true, false, IfOk, IsOk, IsErr, Ok};
ghost use Rattle.std.specs.Process.{exit_status};
ghost use Rattle.streams.specs.Streams.{Writes};
ghost use Rattle.streams.specs.Watched.{has_failed};
ghost use Rattle.commands.specs.Statuses.{HasStatus};

use crate::audit_refused::AuditRefused;
use actions::{ActionFault, Actions};
use command_line::quoted;
use drills::DrillFault;
use scripts::{ScriptFault, Watched, write_text};
use std::alloc::AllocGlobal;
use std::fmt::Display;
use std::io::Write;
use std::process::ExitCode;

/// Says why something was refused and, where it is known, in a second line what was met and what to
/// do.
pub fn refuse<R: Eprint, E: Display + Drop>(
    rt: &R,
    fault: E,
    advice: &str,
) -> anyhow::Result<ExitCode>
    ensures { HasStatus result 1 }
{
    eprintln!(rt; "refused {fault}")?;
    if !advice.is_empty() {
        eprintln!(rt; "{advice}")?;
    }
    Ok(ExitCode::FAILURE)
}

/// Says what there is to say: that it can't be written is no fault.
pub fn say<E: Write>(errors: &mut Watched<E>, said: &[u8])
    requires { has_failed errors.old ≡ false }
    ensures said { has_failed errors.new ≡ false →
        Writes E.contents errors.old errors.new said.now }
    ensures nothing { said.now ≡ [] → errors.new ≡ errors.old }
{
    if !said.is_empty() {
        let _ = write_text(errors, said);
    }
}

/// Says that no file has this path.
pub fn refuse_missing<R: Eprint + AllocGlobal>(rt: &R, path: &str) -> anyhow::Result<ExitCode>
    ensures { HasStatus result 1 }
{
    let shown = quoted(rt.alloc(), path)?;
    let advice = format!(in rt.alloc(); "{shown}: no such file")?;
    refuse(rt, DrillFault::ReadFailed, &advice)
}

/// After an action text was read: prints its canonical spelling, or why it was refused.
pub fn finish_parse<R: Print + Eprint>(
    rt: &R,
    actions: Result<Actions, ActionFault>,
    advice: &str,
) -> anyhow::Result<ExitCode>
    ensures done { IfOk result (λ code. exit_status code ≡ 0 ↔ IsOk actions) }
    ensures refused { IfOk result (λ code. exit_status code ≡ 1 ↔ IsErr actions) }
{
    match actions {
        Ok(actions) => {
            println!(rt; "{}", actions.text())?;
            Ok(ExitCode::SUCCESS)
        }
        Err(fault) => refuse(rt, fault, advice),
    }
}

/// After a script was run: prints why it was refused, if it was.
pub fn finish_script<R: Eprint>(
    rt: &R,
    run: Result<(), ScriptFault>,
    advice: &str,
) -> anyhow::Result<ExitCode>
    ensures done { IfOk result (λ code. exit_status code ≡ 0 ↔ IsOk run) }
    ensures refused { IfOk result (λ code. exit_status code ≡ 1 ↔ IsErr run) }
{
    match run {
        Ok(()) => Ok(ExitCode::SUCCESS),
        Err(fault) => refuse(rt, fault, advice),
    }
}

/// After a script was checked: ends with 3 where a line failed, or says why it wasn't run.
pub fn finish_checked<R: Eprint>(rt: &R, run: Result<bool, ScriptFault>) -> anyhow::Result<ExitCode>
    ensures good { IfOk result (λ code. exit_status code ≡ 0 ↔ (run ≡ Ok true)) }
    ensures bad { IfOk result (λ code. exit_status code ≡ 3 ↔ (run ≡ Ok false)) }
    ensures refused { IfOk result (λ code. exit_status code ≡ 1 ↔ IsErr run) }
    ensures only { IfOk result (λ code.
        (exit_status code ≡ 0) ⊎ (exit_status code ≡ 1) ⊎ (exit_status code ≡ 3)) }
{
    match run {
        Ok(true) => Ok(ExitCode::SUCCESS),
        Ok(false) => Ok(ExitCode::from(3)),
        Err(fault) => refuse(rt, fault, ""),
    }
}

/// After files were audited: ends as the audit says, or says why there was none.
pub fn finish_audit<R: Eprint>(
    rt: &R,
    audited: Result<bool, AuditRefused>,
    advice: &str,
) -> anyhow::Result<ExitCode>
    ensures done { IfOk result (λ code. exit_status code ≡ 0 ↔ (audited ≡ Ok true)) }
    ensures status { IfOk result (λ code. (exit_status code ≡ 0) ⊎ (exit_status code ≡ 1)) }
{
    match audited {
        Ok(true) => Ok(ExitCode::SUCCESS),
        Ok(false) => Ok(ExitCode::FAILURE),
        Err(fault) => refuse(rt, fault, advice),
    }
}

//! How the program ends without a run, and after a node was served: what it says last, and its exit
//! status.

ghost use Rattle.std.specs.Prelude.{◌≡◌, ◌⊎◌, IfOk, IfErr, IfSome, IsOk, None};
ghost use Rattle.std.specs.IoError.{error_kind};
ghost use Rattle.std.specs.Process.{exit_status};
ghost use Rattle.clap.specs.Values.{kind_of};
ghost use Rattle.commands.specs.Statuses.{HasStatus};
ghost use Rattle.failreg.specs.Statuses.{early_status, forgotten, unread_status};

use commands::refuse;
use node_core::NodeFault;
use node_service::{NodeServed, Reason, ServiceFault};
use std::io;
use std::io::ErrorKind;
use std::process::ExitCode;

/// After a node was served: prints how many clients were, or why no more are. Where others know more of
/// the node than it does, it says so, and what to do, and ends with 4. That it can't be said where it
/// listens is the program's own error.
pub fn finish_serve<R: Print + Eprint>(
    rt: &R,
    node: u8,
    served: Result<NodeServed, ServiceFault>,
    advice: &str,
) -> anyhow::Result<ExitCode>
    ensures done { IfOk served (λ s. HasStatus result (early_status s.early)) }
    ensures refused { IfErr served (λ _. HasStatus result 1) }
    ensures status { IfOk result (λ code.
        (exit_status code ≡ 0) ⊎ (exit_status code ≡ 1) ⊎ (exit_status code ≡ 4)) }
{
    let NodeServed { clients, early } = match served {
        Ok(served) => served,
        Err(ServiceFault::Output(error)) => return Err(error.into()),
        Err(fault) => return refuse(rt, fault, advice),
    };
    if let Some(fault) = forgotten(early) {
        say_forgotten(rt, node, fault)?;
        return Ok(ExitCode::from(4));
    }
    println!(rt; "served {clients}")?;
    Ok(ExitCode::SUCCESS)
}

// The error that showed that a node lost its state, if its service ended for that.
fn forgotten(early: Option<Reason>) -> Option<NodeFault>
    ensures fault { result ≡ forgotten early }
    ensures none { result ≡ None → early_status early ≡ 0 }
    ensures some { IfSome result (λ _. early_status early ≡ 4) }
{
    match early {
        None => None,
        Some(Reason::Asked) => None,
        Some(Reason::OwnAhead) => Some(NodeFault::OwnAhead),
        Some(Reason::AckAhead) => Some(NodeFault::AckAhead),
    }
}

// Prints that a node lost its state, and what to do.
fn say_forgotten<R: Eprint>(rt: &R, node: u8, fault: NodeFault) -> io::Result<()> {
    eprintln!(rt;
        "failreg: peers have newer state of node {node} ({fault}): it restarted without its journal, or \
         a second process runs under its number. Exiting. End the other process, restart with --record \
         FILE, or use a number that was never used."
    )
}

/// Where the words of the command line can't be read: one isn't UTF-8, which is a mistake in it, or
/// memory is refused, which is the program's own error.
pub fn finish_unreadable<R: Eprint>(rt: &R, error: io::Error) -> anyhow::Result<ExitCode>
    ensures status { HasStatus result 2 }
    ensures kind { IsOk result → error_kind error ≡ ErrorKind.InvalidData }
{
    if error.kind() != ErrorKind::InvalidData {
        return Err(error.into());
    }
    eprintln!(rt; "error: an argument isn't valid UTF-8")?;
    Ok(ExitCode::from(2))
}

/// Where a command line asks for no run: prints the help that it asks for, or what is wrong with
/// it.
pub fn finish_unread<R: Print + Eprint>(rt: &R, error: &clap::Error) -> anyhow::Result<ExitCode>
    ensures { HasStatus result (unread_status (kind_of error.now)) }
{
    error.print(rt)?;
    Ok(ExitCode::from(error.exit_code() as u8))
}

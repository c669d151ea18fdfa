//! What a refusal met and what to do, in words, for its second line.

use crate::audit_refused::AuditRefused;
use actions::{ActionFault, Actions};
use command_line::quoted;
use drills::{DrillFault, JoinFault};
use std::alloc::{AllocError, Global};
use std::fs;
use std::fs::Files;
use std::io::ErrorKind;

// The term of this number of an action text, or all of it.
fn term_in(text: &str, term: u8) -> &str {
    text.split("->")
        .nth(usize::from(term))
        .unwrap_or(text)
        .trim_matches(' ')
}

// What is wrong with what of an action text is refused.
fn wrong_with(fault: ActionFault) -> &'static str {
    match fault {
        ActionFault::TooLong => "has more than 1024 bytes",
        ActionFault::TooManyTerms => "has more than 16 terms",
        ActionFault::Unclosed { .. } => "has no `)` at its end",
        ActionFault::BadPercent { .. } =>
            "needs a chance from 0 to 100, with up to 4 decimals, such as 50% or 0.5%",
        ActionFault::BadCount { .. } => "needs a whole number below 2^64 as its count, such as 5*",
        ActionFault::NoTask { .. } | ActionFault::UnknownTask { .. } =>
            "has no valid action: expected off, return, sleep, panic, print, pause, yield or delay",
        ActionFault::NeedsTime { .. } | ActionFault::BadTime { .. } =>
            "needs a whole number of milliseconds, such as sleep(100)",
        ActionFault::BadByte { .. } => "contains a control character or a `;`",
        ActionFault::OutOfMemory => "can't be read: out of memory",
    }
}

// The part of an action text that is refused.
fn refused_part(text: &str, fault: ActionFault) -> &str {
    match fault {
        ActionFault::Unclosed { term }
        | ActionFault::BadPercent { term }
        | ActionFault::BadCount { term }
        | ActionFault::NoTask { term }
        | ActionFault::UnknownTask { term }
        | ActionFault::NeedsTime { term }
        | ActionFault::BadTime { term } => term_in(text, term),
        ActionFault::TooLong
        | ActionFault::TooManyTerms
        | ActionFault::BadByte { .. }
        | ActionFault::OutOfMemory => text,
    }
}

fn advice_on_fault(alloc: Global, text: &str, fault: ActionFault) -> Result<String, AllocError> {
    let part = quoted(alloc, refused_part(text, fault))?;
    let wrong = wrong_with(fault);
    format!(in alloc; "{part} {wrong}")
}

/// What of an action text is refused, and what to write, if it is. Without memory for it there is
/// none.
pub fn advice_on_parse(alloc: Global, text: &str, read: &Result<Actions, ActionFault>) -> String {
    let Err(fault) = read else {
        return String::new(alloc);
    };
    advice_on_fault(alloc, text, *fault).unwrap_or(String::new(alloc))
}

// That a file can't be read.
fn unread(alloc: Global, path: &str) -> Result<String, AllocError> {
    let shown = quoted(alloc, path)?;
    format!(in alloc; "{shown} can't be read")
}

// That a line of a file is bad.
fn bad_at(alloc: Global, path: &str, line: u64) -> Result<String, AllocError> {
    let shown = quoted(alloc, path)?;
    format!(in alloc;
        "{shown}: line {line} is not valid in a journal: pass the journals of one run, unchanged"
    )
}

// What is wrong with a file that should have a part.
fn advice_on_part(alloc: Global, path: &str, fault: DrillFault) -> Result<String, AllocError> {
    match fault {
        DrillFault::ReadFailed => unread(alloc, path),
        DrillFault::BadLine { line } => bad_at(alloc, path, line),
        DrillFault::WriteFailed | DrillFault::OutOfMemory => Ok(String::new(alloc)),
    }
}

// The path of this place, as it is shown.
fn shown_at(alloc: Global, paths: &[&str], place: usize) -> Result<String, AllocError> {
    quoted(alloc, paths.get(place).copied().unwrap_or(""))
}

// That a file has another run than the first. Files are counted from 1.
fn of_other_drill(alloc: Global, paths: &[&str], file: u64) -> Result<String, AllocError> {
    let first = shown_at(alloc, paths, 0)?;
    let other = shown_at(alloc, paths, file.saturating_sub(1) as usize)?;
    format!(in alloc;
        "{other} has another run ID or number of nodes than {first}: pass the journals of one run"
    )
}

// Why parts in files join to no drill.
fn advice_on_join(alloc: Global, paths: &[&str], fault: JoinFault) -> Result<String, AllocError> {
    match fault {
        JoinFault::OtherDrill { file } => of_other_drill(alloc, paths, file),
        JoinFault::SamePart { node } => {
            format!(in alloc;
                "two files are journals of node {node}: pass one journal of each node"
            )
        }
        JoinFault::NoPart { node } => {
            format!(in alloc; "no file is a journal of node {node}: pass one journal of each node")
        }
        JoinFault::OutOfMemory => Ok(String::new(alloc)),
    }
}

/// Which of the files were refused that should be audited, and what to give, if they were and have
/// parts. Without memory for it there is none.
pub fn advice_on_audit(
    alloc: Global,
    paths: &[&str],
    audited: &Result<bool, AuditRefused>,
) -> String {
    let advice = match audited {
        Err(AuditRefused::Part { file, fault }) => {
            advice_on_part(alloc, paths.get(*file).copied().unwrap_or(""), *fault)
        }
        Err(AuditRefused::Join { fault }) => advice_on_join(alloc, paths, *fault),
        Err(AuditRefused::Drill { .. }) | Ok(_) => return String::new(alloc),
    };
    advice.unwrap_or(String::new(alloc))
}

// Whether no file has this path.
fn is_missing<R: Files>(rt: &R, path: &str) -> bool {
    match fs::metadata(rt, path) {
        Ok(_) => false,
        Err(error) => error.kind() == ErrorKind::NotFound,
    }
}

/// The first of the paths at which no file is, if there is one. The path `-` is standard input.
pub fn missing_of<'a, R: Files>(rt: &R, paths: &[&'a str]) -> Option<&'a str> {
    for path in paths {
        if *path != "-" && is_missing(rt, path) {
            return Some(*path);
        }
    }
    None
}

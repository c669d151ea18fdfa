//! What is said of the lines that only a script that is checked has, and of their places.

ghost use Rattle.std.specs.Prelude.{◌≡◌, ◌||◌, ◌++◌, ◌<◌, ◌≤◌, drop, length, option_map, IfOk, OnOk};
ghost use Rattle.std.specs.Str.{bytes_eq};
ghost use Rattle.scripts.specs.Checks.{shown};
ghost use Rattle.scripts.specs.Faults.{missing_said};
ghost use Rattle.streams.specs.Fields.{lines_of};
ghost use Rattle.thread_checks.specs.Scanned.{scan_value};
ghost use Rattle.thread_checks.specs.Scans.{after_scanned, expect_said, has_line, is_printed, scan_said};
ghost use Rattle.thread_checks.specs.Scans.{scan_lines, unprinted, why_await, why_late, why_wrong};

use crate::lines::{await_in, first_in, is_await, is_expect, is_spread, is_start_call};
use crate::views::worked_after;
use scripts::say_of;
use std::alloc::{AllocError, Global};
use streams::MOST_BYTES;
use warnings::Warnings;

/// What was met before a line.
#[derive(Clone, Copy)]
pub(crate) struct Scan {
    // The number of the line.
    number: u32,
    worked: bool,
    spread: bool,
    rounds: bool,
}

type Why = Option<&'static str>;

// Why a line that waits fails, where waits in these lines were in vain.
fn why_await(vain: &[u32], scan: Scan, line: &[u8]) -> Why
    ensures { option_map (λ why. why.now) result ≡ why_await vain.now (scan_value scan) line.now }
{
    if !scan.worked {
        return Some("await is only allowed in a worker");
    }
    if await_in(line).is_none() {
        return Some("bad line: await <name>[ <stamp>]");
    }
    if vain.contains(&scan.number) {
        Some("gossip ended before the node received the configuration")
    } else {
        None
    }
}

// Why a line comes too late, if it does.
fn why_late(scan: Scan, line: &[u8]) -> Why
    ensures { option_map (λ why. why.now) result ≡ why_late (scan_value scan) line.now }
{
    if (scan.worked || scan.rounds) && first_in(line).is_some() {
        return Some("gossip <rounds> first is allowed once, before the workers");
    }
    if scan.spread && is_start_call(line) {
        Some("no other start line may follow start spread")
    } else {
        None
    }
}

fn why_wrong(vain: &[u32], scan: Scan, line: &[u8]) -> Why
    ensures { option_map (λ why. why.now) result ≡ why_wrong vain.now (scan_value scan) line.now }
{
    if is_await(line) {
        why_await(vain, scan, line)
    } else {
        why_late(scan, line)
    }
}

fn say_wrong(alloc: Global, number: u32, why: Why, said: &mut Warnings) -> Result<(), AllocError>
    ensures { OnOk result (said.new ≡ said.old
        ++ missing_said number (option_map (λ why. why.now) why.entry)) }
{
    match why {
        Some(why) => say_of(alloc, number, why.as_bytes(), said),
        None => Ok(()),
    }
}

// Whether a line was found, with one more.
fn is_found(found: bool, line: &[u8], text: &[u8]) -> bool
    ensures { result ≡ (found || bytes_eq line.now text.now) }
{
    found || line == text
}

// Whether some line of what was printed is just this.
fn has_line(printed: &[u8], text: &[u8]) -> bool
    ensures { result ≡ has_line text.now (lines_of printed.now) }
{
    let mut found = false;
    for line in printed.split(|byte| *byte == b'\n') {
        found = is_found(found, line, text);
    }
    found
}

fn is_printed(printed: &[u8], text: &[u8]) -> bool
    ensures { result ≡ is_printed printed.now text.now }
{
    !text.is_empty() && has_line(printed, text)
}

fn shown(text: &[u8]) -> &[u8]
    ensures { result.now ≡ shown text.now }
{
    if text.is_empty() { b"nothing" } else { text }
}

fn say_unprinted(
    alloc: Global,
    number: u32,
    printed: &[u8],
    text: &[u8],
    said: &mut Warnings,
) -> Result<(), AllocError>
    ensures { OnOk result (said.new
        ≡ said.old ++ unprinted number printed.now text.now) }
{
    if is_printed(printed, text) {
        return Ok(());
    }
    let mut what = Vec::from_slice(alloc, b"expected ")?;
    what.extend_from_slice(shown(text))?;
    what.extend_from_slice(b", which isn't printed")?;
    say_of(alloc, number, &what, said)
}

// What stands behind `expect `.
fn expected(line: &[u8]) -> &[u8]
    ensures { result.now ≡ drop 7 line.now }
{
    if line.len() > 7 { &line[7..] } else { &[] }
}

fn say_expect(
    alloc: Global,
    printed: &[u8],
    scan: Scan,
    line: &[u8],
    said: &mut Warnings,
) -> Result<(), AllocError>
    ensures { OnOk result (said.new
        ≡ said.old ++ expect_said printed.now (scan_value scan) line.now) }
{
    if scan.worked && is_expect(line) {
        say_unprinted(alloc, scan.number, printed, expected(line), said)
    } else {
        Ok(())
    }
}

fn say_line(
    alloc: Global,
    vain: &[u32],
    printed: &[u8],
    scan: Scan,
    line: &[u8],
    said: &mut Warnings,
) -> Result<(), AllocError>
    ensures { OnOk result (said.new
        ≡ said.old ++ scan_said vain.now printed.now (scan_value scan) line.now) }
{
    say_wrong(alloc, scan.number, why_wrong(vain, scan, line), said)?;
    say_expect(alloc, printed, scan, line, said)
}

impl Scan {
    fn after(self, line: &[u8]) -> Scan
        requires { self.number < 4294967295 }
        ensures { scan_value result ≡ after_scanned (scan_value self) line.now }
    {
        Scan {
            number: self.number + 1,
            worked: worked_after(self.worked, line),
            spread: self.spread || is_spread(line),
            rounds: self.rounds || first_in(line).is_some(),
        }
    }
}

/// What is said of the lines of a script that only one that is checked has, where waits in these lines
/// were in vain and this was printed; and of lines that stand in a wrong place.
pub(crate) fn scan_lines(
    alloc: Global,
    script: &[u8],
    vain: &[u32],
    printed: &[u8],
) -> Result<Warnings, AllocError>
    requires { length script.now ≤ MOST_BYTES }
    ensures { IfOk result (λ said. said ≡ scan_lines script.now vain.now printed.now) }
{
    let mut scan = Scan {
        number: 1,
        worked: false,
        spread: false,
        rounds: false,
    };
    let mut said = Warnings::new(alloc);
    for line in script.split(|byte| *byte == b'\n') {
        say_line(alloc, vain, printed, scan, line, &mut said)?;
        scan = scan.after(line);
    }
    Ok(said)
}

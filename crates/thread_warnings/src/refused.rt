//! Calls of workers that were refused.

ghost use Rattle.std.specs.Prelude.{◌≡◌, ◌++◌, count_by, OnOk};
ghost use Rattle.std.specs.List.{find};
ghost use Rattle.thread_warnings.specs.RefusedCalls.{calls_said, code_said, has_code};
ghost use Rattle.thread_warnings.specs.RefusedCalls.{refused_lines, refused_said, rest_of};

use node_calls::NodeFault;
use std::alloc::{AllocError, Global};
use streams::{cut, first_word};
use warnings::Warnings;

/// All codes are below this.
const CODES_END: u8 = 23;

fn has_code(code: u8, fault: NodeFault) -> bool
    ensures { result ≡ has_code code fault }
{
    fault.code() == code
}

fn first_with(code: u8, refused: &[NodeFault]) -> Option<NodeFault>
    ensures { result ≡ find (has_code code) refused.now }
{
    refused.iter().copied().find(|fault| has_code(code, *fault))
}

fn number_with(code: u8, refused: &[NodeFault]) -> usize
    ensures { result ≡ count_by (has_code code) refused.now }
{
    refused
        .iter()
        .filter(|fault| has_code(code, **fault))
        .count()
}

// What stands behind the first word.
fn rest_of(text: &str) -> &str
    ensures { result.now ≡ rest_of text.now }
{
    match cut(text) {
        Some((_, rest)) => rest,
        None => "",
    }
}

// Says of so many calls with which code and name they were refused, by the text of a fault.
fn say_calls(alloc: Global, text: &str, calls: usize, said: &mut Warnings) -> Result<(), AllocError>
    ensures { OnOk result (said.new ≡ said.old ++ calls_said text.now calls) }
{
    let code = first_word(text);
    let name = first_word(rest_of(text));
    said.push_text(format!(in alloc; "calls of workers rejected with {code} {name}: {calls}")?)
}

// The same by the fault of one of them, if there is one.
fn say_fault(
    alloc: Global,
    fault: Option<NodeFault>,
    calls: usize,
    said: &mut Warnings,
) -> Result<(), AllocError>
    ensures { OnOk result (said.new ≡ said.old ++ refused_said fault calls) }
{
    let Some(fault) = fault else {
        return Ok(());
    };
    let text = format!(in alloc; "{fault}")?;
    say_calls(alloc, &text, calls, said)
}

// Says how many calls were refused with a code, if one was.
fn say_code(
    alloc: Global,
    refused: &[NodeFault],
    code: u8,
    said: &mut Warnings,
) -> Result<(), AllocError>
    ensures { OnOk result (said.new ≡ said.old ++ code_said refused.now code) }
{
    let first = first_with(code, refused);
    say_fault(alloc, first, number_with(code, refused), said)
}

/// Says how many calls of workers were refused with each code, in the order of the codes, by the faults
/// of all of them.
pub(crate) fn say_refused(
    alloc: Global,
    refused: &[NodeFault],
    said: &mut Warnings,
) -> Result<(), AllocError>
    ensures { OnOk result (said.new ≡ said.old ++ refused_lines refused.now) }
{
    for code in 0..CODES_END {
        say_code(alloc, refused, code, said)?;
    }
    Ok(())
}

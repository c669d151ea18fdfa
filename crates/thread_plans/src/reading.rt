//! The plan of a script.

ghost use Rattle.std.specs.Prelude.{◌≡◌, ◌≤◌, ◌⊎◌, ℕ, length, IfErr, IfOk};
ghost use Rattle.streams.specs.declared.fault.ScriptFault.TheVariants.{BadLine, OutOfMemory};
ghost use Rattle.thread_plans.specs.Grammar.{IsRefusedAt, IsScriptOf};
ghost use Rattle.thread_plans.specs.Plans.{ends_line, plan_in, plan_value};

use crate::plan::ThreadPlan;
use crate::stage::{Stage, after_text, whole_plan};
use std::alloc::Global;
use streams::{MOST_BYTES, ScriptFault};

/// Whether nothing stands behind the last newline.
pub(crate) fn ends_line(script: &[u8]) -> bool
    ensures { result ≡ ends_line script.now }
{
    script.is_empty() || script[script.len() - 1] == b'\n'
}

/// The plan of a script, or its first bad line. A script that ends before its seed is bad in the line
/// behind its last.
pub fn read_plan(alloc: Global, script: &[u8]) -> Result<ThreadPlan<'_>, ScriptFault>
    requires { length script.now ≤ MOST_BYTES }
    // The text is a script of the plan.
    ensures plan { IfOk result (λ plan. IsScriptOf script.now (plan_value plan)) }
    // The line is the first with which no plan goes on, or the end of a script that ends early.
    ensures refused { (line : ℕ) → result ≡ Err (BadLine line) → IsRefusedAt script.now line }
    // The same as a function of the text.
    ensures ok { IfOk result (λ plan. plan_in script.now ≡ Ok (plan_value plan)) }
    ensures bad { (line : ℕ) → result ≡ Err (BadLine line) → plan_in script.now ≡ Err line }
    ensures only { IfErr result (λ fault.
        (fault ≡ OutOfMemory) ⊎ ((line : ℕ) × (fault ≡ BadLine line))) }
{
    let mut stage = Stage::Empty;
    let mut number = 1u32;
    for line in script.split(|byte| *byte == b'\n') {
        let Some(next) = after_text(alloc, stage, line)? else {
            return Err(ScriptFault::BadLine { line: number });
        };
        stage = next;
        number += 1;
    }
    match whole_plan(stage)? {
        Some(plan) => Ok(plan),
        // The number is one more than there are lines and, behind a last newline, nothing.
        None => Err(ScriptFault::BadLine {
            line: number - u32::from(ends_line(script)),
        }),
    }
}

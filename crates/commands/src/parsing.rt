//! An action text that is read.

ghost use Rattle.std.specs.Prelude.{◌≡◌, ◌⊎◌, IfOk, IsOk};
ghost use Rattle.std.specs.Process.{exit_status};
ghost use Rattle.actions.specs.Reading.{reading};
ghost use Rattle.commands.specs.Statuses.{OnStatus};

use crate::advice::advice_on_parse;
use crate::finish::finish_parse;
use actions::parse_actions;
use std::alloc::AllocGlobal;
use std::process::ExitCode;

/// Prints the canonical spelling of an action text.
pub fn parse<R: Print + Eprint + AllocGlobal>(rt: &R, text: &str) -> anyhow::Result<ExitCode>
    // Only a text that can be read has status 0; any other has status 1.
    ensures done { OnStatus result 0 (IsOk (reading text.now)) }
    ensures status { IfOk result (λ code. (exit_status code ≡ 0) ⊎ (exit_status code ≡ 1)) }
{
    let actions = parse_actions(rt.alloc(), text);
    let advice = advice_on_parse(rt.alloc(), text, &actions);
    finish_parse(rt, actions, &advice)
}

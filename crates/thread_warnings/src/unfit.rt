//! Lines of workers whose calls every node refuses, and passes that met a point that isn't set.

ghost use Rattle.std.specs.Prelude.{◌≡◌, ◌+◌, ◌++◌, ◌<◌, ◌≤◌, ◌∷◌, [], count_by, length, vec_len};
ghost use Rattle.std.specs.Prelude.{IfOk, OnOk};
ghost use Rattle.actions.specs.Reading.{reading};
ghost use Rattle.actions.specs.SettingReading.{setting_reading};
ghost use Rattle.node_calls.specs.Told.{ask_ref_told};
ghost use Rattle.node_steps.specs.Refusals.{bad_actions, bad_setting, no_name};
ghost use Rattle.refusals.specs.Refusals.{first_fault};
ghost use Rattle.thread_warnings.specs.Unfit.{fault_said, is_unset, line_counted, line_said, none_unfit};
ghost use Rattle.thread_warnings.specs.Unfit.{unfit_lines, unfit_said, unfit_sum, unset_in, unset_sum};
ghost use Rattle.thread_warnings.specs.Unfit.{why_refused, why_unfit};
ghost use Rattle.thread_warnings.specs.Unfits.{unfit_of};

use actions::{ActionFault, Name, NameFault, SettingFault, parse_actions, parse_setting};
use node_calls::{AskRef, NodeFault, PassReply, Receipt, Reply, TextFault};
use std::alloc::{AllocError, Global};
use streams::MOST_BYTES;
use thread_plans::{MOST_NAMED, call_in_line, say_count};
use warnings::Warnings;

/// Why a call is refused, if it is, or memory is.
type Why = Result<Option<NodeFault>, AllocError>;

fn why_name(alloc: Global, name: &str) -> Why
    ensures { IfOk result (λ why. why ≡ no_name name.now) }
{
    match Name::parse(alloc, name) {
        Ok(_) => Ok(None),
        Err(NameFault::BadName) => Ok(Some(NodeFault::BadName)),
        Err(NameFault::OutOfMemory) => Err(AllocError),
    }
}

fn why_actions(alloc: Global, text: &str) -> Why
    ensures { IfOk result (λ why. why ≡ bad_actions (reading text.now)) }
{
    match parse_actions(alloc, text) {
        Ok(_) => Ok(None),
        Err(ActionFault::OutOfMemory) => Err(AllocError),
        Err(fault) => Ok(Some(NodeFault::BadActions(TextFault::Actions(fault)))),
    }
}

fn why_setting(alloc: Global, text: &str) -> Why
    ensures { IfOk result (λ why. why ≡ bad_setting (setting_reading text.now)) }
{
    match parse_setting(alloc, text) {
        Ok(_) => Ok(None),
        Err(SettingFault::OutOfMemory) => Err(AllocError),
        Err(SettingFault::BadName { .. }) => Ok(Some(NodeFault::BadName)),
        Err(fault) => Ok(Some(NodeFault::BadActions(TextFault::Setting(fault)))),
    }
}

fn why_set(alloc: Global, name: &str, text: &str) -> Why
    ensures { IfOk result (λ why. why ≡ first_fault (no_name name.now
        ∷ bad_actions (reading text.now) ∷ [])) }
{
    match why_name(alloc, name)? {
        Some(fault) => Ok(Some(fault)),
        None => why_actions(alloc, text),
    }
}

// Why a node refuses a call, whatever it knows.
fn why_refused(alloc: Global, call: AskRef<'_>) -> Why
    ensures { IfOk result (λ why. why ≡ why_refused (ask_ref_told call.entry)) }
{
    match call {
        AskRef::Set { name, text } => why_set(alloc, name, text),
        AskRef::Load { text } => why_setting(alloc, text),
        AskRef::Remove { name }
        | AskRef::Pass { name }
        | AskRef::Shift { name, .. }
        | AskRef::Grant { name, .. } => why_name(alloc, name),
        AskRef::Emit { .. } | AskRef::Deliver { .. } => Ok(None),
    }
}

fn why_unfit(alloc: Global, line: &[u8]) -> Why
    ensures { IfOk result (λ why. why ≡ why_unfit line.now) }
{
    match call_in_line(line) {
        Some(call) => why_refused(alloc, call),
        None => Ok(None),
    }
}

/// Lines that are read in turn, and what was said of those so far.
#[derive(Drop)]
struct Warning {
    // The number of the next line.
    number: u32,
    // How many lines every node refuses.
    unfit: u32,
    said: Warnings,
}

// Says of a line why its call is refused.
fn say_fault(
    alloc: Global,
    number: u32,
    fault: NodeFault,
    said: &mut Warnings,
) -> Result<(), AllocError>
    ensures { OnOk result (said.new ≡ said.old ++ fault_said number fault) }
{
    said.push_text(format!(in alloc; "line {number}: refused {fault}")?)
}

/// The same, if it is.
pub(crate) fn say_unfit(
    alloc: Global,
    number: u32,
    why: Option<NodeFault>,
    said: &mut Warnings,
) -> Result<(), AllocError>
    ensures { OnOk result (said.new ≡ said.old ++ unfit_said number why) }
{
    match why {
        Some(fault) => say_fault(alloc, number, fault, said),
        None => Ok(()),
    }
}

impl Warning {
    fn new(alloc: Global) -> Warning
        ensures state { unfit_of result ≡ none_unfit }
        ensures said { result.said ≡ [] }
    {
        Warning {
            number: 1,
            unfit: 0,
            said: Warnings::new(alloc),
        }
    }

    fn read(&mut self, alloc: Global, line: &[u8]) -> Result<(), AllocError>
        requires number { self.old.number < 4294967295 }
        requires unfit { self.old.unfit < self.old.number }
        ensures state { OnOk result (unfit_of self.new ≡ line_counted (unfit_of self.old) line.now) }
        ensures said { OnOk result (self.new.said
            ≡ self.old.said ++ line_said (unfit_of self.old) line.now) }
    {
        let why = why_unfit(alloc, line)?;
        if self.unfit < MOST_NAMED {
            say_unfit(alloc, self.number, why, &mut self.said)?;
        }
        self.unfit += u32::from(why.is_some());
        self.number += 1;
        Ok(())
    }

    // Says how many lines every node refuses, where not all were named.
    fn sum_up(&mut self, alloc: Global) -> Result<(), AllocError>
        ensures { OnOk result (self.new.said
            ≡ self.old.said ++ unfit_sum self.old.unfit) }
    {
        if self.unfit <= MOST_NAMED {
            return Ok(());
        }
        say_count(
            alloc,
            "rejected lines: ",
            self.unfit as u128,
            &mut self.said,
        )
    }
}

/// What is said of lines of workers with a call that every node refuses: of 20 at most, and then how many
/// they are.
pub(crate) fn unfit_lines(alloc: Global, script: &[u8]) -> Result<Warnings, AllocError>
    requires { length script.now ≤ MOST_BYTES }
    ensures { IfOk result (λ said. said ≡ unfit_lines script.now) }
{
    let mut warning = Warning::new(alloc);
    for line in script.split(|byte| *byte == b'\n') {
        warning.read(alloc, line)?;
    }
    warning.sum_up(alloc)?;
    Ok(warning.said)
}

fn is_unset(receipt: &Receipt) -> bool
    ensures { result ≡ is_unset receipt.now.entry.reply }
{
    matches!(receipt.entry.reply, Reply::Pass(PassReply::Unset))
}

fn unset_of(list: &[Receipt]) -> usize
    ensures { result ≡ count_by (λ r. is_unset r.entry.reply) list.now }
{
    let mut unset = 0;
    for receipt in list {
        unset += usize::from(is_unset(receipt));
    }
    unset
}

/// How many passes met a point that isn't set.
pub(crate) fn unset_in(lists: &[Vec<Receipt>]) -> u128
    ensures { result ≡ unset_in lists.now }
{
    let mut unset = 0u128;
    for list in lists {
        unset += unset_of(list) as u128;
    }
    unset
}

/// Says how many passes met a point that isn't set, if one did.
pub(crate) fn say_unset(alloc: Global, unset: u128, said: &mut Warnings) -> Result<(), AllocError>
    ensures { OnOk result (said.new ≡ said.old ++ unset_sum unset) }
{
    if unset == 0 {
        return Ok(());
    }
    say_count(
        alloc,
        "evaluations of points that aren't set: ",
        unset,
        said,
    )
}

//! Answers as JSON objects.

ghost use Rattle.std.specs.Prelude.{◌≡◌, ◌++◌, [], OnOk, codes, decimal};
ghost use Rattle.actions.specs.Value.{task_value};
ghost use Rattle.node_core.specs.Traces.{state_known};
ghost use Rattle.stamp_register.specs.Keys.{stamp_text};
ghost use Rattle.answers.specs.Answers.{act, answer_value, audit_no, budget, listed, refused, rights};
ghost use Rattle.answers.specs.Objects.{fault_members, granted_member, node_fault_members, object};
ghost use Rattle.answers.specs.Objects.{object_of, plain_member, report_objects};

use crate::answer::Answer;
use crate::cause::Cause;
use crate::members::{begin, end, push_alone, push_number, push_plain, push_stamp, push_text};
use crate::reports::push_reports;
use crate::strings::push_string;
use actions::Task;
use audit::{AuditFault, Total};
use cluster_model::WorldFault;
use itoa::Buffer;
use node_core::{NodeCore, NodeFault};
use stamp_register::Stamp;
use std::alloc::{AllocError, Global};

fn push_stamped(kind: &str, stamp: Stamp, out: &mut Vec<u8>) -> Result<(), AllocError>
    ensures { OnOk result (out.new.items ≡ out.old.items
        ++ object kind.now (plain_member (codes "stamp") (stamp_text stamp))) }
{
    begin(kind, out)?;
    push_stamp(stamp, out)?;
    end(out)
}

// An object with one number.
fn push_counted(kind: &str, name: &str, number: u128, out: &mut Vec<u8>) -> Result<(), AllocError>
    ensures { OnOk result (out.new.items ≡ out.old.items
        ++ object kind.now (plain_member name.now (decimal number))) }
{
    begin(kind, out)?;
    push_number(name, number, out)?;
    end(out)
}

fn push_act(
    alloc: Global,
    stamp: Stamp,
    term: u8,
    task: &Task,
    out: &mut Vec<u8>,
) -> Result<(), AllocError>
    ensures { OnOk result (out.new.items
        ≡ out.old.items ++ object_of (act stamp term (task_value task.now))) }
{
    let text = format!(in alloc; "{task}")?;
    begin("act", out)?;
    push_stamp(stamp, out)?;
    push_number("term", u128::from(term), out)?;
    push_text("task", &text, out)?;
    end(out)
}

// The code of a node's fault, and its cause.
fn push_fault(alloc: Global, fault: NodeFault, out: &mut Vec<u8>) -> Result<(), AllocError>
    ensures { OnOk result (out.new.items ≡ out.old.items ++ node_fault_members fault) }
{
    let cause = Cause(fault);
    let code = format!(in alloc; "N{}", fault.code())?;
    let text = format!(in alloc; "{cause}")?;
    push_plain("code", &code, out)?;
    push_plain("fault", &text, out)
}

fn push_fault_members(alloc: Global, fault: WorldFault, out: &mut Vec<u8>) -> Result<(), AllocError>
    ensures { OnOk result (out.new.items ≡ out.old.items ++ fault_members fault) }
{
    match fault {
        WorldFault::NoNode => push_plain("code", "NoNode", out),
        WorldFault::NoMessage => push_plain("code", "NoMessage", out),
        WorldFault::Refused(fault) => push_fault(alloc, fault, out),
    }
}

fn push_refused(alloc: Global, fault: WorldFault, out: &mut Vec<u8>) -> Result<(), AllocError>
    ensures { OnOk result (out.new.items ≡ out.old.items ++ object_of (refused fault)) }
{
    begin("refused", out)?;
    push_fault_members(alloc, fault, out)?;
    end(out)
}

#[tactic(auto, unfolding(crate::specs::Objects::opening))]
fn push_listed(text: &str, out: &mut Vec<u8>) -> Result<(), AllocError>
    ensures { OnOk result (out.new.items ≡ out.old.items ++ object_of (listed text.now)) }
{
    begin("", out)?;
    push_string(true, text.as_bytes(), out)?;
    end(out)
}

fn push_count(count: u128, out: &mut Vec<u8>) -> Result<(), AllocError>
    ensures { OnOk result (out.new.items ≡ out.old.items ++ object (decimal count) []) }
{
    push_alone(Buffer::new().format(count), out)
}

fn push_rights(left: i128, out: &mut Vec<u8>) -> Result<(), AllocError>
    ensures { OnOk result (out.new.items ≡ out.old.items ++ object_of (rights left)) }
{
    push_alone(Buffer::new().format(left), out)
}

fn push_report(alloc: Global, node: &NodeCore, out: &mut Vec<u8>) -> Result<(), AllocError>
    ensures { OnOk result (out.new.items ≡ out.old.items
        ++ report_objects (state_known node.now) node.now.config.nodes) }
{
    push_reports(node.state(), node.config().nodes, out)
}

fn push_yes(out: &mut Vec<u8>) -> Result<(), AllocError>
    ensures { OnOk result (out.new.items
        ≡ out.old.items ++ object (codes "audit") (plain_member (codes "verdict") (codes "yes"))) }
{
    begin("audit", out)?;
    push_plain("verdict", "yes", out)?;
    end(out)
}

fn push_no(alloc: Global, fault: AuditFault, out: &mut Vec<u8>) -> Result<(), AllocError>
    ensures { OnOk result (out.new.items ≡ out.old.items ++ object_of (audit_no fault)) }
{
    let text = format!(in alloc; "{fault}")?;
    begin("audit", out)?;
    push_plain("verdict", "no", out)?;
    push_plain("fault", &text, out)?;
    end(out)
}

/// What was granted, if anything was.
pub(crate) fn push_granted(granted: u128, out: &mut Vec<u8>) -> Result<(), AllocError>
    ensures { OnOk result (out.new.items ≡ out.old.items ++ granted_member granted) }
{
    if granted == 0 {
        return Ok(());
    }
    push_number("granted", granted, out)
}

fn push_budget(total: &Total, out: &mut Vec<u8>) -> Result<(), AllocError>
    ensures { OnOk result (out.new.items ≡ out.old.items ++ object_of (budget total.now)) }
{
    begin("budget", out)?;
    push_plain("name", total.name.text(), out)?;
    push_stamp(total.stamp, out)?;
    push_number("term", u128::from(total.term), out)?;
    push_number("count", u128::from(total.count), out)?;
    push_granted(total.granted, out)?;
    push_number("executed", total.executed, out)?;
    end(out)
}

/// Adds the object of an answer, or the objects of a report, each on a line of its own.
pub(crate) fn push_object(
    alloc: Global,
    answer: Answer<'_>,
    out: &mut Vec<u8>,
) -> Result<(), AllocError>
    ensures { OnOk result (
        out.new.items ≡ out.old.items ++ object_of (answer_value answer.entry)) }
{
    match answer {
        Answer::Set(stamp) => push_stamped("set", stamp, out),
        Answer::Removed(stamp) => push_stamped("removed", stamp, out),
        Answer::Loaded(entries) => push_counted("loaded", "number", u128::from(entries), out),
        Answer::Unset => push_alone("unset", out),
        Answer::NoTerm(stamp) => push_stamped("none", stamp, out),
        Answer::Act { stamp, term, task } => push_act(alloc, stamp, term, task, out),
        Answer::Shifted(total) => push_counted("shifted", "total", u128::from(total), out),
        Answer::Granted(total) => push_counted("granted", "total", u128::from(total), out),
        Answer::Message(number) => push_counted("message", "number", number as u128, out),
        Answer::Delivered(true) => push_alone("changed", out),
        Answer::Delivered(false) => push_alone("same", out),
        Answer::Refused(fault) => push_refused(alloc, fault, out),
        Answer::BadLine => push_alone("bad line", out),
        Answer::Listed(text) => push_listed(text, out),
        Answer::Report(node) => push_report(alloc, node, out),
        Answer::Rights(left) => push_rights(left, out),
        Answer::Spent(count) => push_count(count, out),
        Answer::Hits(count) => push_count(count, out),
        Answer::Workers(count) => push_counted("workers", "number", count as u128, out),
        Answer::Calls(count) => push_counted("calls", "number", count, out),
        Answer::Yes => push_yes(out),
        Answer::No(fault) => push_no(alloc, fault, out),
        Answer::Budget(total) => push_budget(total, out),
        Answer::Cut(node) => push_counted("cut", "node", u128::from(node), out),
    }
}

//! Cells: what was counted of a name, each behind the node or the nodes that it is counted of.

ghost use Rattle.std.specs.Prelude.{◌≡◌, ◌∷◌, [], is_some, option_map};
ghost use Rattle.stamp_register.specs.Keys.{key_value};
ghost use Rattle.operations.specs.Operations.{count_of};
ghost use Rattle.message_format.specs.Spelling.{hit_place, exec_place, shift_place};
ghost use Rattle.message_format.specs.Reading.{Gives, is_above, value_at, term_at, hit_at, exec_at};
ghost use Rattle.message_format.specs.Reading.{shift_at, hits_at, execs_at, shifts_at, grants_at};

use crate::fault::WireFault;
use crate::wire::{Form, Whole, read_byte, read_node, read_other_node, read_u16, read_u64};
use stamp_register::Key;
use std::alloc::Global;

/// A count, which isn't 0.
#[tactic(auto, unfolding(crate::specs::Reading::value_at))]
fn read_value(whole: Whole, rest: &[u8]) -> Result<(u64, &[u8]), WireFault>
    ensures { Gives (λ x. (x.0, x.1.now)) result (value_at whole.len rest.now) }
{
    let (value, after) = read_u64(whole, rest)?;
    if value == 0 {
        return Err(WireFault::ZeroCell {
            offset: whole.offset(rest),
        });
    }
    Ok((value, after))
}

/// Whether the key sets a counted term of this number.
pub(crate) fn is_counted(key: &Key, term: u8) -> bool
    ensures { result ≡ is_some (count_of (key_value key.now) term) }
{
    let term = key.actions().and_then(|actions| actions.term(term));
    term.is_some_and(|term| term.count.is_some())
}

/// The number of a counted term.
#[tactic(auto, unfolding(crate::specs::Reading::term_at))]
fn read_term<'a>(whole: Whole, key: &Key, rest: &'a [u8]) -> Result<(u8, &'a [u8]), WireFault>
    ensures { Gives (λ x. (x.0, x.1.now)) result (term_at whole.len (key_value key.now) rest.now) }
{
    let (term, after) = read_byte(whole, rest)?;
    if !is_counted(key, term) {
        return Err(WireFault::BadTerm {
            offset: whole.offset(rest),
        });
    }
    Ok((term, after))
}

/// Whether a node is above that of the last hits, if there are some.
fn is_hit_above(last: Option<(u8, u64)>, node: u8) -> bool
    ensures { result ≡ is_above (option_map hit_place last) (node ∷ []) }
{
    last.is_none_or(|(last_node, _)| last_node < node)
}

/// The hits of a node, which is above the last one's.
#[tactic(auto, unfolding(crate::specs::Reading::hit_at))]
fn read_hit(
    whole: Whole,
    last: Option<(u8, u64)>,
    rest: &[u8],
) -> Result<((u8, u64), &[u8]), WireFault>
    ensures { Gives (λ x. (x.0, x.1.now)) result (hit_at whole.len whole.nodes last rest.now) }
{
    let (node, after) = read_node(whole, rest)?;
    if !is_hit_above(last, node) {
        return Err(WireFault::CellOrder {
            offset: whole.offset(rest),
        });
    }
    let (value, after) = read_value(whole, after)?;
    Ok(((node, value), after))
}

/// Whether a term and a node are above those of the last executions, if there are some.
fn is_exec_above(last: Option<(u8, u8, u64)>, term: u8, node: u8) -> bool
    ensures { result ≡ is_above (option_map exec_place last) (term ∷ node ∷ []) }
{
    last.is_none_or(|(last_term, last_node, _)| (last_term, last_node) < (term, node))
}

/// The executions of a term by a node, of which the term or the node is above the last ones.
#[tactic(auto, unfolding(crate::specs::Reading::exec_at))]
fn read_exec<'a>(
    whole: Whole,
    key: &Key,
    last: Option<(u8, u8, u64)>,
    rest: &'a [u8],
) -> Result<((u8, u8, u64), &'a [u8]), WireFault>
    ensures { Gives (λ x. (x.0, x.1.now)) result
        (exec_at whole.len whole.nodes (key_value key.now) last rest.now) }
{
    let (term, after) = read_term(whole, key, rest)?;
    let (node, after) = read_node(whole, after)?;
    if !is_exec_above(last, term, node) {
        return Err(WireFault::CellOrder {
            offset: whole.offset(rest),
        });
    }
    let (value, after) = read_value(whole, after)?;
    Ok(((term, node, value), after))
}

/// Whether a term and two nodes are above those of the last shift, if there is one.
fn is_shift_above(last: Option<(u8, u8, u8, u64)>, term: u8, from: u8, to: u8) -> bool
    ensures { result ≡ is_above (option_map shift_place last) (term ∷ from ∷ to ∷ []) }
{
    last.is_none_or(|(last_term, last_from, last_to, _)| {
        (last_term, last_from, last_to) < (term, from, to)
    })
}

/// The rights of a term that a node moved to another one, of which the term, the first or the
/// second node is above the last ones.
#[tactic(auto, unfolding(crate::specs::Reading::shift_at))]
fn read_shift<'a>(
    whole: Whole,
    key: &Key,
    last: Option<(u8, u8, u8, u64)>,
    rest: &'a [u8],
) -> Result<((u8, u8, u8, u64), &'a [u8]), WireFault>
    ensures { Gives (λ x. (x.0, x.1.now)) result
        (shift_at whole.len whole.nodes (key_value key.now) last rest.now) }
{
    let (term, after) = read_term(whole, key, rest)?;
    let (from, after) = read_node(whole, after)?;
    let (to, after) = read_other_node(whole, from, after)?;
    if !is_shift_above(last, term, from, to) {
        return Err(WireFault::CellOrder {
            offset: whole.offset(rest),
        });
    }
    let (value, after) = read_value(whole, after)?;
    Ok(((term, from, to, value), after))
}

/// The hits behind their number.
#[tactic(auto, unfolding(crate::specs::Reading::hits_at))]
pub(crate) fn read_hits(
    alloc: Global,
    whole: Whole,
    bytes: &[u8],
) -> Result<(Vec<(u8, u64)>, &[u8]), WireFault>
    ensures { Gives (λ x. (x.0.items, x.1.now)) result (hits_at whole.len whole.nodes bytes.now) }
{
    let (count, mut rest) = read_byte(whole, bytes)?;
    let mut hits = Vec::new(alloc);
    for _ in 0..count {
        let (hit, after) = read_hit(whole, hits.last().copied(), rest)?;
        hits.push(hit)?;
        rest = after;
    }
    Ok((hits, rest))
}

/// The executions under a key behind their number.
#[tactic(auto, unfolding(crate::specs::Reading::execs_at))]
pub(crate) fn read_execs<'a>(
    alloc: Global,
    whole: Whole,
    key: &Key,
    bytes: &'a [u8],
) -> Result<(Vec<(u8, u8, u64)>, &'a [u8]), WireFault>
    ensures { Gives (λ x. (x.0.items, x.1.now)) result
        (execs_at whole.len whole.nodes (key_value key.now) bytes.now) }
{
    let (count, mut rest) = read_u16(whole, bytes)?;
    let mut execs = Vec::new(alloc);
    for _ in 0..count {
        let (exec, after) = read_exec(whole, key, execs.last().copied(), rest)?;
        execs.push(exec)?;
        rest = after;
    }
    Ok((execs, rest))
}

/// The moved rights under a key behind their number.
#[tactic(auto, unfolding(crate::specs::Reading::shifts_at))]
pub(crate) fn read_shifts<'a>(
    alloc: Global,
    whole: Whole,
    key: &Key,
    bytes: &'a [u8],
) -> Result<(Vec<(u8, u8, u8, u64)>, &'a [u8]), WireFault>
    ensures { Gives (λ x. (x.0.items, x.1.now)) result
        (shifts_at whole.len whole.nodes (key_value key.now) bytes.now) }
{
    let (count, mut rest) = read_u16(whole, bytes)?;
    let mut shifts = Vec::new(alloc);
    for _ in 0..count {
        let (shift, after) = read_shift(whole, key, shifts.last().copied(), rest)?;
        shifts.push(shift)?;
        rest = after;
    }
    Ok((shifts, rest))
}

/// The granted rights under a key, of which a plain message tells none.
#[tactic(auto, unfolding(crate::specs::Reading::grants_at))]
pub(crate) fn read_grants<'a>(
    alloc: Global,
    whole: Whole,
    key: &Key,
    form: Form,
    bytes: &'a [u8],
) -> Result<(Vec<(u8, u8, u64)>, &'a [u8]), WireFault>
    ensures { Gives (λ x. (x.0.items, x.1.now)) result
        (grants_at whole.len whole.nodes (key_value key.now) form bytes.now) }
{
    match form {
        Form::Plain => Ok((Vec::new(alloc), bytes)),
        Form::WithGrants => read_execs(alloc, whole, key, bytes),
    }
}

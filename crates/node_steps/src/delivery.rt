//! What a message says to the node that it is delivered to.

ghost use Rattle.std.specs.Prelude.{◌≡◌, ◌⊎◌, ◌≤◌, ◌*◌, ◌^◌, ◌==◌, ◌&&◌, [], map, IfOk, IfErr};
ghost use Rattle.std.specs.Prelude.{OnOk, IsOk, IsErrOf, Some, Ok, MatchOption};
ghost use Rattle.std.specs.List.{flat_map, list_any};
ghost use Rattle.std.specs.Ordering.{is_gt};
ghost use Rattle.stamp_register.specs.Keys.{key_value};
ghost use Rattle.replica_state.specs.Folds.{clock_of};
ghost use Rattle.replica_state.specs.Points.{order_to_held};
ghost use Rattle.node_steps.specs.Replicas.{state_in, point_held};
ghost use Rattle.operations.specs.Operations.{count_at};
ghost use Rattle.replica_state.specs.Unions.{key_order, number_both};
ghost use Rattle.message_format.specs.Messages.{entry_value, message_value, operations_of, operations_in};
ghost use Rattle.message_format.specs.Reading.{header_of};
ghost use Rattle.message_format.specs.Spelling.{IsMessage};
ghost use Rattle.node_calls.specs.Asks.{message_of, message_read};
ghost use Rattle.node_steps.specs.Refusals.{bad_message, wire_refusal, says_more};
ghost use Rattle.node_steps.specs.Received.{ahead_by, are_hits_ahead, are_execs_ahead, terms_both};
ghost use Rattle.node_steps.specs.Received.{are_shifts_ahead, are_grants_ahead, are_overspent};
ghost use Rattle.node_steps.specs.Received.{execs_both, granted_both, is_overspent_below};

use crate::replica::State;
use actions::{Actions, Name};
use message_format::{Message, NameEntry, WireFault, decode};
use node_calls::NodeFault;
use replica_state::{PointReader, Replica, Slot};
use stamp_register::Key;
use std::alloc::Global;
use std::cmp::Ordering;

/// What a node accepts: a message, the greatest clock of its keys, and the replica that knows just
/// what it tells.
#[derive(Debug, Drop)]
pub struct Delivery {
    pub message: Message,
    pub clock: u64,
    pub received: State,
}

/// How a node refuses bytes that are refused so.
fn refusal_for(fault: WireFault) -> NodeFault
    ensures { result ≡ wire_refusal fault }
{
    match fault {
        WireFault::OutOfMemory => NodeFault::OutOfMemory,
        fault => NodeFault::BadMessage(fault),
    }
}

/// The message that bytes are, or the refusal.
pub fn read_message(alloc: Global, nodes: u8, bytes: &[u8]) -> Result<Message, NodeFault>
    ensures ok { IfOk result (λ m. message_read nodes bytes.now ≡ Ok (message_of (message_value m))) }
    ensures spelled { IfOk result (λ m. IsMessage nodes (message_value m)) }
    ensures refused { IfErr result (λ f. (f ≡ NodeFault.OutOfMemory)
        ⊎ (bad_message (message_read nodes bytes.now) ≡ Some f)) }
    ensures header { OnOk result (IsOk (header_of nodes bytes.now)) }
    ensures memory { IsErrOf result NodeFault.OutOfMemory → IsOk (header_of nodes bytes.now) }
{
    match decode(alloc, nodes, bytes) {
        Ok(message) => Ok(message),
        Err(fault) => Err(refusal_for(fault)),
    }
}

/// How a key that is told stands to the one that is held.
fn order_to_held(held: PointReader<Slot>, key: &Key) -> Ordering
    ensures { result ≡ order_to_held (key_value key.now) (point_held held.entry).key }
{
    match held.key() {
        Some(held) => key.cmp(held),
        None => Ordering::Greater,
    }
}

/// Whether a message's key is one that this node set and doesn't know itself. `order` compares it with the
/// held one.
fn is_key_ahead(order: Ordering, me: u8, setter: u8) -> bool
    ensures { result ≡ (setter == me && is_gt order) }
{
    setter == me && order == Ordering::Greater
}

/// Whether a number of a node's own that is told under a key which stands so is above what the
/// node knows itself.
fn is_number_ahead(order: Ordering, own: u64, other: u64) -> bool
    ensures { result ≡ ahead_by order own other }
{
    match order {
        Ordering::Less => false,
        Ordering::Equal => own < other,
        Ordering::Greater => true,
    }
}

/// Whether more hits of a node's own are told than it knows itself.
fn are_hits_ahead(held: PointReader<Slot>, me: u8, hits: &[(u8, u64)]) -> bool
    ensures { result ≡ are_hits_ahead me (point_held held.entry) hits.now }
{
    hits.iter()
        .any(|(node, number)| *node == me && held.hits(me) < *number)
}

/// Whether more executions of a node's own are told, under a key that stands so, than it knows
/// itself.
fn are_execs_ahead(
    held: PointReader<Slot>,
    me: u8,
    order: Ordering,
    execs: &[(u8, u8, u64)],
) -> bool
    ensures { result ≡ are_execs_ahead me (point_held held.entry) order execs.now }
{
    execs.iter().any(|(term, node, number)| *node == me
        && is_number_ahead(order, held.exec(*term, me), *number))
}

/// Whether it is told that a node moved more rights, under a key that stands so, than it knows
/// itself.
fn are_shifts_ahead(
    held: PointReader<Slot>,
    me: u8,
    order: Ordering,
    shifts: &[(u8, u8, u8, u64)],
) -> bool
    ensures { result ≡ are_shifts_ahead me (point_held held.entry) order shifts.now }
{
    shifts.iter().any(|(term, from, to, number)| *from == me
        && is_number_ahead(order, held.moved(*term, me, *to), *number))
}

/// Whether it is told that a node granted itself more rights, under a key that stands so, than it
/// knows itself.
fn are_grants_ahead(
    held: PointReader<Slot>,
    me: u8,
    order: Ordering,
    grants: &[(u8, u8, u64)],
) -> bool
    ensures { result ≡ are_grants_ahead me (point_held held.entry) order grants.now }
{
    grants.iter().any(|(term, node, number)| *node == me
        && is_number_ahead(order, held.granted(*term, me), *number))
}

/// Whether an entry says more of this node than it knows itself.
fn is_entry_ahead(state: &State, me: u8, entry: &NameEntry) -> bool
    ensures { result ≡ says_more me (state_in state.now) (operations_of (entry_value entry.now)) }
{
    let held = state.point(&entry.name);
    let order = order_to_held(held, &entry.key);
    if is_key_ahead(order, me, entry.key.node) {
        return true;
    }
    if are_hits_ahead(held, me, &entry.hits) {
        return true;
    }
    if are_execs_ahead(held, me, order, &entry.execs) {
        return true;
    }
    if are_shifts_ahead(held, me, order, &entry.shifts) {
        return true;
    }
    are_grants_ahead(held, me, order, &entry.grants)
}

/// Whether one of the entries says more of this node than it knows itself.
fn is_any_ahead(state: &State, me: u8, entries: &[NameEntry]) -> bool
    ensures { result
        ≡ list_any (λ e. says_more me (state_in state.now) (operations_of (entry_value e))) entries.now }
{
    entries.iter().any(|entry| is_entry_ahead(state, me, entry))
}

/// Whether a message says more of this node than it knows itself.
pub fn is_message_ahead(state: &State, me: u8, message: &Message) -> bool
    ensures { result ≡ says_more me (state_in state.now) (operations_in (message_value message.now)) }
{
    is_any_ahead(state, me, &message.entries)
}

/// The greatest clock that entries tell.
pub fn latest_clock(entries: &[NameEntry]) -> u64
    ensures { result ≡ clock_of (flat_map operations_of (map entry_value entries.now)) }
{
    let mut clock = 0u64;
    for entry in entries {
        clock = entry.key.clock.max(clock);
    }
    clock
}

/// How the key that another state holds of a name stands to the one that is held here.
fn key_order(held: PointReader<Slot>, received: PointReader<Slot>) -> Ordering
    ensures { result ≡ key_order (point_held received.entry).key (point_held held.entry).key }
{
    if let Some(key) = received.key() {
        return order_to_held(held, key);
    }
    match held.key() {
        Some(_) => Ordering::Less,
        None => Ordering::Equal,
    }
}

/// A number once both states are one, where the key that is told stands so.
fn number_both(order: Ordering, held: u64, other: u64) -> u64
    ensures { result ≡ number_both order held other }
{
    match order {
        Ordering::Less => held,
        Ordering::Equal => held.max(other),
        Ordering::Greater => other,
    }
}

/// The executions of a term at all nodes once both states are one, where the key that is told
/// stands so.
fn execs_both(
    nodes: u8,
    order: Ordering,
    held: PointReader<Slot>,
    received: PointReader<Slot>,
    term: u8,
) -> u128
    ensures { result
        ≡ execs_both nodes order (point_held held.entry) (point_held received.entry) term }
{
    let own = held.term(term);
    let other = received.term(term);
    let mut sum = 0u128;
    for node in 0..nodes {
        let both = number_both(order, own.exec(node), other.exec(node));
        sum += u128::from(both);
    }
    sum
}

/// What all nodes granted themselves of a term once both states are one, where the key that is told
/// stands so.
fn granted_both(
    nodes: u8,
    order: Ordering,
    held: PointReader<Slot>,
    received: PointReader<Slot>,
    term: u8,
) -> u128
    ensures value { result
        ≡ granted_both nodes order (point_held held.entry) (point_held received.entry) term }
    ensures small { result ≤ nodes * 2 ^ 64 }
{
    let own = held.term(term);
    let other = received.term(term);
    let mut sum = 0u128;
    for node in 0..nodes {
        let both = number_both(order, own.granted(node), other.granted(node));
        sum += u128::from(both);
    }
    sum
}

/// Whether one of these terms would be executed more often than it is counted and granted. What was
/// granted is added up only where more is executed than counted.
fn is_term_overspent(
    nodes: u8,
    order: Ordering,
    held: PointReader<Slot>,
    received: PointReader<Slot>,
    actions: &Actions,
) -> bool
    ensures { result ≡ are_overspent nodes order
        (point_held held.entry) (point_held received.entry) actions.now }
{
    for term in 0..actions.len() {
        if let Some(count) = count_at(actions, term as u8) {
            let spent = execs_both(nodes, order, held, received, term as u8);
            let count = u128::from(count);
            if spent > count
                && spent > count + granted_both(nodes, order, held, received, term as u8)
            {
                return true;
            }
        }
    }
    false
}

/// What a point is set to once both states are one, if it is set.
fn actions_both<'a>(
    order: Ordering,
    held: PointReader<'a, Slot>,
    received: PointReader<'a, Slot>,
) -> Option<&'a Actions>
    ensures { MatchOption result
        (terms_both order (point_held held.entry) (point_held received.entry) ≡ [])
        (λ a. terms_both order (point_held held.entry) (point_held received.entry) ≡ a.now) }
{
    let holder = match order {
        Ordering::Less => held,
        Ordering::Equal | Ordering::Greater => received,
    };
    holder.key()?.actions()
}

/// Whether a name would have a term that is executed more often than it is counted and granted.
fn is_name_overspent(nodes: u8, state: &State, received: &State, name: &Name) -> bool
    ensures { result ≡ is_overspent_below nodes (state_in state.now) (state_in received.now) name.now }
{
    let held = state.point(name);
    let received = received.point(name);
    let order = key_order(held, received);
    match actions_both(order, held, received) {
        Some(actions) => is_term_overspent(nodes, order, held, received, actions),
        None => false,
    }
}

/// The count of a term, if there is that term and it is counted.
fn count_at(actions: &Actions, term: u8) -> Option<u64>
    ensures { result ≡ count_at actions.now term }
{
    match actions.term(term) {
        Some(found) => found.count,
        None => None,
    }
}

/// Whether one of the names that a message tells of would have a term that is executed more often
/// than it is counted and granted.
pub fn is_any_overspent(nodes: u8, state: &State, received: &State, entries: &[NameEntry]) -> bool
    ensures { result ≡ list_any
        (λ e. is_overspent_below nodes (state_in state.now) (state_in received.now) e.name) entries.now }
{
    entries.iter().any(|entry| is_name_overspent(nodes, state, received, &entry.name))
}

//! The calls that change a node.

ghost use Rattle.std.specs.Prelude.{◌≡◌, ◌≢◌, [], false, IsSome, IsUtf8, MatchOption, None};
ghost use Rattle.node_calls.specs.Asks as asks;
ghost use Rattle.node_calls.specs.Asks.{bare_emit};
ghost use Rattle.node_core.specs.Memory.{DeliveryNeedsMemory, EmitNeedsMemory, LoadNeedsMemory};
ghost use Rattle.node_core.specs.Memory.{NameNeedsMemory, SetNeedsMemory};
ghost use Rattle.node_core.specs.Traces.{delivery_of};
ghost use Rattle.node_for_c.specs.Numbers.{already_open, closed, no_stamp, stamp_in};
ghost use Rattle.node_for_c.specs.Told.{no_act};
ghost use Rattle.node_for_c.specs.Calls.{AtPoint, Both, HasNumber, IsEmitted, IsLeft, IsLeftAt, IsMade};
ghost use Rattle.node_for_c.specs.Calls.{IsNoName, IsNotOpened, IsOpened, IsRefusedAt};
ghost use Rattle.node_for_c.specs.Calls.{IsPassedDrawing, IsPassedGiven, IsRefused, IsRefusedOf};
ghost use Rattle.node_for_c.specs.Calls.{Stays, words_drawn};

use node_core::Config;
use node_for_c::{Act, CLOSED, NO_STAMP, Node, OPEN, Registry, Stamped, UNSET};
use std::alloc::Global;

/// Opens a closed node as a node of a cluster, which accepts so many calls in its life and takes
/// its random draws from the seed. Answers 0, or why not.
#[unsafe(no_mangle)]
pub extern "C" fn failreg_open(
    alloc: Global,
    node: &mut Node,
    number: u8,
    nodes: u8,
    trace_cap: u64,
    seed: &[u8; 32],
) -> u32
    ensures ok { result ≡ 0 → MatchOption node.new.handle.kept ⊥ (IsOpened
        (record { node = number; nodes = nodes; trace_cap = trace_cap }) seed.now) }
    ensures refused { result ≢ 0 → MatchOption node.old.handle.kept
        (IsNotOpened (record { node = number; nodes = nodes; trace_cap = trace_cap }) result)
        (λ _. result ≡ already_open) }
    ensures open { IsSome node.old.handle.kept → result ≡ already_open }
    ensures same { result ≢ 0 → node.new.handle.kept ≡ node.old.handle.kept }
{
    if node.is_open {
        return OPEN;
    }
    let config = Config {
        node: number,
        nodes,
        trace_cap,
    };
    match Registry::open(alloc, config, seed) {
        Ok(registry) => {
            *node = Node::of(registry);
            0
        }
        Err(status) => status,
    }
}

/// Closes a node, if it is open: what it held is given back, and it is left closed.
#[unsafe(no_mangle)]
pub extern "C" fn failreg_close(alloc: Global, node: &mut Node)
    ensures { node.new.handle.kept ≡ None }
{
    node.close(alloc);
}

/// Sets a point to an action text, and tells the stamp of the setting.
#[unsafe(no_mangle)]
pub extern "C" fn failreg_set(
    alloc: Global,
    node: &mut Node,
    name: &[u8],
    text: &[u8],
    stamp: &mut Stamped,
) -> u32
    ensures ok { result ≡ 0 → Both node.old.handle.kept node.new.handle.kept
        (IsMade (asks.Set name.now text.now) (asks.IsSet (stamp_in stamp.new))) }
    ensures refused { result ≢ 0 → MatchOption node.old.handle.kept (result ≡ closed) (λ k.
        IsRefusedOf (IsUtf8 name.now × IsUtf8 text.now) k.core (asks.Set name.now text.now) []
        (SetNeedsMemory k.core name.now text.now) result) }
    ensures left { result ≢ 0 → Stays node.old.handle.kept node.new.handle.kept
        (IsLeft (asks.Set name.now text.now) [] result) }
    ensures none { result ≢ 0 → stamp.new ≡ no_stamp }
{
    let Some(mut registry) = node.take(alloc) else {
        *stamp = Stamped::of(NO_STAMP);
        return CLOSED;
    };
    let (status, answer) = registry.set(alloc, name, text);
    *node = Node::of(registry);
    *stamp = Stamped::of(answer);
    status
}

/// Removes a point, and tells the stamp of the removal.
#[unsafe(no_mangle)]
pub extern "C" fn failreg_remove(
    alloc: Global,
    node: &mut Node,
    name: &[u8],
    stamp: &mut Stamped,
) -> u32
    ensures ok { result ≡ 0 → Both node.old.handle.kept node.new.handle.kept
        (IsMade (asks.Remove name.now) (asks.IsRemoved (stamp_in stamp.new))) }
    ensures refused { result ≢ 0 → MatchOption node.old.handle.kept (result ≡ closed) (λ k.
        IsRefusedOf (IsUtf8 name.now) k.core (asks.Remove name.now) []
        (NameNeedsMemory k.core name.now) result) }
    ensures left { result ≢ 0 → Stays node.old.handle.kept node.new.handle.kept
        (IsLeft (asks.Remove name.now) [] result) }
    ensures none { result ≢ 0 → stamp.new ≡ no_stamp }
{
    let Some(mut registry) = node.take(alloc) else {
        *stamp = Stamped::of(NO_STAMP);
        return CLOSED;
    };
    let (status, answer) = registry.remove(alloc, name);
    *node = Node::of(registry);
    *stamp = Stamped::of(answer);
    status
}

/// Sets the points of a setting text, as of FAILPOINTS, all or none, and tells how many.
#[unsafe(no_mangle)]
pub extern "C" fn failreg_load(
    alloc: Global,
    node: &mut Node,
    text: &[u8],
    entries: &mut u16,
) -> u32
    ensures ok { result ≡ 0 → Both node.old.handle.kept node.new.handle.kept
        (IsMade (asks.Load text.now) (asks.IsLoaded entries.new)) }
    ensures refused { result ≢ 0 → MatchOption node.old.handle.kept (result ≡ closed) (λ k.
        IsRefusedOf (IsUtf8 text.now) k.core (asks.Load text.now) []
        (LoadNeedsMemory k.core text.now) result) }
    ensures left { result ≢ 0 → Stays node.old.handle.kept node.new.handle.kept
        (IsLeft (asks.Load text.now) [] result) }
    ensures none { result ≢ 0 → entries.new ≡ 0 }
{
    let Some(mut registry) = node.take(alloc) else {
        *entries = 0;
        return CLOSED;
    };
    let (status, answer) = registry.load(alloc, text);
    *node = Node::of(registry);
    *entries = answer;
    status
}

/// Passes a point, with the next random draws of the node's generator. The text of its task, and
/// the random draws, are then to be fetched.
#[unsafe(no_mangle)]
pub extern "C" fn failreg_pass(alloc: Global, node: &mut Node, name: &[u8], act: &mut Act) -> u32
    ensures ok { result ≡ 0 → Both node.old.handle.kept node.new.handle.kept
        (IsPassedDrawing name.now act.new) }
    ensures refused { result ≢ 0 → MatchOption node.old.handle.kept (result ≡ closed) (λ k.
        IsRefusedOf (IsUtf8 name.now) k.core (asks.Pass name.now) (words_drawn k name.now)
        (NameNeedsMemory k.core name.now) result) }
    ensures left { result ≢ 0 → Stays node.old.handle.kept node.new.handle.kept (λ k l.
        IsLeft (asks.Pass name.now) (words_drawn k name.now) result k l) }
    ensures none { result ≢ 0 → act.new ≡ no_act }
{
    let Some(mut registry) = node.take(alloc) else {
        *act = UNSET;
        return CLOSED;
    };
    let (status, answer) = registry.pass(alloc, name);
    *node = Node::of(registry);
    *act = answer;
    status
}

/// Tells the number of a point, set or not: the one that its name has, or the next one. It is no
/// pass, and stays the name's until the node is closed.
#[unsafe(no_mangle)]
pub extern "C" fn failreg_point(alloc: Global, node: &mut Node, name: &[u8], point: &mut u32) -> u32
    ensures ok { result ≡ 0 → Both node.old.handle.kept node.new.handle.kept
        (HasNumber name.now point.new) }
    ensures refused { result ≢ 0
        → MatchOption node.old.handle.kept (result ≡ closed) (λ _. IsNoName name.now result) }
    ensures same { result ≢ 0 → node.new.handle.kept ≡ node.old.handle.kept }
    ensures none { result ≢ 0 → point.new ≡ 0 }
{
    let Some(mut registry) = node.take(alloc) else {
        *point = 0;
        return CLOSED;
    };
    let (status, answer) = registry.point(alloc, name);
    *node = Node::of(registry);
    *point = answer;
    status
}

/// Passes the point of a number, as `failreg_pass` does by its name, and copies no text.
#[unsafe(no_mangle)]
pub extern "C" fn failreg_pass_at(alloc: Global, node: &mut Node, point: u32, act: &mut Act) -> u32
    ensures ok { result ≡ 0 → Both node.old.handle.kept node.new.handle.kept (λ k l.
        AtPoint k point (λ name. IsPassedDrawing name act.new k l)) }
    ensures refused { result ≢ 0 → MatchOption node.old.handle.kept (result ≡ closed) (λ k.
        IsRefusedAt k point result) }
    ensures left { result ≢ 0 → Stays node.old.handle.kept node.new.handle.kept
        (IsLeftAt point result) }
    ensures none { result ≢ 0 → act.new ≡ no_act }
{
    let Some(mut registry) = node.take(alloc) else {
        *act = UNSET;
        return CLOSED;
    };
    let (status, answer) = registry.pass_at(alloc, point);
    *node = Node::of(registry);
    *act = answer;
    status
}

/// Passes a point with random draws that C gives, one for each term whose chance is below 100%.
#[unsafe(no_mangle)]
pub extern "C" fn failreg_pass_with(
    alloc: Global,
    node: &mut Node,
    name: &[u8],
    words: &[u32],
    act: &mut Act,
) -> u32
    ensures ok { result ≡ 0 → Both node.old.handle.kept node.new.handle.kept
        (IsPassedGiven name.now words.now act.new) }
    ensures refused { result ≢ 0 → MatchOption node.old.handle.kept (result ≡ closed) (λ k.
        IsRefusedOf (IsUtf8 name.now) k.core (asks.Pass name.now) words.now
        (NameNeedsMemory k.core name.now) result) }
    ensures left { result ≢ 0 → Stays node.old.handle.kept node.new.handle.kept
        (IsLeft (asks.Pass name.now) words.now result) }
    ensures none { result ≢ 0 → act.new ≡ no_act }
{
    let Some(mut registry) = node.take(alloc) else {
        *act = UNSET;
        return CLOSED;
    };
    let (status, answer) = registry.pass_with(alloc, name, words);
    *node = Node::of(registry);
    *act = answer;
    status
}

/// Moves rights of a counted term to another node, and tells how many went there in all.
#[unsafe(no_mangle)]
pub extern "C" fn failreg_shift(
    alloc: Global,
    node: &mut Node,
    name: &[u8],
    term: u8,
    to: u8,
    amount: u64,
    total: &mut u64,
) -> u32
    ensures ok { result ≡ 0 → Both node.old.handle.kept node.new.handle.kept
        (IsMade (asks.Shift name.now term to amount) (asks.IsShifted total.new)) }
    ensures refused { result ≢ 0 → MatchOption node.old.handle.kept (result ≡ closed) (λ k.
        IsRefusedOf (IsUtf8 name.now) k.core (asks.Shift name.now term to amount) []
        (NameNeedsMemory k.core name.now) result) }
    ensures left { result ≢ 0 → Stays node.old.handle.kept node.new.handle.kept
        (IsLeft (asks.Shift name.now term to amount) [] result) }
    ensures none { result ≢ 0 → total.new ≡ 0 }
{
    let Some(mut registry) = node.take(alloc) else {
        *total = 0;
        return CLOSED;
    };
    let (status, answer) = registry.shift(alloc, name, term, to, amount);
    *node = Node::of(registry);
    *total = answer;
    status
}

/// Grants the node rights of a counted term beyond its count, and tells how many in all.
#[unsafe(no_mangle)]
pub extern "C" fn failreg_grant(
    alloc: Global,
    node: &mut Node,
    name: &[u8],
    term: u8,
    amount: u64,
    total: &mut u64,
) -> u32
    ensures ok { result ≡ 0 → Both node.old.handle.kept node.new.handle.kept
        (IsMade (asks.Grant name.now term amount) (asks.IsGranted total.new)) }
    ensures refused { result ≢ 0 → MatchOption node.old.handle.kept (result ≡ closed) (λ k.
        IsRefusedOf (IsUtf8 name.now) k.core (asks.Grant name.now term amount) []
        (NameNeedsMemory k.core name.now) result) }
    ensures left { result ≢ 0 → Stays node.old.handle.kept node.new.handle.kept
        (IsLeft (asks.Grant name.now term amount) [] result) }
    ensures none { result ≢ 0 → total.new ≡ 0 }
{
    let Some(mut registry) = node.take(alloc) else {
        *total = 0;
        return CLOSED;
    };
    let (status, answer) = registry.grant(alloc, name, term, amount);
    *node = Node::of(registry);
    *total = answer;
    status
}

/// Takes in a message of another node, and tells whether that changed anything.
#[unsafe(no_mangle)]
pub extern "C" fn failreg_deliver(
    alloc: Global,
    node: &mut Node,
    message: &[u8],
    changed: &mut bool,
) -> u32
    ensures ok { result ≡ 0 → Both node.old.handle.kept node.new.handle.kept (λ k l.
        IsMade (delivery_of k.core message.now) (asks.IsDelivered changed.new) k l) }
    ensures refused { result ≢ 0 → MatchOption node.old.handle.kept (result ≡ closed) (λ k.
        IsRefused k.core (delivery_of k.core message.now) []
        (DeliveryNeedsMemory k.core message.now) result) }
    ensures left { result ≢ 0 → Stays node.old.handle.kept node.new.handle.kept (λ k l.
        IsLeft (delivery_of k.core message.now) [] result k l) }
    ensures none { result ≢ 0 → changed.new ≡ false }
{
    let Some(mut registry) = node.take(alloc) else {
        *changed = false;
        return CLOSED;
    };
    let (status, answer) = registry.deliver(alloc, message);
    *node = Node::of(registry);
    *changed = answer;
    status
}

/// Makes a message to another node, which is then to be fetched.
#[unsafe(no_mangle)]
pub extern "C" fn failreg_emit(alloc: Global, node: &mut Node, to: u8) -> u32
    ensures ok { result ≡ 0 → Both node.old.handle.kept node.new.handle.kept (IsEmitted to) }
    ensures refused { result ≢ 0 → MatchOption node.old.handle.kept (result ≡ closed) (λ k.
        IsRefused k.core (bare_emit to) [] (EmitNeedsMemory k.core to) result) }
    ensures left { result ≢ 0 → Stays node.old.handle.kept node.new.handle.kept
        (IsLeft (bare_emit to) [] result) }
{
    let Some(mut registry) = node.take(alloc) else {
        return CLOSED;
    };
    let status = registry.emit(alloc, to);
    *node = Node::of(registry);
    status
}

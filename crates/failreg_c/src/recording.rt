//! The lines of a node's part, and calls that are made again from there.

ghost use Rattle.std.specs.Prelude.{◌≡◌, ◌≢◌, ◌⊎◌, MatchOption, None};
ghost use Rattle.node_core.specs.Traces.{call_kept};
ghost use Rattle.drills.specs.Reading.{entry_in as entry_read};
ghost use Rattle.node_for_c.specs.Numbers.{closed, differs, no_entry, no_line, no_memory};
ghost use Rattle.node_for_c.specs.Calls.{Both};
ghost use Rattle.node_for_c.specs.Parts.{AreLinesSaid, IsEntrySaid, IsHeadSaid, IsNoHead};
ghost use Rattle.node_for_c.specs.Parts.{IsOtherwise, IsRepeated, LacksCall};

use node_for_c::{CLOSED, DIFFERS, Node};
use std::alloc::Global;

/// Tells the first line of the node's part, without the newline that ends it: it is then to be
/// fetched. The run is any text. Answers 0, 30 where that isn't UTF-8, 22, or 31.
#[unsafe(no_mangle)]
pub extern "C" fn failreg_part_head(alloc: Global, node: &mut Node, run: &[u8]) -> u32
    ensures text { result ≡ 0 → Both node.old.handle.kept node.new.handle.kept
        (IsHeadSaid run.now) }
    ensures refused { result ≢ 0 → MatchOption node.old.handle.kept (result ≡ closed)
        (λ _. IsNoHead run.now result) }
    ensures same { result ≢ 0 → node.new.handle.kept ≡ node.old.handle.kept }
{
    let Some(mut registry) = node.take(alloc) else {
        return CLOSED;
    };
    let status = registry.say_head(alloc, run);
    *node = Node::of(registry);
    status
}

/// Tells the line of an accepted call by its number, counted from 0, without the newline that ends
/// it: it is then to be fetched. Answers 0, 34 where the node keeps no call of the number, 22, or 31.
#[unsafe(no_mangle)]
pub extern "C" fn failreg_entry(alloc: Global, node: &mut Node, index: u64) -> u32
    ensures text { result ≡ 0 → Both node.old.handle.kept node.new.handle.kept
        (IsEntrySaid index) }
    ensures refused { result ≢ 0 → MatchOption node.old.handle.kept (result ≡ closed) (λ k.
        (result ≡ no_memory) ⊎ ((result ≡ no_entry) × (call_kept k.core index ≡ None))) }
    ensures same { result ≢ 0 → node.new.handle.kept ≡ node.old.handle.kept }
{
    let Some(mut registry) = node.take(alloc) else {
        return CLOSED;
    };
    let status = registry.say_entry(alloc, index);
    *node = Node::of(registry);
    status
}

/// Tells the lines of the accepted calls from a number on, counted from 0, each with the newline that ends
/// it: they are then to be fetched. Answers 0, 34 where the node doesn't keep all of these calls, or has
/// fewer, 22, or 31.
#[unsafe(no_mangle)]
pub extern "C" fn failreg_part_lines(alloc: Global, node: &mut Node, from: u64) -> u32
    ensures text { result ≡ 0 → Both node.old.handle.kept node.new.handle.kept
        (AreLinesSaid from) }
    ensures refused { result ≢ 0 → MatchOption node.old.handle.kept (result ≡ closed) (λ k.
        (result ≡ no_memory) ⊎ ((result ≡ no_entry) × LacksCall k.core from)) }
    ensures same { result ≢ 0 → node.new.handle.kept ≡ node.old.handle.kept }
{
    let Some(mut registry) = node.take(alloc) else {
        return CLOSED;
    };
    let status = registry.say_lines(alloc, from);
    *node = Node::of(registry);
    status
}

/// Makes the call of a line of a part again. Answers 0; 23 where the node refuses the call or answers
/// it otherwise than the line says, and the node is closed then; 35 where the bytes are no line of a
/// call; 22; or 31.
#[unsafe(no_mangle)]
pub extern "C" fn failreg_repeat(alloc: Global, node: &mut Node, line: &[u8]) -> u32
    ensures ok { result ≡ 0 → Both node.old.handle.kept node.new.handle.kept
        (IsRepeated line.now) }
    ensures differs { result ≡ differs → MatchOption node.old.handle.kept ⊥ (IsOtherwise line.now)
        × (node.new.handle.kept ≡ None) }
    ensures no_line { result ≡ no_line → entry_read line.now ≡ None }
    ensures refused { result ≢ 0 → MatchOption node.old.handle.kept (result ≡ closed) (λ _.
        (result ≡ differs) ⊎ (result ≡ no_line) ⊎ (result ≡ no_memory)) }
    ensures same { result ≢ 0 → result ≢ differs
        → node.new.handle.kept ≡ node.old.handle.kept }
{
    let Some(mut registry) = node.take(alloc) else {
        return CLOSED;
    };
    let status = registry.repeat(alloc, line);
    *node = Node::of(registry);
    if status == DIFFERS {
        node.close(alloc);
    }
    status
}

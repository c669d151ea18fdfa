//! The calls that read a node and leave it as it is.

ghost use Rattle.std.specs.Prelude.{◌≡◌, ◌≢◌, ◌↔◌, pos, false, length, IsSome, IsTrue, MatchOption};
ghost use Rattle.node_steps.specs.Nodes.{setting_of};
ghost use Rattle.node_steps.specs.Texts.{list_text};
ghost use Rattle.node_core.specs.Traces.{node_of, state_known};
ghost use Rattle.replica_state.specs.States.{rights_of, spent_of, total_hits};
ghost use Rattle.node_for_c.specs.Numbers.{IsNearest, closed, no_memory, whole};
ghost use Rattle.node_for_c.specs.Calls.{Both, FillsFront, IsNoName, IsSaid, fault_said, said_of};

use node_core::NodeFault;
use node_for_c::{CLOSED, Node, Wide, narrow, number_of};
use std::alloc::Global;

/// Tells whether a point is set. That is no pass: the trace gets no entry.
#[unsafe(no_mangle)]
pub extern "C" fn failreg_is_set(
    alloc: Global,
    node: &mut Node,
    name: &[u8],
    is_set: &mut bool,
) -> u32
    ensures value { result ≡ 0 → MatchOption node.old.handle.kept ⊥ (λ k.
        IsTrue is_set.new ↔ IsSome (setting_of (state_known k.core) name.now)) }
    ensures refused { result ≢ 0
        → MatchOption node.old.handle.kept (result ≡ closed) (λ _. IsNoName name.now result) }
    ensures none { result ≢ 0 → is_set.new ≡ false }
    ensures same { node.new.handle.kept ≡ node.old.handle.kept }
{
    let Some(registry) = node.take(alloc) else {
        *is_set = false;
        return CLOSED;
    };
    let (status, answer) = registry.is_set(alloc, name);
    *node = Node::of(registry);
    *is_set = answer;
    status
}

/// Tells how often a term ran at all nodes, as far as the node knows.
#[unsafe(no_mangle)]
pub extern "C" fn failreg_spent(
    alloc: Global,
    node: &mut Node,
    name: &[u8],
    term: u8,
    spent: &mut Wide,
) -> u32
    ensures value { result ≡ 0 → MatchOption node.old.handle.kept ⊥ (λ k.
        whole spent.new ≡ spent_of (state_known k.core) name.now term) }
    ensures refused { result ≢ 0
        → MatchOption node.old.handle.kept (result ≡ closed) (λ _. IsNoName name.now result) }
    ensures none { result ≢ 0 → whole spent.new ≡ 0 }
    ensures same { node.new.handle.kept ≡ node.old.handle.kept }
{
    let Some(registry) = node.take(alloc) else {
        *spent = Wide::of(0);
        return CLOSED;
    };
    let (status, answer) = registry.spent(alloc, name, term);
    *node = Node::of(registry);
    *spent = Wide::of(answer);
    status
}

/// Tells how often a point was passed at all nodes while it was set, as far as the node knows.
#[unsafe(no_mangle)]
pub extern "C" fn failreg_hits(alloc: Global, node: &mut Node, name: &[u8], hits: &mut Wide) -> u32
    ensures value { result ≡ 0 → MatchOption node.old.handle.kept ⊥ (λ k.
        whole hits.new ≡ total_hits (state_known k.core) name.now) }
    ensures refused { result ≢ 0
        → MatchOption node.old.handle.kept (result ≡ closed) (λ _. IsNoName name.now result) }
    ensures none { result ≢ 0 → whole hits.new ≡ 0 }
    ensures same { node.new.handle.kept ≡ node.old.handle.kept }
{
    let Some(registry) = node.take(alloc) else {
        *hits = Wide::of(0);
        return CLOSED;
    };
    let (status, answer) = registry.hits(alloc, name);
    *node = Node::of(registry);
    *hits = Wide::of(answer);
    status
}

/// Tells the rights of a node to execute a counted term, as this node knows, or the number of 64
/// bits that is nearest to them.
#[unsafe(no_mangle)]
pub extern "C" fn failreg_rights(
    alloc: Global,
    node: &mut Node,
    name: &[u8],
    term: u8,
    of: u8,
    rights: &mut i64,
) -> u32
    ensures value { result ≡ 0 → MatchOption node.old.handle.kept ⊥ (λ k.
        IsNearest (rights_of (state_known k.core) name.now term of) rights.new) }
    ensures refused { result ≢ 0
        → MatchOption node.old.handle.kept (result ≡ closed) (λ _. IsNoName name.now result) }
    ensures none { result ≢ 0 → rights.new ≡ pos 0 }
    ensures same { node.new.handle.kept ≡ node.old.handle.kept }
{
    let Some(registry) = node.take(alloc) else {
        *rights = 0;
        return CLOSED;
    };
    let (status, answer) = registry.rights(alloc, name, term, of);
    *node = Node::of(registry);
    *rights = narrow(answer);
    status
}

/// Tells how many accepted calls changed what the node knows.
#[unsafe(no_mangle)]
pub extern "C" fn failreg_state_version(alloc: Global, node: &mut Node, version: &mut u64) -> u32
    ensures value { result ≡ 0 → MatchOption node.old.handle.kept ⊥ (λ k.
        version.new ≡ (node_of k.core).marks.version) }
    ensures refused { result ≢ 0
        → MatchOption node.old.handle.kept (result ≡ closed) (λ _. ⊥) }
    ensures none { result ≢ 0 → version.new ≡ 0 }
    ensures same { node.new.handle.kept ≡ node.old.handle.kept }
{
    let Some(registry) = node.take(alloc) else {
        *version = 0;
        return CLOSED;
    };
    *version = registry.core.version();
    *node = Node::of(registry);
    0
}

/// Tells the version of another node that this one has all of, 0 at first.
#[unsafe(no_mangle)]
pub extern "C" fn failreg_known(alloc: Global, node: &mut Node, from: u8, known: &mut u64) -> u32
    ensures value { result ≡ 0 → MatchOption node.old.handle.kept ⊥ (λ k.
        known.new ≡ (node_of k.core).marks.known from) }
    ensures refused { result ≢ 0
        → MatchOption node.old.handle.kept (result ≡ closed) (λ _. ⊥) }
    ensures none { result ≢ 0 → known.new ≡ 0 }
    ensures same { node.new.handle.kept ≡ node.old.handle.kept }
{
    let Some(registry) = node.take(alloc) else {
        *known = 0;
        return CLOSED;
    };
    *known = registry.core.known(from);
    *node = Node::of(registry);
    0
}

/// Tells the version of this node that another one said it has, 0 at first.
#[unsafe(no_mangle)]
pub extern "C" fn failreg_acked(alloc: Global, node: &mut Node, to: u8, acked: &mut u64) -> u32
    ensures value { result ≡ 0 → MatchOption node.old.handle.kept ⊥ (λ k.
        acked.new ≡ (node_of k.core).marks.acked to) }
    ensures refused { result ≢ 0
        → MatchOption node.old.handle.kept (result ≡ closed) (λ _. ⊥) }
    ensures none { result ≢ 0 → acked.new ≡ 0 }
    ensures same { node.new.handle.kept ≡ node.old.handle.kept }
{
    let Some(registry) = node.take(alloc) else {
        *acked = 0;
        return CLOSED;
    };
    *acked = registry.core.acked(to);
    *node = Node::of(registry);
    0
}

/// Tells how many calls the node has accepted.
#[unsafe(no_mangle)]
pub extern "C" fn failreg_calls(alloc: Global, node: &mut Node, calls: &mut u64) -> u32
    ensures value { result ≡ 0 → MatchOption node.old.handle.kept ⊥ (λ k.
        calls.new ≡ length k.core.trace) }
    ensures refused { result ≢ 0
        → MatchOption node.old.handle.kept (result ≡ closed) (λ _. ⊥) }
    ensures none { result ≢ 0 → calls.new ≡ 0 }
    ensures same { node.new.handle.kept ≡ node.old.handle.kept }
{
    let Some(registry) = node.take(alloc) else {
        *calls = 0;
        return CLOSED;
    };
    *calls = registry.core.calls();
    *node = Node::of(registry);
    0
}

/// Lists the points that are set; the list is then to be fetched.
#[unsafe(no_mangle)]
pub extern "C" fn failreg_list(alloc: Global, node: &mut Node) -> u32
    ensures text { result ≡ 0 → Both node.old.handle.kept node.new.handle.kept (λ k l.
        IsSaid (list_text (state_known k.core)) k l) }
    ensures refused { result ≢ 0
        → MatchOption node.old.handle.kept (result ≡ closed) (λ _. result ≡ no_memory) }
    ensures same { result ≢ 0 → node.new.handle.kept ≡ node.old.handle.kept }
{
    let Some(mut registry) = node.take(alloc) else {
        return CLOSED;
    };
    let status = registry.list(alloc);
    *node = Node::of(registry);
    status
}

/// Copies the text of the last refusal, as much as there is room for, and tells its whole length:
/// nothing where that was a text that isn't UTF-8. What is to be fetched stays.
#[unsafe(no_mangle)]
pub extern "C" fn failreg_fault(
    alloc: Global,
    node: &mut Node,
    into: &mut [u8],
    told: &mut usize,
) -> u32
    ensures text { result ≡ 0 → MatchOption node.old.handle.kept ⊥ (λ k.
        (told.new ≡ length (fault_said k)) × FillsFront (fault_said k) into.old into.new) }
    ensures refused { result ≢ 0
        → MatchOption node.old.handle.kept (result ≡ closed) (λ _. result ≡ no_memory) }
    ensures none { result ≢ 0 → (told.new ≡ 0) × (into.new ≡ into.old) }
    ensures same { node.new.handle.kept ≡ node.old.handle.kept }
{
    *told = 0;
    let Some(registry) = node.take(alloc) else {
        return CLOSED;
    };
    let text = registry.fault_text(alloc, into);
    *node = Node::of(registry);
    match text {
        Ok(length) => {
            *told = length;
            0
        }
        Err(_) => number_of(NodeFault::OutOfMemory),
    }
}

/// Copies what is to be fetched, as much as there is room for, and answers its whole length.
#[unsafe(no_mangle)]
pub extern "C" fn failreg_fetch(alloc: Global, node: &mut Node, into: &mut [u8]) -> usize
    ensures bytes { MatchOption node.old.handle.kept ((result ≡ 0) × (into.new ≡ into.old)) (λ k.
        (result ≡ length (said_of k)) × FillsFront (said_of k) into.old into.new) }
    ensures same { node.new.handle.kept ≡ node.old.handle.kept }
{
    let Some(registry) = node.take(alloc) else {
        return 0;
    };
    let length = registry.fetch(into);
    *node = Node::of(registry);
    length
}

/// Copies the random draws that the last `failreg_pass` drew, as many as there is room for, and
/// answers how many there are.
#[unsafe(no_mangle)]
pub extern "C" fn failreg_words(alloc: Global, node: &mut Node, into: &mut [u32]) -> usize
    ensures words { MatchOption node.old.handle.kept ((result ≡ 0) × (into.new ≡ into.old)) (λ k.
        (result ≡ length k.words.items) × FillsFront k.words.items into.old into.new) }
    ensures same { node.new.handle.kept ≡ node.old.handle.kept }
{
    let Some(registry) = node.take(alloc) else {
        return 0;
    };
    let length = registry.fetch_words(into);
    *node = Node::of(registry);
    length
}

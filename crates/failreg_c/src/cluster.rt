//! A node among the others of its cluster: whom it heard, what clients ask of it then, and whom it tells.

ghost use Rattle.std.specs.Prelude.{◌≡◌, ◌≢◌, [], false, unwrap_or, MatchOption};
ghost use Rattle.node_core.specs.Memory.{DeliveryNeedsMemory};
ghost use Rattle.node_core.specs.Traces.{delivery_of};
ghost use Rattle.peers.specs.declared.heard.Hearing.TheVariants.{First};
ghost use Rattle.peers.specs.Book.{book_missed, book_told};
ghost use Rattle.node_for_c.specs.Numbers.{closed, nobody};
ghost use Rattle.node_for_c.specs.Calls.{Both, IsRefused, Stays};
ghost use Rattle.node_for_c.specs.Answered.{IsNoRequest};
ghost use Rattle.node_for_c.specs.Cluster.{IsAnsweredAt, IsLeftNoting, IsLooked, IsTakenAt};
ghost use Rattle.node_for_c.specs.Cluster.{awaited_in, unanswered};

use node_for_c::{Answered, CLOSED, NOBODY, Node, UNANSWERED};
use std::alloc::Global;

/// Has calls that clients ask for wait until each other node was heard. Answers 0, or 31.
#[unsafe(no_mangle)]
pub extern "C" fn failreg_hear_first(alloc: Global, node: &mut Node) -> u32
    ensures ok { result ≡ 0 → Both node.old.handle.kept node.new.handle.kept (λ k l.
        l ≡ record k { book = record k.book { hearing = First } }) }
    ensures refused { result ≢ 0 → MatchOption node.old.handle.kept (result ≡ closed) (λ _. ⊥) }
    ensures same { result ≢ 0 → node.new.handle.kept ≡ node.old.handle.kept }
{
    let Some(mut registry) = node.take(alloc) else {
        return CLOSED;
    };
    registry.book.hear_first();
    *node = Node::of(registry);
    0
}

/// Tells the node that calls wait for, the first of which no message was accepted: 255 where they don't
/// wait. Answers 0, or 31.
#[unsafe(no_mangle)]
pub extern "C" fn failreg_awaited(alloc: Global, node: &mut Node, peer: &mut u8) -> u32
    ensures value { result ≡ 0 → MatchOption node.old.handle.kept ⊥ (λ k.
        peer.new ≡ unwrap_or (awaited_in k) nobody) }
    ensures refused { result ≢ 0 → MatchOption node.old.handle.kept (result ≡ closed) (λ _. ⊥) }
    ensures none { result ≢ 0 → peer.new ≡ nobody }
    ensures same { node.new.handle.kept ≡ node.old.handle.kept }
{
    let Some(registry) = node.take(alloc) else {
        *peer = NOBODY;
        return CLOSED;
    };
    *peer = registry.book.awaited().unwrap_or(NOBODY);
    *node = Node::of(registry);
    0
}

/// Takes in a message of another node as `failreg_deliver` does, and notes what it came to, at a time in
/// milliseconds since 1970.
#[unsafe(no_mangle)]
pub extern "C" fn failreg_deliver_at(
    alloc: Global,
    node: &mut Node,
    message: &[u8],
    now: u64,
    changed: &mut bool,
) -> u32
    ensures ok { result ≡ 0 → Both node.old.handle.kept node.new.handle.kept
        (IsTakenAt message.now now changed.new) }
    ensures refused { result ≢ 0 → MatchOption node.old.handle.kept (result ≡ closed) (λ k.
        IsRefused k.core (delivery_of k.core message.now) []
        (DeliveryNeedsMemory k.core message.now) result) }
    ensures left { result ≢ 0 → Stays node.old.handle.kept node.new.handle.kept
        (IsLeftNoting message.now now result) }
    ensures none { result ≢ 0 → changed.new ≡ false }
{
    let Some(mut registry) = node.take(alloc) else {
        *changed = false;
        return CLOSED;
    };
    let (status, answer) = registry.deliver_at(alloc, message, now);
    *node = Node::of(registry);
    *changed = answer;
    status
}

/// Answers a request of HTTP as a served node of a cluster does, at a time in milliseconds since 1970, and
/// tells the status of the reply and what the request changed. The body of the reply is then to be fetched.
/// Answers 0, or 30 where method or path isn't UTF-8, or 31.
#[unsafe(no_mangle)]
pub extern "C" fn failreg_answer_at(
    alloc: Global,
    node: &mut Node,
    method: &[u8],
    path: &[u8],
    body: &[u8],
    now: u64,
    answered: &mut Answered,
) -> u32
    ensures ok { result ≡ 0 → Both node.old.handle.kept node.new.handle.kept
        (IsAnsweredAt method.now path.now body.now now answered.new) }
    ensures refused { result ≢ 0 → MatchOption node.old.handle.kept (result ≡ closed)
        (λ _. IsNoRequest method.now path.now result) }
    ensures same { result ≢ 0 → node.new.handle.kept ≡ node.old.handle.kept }
    ensures none { result ≢ 0 → answered.new ≡ unanswered }
{
    let Some(mut registry) = node.take(alloc) else {
        *answered = UNANSWERED;
        return CLOSED;
    };
    let told = registry.answer_at(alloc, method, path, body, now);
    *node = Node::of(registry);
    match told {
        Ok(told) => {
            *answered = told;
            0
        }
        Err(status) => {
            *answered = UNANSWERED;
            status
        }
    }
}

/// Looks at another node, once in a round, and tells what is due for it: 0 nothing, 1 it is to be told,
/// 2 it is to be asked to tell. For what is no other node of the cluster nothing is. Answers 0, or 31.
#[unsafe(no_mangle)]
pub extern "C" fn failreg_due(alloc: Global, node: &mut Node, peer: u8, due: &mut u8) -> u32
    ensures ok { result ≡ 0 → Both node.old.handle.kept node.new.handle.kept
        (IsLooked peer due.new) }
    ensures refused { result ≢ 0 → MatchOption node.old.handle.kept (result ≡ closed) (λ _. ⊥) }
    ensures none { result ≢ 0 → due.new ≡ 0 }
    ensures same { result ≢ 0 → node.new.handle.kept ≡ node.old.handle.kept }
{
    let Some(mut registry) = node.take(alloc) else {
        *due = 0;
        return CLOSED;
    };
    *due = registry.look(peer);
    *node = Node::of(registry);
    0
}

/// Notes that another node was told what there was when it was looked at last. Answers 0, or 31.
#[unsafe(no_mangle)]
pub extern "C" fn failreg_told(alloc: Global, node: &mut Node, peer: u8) -> u32
    ensures ok { result ≡ 0 → Both node.old.handle.kept node.new.handle.kept (λ k l.
        l ≡ record k { book = book_told peer k.book }) }
    ensures refused { result ≢ 0 → MatchOption node.old.handle.kept (result ≡ closed) (λ _. ⊥) }
    ensures same { result ≢ 0 → node.new.handle.kept ≡ node.old.handle.kept }
{
    let Some(mut registry) = node.take(alloc) else {
        return CLOSED;
    };
    registry.book.told(peer);
    *node = Node::of(registry);
    0
}

/// Notes that another node wasn't reached, or didn't accept what it was told. Answers 0, or 31.
#[unsafe(no_mangle)]
pub extern "C" fn failreg_missed(alloc: Global, node: &mut Node, peer: u8) -> u32
    ensures ok { result ≡ 0 → Both node.old.handle.kept node.new.handle.kept (λ k l.
        l ≡ record k { book = book_missed peer k.book }) }
    ensures refused { result ≢ 0 → MatchOption node.old.handle.kept (result ≡ closed) (λ _. ⊥) }
    ensures same { result ≢ 0 → node.new.handle.kept ≡ node.old.handle.kept }
{
    let Some(mut registry) = node.take(alloc) else {
        return CLOSED;
    };
    registry.book.missed(peer);
    *node = Node::of(registry);
    0
}

//! Requests of HTTP that a program's own server was sent.

ghost use Rattle.std.specs.Prelude.{◌≡◌, ◌≢◌, MatchOption};
ghost use Rattle.node_for_c.specs.Numbers.{closed};
ghost use Rattle.node_for_c.specs.Calls.{Both};
ghost use Rattle.node_for_c.specs.Answered.{IsAnsweredWith, IsNoRequest};

use node_for_c::{CLOSED, Node};
use std::alloc::Global;

/// Answers a request of HTTP as a served node does, and tells the status of the reply, whose body is
/// then to be fetched. Answers 0, or 30 where method or path isn't UTF-8, or 31.
#[unsafe(no_mangle)]
pub extern "C" fn failreg_answer(
    alloc: Global,
    node: &mut Node,
    method: &[u8],
    path: &[u8],
    body: &[u8],
    status: &mut u16,
) -> u32
    // That memory was refused is told only where memory was needed.
    ensures ok { result ≡ 0 → Both node.old.handle.kept node.new.handle.kept
        (IsAnsweredWith method.now path.now body.now status.new) }
    ensures refused { result ≢ 0 → MatchOption node.old.handle.kept (result ≡ closed)
        (λ _. IsNoRequest method.now path.now result) }
    ensures same { result ≢ 0 → node.new.handle.kept ≡ node.old.handle.kept }
    ensures none { result ≢ 0 → status.new ≡ 0 }
{
    let Some(mut registry) = node.take(alloc) else {
        *status = 0;
        return CLOSED;
    };
    let answered = registry.answer(alloc, method, path, body);
    *node = Node::of(registry);
    match answered {
        Ok(answer) => {
            *status = answer.status;
            0
        }
        Err(code) => {
            *status = 0;
            code
        }
    }
}

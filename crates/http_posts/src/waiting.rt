//! What a future gives, which has until a deadline to end.

ghost use Rattle.std.specs.Prelude.{IfOk};

use crate::fault::PostError;
use futures::Future;
use futures::future::join;
use std::alloc::AllocGlobal;
use std::random::RandomSource;
use std::sync::Wait;
use std::time::{Clock, Instant};
use tokio::runtime::LocalRuntime;

/// What a future gives, which has until the deadline to end.
pub(crate) fn output_of<R, F>(
    rt: &R,
    runtime: &mut LocalRuntime,
    future: F,
    deadline: Instant,
) -> Result<F::Output, PostError>
where
    R: Wait + Clock + RandomSource + AllocGlobal,
    F: Future + Drop,
    F::Output: Drop,
    requires { F.can_poll future }
    ensures { IfOk result (F.gives future) }
{
    let timed = runtime.handle().time().timeout_at(deadline, future)?;
    match runtime.block_on(rt, timed)? {
        Ok(output) => Ok(output),
        Err(_elapsed) => Err(PostError::Failed),
    }
}

/// What a future gives that another one has to run beside, where both end before the deadline.
pub(crate) fn output_beside<R, F, G>(
    rt: &R,
    runtime: &mut LocalRuntime,
    future: F,
    other: G,
    deadline: Instant,
) -> Result<F::Output, PostError>
where
    R: Wait + Clock + RandomSource + AllocGlobal,
    F: Future + Drop,
    F::Output: Drop,
    G: Future + Drop,
    G::Output: Drop,
    requires future { F.can_poll future }
    requires other { G.can_poll other }
    ensures { IfOk result (F.gives future) }
{
    let (output, _other) = output_of(rt, runtime, join(future, other), deadline)?;
    Ok(output)
}

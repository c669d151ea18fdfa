//! Permits of which there are only so many at once.

ghost use Rattle.std.specs.Prelude.{◌≡◌, true, is_some, max, IfOk, IfSome, None, Some};
ghost use Rattle.std.specs.Arc.{arc_value};
ghost use Rattle.futures.specs.Poll.{IfReady, OnPending};
ghost use Rattle.futures.specs.Task.{IsArmed, Keeps};
ghost use Rattle.tokio.specs.Locks.{CanAcquire};

use futures::task::{Context, Poll};
use futures::{Future, Stream, ready};
use std::alloc::{AllocError, Global};
use std::sync::Arc;
use tokio::sync::{AcquireOwned, OwnedSemaphorePermit, Semaphore};

/// Gives each permit that is free, and ends where there is no memory.
#[derive(Drop)]
pub struct Permits {
    free: Arc<Semaphore>,
    // How many there are, free or not.
    count: u32,
    waiting: Option<AcquireOwned>,
}

impl Permits {
    /// So many permits, but at least one.
    pub fn new(alloc: Global, at_once: u32) -> Result<Permits, AllocError>
        ensures none_waits { IfOk result (λ permits. permits.waiting ≡ None) }
        ensures count { IfOk result (λ permits. permits.count ≡ max at_once 1) }
    {
        let count = at_once.max(1);
        let free = Arc::new(alloc, Semaphore::new(alloc, count as usize)?)?;
        Ok(Permits {
            free,
            count,
            waiting: None,
        })
    }

    /// A share of these permits for another who waits. `None` where there is no memory.
    pub fn again(&self) -> Option<Permits>
        ensures none_waits { IfSome result (λ permits. permits.waiting ≡ None) }
        ensures shared { IfSome result (λ permits. (arc_value permits.free ≡ arc_value self.now.free)
            × (permits.count ≡ self.now.count)) }
    {
        let free = Arc::try_clone(&self.free).ok()?;
        Some(Permits {
            free,
            count: self.count,
            waiting: None,
        })
    }

    /// Waits for a permit in this place, unless one is there. `false` where there is no memory for it.
    pub fn poll_into(
        &mut self,
        place: &mut Option<OwnedSemaphorePermit>,
        cx: &mut Context<'_>,
    ) -> Poll<bool>
        requires { IfSome self.old.waiting CanAcquire }
        ensures goes { IfReady result
            (λ is_there. is_there ≡ true → IfSome self.new.waiting CanAcquire) }
        ensures there { IfReady result (λ is_there. is_there ≡ is_some place.new) }
        ensures stays { IfSome place.old (λ permit. place.new ≡ Some permit) }
        ensures again { OnPending result (IfSome self.new.waiting CanAcquire) }
        ensures armed { OnPending result (IsArmed cx.new) }
        ensures kept { Keeps cx.old cx.new }
    {
        if place.is_some() {
            return Poll::Ready(true);
        }
        match ready!(self.poll_next(cx)) {
            Some(permit) => {
                *place = Some(permit);
                Poll::Ready(true)
            }
            None => Poll::Ready(false),
        }
    }

    /// Waits until each of them is back. `None` where there is no memory.
    pub fn all_back(&self) -> Option<AllBack>
        ensures { IfSome result (λ all. CanAcquire all.waiting) }
    {
        let free = Arc::try_clone(&self.free).ok()?;
        Some(AllBack {
            waiting: Semaphore::acquire_many_owned(free, self.count),
        })
    }
}

/// Ends once each permit is back, or where there is no memory to wait.
#[derive(Drop)]
pub struct AllBack {
    waiting: AcquireOwned,
}

impl Future for AllBack {
    type Output = ();

    ghost can_poll = { λ all. CanAcquire all.waiting };

    fn poll(&mut self, cx: &mut Context<'_>) -> Poll<()> {
        let _ = ready!(self.waiting.poll(cx));
        Poll::Ready(())
    }
}

impl Stream for Permits {
    type Item = OwnedSemaphorePermit;

    ghost can_poll = { λ permits. IfSome permits.waiting CanAcquire };

    fn poll_next(&mut self, cx: &mut Context<'_>) -> Poll<Option<OwnedSemaphorePermit>> {
        let mut waiting = match self.waiting.take() {
            Some(waiting) => waiting,
            None => match Arc::try_clone(&self.free) {
                Ok(free) => Semaphore::acquire_owned(free),
                Err(_) => return Poll::Ready(None),
            },
        };
        match waiting.poll(cx) {
            Poll::Ready(permit) => Poll::Ready(permit.ok()),
            Poll::Pending => {
                self.waiting = Some(waiting);
                Poll::Pending
            }
        }
    }
}

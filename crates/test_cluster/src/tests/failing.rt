//! A wire that fails.

ghost use Rattle.std.specs.Prelude.{◌≡◌};

use super::*;

/// Which call fails, and why, after so many of its kind that went well; or each message that is sent.
#[derive(Clone, Copy)]
pub enum Fails {
    Never,
    Send(WireError, u32),
    Take(WireError, u32),
    EachSend(WireError),
}

/// A wire of which calls fail, over one that doesn't fail. It says whether it reaches anybody.
#[derive(Drop)]
pub struct Failing<W> {
    pub inner: W,
    pub fails: Fails,
    pub reaches: bool,
}

impl<W> Failing<W> {
    // Why this send fails, if it does.
    fn send_error(&mut self) -> Option<WireError>
        ensures { self.new.inner ≡ self.old.inner }
    {
        if let Fails::EachSend(error) = self.fails {
            return Some(error);
        }
        let Fails::Send(error, after) = self.fails else {
            return None;
        };
        if after == 0 {
            self.fails = Fails::Never;
            return Some(error);
        }
        self.fails = Fails::Send(error, after - 1);
        None
    }

    // Why this take fails, if it does.
    fn take_error(&mut self) -> Option<WireError>
        ensures { self.new.inner ≡ self.old.inner }
    {
        let Fails::Take(error, after) = self.fails else {
            return None;
        };
        if after == 0 {
            self.fails = Fails::Never;
            return Some(error);
        }
        self.fails = Fails::Take(error, after - 1);
        None
    }
}

impl<W: Wire> Wire for Failing<W> {
    ghost traffic = { λ w. W.traffic w.inner };

    fn send<R: Wait>(
        &mut self,
        rt: &R,
        alloc: Global,
        to: u8,
        message: &[u8],
    ) -> Result<(), WireError> {
        match self.send_error() {
            Some(error) => Err(error),
            None => self.inner.send(rt, alloc, to, message),
        }
    }

    fn take<R: Wait>(&mut self, rt: &R, alloc: Global) -> Result<Option<Vec<u8>>, WireError> {
        match self.take_error() {
            Some(error) => Err(error),
            None => self.inner.take(rt, alloc),
        }
    }
}

impl<W: Wire> Reach for Failing<W> {
    ghost reached = { λ w _. w.reaches };

    fn reaches<R: Wait>(&mut self, _rt: &R, _alloc: Global, _to: u8) -> bool {
        self.reaches
    }
}

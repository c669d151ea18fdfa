//! Callers of a node: alone, under a lock, and behind the lock. They have no contracts.

use super::*;

/// An accepted call: its entry, and its index in the trace if the call returns one.
pub type Accepted = (Option<u64>, Entry);

/// A caller of a node.
pub trait Caller {
    /// Makes a call.
    fn call(&mut self, alloc: Global, ask: AskRef<'_>) -> Result<Accepted, NodeFault>;

    /// Passes a point by its name.
    fn pass(&mut self, alloc: Global, point: &Name) -> Result<PassOutcome, NodeFault>;

    /// Reads the node.
    fn shown(&self, alloc: Global) -> Result<Shown, AllocError>;
}

/// A node as it is read: the number of accepted calls, the last entry in print, and the points.
#[derive(Drop)]
pub struct Shown {
    pub calls: u64,
    pub last: String,
    pub points: String,
}

fn last_text(alloc: Global, node: &NodeCore) -> Result<String, AllocError> {
    match node.trace().last() {
        Some(call) => in_print(alloc, &call.to_entry(alloc)?),
        None => Ok(String::new(alloc)),
    }
}

fn shown_by(alloc: Global, node: &NodeCore) -> Result<Shown, AllocError> {
    let (calls, last) = (node.calls(), last_text(alloc, node)?);
    let points = node.list(alloc)?;
    Ok(Shown {
        calls,
        last,
        points,
    })
}

/// The method that makes a call: `enter` copies the request, `submit` takes it, and each kind of call
/// has a method of its own.
#[derive(Clone, Copy)]
pub enum Way {
    Enter,
    Submit,
    Method,
}

// The entry of a call without random draws.
fn replied(alloc: Global, ask: AskRef<'_>, reply: Reply) -> Result<Accepted, NodeFault> {
    let (ask, words) = (ask.copied(alloc)?, Vec::new(alloc));
    Ok((None, Entry { ask, words, reply }))
}

fn received(receipt: Receipt) -> Accepted {
    let Receipt {
        node: _,
        index,
        entry,
    } = receipt;
    (Some(index), entry)
}

/// A node alone.
#[derive(Drop)]
pub struct OfCell {
    pub cell: NodeCell,
    pub way: Way,
}

fn entered_at(alloc: Global, cell: &mut NodeCell, ask: AskRef<'_>) -> Result<Accepted, NodeFault> {
    let ask = ask.copied(alloc)?;
    Ok((None, cell.enter(alloc, &ask)?))
}

fn submitted_at(
    alloc: Global,
    cell: &mut NodeCell,
    ask: AskRef<'_>,
) -> Result<Accepted, NodeFault> {
    let copy = ask.copied(alloc)?;
    let reply = cell.submit(alloc, copy)?;
    replied(alloc, ask, reply)
}

impl Caller for OfCell {
    fn call(&mut self, alloc: Global, ask: AskRef<'_>) -> Result<Accepted, NodeFault> {
        match self.way {
            Way::Enter | Way::Method => entered_at(alloc, &mut self.cell, ask),
            Way::Submit => submitted_at(alloc, &mut self.cell, ask),
        }
    }

    fn pass(&mut self, alloc: Global, point: &Name) -> Result<PassOutcome, NodeFault> {
        self.cell.pass_point(alloc, point)
    }

    fn shown(&self, alloc: Global) -> Result<Shown, AllocError> {
        shown_by(alloc, self.cell.core())
    }
}

/// A node under a lock, with a seat.
#[derive(Drop)]
pub struct OfGuarded<L: Label> {
    pub guarded: Guarded<L>,
    pub seat: Seat<L>,
    pub way: Way,
}

fn entered_under<L: Label>(
    alloc: Global,
    guarded: &mut Guarded<L>,
    seat: &mut Seat<L>,
    ask: AskRef<'_>,
) -> Result<Accepted, NodeFault> {
    let ask = ask.copied(alloc)?;
    Ok(received(guarded.enter(alloc, seat, &ask)?))
}

fn submitted_under<L: Label>(
    alloc: Global,
    guarded: &mut Guarded<L>,
    seat: &mut Seat<L>,
    ask: AskRef<'_>,
) -> Result<Accepted, NodeFault> {
    let copy = ask.copied(alloc)?;
    let reply = guarded.submit(alloc, seat, copy)?;
    replied(alloc, ask, reply)
}

impl<L: Label> Caller for OfGuarded<L> {
    fn call(&mut self, alloc: Global, ask: AskRef<'_>) -> Result<Accepted, NodeFault> {
        match self.way {
            Way::Enter | Way::Method => {
                entered_under(alloc, &mut self.guarded, &mut self.seat, ask)
            }
            Way::Submit => submitted_under(alloc, &mut self.guarded, &mut self.seat, ask),
        }
    }

    fn pass(&mut self, alloc: Global, point: &Name) -> Result<PassOutcome, NodeFault> {
        let passed = self.guarded.pass_point(alloc, &mut self.seat, point)?;
        Ok(passed.outcome)
    }

    fn shown(&self, alloc: Global) -> Result<Shown, AllocError> {
        shown_by(alloc, self.guarded.core())
    }
}

/// A node behind a lock, with a seat.
#[derive(Drop)]
pub struct OfRegistry<'a, L: Label, R> {
    pub rt: &'a R,
    pub registry: Registry<L>,
    pub seat: Seat<L>,
    pub way: Way,
}

fn entered<L: Label, R: Wait>(
    rt: &R,
    alloc: Global,
    registry: &Registry<L>,
    seat: &mut Seat<L>,
    ask: AskRef<'_>,
) -> Result<Receipt, NodeFault> {
    let ask = ask.copied(alloc)?;
    registry.enter(rt, alloc, seat, &ask)
}

fn submitted<L: Label, R: Wait>(
    rt: &R,
    alloc: Global,
    registry: &Registry<L>,
    seat: &mut Seat<L>,
    ask: AskRef<'_>,
) -> Result<Accepted, NodeFault> {
    let copy = ask.copied(alloc)?;
    let reply = registry.submit(rt, alloc, seat, copy)?;
    replied(alloc, ask, reply)
}

// A call by the method of its kind.
fn called<L: Label, R: Wait>(
    rt: &R,
    alloc: Global,
    registry: &Registry<L>,
    seat: &mut Seat<L>,
    ask: AskRef<'_>,
) -> Result<Receipt, NodeFault> {
    match ask {
        AskRef::Set { name, text } => registry.set(rt, alloc, seat, name, text),
        AskRef::Remove { name } => registry.remove(rt, alloc, seat, name),
        AskRef::Load { text } => registry.load(rt, alloc, seat, text),
        AskRef::Pass { name } => registry.pass(rt, alloc, seat, name),
        AskRef::Shift {
            name,
            term,
            to,
            amount,
        } => registry.shift(rt, alloc, seat, name, term, to, amount),
        AskRef::Grant { name, term, amount } => {
            registry.grant(rt, alloc, seat, name, term, amount)
        }
        AskRef::Emit { to } => registry.emit(rt, alloc, seat, to),
        AskRef::Deliver { message } => registry.deliver(rt, alloc, seat, message),
    }
}

impl<L: Label, R: Wait> Caller for OfRegistry<'_, L, R> {
    fn call(&mut self, alloc: Global, ask: AskRef<'_>) -> Result<Accepted, NodeFault> {
        let (rt, registry, seat) = (self.rt, &self.registry, &mut self.seat);
        let receipt = match self.way {
            Way::Submit => return submitted(rt, alloc, registry, seat, ask),
            Way::Enter => entered(rt, alloc, registry, seat, ask),
            Way::Method => called(rt, alloc, registry, seat, ask),
        };
        Ok(received(receipt?))
    }

    fn pass(&mut self, alloc: Global, point: &Name) -> Result<PassOutcome, NodeFault> {
        let passed = self
            .registry
            .pass_point(self.rt, alloc, &mut self.seat, point)?;
        Ok(passed.outcome)
    }

    fn shown(&self, alloc: Global) -> Result<Shown, AllocError> {
        self.registry.with(self.rt, |node| shown_by(alloc, node))
    }
}

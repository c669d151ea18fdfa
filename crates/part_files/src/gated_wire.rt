//! A wire over which a message leaves only if a recorder has handed it back.

ghost use Rattle.std.specs.Prelude.{◌≡◌, option_map, IfOk, OnErr, OnOk};
ghost use Rattle.gossip.specs.Traffic.{sends, takes};

use gossip::{PeerWire, Reach, Wire, WireError};
use node_registry::Label;
use part_keeper::AllWritten;
use std::alloc::Global;
use std::marker::PhantomData;
use std::sync::Wait;

/// Sends what the recording of a node has handed back, and nothing else: nobody else has its wire.
#[derive(Drop)]
pub(crate) struct GatedWire<L: Label, W> {
    inner: W,
    of: PhantomData<L>,
}

impl<L: Label, W> GatedWire<L, W> {
    pub(crate) fn new(inner: W) -> GatedWire<L, W>
        ensures { result.inner ≡ inner }
    {
        GatedWire {
            inner,
            of: PhantomData,
        }
    }
}

impl<L: Label, W: Wire> GatedWire<L, W> {
    /// Sends a message before which all calls that were made are written.
    pub(crate) fn send<R: Wait>(
        &mut self,
        rt: &R,
        alloc: Global,
        written: AllWritten<'_, L>,
        to: u8,
    ) -> Result<(), WireError>
        ensures ok { OnOk result (W.traffic self.new.inner
            ≡ sends to written.entry.message.now (W.traffic self.old.inner)) }
        ensures err { OnErr result (W.traffic self.new.inner ≡ W.traffic self.old.inner) }
    {
        self.inner.send(rt, alloc, to, written.into_message())
    }

    /// Takes a message that came, if there is one.
    pub(crate) fn take<R: Wait>(
        &mut self,
        rt: &R,
        alloc: Global,
    ) -> Result<Option<Vec<u8>>, WireError>
        ensures ok { IfOk result (λ found. W.traffic self.new.inner
            ≡ takes (option_map (λ m. m.items) found) (W.traffic self.old.inner)) }
        ensures err { OnErr result (W.traffic self.new.inner ≡ W.traffic self.old.inner) }
    {
        self.inner.take(rt, alloc)
    }
}

impl<L: Label, W: Reach> GatedWire<L, W> {
    /// Whether a node is reached now.
    pub(crate) fn reaches<R: Wait>(&mut self, rt: &R, alloc: Global, to: u8) -> bool
        ensures value { result ≡ W.reached self.new.inner to }
        ensures same { W.traffic self.new.inner ≡ W.traffic self.old.inner }
    {
        self.inner.reaches(rt, alloc, to)
    }
}

impl<L: Label, W: PeerWire> GatedWire<L, W> {
    /// Asks a node for a message.
    pub(crate) fn ask<R: Wait>(
        &mut self,
        rt: &R,
        alloc: Global,
        own: u8,
        to: u8,
    ) -> Result<(), WireError>
        ensures same { W.traffic self.new.inner ≡ W.traffic self.old.inner }
    {
        self.inner.ask(rt, alloc, own, to)
    }

    /// Returns the nodes that lost their state.
    pub(crate) fn take_losses(&mut self, alloc: Global) -> Vec<W::Loss>
        ensures same { W.traffic self.new.inner ≡ W.traffic self.old.inner }
    {
        self.inner.take_losses(alloc)
    }
}

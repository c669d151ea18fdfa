//! A wire of a node whose part is kept: a message leaves once its line is written.

ghost use Rattle.std.specs.Prelude.{◌≡◌, [], is_ok, Err, IfOk, OnErr, OnOk};
ghost use Rattle.gossip.specs.Traffic.{sends};

use crate::gated_wire::GatedWire;
use gossip::{PeerWire, Reach, Wire, WireError};
use node_registry::{Label, Registry};
use part_keeper::{AllWritten, NotRecorded, Recorder, RecordingState};
use std::alloc::Global;
use std::sync::Wait;

/// Sends a message over a wire once all calls that were made are written, that of the message among
/// them. Where they can't be written, none is sent, and no node is reached.
#[derive(Drop)]
pub struct RecordingWire<'a, L: Label, W> {
    wire: GatedWire<L, W>,
    registry: &'a Registry<L>,
    recorder: &'a Recorder<L>,
    // Whether calls were still made when a node was looked for last.
    goes_on: bool,
}

impl<'a, L: Label, W> RecordingWire<'a, L, W> {
    pub fn new(
        wire: W,
        registry: &'a Registry<L>,
        recorder: &'a Recorder<L>,
    ) -> RecordingWire<'a, L, W>
        ensures { result.wire.inner ≡ wire }
    {
        RecordingWire {
            wire: GatedWire::new(wire),
            registry,
            recorder,
            goes_on: true,
        }
    }

    /// Whether calls are still made.
    pub fn look<R: Wait>(&mut self, rt: &R) -> RecordingState
        ensures { (result.goes_on ≡ self.new.goes_on) × (self.new.wire ≡ self.old.wire) }
    {
        let state = self.recorder.state(rt);
        self.goes_on = state.goes_on();
        state
    }

    /// Has the lines of all calls that were made written, and hands on what shows it. Where they can't
    /// be, no call is made from then on.
    pub fn keep<R: Wait>(
        &mut self,
        rt: &R,
        alloc: Global,
    ) -> Result<AllWritten<'static, L>, NotRecorded>
        ensures gone_on { (is_ok result ≡ self.new.goes_on) × (self.new.wire ≡ self.old.wire) }
        ensures handed { IfOk result (λ written. written.message.now ≡ []) }
    {
        let kept = self.recorder.keep(rt, alloc, self.registry);
        self.goes_on = kept.is_ok();
        kept
    }
}

impl<'a, L: Label, W: Wire> RecordingWire<'a, L, W> {
    // Sends a message that the recorder has handed back, and none where it hasn't.
    fn send_kept<R: Wait>(
        &mut self,
        rt: &R,
        alloc: Global,
        kept: Result<AllWritten<'_, L>, NotRecorded>,
        to: u8,
    ) -> Result<(), WireError>
        ensures unwritten { OnErr kept.entry ((result ≡ Err WireError.Failed)
            × (self.new.wire ≡ self.old.wire)) }
        ensures ok { IfOk kept.entry (λ written. OnOk result (W.traffic self.new.wire.inner
            ≡ sends to written.message.now (W.traffic self.old.wire.inner))) }
        ensures err { OnErr result
            (W.traffic self.new.wire.inner ≡ W.traffic self.old.wire.inner) }
    {
        match kept {
            Ok(written) => self.wire.send(rt, alloc, written, to),
            Err(_) => Err(WireError::Failed),
        }
    }
}

impl<'a, L: Label, W: Wire> Wire for RecordingWire<'a, L, W> {
    ghost traffic = { λ w. W.traffic w.wire.inner };

    fn send<R: Wait>(
        &mut self,
        rt: &R,
        alloc: Global,
        to: u8,
        message: &[u8],
    ) -> Result<(), WireError> {
        let kept = self.recorder.keep_before(rt, alloc, self.registry, message);
        self.send_kept(rt, alloc, kept, to)
    }

    fn take<R: Wait>(&mut self, rt: &R, alloc: Global) -> Result<Option<Vec<u8>>, WireError> {
        self.wire.take(rt, alloc)
    }
}

impl<'a, L: Label, W: Reach> Reach for RecordingWire<'a, L, W> {
    ghost use Rattle.std.specs.Prelude.{◌&&◌};

    ghost reached = { λ w node. w.goes_on && W.reached w.wire.inner node };

    fn reaches<R: Wait>(&mut self, rt: &R, alloc: Global, to: u8) -> bool {
        self.look(rt).goes_on() && self.wire.reaches(rt, alloc, to)
    }
}

impl<'a, L: Label, W: PeerWire> PeerWire for RecordingWire<'a, L, W> {
    type Loss = W::Loss;

    fn ask<R: Wait>(&mut self, rt: &R, alloc: Global, own: u8, to: u8) -> Result<(), WireError> {
        self.wire.ask(rt, alloc, own, to)
    }

    fn take_losses(&mut self, alloc: Global) -> Vec<W::Loss> {
        self.wire.take_losses(alloc)
    }
}

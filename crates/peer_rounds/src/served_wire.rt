//! What a served node asks of the wire to its peers besides messages.

ghost use Rattle.std.specs.Prelude.{◌≡◌};
ghost use Rattle.gossip.specs.Traffic.{Traffic};
ghost use Rattle.http_wire.specs.Sent.{traffic_of};
ghost use Rattle.peer_rounds.specs.Rounds.{are_made};
ghost use Rattle.peer_rounds.specs.declared.served_wire.Calls.TheVariants.{Recorded, Unrecorded};

use gossip::PeerWire;
use http_wire::HttpWire;
use node_registry::Label;
use part_files::RecordingWire;
use part_keeper::RecordingState;
use std::alloc::{AllocGlobal, Global};
use std::net::Net;
use std::random::RandomSource;
use std::sync::Wait;
use std::time::Clock;

/// Whether the calls of a node are made.
#[derive(Clone, Copy, Debug, PartialEq, Eq)]
pub enum Calls {
    /// They aren't recorded, so they are.
    Unrecorded,
    /// They are as long as the recording continues.
    Recorded(RecordingState),
}

impl Calls {
    /// Whether they are made.
    pub fn are_made(self) -> bool
        ensures { result ≡ are_made self }
    {
        match self {
            Calls::Unrecorded => true,
            Calls::Recorded(state) => state.goes_on(),
        }
    }
}

/// A wire of a served node: it knows whether the node's calls are still made.
pub trait ServedWire: PeerWire {
    /// Whether calls are still made.
    fn calls<R: Wait>(&mut self, rt: &R) -> Calls
        ensures same { Self.traffic self.new ≡ Self.traffic self.old };

    /// Has the calls that were made written, where a journal is kept. Where they can't be, none is made
    /// from then on.
    fn keep_calls<R: Wait>(&mut self, rt: &R, alloc: Global)
        ensures same { Self.traffic self.new ≡ Self.traffic self.old };
}

impl<R: Wait + Clock + Net + RandomSource + AllocGlobal + Drop> ServedWire for HttpWire<R> {
    fn calls<S: Wait>(&mut self, _rt: &S) -> Calls {
        Calls::Unrecorded
    }

    fn keep_calls<S: Wait>(&mut self, _rt: &S, _alloc: Global) {}
}

impl<'a, L: Label, W: PeerWire> ServedWire for RecordingWire<'a, L, W> {
    ghost use Rattle.part_keeper.specs.declared.recording.RecordingState.{RecordingState};

    fn calls<R: Wait>(&mut self, rt: &R) -> Calls
        ensures recorded { (state : RecordingState) × (result ≡ Recorded state) }
        ensures same { W.traffic self.new.wire.inner ≡ W.traffic self.old.wire.inner }
    {
        Calls::Recorded(self.look(rt))
    }

    fn keep_calls<R: Wait>(&mut self, rt: &R, alloc: Global) {
        let _ = self.keep(rt, alloc);
    }
}

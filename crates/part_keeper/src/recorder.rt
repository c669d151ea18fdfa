//! A recording behind a lock.

ghost use Rattle.std.specs.Prelude.{◌≡◌, [], IfOk, IfErr};
ghost use Rattle.node_registry.specs.Receipts.{IsAnswered};
ghost use Rattle.part_keeper.specs.Kept.{IsUnanswered};

use crate::fault::{CallFault, NotRecorded};
use crate::part_file::PartFile;
use crate::recording::{AllWritten, Recording, RecordingState};
use node_core::{Ask, Reply};
use node_registry::{Label, Registry};
use std::alloc::Global;
use std::sync::{Mutex, MutexGuard, Wait};

/// Keeps the part of a node that threads call. Whoever finds the lock taken waits for it, so the lines
/// stand in the order of the calls.
#[derive(Drop)]
pub struct Recorder<L: Label> {
    lock: Mutex<Recording<L, PartFile>>,
}

impl<L: Label> Recorder<L> {
    pub fn new(recording: Recording<L, PartFile>) -> Recorder<L> {
        Recorder {
            lock: Mutex::new(recording),
        }
    }

    /// Whether calls are still made, as `Recording::state`.
    pub fn state<R: Wait>(&self, rt: &R) -> RecordingState {
        self.lock.lock(rt).state()
    }

    /// The recording, which nobody else has as long as this is held.
    pub fn lock<R: Wait>(&self, rt: &R) -> MutexGuard<'_, Recording<L, PartFile>> {
        self.lock.lock(rt)
    }

    /// Makes a call as `Recording::submit` does.
    pub fn submit<R: Wait>(
        &self,
        rt: &R,
        alloc: Global,
        registry: &Registry<L>,
        ask: Ask,
    ) -> Result<Reply, CallFault>
        ensures answered { IfOk result (IsAnswered L.config L.seed ask) }
        ensures unanswered { IfErr result (IsUnanswered L.config L.seed ask) }
    {
        let mut recording = self.lock.lock(rt);
        recording.submit(rt, alloc, registry, ask)
    }

    /// Writes the lines of all calls that were made so far, as `Recording::keep` does.
    pub fn keep<R: Wait>(
        &self,
        rt: &R,
        alloc: Global,
        registry: &Registry<L>,
    ) -> Result<AllWritten<'static, L>, NotRecorded>
        ensures { IfOk result (λ written. written.message.now ≡ []) }
    {
        let mut recording = self.lock.lock(rt);
        recording.keep(rt, alloc, registry)
    }

    /// Writes them before a message leaves, and hands it back, as `Recording::keep_before` does.
    pub fn keep_before<'m, R: Wait>(
        &self,
        rt: &R,
        alloc: Global,
        registry: &Registry<L>,
        message: &'m [u8],
    ) -> Result<AllWritten<'m, L>, NotRecorded>
        ensures { IfOk result (λ written. written.message.now ≡ message.now) }
    {
        let mut recording = self.lock.lock(rt);
        recording.keep_before(rt, alloc, registry, message)
    }
}

//! From where a served node is called.

ghost use Rattle.node_service.specs.Kept.{is_kept};
ghost use Rattle.std.specs.Prelude.{◌≡◌, is_some};

use crate::fault::ServiceFault;
use node_core::{Ask, NodeFault};
use node_registry::{Label, Registry, Seat};
use part_keeper::{CallFault, Recorder};
use std::alloc::Global;
use std::sync::{Arc, Wait};

/// From where a served node is called.
#[derive(Drop)]
pub enum Calls<'a, L: Label> {
    /// From a seat. The node forgets its calls with each reply.
    Forgotten(Seat<L>),
    /// From the recorder of its part.
    Kept(&'a Arc<Recorder<L>>),
}

impl<'a, L: Label> Calls<'a, L> {
    /// The recorder, where the part is kept.
    pub(crate) fn recorder(&self) -> Option<&'a Recorder<L>>
        ensures { is_some result ≡ is_kept self.now }
    {
        match self {
            Calls::Forgotten(_) => None,
            Calls::Kept(recorder) => {
                let recorder: &'a Recorder<L> = *recorder;
                Some(recorder)
            }
        }
    }

    /// Sets the first points of the node.
    pub(crate) fn set_first<R: Wait>(
        &mut self,
        rt: &R,
        alloc: Global,
        registry: &Registry<L>,
        text: &str,
    ) -> Result<(), ServiceFault> {
        match self {
            Calls::Forgotten(seat) => {
                registry.load(rt, alloc, seat, text)?;
                Ok(())
            }
            Calls::Kept(recorder) => set_recorded(rt, alloc, registry, recorder, text),
        }
    }
}

// Sets the first points of a node whose part is kept.
fn set_recorded<L: Label, R: Wait>(
    rt: &R,
    alloc: Global,
    registry: &Registry<L>,
    recorder: &Recorder<L>,
    text: &str,
) -> Result<(), ServiceFault> {
    let text = String::from_str(alloc, text).map_err(NodeFault::from)?;
    match recorder.submit(rt, alloc, registry, Ask::Load { text }) {
        Ok(_) => Ok(()),
        Err(CallFault::Refused(fault)) => Err(ServiceFault::Node(fault)),
        Err(CallFault::NotRecorded | CallFault::RecordingFailed) => {
            Err(ServiceFault::NotRecorded)
        }
    }
}

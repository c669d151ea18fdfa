//! A caller of `part_keeper`.

ghost use Rattle.std.specs.Prelude.{IfOk, IfSome};
ghost use Rattle.part_keeper.specs.Kept.{IsRecorded};
ghost use Rattle.part_keeper.specs.Outs.{out_of};

use node_core::{Ask, Reply};
use node_registry::{Label, Registry};
use part_keeper::{CallFault, NotRecorded, Recording};
use std::alloc::Global;
use std::io::Write;
use std::sync::Wait;

/// Makes a call, and answers its reply once its line is written, or that the node refuses it.
pub fn recorded<L: Label, W: Write, R: Wait>(
    rt: &R,
    alloc: Global,
    registry: &Registry<L>,
    recording: &mut Recording<L, W>,
    ask: Ask,
) -> Result<Option<Reply>, NotRecorded>
    ensures { IfOk result (λ made. IfSome made
        (IsRecorded W.contents (out_of recording.old) (out_of recording.new) ask)) }
{
    match recording.submit(rt, alloc, registry, ask) {
        Ok(reply) => Ok(Some(reply)),
        Err(CallFault::Refused(_)) => Ok(None),
        Err(CallFault::NotRecorded | CallFault::RecordingFailed) => Err(NotRecorded),
    }
}

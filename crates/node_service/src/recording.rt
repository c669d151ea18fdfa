//! A node that is served over HTTP, and that outlives its process: it keeps its part.

ghost use Rattle.std.specs.Prelude.{◌≡◌, ◌⊎◌, IfOk, IsErrAnd, IsTrue, false};
ghost use Rattle.node_steps.specs.Refusals.{is_bad_config};
ghost use Rattle.node_service.specs.Caps.{cap_of};
ghost use Rattle.node_service.specs.Endings.{IsNodeServed};
ghost use Rattle.node_service.specs.declared.fault.ServiceFault.TheVariants.{Node};

use crate::ended::NodeServed;
use crate::fault::ServiceFault;
use crate::serving::{config_of, serve_registry};
use command_line::{PartOptions, ServeOptions};
use node_core::NodeFault;
use node_registry::{Label, Registry, Seat};
use part_files::{OpenPart, open_part};
use part_keeper::{PartLines, Recorder, Recording};
use peer_rounds::Host;
use std::alloc::AllocGlobal;
use std::fs::{File, Files};
use std::marker::Brand;
use std::net;
use std::net::Net;
use std::random::RandomSource;
use std::sync::ledger::Blank;
use std::sync::{Arc, Wait};
use std::thread::Threads;
use std::time::Clock;

/// Serves a node over HTTP as `serve_node` does, and keeps its part: each call is written to the file
/// before anybody is told of it. Where the file is there, the node goes on from it: its calls are made
/// again before the port is listened on, and the first points are set only where it has none.
pub fn serve_recorded<R>(
    rt: &R,
    options: ServeOptions<'_>,
    part: PartOptions<'_>,
) -> Result<NodeServed, ServiceFault>
where
    R: Wait
        + Threads
        + Clock
        + RandomSource
        + AllocGlobal
        + Net<Listener = net::TcpListener, Stream = net::TcpStream>
        + Files<File = File>
        + Send
        + Sync
        + Copy
        + Drop
        + Print
        + Eprint,
    ensures ok { IfOk result (IsNodeServed options.entry.requests) }
    ensures bad { IsTrue (is_bad_config (record {
      node = options.entry.node;
      nodes = options.entry.nodes;
      trace_cap = cap_of options.entry.cap;
    })) → IsErrAnd result (λ f. (f ≡ Node NodeFault.OutOfMemory) ⊎ (f ≡ Node NodeFault.BadConfig)) }
{
    let config = config_of(options.node, options.nodes, options.cap);
    serve_registry::<Brand, R>(rt, Blank::new(2), config, options, Some(part))
}

/// The recorder of a node that goes on from its part, and how many calls it has.
pub(crate) fn gone_on<L, R>(
    rt: &R,
    registry: &Registry<L>,
    mut seat: Seat<L>,
    part: PartOptions<'_>,
) -> Result<(Arc<Recorder<L>>, u64), ServiceFault>
where
    L: Label,
    R: Host + Files<File = File>,
    requires { L.keeps ≡ false }
{
    let OpenPart { file, calls } = open_part(rt, rt.alloc(), registry, &mut seat, part)?;
    let recording = Recording::new(seat, PartLines::new(file));
    let recorder = Arc::new(rt.alloc(), Recorder::new(recording)).map_err(NodeFault::from)?;
    Ok((recorder, calls))
}

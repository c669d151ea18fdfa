//! A node that is served.

ghost use Rattle.std.specs.Prelude.{◌≡◌, ◌⊎◌, IfOk, IfErr, false};
ghost use Rattle.std.specs.Arc.{arc_value};
ghost use Rattle.http_service.specs.declared.fault.ServeFault.TheVariants.{AcceptFailed, OutOfMemory};
ghost use Rattle.http_routes.specs.declared.table.RouteSet.TheVariants.{Cluster, Program};
ghost use Rattle.http_service.specs.Clients.{Offers};
ghost use Rattle.http_service.specs.Endings.{IsServedTo};
ghost use Rattle.http_exchange.specs.Keys.{key_in};

use crate::handler::{ForgettingHandler, NodeHandler, RecordingHandler};
use crate::served_node::ServedNode;
use http_peers::Peers;
use http_service::{Access, Clients, Ending, ServeFault, Served, serve_all, serve_until_ended};
use node_registry::{Label, Registry, Seat};
use part_keeper::Recorder;
use std::alloc::{AllocGlobal, Global};
use std::random::RandomSource;
use std::sync::{Arc, Wait};
use std::thread::Threads;
use std::time::Clock;
use tokio::net::TcpListener;
use tokio::runtime::Runtime;

/// Serves so many connections beside each other, with one request each, and answers how many, once
/// each has ended. A connection that breaks, or that is ended for its time, counts as served. Where
/// one can't be accepted, it is tried again after a rest. The seat doesn't come back. Which peers are
/// heard is noted, and a call may wait for them.
pub fn serve<'a, L, R>(
    rt: &R,
    alloc: Global,
    runtime: &mut Runtime,
    registry: &Arc<Registry<L>>,
    seat: Seat<L>,
    peers: &Arc<Peers>,
    access: &'a Access,
    listener: TcpListener,
    requests: u32,
) -> Result<Clients<'a>, ServeFault>
where
    L: Label + Send + Sync,
    R: Wait + Threads + Clock + RandomSource + AllocGlobal + Send + Sync + Copy,
    ensures ok { IfOk result (λ clients. clients.let_in ≡ requests) }
    ensures offer { IfOk result
        (λ clients. Offers Cluster (key_in access.now) clients.offer) }
    ensures err { IfErr result (λ f. (f ≡ AcceptFailed) ⊎ (f ≡ OutOfMemory)) }
{
    let node = NodeHandler::new(registry, seat)?;
    let handler = ServedNode::new(alloc, node, peers, None)?;
    serve_all(rt, alloc, runtime, handler, access, listener, requests)
}

/// Serves connections as `serve` does, until the service is ended, and has the node forget its calls
/// with each reply.
pub fn serve_forgetting<'e, L, R>(
    rt: &R,
    alloc: Global,
    runtime: &mut Runtime,
    registry: &Arc<Registry<L>>,
    seat: Seat<L>,
    peers: &Arc<Peers>,
    access: &'e Access,
    listener: TcpListener,
    requests: u32,
    ending: &'e Arc<Ending>,
) -> Result<Served<'e>, ServeFault>
where
    L: Label + Send + Sync,
    R: Wait + Threads + Clock + RandomSource + AllocGlobal + Send + Sync + Copy,
    requires { L.keeps ≡ false }
    ensures ok { IfOk result (IsServedTo requests (arc_value ending.now).reason.id) }
    ensures offer { IfOk result
        (λ served. Offers Program (key_in access.now) served.clients.offer) }
    ensures err { IfErr result (λ f. (f ≡ AcceptFailed) ⊎ (f ≡ OutOfMemory)) }
{
    let node = ForgettingHandler::new(rt, alloc, registry, seat)?;
    let own = Arc::try_clone(ending)?;
    let handler = ServedNode::new(alloc, node, peers, Some(own))?;
    serve_until_ended(
        rt, alloc, runtime, handler, access, listener, requests, ending,
    )
}

/// Serves connections as `serve` does, until the service is ended, and has each call written to the
/// node's part before it is answered.
pub fn serve_recording<'e, L, R>(
    rt: &R,
    alloc: Global,
    runtime: &mut Runtime,
    registry: &Arc<Registry<L>>,
    recorder: &Arc<Recorder<L>>,
    peers: &Arc<Peers>,
    access: &'e Access,
    listener: TcpListener,
    requests: u32,
    ending: &'e Arc<Ending>,
) -> Result<Served<'e>, ServeFault>
where
    L: Label + Send + Sync,
    R: Wait + Threads + Clock + RandomSource + AllocGlobal + Send + Sync + Copy,
    ensures ok { IfOk result (IsServedTo requests (arc_value ending.now).reason.id) }
    ensures offer { IfOk result
        (λ served. Offers Program (key_in access.now) served.clients.offer) }
    ensures err { IfErr result (λ f. (f ≡ AcceptFailed) ⊎ (f ≡ OutOfMemory)) }
{
    let node = RecordingHandler::new(registry, recorder)?;
    let own = Arc::try_clone(ending)?;
    let handler = ServedNode::new(alloc, node, peers, Some(own))?;
    serve_until_ended(
        rt, alloc, runtime, handler, access, listener, requests, ending,
    )
}

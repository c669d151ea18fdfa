//! A caller of `http_serve`.

ghost use Rattle.std.specs.Prelude.{◌≡◌, IfOk, replicate};

use http_serve::{Access, Hearing, Peers, ServeFault, serve};
use node_core::{Config, NodeFault};
use node_registry::{Label, Registry};
use std::alloc::{AllocGlobal, Global};
use std::marker::Brand;
use std::random::RandomSource;
use std::sync::ledger::Blank;
use std::sync::{Arc, Wait};
use std::thread::Threads;
use std::time::Clock;
use tokio::net::TcpListener;
use tokio::runtime::Runtime;

/// Makes a node and serves it to so many clients. The error is that the node can't be made.
pub fn node_served<R>(
    rt: &R,
    runtime: &mut Runtime,
    listener: TcpListener,
    config: Config,
    clients: u32,
) -> Result<Result<u32, ServeFault>, NodeFault>
where
    R: Wait + Threads + Clock + RandomSource + AllocGlobal + Send + Sync + Copy,
    ensures { IfOk result (λ ended. IfOk ended (λ served. served ≡ clients)) }
{
    node_served_by::<Brand, R>(rt, runtime, listener, Blank::new(1), config, clients)
}

// Serves the node of the registry that `L` names: what that is, the call above picks.
fn node_served_by<L, R>(
    rt: &R,
    runtime: &mut Runtime,
    listener: TcpListener,
    blank: Blank,
    config: Config,
    clients: u32,
) -> Result<Result<u32, ServeFault>, NodeFault>
where
    L: Label + Send + Sync,
    R: Wait + Threads + Clock + RandomSource + AllocGlobal + Send + Sync + Copy,
    requires name { blank.name ≡ L.name }
    requires parts { (blank.parts ≡ L.parts) × (L.parts ≡ 1) }
    requires config { config ≡ L.config }
    requires seed { replicate 32 0 ≡ L.seed }
    ensures { IfOk result (λ ended. IfOk ended (λ served. served ≡ clients)) }
{
    let alloc: Global = rt.alloc();
    let (registry, mut seats) = Registry::<L>::start(rt, alloc, blank, config, [0; 32], 1)?;
    let registry = Arc::new(alloc, registry)?;
    let Some(seat) = seats.pop() else {
        return Err(NodeFault::OutOfMemory);
    };
    let peers = Peers::new(alloc, config.node, config.nodes, Hearing::Whenever)?;
    let access = Access::of_this_machine();
    let served = serve(
        rt, alloc, runtime, &registry, seat, &peers, &access, listener, clients,
    );
    Ok(match served {
        Ok(served) => Ok(served.count()),
        Err(fault) => Err(fault),
    })
}

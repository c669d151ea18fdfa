//! A node that is served over HTTP.

ghost use Rattle.std.specs.Prelude.{◌≡◌, ◌⊎◌, IfOk, IfErr, IsErrAnd, IsTrue, OnOk, true, false, replicate};
ghost use Rattle.node_steps.specs.Refusals.{is_bad_config};
ghost use Rattle.node_service.specs.Caps.{cap_of};
ghost use Rattle.std.specs.Arc.{arc_value};
ghost use Rattle.node_service.specs.Endings.{IsNodeServed};
ghost use Rattle.node_service.specs.Hearing.{IsHeardBy};
ghost use Rattle.node_service.specs.declared.fault.ServiceFault.TheVariants.{Node};

use crate::calls::Calls;
use crate::ended::NodeServed;
use crate::fault::ServiceFault;
use crate::key_file::{Keyed, keyed_by};
use crate::recording::gone_on;
use crate::telling::{Serving, Telling, serve_and_tell};
use command_line::{PartOptions, ServeOptions, Start};
use http_serve::{Ending, Hearing, Peers, ServeFault};
use node_core::{Config, MAX_TRACE_CAP, NodeFault};
use node_registry::{Label, Registry, Seat};
use peer_rounds::Host;
use std::alloc::{AllocGlobal, Global};
use std::fs::{File, Files};
use std::io::Write;
use std::marker::Brand;
use std::net::{Net, SocketAddr};
use std::random::RandomSource;
use std::sync::ledger::Blank;
use std::sync::{Arc, Wait};
use std::thread::Threads;
use std::time::Clock;
use std::{io, net};
use tokio::net::TcpListener;
use tokio::runtime::{Builder, Runtime};

/// Serves a node over HTTP, as it is told to: first the node is made, then its port is listened on
/// and said on standard output, then its first points are set, and then clients are let in, until as
/// many were as are wanted, or one ends the service, or a message shows that the node has forgotten what
/// it did. Meanwhile the node tells its peers what it knows. Answers how it was served.
pub fn serve_node<R>(rt: &R, options: ServeOptions<'_>) -> Result<NodeServed, ServiceFault>
where
    R: Wait
        + Threads
        + Clock
        + RandomSource
        + AllocGlobal
        + Net<Listener = net::TcpListener, Stream = net::TcpStream>
        + Files<File = File>
        + Send
        + Sync
        + Copy
        + Drop
        + Print
        + Eprint,
    ensures ok { IfOk result (IsNodeServed options.entry.requests) }
    ensures bad { IsTrue (is_bad_config (record {
      node = options.entry.node;
      nodes = options.entry.nodes;
      trace_cap = cap_of options.entry.cap;
    })) → IsErrAnd result (λ f. (f ≡ Node NodeFault.OutOfMemory) ⊎ (f ≡ Node NodeFault.BadConfig)) }
{
    let config = config_of(options.node, options.nodes, options.cap);
    serve_registry::<Brand, R>(rt, Blank::new(2), config, options, None)
}

/// The configuration of a node that is served.
pub(crate) fn config_of(node: u8, nodes: u8, cap: Option<u32>) -> Config
    ensures { result ≡ record { node = node; nodes = nodes; trace_cap = cap_of cap } }
{
    Config {
        node,
        nodes,
        trace_cap: cap.map_or(MAX_TRACE_CAP, u64::from),
    }
}

// The two seats of a registry: of its service, and of gossip.
#[derive(Drop)]
struct Seats<L: Label> {
    serving: Seat<L>,
    telling: Seat<L>,
}

// The registry of a node, with the seats from which it is called.
fn opened<L: Label, R: Wait>(
    rt: &R,
    alloc: Global,
    blank: Blank,
    config: Config,
) -> Result<(Arc<Registry<L>>, Seats<L>), NodeFault>
    requires name { blank.name ≡ L.name }
    requires parts { (blank.parts ≡ L.parts) × (L.parts ≡ 2) }
    requires config { config ≡ L.config }
    requires seed { replicate 32 0 ≡ L.seed }
    ensures good { OnOk result (is_bad_config config ≡ false) }
    ensures err { IfErr result (λ f. (f ≡ NodeFault.OutOfMemory)
        ⊎ ((f ≡ NodeFault.BadConfig) × IsTrue (is_bad_config config))) }
{
    let (registry, mut seats) = Registry::<L>::start(rt, alloc, blank, config, [0; 32], 2)?;
    let registry = Arc::new(alloc, registry)?;
    match (seats.pop(), seats.pop()) {
        (Some(serving), Some(telling)) => Ok((registry, Seats { serving, telling })),
        _ => Err(NodeFault::OutOfMemory),
    }
}

/// Serves the node of the registry that `L` names: what that is, the call above picks. It keeps its part, where
/// one is given.
pub(crate) fn serve_registry<L, R>(
    rt: &R,
    blank: Blank,
    config: Config,
    options: ServeOptions<'_>,
    part: Option<PartOptions<'_>>,
) -> Result<NodeServed, ServiceFault>
where
    L: Label + Send + Sync,
    R: Host + Files<File = File> + Print,
    requires name { blank.name ≡ L.name }
    requires parts { (blank.parts ≡ L.parts) × (L.parts ≡ 2) }
    requires config { config ≡ L.config }
    requires seed { replicate 32 0 ≡ L.seed }
    requires forgets { L.keeps ≡ false }
    ensures ok { IfOk result (IsNodeServed options.entry.requests) }
    ensures bad { IsTrue (is_bad_config config)
        → IsErrAnd result (λ f. (f ≡ Node NodeFault.OutOfMemory) ⊎ (f ≡ Node NodeFault.BadConfig)) }
{
    let (registry, seats) = opened::<L, R>(rt, rt.alloc(), blank, config)?;
    match part {
        Some(part) => serve_kept(rt, &registry, seats, options, part),
        None => serve_forgotten(rt, &registry, seats, options),
    }
}

// Serves a node that forgets its calls.
fn serve_forgotten<L, R>(
    rt: &R,
    registry: &Arc<Registry<L>>,
    seats: Seats<L>,
    options: ServeOptions<'_>,
) -> Result<NodeServed, ServiceFault>
where
    L: Label + Send + Sync,
    R: Host + Files<File = File> + Print,
    requires { L.keeps ≡ false }
    ensures { IfOk result (IsNodeServed options.entry.requests) }
{
    let Seats { serving, telling } = seats;
    let keyed = keyed_by(rt, options.key_file)?;
    let first = options.failpoints;
    serve_opened(
        rt,
        registry,
        Calls::Forgotten(serving),
        telling,
        keyed,
        first,
        options,
    )
}

// Has a node go on from its part, and serves it. Its first points are set where the part has no call.
fn serve_kept<L, R>(
    rt: &R,
    registry: &Arc<Registry<L>>,
    seats: Seats<L>,
    options: ServeOptions<'_>,
    part: PartOptions<'_>,
) -> Result<NodeServed, ServiceFault>
where
    L: Label + Send + Sync,
    R: Host + Files<File = File> + Print,
    requires { L.keeps ≡ false }
    ensures { IfOk result (IsNodeServed options.entry.requests) }
{
    let Seats { serving, telling } = seats;
    let keyed = keyed_by(rt, options.key_file)?;
    let (recorder, calls) = gone_on(rt, registry, serving, part)?;
    let first = if calls == 0 { options.failpoints } else { None };
    serve_opened(
        rt,
        registry,
        Calls::Kept(&recorder),
        telling,
        keyed,
        first,
        options,
    )
}

// Sets a node's first points, serves it, and tells its peers from the other seat.
fn serve_opened<'a, L, R>(
    rt: &R,
    registry: &'a Arc<Registry<L>>,
    mut calls: Calls<'a, L>,
    seat: Seat<L>,
    keyed: Keyed,
    first_points: Option<&str>,
    options: ServeOptions<'_>,
) -> Result<NodeServed, ServiceFault>
where
    L: Label + Send + Sync,
    R: Host + Print,
    requires { L.keeps ≡ false }
    ensures { IfOk result (IsNodeServed options.entry.requests) }
{
    let Begun {
        mut runtime,
        listener,
        heard,
        ending,
    } = begin(rt, registry, &mut calls, &options, first_points)?;
    let Keyed { access, key } = keyed;
    let serving = Serving {
        runtime: &mut runtime,
        registry,
        calls,
        heard: &heard,
        access: &access,
        listener,
        requests: options.requests,
        ending: &ending,
    };
    let telling = Telling {
        seat,
        options: options.telling,
        key,
    };
    Ok(serve_and_tell(rt, serving, telling)?)
}

// Whom a node has heard that begins: nobody.
fn heard_by(alloc: Global, node: u8, nodes: u8, start: Start) -> Result<Arc<Peers>, NodeFault>
    ensures { IfOk result (λ heard. IsHeardBy node nodes start (arc_value heard)) }
{
    let hearing = match start {
        Start::AtOnce => Hearing::Whenever,
        Start::OthersHeard => Hearing::First,
    };
    Ok(Peers::new(alloc, node, nodes, hearing)?)
}

// Where a node is served, whom it has heard, and where its service is ended.
#[derive(Drop)]
struct Begun {
    runtime: Runtime,
    listener: TcpListener,
    heard: Arc<Peers>,
    ending: Arc<Ending>,
}

// Listens for the node, says where, and sets its first points.
fn begin<L, R>(
    rt: &R,
    registry: &Registry<L>,
    calls: &mut Calls<'_, L>,
    options: &ServeOptions<'_>,
    first_points: Option<&str>,
) -> Result<Begun, ServiceFault>
where
    L: Label,
    R: Host + Print,
{
    let alloc = rt.alloc();
    let (runtime, listener) = listening(rt, options.listen)?;
    if let Some(text) = first_points {
        calls.set_first(rt, alloc, registry, text)?;
    }
    let heard = heard_by(alloc, options.node, options.nodes, options.telling.start)?;
    let ending = Ending::new(alloc).map_err(NodeFault::from)?;
    Ok(Begun {
        runtime,
        listener,
        heard,
        ending,
    })
}

// Listens at an address, and says at which port.
fn listening<R>(rt: &R, address: SocketAddr) -> Result<(Runtime, TcpListener), ServiceFault>
where
    R: Host + Print,
{
    let Ok((runtime, listener, port)) = listen(rt, address) else {
        return Err(ServiceFault::Serve(ServeFault::BindFailed));
    };
    say_where(rt, port)?;
    Ok((runtime, listener))
}

// Says on which port the node is served, so that whoever started it needn't wait.
fn say_where<R: Print>(rt: &R, port: u16) -> io::Result<()> {
    println!(rt; "listening {port}")?;
    io::writer(rt).flush()
}

// Listens at an address, and answers at which port.
fn listen<R>(rt: &R, address: SocketAddr) -> io::Result<(Runtime, TcpListener, u16)>
where
    R: Host,
{
    let runtime = Builder::new_current_thread().build(rt)?;
    let listener = TcpListener::bind(rt, address, runtime.handle().reactor())?;
    let port = listener.local_addr()?.port();
    Ok((runtime, listener, port))
}

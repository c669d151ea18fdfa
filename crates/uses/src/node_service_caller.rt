//! A caller of `node_service`.

ghost use Rattle.std.specs.Prelude.{◌≡◌, None, IfOk};

use command_line::{GossipOptions, Rights, ServeOptions, Start, port_here};
use node_service::{NodeServed, ServiceFault, serve_node};
use std::alloc::AllocGlobal;
use std::fs::{File, Files};
use std::net;
use std::net::Net;
use std::random::RandomSource;
use std::sync::Wait;
use std::thread::Threads;
use std::time::{Clock, Duration};

/// Serves a node that is a cluster by itself to so many clients, on a port that the system picks.
pub fn lone_node_served<R>(rt: &R, clients: u32) -> Result<NodeServed, ServiceFault>
where
    R: Wait
        + Threads
        + Clock
        + RandomSource
        + AllocGlobal
        + Net<Listener = net::TcpListener, Stream = net::TcpStream>
        + Files<File = File>
        + Send
        + Sync
        + Copy
        + Drop
        + Print
        + Eprint,
    ensures { IfOk result (λ served. served.early ≡ None → served.clients ≡ clients) }
{
    let options = ServeOptions {
        node: 0,
        nodes: 1,
        listen: port_here(0),
        key_file: None,
        cap: Some(1_000_000),
        requests: clients,
        failpoints: None,
        telling: GossipOptions {
            peers: Vec::new(rt.alloc()),
            rounds: 0,
            every: Duration::from_millis(0),
            rights: Rights::Stay,
            start: Start::AtOnce,
        },
    };
    serve_node(rt, options)
}

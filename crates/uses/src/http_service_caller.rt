//! A caller of `http_service`.

ghost use Rattle.std.specs.Prelude.{◌≡◌, IfOk, codes};
ghost use Rattle.http_routes.specs.Replies.{http_value, text_reply, IsReply};

use http_routes::{Request, Row};
use http_service::{Access, Handler, HttpReply, ServeFault, serve_all};
use std::alloc::{AllocGlobal, Global};
use std::random::RandomSource;
use std::sync::{Arc, Wait};
use std::thread::Threads;
use std::time::Clock;
use tokio::net::TcpListener;
use tokio::runtime::Runtime;

/// Answers every request alike.
#[derive(Drop)]
struct Greeter;

impl Greeter {
    fn greet(&self, alloc: Global) -> HttpReply
        ensures { IsReply (text_reply 200 (codes "hello")) (http_value result) }
    {
        HttpReply::text(alloc, 200, "hello")
    }
}

impl Handler for Greeter {
    ghost answers = { λ _ request row body. IsReply (text_reply 200 (codes "hello")) };

    fn reply<R: Wait + Clock>(
        &self,
        _rt: &R,
        alloc: Global,
        _request: &Request<'_>,
        _row: Row,
        _body: Vec<u8>,
    ) -> HttpReply {
        self.greet(alloc)
    }
}

/// Greets so many clients, whatever they ask for on a route.
pub fn greeted<R>(
    rt: &R,
    runtime: &mut Runtime,
    listener: TcpListener,
    clients: u32,
) -> Result<u32, ServeFault>
where
    R: Wait + Threads + Clock + RandomSource + AllocGlobal + Send + Sync + Copy,
    ensures { IfOk result (λ served. served ≡ clients) }
{
    let alloc: Global = rt.alloc();
    let Ok(greeter) = Arc::new(alloc, Greeter) else {
        return Err(ServeFault::OutOfMemory);
    };
    let access = Access::of_this_machine();
    let served = serve_all(rt, alloc, runtime, greeter, &access, listener, clients)?;
    Ok(served.count())
}

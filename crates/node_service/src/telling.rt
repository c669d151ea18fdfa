//! A node that is served, and its gossip beside it.

ghost use Rattle.std.specs.Prelude.{◌≡◌, ◌⊎◌, false, true, IfOk, IfErr, IfSome};
ghost use Rattle.std.specs.Arc.{arc_value};
ghost use Rattle.http_routes.specs.declared.table.RouteSet.TheVariants.{Program};
ghost use Rattle.http_service.specs.Clients.{Offers};
ghost use Rattle.http_service.specs.Endings.{IsServedTo};
ghost use Rattle.http_exchange.specs.Keys.{key_in};
ghost use Rattle.http_service.specs.declared.fault.ServeFault.TheVariants.{AcceptFailed, OutOfMemory};
ghost use Rattle.node_service.specs.Endings.{AreAllOrEarly, IsGossiped, IsNodeServed, ends_by_loss};

use crate::calls::Calls;
use crate::ended::NodeServed;
use command_line::GossipOptions;
use http_serve::{
    Access, Ended, Ending, Peers, ServeFault, Served, serve_forgetting, serve_recording,
};
use http_wire::Key;
use node_registry::{Label, Registry, Seat};
use part_keeper::Recorder;
use peer_rounds::{Host, Rounds, Service, tell_peers};
use std::sync::Arc;
use std::thread;
use std::thread::{Promise, Scope};
use tokio::net::TcpListener;
use tokio::runtime::Runtime;

/// A node whose port is listened on, from where it is called, how many clients are let in, whom it has heard, and
/// where the service is ended.
#[derive(Drop)]
pub struct Serving<'a, L: Label> {
    pub runtime: &'a mut Runtime,
    pub registry: &'a Arc<Registry<L>>,
    pub calls: Calls<'a, L>,
    pub heard: &'a Arc<Peers>,
    pub access: &'a Access,
    pub listener: TcpListener,
    pub requests: u32,
    pub ending: &'a Arc<Ending>,
    ghost forgets: { L.keeps ≡ false },
}

/// From where a node tells its peers, which ones and how often, and the key with which it does, if there is one.
#[derive(Drop)]
pub struct Telling<L: Label> {
    pub seat: Seat<L>,
    pub options: GossipOptions,
    pub key: Option<Key>,
}

impl<L: Label> Telling<L> {
    // Whether anybody is told.
    fn is_wanted(&self) -> bool {
        !self.options.peers.is_empty() && self.options.rounds > 0
    }
}

// Serves a node as it is called: the routes of a program, to who has the access.
fn served<'a, L, R>(rt: &R, serving: Serving<'a, L>) -> Result<Served<'a>, ServeFault>
where
    L: Label + Send + Sync,
    R: Host,
    ensures ok { IfOk result
        (IsServedTo serving.entry.requests (arc_value serving.entry.ending.now).reason.id) }
    ensures offer { IfOk result
        (λ served. Offers Program (key_in serving.entry.access.now) served.clients.offer) }
    ensures err { IfErr result (λ f. (f ≡ AcceptFailed) ⊎ (f ≡ OutOfMemory)) }
{
    let Serving {
        runtime,
        registry,
        calls,
        heard,
        access,
        listener,
        requests,
        ending,
    } = serving;
    let alloc = rt.alloc();
    match calls {
        Calls::Forgotten(seat) => serve_forgetting(
            rt, alloc, runtime, registry, seat, heard, access, listener, requests, ending,
        ),
        Calls::Kept(recorder) => serve_recording(
            rt, alloc, runtime, registry, recorder, heard, access, listener, requests, ending,
        ),
    }
}

// Serves a node, and says how.
fn serve_alone<L, R>(rt: &R, serving: Serving<'_, L>) -> Result<NodeServed, ServeFault>
where
    L: Label + Send + Sync,
    R: Host,
    ensures ok { IfOk result (IsNodeServed serving.entry.requests) }
    ensures err { IfErr result (λ f. (f ≡ AcceptFailed) ⊎ (f ≡ OutOfMemory)) }
{
    let ending = serving.ending;
    let served = served(rt, serving)?;
    Ok(NodeServed::of(ending, served))
}

// What telling the peers came to, and what shows that the service is ended by it, if it is.
#[derive(Drop)]
struct Gossiped<'s, 'e> {
    rounds: Rounds<'s>,
    ended: Option<Ended<'e>>,
}

// Tells the peers of a node beside its service, which ends if a message from the wire shows that the node has
// lost its state.
fn tell<'s, 'e, L, R>(
    rt: &R,
    registry: &Registry<L>,
    recorder: Option<&Recorder<L>>,
    telling: Telling<L>,
    heard: &Peers,
    service: &'s Service,
    ending: &'e Ending,
) -> Gossiped<'s, 'e>
where
    L: Label,
    R: Host,
    ensures { IsGossiped telling.options.rounds service.now.end.id ending.now.reason.id result }
{
    let Telling {
        mut seat,
        options,
        key,
    } = telling;
    let told = tell_peers(
        rt, registry, recorder, &mut seat, &options, heard, key, service,
    );
    let rounds = told.rounds;
    let ended = ending.meet(rt, rounds.lost_state(service));
    Gossiped { rounds, ended }
}

// A thread that tells the peers hands back what it came to: so many rounds, beside this service.
#[derive(Drop)]
struct Tells<'s> {
    rounds: u32,
    service: &'s Service,
    ending: &'s Ending,
}

impl<'s> Promise<Gossiped<'s, 's>> for Tells<'s> {
    ghost kept_by = { λ p told.
        IsGossiped p.rounds p.service.now.end.id p.ending.now.reason.id told };
}

// How a node was served, and the rounds that told its peers beside it, if a thread could be started for them.
#[derive(Drop)]
struct ServedAndTold<'s> {
    served: NodeServed,
    told: Option<Rounds<'s>>,
    ghost lost: { ends_by_loss told served ≡ true },
}

// Serves a node, with its gossip in a thread of the scope.
fn serve_in<'s, E, L, R>(
    scope: &Scope<'s, E>,
    rt: &'s R,
    serving: Serving<'s, L>,
    telling: Telling<L>,
    service: &'s Service,
) -> Result<ServedAndTold<'s>, ServeFault>
where
    L: Label + Send + Sync + 's,
    R: Host,
    ensures ok { IfOk result (λ both. IsNodeServed serving.entry.requests both.served) }
    ensures told { IfOk result (λ both. IfSome both.told
        (AreAllOrEarly telling.options.rounds service.now.end.id)) }
    ensures err { IfErr result (λ f. (f ≡ AcceptFailed) ⊎ (f ≡ OutOfMemory)) }
{
    let registry: &'s Registry<L> = serving.registry;
    let recorder: Option<&'s Recorder<L>> = serving.calls.recorder();
    let heard: &'s Peers = serving.heard;
    let ending: &'s Ending = serving.ending;
    let promise = Tells {
        rounds: telling.options.rounds,
        service,
        ending,
    };
    let thread = scope.spawn_with(
        promise,
        move || -> Gossiped
            ensures { IsGossiped telling.options.rounds service.entry.now.end.id
                ending.entry.now.reason.id result }
        { tell(rt, registry, recorder, telling, heard, service, ending) },
    );
    let served = serve_alone(rt, serving);
    service.end(rt);
    let Ok(thread) = thread else {
        return Ok(ServedAndTold {
            served: served?,
            told: None,
        });
    };
    // The last round may have shown a loss after the last client.
    let Gossiped { rounds, ended } = thread.join(rt);
    Ok(ServedAndTold {
        served: served?.or_ended(ending, ended),
        told: Some(rounds),
    })
}

/// Serves a node, and meanwhile tells its peers what they don't know, from a seat of its own in a second
/// thread. Without peers, or where that thread can't be started, it is served without gossip.
pub fn serve_and_tell<L, R>(
    rt: &R,
    serving: Serving<'_, L>,
    telling: Telling<L>,
) -> Result<NodeServed, ServeFault>
where
    L: Label + Send + Sync,
    R: Host,
    ensures ok { IfOk result (IsNodeServed serving.entry.requests) }
    ensures err { IfErr result (λ f. (f ≡ AcceptFailed) ⊎ (f ≡ OutOfMemory)) }
{
    if !telling.is_wanted() {
        return serve_alone(rt, serving);
    }
    let service = Service::new();
    let service = &service;
    thread::scope(
        thread::scope_env(),
        rt,
        |scope| -> Result<NodeServed, ServeFault>
            ensures ok { IfOk result (IsNodeServed serving.entry.requests) }
            ensures err { IfErr result (λ f. (f ≡ AcceptFailed) ⊎ (f ≡ OutOfMemory)) }
        { Ok(serve_in(scope, rt, serving, telling, service)?.served) },
    )
}

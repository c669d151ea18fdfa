//! HTTP connections of a node that a C program serves.

ghost use Rattle.std.specs.Prelude.{◌≡◌, Option, Some, None, is_some, option_map, true, IfNone, IfSome};
ghost use Rattle.http_routes.specs.Asked.{asked_value};
ghost use Rattle.http_steps.specs.contracts.connection.Connection.{the_row as connection};
ghost use Rattle.http_steps.specs.contracts.service.Service.{the_row as service};
ghost use Rattle.http_steps.specs.declared.connection.Connection.{Connection};
ghost use Rattle.http_steps.specs.declared.service.Service.{Service};
ghost use Rattle.node_for_c.specs.Calls.{holds_body, said_of};
ghost use Rattle.node_for_c.specs.Cluster.{unanswered};
ghost use Rattle.node_for_c.specs.Serving.{IsAnsweredAtC, IsServedTo, is_page};
ghost use Rattle.node_for_c.specs.Owned.{handle_owns, maybe_coded};

use crate::cluster::{Answered, UNANSWERED};
use crate::handle::Handle;
use crate::node::Opaque;
use crate::registry::{Registry, Said};
use http_routes::{Asked, HttpReply, KeptRoom, Request};
use http_steps::{Connection, Service};
use operator_page::PAGE;
use std::alloc::Global;
use std::io;
use std::marker::Model;
use std::mem::replace;
use std::random::RandomSource;

/// A `Handle<Connection>` as C sees it.
#[repr(C)]
#[derive(Drop)]
pub struct ConnectionHandle {
    ptr: *mut Opaque,
    alloc: Global,
    pub ghost kept: { Option Connection } by { maybe_coded connection },
}

impl Model for ConnectionHandle {
    ghost also_owns = { λ h. handle_owns connection h.alloc h.ptr h.kept };
}

impl ConnectionHandle {
    fn of(handle: Handle<Connection>) -> ConnectionHandle
        ensures { result.kept ≡ handle.kept }
    {
        let Handle { ptr, alloc } = handle;
        ConnectionHandle {
            ptr: ptr as *mut Opaque,
            alloc,
        }
    }

    fn into_handle(self) -> Handle<Connection>
        ensures { result.kept ≡ self.kept }
    {
        let ConnectionHandle { ptr, alloc } = self;
        Handle {
            ptr: ptr as *mut Connection,
            alloc,
        }
    }
}

/// A connection that C holds. One whose bytes are all zero is closed. `handle.kept` is the connection that an open one
/// leads to.
#[repr(C)]
#[derive(Drop)]
pub struct HttpConnection {
    pub is_open: bool,
    /// Leads to its connection, if it is open.
    pub handle: ConnectionHandle,
    pub ghost agrees: { is_open ≡ is_some handle.kept },
}

impl HttpConnection {
    /// Takes the connection out, if this is open, and leaves it closed.
    pub fn take(&mut self, alloc: Global) -> Option<Box<Connection>>
        ensures value { option_map (λ b. b.value) result ≡ self.old.handle.kept }
        ensures closed { self.new.handle.kept ≡ None }
    {
        let closed = HttpConnection {
            is_open: false,
            handle: ConnectionHandle::of(Handle::closed(alloc)),
        };
        let HttpConnection { is_open, handle } = replace(self, closed);
        handle.into_handle().into_box(is_open)
    }

    /// The open one of a connection.
    pub fn of(connection: Box<Connection>) -> HttpConnection
        ensures { result.handle.kept ≡ Some connection.value }
    {
        HttpConnection {
            is_open: true,
            handle: ConnectionHandle::of(Handle::of(connection)),
        }
    }
}

/// A `Handle<Service>` as C sees it.
#[repr(C)]
#[derive(Drop)]
pub struct ServiceHandle {
    ptr: *mut Opaque,
    alloc: Global,
    pub ghost kept: { Option Service } by { maybe_coded service },
}

impl Model for ServiceHandle {
    ghost also_owns = { λ h. handle_owns service h.alloc h.ptr h.kept };
}

impl ServiceHandle {
    fn of(handle: Handle<Service>) -> ServiceHandle
        ensures { result.kept ≡ handle.kept }
    {
        let Handle { ptr, alloc } = handle;
        ServiceHandle {
            ptr: ptr as *mut Opaque,
            alloc,
        }
    }

    fn into_handle(self) -> Handle<Service>
        ensures { result.kept ≡ self.kept }
    {
        let ServiceHandle { ptr, alloc } = self;
        Handle {
            ptr: ptr as *mut Service,
            alloc,
        }
    }
}

/// A service that C holds. One whose bytes are all zero is closed. `handle.kept` is the service that an open one leads
/// to.
#[repr(C)]
#[derive(Drop)]
pub struct HttpService {
    pub is_open: bool,
    /// Leads to its service, if it is open.
    pub handle: ServiceHandle,
    pub ghost agrees: { is_open ≡ is_some handle.kept },
}

impl HttpService {
    /// Takes the service out, if this is open, and leaves it closed.
    pub fn take(&mut self, alloc: Global) -> Option<Box<Service>>
        ensures value { option_map (λ b. b.value) result ≡ self.old.handle.kept }
        ensures closed { self.new.handle.kept ≡ None }
    {
        let closed = HttpService {
            is_open: false,
            handle: ServiceHandle::of(Handle::closed(alloc)),
        };
        let HttpService { is_open, handle } = replace(self, closed);
        handle.into_handle().into_box(is_open)
    }

    /// The open one of a service.
    pub fn of(service: Box<Service>) -> HttpService
        ensures { result.handle.kept ≡ Some service.value }
    {
        HttpService {
            is_open: true,
            handle: ServiceHandle::of(Handle::of(service)),
        }
    }
}

/// The secret bytes by which a service keeps its maps of fields from being filled on purpose: a source of random bytes
/// that gives these.
#[derive(Clone, Copy)]
pub struct Secret {
    bytes: [u8; 16],
}

impl Secret {
    /// That of these two numbers, which nobody else knows.
    pub fn of(first: u64, second: u64) -> Secret {
        let both = (u128::from(first) << 64) | u128::from(second);
        Secret {
            bytes: both.to_le_bytes(),
        }
    }
}

impl RandomSource for Secret {
    fn fill_bytes(&self, buf: &mut [u8]) -> io::Result<()> {
        for part in buf.chunks_mut(16) {
            let count = part.len();
            part.copy_from_slice(&self.bytes[..count]);
        }
        Ok(())
    }
}

/// What a client of a served node was answered, and the reply.
#[derive(Drop)]
pub struct ServedReply {
    pub answered: Answered,
    pub reply: HttpReply,
}

impl ServedReply {
    // A reply of which the node knows nothing.
    fn apart(reply: HttpReply) -> ServedReply
        ensures reply { result.reply ≡ reply }
        ensures answered { result.answered ≡ record unanswered { status = reply.status } }
    {
        ServedReply {
            answered: Answered {
                status: reply.status,
                ..UNANSWERED
            },
            reply,
        }
    }
}

// Whether a request is for the operator's page.
fn is_page(asked: &Asked<'_>) -> bool
    ensures { result ≡ is_page (asked_value asked.now) }
{
    matches!(
        asked,
        Asked::Known {
            request: Request::Page,
            ..
        }
    )
}

impl Registry {
    /// Answers what a client of a served node asks, as `answer_at` does, at a time in milliseconds since 1970, and the
    /// operator's page. If memory for the reply to a call is refused, the node isn't asked.
    pub fn serve(&mut self, alloc: Global, asked: &Asked<'_>, body: &[u8], now: u64) -> ServedReply
        ensures { IsServedTo (asked_value asked.now) body.now now result self.old self.new }
    {
        if is_page(asked) {
            return ServedReply::apart(HttpReply::text(alloc, 200, PAGE));
        }
        let Ok(room) = KeptRoom::new(alloc) else {
            return ServedReply::apart(HttpReply::no_memory(alloc));
        };
        let answered = self.answer_known(alloc, asked, body, now);
        let body = self.take_body(alloc, room);
        ServedReply {
            answered,
            reply: HttpReply::plain(answered.status, body),
        }
    }

    /// Answers the request of a connection that waits for an answer, and hands it the reply, at a time in milliseconds
    /// since 1970. `None` if it waits for none: then nothing changes.
    pub fn answer_over(
        &mut self,
        alloc: Global,
        connection: &mut Connection,
        now: u64,
    ) -> Option<Answered>
        ensures some { IfSome result (λ answered. IsAnsweredAtC now answered self.old self.new
            connection.old connection.new) }
        ensures none { IfNone result ((self.new ≡ self.old) × (connection.new ≡ connection.old)) }
    {
        let whole = connection.request()?;
        let ServedReply { answered, reply } = self.serve(alloc, whole.asked, whole.body, now);
        connection.answer(reply);
        Some(answered)
    }

    // Takes out the body of the last reply, and leaves this room in its place.
    fn take_body(&mut self, alloc: Global, room: KeptRoom) -> Vec<u8>
        ensures body { holds_body self.old.said ≡ true → result.items ≡ said_of self.old }
        ensures left { self.new ≡ record self.old { said = self.new.said; room = self.new.room } }
    {
        match replace(&mut self.said, Said::Bytes(Vec::new(alloc))) {
            Said::Bytes(body) => body,
            Said::InRoom => replace(&mut self.room, room).into_body(),
            Said::TextAt(_) => Vec::new(alloc),
        }
    }
}

//! What a request wants of a node.

ghost use Rattle.std.specs.Prelude.{◌≡◌, IfOk, OnErr, option_map};
ghost use Rattle.http_routes.specs.Asked.{asked_value, node_request_value};
ghost use Rattle.http_routes.specs.Replies.{no_memory};
ghost use Rattle.node_calls.specs.Told.{ask_told, loads, sets};
ghost use Rattle.http_routes.specs.Requests.{answered, call, call_of, sets_spread, text_in, texted};
ghost use Rattle.http_routes.specs.Requests.{wanted, wanted_asked, wanted_of, wanted_ref_value};
ghost use Rattle.http_routes.specs.Requests.{wanted_value, IsWanted};

use crate::http_reply::HttpReply;
use crate::paths::Routes;
use crate::request::{Asked, NodeRequest, Request, RequestFault};
use crate::table::RouteSet;
use node_core::{Ask, AskRef};
use std::alloc::{AllocError, Global};

/// What a request wants of a node, where it lies in the request: no memory is taken for it.
#[derive(Clone, Copy)]
pub enum WantedRef<'a> {
    /// A call.
    Do(AskRef<'a>),
    /// The list of the points that are set.
    List,
    /// The report.
    Report,
    /// The status.
    Status,
    /// A point is set to a text, and its rights are spread: several calls that nothing comes between.
    SetSpread { name: &'a str, text: &'a str },
    /// The rights of a point are spread: the same.
    Spread { name: &'a str },
    /// Nothing: this is why.
    Refused(RequestFault),
}

fn text_of(bytes: &[u8]) -> Option<&str>
    ensures { option_map (λ t. t.now) result ≡ text_in bytes.now }
{
    match str::from_utf8(bytes) {
        Ok(text) => Some(text),
        Err(_) => None,
    }
}

// A setting, if the body is a text.
fn set<'a>(name: &'a str, body: &'a [u8]) -> WantedRef<'a>
    ensures { wanted_ref_value result ≡ texted (call_of (sets name.now)) body.now }
{
    match text_of(body) {
        Some(text) => WantedRef::Do(AskRef::Set { name, text }),
        None => WantedRef::Refused(RequestFault::BadText),
    }
}

// A setting whose rights are spread, if the body is a text.
fn set_spread<'a>(name: &'a str, body: &'a [u8]) -> WantedRef<'a>
    ensures { wanted_ref_value result ≡ texted (sets_spread name.now) body.now }
{
    match text_of(body) {
        Some(text) => WantedRef::SetSpread { name, text },
        None => WantedRef::Refused(RequestFault::BadText),
    }
}

// A load, if the body is a text.
fn load(body: &[u8]) -> WantedRef<'_>
    ensures { wanted_ref_value result ≡ texted (call_of loads) body.now }
{
    match text_of(body) {
        Some(text) => WantedRef::Do(AskRef::Load { text }),
        None => WantedRef::Refused(RequestFault::BadText),
    }
}

impl<'a> WantedRef<'a> {
    /// What a request of a node wants, with this body.
    pub fn of(request: &'a NodeRequest<'_>, body: &'a [u8]) -> WantedRef<'a>
        ensures { wanted_ref_value result ≡ wanted_of (node_request_value request.now) body.now }
    {
        match request {
            NodeRequest::List => WantedRef::List,
            NodeRequest::Report => WantedRef::Report,
            NodeRequest::Status => WantedRef::Status,
            NodeRequest::Set { name } => set(name.as_str(), body),
            NodeRequest::Remove { name } => WantedRef::Do(AskRef::Remove {
                name: name.as_str(),
            }),
            NodeRequest::Load => load(body),
            NodeRequest::SetSpread { name } => set_spread(name.as_str(), body),
            NodeRequest::Spread { name } => WantedRef::Spread {
                name: name.as_str(),
            },
            NodeRequest::Shift {
                name,
                term,
                to,
                amount,
            } => WantedRef::Do(AskRef::Shift {
                name: name.as_str(),
                term: *term,
                to: *to,
                amount: *amount,
            }),
            NodeRequest::Grant { name, term, amount } => WantedRef::Do(AskRef::Grant {
                name: name.as_str(),
                term: *term,
                amount: *amount,
            }),
            NodeRequest::Deliver => WantedRef::Do(AskRef::Deliver { message: body }),
            NodeRequest::BadNumber => WantedRef::Refused(RequestFault::BadNumber),
        }
    }

    /// What is asked of a node that answers no more than what is a node's: of several refusals the
    /// first is the answer: there is no such route, the route has another method, the body is longer
    /// than `MAX_BODY`, it is no text where it should be one, a number of the path is none.
    pub fn asked(asked: &'a Asked<'_>, body: &'a [u8]) -> WantedRef<'a>
        ensures { wanted_ref_value result ≡ wanted_asked (asked_value asked.now) body.now }
    {
        if let Some(fault) = asked.fault(body.len()) {
            return WantedRef::Refused(fault);
        }
        match asked {
            Asked::Known {
                request: Request::Node(request),
                ..
            } => WantedRef::of(request, body),
            Asked::Known {
                request: Request::Page | Request::Hello | Request::Stop,
                ..
            }
            | Asked::Nowhere
            | Asked::OtherMethod(_) => WantedRef::Refused(RequestFault::NotFound),
        }
    }
}

/// What a request wants of a node, with memory of its own.
#[derive(Debug, Drop)]
pub enum Wanted {
    /// A call.
    Do(Ask),
    /// The list of the points that are set.
    List,
    /// The report.
    Report,
    /// The status.
    Status,
    /// Nothing: this is the reply.
    Answered(HttpReply),
}

// A call, if there was the memory for what it is given.
fn doing(alloc: Global, ask: Result<Ask, AllocError>) -> Wanted
    ensures ok { IfOk ask (λ a. wanted_value result ≡ call (ask_told a)) }
    ensures err { OnErr ask (wanted_value result ≡ answered no_memory) }
{
    match ask {
        Ok(ask) => Wanted::Do(ask),
        Err(_) => Wanted::Answered(HttpReply::no_memory(alloc)),
    }
}

/// What a request wants of a node, by its method, its path and its body.
pub fn route(alloc: Global, routes: &Routes, method: &str, path: &str, body: &[u8]) -> Wanted
    ensures { IsWanted (wanted method.now path.now body.now) (wanted_value result) }
{
    let asked = routes.asked(RouteSet::Node, method, path);
    match WantedRef::asked(&asked, body) {
        WantedRef::Do(ask) => doing(alloc, ask.copied(alloc)),
        WantedRef::List => Wanted::List,
        WantedRef::Report => Wanted::Report,
        WantedRef::Status => Wanted::Status,
        WantedRef::Refused(fault) => Wanted::Answered(HttpReply::refusal(alloc, fault)),
        // A node alone has no such route.
        WantedRef::SetSpread { .. } | WantedRef::Spread { .. } => unreachable!(),
    }
}

//! What a request asks for: classified once, and then it travels with the request.

ghost use Rattle.std.specs.Prelude.{◌≡◌, bytes_eq, codes, IfOk};
ghost use Rattle.std.specs.Cow.{cow_str_bytes};
ghost use Rattle.decimals.specs.Decimals.{number_of};
ghost use Rattle.http_routes.specs.Asked.{asked_at, asked_of, asked_value, fault_of, fault_status};
ghost use Rattle.http_routes.specs.Asked.{max_amount, node_request_value, request_at, request_value};
ghost use Rattle.http_routes.specs.Asked.{fault_text, grant_asked, keeps_of, shift_asked};
ghost use Rattle.http_routes.specs.Targets.{target_value};

use crate::paths::Routes;
use crate::table::{Keeps, Methods, RouteSet, Row};
use crate::targets::Target;
use decimals::{amount, byte};
use message_format::MAX_MESSAGE;
use std::alloc::{AllocError, Global};
use std::borrow::CowStr;

/// The longest body that is looked at, in bytes: that of the longest message.
pub const MAX_BODY: usize = MAX_MESSAGE;

/// What is asked of a node by a method and a path. A name is the part of the path, as it stands.
#[derive(Debug, Drop)]
pub enum NodeRequest<'p> {
    /// The list of the points that are set.
    List,
    /// The report.
    Report,
    /// The status.
    Status,
    /// A point is set to the action text that is the body.
    Set {
        name: CowStr<'p>,
    },
    /// A point is removed.
    Remove {
        name: CowStr<'p>,
    },
    /// Points are set as the body says.
    Load,
    /// A point is set to the action text that is the body, and its rights are spread.
    SetSpread {
        name: CowStr<'p>,
    },
    /// The rights of a point are spread.
    Spread {
        name: CowStr<'p>,
    },
    /// Rights go to another node.
    Shift {
        name: CowStr<'p>,
        term: u8,
        to: u8,
        amount: u64,
    },
    /// The node grants itself rights.
    Grant {
        name: CowStr<'p>,
        term: u8,
        amount: u64,
    },
    /// The body is a message of another node.
    Deliver,
    /// Nothing: a part of the path should be a number, and is none.
    BadNumber,
}

/// What a request asks for.
#[derive(Debug, Drop)]
pub enum Request<'p> {
    /// The operator's page.
    Page,
    /// Another node asks to be told.
    Hello,
    /// The service is to end.
    Stop,
    /// Something of the node.
    Node(NodeRequest<'p>),
}

/// Why nothing is asked of a node or a program.
#[derive(Clone, Copy, Debug, PartialEq, Eq)]
pub enum RequestFault {
    /// No route has the path.
    NotFound,
    /// The route has another method.
    BadMethod,
    /// The body is longer than `MAX_BODY`.
    TooLong,
    /// The body isn't UTF-8, and should be a text.
    BadText,
    /// A part of the path should be a number, and is none.
    BadNumber,
}

/// What a method and a path ask for.
#[derive(Debug, Drop)]
pub enum Asked<'p> {
    /// No route has the path.
    Nowhere,
    /// The route of the path has these methods, and not the one that was sent.
    OtherMethod(Methods),
    /// The route has the method.
    Known { request: Request<'p>, row: Row },
}

// A shift, if its numbers are some.
fn shift<'p>(name: &'p str, term: &str, to: &str, many: &str) -> NodeRequest<'p>
    ensures { node_request_value result ≡ shift_asked name.now (number_of 255 term.now)
        (number_of 255 to.now) (number_of max_amount many.now) }
{
    match (byte(term), byte(to), amount(many)) {
        (Some(term), Some(to), Some(amount)) => NodeRequest::Shift {
            name: CowStr::Borrowed(name),
            term,
            to,
            amount,
        },
        _ => NodeRequest::BadNumber,
    }
}

// A grant, if its numbers are some.
fn grant<'p>(name: &'p str, term: &str, many: &str) -> NodeRequest<'p>
    ensures { node_request_value result ≡ grant_asked name.now (number_of 255 term.now)
        (number_of max_amount many.now) }
{
    match (byte(term), amount(many)) {
        (Some(term), Some(amount)) => NodeRequest::Grant {
            name: CowStr::Borrowed(name),
            term,
            amount,
        },
        _ => NodeRequest::BadNumber,
    }
}

// What one of its methods asks for at a route: where there are two, it is `PUT` or the other one.
fn request_at<'p>(target: Target<'p>, is_put: bool) -> Request<'p>
    ensures { request_value result ≡ request_at (target_value target.entry) is_put }
{
    Request::Node(match target {
        Target::Page => return Request::Page,
        Target::Hello => return Request::Hello,
        Target::Stop => return Request::Stop,
        Target::Points => NodeRequest::List,
        Target::Report => NodeRequest::Report,
        Target::Status => NodeRequest::Status,
        Target::Point { name } if is_put => NodeRequest::Set {
            name: CowStr::Borrowed(name),
        },
        Target::Point { name } => NodeRequest::Remove {
            name: CowStr::Borrowed(name),
        },
        Target::Load => NodeRequest::Load,
        Target::Spread { name } if is_put => NodeRequest::SetSpread {
            name: CowStr::Borrowed(name),
        },
        Target::Spread { name } => NodeRequest::Spread {
            name: CowStr::Borrowed(name),
        },
        Target::Shift {
            name,
            term,
            to,
            amount,
        } => shift(name, term, to, amount),
        Target::Grant { name, term, amount } => grant(name, term, amount),
        Target::Gossip => NodeRequest::Deliver,
    })
}

// What a method asks for at a route, of a program with these routes.
fn asked_at<'p>(set: RouteSet, target: Target<'p>, method: &str) -> Asked<'p>
    ensures { asked_value result ≡ asked_at set (target_value target.entry) method.now }
{
    let row = target.row();
    if !set.includes(row.set) {
        return Asked::Nowhere;
    }
    if !row.methods.has(method) {
        return Asked::OtherMethod(row.methods);
    }
    Asked::Known {
        request: request_at(target, method == "PUT"),
        row,
    }
}

impl Routes {
    /// What a method and a path ask of a program that offers these routes. It takes no memory.
    pub fn asked<'p>(&self, set: RouteSet, method: &str, path: &'p str) -> Asked<'p>
        ensures { asked_value result ≡ asked_of set method.now path.now }
    {
        match self.target(path) {
            Some(target) => asked_at(set, target, method),
            None => Asked::Nowhere,
        }
    }
}

fn owned(alloc: Global, name: CowStr<'_>) -> Result<CowStr<'static>, AllocError>
    ensures { IfOk result (λ copy. cow_str_bytes copy ≡ cow_str_bytes name.entry) }
{
    Ok(CowStr::Owned(name.into_owned(alloc)?))
}

impl NodeRequest<'_> {
    fn into_owned(self, alloc: Global) -> Result<NodeRequest<'static>, AllocError>
        ensures { IfOk result (λ r. node_request_value r ≡ node_request_value self.entry) }
    {
        Ok(match self {
            NodeRequest::List => NodeRequest::List,
            NodeRequest::Report => NodeRequest::Report,
            NodeRequest::Status => NodeRequest::Status,
            NodeRequest::Set { name } => NodeRequest::Set {
                name: owned(alloc, name)?,
            },
            NodeRequest::Remove { name } => NodeRequest::Remove {
                name: owned(alloc, name)?,
            },
            NodeRequest::Load => NodeRequest::Load,
            NodeRequest::SetSpread { name } => NodeRequest::SetSpread {
                name: owned(alloc, name)?,
            },
            NodeRequest::Spread { name } => NodeRequest::Spread {
                name: owned(alloc, name)?,
            },
            NodeRequest::Shift {
                name,
                term,
                to,
                amount,
            } => NodeRequest::Shift {
                name: owned(alloc, name)?,
                term,
                to,
                amount,
            },
            NodeRequest::Grant { name, term, amount } => NodeRequest::Grant {
                name: owned(alloc, name)?,
                term,
                amount,
            },
            NodeRequest::Deliver => NodeRequest::Deliver,
            NodeRequest::BadNumber => NodeRequest::BadNumber,
        })
    }
}

impl RequestFault {
    /// The status of the reply that says so.
    pub fn status(self) -> u16
        ensures { result ≡ fault_status self }
    {
        match self {
            RequestFault::NotFound => 404,
            RequestFault::BadMethod => 405,
            RequestFault::TooLong => 413,
            RequestFault::BadText | RequestFault::BadNumber => 400,
        }
    }

    /// The body of that reply.
    pub fn text(self) -> &'static str
        ensures { result.now ≡ fault_text self }
    {
        match self {
            RequestFault::NotFound => "not found",
            RequestFault::BadMethod => "bad method",
            RequestFault::TooLong => "too long",
            RequestFault::BadText => "bad text",
            RequestFault::BadNumber => "bad number",
        }
    }
}

impl Asked<'_> {
    /// Why nothing is asked by a request with a body of so many bytes, if nothing is. What the body
    /// says isn't looked at.
    pub fn fault(&self, size: usize) -> Option<RequestFault>
        ensures { result ≡ fault_of (asked_value self.now) size }
    {
        match self {
            Asked::Nowhere => Some(RequestFault::NotFound),
            Asked::OtherMethod(_) => Some(RequestFault::BadMethod),
            Asked::Known { .. } if size > MAX_BODY => Some(RequestFault::TooLong),
            Asked::Known { .. } => None,
        }
    }

    /// What is kept of the body.
    pub fn keeps(&self) -> Keeps
        ensures { result ≡ keeps_of (asked_value self.now) }
    {
        match self {
            Asked::Known { row, .. } => row.keeps,
            Asked::Nowhere | Asked::OtherMethod(_) => Keeps::Nothing,
        }
    }

    /// The same request with memory of its own, so that it outlives the path. The only error is out of memory.
    pub fn into_owned(self, alloc: Global) -> Result<Asked<'static>, AllocError>
        ensures { IfOk result (λ a. asked_value a ≡ asked_value self.entry) }
    {
        Ok(match self {
            Asked::Nowhere => Asked::Nowhere,
            Asked::OtherMethod(methods) => Asked::OtherMethod(methods),
            Asked::Known { request, row } => Asked::Known {
                request: match request {
                    Request::Page => Request::Page,
                    Request::Hello => Request::Hello,
                    Request::Stop => Request::Stop,
                    Request::Node(request) => Request::Node(request.into_owned(alloc)?),
                },
                row,
            },
        })
    }
}

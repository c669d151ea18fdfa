//! From a reply to a response.

ghost use Rattle.std.specs.Prelude.{◌≡◌, ◌⊎◌, length, [], IfOk, IsOk, IsTrue};
ghost use Rattle.http.specs.Response.{body_of, head_of};
ghost use Rattle.http.specs.StatusCode.{IsStatusCode};
ghost use Rattle.http_routes.specs.Replies.{http_value};
ghost use Rattle.http_exchange.specs.Labels.{label_fields, with_tag};
ghost use Rattle.http_exchange.specs.Responses.{IsResponseTo, IsUnchanged, IsWhole};

use crate::labels::{Labels, tag_alone};
use crate::tags::{is_had, tag_of};
use bytes::Bytes;
use http::header::{HeaderMap, HeaderValue};
use http::{Response, StatusCode};
use http_routes::HttpReply;
use std::alloc::{AllocError, Global};

/// The reply to a request with these fields as a response, by its labels. The only error is out of memory: then the
/// connection ends without a reply, since none but this one may be told of an accepted call.
pub fn response(
    alloc: Global,
    fields: &HeaderMap,
    reply: HttpReply,
    labels: Labels,
) -> Result<Response<Bytes>, AllocError>
    ensures ok { IfOk result
        (λ r. IsStatusCode reply.status → IsResponseTo fields.now labels (http_value reply) r) }
    ensures empty { length reply.body.items ≡ 0 → IsOk result }
{
    match tag_of(alloc, labels.tagging, &reply.body)? {
        Some(tag) if is_had(&tag, fields) => unchanged(alloc, tag),
        tag => whole(alloc, reply, labels, tag),
    }
}

// That the body still has this tag. The only error is out of memory.
fn unchanged(alloc: Global, tag: HeaderValue) -> Result<Response<Bytes>, AllocError>
    ensures ok { IfOk result (IsUnchanged tag) }
{
    let fields = tag_alone(alloc, tag)?;
    Ok(response_of(alloc, StatusCode::NOT_MODIFIED, fields, Bytes::new()))
}

// The whole reply, with its tag, if it has one. The only error is out of memory.
fn whole(
    alloc: Global,
    reply: HttpReply,
    labels: Labels,
    tag: Option<HeaderValue>,
) -> Result<Response<Bytes>, AllocError>
    ensures ok { IfOk result
        (λ r. IsStatusCode reply.status → IsWhole tag labels (http_value reply) r) }
    ensures empty { length reply.body.items ≡ 0 → IsOk result }
{
    let fields = fields_of(alloc, labels, tag, reply.body.is_empty())?;
    let body = shared_bytes(reply.body)?;
    let status = StatusCode::from_u16(reply.status).unwrap_or(StatusCode::SERVICE_UNAVAILABLE);
    Ok(response_of(alloc, status, fields, body))
}

// The response of these.
fn response_of(alloc: Global, status: StatusCode, fields: HeaderMap, body: Bytes) -> Response<Bytes>
    ensures status { (head_of result).status ≡ status }
    ensures headers { (head_of result).headers ≡ fields }
    ensures body { body_of result ≡ body }
{
    let mut response = Response::new(alloc, body);
    *response.status_mut() = status;
    *response.headers_mut() = fields;
    response
}

// The header fields of a response. One without a body is given without them where there is no
// memory for them.
fn fields_of(
    alloc: Global,
    labels: Labels,
    tag: Option<HeaderValue>,
    is_empty: bool,
) -> Result<HeaderMap, AllocError>
    ensures fields { IfOk result (λ fields.
        (fields ≡ with_tag tag (label_fields labels)) ⊎ (IsTrue is_empty × (fields ≡ []))) }
    ensures empty { IsTrue is_empty → IsOk result }
{
    match labels.fields(alloc, tag) {
        Err(_) if is_empty => Ok(HeaderMap::new(alloc)),
        fields => fields,
    }
}

// Bytes that a response can hold.
fn shared_bytes(body: Vec<u8>) -> Result<Bytes, AllocError>
    ensures ok { IfOk result (λ bytes. bytes ≡ body.items) }
    ensures empty { length body.items ≡ 0 → IsOk result }
{
    Ok(Bytes::from_vec(body)?)
}

//! From a reply to its bytes.

use bytes::{Bytes, BytesMut};
use http::header::{CONNECTION, DATE, HeaderMap, HeaderName, HeaderValue};
use http::response::Parts;
use http_exchange::{Labels, response};
use http_routes::HttpReply;
use http1::{BodySize, Server, WriteError};
use http1_typed::write_response;
use httpdate::HttpDate;
use std::alloc::{AllocError, Global};

/// Writes the head of a reply to a request with these fields, and answers the body that follows it. The reply is the
/// last one of its connection. Its `Date` is so many seconds after 1970.
///
/// Errors: memory is refused.
pub(crate) fn write_reply(
    alloc: Global,
    server: &mut Server,
    output: &mut BytesMut,
    fields: &HeaderMap,
    reply: HttpReply,
    labels: Labels,
    has_body: bool,
    now: u64,
) -> Result<Bytes, WriteError> {
    let (mut head, body) = response(alloc, fields, reply, labels)?.into_parts();
    close_at(alloc, &mut head, now)?;
    write_head(alloc, server, output, &head, body.len(), has_body)?;
    if has_body { Ok(body) } else { Ok(Bytes::new()) }
}

// Writes a head, before a body of so many bytes, which follows unless the request was `HEAD`.
fn write_head(
    alloc: Global,
    server: &mut Server,
    output: &mut BytesMut,
    head: &Parts,
    length: usize,
    has_body: bool,
) -> Result<(), WriteError> {
    let size = match head.status.as_u16() {
        304 => BodySize::Empty,
        _ => BodySize::Known(length as u64),
    };
    write_response(alloc, server, output, head, size)?;
    if has_body {
        // Around a body of a known length there is nothing.
        server.frame_data(length)?;
    }
    server.write_end(output, &[])
}

// Says in a head that its connection is closed, and the date, if its year has four digits.
fn close_at(alloc: Global, head: &mut Parts, now: u64) -> Result<(), AllocError> {
    put(head, CONNECTION, HeaderValue::from_static("close"))?;
    match HttpDate::from_unix_secs(now) {
        Ok(date) => put(head, DATE, date_value(alloc, date)?),
        Err(_) => Ok(()),
    }
}

fn put(head: &mut Parts, name: HeaderName, value: HeaderValue) -> Result<(), AllocError> {
    match head.headers.insert(name, value) {
        Ok(_) => Ok(()),
        Err(_) => Err(AllocError),
    }
}

fn date_value(alloc: Global, date: HttpDate) -> Result<HeaderValue, AllocError> {
    match HeaderValue::from_bytes(alloc, &date.to_bytes()) {
        Ok(value) => Ok(value),
        Err(_) => Err(AllocError),
    }
}

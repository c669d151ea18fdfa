//! The fields of the head of a request.

ghost use Rattle.std.specs.Prelude.{◌≡◌, [], option_copied, string_bytes, IfOk, OnOk};
ghost use Rattle.http_header.specs.FieldValue.{plain_value};
ghost use Rattle.http_header.specs.HeaderMap.{insert};
ghost use Rattle.http_header.specs.Token.{lowercase};
ghost use Rattle.http_posts.specs.Posts.{fields_of, host_text, message_fields_of, sealed};

use crate::fault::PostError;
use crate::key::Key;
use http_routes::{DIGEST_FIELD, MAC_FIELD, digest_text, mac_text};
use hyper::header::{AUTHORIZATION, HOST, HeaderMap, HeaderName, HeaderValue};
use std::alloc::{AllocError, Global};
use std::net::SocketAddr;

// How a request names the server at an address.
fn host_of(alloc: Global, address: SocketAddr) -> Result<String, AllocError>
    ensures { IfOk result (λ text. string_bytes text ≡ host_text address) }
{
    match address {
        SocketAddr::V4(address) => {
            let (ip, port) = (*address.ip(), address.port());
            format!(in alloc; "{ip}:{port}")
        }
        SocketAddr::V6(address) => {
            let (ip, port) = (*address.ip(), address.port());
            format!(in alloc; "[{ip}]:{port}")
        }
    }
}

// Puts a text into a field.
fn put(alloc: Global, fields: &mut HeaderMap, name: HeaderName, text: &str) -> Result<(), PostError>
    ensures { OnOk result (fields.new ≡ insert fields.old name (plain_value text.now)) }
{
    let Ok(value) = HeaderValue::from_str(alloc, text) else {
        return Err(PostError::Failed);
    };
    match fields.insert(name, value) {
        Ok(_) => Ok(()),
        Err(_) => Err(PostError::Failed),
    }
}

// Puts a text into a field that isn't one of the standard ones.
fn put_other(
    alloc: Global,
    fields: &mut HeaderMap,
    name: &'static str,
    text: &str,
) -> Result<(), PostError>
    requires { lowercase name.now ≡ name.now }
    ensures { OnOk result (fields.new ≡ insert fields.old name.now (plain_value text.now)) }
{
    match HeaderName::from_bytes(alloc, name.as_bytes()) {
        Ok(name) => put(alloc, fields, name, text),
        Err(_) => Err(PostError::Failed),
    }
}

// Puts what a request to the server at an address has: its name, and the key, if there is one.
fn put_common(
    alloc: Global,
    fields: &mut HeaderMap,
    address: SocketAddr,
    key: Option<&Key>,
) -> Result<(), PostError>
    requires { fields.old ≡ [] }
    ensures { OnOk result (fields.new ≡ fields_of address (option_copied key.entry)) }
{
    let host = host_of(alloc, address)?;
    put(alloc, fields, HOST, &host)?;
    match key {
        Some(key) => put(alloc, fields, AUTHORIZATION, &key.credentials),
        None => Ok(()),
    }
}

// Puts what shows that a message is as it was sent: its digest and, if there is a key, its
// authentication code.
fn put_seal(
    alloc: Global,
    fields: &mut HeaderMap,
    key: Option<&Key>,
    message: &[u8],
) -> Result<(), PostError>
    ensures { OnOk result (fields.new
        ≡ sealed fields.old (option_copied key.entry) message.now) }
{
    let digest = digest_text(alloc, message)?;
    put_other(alloc, fields, DIGEST_FIELD, &digest)?;
    match key {
        Some(key) => {
            let code = mac_text(alloc, &key.bytes, message)?;
            put_other(alloc, fields, MAC_FIELD, &code)
        }
        None => Ok(()),
    }
}

/// The fields of a request to the server at an address: its name, and the key, if there is one.
pub(crate) fn fields_of(
    alloc: Global,
    address: SocketAddr,
    key: Option<&Key>,
) -> Result<HeaderMap, PostError>
    ensures { IfOk result (λ fields. fields ≡ fields_of address (option_copied key.entry)) }
{
    let mut fields = HeaderMap::new(alloc);
    match put_common(alloc, &mut fields, address, key) {
        Ok(()) => Ok(fields),
        Err(e) => {
            drop(fields);
            Err(e)
        }
    }
}

/// The fields of a message to the server at an address: also those that show that it is as it was
/// sent.
pub(crate) fn message_fields_of(
    alloc: Global,
    address: SocketAddr,
    key: Option<&Key>,
    message: &[u8],
) -> Result<HeaderMap, PostError>
    ensures { IfOk result (λ fields. fields
        ≡ message_fields_of address (option_copied key.entry) message.now) }
{
    let mut fields = fields_of(alloc, address, key)?;
    match put_seal(alloc, &mut fields, key, message) {
        Ok(()) => Ok(fields),
        Err(e) => {
            drop(fields);
            Err(e)
        }
    }
}

//! Whom a request names as its server.

ghost use Rattle.std.specs.Prelude.{◌≡◌, ◌<◌, ◌==◌, codes, length, option_copied, IfSome};
ghost use Rattle.http_header.specs.HeaderMap.{get_all};
ghost use Rattle.std.specs.List.{list_all, position};
ghost use Rattle.http_exchange.specs.Hosts.{authority_of, cut_before, host_of, is_closed_here, is_loopback_v4};
ghost use Rattle.http_exchange.specs.Hosts.{is_loopback_v6, is_name_here, is_port, is_this_machine};
ghost use Rattle.http_exchange.specs.Hosts.{may_close_host, may_end_host, names_this_machine, only_one};

use crate::letters::is_like;
use decimals::number;
use http::Uri;
use http::header::{HOST, HeaderMap};
use std::net::{Ipv4Addr, Ipv6Addr};
use std::str;

/// The authority of a target, if that is a whole URI.
pub fn authority_of(target: &Uri) -> Option<&str>
    ensures { option_copied result ≡ authority_of target.now }
{
    target.scheme()?;
    Some(target.authority()?.as_str())
}

/// Whether a request with these fields, whose target has this authority, if it has one, names this
/// machine alone.
pub fn names_this_machine(authority: Option<&str>, fields: &HeaderMap) -> bool
    ensures { result ≡ names_this_machine (option_copied authority.entry) fields.now }
{
    match authority {
        Some(authority) => is_this_machine(authority.as_bytes()),
        None => all_are_this_machine(fields),
    }
}

// Whether each `Host` is this machine.
fn all_are_this_machine(fields: &HeaderMap) -> bool
    ensures { result ≡ list_all (λ value. is_this_machine value.bytes)
        (get_all fields.now (codes "host")) }
{
    fields
        .get_all(HOST)
        .iter()
        .all(|value| is_this_machine(value.as_bytes()))
}

/// Whom such a request names, if it is one.
pub fn host_of<'a>(authority: Option<&'a str>, fields: &'a HeaderMap) -> Option<&'a [u8]>
    ensures { option_copied result ≡ host_of (option_copied authority.entry) fields.now }
{
    match authority {
        Some(authority) => Some(authority.as_bytes()),
        None => only_host(fields),
    }
}

// The `Host`, where there is just one.
fn only_host(fields: &HeaderMap) -> Option<&[u8]>
    ensures { option_copied result ≡ only_one (get_all fields.now (codes "host")) }
{
    let mut hosts = fields.get_all(HOST).iter();
    match (hosts.next(), hosts.next()) {
        (Some(host), None) => Some(host.as_bytes()),
        _ => None,
    }
}

fn is_this_machine(host: &[u8]) -> bool
    ensures { result ≡ is_this_machine host.now }
{
    match host.split_first() {
        None => false,
        Some((b'[', rest)) => is_closed_here(rest),
        Some(_) => is_name_here(host),
    }
}

fn is_name_here(host: &[u8]) -> bool
    ensures { result ≡ is_name_here host.now }
{
    let (name, end) = cut_before(host, b':');
    (is_like(name, b"localhost") || is_loopback_v4(name)) && may_end(end)
}

// Whether this follows the bracket of an IPv6 address of this machine.
fn is_closed_here(rest: &[u8]) -> bool
    ensures { result ≡ is_closed_here rest.now }
{
    let (text, end) = cut_before(rest, b']');
    is_loopback_v6(text) && may_close(end)
}

// Where the first of this byte is.
fn first_of(bytes: &[u8], byte: u8) -> Option<usize>
    ensures first { result ≡ position (λ b. b == byte) bytes.now }
    ensures bound { IfSome result (λ at. at < length bytes.now) }
{
    bytes.iter().position(|b| *b == byte)
}

// The bytes before the first of this one, and those from it on.
fn cut_before(bytes: &[u8], byte: u8) -> (&[u8], &[u8])
    ensures before { result.0.now ≡ (cut_before byte bytes.now).0 }
    ensures after { result.1.now ≡ (cut_before byte bytes.now).1 }
{
    match first_of(bytes, byte) {
        Some(at) => bytes.split_at(at),
        None => (bytes, &[]),
    }
}

fn is_loopback_v4(text: &[u8]) -> bool
    ensures { result ≡ is_loopback_v4 text.now }
{
    match Ipv4Addr::parse_ascii(text) {
        Ok(address) => address.is_loopback(),
        Err(_) => false,
    }
}

fn is_loopback_v6(text: &[u8]) -> bool
    ensures { result ≡ is_loopback_v6 text.now }
{
    match Ipv6Addr::parse_ascii(text) {
        Ok(address) => address.is_loopback(),
        Err(_) => false,
    }
}

// Whether these bytes are a bracket, and a port or nothing.
fn may_close(end: &[u8]) -> bool
    ensures { result ≡ may_close_host end.now }
{
    match end.split_first() {
        None => false,
        Some((_, end)) => may_end(end),
    }
}

// Whether these bytes are nothing, or a colon and a port.
fn may_end(end: &[u8]) -> bool
    ensures { result ≡ may_end_host end.now }
{
    match end.split_first() {
        None => true,
        Some((colon, port)) => *colon == b':' && is_number(port),
    }
}

// Whether these bytes are the number of a port, in digits.
fn is_number(port: &[u8]) -> bool
    ensures { result ≡ is_port port.now }
{
    match str::from_utf8(port) {
        Ok(port) => number(port, 65_535).is_some(),
        Err(_) => false,
    }
}

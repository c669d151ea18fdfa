//! Heads that are answered before anything is asked.

ghost use Rattle.std.specs.Prelude.{◌≡◌, ◌++◌, bytes_eq, codes, option_copied, option_map, IfErr};
ghost use Rattle.std.specs.Prelude.{IfOk, None, Some};
ghost use Rattle.http_header.specs.HeaderMap.{get_all};
ghost use Rattle.std.specs.List.{list_all};
ghost use Rattle.http_routes.specs.Replies.{http_value, IsReply};
ghost use Rattle.http_exchange.specs.Heads.{all_pass, is_chunked, is_of_host, is_own_page};
ghost use Rattle.http_exchange.specs.Heads.{is_served_address, refusal_behind, refusal_labels};
ghost use Rattle.http_exchange.specs.Heads.{refusal_of, refusal_reply, stranger};
ghost use Rattle.http_exchange.specs.Keys.{key_in};

use crate::access::{Access, KeyNeed, has_key};
use crate::hosts::{host_of, names_this_machine};
use crate::key::Key;
use crate::labels::Labels;
use crate::letters::is_like;
use http::header::{HeaderMap, ORIGIN, TRANSFER_ENCODING};
use http_routes::HttpReply;
use itoa::Buffer;
use std::alloc::Global;

/// Why nothing is asked of the handler.
#[derive(Clone, Copy, PartialEq, Eq)]
pub enum Refusal {
    /// The service has a key, and the `Authorization` isn't the one with it.
    NoKey,
    /// The `Host` is another machine: a page that has a name of its own for this machine's address
    /// sends that name.
    ForeignHost,
    /// The `Origin` isn't the service itself.
    ForeignOrigin,
    /// The body is coded otherwise than in chunks.
    OtherCoding,
}

impl Refusal {
    /// The reply to a head that is refused.
    pub fn reply(self, alloc: Global) -> HttpReply
        ensures { IsReply (refusal_reply self) (http_value result) }
    {
        match self {
            Refusal::NoKey => HttpReply::text(
                alloc,
                401,
                "missing or wrong key: send Authorization: Bearer and the key in hex",
            ),
            Refusal::ForeignHost => HttpReply::text(
                alloc,
                403,
                "the Host header names another machine: use localhost, 127.0.0.1 or [::1]",
            ),
            Refusal::ForeignOrigin => HttpReply::text(
                alloc,
                403,
                "the Origin header names another site: send no Origin header",
            ),
            Refusal::OtherCoding => HttpReply::text(
                alloc,
                501,
                "unsupported Transfer-Encoding: send Content-Length or only chunked",
            ),
        }
    }

    /// What that reply is labelled as.
    pub fn labels(self) -> Labels
        ensures { result ≡ refusal_labels self }
    {
        Labels {
            asks_for_key: self == Refusal::NoKey,
            ..Labels::plain()
        }
    }
}

/// What shows that a head was let in. Only `judge` makes it, and without it nothing is asked.
#[derive(Drop)]
pub struct Admitted {
    // What the head had to have.
    need: KeyNeed,
}

/// Lets in a head with these fields, whose target has this authority, if it has one, at a service at this
/// port, or says why it is refused. A key is asked for before all else, unless the request needs none.
pub fn judge(
    fields: &HeaderMap,
    authority: Option<&str>,
    access: &Access,
    need: KeyNeed,
    port: u16,
) -> Result<Admitted, Refusal>
    ensures let_in { IfOk result (λ admitted. (admitted.need ≡ need)
        × (refusal_of (key_in access.now) need port (option_copied authority.entry) fields.now
        ≡ None)) }
    ensures refused { IfErr result (λ refusal.
        refusal_of (key_in access.now) need port (option_copied authority.entry) fields.now
        ≡ Some refusal) }
{
    let key = access.key();
    if let Some(refusal) = stranger(fields, authority, key, need) {
        return Err(refusal);
    }
    match judge_behind(fields, key.is_some(), host_of(authority, fields), port) {
        Some(refusal) => Err(refusal),
        None => Ok(Admitted { need }),
    }
}

// Who isn't let in.
fn stranger(
    fields: &HeaderMap,
    authority: Option<&str>,
    key: Option<&Key>,
    need: KeyNeed,
) -> Option<Refusal>
    ensures { result ≡ stranger (option_map (λ k. k.now.bytes.items) key.entry) need
        (option_copied authority.entry) fields.now }
{
    match (key, need) {
        (None, _) if names_this_machine(authority, fields) => None,
        (None, _) => Some(Refusal::ForeignHost),
        (Some(_), KeyNeed::Waived) => None,
        (Some(key), KeyNeed::Needed) if has_key(fields, key) => None,
        (Some(_), KeyNeed::Needed) => Some(Refusal::NoKey),
    }
}

// Why the head of one who is let in is refused, if it is.
fn judge_behind(
    fields: &HeaderMap,
    is_keyed: bool,
    host: Option<&[u8]>,
    port: u16,
) -> Option<Refusal>
    ensures { result ≡ refusal_behind port is_keyed (option_copied host.entry) fields.now }
{
    if !is_of_no_other_page(fields, is_keyed, host, port) {
        return Some(Refusal::ForeignOrigin);
    }
    if !is_chunked_at_most(fields) {
        return Some(Refusal::OtherCoding);
    }
    None
}

fn is_of_no_other_page(fields: &HeaderMap, is_keyed: bool, host: Option<&[u8]>, port: u16) -> bool
    ensures { result ≡ all_pass (is_own_page port is_keyed (option_copied host.entry))
        (codes "origin") fields.now }
{
    fields.get_all(ORIGIN).iter().all(|value| is_own_page(value.as_bytes(), is_keyed, host, port))
}

fn is_chunked_at_most(fields: &HeaderMap) -> bool
    ensures { result ≡ all_pass is_chunked (codes "transfer-encoding") fields.now }
{
    fields
        .get_all(TRANSFER_ENCODING)
        .iter()
        .all(|value| is_like(value.as_bytes(), b"chunked"))
}

fn is_own_page(origin: &[u8], is_keyed: bool, host: Option<&[u8]>, port: u16) -> bool
    ensures { result ≡ is_own_page port is_keyed (option_copied host.entry) origin.now }
{
    is_served_at(origin, port) || is_of_host(origin, is_keyed, host)
}

fn is_served_at(origin: &[u8], port: u16) -> bool
    ensures { result ≡ is_served_address port origin.now }
{
    is_joined(
        origin,
        b"http://127.0.0.1:",
        Buffer::new().format(port).as_bytes(),
    )
}

fn is_of_host(origin: &[u8], is_keyed: bool, host: Option<&[u8]>) -> bool
    ensures { result ≡ is_of_host is_keyed (option_copied host.entry) origin.now }
{
    match host {
        Some(host) => {
            is_joined(origin, b"http://", host)
                || (is_keyed && is_joined(origin, b"https://", host))
        }
        None => false,
    }
}

/// Whether bytes are these two, one behind the other.
pub fn is_joined(bytes: &[u8], start: &[u8], end: &[u8]) -> bool
    ensures { result ≡ bytes_eq bytes.now (start.now ++ end.now) }
{
    match bytes.strip_prefix(start) {
        Some(rest) => rest == end,
        None => false,
    }
}

//! Tags of bodies, by which a client that has a body already needn't be sent it.

ghost use Rattle.std.specs.Prelude.{◌≡◌, length, IfOk};
ghost use Rattle.http_header.specs.FieldValue.{plain_value};
ghost use Rattle.http_exchange.specs.Tags.{is_between_tags, is_had, lists, quoted_hash, stands_for};
ghost use Rattle.http_exchange.specs.Tags.{tag_of};

use crate::heads::is_joined;
use hex::encode;
use http::header::{HeaderMap, HeaderValue, IF_NONE_MATCH};
use http_routes::Tagging;
use sha2::{Digest, Sha256};
use std::alloc::{AllocError, Global};

/// The tag of a body, if it has one. The only error is out of memory.
pub fn tag_of(
    alloc: Global,
    tagging: Tagging,
    body: &[u8],
) -> Result<Option<HeaderValue>, AllocError>
    ensures tag { IfOk result (λ tag. tag ≡ tag_of tagging body.now) }
    ensures empty { length body.now ≡ 0 → result ≡ Ok None }
{
    match tagging {
        Tagging::Untagged => Ok(None),
        Tagging::Tagged if body.is_empty() => Ok(None),
        Tagging::Tagged => Ok(Some(hash_tag(alloc, body)?)),
    }
}

// The hash of a body, between quotes. Out of memory is the only error.
fn hash_tag(alloc: Global, body: &[u8]) -> Result<HeaderValue, AllocError>
    ensures { IfOk result (λ tag. tag ≡ plain_value (quoted_hash body.now)) }
{
    let digits = encode(alloc, Sha256::digest(body))?;
    let mut tag = String::from_str(alloc, "\"")?;
    tag.push_str(&digits)?;
    tag.push_str("\"")?;
    match HeaderValue::from_string(tag) {
        Ok(tag) => Ok(tag),
        Err(_) => Err(AllocError),
    }
}

/// Whether a request with these fields says that its client has the body with this tag.
pub fn is_had(tag: &HeaderValue, fields: &HeaderMap) -> bool
    ensures { result ≡ is_had tag.now fields.now }
{
    fields
        .get_all(IF_NONE_MATCH)
        .iter()
        .any(|value| lists(value.as_bytes(), tag.as_bytes()))
}

// Whether a list has a word that stands for a tag.
fn lists(list: &[u8], tag: &[u8]) -> bool
    ensures { result ≡ lists tag.now list.now }
{
    list.split(|byte| is_between_tags(*byte))
        .any(|word| stands_for(word, tag))
}

fn is_between_tags(byte: u8) -> bool
    ensures { result ≡ is_between_tags byte }
{
    matches!(byte, b',' | b' ' | b'\t')
}

// Whether a word of a list is a tag, or one that says as much of its body, or any tag.
fn stands_for(word: &[u8], tag: &[u8]) -> bool
    ensures { result ≡ stands_for tag.now word.now }
{
    word == tag || is_joined(word, b"W/", tag) || word == b"*".as_slice()
}

//! What the header fields of a reply say.

ghost use Rattle.std.specs.Prelude.{◌≡◌, [], codes, IfOk};
ghost use Rattle.http_header.specs.HeaderMap.{insert};
ghost use Rattle.http_header.specs.FieldValue.{plain_value};
ghost use Rattle.http_routes.specs.Asked.{asked_value};
ghost use Rattle.http_routes.specs.Table.{methods_text};
ghost use Rattle.http_exchange.specs.Labels.{content_text, label_fields, labels_of, plain_labels};
ghost use Rattle.http_exchange.specs.Labels.{type_fields, with_challenge, with_methods, with_policy};
ghost use Rattle.http_exchange.specs.Labels.{with_policy_of, with_tag};

use http::header::{
    ALLOW, CACHE_CONTROL, CONTENT_SECURITY_POLICY, CONTENT_TYPE, ETAG, HeaderMap, HeaderName,
    HeaderValue, REFERRER_POLICY, WWW_AUTHENTICATE, X_CONTENT_TYPE_OPTIONS,
};
use http_routes::{Asked, Content, Methods, Tagging};
use operator_page::POLICY;
use std::alloc::{AllocError, Global};

/// What the header fields of a reply say of it.
#[derive(Clone, Copy, Debug, PartialEq, Eq)]
pub struct Labels {
    pub content: Content,
    /// The methods that the route has, in place of the one that was sent.
    pub methods: Option<Methods>,
    /// A key has to be sent, and how.
    pub asks_for_key: bool,
    pub tagging: Tagging,
}

impl Labels {
    /// Those of a text.
    pub fn plain() -> Labels
        ensures { result ≡ plain_labels }
    {
        Labels {
            content: Content::Text,
            methods: None,
            asks_for_key: false,
            tagging: Tagging::Untagged,
        }
    }

    /// Those of a reply with this status to a request that asks for this.
    pub fn of(asked: &Asked<'_>, status: u16) -> Labels
        ensures { result ≡ labels_of (asked_value asked.now) status }
    {
        match asked {
            Asked::Known { row, .. } if status == 200 => Labels {
                content: row.content,
                tagging: row.tagging,
                ..Labels::plain()
            },
            Asked::OtherMethod(methods) if status == 405 => Labels {
                methods: Some(*methods),
                ..Labels::plain()
            },
            Asked::Nowhere | Asked::OtherMethod(_) | Asked::Known { .. } => Labels::plain(),
        }
    }

    /// The header fields, with the tag of the body, if it has one. The only error is out of memory.
    pub fn fields(self, alloc: Global, tag: Option<HeaderValue>) -> Result<HeaderMap, AllocError>
        ensures { IfOk result (λ fields. fields ≡ with_tag tag (label_fields self)) }
    {
        with_tag(self.untagged_fields(alloc)?, tag)
    }

    // Those of a body without a tag.
    fn untagged_fields(self, alloc: Global) -> Result<HeaderMap, AllocError>
        ensures { IfOk result (λ fields. fields ≡ label_fields self) }
    {
        let fields = type_fields(alloc, self.content)?;
        let fields = with_policy_of(fields, self.content)?;
        let fields = with_methods(fields, self.methods)?;
        with_challenge(fields, self.asks_for_key)
    }
}

/// The header fields of a reply that says no more than the tag of a body. The only error is out of
/// memory.
pub fn tag_alone(alloc: Global, tag: HeaderValue) -> Result<HeaderMap, AllocError>
    ensures { IfOk result (λ fields. fields ≡ insert [] (codes "etag") tag) }
{
    with_field(HeaderMap::new(alloc), ETAG, tag)
}

// What `Content-Type` says of a body.
fn content_value(content: Content) -> HeaderValue
    ensures { result ≡ plain_value (content_text content) }
{
    match content {
        Content::Text => HeaderValue::from_static("text/plain; charset=utf-8"),
        Content::Json => HeaderValue::from_static("application/json"),
        Content::Page => HeaderValue::from_static("text/html; charset=utf-8"),
    }
}

// How `Allow` names methods.
fn methods_value(methods: Methods) -> HeaderValue
    ensures { result ≡ plain_value (methods_text methods) }
{
    HeaderValue::from_static(methods.text())
}

// What a body is. Out of memory is the only error here, and of all that follow.
fn type_fields(alloc: Global, content: Content) -> Result<HeaderMap, AllocError>
    ensures { IfOk result (λ fields. fields ≡ type_fields content) }
{
    let fields = with_field(HeaderMap::new(alloc), CONTENT_TYPE, content_value(content))?;
    let nosniff = HeaderValue::from_static("nosniff");
    with_field(fields, X_CONTENT_TYPE_OPTIONS, nosniff)
}

// Fields, and what a browser is to hold a body to.
fn with_policy_of(fields: HeaderMap, content: Content) -> Result<HeaderMap, AllocError>
    ensures { IfOk result (λ all. all ≡ with_policy_of content fields) }
{
    match content {
        Content::Text | Content::Json => Ok(fields),
        Content::Page => with_policy(fields),
    }
}

// The same of a page.
fn with_policy(fields: HeaderMap) -> Result<HeaderMap, AllocError>
    ensures { IfOk result (λ all. all ≡ with_policy fields) }
{
    let policy = HeaderValue::from_static(POLICY);
    let fields = with_field(fields, CONTENT_SECURITY_POLICY, policy)?;
    let fields = with_field(fields, CACHE_CONTROL, HeaderValue::from_static("no-store"))?;
    let no_referrer = HeaderValue::from_static("no-referrer");
    with_field(fields, REFERRER_POLICY, no_referrer)
}

// Fields, and the methods, if they are told.
fn with_methods(fields: HeaderMap, methods: Option<Methods>) -> Result<HeaderMap, AllocError>
    ensures { IfOk result (λ all. all ≡ with_methods methods fields) }
{
    match methods {
        None => Ok(fields),
        Some(methods) => with_field(fields, ALLOW, methods_value(methods)),
    }
}

// Fields, and that a key has to be sent, and how.
fn with_challenge(fields: HeaderMap, asks_for_key: bool) -> Result<HeaderMap, AllocError>
    ensures { IfOk result (λ all. all ≡ with_challenge asks_for_key fields) }
{
    if asks_for_key {
        with_field(fields, WWW_AUTHENTICATE, HeaderValue::from_static("Bearer"))
    } else {
        Ok(fields)
    }
}

// Fields, and the tag of the body, if it has one.
fn with_tag(fields: HeaderMap, tag: Option<HeaderValue>) -> Result<HeaderMap, AllocError>
    ensures { IfOk result (λ all. all ≡ with_tag tag fields) }
{
    match tag {
        None => Ok(fields),
        Some(tag) => with_field(fields, ETAG, tag),
    }
}

// Fields, and one more. They are handed on, so that an error on the way drops nothing.
fn with_field(
    mut fields: HeaderMap,
    name: HeaderName,
    value: HeaderValue,
) -> Result<HeaderMap, AllocError>
    ensures { IfOk result (λ all. all ≡ insert fields name value) }
{
    match fields.insert(name, value) {
        Ok(_) => Ok(fields),
        Err(_) => Err(AllocError),
    }
}

//! A request whose head was let in.

ghost use Rattle.std.specs.Prelude.{◌≡◌, ◌<◌, ℕ, List, length, IfSome};
ghost use Rattle.message_format.specs.Spelling.{max_message};
ghost use Rattle.http_exchange.specs.Accepted.{IsAskedBy, IsTooLong};
ghost use Rattle.http_exchange.specs.Keeping.{HasCome};
ghost use Rattle.http_exchange.specs.Keys.{key_in};
ghost use Rattle.http_exchange.specs.Labels.{labels_of};
ghost use Rattle.http_routes.specs.Asked.{asked_value, keeps_of};
ghost use Rattle.http_routes.specs.Replies.{http_value};

use crate::access::Access;
use crate::heads::Admitted;
use crate::kept_body::KeptBody;
use crate::labels::Labels;
use crate::seals::is_altered;
use http::header::HeaderMap;
use http_routes::{Asked, HttpReply, Keeps, MAX_BODY, Request, RequestFault, Row};
use std::alloc::Global;

/// A request whose head was let in: what it asks for, the key with which messages have to be sealed, if there is one,
/// and what shows that the head was let in. It owns what it holds.
#[derive(Drop)]
pub struct Accepted {
    asked: Asked<'static>,
    access: Access,
    admitted: Admitted,
}

/// What is asked of a node: a request, the row of its route, and what is kept of its body.
#[derive(Drop)]
pub struct Asking<'a> {
    pub request: &'a Request<'static>,
    pub row: Row,
    pub body: Vec<u8>,
}

impl Accepted {
    /// A request that asks for this at a service with this access. `None` if memory is refused.
    pub fn new(
        alloc: Global,
        asked: Asked<'_>,
        access: &Access,
        admitted: Admitted,
    ) -> Option<Accepted>
        ensures asked { IfSome result (λ accepted.
            asked_value accepted.asked ≡ asked_value asked.entry) }
        ensures key { IfSome result (λ accepted. key_in accepted.access ≡ key_in access.now) }
        ensures admitted { IfSome result (λ accepted. accepted.admitted ≡ admitted) }
    {
        let asked = asked.into_owned(alloc).ok()?;
        let access = access.again()?;
        Some(Accepted {
            asked,
            access,
            admitted,
        })
    }

    /// What it asks for.
    pub fn asked(&self) -> &Asked<'static>
        ensures { result.now ≡ self.now.asked }
    {
        &self.asked
    }

    /// What is kept of its body.
    pub fn keeps(&self) -> Keeps
        ensures { result ≡ keeps_of (asked_value self.now.asked) }
    {
        self.asked.keeps()
    }

    /// What a reply with this status is labelled as.
    pub fn labels(&self, status: u16) -> Labels
        ensures { result ≡ labels_of (asked_value self.now.asked) status }
    {
        Labels::of(&self.asked, status)
    }

    /// What is asked of a node by a request with these fields and a body that came whole, of which this is kept.
    ///
    /// Errors: the reply that says why nothing is asked: there is no such route, or not with this method, the body is
    /// longer than the longest, or it is a message that isn't as it was sent.
    pub fn asking(
        &self,
        alloc: Global,
        fields: &HeaderMap,
        body: KeptBody,
    ) -> Result<Asking<'_>, HttpReply>
        ensures { (came : List ℕ) → HasCome (keeps_of (asked_value self.now.asked)) body came
            → IsAskedBy (key_in self.now.access) fields.now (asked_value self.now.asked) came
            result }
    {
        if let Some(fault) = self.asked.fault(body.count()) {
            return Err(HttpReply::refusal(alloc, fault));
        }
        let Asked::Known { request, row } = &self.asked else {
            unreachable!()
        };
        let kept = body.into_bytes();
        if is_altered(row.kind, self.access.key(), fields, &kept) {
            return Err(HttpReply::text(alloc, 400, "bad digest"));
        }
        Ok(Asking {
            request,
            row: *row,
            body: kept,
        })
    }

    /// The reply to a body that is longer than the longest, whatever the rest of it is.
    pub fn too_long(&self, alloc: Global) -> HttpReply
        ensures { IsTooLong (asked_value self.now.asked) (http_value result) }
    {
        let fault = self.asked.fault(MAX_BODY + 1);
        HttpReply::refusal(alloc, fault.unwrap_or(RequestFault::TooLong))
    }
}

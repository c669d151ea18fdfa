//! A request that was let in: its body comes, and then it is whole.

ghost use Rattle.std.specs.Prelude.{◌≡◌, ◌<◌, ℕ, List, [], length, IfNone};
ghost use Rattle.http_exchange.specs.Keeping.{HasCome};
ghost use Rattle.http_exchange.specs.Labels.{labels_of};
ghost use Rattle.http_routes.specs.Asked.{asked_value, keeps_of};
ghost use Rattle.http_steps.specs.Requests.{IsBodyAsked, IsWholeBy, IsWholeOf, KeepsMore};

use bytes::{Buf, BytesMut};
use http::header::HeaderMap;
use http_exchange::{Accepted, KeptBody, Labels};
use http_routes::{Asked, HttpReply, MAX_BODY};
use http1::{Event, Server};
use httparse::spans::HeaderSpan;
use std::alloc::Global;

/// A request that was let in, while its body comes.
pub(crate) struct Coming {
    accepted: Accepted,
    fields: HeaderMap,
    kept: KeptBody,
}

impl Drop for Coming {
    fn drop(self) {
        let Coming {
            accepted: _,
            fields: _,
            kept: _,
        } = self;
    }
}

/// A request that is whole.
pub(crate) struct WholeRequest {
    accepted: Accepted,
    fields: HeaderMap,
    body: Vec<u8>,
}

impl Drop for WholeRequest {
    fn drop(self) {
        let WholeRequest {
            accepted: _,
            fields: _,
            body: _,
        } = self;
    }
}

/// A request that is whole, as its program sees it: what it asks for, and what its route keeps of its body.
#[derive(Clone, Copy)]
pub struct Whole<'a> {
    pub asked: &'a Asked<'static>,
    pub body: &'a [u8],
}

/// How the reading of a body came out.
#[derive(Clone, Copy, Debug, PartialEq, Eq)]
pub(crate) enum Outcome {
    /// More of it has to come.
    More,
    /// All of it came.
    Whole,
    /// It is longer than the longest.
    TooLong,
    /// It isn't one.
    Broken,
    /// Memory is refused.
    NoMemory,
}

impl Coming {
    /// A request of which nothing came but its head.
    pub(crate) fn new(alloc: Global, accepted: Accepted, fields: HeaderMap) -> Coming
        ensures accepted { result.accepted ≡ accepted }
        ensures fields { result.fields ≡ fields }
        ensures kept { HasCome (keeps_of (asked_value accepted.asked)) result.kept [] }
    {
        let kept = KeptBody::new(alloc, accepted.keeps());
        Coming {
            accepted,
            fields,
            kept,
        }
    }

    /// What it asks for.
    pub(crate) fn accepted(&self) -> &Accepted
        ensures { result.now ≡ self.now.accepted }
    {
        &self.accepted
    }

    /// Its fields.
    pub(crate) fn fields(&self) -> &HeaderMap
        ensures { result.now ≡ self.now.fields }
    {
        &self.fields
    }

    /// Takes in what the input has of its body.
    pub(crate) fn take(
        &mut self,
        server: &mut Server,
        input: &mut BytesMut,
        spans: &mut [HeaderSpan],
    ) -> Outcome
        ensures accepted { self.new.accepted ≡ self.old.accepted }
        ensures fields { self.new.fields ≡ self.old.fields }
    {
        loop {
            if let Some(outcome) = self.take_piece(server, input, spans) {
                return outcome;
            }
        }
    }

    // Takes in one piece of its body, or says how the reading came out.
    fn take_piece(
        &mut self,
        server: &mut Server,
        input: &mut BytesMut,
        spans: &mut [HeaderSpan],
    ) -> Option<Outcome>
        ensures accepted { self.new.accepted ≡ self.old.accepted }
        ensures fields { self.new.fields ≡ self.old.fields }
        ensures nearer { IfNone result (length input.new.items < length input.old.items) }
    {
        let Ok(read) = server.read(input.as_slice(), spans) else {
            return Some(Outcome::Broken);
        };
        let outcome = match read.event {
            Event::Data(piece) => self.keep(piece.of(input.as_slice())),
            Event::End(_) => Some(Outcome::Whole),
            Event::NeedMore => Some(Outcome::More),
            Event::Head(_)
            | Event::Informational(_)
            | Event::Paused
            | Event::Upgraded
            | Event::Closed => Some(Outcome::Broken),
        };
        input.advance(read.consumed);
        outcome
    }

    // Keeps what its route needs of a piece.
    fn keep(&mut self, piece: &[u8]) -> Option<Outcome>
        ensures accepted { self.new.accepted ≡ self.old.accepted }
        ensures fields { self.new.fields ≡ self.old.fields }
        ensures more { IfNone result (KeepsMore self.old.kept piece.now self.new.kept) }
    {
        if self.kept.add(piece).is_err() {
            return Some(Outcome::NoMemory);
        }
        if self.kept.count() > MAX_BODY {
            return Some(Outcome::TooLong);
        }
        None
    }

    /// The request, all of whose body came.
    ///
    /// Errors: the reply that says why nothing is asked, and its labels.
    pub(crate) fn whole(self, alloc: Global) -> Result<WholeRequest, (HttpReply, Labels)>
        ensures { (came : List ℕ)
            → HasCome (keeps_of (asked_value self.accepted.asked)) self.kept came
            → IsWholeBy self came result }
    {
        let Coming {
            accepted,
            fields,
            kept,
        } = self;
        match body_asked(&accepted, alloc, &fields, kept) {
            Ok(body) => Ok(WholeRequest {
                accepted,
                fields,
                body,
            }),
            Err(reply) => {
                let labels = accepted.labels(reply.status);
                Err((reply, labels))
            }
        }
    }
}

// What of its body is asked with, once all of it came, or the reply that says why nothing is asked.
fn body_asked(
    accepted: &Accepted,
    alloc: Global,
    fields: &HeaderMap,
    kept: KeptBody,
) -> Result<Vec<u8>, HttpReply>
    ensures { (came : List ℕ) → HasCome (keeps_of (asked_value accepted.now.asked)) kept came
        → IsBodyAsked accepted.now fields.now came result }
{
    match accepted.asking(alloc, fields, kept) {
        Ok(asking) => Ok(asking.body),
        Err(reply) => Err(reply),
    }
}

impl WholeRequest {
    /// Its fields.
    pub(crate) fn fields(&self) -> &HeaderMap
        ensures { result.now ≡ self.now.fields }
    {
        &self.fields
    }

    /// What a reply with this status is labelled as.
    pub(crate) fn labels(&self, status: u16) -> Labels
        ensures { result ≡ labels_of (asked_value self.now.accepted.asked) status }
    {
        self.accepted.labels(status)
    }

    /// As its program sees it.
    pub(crate) fn whole(&self) -> Whole<'_>
        ensures { IsWholeOf self.now result }
    {
        Whole {
            asked: self.accepted.asked(),
            body: &self.body,
        }
    }
}

//! What a request asks for, and whom, once its head is let in.

ghost use Rattle.std.specs.Prelude.{◌≡◌, ◌⊎◌, ◌<◌, ℕ, List, length, option_map, IfSome};
ghost use Rattle.std.specs.Arc.{arc_value};
ghost use Rattle.message_format.specs.Spelling.{max_message};
ghost use Rattle.http_exchange.specs.Keeping.{HasCome};
ghost use Rattle.http_exchange.specs.Keys.{key_in};
ghost use Rattle.http_exchange.specs.Labels.{labels_of};
ghost use Rattle.http_header.specs.FieldValue.{FieldValue};
ghost use Rattle.http_header.specs.HeaderMap.{Entries};
ghost use Rattle.http_routes.specs.Asked.{asked_value, keeps_of};
ghost use Rattle.http_routes.specs.Replies.{http_value};
ghost use Rattle.http_service.specs.Exchanges.{keeps_in, question_to, question_value, AnswersAsked};

use crate::handler::Handler;
use http::header::HeaderMap;
use http_exchange::{Accepted, Access, Admitted, KeptBody, Labels};
use http_routes::{Asked, HttpReply, Keeps};
use std::alloc::Global;
use std::sync::{Arc, Wait};
use std::time::Clock;

/// What a request asks for, and whom. It owns what it holds.
#[derive(Drop)]
pub struct Question<H> {
    handler: Arc<H>,
    accepted: Accepted,
}

impl<H> Question<H> {
    /// What is asked of this handler, which is served with this access. There is none without the handler,
    /// or where memory was refused.
    pub fn to(
        alloc: Global,
        handler: &Option<Arc<H>>,
        access: &Access,
        asked: Asked<'_>,
        admitted: Admitted,
    ) -> Option<Question<H>>
        ensures asks { (option_map question_value result
            ≡ question_to (option_map arc_value handler.now) (key_in access.now)
            (asked_value asked.entry)) ⊎ (result ≡ None) }
        ensures admitted { IfSome result (λ question. question.accepted.admitted ≡ admitted) }
    {
        let accepted = Accepted::new(alloc, asked, access, admitted)?;
        let handler = Arc::try_clone(handler.as_ref()?).ok()?;
        Some(Question { handler, accepted })
    }

    /// What a reply with this status is labelled as.
    pub fn labels(&self, status: u16) -> Labels
        ensures { result ≡ labels_of (asked_value self.now.accepted.asked) status }
    {
        self.accepted.labels(status)
    }
}

/// What is kept of the body of what is asked, if anything is.
pub fn keeps_in<H>(question: &Option<Question<H>>) -> Keeps
    ensures { result ≡ keeps_in (option_map question_value question.now) }
{
    match question {
        Some(question) => question.accepted.keeps(),
        None => Keeps::Nothing,
    }
}

impl<H: Handler> Question<H> {
    /// The reply to a request with these fields and a body that came whole, of which this is kept: nothing
    /// is asked of the handler by what has a fault, or by a message that isn't as it was sent.
    pub fn reply<R: Wait + Clock>(
        &self,
        rt: &R,
        alloc: Global,
        fields: &HeaderMap,
        body: KeptBody,
    ) -> HttpReply
        ensures { (came : List ℕ) → HasCome (keeps_of (asked_value self.now.accepted.asked)) body came
            → AnswersAsked (H.answers (arc_value self.now.handler)) (key_in self.now.accepted.access)
            fields.now (asked_value self.now.accepted.asked) came (http_value result) }
    {
        match self.accepted.asking(alloc, fields, body) {
            Ok(asking) => self
                .handler
                .reply(rt, alloc, asking.request, asking.row, asking.body),
            Err(reply) => reply,
        }
    }

    /// The reply to a body that is longer than the longest, whatever the rest of it and the fields are.
    pub fn reply_too_long(&self, alloc: Global) -> HttpReply
        ensures { (fields : Entries FieldValue) (longer : List ℕ) → max_message < length longer
            → AnswersAsked (H.answers (arc_value self.now.handler)) (key_in self.now.accepted.access)
            fields (asked_value self.now.accepted.asked) longer (http_value result) }
    {
        self.accepted.too_long(alloc)
    }
}

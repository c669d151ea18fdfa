//! One request and its reply.

ghost use Rattle.std.specs.Prelude.{◌≡◌, ◌↔◌, ◌⊎◌, ◌<◌, ℕ, List, length};
ghost use Rattle.std.specs.Prelude.{true, option_copied, option_map, IfOk, IfSome, IsTrue};
ghost use Rattle.message_format.specs.Spelling.{max_message};
ghost use Rattle.std.specs.Arc.{arc_value};
ghost use Rattle.futures.specs.Poll.{IfReady, OnPending};
ghost use Rattle.futures.specs.Task.{IsArmed, Keeps};
ghost use Rattle.http_body_util.specs.declared.limited.LimitedError.TheVariants.{LengthLimit, Body};
ghost use Rattle.tokio.specs.Locks.{CanAcquire};
ghost use Rattle.http_exchange.specs.Heads.{refusal_of};
ghost use Rattle.http_exchange.specs.Keeping.{HasCome};
ghost use Rattle.http_exchange.specs.Keys.{key_in, key_need};
ghost use Rattle.http_routes.specs.Replies.{http_value};
ghost use Rattle.http_routes.specs.Asked.{asked_value};
ghost use Rattle.http_service.specs.Exchanges.{asking_of, keeps_in, labels_by, pieces_of, ComesTo};
ghost use Rattle.http_service.specs.Exchanges.{question_to, question_value, EndsFrom, Gives, GoesFrom};
ghost use Rattle.http_service.specs.Exchanges.{IsAnswered, IsAnswerTo, IsExchangeOf, Responds};
ghost use Rattle.http_service.specs.Exchanges.{TakesFrom, TellsTooLong};

use crate::handler::Handler;
use crate::permits::Permits;
use crate::question::{Question, keeps_in};
use bytes::Bytes;
use futures::task::{Context, Poll};
use futures::{Future, Stream, ready};
use http::header::HeaderMap;
use http_body::{Body, Frame};
use http_body_util::{Full, Limited, LimitedError};
use http_exchange::{
    Access, Admitted, KeptBody, Labels, Refusal, authority_of, judge, key_need, response,
};
use http_routes::{Asked, HttpReply, MAX_BODY, RouteSet, Routes};
use hyper::body::Incoming;
use hyper::service::Service;
use hyper::{Request, Response};
use std::alloc::Global;
use std::mem;
use std::sync::{Arc, Wait};
use std::time::Clock;
use tokio::sync::OwnedSemaphorePermit;

/// The longest body that is taken in without one of the permits of long ones, in bytes.
const SHORT_BODY: u64 = 65_536;

/// How many pieces of a body one poll takes in before it lets other tasks run.
const BUDGET: u32 = 128;

/// How many bytes of a body one poll takes in, but for the last piece, before it does the same.
const BYTES_AT_ONCE: usize = 65_536;

/// The service of one connection. It owns what it holds.
#[derive(Drop)]
pub struct ConnectionService<H, R> {
    pub alloc: Global,
    pub rt: R,
    pub handler: Option<Arc<H>>,
    pub routes: Arc<Routes>,
    /// Which of them the program offers.
    pub set: RouteSet,
    /// The permits of long bodies.
    pub long: Option<Permits>,
    /// Who may ask.
    pub access: Access,
    /// The port at which the handler is served.
    pub port: u16,
}

/// A request whose body is being read.
#[derive(Drop)]
pub struct Exchange<I, H, R> {
    alloc: Global,
    rt: R,
    // Why the head is answered without the handler, if it is.
    refusal: Option<Refusal>,
    // There is none where the head or memory was refused.
    question: Option<Question<H>>,
    fields: HeaderMap,
    // The head tells of a body that is longer than the longest: nothing of it is read.
    is_too_long: bool,
    body: Limited<Incoming<I>>,
    kept: KeptBody,
    // Where the body is long: the permits of such, and then the body's own.
    permits: Option<Permits>,
    permit: Option<OwnedSemaphorePermit>,
}

/// Whether a head was let in, what is asked then, and the permits of which the body needs one.
#[derive(Drop)]
struct Admission<H> {
    refusal: Option<Refusal>,
    question: Option<Question<H>>,
    permits: Option<Permits>,
}

/// How the reading of a body ended.
#[derive(Drop)]
enum Reading {
    Whole,
    TooLong,
    NoMemory,
    Broken(hyper::Error),
}

impl<H, R> ConnectionService<H, R> {
    // What is asked by a head that was let in, and the permits of which the body needs one. Nobody is
    // asked where there is no memory for these.
    fn question(
        &self,
        admitted: Admitted,
        asked: Asked<'_>,
        needs_permit: bool,
    ) -> (Option<Permits>, Option<Question<H>>)
        ensures needed { IsTrue needs_permit → result.0 ≡ None → result.1 ≡ None }
        ensures permits { IfSome result.0 (λ permits. IfSome permits.waiting CanAcquire) }
        ensures question { (option_map question_value result.1
            ≡ question_to (option_map arc_value self.now.handler) (key_in self.now.access)
            (asked_value asked.entry))
            ⊎ (result.1 ≡ None) }
        ensures admitted { IfSome result.1 (λ question. question.accepted.admitted ≡ admitted) }
    {
        if !needs_permit {
            return (
                None,
                Question::to(self.alloc, &self.handler, &self.access, asked, admitted),
            );
        }
        match again(&self.long) {
            Some(long) => (
                Some(long),
                Question::to(self.alloc, &self.handler, &self.access, asked, admitted),
            ),
            None => (None, None),
        }
    }

    // Lets in a head with these fields, whose target has this authority, if it has one, or says why it is
    // refused: then nobody is asked.
    fn admission(
        &self,
        fields: &HeaderMap,
        authority: Option<&str>,
        asked: Asked<'_>,
        needs_permit: bool,
    ) -> Admission<H>
        ensures refusal { result.refusal ≡ refusal_of (key_in self.now.access)
            (key_need (asked_value asked.entry)) self.now.port (option_copied authority.entry)
            fields.now }
        ensures needed { IsTrue needs_permit → result.permits ≡ None → result.question ≡ None }
        ensures permits { IfSome result.permits (λ permits. IfSome permits.waiting CanAcquire) }
        ensures question { ((result.refusal ≡ None) × (option_map question_value result.question
            ≡ question_to (option_map arc_value self.now.handler) (key_in self.now.access)
            (asked_value asked.entry)))
            ⊎ (result.question ≡ None) }
        ensures admitted { IfSome result.question (λ question.
            (question.accepted.admitted.need ≡ key_need (asked_value asked.entry)) × (result.refusal ≡ None)) }
    {
        match judge(fields, authority, &self.access, key_need(&asked), self.port) {
            Ok(admitted) => {
                let (permits, question) = self.question(admitted, asked, needs_permit);
                Admission {
                    refusal: None,
                    question,
                    permits,
                }
            }
            Err(refusal) => Admission {
                refusal: Some(refusal),
                question: None,
                permits: None,
            },
        }
    }
}

impl<I: Drop, H: Handler, R: Wait + Clock + Copy> Service<Request<Incoming<I>>>
    for ConnectionService<H, R> {
    type Response = Response<Full<Bytes>>;

    type Error = hyper::Error;

    type Future = Exchange<I, H, R>;

    ghost calls = { IsExchangeOf };

    fn call(&self, req: Request<Incoming<I>>) -> Exchange<I, H, R> {
        let (head, body) = req.into_parts();
        let (method, uri, fields) = (head.method, head.uri, head.headers);
        let asked = self.routes.asked(self.set, method.as_str(), uri.path());
        let is_too_long = tells_too_long(&body);
        let needs_permit = !is_too_long && !is_short(&body);
        let Admission {
            refusal,
            question,
            permits,
        } = self.admission(&fields, authority_of(&uri), asked, needs_permit);
        let kept = KeptBody::new(self.alloc, keeps_in(&question));
        Exchange {
            alloc: self.alloc,
            rt: self.rt,
            refusal,
            question,
            fields,
            is_too_long,
            body: Limited::new(body, MAX_BODY),
            kept,
            permits,
            permit: None,
        }
    }
}

impl<I: Drop, H: Handler, R: Wait + Clock + Copy> Exchange<I, H, R> {
    // The reply, once the body was read so far.
    fn reply(&mut self, reading: Reading) -> hyper::Result<HttpReply>
        ensures comes { (came : List ℕ)
            → HasCome (keeps_in (asking_of self.old).question) self.old.kept came
            → ComesTo H.answers (asking_of self.old) reading came result }
        ensures asking { asking_of self.new ≡ asking_of self.old }
    {
        let kept = mem::replace(&mut self.kept, KeptBody::none(self.alloc));
        match reading {
            Reading::Whole => Ok(self.reply_to(kept)),
            Reading::TooLong => Ok(self.reply_too_long()),
            Reading::NoMemory => Ok(HttpReply::no_memory(self.alloc)),
            Reading::Broken(error) => Err(error),
        }
    }

    // The reply to a body that came whole, of which this is kept.
    fn reply_to(&self, kept: KeptBody) -> HttpReply
        ensures { (came : List ℕ) → HasCome (keeps_in (asking_of self.now).question) kept came
            → IsAnswerTo H.answers (asking_of self.now) came (http_value result) }
    {
        match &self.question {
            Some(question) => question.reply(&self.rt, self.alloc, &self.fields, kept),
            None => HttpReply::no_memory(self.alloc),
        }
    }

    // The reply to a body that is longer than the longest.
    fn reply_too_long(&self) -> HttpReply
        ensures { (longer : List ℕ) → max_message < length longer
            → IsAnswerTo H.answers (asking_of self.now) longer (http_value result) }
    {
        match &self.question {
            Some(question) => question.reply_too_long(self.alloc),
            None => HttpReply::no_memory(self.alloc),
        }
    }

    // What the reply is labelled as.
    fn labels(&self, reply: &hyper::Result<HttpReply>) -> Labels
        ensures { IfOk reply.now
            (λ r. result ≡ labels_by (asking_of self.now).question r.status) }
    {
        match (&self.question, reply) {
            (Some(question), Ok(reply)) => question.labels(reply.status),
            _ => Labels::plain(),
        }
    }

    // What is given, once the body was read so far.
    fn answer(&mut self, reading: Reading) -> hyper::Result<Response<Full<Bytes>>>
        ensures { (came : List ℕ)
            → HasCome (keeps_in (asking_of self.old).question) self.old.kept came
            → IsAnswered H.answers (asking_of self.old) reading came result }
    {
        let reply = self.reply(reading);
        let labels = self.labels(&reply);
        respond(self.alloc, &self.fields, reply, labels)
    }

    // Reads the body, a long one once there is a permit for it.
    fn poll_reading(&mut self, cx: &mut Context<'_>) -> Poll<Reading>
        requires { IfSome self.old.permits (λ permits. IfSome permits.waiting CanAcquire) }
        ensures refusal { self.new.refusal ≡ self.old.refusal }
        ensures told { self.new.is_too_long ≡ self.old.is_too_long }
        ensures asking { asking_of self.new ≡ asking_of self.old }
        ensures ends { IfReady result (λ reading. EndsFrom (pieces_of self.old.body) self.old.kept
            reading self.new.kept) }
        ensures goes_on { OnPending result (GoesFrom (pieces_of self.old.body) self.old.kept
            (pieces_of self.new.body) self.new.kept) }
        ensures permits { OnPending result
            (IfSome self.new.permits (λ permits. IfSome permits.waiting CanAcquire)) }
        ensures armed { OnPending result (IsArmed cx.new) }
        ensures kept { Keeps cx.old cx.new }
    {
        if self.question.is_none() {
            return Poll::Ready(Reading::NoMemory);
        }
        if !ready!(poll_permit(&mut self.permits, &mut self.permit, cx)) {
            return Poll::Ready(Reading::NoMemory);
        }
        poll_body(&mut self.body, &mut self.kept, cx)
    }
}

impl<I: Drop, H: Handler, R: Wait + Clock + Copy> Future for Exchange<I, H, R> {
    type Output = hyper::Result<Response<Full<Bytes>>>;

    ghost can_poll = { λ e. IfSome e.permits (λ permits. IfSome permits.waiting CanAcquire) };

    ghost gives = { Gives H.answers };

    fn poll(&mut self, cx: &mut Context<'_>) -> Poll<hyper::Result<Response<Full<Bytes>>>> {
        if let Some(refusal) = self.refusal {
            let reply = refusal.reply(self.alloc);
            let given = respond(self.alloc, &self.fields, Ok(reply), refusal.labels());
            return Poll::Ready(given);
        }
        if self.is_too_long {
            return Poll::Ready(self.answer(Reading::TooLong));
        }
        let reading = ready!(self.poll_reading(cx));
        Poll::Ready(self.answer(reading))
    }
}

// Whether a body is taken in without a permit.
fn is_short<I: Drop>(body: &Incoming<I>) -> bool {
    match body.size_hint().upper() {
        Some(most) => most <= SHORT_BODY,
        None => false,
    }
}

// Whether the head of a body tells that it is longer than the longest.
fn tells_too_long<I: Drop>(body: &Incoming<I>) -> bool
    ensures { IsTrue result ↔ TellsTooLong body.now }
{
    match body.size_hint().exact() {
        Some(told) => told > MAX_BODY as u64,
        None => false,
    }
}

// Waits for a permit in this place, where one is needed. `false` where there is no memory for it.
fn poll_permit(
    permits: &mut Option<Permits>,
    place: &mut Option<OwnedSemaphorePermit>,
    cx: &mut Context<'_>,
) -> Poll<bool>
    requires { IfSome permits.old (λ permits. IfSome permits.waiting CanAcquire) }
    ensures goes { IfReady result (λ is_there. is_there ≡ true
        → IfSome permits.new (λ permits. IfSome permits.waiting CanAcquire)) }
    ensures again { OnPending result
        (IfSome permits.new (λ permits. IfSome permits.waiting CanAcquire)) }
    ensures armed { OnPending result (IsArmed cx.new) }
    ensures kept { Keeps cx.old cx.new }
{
    match permits {
        Some(permits) => permits.poll_into(place, cx),
        None => Poll::Ready(true),
    }
}

// How many bytes of a body are left, if its head says that; else 0.
fn bytes_left<I: Drop>(body: &Limited<Incoming<I>>) -> u64 {
    body.size_hint().exact().unwrap_or(0)
}

// Takes in pieces of a body, up to its end, or as many as one poll may. Room for what is kept of them is
// made at once, if it is known how much.
fn poll_body<I: Drop>(
    body: &mut Limited<Incoming<I>>,
    kept: &mut KeptBody,
    cx: &mut Context<'_>,
) -> Poll<Reading>
    ensures ends { IfReady result (λ reading. EndsFrom (pieces_of body.old) kept.old reading
        kept.new) }
    ensures goes_on { OnPending result (GoesFrom (pieces_of body.old) kept.old
        (pieces_of body.new) kept.new) }
    ensures armed { OnPending result (IsArmed cx.new) }
    ensures keeps { Keeps cx.old cx.new }
{
    if kept.reserve(bytes_left(body)).is_err() {
        return Poll::Ready(Reading::NoMemory);
    }
    let before = kept.count();
    for _ in 0..BUDGET {
        let piece = ready!(body.poll_frame(cx));
        if let Some(reading) = take_in(kept, piece) {
            return Poll::Ready(reading);
        }
        if kept.count().saturating_sub(before) >= BYTES_AT_ONCE {
            return cx.yield_now();
        }
    }
    cx.yield_now()
}

// Takes in a piece of a body, and answers how the reading ends by that, if it does.
fn take_in(
    kept: &mut KeptBody,
    piece: Option<Result<Frame<Bytes>, LimitedError<hyper::Error>>>,
) -> Option<Reading>
    ensures { TakesFrom piece kept.old kept.new result }
{
    match piece {
        Some(Ok(frame)) => keep_data(kept, frame),
        Some(Err(error)) => Some(broken_off(error)),
        None => Some(Reading::Whole),
    }
}

// Out of memory is all that ends the reading here.
fn keep_data(kept: &mut KeptBody, frame: Frame<Bytes>) -> Option<Reading>
    ensures { TakesFrom (Some (Ok frame)) kept.old kept.new result }
{
    let data = frame.into_data().ok()?;
    match kept.add(data.as_slice()) {
        Ok(()) => None,
        Err(_) => Some(Reading::NoMemory),
    }
}

fn broken_off(error: LimitedError<hyper::Error>) -> Reading
    ensures too_long { error ≡ LengthLimit → result ≡ Reading.TooLong }
    ensures broken { (e : _) → error ≡ Body e → result ≡ Reading.Broken e }
{
    match error {
        LimitedError::LengthLimit => Reading::TooLong,
        LimitedError::Body(e) => Reading::Broken(e),
    }
}

// A share of these permits for another body.
fn again(long: &Option<Permits>) -> Option<Permits>
    ensures { IfSome result (λ permits. IfSome permits.waiting CanAcquire) }
{
    long.as_ref()?.again()
}

// A reply as a response to a request with these fields, with these labels. An error goes on as it is.
fn respond(
    alloc: Global,
    fields: &HeaderMap,
    reply: hyper::Result<HttpReply>,
    labels: Labels,
) -> hyper::Result<Response<Full<Bytes>>>
    ensures { Responds fields.now (λ _. labels) reply result }
{
    let (head, body) = response(alloc, fields, reply?, labels)?.into_parts();
    Ok(Response::from_parts(head, Full::new(body)))
}

//! A connection, which has one request.

ghost use Rattle.std.specs.List.{position};
ghost use Rattle.std.specs.Prelude.{◌≡◌, ◌<◌, [], drop, length, not, IfOk, IfSome, OnOk};
ghost use Rattle.http1.specs.ReadError.{is_line_end};
ghost use Rattle.httparse.specs.Spans.{IsRequestWithin};
ghost use Rattle.http_steps.specs.Heads.{begins_with_head};
ghost use Rattle.http_steps.specs.Requests.{IsLetIn, IsRequestIn, IsRequestOf};
ghost use Rattle.http_steps.specs.Stages.{IsAnsweredBy, IsFrontOf, IsNew, bytes_left, wants_of};
ghost use Rattle.http_steps.specs.declared.connection.Stage.TheVariants.{Gone};

use crate::coming::{Coming, Outcome, Whole, WholeRequest};
use crate::rejection::Rejection;
use crate::service::Service;
use crate::writing::write_reply;
use bytes::{Buf, Bytes, BytesMut};
use http::Method;
use http::header::HeaderMap;
use http::request::Parts;
use http_exchange::Labels;
use http_routes::{HttpReply, MAX_BODY};
use http1::{BodySize, Event, Limits, Progress, ReadError, Server};
use http1_typed::request_parts;
use httparse::spans::{EMPTY_HEADER_SPAN, HeaderSpan, RequestSpans};
use std::alloc::Global;
use std::mem;

/// The most fields of a head.
pub(crate) const MOST_FIELDS: usize = 100;

/// The longest head, in bytes, and the longest extensions and trailers of a body in chunks.
const LIMITS: Limits = Limits {
    max_head_len: 65_536,
    max_extensions_len: 16_384,
    max_trailers_len: 16_384,
};

/// The longest body that is taken in without a permit, in bytes.
const SHORT_BODY: u64 = 65_536;

/// What a connection waits for.
#[derive(Clone, Copy, Debug, PartialEq, Eq)]
pub enum Wants {
    /// Bytes of the head of its request (`feed`).
    Head,
    /// A permit for a long body (`permit`).
    Permit,
    /// Bytes of the body (`feed`).
    Body,
    /// The answer to its request (`request`, then `answer`).
    Answer,
    /// That the answer is sent, once what it did is recorded (`tell`).
    Tell,
    /// That its output is sent (`output`, then `sent`).
    Write,
    /// To be closed, once what the client still sends was read and dropped for a moment, so that the client can
    /// read the reply.
    Linger,
    /// To be closed.
    Close,
}

/// How far the request of a connection is.
#[derive(Drop)]
pub(crate) enum Stage {
    /// Its head isn't whole.
    Head,
    /// Its head was let in, and its body is long.
    Permit(Coming),
    /// Its body comes.
    Body(Coming),
    /// It is whole.
    Asked(WholeRequest),
    /// It was answered, and the answer isn't sent yet.
    Answered(WholeRequest, HttpReply),
    /// Its reply was written.
    Replied,
    /// Nothing is written any more.
    Gone,
}

/// A connection with a client, without the socket: bytes come in by `feed` and leave by `output`.
#[derive(Drop)]
pub struct Connection {
    alloc: Global,
    server: Server,
    stage: Stage,
    // What came and wasn't used.
    input: BytesMut,
    // The head of what is to be sent, and the body after it.
    output: BytesMut,
    body: Bytes,
    // Whether the client waits to be told to send its body.
    is_expecting: bool,
    // Whether a reply has a body: one to `HEAD` hasn't.
    has_body: bool,
    // Whether the client may send more than its request.
    has_more: bool,
}

impl Connection {
    /// A connection on which nothing came. It takes no memory.
    pub fn new(alloc: Global) -> Connection
        ensures { IsNew result }
    {
        Connection {
            alloc,
            server: Server::new(LIMITS),
            stage: Stage::Head,
            input: BytesMut::new(alloc),
            output: BytesMut::new(alloc),
            body: Bytes::new(),
            is_expecting: false,
            has_body: true,
            has_more: false,
        }
    }

    /// What it waits for.
    pub fn wants(&self) -> Wants
        ensures { result ≡ wants_of self.now }
    {
        if !self.output.is_empty() || !self.body.is_empty() {
            return Wants::Write;
        }
        match &self.stage {
            Stage::Head => Wants::Head,
            Stage::Permit(_) => Wants::Permit,
            Stage::Body(_) => Wants::Body,
            Stage::Asked(_) => Wants::Answer,
            Stage::Answered(_, _) => Wants::Tell,
            Stage::Replied if self.has_more => Wants::Linger,
            Stage::Replied | Stage::Gone => Wants::Close,
        }
    }

    /// The next bytes to send; none if there is nothing to send.
    pub fn output(&self) -> &[u8]
        ensures { IsFrontOf result.now (bytes_left self.now) }
    {
        if self.output.is_empty() {
            self.body.as_slice()
        } else {
            self.output.as_slice()
        }
    }

    /// Says that so many bytes of the output were sent: of a greater number, that all were.
    pub fn sent(&mut self, count: usize)
        ensures stage { self.new.stage ≡ self.old.stage }
    {
        if self.output.is_empty() {
            let count = count.min(self.body.len());
            self.body.advance(count);
        } else {
            let count = count.min(self.output.len());
            self.output.advance(count);
        }
    }

    /// What its request asks for, once it is whole.
    pub fn request(&self) -> Option<Whole<'_>>
        ensures { IsRequestIn self.now.stage result }
    {
        match &self.stage {
            Stage::Asked(request) => Some(request.whole()),
            Stage::Head
            | Stage::Permit(_)
            | Stage::Body(_)
            | Stage::Answered(_, _)
            | Stage::Replied
            | Stage::Gone => None,
        }
    }

    /// Takes in bytes that came from its client, at a time in seconds after 1970. The service judges its head.
    pub fn feed(&mut self, service: &Service, bytes: &[u8], now: u64) {
        match &self.stage {
            Stage::Head | Stage::Permit(_) | Stage::Body(_) => {
                if self.input.extend_from_slice(bytes).is_err() {
                    return self.leave();
                }
                self.take_head(service, now);
                self.take_body(now);
            }
            Stage::Asked(_) | Stage::Answered(_, _) | Stage::Replied => {
                self.has_more |= !bytes.is_empty();
            }
            Stage::Gone => {}
        }
    }

    /// Says that its client sends no more. A request that isn't whole by then has no reply.
    pub fn end(&mut self) {
        self.has_more = false;
        match &self.stage {
            Stage::Head | Stage::Permit(_) | Stage::Body(_) => self.leave(),
            Stage::Asked(_) | Stage::Answered(_, _) | Stage::Replied | Stage::Gone => {}
        }
    }

    /// Gives it a permit for its long body, at a time in seconds after 1970.
    pub fn permit(&mut self, now: u64) {
        self.stage = match mem::replace(&mut self.stage, Stage::Gone) {
            Stage::Permit(coming) => Stage::Body(coming),
            stage => stage,
        };
        if let Stage::Body(_) = self.stage {
            self.ask_for_body();
        }
        self.take_body(now);
    }

    /// Takes the answer to its request. Nothing of it is sent before `tell`.
    pub fn answer(&mut self, reply: HttpReply)
        ensures { IsAnsweredBy reply self.old.stage self.new.stage }
    {
        self.stage = match mem::replace(&mut self.stage, Stage::Gone) {
            Stage::Asked(request) => Stage::Answered(request, reply),
            stage => stage,
        };
    }

    /// Has the answer sent, at a time in seconds after 1970. If memory for its head is refused, the connection is closed
    /// without one: no other may be sent, since the request was carried out.
    pub fn tell(&mut self, now: u64) {
        match mem::replace(&mut self.stage, Stage::Gone) {
            Stage::Answered(request, reply) => self.write_answer(&request, reply, now),
            stage => self.stage = stage,
        }
    }

    /// Has this sent in place of the answer, which isn't there yet or couldn't be recorded.
    pub fn tell_instead(&mut self, reply: HttpReply, now: u64) {
        match mem::replace(&mut self.stage, Stage::Gone) {
            Stage::Asked(request) => self.write_answer(&request, reply, now),
            Stage::Answered(request, unsent) => {
                drop(unsent);
                self.write_answer(&request, reply, now);
            }
            stage => self.stage = stage,
        }
    }

    fn write_answer(&mut self, request: &WholeRequest, reply: HttpReply, now: u64) {
        let labels = request.labels(reply.status);
        self.write(request.fields(), reply, labels, now);
    }

    // Reads the head, once all of it came.
    fn take_head(&mut self, service: &Service, now: u64) {
        if !matches!(self.stage, Stage::Head) {
            return;
        }
        let mut spans = [EMPTY_HEADER_SPAN; MOST_FIELDS];
        match self.server.read(self.input.as_slice(), &mut spans) {
            Ok(
                Progress {
                    event: Event::Head(head),
                    ..
                },
            ) => self.begin(service, &head, &spans, now),
            Ok(
                Progress {
                    event: Event::NeedMore,
                    ..
                },
            ) => {}
            Ok(_) => self.leave(),
            Err(fault) => self.reject_unreadable(fault, now),
        }
    }

    // Lets the head in, or rejects it.
    fn begin(&mut self, service: &Service, head: &RequestSpans, spans: &[HeaderSpan], now: u64)
        requires { IsRequestWithin self.old.input.items spans.now head.now }
    {
        match self.accepted(service, head, spans) {
            Ok(coming) => self.go_on(coming, now),
            Err(rejection) => self.reject(rejection, now),
        }
    }

    // The request of a head, if it is let in. What came after the head stays in the input.
    fn accepted(
        &mut self,
        service: &Service,
        head: &RequestSpans,
        spans: &[HeaderSpan],
    ) -> Result<Coming, Rejection>
        requires { IsRequestWithin self.old.input.items spans.now head.now }
        ensures ok { IfOk result
            (IsRequestOf service.now self.old.input.items spans.now head.now) }
        ensures rest { OnOk result (self.new.input.items ≡ drop head.now.len self.old.input.items) }
    {
        let came = self.take_input()?;
        let parts = request_parts(self.alloc, service.keys(), &came, head, spans)?;
        self.has_body = parts.method != Method::HEAD;
        self.input.extend_from_slice(&came.as_slice()[head.len..])?;
        coming_of(self.alloc, service, parts)
    }

    // Takes out all that came.
    fn take_input(&mut self) -> Result<Bytes, Rejection>
        ensures ok { IfOk result (λ came. came ≡ self.old.input.items) }
        ensures empty { self.new.input.items ≡ [] }
    {
        let input = mem::replace(&mut self.input, BytesMut::new(self.alloc));
        match input.freeze() {
            Ok(came) => Ok(came),
            Err(_) => Err(Rejection::NoMemory),
        }
    }

    // Has the body of a request come that was let in, unless its head tells that it is too long.
    fn go_on(&mut self, coming: Coming, now: u64) {
        self.is_expecting = self.server.expects_continue();
        match self.server.unread_size() {
            BodySize::Known(told) if told > MAX_BODY as u64 => self.reject_long(&coming, now),
            BodySize::Known(told) if told > SHORT_BODY => self.stage = Stage::Permit(coming),
            BodySize::Unknown => self.stage = Stage::Permit(coming),
            BodySize::Empty | BodySize::Known(_) => self.stage = Stage::Body(coming),
        }
    }

    // Takes in what came of the body.
    fn take_body(&mut self, now: u64) {
        let Stage::Body(coming) = &mut self.stage else {
            return;
        };
        let mut spans = [EMPTY_HEADER_SPAN; MOST_FIELDS];
        match coming.take(&mut self.server, &mut self.input, &mut spans) {
            Outcome::More => self.ask_for_body(),
            Outcome::Whole | Outcome::TooLong => self.finish(now),
            Outcome::Broken => self.stage = Stage::Gone,
            Outcome::NoMemory => self.reject(Rejection::NoMemory, now),
        }
    }

    // Tells a client to send its body that waits to be told.
    fn ask_for_body(&mut self) {
        if self.is_expecting {
            self.is_expecting = false;
            let told = self
                .server
                .write_informational(&mut self.output, 100, b"Continue", &[]);
            if told.is_err() {
                self.leave();
            }
        }
    }

    // Has the request asked that is whole, or rejects it.
    fn finish(&mut self, now: u64) {
        let Stage::Body(coming) = mem::replace(&mut self.stage, Stage::Gone) else {
            return;
        };
        self.has_more = !self.input.is_empty();
        match coming.whole(self.alloc) {
            Ok(request) => self.stage = Stage::Asked(request),
            Err((reply, labels)) => {
                self.has_more = true;
                self.write(&HeaderMap::new(self.alloc), reply, labels, now);
            }
        }
    }

    // Rejects a request before anything is asked. What its client still sends isn't read.
    fn reject(&mut self, rejection: Rejection, now: u64) {
        self.has_more = true;
        let reply = rejection.reply(self.alloc);
        self.write(&HeaderMap::new(self.alloc), reply, rejection.labels(), now);
    }

    // Rejects a head that can't be read. A reply to `HEAD` has no body.
    fn reject_unreadable(&mut self, fault: ReadError, now: u64) {
        self.has_more = true;
        let rejection = Rejection::Unreadable(fault);
        let mut reply = rejection.reply(self.alloc);
        if begins_with_head(self.input.as_slice()) {
            reply.body.clear();
        }
        self.write(&HeaderMap::new(self.alloc), reply, rejection.labels(), now);
    }

    // Rejects a request whose head tells that its body is longer than the longest.
    fn reject_long(&mut self, coming: &Coming, now: u64) {
        self.has_more = true;
        let reply = coming.accepted().too_long(self.alloc);
        let labels = coming.accepted().labels(reply.status);
        self.write(&HeaderMap::new(self.alloc), reply, labels, now);
    }

    // Writes the reply, if memory for it isn't refused.
    fn write(&mut self, fields: &HeaderMap, reply: HttpReply, labels: Labels, now: u64) {
        let written = write_reply(
            self.alloc,
            &mut self.server,
            &mut self.output,
            fields,
            reply,
            labels,
            self.has_body,
            now,
        );
        match written {
            Ok(body) => {
                self.body = body;
                self.stage = Stage::Replied;
            }
            Err(_) => self.leave(),
        }
    }

    // Ends it without a reply.
    fn leave(&mut self)
        ensures gone { self.new.stage ≡ Gone }
        ensures output { bytes_left self.new ≡ [] }
    {
        self.stage = Stage::Gone;
        self.output.clear();
        self.body = Bytes::new();
    }
}

// The request of a head of these parts, if it is let in.
fn coming_of(alloc: Global, service: &Service, parts: Parts) -> Result<Coming, Rejection>
    ensures { IfOk result (IsLetIn service.now parts) }
{
    let accepted = service.accept(&parts)?;
    Ok(Coming::new(alloc, accepted, parts.headers))
}

// Where the first byte is that ends no empty line (RFC 9112, 2.2).
fn first_of_line(bytes: &[u8]) -> Option<usize>
    ensures first { result ≡ position (λ byte. not (is_line_end byte)) bytes.now }
    ensures bound { IfSome result (λ at. at < length bytes.now) }
{
    bytes
        .iter()
        .position(|byte| !matches!(*byte, b'\r' | b'\n'))
}

// Whether a head that can't be read has the method `HEAD`.
fn begins_with_head(bytes: &[u8]) -> bool
    ensures { result ≡ begins_with_head bytes.now }
{
    match first_of_line(bytes) {
        Some(at) => bytes[at..].starts_with(b"HEAD "),
        None => false,
    }
}

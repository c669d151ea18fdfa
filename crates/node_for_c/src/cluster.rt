//! A node among the others of its cluster: whom it heard, what clients ask of it then, and whom it tells.

ghost use Rattle.std.specs.Prelude.{◌≡◌, ◌≢◌, ◌==◌, ◌&&◌, [], false, is_none, is_some, length, not, IfErr, IfOk};
ghost use Rattle.std.specs.Prelude.{OnErr, Some, true};
ghost use Rattle.node_core.specs.Memory.{DeliveryNeedsMemory};
ghost use Rattle.node_core.specs.Traces.{delivery_of, state_known};
ghost use Rattle.http_routes.specs.Answers.{head_of};
ghost use Rattle.http_routes.specs.Asked.{asked_value};
ghost use Rattle.http_routes.specs.Replies.{http_value, text_reply, IsReply};
ghost use Rattle.http_routes.specs.Requests.{wanted_asked};
ghost use Rattle.report_text.specs.Status.{status_json_text};
ghost use Rattle.peers.specs.Heard.{peer_rows};
ghost use Rattle.node_for_c.specs.Answered.{IsNoRequest, MayLackMemoryTo};
ghost use Rattle.node_for_c.specs.Calls.{IsRefused, holds_body};
ghost use Rattle.node_for_c.specs.Cluster.{AnswersBy, IsAnsweredAs, IsAnsweredAt, IsHeardAt, IsLeftNoting, IsTakenAt};
ghost use Rattle.node_for_c.specs.Cluster.{IsLooked, LacksMemoryBy, course_by, course_of};
ghost use Rattle.node_for_c.specs.Cluster.{awaited_in, fault_number, may_set};

use crate::registry::{Answer, NOT_TEXT, Registry};
use http_routes::{Asked, HttpReply, Kind, NodeRequest, Request, RouteSet, node_status};
use node_core::NodeFault;
use peers::{Due, Outcome, outcome_by, outcome_of, sender_of, waiting};
use std::alloc::Global;

/// What a request was answered, but for the body, and what it changed.
#[repr(C)]
#[derive(Drop, Clone, Copy)]
pub struct Answered {
    pub status: u16,
    /// The number of the fault's code by which the node rejects the request, or 0.
    pub fault: u8,
    /// Whether the request changed what the node knows, and may have changed which points are set, or to
    /// what.
    pub changes_settings: bool,
    /// Whether calls waited for the message that the request brought, and wait no more.
    pub has_heard_all: bool,
}

/// The number that means no node: none has it.
pub const NOBODY: u8 = 255;

/// The result for a request that isn't answered.
pub const UNANSWERED: Answered = Answered {
    status: 0,
    fault: 0,
    changes_settings: false,
    has_heard_all: false,
};

/// What is done with a request at a node of a cluster.
#[derive(Clone, Copy)]
enum Course {
    /// Another node asks to be told.
    Greet,
    /// It isn't made, since calls wait for this node.
    Wait(u8),
    /// The status is shown with what was heard of the others.
    Show,
    /// A message is taken in, and what it came to is noted.
    Hear,
    /// It is answered as by a node alone.
    Answer,
}

// What is done with a request of the node, by the node that calls wait for, if they wait.
fn course_by(kind: Kind, awaited: Option<u8>) -> Course
    ensures { result ≡ course_by kind awaited }
{
    match (kind, awaited) {
        (Kind::Call, Some(node)) => Course::Wait(node),
        (Kind::Status, _) => Course::Show,
        (Kind::Delivery, _) => Course::Hear,
        (Kind::Call, None) | (Kind::Read | Kind::Hello | Kind::Page | Kind::Stop, _) => {
            Course::Answer
        }
    }
}

// What is done with a request with a body of so many bytes.
fn course_of(asked: &Asked<'_>, size: usize, awaited: Option<u8>) -> Course
    ensures { result ≡ course_of (asked_value asked.now) size awaited }
{
    if asked.fault(size).is_some() {
        return Course::Answer;
    }
    match asked {
        Asked::Known {
            request: Request::Hello,
            ..
        } => Course::Greet,
        Asked::Known {
            request: Request::Node(_),
            row,
        } => course_by(row.kind, awaited),
        Asked::Known {
            request: Request::Page | Request::Stop,
            ..
        }
        | Asked::Nowhere
        | Asked::OtherMethod(_) => Course::Answer,
    }
}

// Whether a request may change which points are set, or to what.
fn may_set(asked: &Asked<'_>) -> bool
    ensures { result ≡ may_set (asked_value asked.now) }
{
    match asked {
        Asked::Known {
            request: Request::Node(request),
            ..
        } => match request {
            NodeRequest::Set { .. }
            | NodeRequest::Remove { .. }
            | NodeRequest::Load
            | NodeRequest::SetSpread { .. }
            | NodeRequest::Deliver => true,
            NodeRequest::List
            | NodeRequest::Report
            | NodeRequest::Status
            | NodeRequest::Spread { .. }
            | NodeRequest::Shift { .. }
            | NodeRequest::Grant { .. }
            | NodeRequest::BadNumber => false,
        },
        Asked::Known { .. } | Asked::Nowhere | Asked::OtherMethod(_) => false,
    }
}

// The number of a fault's code, or 0.
fn fault_number(fault: Option<NodeFault>) -> u8
    ensures { result ≡ fault_number fault }
{
    match fault {
        Some(fault) => fault.code(),
        None => 0,
    }
}

// Whether points may be set otherwise, where a request may set them, by the versions before and after it.
fn has_changed(may_set: bool, before: u64, after: u64) -> bool
    ensures { result ≡ (may_set && not (after == before)) }
{
    may_set && after != before
}

// Whether calls waited for a node before, and wait for none after.
fn has_ended(before: Option<u8>, after: Option<u8>) -> bool
    ensures { result ≡ (is_some before && is_none after) }
{
    before.is_some() && after.is_none()
}

impl Registry {
    /// Takes in a message of another node as `deliver` does, and notes in the row of its sender what it
    /// came to, at a time in milliseconds since 1970.
    pub fn deliver_at(&mut self, alloc: Global, message: &[u8], now: u64) -> (u32, bool)
        ensures ok { result.0 ≡ 0 → IsTakenAt message.now now result.1 self.old self.new }
        ensures refused { result.0 ≢ 0 → IsRefused self.old.core
            (delivery_of self.old.core message.now) []
            (DeliveryNeedsMemory self.old.core message.now) result.0 }
        ensures left { result.0 ≢ 0 → IsLeftNoting message.now now result.0 self.old self.new }
        ensures none { result.0 ≢ 0 → result.1 ≡ false }
    {
        let sender = sender_of(message);
        match self.core.deliver(alloc, message) {
            Ok(changed) => {
                self.book.note(sender, Outcome::Accepted, now);
                (0, changed)
            }
            Err(fault) => {
                self.book.note(sender, outcome_by(Err(fault)), now);
                (self.refuse(fault), false)
            }
        }
    }

    /// Looks at another node, once in a round, and answers what is due for it: 0 nothing, 1 it is to be
    /// told, 2 it is to be asked to tell.
    pub fn look(&mut self, peer: u8) -> u8
        ensures { IsLooked peer result self.old self.new }
    {
        match self.book.look(&self.core, peer) {
            Due::Nothing => 0,
            Due::Tell => 1,
            Due::Ask => 2,
        }
    }

    // The status, with what was heard of the others.
    fn status_with_others(&self, alloc: Global) -> HttpReply
        ensures { IsReply (text_reply 200 (status_json_text (head_of self.now.core)
            (state_known self.now.core) (Some (peer_rows self.now.book.cluster
            self.now.book.heard.rows)))) (http_value result) }
    {
        match self.book.rows(alloc) {
            Ok(rows) => {
                let status = node_status(alloc, &self.core, Some(rows.as_slice()));
                HttpReply::written(alloc, 200, status)
            }
            Err(_) => HttpReply::no_memory(alloc),
        }
    }

    // The reply to a message, which is noted in the row of its sender.
    fn hear(&mut self, alloc: Global, asked: &Asked<'_>, body: &[u8], now: u64) -> Answer
        ensures heard { IsHeardAt (wanted_asked (asked_value asked.now) body.now) body.now now result
            self.old self.new }
        ensures memory { MayLackMemoryTo (wanted_asked (asked_value asked.now) body.now) result
            self.old self.new }
        ensures said { holds_body self.new.said ≡ true }
    {
        let answer = self.answer_asked(alloc, asked, body);
        let outcome = outcome_of(answer.status, answer.fault);
        self.book.note(sender_of(body), outcome, now);
        answer
    }

    // The reply to a request with which this is done.
    fn answer_by(
        &mut self,
        alloc: Global,
        course: Course,
        asked: &Asked<'_>,
        body: &[u8],
        now: u64,
    ) -> Answer
        ensures answers { AnswersBy course (wanted_asked (asked_value asked.now) body.now) body.now now
            result self.old self.new }
        ensures memory { LacksMemoryBy course (wanted_asked (asked_value asked.now) body.now)
            result self.old self.new }
        ensures said { holds_body self.new.said ≡ true }
    {
        match course {
            Course::Greet => {
                let reply = self.book.greet(alloc, body);
                self.say_reply(reply)
            }
            Course::Wait(node) => self.say_reply(waiting(alloc, node)),
            Course::Show => {
                let reply = self.status_with_others(alloc);
                self.say_reply(reply)
            }
            Course::Hear => self.hear(alloc, asked, body, now),
            Course::Answer => self.answer_asked(alloc, asked, body),
        }
    }

    // What is done with a request at the node.
    fn course(&self, asked: &Asked<'_>, body: &[u8]) -> Course
        ensures { result ≡ course_of (asked_value asked.now) (length body.now)
            (awaited_in self.now) }
    {
        course_of(asked, body.len(), self.book.awaited())
    }

    // Answers what is asked of the node, at a time in milliseconds since 1970, and tells what that changed.
    pub(crate) fn answer_known(
        &mut self,
        alloc: Global,
        asked: &Asked<'_>,
        body: &[u8],
        now: u64,
    ) -> Answered
        ensures told { IsAnsweredAs (asked_value asked.now) body.now now result self.old self.new }
        ensures said { holds_body self.new.said ≡ true }
    {
        let awaited = self.book.awaited();
        let version = self.core.version();
        let course = self.course(asked, body);
        let answer = self.answer_by(alloc, course, asked, body, now);
        Answered {
            status: answer.status,
            fault: fault_number(answer.fault),
            changes_settings: has_changed(may_set(asked), version, self.core.version()),
            has_heard_all: has_ended(awaited, self.book.awaited()),
        }
    }

    /// Answers a request of HTTP as a served node of a cluster does, at a time in milliseconds since 1970:
    /// a call waits until each other node was heard, if those are heard first, a message is noted, another
    /// node may ask to be told, and the status shows the others. The body of the reply is to be fetched.
    ///
    /// Errors: the method or the path isn't UTF-8.
    pub fn answer_at(
        &mut self,
        alloc: Global,
        method: &[u8],
        path: &[u8],
        body: &[u8],
        now: u64,
    ) -> Result<Answered, u32>
        ensures ok { IfOk result
            (λ told. IsAnsweredAt method.now path.now body.now now told self.old self.new) }
        ensures refused { IfErr result (IsNoRequest method.now path.now) }
        ensures same { OnErr result (self.new ≡ self.old) }
    {
        let Ok(method) = str::from_utf8(method) else {
            return Err(NOT_TEXT);
        };
        let Ok(path) = str::from_utf8(path) else {
            return Err(NOT_TEXT);
        };
        let asked = self.routes.asked(RouteSet::Cluster, method, path);
        Ok(self.answer_known(alloc, &asked, body, now))
    }
}

//! A node whose part is kept: a request is answered once what it did is written.

ghost use Rattle.std.specs.Prelude.{◌≡◌, ◌⊎◌, ℕ, IfOk, IfErr, option_map};
ghost use Rattle.node_calls.specs.Asks.{reply_value};
ghost use Rattle.node_calls.specs.Told.{ask_ref_told, ask_told};
ghost use Rattle.http_routes.specs.Replies.{http_value};
ghost use Rattle.http_routes.specs.Replies.{acceptance_value};
ghost use Rattle.http_routes.specs.Requests as requests;
ghost use Rattle.part_keeper.specs.Outs.{out_of, seat_of, written_of};
ghost use Rattle.http_serve.specs.Recorded.{AnswersRecording, IsNotMade, IsNotRecorded, IsServedRecording};
ghost use Rattle.http_serve.specs.Recorded.{IsServedWriting, IsSpreadWriting, TellsFault};
ghost use Rattle.http_serve.specs.Served.{ShowsPeers};
ghost use Rattle.http_serve.specs.Spreads.{spread_of};
ghost use Rattle.http_serve.specs.declared.handler.recording.TheConstants.{NOT_RECORDED, RECORDING_FAILED};

use super::NodeReader;
use super::spreading::SpreadRequest;
use crate::node_answers::NodeAnswers;
use http_routes::{HttpReply, NodeRequest, ReplyRoom, WantedRef};
use node_core::{Ask, AskRef, Reply};
use node_registry::{Label, Registry};
use part_keeper::{CallFault, Recorder, Recording};
use report_text::PeerRow;
use std::alloc::{AllocError, Global};
use std::io::Write;
use std::sync::{Arc, Wait};

/// What a call is answered that was made and couldn't be recorded.
const NOT_RECORDED: &str =
    "the call was executed but could not be recorded: free disk space or fix \
    permissions, then restart the node from its journal";

/// What a call is answered that isn't made, since an earlier one couldn't be recorded.
const RECORDING_FAILED: &str =
    "rejected because an earlier call could not be recorded: free disk space \
    or fix permissions, then restart the node from its journal";

// The reply where what was made couldn't be recorded.
fn not_recorded(alloc: Global) -> HttpReply
    ensures { IsNotRecorded (http_value result) }
{
    HttpReply::text(alloc, 503, NOT_RECORDED)
}

// The reply where nothing is made, since an earlier call couldn't be recorded.
fn not_made(alloc: Global) -> HttpReply
    ensures { IsNotMade (http_value result) }
{
    HttpReply::text(alloc, 503, RECORDING_FAILED)
}

// The reply that says what came of a call.
fn told_of_call(alloc: Global, room: ReplyRoom, made: Result<Reply, CallFault>) -> HttpReply
    ensures made { IfOk made (λ reply. (nodes : ℕ)
        → http_value result ≡ acceptance_value (reply_value nodes reply)) }
    ensures fault { IfErr made (λ fault. TellsFault fault (http_value result)) }
{
    match made {
        Ok(reply) => room.reply(&Ok(reply)),
        Err(CallFault::Refused(fault)) => room.reply(&Err(fault)),
        Err(CallFault::NotRecorded) => not_recorded(alloc),
        Err(CallFault::RecordingFailed) => not_made(alloc),
    }
}

// The reply that says what came of several calls: where one of them is refused, that is what came.
fn told_of_batch(alloc: Global, made: Result<HttpReply, CallFault>) -> HttpReply
    requires { IfErr made (λ fault.
        (fault ≡ CallFault.NotRecorded) ⊎ (fault ≡ CallFault.RecordingFailed)) }
    ensures made { IfOk made (λ reply. result ≡ reply) }
    ensures fault { IfErr made (λ fault. TellsFault fault (http_value result)) }
{
    match made {
        Ok(reply) => reply,
        Err(CallFault::NotRecorded) => not_recorded(alloc),
        Err(CallFault::RecordingFailed) => not_made(alloc),
        Err(CallFault::Refused(_)) => unreachable!(),
    }
}

/// A node whose calls are written to its part before they are answered. It has no seat: only the
/// recorder, which has one, makes a call.
#[derive(Drop)]
pub struct RecordingHandler<L: Label> {
    reader: NodeReader<L>,
    recorder: Arc<Recorder<L>>,
}

impl<L: Label> RecordingHandler<L> {
    /// The only error is out of memory.
    pub fn new(
        registry: &Arc<Registry<L>>,
        recorder: &Arc<Recorder<L>>,
    ) -> Result<RecordingHandler<L>, AllocError> {
        Ok(RecordingHandler {
            reader: NodeReader::new(registry)?,
            recorder: Arc::try_clone(recorder)?,
        })
    }

    // The reply to a call that lies in a request.
    fn call_of<R: Wait>(&self, rt: &R, alloc: Global, ask: AskRef<'_>) -> HttpReply
        ensures { IsServedRecording L.config L.seed L.keeps L.parts
            (requests.call (ask_ref_told ask.entry)) (http_value result) }
    {
        match ask.copied(alloc) {
            Ok(ask) => self.call(rt, alloc, ask),
            Err(_) => HttpReply::no_memory(alloc),
        }
    }

    // The reply to a call, from the recorder's recording.
    fn call<R: Wait>(&self, rt: &R, alloc: Global, ask: Ask) -> HttpReply
        ensures { IsServedRecording L.config L.seed L.keeps L.parts (requests.call (ask_told ask))
            (http_value result) }
    {
        let mut recording = self.recorder.lock(rt);
        self.call_from(rt, alloc, &mut recording, ask)
    }

    // The reply to a call from a recording. The call is made once there is room for its reply, and its
    // line is written before the reply is there.
    fn call_from<W: Write, R: Wait>(
        &self,
        rt: &R,
        alloc: Global,
        recording: &mut Recording<L, W>,
        ask: Ask,
    ) -> HttpReply
        ensures { IsServedWriting W.contents (out_of recording.old) (out_of recording.new)
            (written_of recording.old) (written_of recording.new) (seat_of recording.old)
            (seat_of recording.new) L.config L.seed L.keeps L.parts (ask_told ask)
            (http_value result) }
    {
        let Ok(room) = ReplyRoom::new(alloc) else {
            return HttpReply::no_memory(alloc);
        };
        let made = recording.submit(rt, alloc, &self.reader.registry, ask);
        told_of_call(alloc, room, made)
    }

    // The reply to a request to spread the rights of a point, from the recorder's recording.
    fn spread<R: Wait>(&self, rt: &R, alloc: Global, name: &str, text: Option<&str>) -> HttpReply
        ensures { IsServedRecording L.config L.seed L.keeps L.parts
            (spread_of name.now (option_map (λ t. t.now) text.entry)) (http_value result) }
    {
        let mut recording = self.recorder.lock(rt);
        self.spread_from(rt, alloc, &mut recording, name, text)
    }

    // The reply to a request to spread the rights of a point, from a recording: the lines of its calls
    // are written before the reply is there.
    fn spread_from<W: Write, R: Wait>(
        &self,
        rt: &R,
        alloc: Global,
        recording: &mut Recording<L, W>,
        name: &str,
        text: Option<&str>,
    ) -> HttpReply
        ensures { IsSpreadWriting W.contents (out_of recording.old) (out_of recording.new)
            (written_of recording.old) (written_of recording.new) (seat_of recording.old)
            (seat_of recording.new) L.config L.seed L.keeps L.parts
            (spread_of name.now (option_map (λ t. t.now) text.entry)) (http_value result) }
    {
        let mut request = SpreadRequest { name, text };
        let made = recording.make_batch(rt, alloc, &self.reader.registry, &mut request);
        told_of_batch(alloc, made)
    }

    // What a reply tells of the node is written before it is there, if anything is written any more.
    fn recorded<R: Wait>(&self, rt: &R, alloc: Global, reply: HttpReply) -> HttpReply
        ensures { result ≡ reply }
    {
        let _ = self.recorder.keep(rt, alloc, &self.reader.registry);
        reply
    }
}

impl<L: Label> NodeAnswers for RecordingHandler<L> {
    ghost answers = { λ _. AnswersRecording L.config L.seed L.keeps L.parts };

    ghost shows = { λ _. ShowsPeers L.config L.seed };

    fn reply<R: Wait>(
        &self,
        rt: &R,
        alloc: Global,
        request: &NodeRequest<'_>,
        body: Vec<u8>,
    ) -> HttpReply {
        if let NodeRequest::Deliver = request {
            return self.call(rt, alloc, Ask::Deliver { message: body });
        }
        match WantedRef::of(request, body.as_slice()) {
            WantedRef::Do(ask) => self.call_of(rt, alloc, ask),
            WantedRef::List => self.recorded(rt, alloc, self.reader.list(rt, alloc)),
            WantedRef::Report => self.recorded(rt, alloc, self.reader.report(rt, alloc)),
            WantedRef::Status => self.recorded(rt, alloc, self.reader.status(rt, alloc, None)),
            WantedRef::SetSpread { name, text } => self.spread(rt, alloc, name, Some(text)),
            WantedRef::Spread { name } => self.spread(rt, alloc, name, None),
            WantedRef::Refused(fault) => HttpReply::refusal(alloc, fault),
        }
    }

    fn status<R: Wait>(&self, rt: &R, alloc: Global, peers: &[PeerRow]) -> HttpReply {
        self.recorded(rt, alloc, self.reader.status(rt, alloc, Some(peers)))
    }
}

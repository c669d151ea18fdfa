//! Calls that are made again as they are told, and the node that they come to.

ghost use Rattle.std.specs.Prelude.{◌≡◌, ◌↔◌, ℕ, List, map, Err, IfErr, IfOk, IsTrue, OnErr, OnOk};
ghost use Rattle.std.specs.Prelude.{Some, false};
ghost use Rattle.std.specs.Bool.{OnTrue};
ghost use Rattle.node_calls.specs.Asks.{call, call_from};
ghost use Rattle.node_calls.specs.Told.{emits, passed_ref, reply_told, was_emitted};
ghost use Rattle.packed_trace.specs.Packed.{pass_value, seen_told};
ghost use Rattle.node_core.specs.Deliveries.{TellsDelta};
ghost use Rattle.node_core.specs.Lasts.{last_passed};
ghost use Rattle.node_steps.specs.Refusals.{is_bad_config};
ghost use Rattle.node_core.specs.Resumed.{IsFirstWrong, IsLegalAlone, IsNext, lived};
ghost use Rattle.node_core.specs.Traces.{Kept, with_call};

use super::NodeCore;
use crate::resume_fault::ResumeFault;
use node_calls::{Entry, NodeFault, PassReplyRef, Reply};
use node_steps::Config;
use packed_trace::{Pass, Seen, Trace};
use std::alloc::Global;

// An emit that may come next was answered with bytes that tell what differs.
fn emit_tells(nodes: u8, bytes: &[u8])
    ensures { (k : Kept) (to : ℕ) (words : List ℕ) → k.config.nodes ≡ nodes
        → IsNext k (call_from k.config.nodes (record {
          ask = emits to;
          words = words;
          reply = was_emitted bytes.now;
        })) → TellsDelta k to bytes.now }
{}

// The same of a reply, if it is that of an emit.
fn reply_tells(nodes: u8, reply: &Reply)
    ensures { (k : Kept) (to : ℕ) (words bytes : List ℕ) → reply_told reply.now ≡ was_emitted bytes
        → k.config.nodes ≡ nodes → IsNext k (call_from k.config.nodes (record {
          ask = emits to;
          words = words;
          reply = was_emitted bytes;
        })) → TellsDelta k to bytes }
{
    if let Reply::Emit(message) = reply {
        emit_tells(nodes, message);
    }
}

fn is_out_of_memory(fault: NodeFault) -> bool
    ensures { IsTrue result ↔ (fault ≡ NodeFault.OutOfMemory) }
{
    matches!(fault, NodeFault::OutOfMemory)
}

// A call that the node refuses isn't given by it, unless it is refused as out of memory.
fn refused(fault: NodeFault) -> Result<bool, NodeFault>
    ensures ok { IfOk result (λ given. (given ≡ false) × (fault ≡ NodeFault.OutOfMemory → ⊥)) }
    ensures err { IfErr result (λ fault. fault ≡ NodeFault.OutOfMemory) }
{
    if is_out_of_memory(fault) {
        Err(fault)
    } else {
        Ok(false)
    }
}

impl NodeCore {
    /// Makes a call again as it is told, with its random draws, and answers whether this node gives it:
    /// whether it accepts the call, and answers it to the byte as it is told. Where it doesn't, the node
    /// is of no use any more: it may have answered otherwise. The only error is out of memory, and the
    /// node is then as it was.
    pub fn repeat(&mut self, alloc: Global, told: Seen<'_>) -> Result<bool, NodeFault>
        ensures given { IfOk result (λ given. IsTrue given
            ↔ IsNext self.old (call_from self.old.config.nodes (seen_told told.entry))) }
        ensures made { IfOk result (λ given. OnTrue given (self.new
            ≡ with_call self.old (call_from self.old.config.nodes (seen_told told.entry)))) }
        ensures only { IfErr result (λ fault. fault ≡ NodeFault.OutOfMemory) }
        ensures err { OnErr result (self.new ≡ self.old) }
    {
        match told {
            Seen::Pass { row, term, word } => {
                let pass = Pass {
                    name: &row.name,
                    setting: row.setting(),
                    term,
                    words: word.as_slice(),
                };
                self.repeat_pass(alloc, pass)
            }
            Seen::Entry(entry) => self.repeat_entry(alloc, entry),
        }
    }

    // Makes a pass again. Nothing is copied for it.
    fn repeat_pass(&mut self, alloc: Global, pass: Pass<'_>) -> Result<bool, NodeFault>
        ensures given { IfOk result (λ given. IsTrue given
            ↔ IsNext self.old (call_from self.old.config.nodes (pass_value pass.entry))) }
        ensures made { IfOk result (λ given. OnTrue given (self.new
            ≡ with_call self.old (call_from self.old.config.nodes (pass_value pass.entry)))) }
        ensures only { IfErr result (λ fault. fault ≡ NodeFault.OutOfMemory) }
        ensures err { OnErr result (self.new ≡ self.old) }
    {
        match self.record_point(alloc, pass.name, pass.words) {
            Ok(()) => Ok(self.has_passed(pass.reply())),
            Err(fault) => refused(fault),
        }
    }

    // Makes the call of an entry again.
    fn repeat_entry(&mut self, alloc: Global, entry: &Entry) -> Result<bool, NodeFault>
        ensures given { IfOk result (λ given. IsTrue given
            ↔ IsNext self.old (call self.old.config.nodes entry.now)) }
        ensures made { IfOk result (λ given. OnTrue given
            (self.new ≡ with_call self.old (call self.old.config.nodes entry.now))) }
        ensures only { IfErr result (λ fault. fault ≡ NodeFault.OutOfMemory) }
        ensures err { OnErr result (self.new ≡ self.old) }
    {
        reply_tells(self.config().nodes, &entry.reply);
        match self.answer(alloc, &entry.ask, &entry.words) {
            Ok(made) => Ok(made.as_ref().is_same(entry.reply.as_ref())),
            Err(fault) => refused(fault),
        }
    }

    // Whether the last call is a pass that came to this.
    fn has_passed(&self, reply: PassReplyRef<'_>) -> bool
        ensures { IsTrue result ↔ (last_passed self.now ≡ Some (passed_ref reply.entry)) }
    {
        match self.last_pass() {
            Some(made) => made.is_same(reply),
            None => false,
        }
    }

    /// The node that recorded calls come to, which keeps them all: where each of them in turn is accepted
    /// and is answered, to the byte, as it is told. Each call is made again.
    pub fn resume(alloc: Global, config: Config, calls: &Trace) -> Result<NodeCore, ResumeFault>
        ensures ok { IfOk result
            (λ n. n ≡ lived config (map (call_from config.nodes) calls.now.calls)) }
        ensures legal { OnOk result (IsLegalAlone config calls.now.calls) }
        ensures good { OnOk result (is_bad_config config ≡ false) }
        ensures bad { result ≡ Err ResumeFault.BadConfig ↔ IsTrue (is_bad_config config) }
        ensures differs { (index : ℕ) → result ≡ Err (ResumeFault.Differs index)
            → IsFirstWrong config calls.now.calls index }
    {
        let Ok(mut node) = NodeCore::new(alloc, config) else {
            return Err(ResumeFault::BadConfig);
        };
        let mut index = 0;
        while let Some(told) = calls.at(index) {
            match node.repeat(alloc, told) {
                Ok(true) => index += 1,
                Ok(false) => {
                    return Err(ResumeFault::Differs {
                        index: index as u64,
                    });
                }
                Err(_) => return Err(ResumeFault::OutOfMemory),
            }
        }
        Ok(node)
    }
}

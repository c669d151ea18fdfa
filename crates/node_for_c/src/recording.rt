//! The lines of a node's part, and calls that are made again from there.

ghost use Rattle.std.specs.Prelude.{◌≡◌, ◌≢◌, ◌⊎◌, length, string_bytes, IfOk, MatchOption, None};
ghost use Rattle.node_core.specs.Traces.{call_kept};
ghost use Rattle.drills.specs.Lines.{line_text, part_head};
ghost use Rattle.drills.specs.Reading.{entry_in as entry_read};
ghost use Rattle.node_for_c.specs.Numbers.{differs, no_entry, no_line, no_memory};
ghost use Rattle.node_for_c.specs.Parts.{AreLines, AreLinesSaid, IsEntrySaid, IsHeadSaid, IsNoHead};
ghost use Rattle.node_for_c.specs.Parts.{IsOtherwise, IsRepeated, LacksCall, head_of};

use crate::registry::{NOT_TEXT, Registry, Said, number_of};
use drills::{PartHead, entry_in, entry_text, part_head_text, write_entry};
use node_core::{NodeFault, Seen};
use std::alloc::{AllocError, Global};

/// What a call is answered whose line the node answers otherwise.
pub const DIFFERS: u32 = 23;

/// What a number is answered of which the node keeps no call.
const NO_ENTRY: u32 = 34;

/// What bytes are answered that are no line of a call.
const NO_LINE: u32 = 35;

impl Registry {
    // The first line of the part of a run.
    fn head_text(&self, alloc: Global, run: &str) -> Result<String, AllocError>
        ensures { IfOk result (λ text.
            string_bytes text ≡ line_text (part_head (head_of self.now.core run.now))) }
    {
        let config = self.core.config();
        let head = PartHead {
            node: config.node,
            nodes: config.nodes,
            cap: config.trace_cap,
            run: String::from_str(alloc, run)?,
        };
        part_head_text(alloc, &head)
    }

    /// The first line of the node's part is to be fetched. The run is any text.
    pub fn say_head(&mut self, alloc: Global, run: &[u8]) -> u32
        ensures text { result ≡ 0 → IsHeadSaid run.now self.old self.new }
        ensures refused { result ≢ 0 → IsNoHead run.now result }
        ensures same { result ≢ 0 → self.new ≡ self.old }
    {
        let Ok(run) = str::from_utf8(run) else {
            return NOT_TEXT;
        };
        match self.head_text(alloc, run) {
            Ok(text) => {
                self.said = Said::Bytes(text.into_bytes());
                0
            }
            Err(_) => number_of(NodeFault::OutOfMemory),
        }
    }

    /// The line of an accepted call is to be fetched.
    pub fn say_entry(&mut self, alloc: Global, index: u64) -> u32
        ensures text { result ≡ 0 → IsEntrySaid index self.old self.new }
        ensures refused { result ≢ 0 → (result ≡ no_memory)
            ⊎ ((result ≡ no_entry) × (call_kept self.old.core index ≡ None)) }
        ensures same { result ≢ 0 → self.new ≡ self.old }
    {
        let Some(call) = self.core.at(index) else {
            return NO_ENTRY;
        };
        match entry_text(alloc, call) {
            Ok(text) => {
                self.said = Said::Bytes(text.into_bytes());
                0
            }
            Err(_) => number_of(NodeFault::OutOfMemory),
        }
    }

    // The lines of the accepted calls from a number on, each with its newline; none where one of them isn't
    // kept, or there are fewer calls.
    fn lines_from(&self, alloc: Global, from: u64) -> Result<Option<Vec<u8>>, AllocError>
        ensures { IfOk result (λ found. MatchOption found (LacksCall self.now.core from)
            (λ lines. AreLines self.now.core from (length self.now.core.trace) lines.items)) }
    {
        let calls = self.core.calls();
        if from > calls {
            return Ok(None);
        }
        let mut lines = Vec::new(alloc);
        for index in from..calls {
            let Some(call) = self.core.at(index) else {
                return Ok(None);
            };
            let Ok(()) = write_entry(alloc, call, &mut lines) else {
                return Err(AllocError);
            };
        }
        Ok(Some(lines))
    }

    /// The lines of the accepted calls from a number on are to be fetched, each with its newline.
    pub fn say_lines(&mut self, alloc: Global, from: u64) -> u32
        ensures text { result ≡ 0 → AreLinesSaid from self.old self.new }
        ensures refused { result ≢ 0 → (result ≡ no_memory)
            ⊎ ((result ≡ no_entry) × LacksCall self.old.core from) }
        ensures same { result ≢ 0 → self.new ≡ self.old }
    {
        match self.lines_from(alloc, from) {
            Ok(Some(lines)) => {
                self.said = Said::Bytes(lines);
                0
            }
            Ok(None) => NO_ENTRY,
            Err(_) => number_of(NodeFault::OutOfMemory),
        }
    }

    /// Makes the call of a line again.
    pub fn repeat(&mut self, alloc: Global, line: &[u8]) -> u32
        ensures ok { result ≡ 0 → IsRepeated line.now self.old self.new }
        ensures differs { result ≡ differs → IsOtherwise line.now self.old }
        ensures no_line { result ≡ no_line → entry_read line.now ≡ None }
        ensures only { result ≢ 0 → (result ≡ differs) ⊎ (result ≡ no_line) ⊎ (result ≡ no_memory) }
        ensures same { result ≢ 0 → result ≢ differs → self.new ≡ self.old }
    {
        let entry = match entry_in(alloc, line) {
            Ok(Some(entry)) => entry,
            Ok(None) => return NO_LINE,
            Err(_) => return number_of(NodeFault::OutOfMemory),
        };
        match self.core.repeat(alloc, Seen::Entry(&entry)) {
            Ok(true) => {
                self.generator.skip(entry.words.len() as u64);
                0
            }
            Ok(false) => DIFFERS,
            Err(_) => number_of(NodeFault::OutOfMemory),
        }
    }
}

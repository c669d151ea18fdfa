//! Reading a whole script, and writing a whole text.

ghost use Rattle.std.specs.Prelude.{◌≡◌, ◌≢◌, ℕ, ◌+◌, ◌<◌, ◌≤◌, ◌↔◌, true, false, length, IfOk, IfErr, OnOk};
ghost use Rattle.streams.specs.declared.fault.ScriptFault.TheVariants.{BadLine, ReadFailed, TooLong, WriteFailed};
ghost use Rattle.streams.specs.Watched.{has_failed, has_unflushed};
ghost use Rattle.streams.specs.Streams.{IfInput, ReadsUpTo, Writes, WritesPrefix};

use crate::fault::ScriptFault;
use crate::watched::Watched;
use std::alloc::Global;
use std::io::{Read, Write};

/// The most bytes of a script.
pub const MOST_BYTES: usize = 16_777_216;

/// Reads all that there is, up to one byte more than a script may have.
pub fn read_script<R: Read>(alloc: Global, reader: &mut Watched<R>) -> Result<Vec<u8>, ScriptFault>
    requires { has_failed reader.old ≡ false }
    ensures ok { IfOk result (λ script.
        IfInput R.remaining reader.old (λ input. script.items ≡ input)) }
    ensures short { IfOk result (λ script. length script.items ≤ MOST_BYTES) }
    ensures failed { (result ≡ Err ReadFailed) ↔ (has_failed reader.new ≡ true) }
    ensures too_long { result ≡ Err TooLong →
        IfInput R.remaining reader.old (λ input. MOST_BYTES < length input) }
    ensures no_write { result ≢ Err WriteFailed }
    ensures no_line { (line : ℕ) → result ≢ Err (BadLine line) }
    ensures taken { ReadsUpTo (MOST_BYTES + 1) R.remaining reader.old reader.new }
{
    let mut script = Vec::new(alloc);
    let mut chunk = [0u8; 4096];
    while script.len() <= MOST_BYTES {
        let room = chunk.len().min(MOST_BYTES + 1 - script.len());
        let Ok(count) = reader.read(&mut chunk[..room]) else {
            return Err(ScriptFault::ReadFailed);
        };
        if count == 0 {
            return Ok(script);
        }
        script.extend_from_slice(&chunk[..count])?;
    }
    Err(ScriptFault::TooLong)
}

/// Writes a text, until a write fails or takes none, and flushes it.
pub fn write_text<W: Write>(writer: &mut Watched<W>, text: &[u8]) -> Result<(), ScriptFault>
    requires { has_failed writer.old ≡ false }
    ensures ok { OnOk result (Writes W.contents writer.old writer.new text.now) }
    ensures prefix { WritesPrefix W.contents writer.old writer.new text.now }
    ensures failed { (result ≡ Err WriteFailed) ↔ (has_failed writer.new ≡ true) }
    ensures only { IfErr result (λ fault. fault ≡ WriteFailed) }
    ensures flushed { OnOk result (has_unflushed writer.new ≡ false) }
{
    let mut rest = text;
    while !rest.is_empty() {
        match writer.write(rest) {
            Ok(0) | Err(_) => return Err(ScriptFault::WriteFailed),
            Ok(count) => rest = &rest[count..],
        }
    }
    writer.flush().map_err(|_| ScriptFault::WriteFailed)
}

//! A caller of `streams`.

ghost use Rattle.std.specs.Prelude.{◌≡◌, false, OnOk};
ghost use Rattle.streams.specs.Streams.{IfInput, Writes};
ghost use Rattle.streams.specs.Watched.{has_failed};

use std::alloc::Global;
use std::io::{Read, Write};
use streams::{ScriptFault, Watched, read_script, write_text};

/// Writes all that a reader has: nothing where it has more than a script may have.
pub fn pass_on<R: Read, W: Write>(
    alloc: Global,
    reader: &mut Watched<R>,
    writer: &mut Watched<W>,
) -> Result<(), ScriptFault>
    requires reader { has_failed reader.old ≡ false }
    requires writer { has_failed writer.old ≡ false }
    ensures { OnOk result (IfInput R.remaining reader.old (λ input.
        Writes W.contents writer.old writer.new input)) }
{
    let script = read_script(alloc, reader)?;
    write_text(writer, script.as_slice())
}

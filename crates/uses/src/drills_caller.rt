//! A recorded drill in memory.

ghost use Rattle.std.specs.Prelude.{◌≡◌, ℕ, IfOk, Ok, Err};
ghost use Rattle.drills.specs.declared.fault.DrillFault.TheVariants.{BadLine};
ghost use Rattle.drills.specs.Drills.{drill_in, drill_of};

use drills::{Drill, DrillFault, read_drill};
use scripts::Watched;
use std::alloc::Global;
use std::io::BufReader;

/// The drill that a text is, or its first bad line.
pub fn drill_told(alloc: Global, text: &[u8]) -> Result<Drill, DrillFault>
    ensures ok { IfOk result (λ drill. drill_in text.now ≡ Ok (drill_of drill)) }
    ensures bad { (line : ℕ) → result ≡ Err (BadLine line) → drill_in text.now ≡ Err line }
{
    let Ok(mut reader) = BufReader::new(alloc, Watched::new(text)) else {
        return Err(DrillFault::OutOfMemory);
    };
    read_drill(alloc, &mut reader)
}

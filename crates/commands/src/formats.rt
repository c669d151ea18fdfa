//! How answers are printed, by the options of the command line.

ghost use Rattle.std.specs.Prelude.{◌≡◌};
ghost use Rattle.commands.specs.Formats.{answer_format};

use answers::Format;

/// How answers are printed: as JSON objects, if these are wanted.
pub fn answer_format(json: bool) -> Format
    ensures { result ≡ answer_format json }
{
    if json { Format::Objects } else { Format::Lines }
}

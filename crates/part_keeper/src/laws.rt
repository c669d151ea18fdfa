//! What holds of journals that recordings wrote.

ghost use Rattle.part_keeper.specs.RecordedLives.{RecordedLivesAreLives};
ghost use Rattle.part_keeper.specs.Wholes.{CallIsInPlace, PieceFollows, PiecesAreWhole};

use std::io::Write;

/// Pieces that were written one after another, each where the one before it ended, are a whole journal: the
/// writer has the lines of all their calls in order, and no other. If one node gave them, these calls are a
/// beginning of its trace, and the call of a receipt stands there at its number.
pub fn journals<W: Write>()
    ensures whole { PiecesAreWhole W.contents }
    ensures next { PieceFollows }
    ensures place { CallIsInPlace }
{}

/// Nodes write the lines of their calls in order, hand out no reply and no message before its line is
/// written, and restart from their journals whenever they end: this is a life as
/// `cluster_model::laws::{lives, restarts, bounded}` ask for.
pub fn recorded_lives()
    ensures { RecordedLivesAreLives }
{}

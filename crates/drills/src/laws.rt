//! What holds of every text of a drill, and of a part, and of every drill that parts join to.

ghost use Rattle.drills.specs.Laws.{BytesAreOneDrill, DrillIsRead, LineIsBad};
ghost use Rattle.drills.specs.Laws.{JoinedListsAreTraces, PartIsRead, PartsAreConcatenated};
ghost use Rattle.drills.specs.Laws.{PiecesBeginBehind, WholePartsStay};

/// Bytes are one drill at most, and that is what is read of them (`drill_in`); what is refused is
/// the first line with which the lines so far are no drill.
pub fn drills_are_read()
    ensures one { BytesAreOneDrill }
    ensures drill { DrillIsRead }
    ensures bad { LineIsBad }
{}

/// What parts come to is what they have of each trace and of each list, one behind the other, and a
/// piece begins behind all that is told of its trace or its list before. A text of the first version
/// is a drill just where its lines tell each part whole.
pub fn pieces_are_concatenated()
    ensures parts { PartsAreConcatenated }
    ensures pieces { PiecesBeginBehind }
    ensures whole { WholePartsStay }
{}

/// What is read of bytes (`part_in`) is the part that they are, and bytes are one at most. The lists of
/// a drill that parts join to are its traces: the list of a node's number has a receipt of each call of
/// the node, with the node and the call's place, and no other.
pub fn parts_are_read()
    ensures part { PartIsRead }
    ensures lists { JoinedListsAreTraces }
{}

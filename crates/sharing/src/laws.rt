//! What holds of the shifts of every round.

ghost use Rattle.sharing.specs.Laws.{GivesOfItsRights, GivesWhatIsDue, GivesOnce};
ghost use Rattle.sharing.specs.Laws.{GivesNothingToTheQuiet, LineIsInOrder};
ghost use Rattle.sharing.specs.Spreads.{DealsAll};

/// Of a term a node never gives more rights than it has, and where it passed lately itself, it keeps
/// one.
pub fn gives_of_its_rights()
    ensures { GivesOfItsRights }
{}

/// A node gives rights to other nodes of the cluster alone, which passed the point since the last
/// round and have no right to the term.
pub fn gives_what_is_due()
    ensures { GivesWhatIsDue }
{}

/// In a round a node makes one shift at most of a term of a point to each node.
pub fn gives_once()
    ensures { GivesOnce }
{}

/// Where no other node's hits grew since the last round, a node gives nothing.
pub fn gives_nothing_to_the_quiet()
    ensures { GivesNothingToTheQuiet }
{}

/// A line has those that wait, each once, and who executed the term less often comes first.
pub fn line_is_in_order()
    ensures { LineIsInOrder }
{}

/// The equal shares of all nodes, with those that are one more, are all the rights that are dealt.
pub fn deals_all()
    ensures { DealsAll }
{}

//! What holds of every set of operations, and so of every replica: the law `reached` of `Replica`
//! says that each value stands for the state of one.

ghost use Rattle.replica_state.specs.Laws.{SameOperationsSameState, SameKnownSameState};
ghost use Rattle.replica_state.specs.Laws.{UnionIsLeast, StateKnowsAsSet, ChangesIsChange};
ghost use Rattle.replica_state.specs.Laws.{SpentAndRemainingAddUp, LearnedIsOneMore, UnionIsBoth};
ghost use Rattle.replica_state.specs.Laws.{NamesAreHeld};

/// The state of a set depends on no order and no repeats, and sets that know the same operations
/// come to one state.
pub fn same_state()
    ensures operations { SameOperationsSameState }
    ensures known { SameKnownSameState }
{}

/// The state of a union is the least above both.
pub fn union_is_least()
    ensures { UnionIsLeast }
{}

/// The state of a set knows an operation exactly where the set does, and operations leave it as it
/// was exactly where it knows them all.
pub fn changed()
    ensures knows { StateKnowsAsSet }
    ensures changes { ChangesIsChange }
{}

/// In every state, what was spent of a counted term and the rights that remain add up to its count
/// and what was granted.
pub fn conserved()
    ensures { SpentAndRemainingAddUp }
{}

/// What a replica learns is one operation more: where some well-formed operations come to a state,
/// such operations come to it, and with the one that it learns to the state after. A union is of
/// such operations of both.
pub fn learned()
    ensures one { LearnedIsOneMore }
    ensures union { UnionIsBoth }
{}

/// The names of every state that well-formed operations come to are those with a key or a hit, in
/// byte order and each once.
pub fn named()
    ensures { NamesAreHeld }
{}

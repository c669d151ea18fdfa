//! What the definitions promise of all messages. Nothing here runs.

ghost use Rattle.std.specs.Prelude.{◌≡◌, ℕ, List};
ghost use Rattle.operations.specs.Operations.{Operation};
ghost use Rattle.replica_state.specs.Deltas.{IsAllTold};
ghost use Rattle.replica_state.specs.Folds.{fold};
ghost use Rattle.message_format.specs.Messages.{MessageValue, operations_in};
ghost use Rattle.delta_exchange.specs.Wholes.{AreLawful};

/// A message that tells all of what lawful operations come to tells operations that come to the
/// same.
pub fn whole_is_learned()
    ensures { (nodes : ℕ) (ops : List Operation) (m : MessageValue) → AreLawful nodes ops
        → IsAllTold (fold ops) (operations_in m) → fold (operations_in m) ≡ fold ops }
{}

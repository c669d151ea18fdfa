//! Which registry is meant.

use std::marker::Brand;
use std::sync::ledger::Ledger;

/// Names one registry: the ledger of its calls, cut into as many parts as the registry has seats, the
/// configuration of its node, the seed of its random draws, and whether it keeps each accepted call
/// for life. So a seat belongs to its registry by its type.
pub trait Label: Ledger {
    ghost use Rattle.std.specs.Prelude.{ℕ, Bool, List};
    ghost use Rattle.node_steps.specs.declared.config.Config.{Config};

    ghost config: { Config };

    ghost seed: { List ℕ };

    ghost keeps: { Bool };
}

impl Label for Brand {
    ghost use Rattle.std.specs.Prelude.{[], true};

    ghost config = { record { node = 0; nodes = 1; trace_cap = 0 } };

    ghost seed = { [] };

    ghost keeps = { true };
}

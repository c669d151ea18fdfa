//! Which waits are meant.

use node_registry::Label;
use std::marker::Brand;

/// Names one registry, and what the workers of its run wait for.
pub trait Waiting: Label {
    ghost use Rattle.std.specs.Prelude.{List};
    ghost use Rattle.thread_workers.specs.declared.waits.Await.{Await};

    ghost waits: { List Await };
}

impl Waiting for Brand {
    ghost use Rattle.std.specs.Prelude.{[]};

    ghost waits = { [] };
}
